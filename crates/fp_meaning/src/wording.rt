//! The parts of a group by their numbers, and the terms that its relations speak of.

use crate::shared::Setting;
use fp_conclude::{apply, apply_both, equation};
use fp_group::{CallSite, Clause, Head, copy_variables};
use fp_proof::Stop;
use fp_spec::{calls_at, clause_fact, clause_variables, in_term, result_in};
use fp_term::{Items, Name, Term, Ty};
use std::alloc::{AllocError, Global};

/// The index as a number of a function.
pub(crate) fn number_of(index: usize) -> Result<u32, Stop> {
    match u32::try_from(index) {
        Ok(number) => Ok(number),
        Err(_) => Err(Stop::Stuck),
    }
}

/// The terms with their calls replaced.
pub(crate) fn all_calls_by(
    alloc: Global,
    heads: &[Head],
    by: &Term,
    terms: &[Term],
) -> Result<Items<Term>, AllocError> {
    let mut made = Items::new(alloc);
    for term in terms {
        made.push(calls_at(alloc, heads, by, term)?)?;
    }
    Ok(made)
}

impl<'g> Setting<'g> {
    /// The functions.
    pub fn heads(&self) -> &'g [Head] {
        self.group.heads.as_slice()
    }

    /// The function of that index.
    pub fn head(&self, i: usize) -> Result<&'g Head, Stop> {
        match self.group.heads.as_slice().get(i) {
            Some(head) => Ok(head),
            None => Err(Stop::Stuck),
        }
    }

    /// The completed clause of that index.
    pub fn clause(&self, j: usize) -> Result<&'g Clause, Stop> {
        match self.group.clauses.as_slice().get(j) {
            Some(clause) => Ok(clause),
            None => Err(Stop::Stuck),
        }
    }

    /// The call site of that index.
    pub fn site(&self, q: usize) -> Result<&'g CallSite, Stop> {
        match self.group.sites.as_slice().get(q) {
            Some(site) => Ok(site),
            None => Err(Stop::Stuck),
        }
    }

    /// The indices of a clause's call sites, in order.
    pub fn sites_of(&self, alloc: Global, j: usize) -> Result<Items<usize>, Stop> {
        let mut indices = Items::new(alloc);
        let sites = self.group.sites.as_slice();
        for q in 0..sites.len() {
            if sites[q].clause as usize == j {
                indices.push(q)?;
            }
        }
        Ok(indices)
    }

    /// The variables of a clause.
    pub fn clause_vars(&self, alloc: Global, j: usize) -> Result<Items<(Name, Ty)>, Stop> {
        Ok(clause_variables(alloc, self.clause(j)?)?)
    }

    /// The variables of a call site, those of its clause first.
    pub fn row_vars(&self, alloc: Global, q: usize) -> Result<Items<(Name, Ty)>, Stop> {
        let site = self.site(q)?;
        let vars = self.clause_vars(alloc, site.clause as usize)?;
        let added = copy_variables(alloc, site.vars.as_slice())?;
        Ok(vars.extended(added)?)
    }

    /// `in(p)`, of a clause.
    pub fn in_p(&self, alloc: Global, j: usize) -> Result<Term, Stop> {
        let clause = self.clause(j)?;
        let patterns = clause.patterns.as_slice();
        Ok(in_term(alloc, self.heads(), clause.function, patterns)?)
    }

    /// `inr(r[h])`, of a clause.
    pub fn inr_r(&self, alloc: Global, j: usize, by: &Term) -> Result<Term, Stop> {
        let clause = self.clause(j)?;
        let right = calls_at(alloc, self.heads(), by, &clause.right)?;
        Ok(result_in(alloc, self.heads(), clause.function, &right)?)
    }

    /// `in(a)`, of a call site.
    pub fn in_a(&self, alloc: Global, q: usize) -> Result<Term, Stop> {
        let site = self.site(q)?;
        let args = site.args.as_slice();
        Ok(in_term(alloc, self.heads(), site.callee, args)?)
    }

    /// `in(a[h])`, of a call site.
    pub fn in_a_by(&self, alloc: Global, q: usize, by: &Term) -> Result<Term, Stop> {
        let site = self.site(q)?;
        let args = all_calls_by(alloc, self.heads(), by, site.args.as_slice())?;
        Ok(in_term(alloc, self.heads(), site.callee, args.as_slice())?)
    }

    /// `x = in(p) /\ y = inr(r[h])`, of a clause.
    pub fn clause_fact(
        &self,
        alloc: Global,
        j: usize,
        h: &Term,
        x: &Term,
        y: &Term,
    ) -> Result<Term, Stop> {
        let clause = self.clause(j)?;
        Ok(clause_fact(alloc, self.heads(), h, x, y, clause)?)
    }

    // `s = t`, of two arguments.
    fn same_argument(&self, alloc: Global, left: &Term, right: &Term) -> Result<Term, Stop> {
        Ok(equation(alloc, &self.x.1, left, right)?)
    }

    /// `x = in(p)`, `G1[h]`, .., `z = in(a[h])`, of a call site.
    pub fn row_facts(
        &self,
        alloc: Global,
        q: usize,
        h: &Term,
        z: &Term,
        x: &Term,
    ) -> Result<Items<Term>, Stop> {
        let site = self.site(q)?;
        let caller = self.in_p(alloc, site.clause as usize)?;
        let mut facts = Items::new(alloc).appended(self.same_argument(alloc, x, &caller)?)?;
        for guard in site.guards.as_slice() {
            facts.push(calls_at(alloc, self.heads(), h, guard)?)?;
        }
        let callee = self.in_a_by(alloc, q, h)?;
        Ok(facts.appended(self.same_argument(alloc, z, &callee)?)?)
    }

    /// `t[h]`.
    pub fn calls_by(&self, alloc: Global, by: &Term, t: &Term) -> Result<Term, Stop> {
        Ok(calls_at(alloc, self.heads(), by, t)?)
    }

    /// `f_dom t`.
    pub fn domain_at(&self, alloc: Global, t: &Term) -> Result<Term, Stop> {
        Ok(apply(alloc, &self.dom, t)?)
    }

    /// `f_clauses h x y`.
    pub fn holds_clauses(&self, alloc: Global, h: &Term, x: &Term, y: &Term) -> Result<Term, Stop> {
        let relation = apply(alloc, &self.clauses, h)?;
        Ok(apply_both(alloc, &relation, x, y)?)
    }

    /// `f_calls h z x`.
    pub fn holds_calls(&self, alloc: Global, h: &Term, z: &Term, x: &Term) -> Result<Term, Stop> {
        let relation = apply(alloc, &self.calls, h)?;
        Ok(apply_both(alloc, &relation, z, x)?)
    }

    /// `f_rel z x`.
    pub fn holds_rel(&self, alloc: Global, z: &Term, x: &Term) -> Result<Term, Stop> {
        Ok(apply_both(alloc, &self.rel, z, x)?)
    }
}
