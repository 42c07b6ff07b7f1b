//! A group's relations at any terms: what they unfold to, what makes them hold, and what follows from them.
ghost use Rattle.std.specs.Prelude.{◌≡◌, OnOk};

use crate::lemmas::{definition, three_pairs};
use crate::shared::Setting;
use fp_proof::{Line, Proof, Stop};
use fp_spec::function_at;
use fp_term::{Items, Term};

// The rule of that index.
fn rule_at(rules: &[Line], index: usize) -> Result<Line, Stop> {
    match rules.get(index) {
        Some(rule) => Ok(*rule),
        None => Err(Stop::Stuck),
    }
}

impl<'g> Setting<'g> {
    // A line about `h`, `x` and `y` at these terms.
    fn at_clause_terms(
        &self,
        proof: &mut Proof<'_>,
        line: Line,
        h: &Term,
        x: &Term,
        y: &Term,
    ) -> Result<Line, Stop>
        ensures { OnOk result (proof.new ≡ proof.old) }
    {
        let vars = (&self.h, &self.x, &self.y);
        let pairs = three_pairs(proof.alloc(), vars, (h, x, y))?;
        proof.inst(line, pairs.as_slice())
    }

    // A line about `h`, `z` and `x` at these terms.
    fn at_row_terms(
        &self,
        proof: &mut Proof<'_>,
        line: Line,
        h: &Term,
        z: &Term,
        x: &Term,
    ) -> Result<Line, Stop>
        ensures { OnOk result (proof.new ≡ proof.old) }
    {
        let vars = (&self.h, &self.z, &self.x);
        let pairs = three_pairs(proof.alloc(), vars, (h, z, x))?;
        proof.inst(line, pairs.as_slice())
    }

    /// `f_clauses h x y = (?vars. x = in(p) /\ y = inr(r[h])) \/ ..`
    pub fn unfolded_clauses(
        &self,
        proof: &mut Proof<'_>,
        h: &Term,
        x: &Term,
        y: &Term,
    ) -> Result<Line, Stop>
        ensures { OnOk result (proof.new ≡ proof.old) }
    {
        self.at_clause_terms(proof, self.meaning.clauses, h, x, y)
    }

    /// `f_calls h z x = (?vars. x = in(p) /\ G1[h] /\ .. /\ z = in(a[h])) \/ ..`
    pub fn unfolded_calls(
        &self,
        proof: &mut Proof<'_>,
        h: &Term,
        z: &Term,
        x: &Term,
    ) -> Result<Line, Stop>
        ensures { OnOk result (proof.new ≡ proof.old) }
    {
        self.at_row_terms(proof, self.meaning.calls, h, z, x)
    }

    /// `f_rel z x = f_calls f_sum z x`
    pub fn unfolded_rel(&self, proof: &mut Proof<'_>, z: &Term, x: &Term) -> Result<Line, Stop>
        ensures { OnOk result (proof.new ≡ proof.old) }
    {
        let mut terms = Items::new(proof.alloc());
        terms.push(z.copy()?)?;
        terms.push(x.copy()?)?;
        let line = definition(proof, &self.rel)?;
        proof.applied_to(line, terms.as_slice())
    }

    /// `f_dom x = acc f_rel x`
    pub fn unfolded_dom(&self, proof: &mut Proof<'_>, x: &Term) -> Result<Line, Stop>
        ensures { OnOk result (proof.new ≡ proof.old) }
    {
        let line = definition(proof, &self.dom)?;
        proof.ap_arg(line, x)
    }

    /// `f t1 .. tn = out(f_sum (in(t1, .., tn)))`
    pub fn unfolded_function(
        &self,
        proof: &mut Proof<'_>,
        i: usize,
        args: &[Term],
    ) -> Result<Line, Stop>
        ensures { OnOk result (proof.new ≡ proof.old) }
    {
        let function = function_at(proof.alloc(), self.head(i)?)?;
        let line = definition(proof, &function)?;
        proof.applied_to(line, args)
    }

    /// `x = in(p) /\ y = inr(r[h]) --> f_clauses h x y`
    pub fn clause_rule(
        &self,
        proof: &mut Proof<'_>,
        j: usize,
        h: &Term,
        x: &Term,
        y: &Term,
    ) -> Result<Line, Stop>
        ensures { OnOk result (proof.new ≡ proof.old) }
    {
        let rule = rule_at(self.meaning.clause_rules.as_slice(), j)?;
        self.at_clause_terms(proof, rule, h, x, y)
    }

    /// `x = in(p) /\ G1[h] /\ .. /\ z = in(a[h]) --> f_calls h z x`
    pub fn row_rule(
        &self,
        proof: &mut Proof<'_>,
        q: usize,
        h: &Term,
        z: &Term,
        x: &Term,
    ) -> Result<Line, Stop>
        ensures { OnOk result (proof.new ≡ proof.old) }
    {
        let rule = rule_at(self.meaning.row_rules.as_slice(), q)?;
        self.at_row_terms(proof, rule, h, z, x)
    }

    /// `f_clauses h (in(p)) (inr(r[h]))`, where these are the two terms.
    pub fn clause_holds(
        &self,
        proof: &mut Proof<'_>,
        j: usize,
        h: &Term,
        argument: &Term,
        value: &Term,
    ) -> Result<Line, Stop>
        ensures { OnOk result (proof.new ≡ proof.old) }
    {
        let rule = self.clause_rule(proof, j, h, argument, value)?;
        let first = proof.refl(argument)?;
        let second = proof.refl(value)?;
        let both = proof.conj(first, second)?;
        proof.mp(rule, both)
    }

    // From the rules of all clauses, without their variables, to the goal.
    fn clauses_to(&self, proof: &mut Proof<'_>, rules: &[Line], goal: &Term) -> Result<Line, Stop>
        ensures { OnOk result (proof.new ≡ proof.old) }
    {
        let mut turned = Items::new(proof.alloc());
        for j in 0..rules.len() {
            let vars = self.clause_vars(proof.alloc(), j)?;
            turned.push(proof.somes_to(vars.as_slice(), rules[j])?)?;
        }
        proof.cases_to(turned.as_slice(), goal)
    }

    /// `f_clauses h x y --> q` from `x = in(p) /\ y = inr(r[h]) --> q`, of each clause.
    pub fn clauses_eliminated(
        &self,
        proof: &mut Proof<'_>,
        h: &Term,
        x: &Term,
        y: &Term,
        rules: &[Line],
        goal: &Term,
    ) -> Result<Line, Stop>
        ensures { OnOk result (proof.new ≡ proof.old) }
    {
        let rule = self.clauses_to(proof, rules, goal)?;
        let unfolded = self.unfolded_clauses(proof, h, x, y)?;
        proof.with_premise(unfolded, rule)
    }

    // From the rules of all call sites, without their variables, to the goal.
    fn rows_to(&self, proof: &mut Proof<'_>, rules: &[Line], goal: &Term) -> Result<Line, Stop>
        ensures { OnOk result (proof.new ≡ proof.old) }
    {
        let mut turned = Items::new(proof.alloc());
        for q in 0..rules.len() {
            let vars = self.row_vars(proof.alloc(), q)?;
            turned.push(proof.somes_to(vars.as_slice(), rules[q])?)?;
        }
        proof.cases_to(turned.as_slice(), goal)
    }

    /// `f_calls h z x --> q` from `x = in(p) /\ G1[h] /\ .. /\ z = in(a[h]) --> q`, of each call site.
    pub fn calls_eliminated(
        &self,
        proof: &mut Proof<'_>,
        h: &Term,
        z: &Term,
        x: &Term,
        rules: &[Line],
        goal: &Term,
    ) -> Result<Line, Stop>
        ensures { OnOk result (proof.new ≡ proof.old) }
    {
        let rule = self.rows_to(proof, rules, goal)?;
        let unfolded = self.unfolded_calls(proof, h, z, x)?;
        proof.with_premise(unfolded, rule)
    }
}
