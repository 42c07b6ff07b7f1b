//! The rules, from lines to a new line.
ghost use Rattle.std.specs.Prelude.{◌≡◌, OnOk};

use crate::proof::{Line, Proof};
use crate::stop::Stop;
use fp_conclude::typed_over;
use fp_conv::beta_norm;
use fp_disjunction::{cases, disj1, disj2, false_elim, not_elim};
use fp_logic::{ap, ap_arg, conj_known, conj1, conj2, disch, mp, sym, undisch};
use fp_quant::{choose, exists, ext, spec};
use fp_term::{Name, Term, Ty};

impl<'t> Proof<'t> {
    /// `t = t`.
    #[tactic(auto, using(crate::proofs::Made::made))]
    pub fn refl(&mut self, term: &Term) -> Result<Line, Stop>
        ensures { OnOk result (self.new ≡ self.old) }
    {
        let th = self.theory().defs().refl(self.alloc(), term)?;
        self.put(th)
    }

    /// `s = u` from `s = t` and `t = u`.
    #[tactic(auto, using(crate::proofs::Made::made))]
    pub fn trans(&mut self, first: Line, second: Line) -> Result<Line, Stop>
        ensures { OnOk result (self.new ≡ self.old) }
    {
        let th = self
            .theory()
            .defs()
            .trans(self.alloc(), self.at(first)?, self.at(second)?)?;
        self.put(th)
    }

    /// `f x = g y` from `f = g` and `x = y`.
    #[tactic(auto, using(crate::proofs::Made::made))]
    pub fn mk_comb(&mut self, first: Line, second: Line) -> Result<Line, Stop>
        ensures { OnOk result (self.new ≡ self.old) }
    {
        let th = self
            .theory()
            .defs()
            .mk_comb(self.alloc(), self.at(first)?, self.at(second)?)?;
        self.put(th)
    }

    /// `(%x. s) = (%x. t)` from `s = t`, where `x` is free in no hypothesis.
    #[tactic(auto, using(crate::proofs::Made::made))]
    pub fn lam(&mut self, var: &(Name, Ty), body: Line) -> Result<Line, Stop>
        ensures { OnOk result (self.new ≡ self.old) }
    {
        let th = self
            .theory()
            .defs()
            .lam(self.alloc(), &var.0, &var.1, self.at(body)?)?;
        self.put(th)
    }

    /// `(%v. b) u = b` with `u` for `v`.
    #[tactic(auto, using(crate::proofs::Made::made))]
    pub fn beta(&mut self, term: &Term) -> Result<Line, Stop>
        ensures { OnOk result (self.new ≡ self.old) }
    {
        let th = self.theory().defs().beta(self.alloc(), term)?;
        self.put(th)
    }

    /// A formula from itself.
    #[tactic(auto, using(crate::proofs::Made::made))]
    pub fn assume(&mut self, formula: &Term) -> Result<Line, Stop>
        ensures { OnOk result (self.new ≡ self.old) }
    {
        let th = self.theory().defs().assume(self.alloc(), formula)?;
        self.put(th)
    }

    /// `q` from `p = q` and `p`.
    #[tactic(auto, using(crate::proofs::Made::made))]
    pub fn eq_mp(&mut self, equation: Line, held: Line) -> Result<Line, Stop>
        ensures { OnOk result (self.new ≡ self.old) }
    {
        let th = self
            .theory()
            .defs()
            .eq_mp(self.alloc(), self.at(equation)?, self.at(held)?)?;
        self.put(th)
    }

    /// The instance by terms for variables of their types, of the hypotheses too.
    #[tactic(auto, using(crate::proofs::Made::made))]
    pub fn inst(&mut self, line: Line, pairs: &[(Name, Ty, Term)]) -> Result<Line, Stop>
        ensures { OnOk result (self.new ≡ self.old) }
    {
        let th = self
            .theory()
            .defs()
            .inst(self.alloc(), self.at(line)?, pairs)?;
        self.put(th)
    }

    /// The instance by types for type variables, of the hypotheses too.
    #[tactic(auto, using(crate::proofs::Made::made))]
    pub fn inst_ty(&mut self, line: Line, pairs: &[(Name, Ty)]) -> Result<Line, Stop>
        ensures { OnOk result (self.new ≡ self.old) }
    {
        let th = self
            .theory()
            .defs()
            .inst_ty(self.alloc(), self.at(line)?, pairs)?;
        self.put(th)
    }

    /// `t = s` from `s = t`.
    #[tactic(auto, using(crate::proofs::Made::made))]
    pub fn sym(&mut self, line: Line) -> Result<Line, Stop>
        ensures { OnOk result (self.new ≡ self.old) }
    {
        let th = sym(self.alloc(), self.theory().defs(), self.at(line)?)?;
        self.put(th)
    }

    /// `f s = f t` from `s = t`.
    #[tactic(auto, using(crate::proofs::Made::made))]
    pub fn ap(&mut self, function: &Term, line: Line) -> Result<Line, Stop>
        ensures { OnOk result (self.new ≡ self.old) }
    {
        let th = ap(self.alloc(), self.theory().defs(), function, self.at(line)?)?;
        self.put(th)
    }

    /// `f t = g t` from `f = g`.
    #[tactic(auto, using(crate::proofs::Made::made))]
    pub fn ap_arg(&mut self, line: Line, argument: &Term) -> Result<Line, Stop>
        ensures { OnOk result (self.new ≡ self.old) }
    {
        let th = ap_arg(self.alloc(), self.theory().defs(), self.at(line)?, argument)?;
        self.put(th)
    }

    /// `p /\ q` from `p` and `q`.
    #[tactic(auto, using(crate::proofs::Made::joins))]
    pub fn conj(&mut self, first: Line, second: Line) -> Result<Line, Stop>
        ensures { OnOk result (self.new ≡ self.old) }
    {
        let th = conj_known(
            self.alloc(),
            self.theory().defs(),
            self.at(first)?,
            self.at(second)?,
        )?;
        self.put(th)
    }

    /// `p` from `p /\ q`.
    #[tactic(auto, using(crate::proofs::Made::made))]
    pub fn conj1(&mut self, line: Line) -> Result<Line, Stop>
        ensures { OnOk result (self.new ≡ self.old) }
    {
        let th = conj1(self.alloc(), self.theory().defs(), self.at(line)?)?;
        self.put(th)
    }

    /// `q` from `p /\ q`.
    #[tactic(auto, using(crate::proofs::Made::made))]
    pub fn conj2(&mut self, line: Line) -> Result<Line, Stop>
        ensures { OnOk result (self.new ≡ self.old) }
    {
        let th = conj2(self.alloc(), self.theory().defs(), self.at(line)?)?;
        self.put(th)
    }

    /// `q` from `p --> q` and `p`.
    #[tactic(auto, using(crate::proofs::Made::made))]
    pub fn mp(&mut self, rule: Line, held: Line) -> Result<Line, Stop>
        ensures { OnOk result (self.new ≡ self.old) }
    {
        let th = mp(
            self.alloc(),
            self.theory().defs(),
            self.at(rule)?,
            self.at(held)?,
        )?;
        self.put(th)
    }

    /// `p --> q` from `q`, without the hypothesis `p`.
    #[tactic(auto, using(crate::proofs::Made::made))]
    pub fn disch(&mut self, formula: &Term, line: Line) -> Result<Line, Stop>
        ensures { OnOk result (self.new ≡ self.old) }
    {
        let th = disch(self.alloc(), self.theory().defs(), formula, self.at(line)?)?;
        self.put(th)
    }

    /// `q` from `p --> q`, on the hypothesis `p`.
    #[tactic(auto, using(crate::proofs::Made::undischarges))]
    pub fn undisch(&mut self, line: Line) -> Result<Line, Stop>
        ensures { OnOk result (self.new ≡ self.old) }
    {
        let th = undisch(self.alloc(), self.theory().defs(), self.at(line)?)?;
        self.put(th)
    }

    /// `!x. p` from `p`, where `x` is free in no hypothesis.
    #[tactic(auto, using(crate::proofs::Made::made))]
    pub fn gen_all(&mut self, var: &(Name, Ty), line: Line) -> Result<Line, Stop>
        ensures { OnOk result (self.new ≡ self.old) }
    {
        let th = fp_quant::gen_all(
            self.alloc(),
            self.theory().defs(),
            &var.0,
            &var.1,
            self.at(line)?,
        )?;
        self.put(th)
    }

    /// `p` at a term, from `!x. p`.
    #[tactic(auto, using(crate::proofs::Made::made))]
    pub fn spec(&mut self, line: Line, term: &Term) -> Result<Line, Stop>
        ensures { OnOk result (self.new ≡ self.old) }
    {
        let th = spec(self.alloc(), self.theory().defs(), self.at(line)?, term)?;
        self.put(th)
    }

    /// `?x. p`, which is the first term, from `p` at the witness.
    #[tactic(auto, using(crate::proofs::Made::made))]
    pub fn exists(&mut self, some: &Term, witness: &Term, line: Line) -> Result<Line, Stop>
        ensures { OnOk result (self.new ≡ self.old) }
    {
        let th = exists(
            self.alloc(),
            self.theory().defs(),
            some,
            witness,
            self.at(line)?,
        )?;
        self.put(th)
    }

    /// `q` from `?x. p` and from `q` on the hypothesis `p` at a variable.
    #[tactic(auto, using(crate::proofs::Made::chooses))]
    pub fn choose(&mut self, var: &(Name, Ty), some: Line, line: Line) -> Result<Line, Stop>
        ensures { OnOk result (self.new ≡ self.old) }
    {
        let th = choose(
            self.alloc(),
            self.theory().defs(),
            &var.0,
            &var.1,
            self.at(some)?,
            self.at(line)?,
        )?;
        self.put(th)
    }

    /// `p \/ q` from `p`.
    #[tactic(auto, using(crate::proofs::Made::made))]
    pub fn disj1(&mut self, line: Line, second: &Term) -> Result<Line, Stop>
        ensures { OnOk result (self.new ≡ self.old) }
    {
        let th = disj1(self.alloc(), self.theory().defs(), self.at(line)?, second)?;
        self.put(th)
    }

    /// `p \/ q` from `q`.
    #[tactic(auto, using(crate::proofs::Made::made))]
    pub fn disj2(&mut self, first: &Term, line: Line) -> Result<Line, Stop>
        ensures { OnOk result (self.new ≡ self.old) }
    {
        let th = disj2(self.alloc(), self.theory().defs(), first, self.at(line)?)?;
        self.put(th)
    }

    /// `r` from `p \/ q`, and from `r` on either hypothesis.
    #[tactic(auto, using(crate::proofs::Made::decides))]
    pub fn cases(&mut self, either: Line, first: Line, second: Line) -> Result<Line, Stop>
        ensures { OnOk result (self.new ≡ self.old) }
    {
        let th = cases(
            self.alloc(),
            self.theory().defs(),
            self.at(either)?,
            self.at(first)?,
            self.at(second)?,
        )?;
        self.put(th)
    }

    /// `p --> F` from `~ p`.
    #[tactic(auto, using(crate::proofs::Made::made))]
    pub fn not_elim(&mut self, line: Line) -> Result<Line, Stop>
        ensures { OnOk result (self.new ≡ self.old) }
    {
        let th = not_elim(self.alloc(), self.theory().defs(), self.at(line)?)?;
        self.put(th)
    }

    /// Any formula from `F`.
    #[tactic(auto, using(crate::proofs::Made::made))]
    pub fn false_elim(&mut self, formula: &Term, line: Line) -> Result<Line, Stop>
        ensures { OnOk result (self.new ≡ self.old) }
    {
        let th = false_elim(self.alloc(), self.theory().defs(), formula, self.at(line)?)?;
        self.put(th)
    }

    /// `f = g` from `f x = g x`, where `x` is free in neither and in no hypothesis.
    #[tactic(auto, using(crate::proofs::Made::made))]
    pub fn ext(&mut self, var: &(Name, Ty), line: Line) -> Result<Line, Stop>
        ensures { OnOk result (self.new ≡ self.old) }
    {
        let th = ext(
            self.alloc(),
            self.theory().defs(),
            &var.0,
            &var.1,
            self.at(line)?,
        )?;
        self.put(th)
    }

    /// `t = u`, where `u` is the beta-normal form of `t`.
    #[tactic(auto, using(crate::proofs::Made::found_typed, crate::proofs::Made::normalizes))]
    pub fn normal(&mut self, term: &Term) -> Result<Line, Stop>
        ensures { OnOk result (self.new ≡ self.old) }
    {
        drop(typed_over(self.alloc(), self.theory().signature(), term)?);
        let th = beta_norm(self.alloc(), self.theory().defs(), term)?;
        self.put(th)
    }
}
