//! The rules: each gives its theorem exactly where its shape holds.
ghost use Rattle.std.specs.Prelude.{◌≤◌, [], ◌∷◌};
ghost use Rattle.fp_conclude.specs.Logic.{truth_type, equal};
ghost use Rattle.fp_conclude.specs.Hypotheses.{union, without, all_replaced, all_retyped_terms};
ghost use Rattle.fp_conclude.specs.Outcomes.{Answers, gives};
ghost use Rattle.fp_conclude.specs.Rules.{refl_of, trans_of, mk_comb_of, lam_of, beta_of, assume_of, eq_mp_of, inst_of, inst_ty_of};
ghost use Rattle.fp_conclude.specs.Axioms.{axiom_numbered, connective_numbered};
ghost use Rattle.fp_kernel.specs.Definitions.{Within};
ghost use Rattle.fp_kernel.specs.Start.{signature_of};
ghost use Rattle.fp_kernel.specs.Theorems.{stands, from_one, from_two, from_both};

use crate::defs::Defs;
use crate::thm::Thm;
use fp_conclude::{self, Axiom, LogicalConstant, RuleFault, all_instances, all_retyped, single};
use fp_term::{Items, Name, Term, Ty, copy_all};
use std::alloc::Global;

impl Defs {
    /// `t = t` (REFL).
    pub fn refl(&self, alloc: Global, term: &Term) -> Result<Thm, RuleFault>
        ensures { Answers result (stands self.now [] [] (refl_of (signature_of self.now) term.now)) }
    {
        let concl = fp_conclude::refl(alloc, self.signature(), term)?;
        Ok(self.plain(alloc, Items::new(alloc), concl)?)
    }

    /// `s = u` from `s = t` and `t = u` (TRANS).
    pub fn trans(&self, alloc: Global, first: &Thm, second: &Thm) -> Result<Thm, RuleFault>
        requires first_within { Within first.now.defs self.now }
        requires second_within { Within second.now.defs self.now }
        ensures { Answers result (from_both self.now first.now second.now (trans_of first.now.concl second.now.concl)) }
    {
        let concl = fp_conclude::trans(alloc, first.concl(), second.concl())?;
        Ok(self.over_both(alloc, first, second, concl)?)
    }

    /// `f x = g y` from `f = g` and `x = y` (MK_COMB).
    pub fn mk_comb(&self, alloc: Global, first: &Thm, second: &Thm) -> Result<Thm, RuleFault>
        requires first_within { Within first.now.defs self.now }
        requires second_within { Within second.now.defs self.now }
        ensures { Answers result (from_both self.now first.now second.now (mk_comb_of first.now.concl second.now.concl)) }
    {
        let concl = fp_conclude::mk_comb(alloc, first.concl(), second.concl())?;
        Ok(self.over_both(alloc, first, second, concl)?)
    }

    /// `(%x. s) = (%x. t)` from `s = t`, where `x` is free in no hypothesis (ABS).
    pub fn lam(&self, alloc: Global, name: &Name, ty: &Ty, given: &Thm) -> Result<Thm, RuleFault>
        requires { Within given.now.defs self.now }
        ensures { Answers result (from_one self.now given.now given.now.hyps (lam_of (signature_of self.now) name.now ty.now given.now.hyps given.now.concl)) }
    {
        let concl = fp_conclude::lam(
            alloc,
            self.signature(),
            name,
            ty,
            given.hyps(),
            given.concl(),
        )?;
        let hyps = copy_all(alloc, given.hyps())?;
        Ok(self.over_one(alloc, given, hyps, concl)?)
    }

    /// `(%v. b) u = b` with `u` for `v` (BETA, for every redex).
    pub fn beta(&self, alloc: Global, term: &Term) -> Result<Thm, RuleFault>
        ensures { Answers result (stands self.now [] [] (beta_of (signature_of self.now) term.now)) }
    {
        let concl = fp_conclude::beta(alloc, self.signature(), term)?;
        Ok(self.plain(alloc, Items::new(alloc), concl)?)
    }

    /// A formula from itself (ASSUME).
    pub fn assume(&self, alloc: Global, term: &Term) -> Result<Thm, RuleFault>
        ensures { Answers result (stands self.now [] (term.now ∷ []) (assume_of (signature_of self.now) term.now)) }
    {
        let concl = fp_conclude::assume(alloc, self.signature(), term)?;
        let hyps = single(alloc, term)?;
        Ok(self.plain(alloc, hyps, concl)?)
    }

    /// `q` from `p = q` and `p` (EQ_MP).
    pub fn eq_mp(&self, alloc: Global, first: &Thm, second: &Thm) -> Result<Thm, RuleFault>
        requires first_within { Within first.now.defs self.now }
        requires second_within { Within second.now.defs self.now }
        ensures { Answers result (from_both self.now first.now second.now (eq_mp_of first.now.concl second.now.concl)) }
    {
        let concl = fp_conclude::eq_mp(first.concl(), second.concl())?;
        Ok(self.over_both(alloc, first, second, concl)?)
    }

    /// `p = q` from `p` and `q`, without `q` among the hypotheses of the first and without `p` among those of the
    /// second (DEDUCT_ANTISYM_RULE).
    pub fn antisym(&self, alloc: Global, first: &Thm, second: &Thm) -> Result<Thm, RuleFault>
        requires first_within { Within first.now.defs self.now }
        requires second_within { Within second.now.defs self.now }
        ensures { Answers result (from_two self.now first.now second.now (union (without second.now.concl first.now.hyps) (without first.now.concl second.now.hyps)) (gives (equal truth_type first.now.concl second.now.concl))) }
    {
        Ok(self.antisym_known(alloc, first, second)?)
    }

    /// The instance by terms for variables of their types, of the hypotheses too (INST). All pairs are put in at once;
    /// of several for one variable the first counts.
    pub fn inst(
        &self,
        alloc: Global,
        given: &Thm,
        pairs: &[(Name, Ty, Term)],
    ) -> Result<Thm, RuleFault>
        requires { Within given.now.defs self.now }
        ensures { Answers result (from_one self.now given.now (all_replaced pairs.now given.now.hyps) (inst_of (signature_of self.now) pairs.now given.now.concl)) }
    {
        let concl = fp_conclude::inst(alloc, self.signature(), pairs, given.concl())?;
        let hyps = all_instances(alloc, given.hyps(), pairs)?;
        Ok(self.over_one(alloc, given, hyps, concl)?)
    }

    /// The instance by types for type variables, of the hypotheses too (INST_TYPE).
    pub fn inst_ty(
        &self,
        alloc: Global,
        given: &Thm,
        pairs: &[(Name, Ty)],
    ) -> Result<Thm, RuleFault>
        requires { Within given.now.defs self.now }
        ensures { Answers result (from_one self.now given.now (all_retyped_terms pairs.now given.now.hyps) (inst_ty_of (signature_of self.now) pairs.now given.now.concl)) }
    {
        let concl = fp_conclude::inst_ty(alloc, self.signature(), pairs, given.concl())?;
        let hyps = all_retyped(alloc, given.hyps(), pairs)?;
        Ok(self.over_one(alloc, given, hyps, concl)?)
    }

    /// The axiom of that number: ETA, SELECT, INFINITY.
    pub fn axiom(&self, alloc: Global, number: u32) -> Result<Thm, RuleFault>
        requires first { 1 ≤ number }
        requires last { number ≤ 3 }
        ensures { Answers result (stands self.now [] [] (gives (axiom_numbered number))) }
    {
        Ok(self.axiom_known(alloc, Axiom::numbered(number))?)
    }

    /// The definition of the connective of that number: `T`, `/\`, `-->`, `!`, `?`, `\/`, `F`, `~`.
    pub fn connective(&self, alloc: Global, number: u32) -> Result<Thm, RuleFault>
        requires first { 1 ≤ number }
        requires last { number ≤ 8 }
        ensures { Answers result (stands self.now [] [] (gives (connective_numbered number))) }
    {
        Ok(self.connective_known(alloc, LogicalConstant::numbered(number))?)
    }
}
