//! The rules on premises of which it is known that they give a theorem: nothing is compared, no term is checked, and
//! nothing is refused but memory.
ghost use Rattle.std.specs.Prelude.{◌≡◌, [], Some, IfOk};
ghost use Rattle.fp_term.specs.Types.{Typ};
ghost use Rattle.fp_term.specs.Typing.{type_under};
ghost use Rattle.fp_conclude.specs.Logic.{equal};
ghost use Rattle.fp_conclude.specs.Shapes.{right, IsRedex};
ghost use Rattle.fp_conclude.specs.Known.{trans_concl, mk_comb_concl, lam_concl, beta_concl};
ghost use Rattle.fp_conclude.specs.Axioms.{axiom_statement, definition_statement};
ghost use Rattle.fp_kernel.specs.Derivability.{IsFormula};
ghost use Rattle.fp_kernel.specs.Start.{signature_of};
ghost use Rattle.fp_kernel.specs.Theorems.{plain, from_itself, by_one, by_both};
ghost use Rattle.fp_kernel.specs.Known.{IsTyped, CanTrans, CanMkComb, CanLam, CanEqMp, CanAntisym, equivalence, CanInst, instance, CanInstTy, type_instance};

use crate::defs::Defs;
use crate::over::{equivalence, remaining};
use crate::thm::Thm;
use crate::typing::known_type;
use fp_conclude::{
    self, Axiom, LogicalConstant, all_instances, all_retyped, equation, right, single,
};
use fp_term::{self, Items, Name, Term, Ty, copy_all};
use std::alloc::{AllocError, Global};

impl Defs {
    /// `t = t`, for a well-typed term.
    pub fn refl_known(&self, alloc: Global, term: &Term) -> Result<Thm, AllocError>
        requires { IsTyped self.now term.now }
        ensures { IfOk result (λ th. (s : Typ) → type_under [] term.now ≡ Some s → th ≡ plain self.now (equal s term.now term.now)) }
    {
        let ty = known_type(alloc, term)?;
        let concl = equation(alloc, &ty, term, term)?;
        self.plain(alloc, Items::new(alloc), concl)
    }

    /// `s = u` from `s = t` and `t = u`.
    pub fn trans_known(&self, alloc: Global, first: &Thm, second: &Thm) -> Result<Thm, AllocError>
        requires { CanTrans self.now first.now second.now }
        ensures { IfOk result (λ th. th ≡ by_both self.now first.now second.now (trans_concl first.now.concl second.now.concl)) }
    {
        let concl = fp_conclude::trans_known(alloc, first.concl(), second.concl())?;
        self.over_both(alloc, first, second, concl)
    }

    /// `f x = g y` from `f = g` and `x = y`.
    pub fn mk_comb_known(&self, alloc: Global, first: &Thm, second: &Thm) -> Result<Thm, AllocError>
        requires { CanMkComb self.now first.now second.now }
        ensures { IfOk result (λ th. th ≡ by_both self.now first.now second.now (mk_comb_concl first.now.concl second.now.concl)) }
    {
        let concl = fp_conclude::mk_comb_known(alloc, first.concl(), second.concl())?;
        self.over_both(alloc, first, second, concl)
    }

    /// `(%x. s) = (%x. t)` from `s = t`, where `x` is free in no hypothesis.
    pub fn lam_known(
        &self,
        alloc: Global,
        name: &Name,
        ty: &Ty,
        given: &Thm,
    ) -> Result<Thm, AllocError>
        requires { CanLam self.now name.now ty.now given.now }
        ensures { IfOk result (λ th. th ≡ by_one self.now given.now (lam_concl name.now ty.now given.now.concl)) }
    {
        let concl = fp_conclude::lam_known(alloc, name, ty, given.concl())?;
        let hyps = copy_all(alloc, given.hyps())?;
        self.over_one(alloc, given, hyps, concl)
    }

    /// `(%v. b) u = b` with `u` for `v`, for a well-typed redex.
    pub fn beta_known(&self, alloc: Global, term: &Term) -> Result<Thm, AllocError>
        requires redex { IsRedex term.now }
        requires typed { IsTyped self.now term.now }
        ensures { IfOk result (λ th. (s : Typ) → type_under [] term.now ≡ Some s → th ≡ plain self.now (beta_concl s term.now)) }
    {
        let ty = known_type(alloc, term)?;
        let concl = fp_conclude::beta_known(alloc, &ty, term)?;
        self.plain(alloc, Items::new(alloc), concl)
    }

    /// A formula from itself.
    pub fn assume_known(&self, alloc: Global, term: &Term) -> Result<Thm, AllocError>
        requires { IsFormula (signature_of self.now) term.now }
        ensures { IfOk result (λ th. th ≡ from_itself self.now term.now) }
    {
        let hyps = single(alloc, term)?;
        self.plain(alloc, hyps, term.copy()?)
    }

    /// `q` from `p = q` and `p`.
    pub fn eq_mp_known(&self, alloc: Global, first: &Thm, second: &Thm) -> Result<Thm, AllocError>
        requires { CanEqMp self.now first.now second.now }
        ensures { IfOk result (λ th. th ≡ by_both self.now first.now second.now (right first.now.concl)) }
    {
        let _premise = second.concl();
        let concl = right(first.concl()).copy()?;
        self.over_both(alloc, first, second, concl)
    }

    /// `p = q` from `p` and `q`, without `q` among the hypotheses of the first and without `p` among those of the
    /// second.
    pub fn antisym_known(&self, alloc: Global, first: &Thm, second: &Thm) -> Result<Thm, AllocError>
        requires { CanAntisym self.now first.now second.now }
        ensures { IfOk result (λ th. th ≡ equivalence self.now first.now second.now) }
    {
        let hyps = remaining(alloc, first, second)?;
        let concl = equivalence(alloc, first.concl(), second.concl())?;
        self.over_two(alloc, first, second, hyps, concl)
    }

    /// The instance by terms for variables of their types, of the hypotheses too.
    pub fn inst_known(
        &self,
        alloc: Global,
        given: &Thm,
        pairs: &[(Name, Ty, Term)],
    ) -> Result<Thm, AllocError>
        requires { CanInst self.now pairs.now given.now }
        ensures { IfOk result (λ th. th ≡ instance self.now pairs.now given.now) }
    {
        let concl = fp_term::inst(alloc, given.concl(), pairs)?;
        let hyps = all_instances(alloc, given.hyps(), pairs)?;
        self.over_one(alloc, given, hyps, concl)
    }

    /// The instance by types for type variables, of the hypotheses too.
    pub fn inst_ty_known(
        &self,
        alloc: Global,
        given: &Thm,
        pairs: &[(Name, Ty)],
    ) -> Result<Thm, AllocError>
        requires { CanInstTy self.now pairs.now given.now }
        ensures { IfOk result (λ th. th ≡ type_instance self.now pairs.now given.now) }
    {
        let concl = fp_term::inst_ty(alloc, given.concl(), pairs)?;
        let hyps = all_retyped(alloc, given.hyps(), pairs)?;
        self.over_one(alloc, given, hyps, concl)
    }

    /// The axiom.
    pub fn axiom_known(&self, alloc: Global, which: Axiom) -> Result<Thm, AllocError>
        ensures { IfOk result (λ th. th ≡ plain self.now (axiom_statement which)) }
    {
        let concl = which.statement(alloc)?;
        self.plain(alloc, Items::new(alloc), concl)
    }

    /// The definition of the constant.
    pub fn connective_known(
        &self,
        alloc: Global,
        constant: LogicalConstant,
    ) -> Result<Thm, AllocError>
        ensures { IfOk result (λ th. th ≡ plain self.now (definition_statement constant)) }
    {
        let concl = constant.definition(alloc)?;
        self.plain(alloc, Items::new(alloc), concl)
    }
}
