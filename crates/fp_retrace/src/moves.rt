//! The rules on theorems over the first ones of some definitions. On premises that don't fit, memory is said to be wanting.
ghost use Rattle.std.specs.Prelude.{◌≡◌, Ok, IfOk};
ghost use Rattle.fp_kernel.specs.Definitions.{Within};
ghost use Rattle.fp_retrace.specs.Standing.{IsWithin};

use fp_conclude::{RuleFault, redex_parts, sides};
use fp_disjunction::eqf;
use fp_kernel::{Defs, Thm};
use fp_logic::{eqt, eqt_elim, mp};
use fp_match::Inst;
use fp_term::{Name, Term, Ty};
use std::alloc::{AllocError, Global};

/// What a rule gave.
pub(crate) fn given(answer: Result<Thm, RuleFault>) -> Result<Thm, AllocError>
    ensures { IfOk result (λ th. answer ≡ Ok th) }
{
    match answer {
        Ok(th) => Ok(th),
        Err(fault) => {
            drop(fault);
            Err(AllocError)
        }
    }
}

/// `t = t`.
#[tactic(auto, using(crate::proofs::Stood::made_within, crate::proofs::Stood::stood))]
pub(crate) fn itself(alloc: Global, defs: &Defs, term: &Term) -> Result<Thm, AllocError>
    ensures { IfOk result (IsWithin defs.now) }
{
    given(defs.refl(alloc, term))
}

/// `s = u` from `s = t` and `t = u`.
#[tactic(auto, using(crate::proofs::Stood::made_within, crate::proofs::Stood::stood))]
pub(crate) fn chained(
    alloc: Global,
    defs: &Defs,
    first: &Thm,
    second: &Thm,
) -> Result<Thm, AllocError>
    requires first { Within first.now.defs defs.now }
    requires second { Within second.now.defs defs.now }
    ensures { IfOk result (IsWithin defs.now) }
{
    given(defs.trans(alloc, first, second))
}

/// `f x = g y` from `f = g` and `x = y`.
#[tactic(auto, using(crate::proofs::Stood::made_within, crate::proofs::Stood::stood))]
pub(crate) fn combined(
    alloc: Global,
    defs: &Defs,
    first: &Thm,
    second: &Thm,
) -> Result<Thm, AllocError>
    requires first { Within first.now.defs defs.now }
    requires second { Within second.now.defs defs.now }
    ensures { IfOk result (IsWithin defs.now) }
{
    given(defs.mk_comb(alloc, first, second))
}

/// `(%x. t) = (%x. u)` from `t = u`.
#[tactic(auto, using(crate::proofs::Stood::made_within, crate::proofs::Stood::stood))]
pub(crate) fn abstracted(
    alloc: Global,
    defs: &Defs,
    name: &Name,
    ty: &Ty,
    body: &Thm,
) -> Result<Thm, AllocError>
    requires { Within body.now.defs defs.now }
    ensures { IfOk result (IsWithin defs.now) }
{
    given(defs.lam(alloc, name, ty, body))
}

/// `(%x. t) u = v`, where the redex contracts to `v`.
#[tactic(auto, using(crate::proofs::Stood::made_within, crate::proofs::Stood::stood))]
pub(crate) fn reduced(alloc: Global, defs: &Defs, term: &Term) -> Result<Thm, AllocError>
    ensures { IfOk result (IsWithin defs.now) }
{
    given(defs.beta(alloc, term))
}

// `p` from itself.
#[tactic(auto, using(crate::proofs::Stood::made_within, crate::proofs::Stood::stood))]
fn assumed(alloc: Global, defs: &Defs, formula: &Term) -> Result<Thm, AllocError>
    ensures { IfOk result (IsWithin defs.now) }
{
    given(defs.assume(alloc, formula))
}

// `q` from `p = q` and `p`.
#[tactic(auto, using(crate::proofs::Stood::made_within, crate::proofs::Stood::stood))]
fn moved(alloc: Global, defs: &Defs, equation: &Thm, th: &Thm) -> Result<Thm, AllocError>
    requires first { Within equation.now.defs defs.now }
    requires second { Within th.now.defs defs.now }
    ensures { IfOk result (IsWithin defs.now) }
{
    given(defs.eq_mp(alloc, equation, th))
}

/// `q` from `p = q`, on the hypothesis `p`.
pub(crate) fn held(alloc: Global, defs: &Defs, th: &Thm) -> Result<Thm, AllocError>
    requires { Within th.now.defs defs.now }
    ensures { IfOk result (IsWithin defs.now) }
{
    let Some(parts) = sides(th.concl()) else {
        return Err(AllocError);
    };
    let guard = assumed(alloc, defs, parts.left)?;
    moved(alloc, defs, th, &guard)
}

#[tactic(auto, using(crate::proofs::Stood::made_within, crate::proofs::Stood::stood))]
fn retyped(alloc: Global, defs: &Defs, rule: &Thm, inst: &Inst) -> Result<Thm, AllocError>
    requires { Within rule.now.defs defs.now }
    ensures { IfOk result (IsWithin defs.now) }
{
    given(defs.inst_ty(alloc, rule, inst.types.as_slice()))
}

#[tactic(auto, using(crate::proofs::Stood::made_within, crate::proofs::Stood::stood))]
fn replaced(alloc: Global, defs: &Defs, rule: &Thm, inst: &Inst) -> Result<Thm, AllocError>
    requires { Within rule.now.defs defs.now }
    ensures { IfOk result (IsWithin defs.now) }
{
    given(defs.inst(alloc, rule, inst.terms.as_slice()))
}

/// The instance of a theorem.
pub(crate) fn instance(
    alloc: Global,
    defs: &Defs,
    rule: &Thm,
    inst: &Inst,
) -> Result<Thm, AllocError>
    requires { Within rule.now.defs defs.now }
    ensures { IfOk result (IsWithin defs.now) }
{
    let rule = retyped(alloc, defs, rule, inst)?;
    replaced(alloc, defs, &rule, inst)
}

// `p = T` from `p`.
#[tactic(auto, using(crate::proofs::Stood::made_within, crate::proofs::Stood::stood))]
fn truth_of(alloc: Global, defs: &Defs, th: &Thm) -> Result<Thm, AllocError>
    requires { Within th.now.defs defs.now }
    ensures { IfOk result (IsWithin defs.now) }
{
    given(eqt(alloc, defs, th))
}

/// `p = F` from `~ p`, and `p = T` from another `p`.
#[tactic(auto, using(crate::proofs::Stood::stood))]
pub(crate) fn value_from(alloc: Global, defs: &Defs, th: &Thm) -> Result<Thm, AllocError>
    requires { Within th.now.defs defs.now }
    ensures { IfOk result (IsWithin defs.now) }
{
    match eqf(alloc, defs, th) {
        Ok(new) => Ok(new),
        Err(fault) => {
            drop(fault);
            truth_of(alloc, defs, th)
        }
    }
}

/// `p` from `p = T`.
#[tactic(auto, using(crate::proofs::Stood::made_within, crate::proofs::Stood::stood))]
pub(crate) fn truth_from(alloc: Global, defs: &Defs, th: &Thm) -> Result<Thm, AllocError>
    requires { Within th.now.defs defs.now }
    ensures { IfOk result (IsWithin defs.now) }
{
    given(eqt_elim(alloc, defs, th))
}

#[tactic(auto, using(crate::proofs::Stood::made_within, crate::proofs::Stood::stood))]
fn detached(alloc: Global, defs: &Defs, rule: &Thm, formula: &Thm) -> Result<Thm, AllocError>
    requires first { Within rule.now.defs defs.now }
    requires second { Within formula.now.defs defs.now }
    ensures { IfOk result (IsWithin defs.now) }
{
    given(mp(alloc, defs, rule, formula))
}

/// `q` from `p --> q` and `p = T`.
pub(crate) fn discharged(
    alloc: Global,
    defs: &Defs,
    rule: &Thm,
    held: &Thm,
) -> Result<Thm, AllocError>
    requires first { Within rule.now.defs defs.now }
    requires second { Within held.now.defs defs.now }
    ensures { IfOk result (IsWithin defs.now) }
{
    let formula = truth_from(alloc, defs, held)?;
    detached(alloc, defs, rule, &formula)
}

/// The equation that a rule whose conditions are gone states.
pub(crate) fn equation_from(alloc: Global, defs: &Defs, rule: Thm) -> Result<Thm, AllocError>
    requires { Within rule.defs defs.now }
    ensures { IfOk result (IsWithin defs.now) }
{
    if sides(rule.concl()).is_some() {
        return Ok(rule);
    }
    value_from(alloc, defs, &rule)
}

/// Is the term a redex?
pub(crate) fn is_redex(term: &Term) -> bool {
    redex_parts(term).is_some()
}
