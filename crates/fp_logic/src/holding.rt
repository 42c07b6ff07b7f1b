//! What is true, and equations with `T`.
ghost use Rattle.std.specs.Prelude.{◌≡◌, IfOk};
ghost use Rattle.fp_conclude.specs.Logic.{truth_type, equal, true_constant};
ghost use Rattle.fp_kernel.specs.Definitions.{Within};
ghost use Rattle.fp_conclude.specs.Shapes.{left, right};
ghost use Rattle.fp_kernel.specs.Theorems.{plain, from_itself, by_one, by_both};
ghost use Rattle.fp_logic.specs.Steps.{own_equality, CanCarry, CanEstablish, CanConvert, CanFold};
ghost use Rattle.fp_forms.specs.Schemas.{p_variable, identity, true_meaning, held};

use crate::equations::{equality_of, sym_known, turn};
use crate::lemmas::lemma_at;
use fp_conclude::{LogicalConstant, true_constant, truth_type};
use fp_forms::{Lemma, held_variable, identity, p_variable};
use fp_kernel::{Defs, Thm};
use fp_term::Term;
use std::alloc::{AllocError, Global};

/// That equality of formulas is itself.
pub fn truth_equality(alloc: Global, defs: &Defs) -> Result<Thm, AllocError>
    ensures { IfOk result (λ e. e ≡ plain defs.now (own_equality truth_type)) }
{
    let ty = truth_type(alloc)?;
    equality_of(alloc, defs, &ty)
}

/// `u` from `s = t`, `s = u`, `s = s` and `t`.
pub fn carry(
    alloc: Global,
    defs: &Defs,
    first: &Thm,
    second: &Thm,
    own: &Thm,
    third: &Thm,
) -> Result<Thm, AllocError>
    requires { CanCarry defs.now first.now second.now own.now third.now }
    ensures { IfOk result (λ th. th ≡ by_both defs.now first.now second.now (right second.now.concl)) }
{
    let equality = truth_equality(alloc, defs)?;
    let turned = turn(alloc, defs, &equality, first, second, own)?;
    defs.eq_mp_known(alloc, &turned, third)
}

// `(%p. p) = (%p. p)`
fn own_identity(alloc: Global, defs: &Defs) -> Result<Thm, AllocError>
    ensures { IfOk result (λ th. th ≡ plain defs.now true_meaning) }
{
    let term = identity(alloc)?;
    defs.refl_known(alloc, &term)
}

// `s = ((%p. p) = (%p. p))` from `s = T`.
fn with_meaning(alloc: Global, defs: &Defs, th: &Thm) -> Result<Thm, AllocError>
    requires within { Within th.now.defs defs.now }
    requires shape { th.now.concl ≡ equal truth_type (left th.now.concl) true_constant }
    ensures { IfOk result (λ m. m ≡ by_one defs.now th.now (equal truth_type (left th.now.concl) true_meaning)) }
{
    let meaning = defs.connective_known(alloc, LogicalConstant::Truth)?;
    defs.trans_known(alloc, th, &meaning)
}

/// `u` from `s = T`, `s = u` and `s = s`.
pub fn establish(
    alloc: Global,
    defs: &Defs,
    first: &Thm,
    second: &Thm,
    own: &Thm,
) -> Result<Thm, AllocError>
    requires { CanEstablish defs.now first.now second.now own.now }
    ensures { IfOk result (λ th. th ≡ by_both defs.now first.now second.now (right second.now.concl)) }
{
    let first = with_meaning(alloc, defs, first)?;
    let third = own_identity(alloc, defs)?;
    carry(alloc, defs, &first, second, own, &third)
}

/// `T = T`
fn own_truth(alloc: Global, defs: &Defs) -> Result<Thm, AllocError>
    ensures { IfOk result (λ th. th ≡ plain defs.now (held true_constant)) }
{
    let term = true_constant(alloc)?;
    defs.refl_known(alloc, &term)
}

/// `T`
pub fn truth_itself(alloc: Global, defs: &Defs) -> Result<Thm, AllocError>
    ensures { IfOk result (λ th. th ≡ plain defs.now true_constant) }
{
    let own = own_truth(alloc, defs)?;
    establish(alloc, defs, &own, &own, &own)
}

/// `q` from `p`, by `p = q` without hypotheses.
pub fn convert(alloc: Global, defs: &Defs, equation: &Thm, th: &Thm) -> Result<Thm, AllocError>
    requires { CanConvert defs.now equation.now th.now }
    ensures { IfOk result (λ q. q ≡ by_one defs.now th.now (right equation.now.concl)) }
{
    let _hyps = th.hyps();
    let _promises = th.promises();
    defs.eq_mp_known(alloc, equation, th)
}

// `T = p` from `p`.
fn held_from(alloc: Global, defs: &Defs) -> Result<Thm, AllocError>
    ensures { IfOk result (λ th. th ≡ record (from_itself defs.now p_variable) { concl = held p_variable }) }
{
    let term = p_variable(alloc)?;
    let itself = defs.assume_known(alloc, &term)?;
    let truth = truth_itself(alloc, defs)?;
    defs.antisym_known(alloc, &truth, &itself)
}

// `p` from `T = p`.
fn from_held(alloc: Global, defs: &Defs) -> Result<Thm, AllocError>
    ensures { IfOk result (λ th. th ≡ record (from_itself defs.now (held p_variable)) { concl = p_variable }) }
{
    let held = held_variable(alloc)?;
    let itself = defs.assume_known(alloc, &held)?;
    let truth = truth_itself(alloc, defs)?;
    defs.eq_mp_known(alloc, &itself, &truth)
}

/// `p = (T = p)`
pub fn held_schema(alloc: Global, defs: &Defs) -> Result<Thm, AllocError>
    ensures { IfOk result (λ th. th ≡ plain defs.now (equal truth_type p_variable (held p_variable))) }
{
    let first = from_held(alloc, defs)?;
    let second = held_from(alloc, defs)?;
    defs.antisym_known(alloc, &first, &second)
}

/// `T = p` from `p`.
pub fn hold(alloc: Global, defs: &Defs, th: &Thm) -> Result<Thm, AllocError>
    requires { Within th.now.defs defs.now }
    ensures { IfOk result (λ h. h ≡ by_one defs.now th.now (held th.now.concl)) }
{
    let equation = lemma_at(alloc, defs, Lemma::Held, th.concl(), th.concl())?;
    convert(alloc, defs, &equation, th)
}

/// `p` from `q`, by `p = q` without hypotheses.
pub fn fold(alloc: Global, defs: &Defs, equation: &Thm, th: &Thm) -> Result<Thm, AllocError>
    requires { CanFold defs.now equation.now th.now }
    ensures { IfOk result (λ p. p ≡ by_one defs.now th.now (left equation.now.concl)) }
{
    let ty = truth_type(alloc)?;
    let swapped = sym_known(
        alloc,
        defs,
        equation,
        &ty,
        fp_conclude::left(equation.concl()),
    )?;
    convert(alloc, defs, &swapped, th)
}
