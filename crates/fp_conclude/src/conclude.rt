//! What the rules conclude from the conclusions of their premises, or why they conclude nothing.
ghost use Rattle.std.specs.Prelude.{◌≡◌, IfOk};
ghost use Rattle.fp_conclude.specs.Outcomes.{Answers};
ghost use Rattle.fp_term.specs.Terms.{app, abs, closed};
ghost use Rattle.fp_conclude.specs.Logic.{equal};
ghost use Rattle.fp_conclude.specs.Rules.{refl_of, trans_of, mk_comb_of, abstracted, lam_of, beta_of, assume_of, eq_mp_of};

use crate::checks::typed_over;
use crate::fault::{self, RuleFault};
use crate::hypotheses::occurs_in_any;
use crate::logic::{apply, apply_both, equation};
use crate::parts::{Equation, function_parts, is_truth, redex_parts, sides};
use fp_term::{Name, Place, Signature, Term, Ty, close_over, function_of, open_with, same};
use std::alloc::{AllocError, Global};

/// `t = t`.
#[tactic(auto, using(crate::proofs::Outcomes::faults_then))]
pub fn refl(alloc: Global, signature: &Signature, term: &Term) -> Result<Term, RuleFault>
    ensures { Answers result (refl_of signature.now term.now) }
{
    let ty = typed_over(alloc, signature, term)?;
    Ok(equation(alloc, &ty, term, term)?)
}

/// `s = u` from `s = t` and `t = u`.
pub fn trans(alloc: Global, first: &Term, second: &Term) -> Result<Term, RuleFault>
    ensures { Answers result (trans_of first.now second.now) }
{
    let Some(a) = sides(first) else {
        return Err(RuleFault::NotEquation);
    };
    let Some(b) = sides(second) else {
        return Err(RuleFault::NotEquation);
    };
    if !same(a.right, b.left) {
        return Err(fault::differ(a.right, b.left));
    }
    Ok(apply_both(alloc, a.equality, a.left, b.right)?)
}

// The equation of the applications.
fn applied(
    alloc: Global,
    ty: &Ty,
    functions: &Equation<'_>,
    arguments: &Equation<'_>,
) -> Result<Term, AllocError>
    ensures { IfOk result (λ t. t ≡ equal ty.now (app functions.now.left.now arguments.now.left.now) (app functions.now.right.now arguments.now.right.now)) }
{
    let left = apply(alloc, functions.left, arguments.left)?;
    let right = apply(alloc, functions.right, arguments.right)?;
    equation(alloc, ty, &left, &right)
}

/// `f x = g y` from `f = g` and `x = y`.
pub fn mk_comb(alloc: Global, first: &Term, second: &Term) -> Result<Term, RuleFault>
    ensures { Answers result (mk_comb_of first.now second.now) }
{
    let Some(a) = sides(first) else {
        return Err(RuleFault::NotEquation);
    };
    let Some(b) = sides(second) else {
        return Err(RuleFault::NotEquation);
    };
    match function_parts(a.ty) {
        Some((from, to)) if from.equals(b.ty) => Ok(applied(alloc, to, &a, &b)?),
        _ => Err(RuleFault::IllTyped(Place::here(alloc))),
    }
}

// The abstraction over the variable.
fn abstraction(alloc: Global, name: &Name, ty: &Ty, term: &Term) -> Result<Term, AllocError>
    ensures { IfOk result (λ t. t ≡ abs ty.now (closed 0 name.now ty.now term.now)) }
{
    let body = close_over(alloc, term, name, ty)?;
    Term::abs(alloc, ty.copy()?, body)
}

/// The equation of the abstractions of the sides.
pub(crate) fn abstracted(
    alloc: Global,
    name: &Name,
    ty: &Ty,
    sides: &Equation<'_>,
) -> Result<Term, AllocError>
    ensures { IfOk result (λ t. t ≡ abstracted name.now ty.now (sides.now.ty.now, sides.now.left.now, sides.now.right.now)) }
{
    let left = abstraction(alloc, name, ty, sides.left)?;
    let right = abstraction(alloc, name, ty, sides.right)?;
    let of_both = function_of(alloc, ty.copy()?, sides.ty.copy()?)?;
    equation(alloc, &of_both, &left, &right)
}

/// `(%x. s) = (%x. t)` from `s = t`.
pub fn lam(
    alloc: Global,
    signature: &Signature,
    name: &Name,
    ty: &Ty,
    hyps: &[Term],
    given: &Term,
) -> Result<Term, RuleFault>
    ensures { Answers result (lam_of signature.now name.now ty.now hyps.now given.now) }
{
    if let Some(unknown) = signature.unknown_in_type(ty) {
        return Err(fault::unknown_name(unknown));
    }
    let Some(a) = sides(given) else {
        return Err(RuleFault::NotEquation);
    };
    if occurs_in_any(name, ty, hyps) {
        return Err(fault::free_in_hyps(name));
    }
    Ok(abstracted(alloc, name, ty, &a)?)
}

/// `(%v. b) u = b` with `u` for `v`.
#[tactic(auto, using(crate::proofs::Outcomes::faults_then))]
pub fn beta(alloc: Global, signature: &Signature, term: &Term) -> Result<Term, RuleFault>
    ensures { Answers result (beta_of signature.now term.now) }
{
    let ty = typed_over(alloc, signature, term)?;
    let Some((body, by)) = redex_parts(term) else {
        return Err(RuleFault::NotRedex);
    };
    let reduced = open_with(alloc, body, by)?;
    Ok(equation(alloc, &ty, term, &reduced)?)
}

/// A formula from itself.
#[tactic(auto, using(crate::proofs::Outcomes::faults_then))]
pub fn assume(alloc: Global, signature: &Signature, term: &Term) -> Result<Term, RuleFault>
    ensures { Answers result (assume_of signature.now term.now) }
{
    let ty = typed_over(alloc, signature, term)?;
    if !is_truth(&ty) {
        return Err(RuleFault::NotBool);
    }
    Ok(term.copy()?)
}

/// `q` from `p = q` and `p`.
pub fn eq_mp(first: &Term, second: &Term) -> Result<Term, RuleFault>
    ensures { Answers result (eq_mp_of first.now second.now) }
{
    let Some(a) = sides(first) else {
        return Err(RuleFault::NotEquation);
    };
    if !same(a.left, second) {
        return Err(fault::differ(a.left, second));
    }
    Ok(a.right.copy()?)
}
