//! What the rules conclude from premises of their shape: nothing is compared, and no term is typed.
ghost use Rattle.std.specs.Prelude.{◌≡◌, IfOk};
ghost use Rattle.fp_term.specs.Types.{Typ};
ghost use Rattle.fp_conclude.specs.Shapes.{IsEquation, IsRedex};
ghost use Rattle.fp_conclude.specs.Known.{AreChained, trans_concl, AreApplied, mk_comb_concl, lam_concl, beta_concl};

use crate::conclude::abstracted;
use crate::logic::{apply, apply_both, equation};
use crate::parts::Equation;
use crate::shapes::{
    argument_in, body_in, equality_in, function_in, left, right, side_type, target,
};
use fp_term::{Name, Term, Ty, open_with};
use std::alloc::{AllocError, Global};

/// `s = u` from `s = t` and `t = u`.
#[tactic(auto, using(crate::proofs::Untested::own_head))]
pub fn trans_known(alloc: Global, first: &Term, second: &Term) -> Result<Term, AllocError>
    requires { AreChained first.now second.now }
    ensures { IfOk result (λ c. c ≡ trans_concl first.now second.now) }
{
    apply_both(alloc, equality_in(first), left(first), right(second))
}

/// `f x = g y` from `f = g` and `x = y`.
pub fn mk_comb_known(alloc: Global, first: &Term, second: &Term) -> Result<Term, AllocError>
    requires { AreApplied first.now second.now }
    ensures { IfOk result (λ c. c ≡ mk_comb_concl first.now second.now) }
{
    let to = target(side_type(first));
    let on_left = apply(alloc, left(first), left(second))?;
    let on_right = apply(alloc, right(first), right(second))?;
    equation(alloc, to, &on_left, &on_right)
}

/// `(%x. s) = (%x. t)` from `s = t`.
pub fn lam_known(alloc: Global, name: &Name, ty: &Ty, given: &Term) -> Result<Term, AllocError>
    requires { IsEquation given.now }
    ensures { IfOk result (λ c. c ≡ lam_concl name.now ty.now given.now) }
{
    let sides = Equation {
        equality: equality_in(given),
        ty: side_type(given),
        left: left(given),
        right: right(given),
    };
    abstracted(alloc, name, ty, &sides)
}

/// `(%v. b) u = b` with `u` for `v`, for a redex of the type.
pub fn beta_known(alloc: Global, ty: &Ty, term: &Term) -> Result<Term, AllocError>
    requires { IsRedex term.now }
    ensures { IfOk result (λ c. c ≡ beta_concl ty.now term.now) }
{
    let reduct = open_with(alloc, body_in(function_in(term)), argument_in(term))?;
    equation(alloc, ty, term, &reduct)
}
