//! Values of several types as values of one: right nested sums.
ghost use Rattle.std.specs.Prelude.{◌≡◌, ◌<◌, length, drop, IfOk, codes};
ghost use Rattle.fp_term.specs.Terms.{app};
ghost use Rattle.fp_shapes.specs.Sums.{sum_type, sums, left_in, right_in, left_out, right_out, inject, project};

use crate::tuples::{function_named, of_two};
use fp_conclude::apply;
use fp_term::{Term, Ty};
use std::alloc::{AllocError, Global};

/// The sum of two types.
#[tactic(auto, unfolding(fp_term::specs::Names::is_name))]
pub fn sum_type(alloc: Global, left: &Ty, right: &Ty) -> Result<Ty, AllocError>
    ensures { IfOk result (λ ty. ty ≡ sum_type left.now right.now) }
{
    of_two(alloc, b"sum", left, right)
}

/// The sum of several types.
#[tactic(auto, using(crate::proofs::Lasts::last_sum, crate::proofs::Lasts::next_sum))]
pub fn sums(alloc: Global, tys: &[Ty]) -> Result<Ty, AllocError>
    requires some { 0 < length tys.now }
    ensures { IfOk result (λ ty. ty ≡ sums tys.now) }
{
    let mut at = tys.len() - 1;
    let mut made = tys[at].copy()?;
    while at > 0 {
        at -= 1;
        made = sum_type(alloc, &tys[at], &made)?;
    }
    Ok(made)
}

// `Inl t`, at two types.
#[tactic(auto, unfolding(fp_term::specs::Names::is_name))]
fn left_in(alloc: Global, left: &Ty, right: &Ty, term: &Term) -> Result<Term, AllocError>
    ensures { IfOk result (λ t. t ≡ app (left_in left.now right.now) term.now) }
{
    let to = sum_type(alloc, left, right)?;
    let constant = function_named(alloc, b"Inl", left, &to)?;
    apply(alloc, &constant, term)
}

// `Inr t`, at two types.
#[tactic(auto, unfolding(fp_term::specs::Names::is_name))]
fn right_in(alloc: Global, left: &Ty, right: &Ty, term: &Term) -> Result<Term, AllocError>
    ensures { IfOk result (λ t. t ≡ app (right_in left.now right.now) term.now) }
{
    let to = sum_type(alloc, left, right)?;
    let constant = function_named(alloc, b"Inr", right, &to)?;
    apply(alloc, &constant, term)
}

// `outl t`, at two types.
#[tactic(auto, unfolding(fp_term::specs::Names::is_name))]
fn left_out(alloc: Global, left: &Ty, right: &Ty, term: &Term) -> Result<Term, AllocError>
    ensures { IfOk result (λ t. t ≡ app (left_out left.now right.now) term.now) }
{
    let from = sum_type(alloc, left, right)?;
    let constant = function_named(alloc, b"outl", &from, left)?;
    apply(alloc, &constant, term)
}

// `outr t`, at two types.
#[tactic(auto, unfolding(fp_term::specs::Names::is_name))]
fn right_out(alloc: Global, left: &Ty, right: &Ty, term: &Term) -> Result<Term, AllocError>
    ensures { IfOk result (λ t. t ≡ app (right_out left.now right.now) term.now) }
{
    let from = sum_type(alloc, left, right)?;
    let constant = function_named(alloc, b"outr", &from, right)?;
    apply(alloc, &constant, term)
}

// A value of one of the types in the sum of this and the later ones.
#[tactic(auto, using(crate::proofs::Placed::first_in, crate::proofs::Placed::only_in))]
fn first_in(alloc: Global, tys: &[Ty], index: usize, term: &Term) -> Result<Term, AllocError>
    requires { index < length tys.now }
    ensures { IfOk result (λ t. t ≡ inject (drop index tys.now) 0 term.now) }
{
    if index + 1 == tys.len() {
        return term.copy();
    }
    let later = sums(alloc, &tys[index + 1..])?;
    left_in(alloc, &tys[index], &later, term)
}

/// A value of one of the types in their sum.
#[tactic(auto, using(crate::proofs::Placed::further_in))]
pub fn inject(alloc: Global, tys: &[Ty], index: usize, term: &Term) -> Result<Term, AllocError>
    requires { index < length tys.now }
    ensures { IfOk result (λ t. t ≡ inject tys.now index term.now) }
{
    let mut made = first_in(alloc, tys, index, term)?;
    let mut at = index;
    while at > 0 {
        at -= 1;
        let later = sums(alloc, &tys[at + 1..])?;
        made = right_in(alloc, &tys[at], &later, &made)?;
    }
    Ok(made)
}

// A value of one of the types, out of the sum of this and the later ones.
#[tactic(auto, using(crate::proofs::Placed::first_out, crate::proofs::Placed::only_out))]
fn first_out(alloc: Global, tys: &[Ty], index: usize, term: &Term) -> Result<Term, AllocError>
    requires { index < length tys.now }
    ensures { IfOk result (λ t. t ≡ project (drop index tys.now) 0 term.now) }
{
    if index + 1 == tys.len() {
        return term.copy();
    }
    let later = sums(alloc, &tys[index + 1..])?;
    left_out(alloc, &tys[index], &later, term)
}

/// A value of one of the types, out of their sum.
#[tactic(auto, using(crate::proofs::Placed::further_out))]
pub fn project(alloc: Global, tys: &[Ty], index: usize, term: &Term) -> Result<Term, AllocError>
    requires { index < length tys.now }
    ensures { IfOk result (λ t. t ≡ project tys.now index term.now) }
{
    let mut made = term.copy()?;
    for at in 0..index {
        let later = sums(alloc, &tys[at + 1..])?;
        made = right_out(alloc, &tys[at], &later, &made)?;
    }
    first_out(alloc, tys, index, &made)
}
