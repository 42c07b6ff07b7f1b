//! Terms that choose one of two formulas.
ghost use Rattle.std.specs.Prelude.{◌≡◌, IfOk};
ghost use Rattle.fp_forms.specs.Schemas.{applying, chooser};

use fp_conclude::{abstraction, apply_both, binary_truth, truth_type};
use fp_term::Term;
use std::alloc::{AllocError, Global};

/// `%x y. x` or `%x y. y`
pub fn chooser(alloc: Global, first: bool) -> Result<Term, AllocError>
    ensures { IfOk result (λ t. t ≡ chooser first) }
{
    let number = if first { 1 } else { 0 };
    let ty = truth_type(alloc)?;
    let body = Term::bound(alloc, number)?;
    let inner = abstraction(alloc, &ty, &body)?;
    abstraction(alloc, &ty, &inner)
}

/// `%f. f l r`
pub fn applying(alloc: Global, left: &Term, right: &Term) -> Result<Term, AllocError>
    ensures { IfOk result (λ t. t ≡ applying left.now right.now) }
{
    let function = Term::bound(alloc, 0)?;
    let body = apply_both(alloc, &function, left, right)?;
    let ty = binary_truth(alloc)?;
    abstraction(alloc, &ty, &body)
}
