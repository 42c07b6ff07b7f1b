//! Truth values, predicates and equations.
ghost use Rattle.std.specs.Prelude.{◌≡◌, IfOk};
ghost use Rattle.fp_term.specs.Names.{equality, truth};
ghost use Rattle.fp_term.specs.Terms.{constant, app, abs};
ghost use Rattle.fp_conclude.specs.Logic.{truth_type, predicate_type, equality_type, equal};

use fp_term::{Name, Term, Ty, Tys, equality_name, function_of, truth_name};
use std::alloc::{AllocError, Global};

/// The type of truth values.
pub fn truth_type(alloc: Global) -> Result<Ty, AllocError>
    ensures { IfOk result (λ ty. ty ≡ truth_type) }
{
    Ty::con(alloc, truth_name(alloc)?, Tys::end(alloc)?)
}

/// The type of predicates on values of a type.
pub fn predicate_over(alloc: Global, ty: &Ty) -> Result<Ty, AllocError>
    ensures { IfOk result (λ t. t ≡ predicate_type ty.now) }
{
    function_of(alloc, ty.copy()?, truth_type(alloc)?)
}

/// The type of equality on values of a type.
pub fn equality_type(alloc: Global, ty: &Ty) -> Result<Ty, AllocError>
    ensures { IfOk result (λ t. t ≡ equality_type ty.now) }
{
    let predicate = predicate_over(alloc, ty)?;
    function_of(alloc, ty.copy()?, predicate)
}

/// Equality at a type.
pub fn equality_at(alloc: Global, ty: &Ty) -> Result<Term, AllocError>
    ensures { IfOk result (λ t. t ≡ constant equality (equality_type ty.now)) }
{
    let of_equality = equality_type(alloc, ty)?;
    Term::constant(alloc, equality_name(alloc)?, of_equality)
}

/// A term applied to another.
pub fn apply(alloc: Global, fun: &Term, arg: &Term) -> Result<Term, AllocError>
    ensures { IfOk result (λ t. t ≡ app fun.now arg.now) }
{
    Term::app(alloc, fun.copy()?, arg.copy()?)
}

/// A term applied to two others.
pub fn apply_both(alloc: Global, fun: &Term, left: &Term, right: &Term) -> Result<Term, AllocError>
    ensures { IfOk result (λ t. t ≡ app (app fun.now left.now) right.now) }
{
    let applied = apply(alloc, fun, left)?;
    apply(alloc, &applied, right)
}

/// The equation of two terms of the type.
pub fn equation(alloc: Global, ty: &Ty, left: &Term, right: &Term) -> Result<Term, AllocError>
    ensures { IfOk result (λ t. t ≡ equal ty.now left.now right.now) }
{
    let equality = equality_at(alloc, ty)?;
    apply_both(alloc, &equality, left, right)
}
