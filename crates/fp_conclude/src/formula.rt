//! Types and formulas of the logic.
ghost use Rattle.std.specs.Prelude.{◌≡◌, IfOk, IsTrue};
ghost use Rattle.fp_term.specs.Names.{is_name};
ghost use Rattle.fp_term.specs.Terms.{abs, constant};
ghost use Rattle.fp_conclude.specs.Logic.{alpha, beta, individuals, truth_type, predicate_type, binary_type, select_type, quantifier_type, true_constant, false_constant, connective, conjunction, implication, negation_constant, negation, quantifier, select, for_all, for_some};

use crate::logic::{apply, apply_both, predicate_over, truth_type};
use fp_term::{Name, Term, Ty, Tys, function_of};
use std::alloc::{AllocError, Global};

/// The type variable `'a`.
#[tactic(auto, unfolding(fp_term::specs::Names::is_name))]
pub fn alpha(alloc: Global) -> Result<Ty, AllocError>
    ensures { IfOk result (λ ty. ty ≡ alpha) }
{
    Ty::var(alloc, Name::of(alloc, b"a")?)
}

/// The type variable `'b`.
#[tactic(auto, unfolding(fp_term::specs::Names::is_name))]
pub fn beta_variable(alloc: Global) -> Result<Ty, AllocError>
    ensures { IfOk result (λ ty. ty ≡ beta) }
{
    Ty::var(alloc, Name::of(alloc, b"b")?)
}

/// The type of individuals.
#[tactic(auto, unfolding(fp_term::specs::Names::is_name))]
pub fn individuals(alloc: Global) -> Result<Ty, AllocError>
    ensures { IfOk result (λ ty. ty ≡ individuals) }
{
    Ty::con(alloc, Name::of(alloc, b"ind")?, Tys::end(alloc)?)
}

/// The type of connectives of two formulas.
pub fn binary_truth(alloc: Global) -> Result<Ty, AllocError>
    ensures { IfOk result (λ ty. ty ≡ binary_type truth_type truth_type) }
{
    let predicate = predicate_over(alloc, &truth_type(alloc)?)?;
    function_of(alloc, truth_type(alloc)?, predicate)
}

/// The type of `select` for a type.
pub fn select_type(alloc: Global, ty: &Ty) -> Result<Ty, AllocError>
    ensures { IfOk result (λ t. t ≡ select_type ty.now) }
{
    let predicate = predicate_over(alloc, ty)?;
    function_of(alloc, predicate, ty.copy()?)
}

/// The type of quantifiers over a type.
pub fn quantifier_type(alloc: Global, ty: &Ty) -> Result<Ty, AllocError>
    ensures { IfOk result (λ t. t ≡ quantifier_type ty.now) }
{
    let predicate = predicate_over(alloc, ty)?;
    predicate_over(alloc, &predicate)
}

#[tactic(auto, unfolding(fp_term::specs::Names::is_name))]
pub fn true_constant(alloc: Global) -> Result<Term, AllocError>
    ensures { IfOk result (λ t. t ≡ true_constant) }
{
    Term::constant(alloc, Name::of(alloc, b"T")?, truth_type(alloc)?)
}

#[tactic(auto, unfolding(fp_term::specs::Names::is_name))]
pub fn false_constant(alloc: Global) -> Result<Term, AllocError>
    ensures { IfOk result (λ t. t ≡ false_constant) }
{
    Term::constant(alloc, Name::of(alloc, b"F")?, truth_type(alloc)?)
}

/// The connective of that name for two formulas.
pub fn connective(alloc: Global, name: &[u8]) -> Result<Term, AllocError>
    requires { IsTrue (is_name name.now) }
    ensures { IfOk result (λ t. t ≡ connective name.now) }
{
    Term::constant(alloc, Name::of(alloc, name)?, binary_truth(alloc)?)
}

/// `p /\ q`.
#[tactic(auto, unfolding(fp_term::specs::Names::is_name))]
pub fn conjunction(alloc: Global, left: &Term, right: &Term) -> Result<Term, AllocError>
    ensures { IfOk result (λ t. t ≡ conjunction left.now right.now) }
{
    let and = connective(alloc, b"and")?;
    apply_both(alloc, &and, left, right)
}

/// `p --> q`.
#[tactic(auto, unfolding(fp_term::specs::Names::is_name))]
pub fn implication(alloc: Global, left: &Term, right: &Term) -> Result<Term, AllocError>
    ensures { IfOk result (λ t. t ≡ implication left.now right.now) }
{
    let imp = connective(alloc, b"imp")?;
    apply_both(alloc, &imp, left, right)
}

#[tactic(auto, unfolding(fp_term::specs::Names::is_name))]
pub fn negation_constant(alloc: Global) -> Result<Term, AllocError>
    ensures { IfOk result (λ t. t ≡ negation_constant) }
{
    let ty = predicate_over(alloc, &truth_type(alloc)?)?;
    Term::constant(alloc, Name::of(alloc, b"not")?, ty)
}

/// `~ p`.
pub fn negation(alloc: Global, term: &Term) -> Result<Term, AllocError>
    ensures { IfOk result (λ t. t ≡ negation term.now) }
{
    let not = negation_constant(alloc)?;
    apply(alloc, &not, term)
}

/// The quantifier of that name over a type.
pub fn quantifier(alloc: Global, name: &[u8], ty: &Ty) -> Result<Term, AllocError>
    requires { IsTrue (is_name name.now) }
    ensures { IfOk result (λ t. t ≡ quantifier name.now ty.now) }
{
    let ty = quantifier_type(alloc, ty)?;
    Term::constant(alloc, Name::of(alloc, name)?, ty)
}

/// The abstraction over a type.
pub fn abstraction(alloc: Global, ty: &Ty, body: &Term) -> Result<Term, AllocError>
    ensures { IfOk result (λ t. t ≡ abs ty.now body.now) }
{
    Term::abs(alloc, ty.copy()?, body.copy()?)
}

/// `!x. body`, where the body has the number 0 for `x`.
#[tactic(auto, unfolding(fp_term::specs::Names::is_name))]
pub fn for_all(alloc: Global, ty: &Ty, body: &Term) -> Result<Term, AllocError>
    ensures { IfOk result (λ t. t ≡ for_all ty.now body.now) }
{
    let all = quantifier(alloc, b"all", ty)?;
    let predicate = abstraction(alloc, ty, body)?;
    apply(alloc, &all, &predicate)
}

/// `?x. body`, where the body has the number 0 for `x`.
#[tactic(auto, unfolding(fp_term::specs::Names::is_name))]
pub fn for_some(alloc: Global, ty: &Ty, body: &Term) -> Result<Term, AllocError>
    ensures { IfOk result (λ t. t ≡ for_some ty.now body.now) }
{
    let ex = quantifier(alloc, b"ex", ty)?;
    let predicate = abstraction(alloc, ty, body)?;
    apply(alloc, &ex, &predicate)
}

/// `select P`, for a predicate on a type.
#[tactic(auto, unfolding(fp_term::specs::Names::is_name))]
pub fn select(alloc: Global, ty: &Ty, predicate: &Term) -> Result<Term, AllocError>
    ensures { IfOk result (λ t. t ≡ select ty.now predicate.now) }
{
    let of_select = select_type(alloc, ty)?;
    let select = Term::constant(alloc, Name::of(alloc, b"select")?, of_select)?;
    apply(alloc, &select, predicate)
}
