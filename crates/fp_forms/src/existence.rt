//! What is said of `?`, for the variables `P`, `x` and `q`.
ghost use Rattle.std.specs.Prelude.{◌≡◌, IfOk};
ghost use Rattle.fp_term.specs.Terms.{bound, app};
ghost use Rattle.fp_conclude.specs.Logic.{alpha, implication};
ghost use Rattle.fp_forms.specs.Schemas.{q_variable};
ghost use Rattle.fp_forms.specs.Existence.{predicate_variable, element_variable, holds, some_such, each_implies, reaches, at_choice, statement_of};
ghost use Rattle.fp_forms.specs.declared.existence.ExistenceSchema.TheVariants.{Introduction, Elimination, Choice};

use crate::variables::q_variable;
use fp_conclude::{alpha, apply, for_all, implication, predicate_over, quantifier, select};
use fp_term::{Name, Term, Ty};
use std::alloc::{AllocError, Global};

/// What is derived once of `?`, for the variables `P`, `x` and `q`.
#[derive(Clone, Copy)]
pub enum ExistenceSchema {
    /// `P x --> ex P`
    Introduction,
    /// `ex P --> (!x. P x --> q) --> q`
    Elimination,
    /// `!x. P x --> P (select P)`
    Choice,
}

/// `P`, the variable for a predicate on `'a`.
#[tactic(auto, unfolding(fp_term::specs::Names::is_name))]
pub fn predicate_variable(alloc: Global) -> Result<Term, AllocError>
    ensures { IfOk result (λ t. t ≡ predicate_variable) }
{
    let ty = predicate_over(alloc, &alpha(alloc)?)?;
    Term::free(alloc, Name::of(alloc, b"P")?, ty)
}

/// `x`, the variable of the type `'a`.
#[tactic(auto, unfolding(fp_term::specs::Names::is_name))]
pub fn element_variable(alloc: Global) -> Result<Term, AllocError>
    ensures { IfOk result (λ t. t ≡ element_variable) }
{
    Term::free(alloc, Name::of(alloc, b"x")?, alpha(alloc)?)
}

/// `P x`
pub fn held(alloc: Global) -> Result<Term, AllocError>
    ensures { IfOk result (λ t. t ≡ holds) }
{
    let predicate = predicate_variable(alloc)?;
    let element = element_variable(alloc)?;
    apply(alloc, &predicate, &element)
}

// `P x`, with the number 0 for `x`.
fn held_by_number(alloc: Global) -> Result<Term, AllocError>
    ensures { IfOk result (λ t. t ≡ app predicate_variable (bound 0)) }
{
    let predicate = predicate_variable(alloc)?;
    let number = Term::bound(alloc, 0)?;
    apply(alloc, &predicate, &number)
}

/// `P x --> q`, with the number 0 for `x`.
pub fn implied_body(alloc: Global) -> Result<Term, AllocError>
    ensures { IfOk result (λ t. t ≡ implication (app predicate_variable (bound 0)) q_variable) }
{
    let held = held_by_number(alloc)?;
    let variable = q_variable(alloc)?;
    implication(alloc, &held, &variable)
}

/// `!x. P x --> q`
pub fn each_implies(alloc: Global) -> Result<Term, AllocError>
    ensures { IfOk result (λ t. t ≡ each_implies alpha predicate_variable q_variable) }
{
    let ty = alpha(alloc)?;
    let body = implied_body(alloc)?;
    for_all(alloc, &ty, &body)
}

// `(!x. P x --> q) --> q`
fn reaches(alloc: Global) -> Result<Term, AllocError>
    ensures { IfOk result (λ t. t ≡ reaches alpha predicate_variable q_variable) }
{
    let each = each_implies(alloc)?;
    let variable = q_variable(alloc)?;
    implication(alloc, &each, &variable)
}

/// `ex P`
#[tactic(auto, unfolding(fp_term::specs::Names::is_name))]
pub fn some(alloc: Global) -> Result<Term, AllocError>
    ensures { IfOk result (λ t. t ≡ some_such alpha predicate_variable) }
{
    let ex = quantifier(alloc, b"ex", &alpha(alloc)?)?;
    let predicate = predicate_variable(alloc)?;
    apply(alloc, &ex, &predicate)
}

/// `P (select P)`
pub fn at_choice(alloc: Global, ty: &Ty, predicate: &Term) -> Result<Term, AllocError>
    ensures { IfOk result (λ t. t ≡ at_choice ty.now predicate.now) }
{
    let chosen = select(alloc, ty, predicate)?;
    apply(alloc, predicate, &chosen)
}

// `P (select P)`, for the variable.
fn variable_at_choice(alloc: Global) -> Result<Term, AllocError>
    ensures { IfOk result (λ t. t ≡ at_choice alpha predicate_variable) }
{
    let ty = alpha(alloc)?;
    let predicate = predicate_variable(alloc)?;
    at_choice(alloc, &ty, &predicate)
}

// `P x --> P (select P)`, with the number 0 for `x`.
fn choice_body(alloc: Global) -> Result<Term, AllocError>
    ensures { IfOk result (λ t. t ≡ implication (app predicate_variable (bound 0))
        (at_choice alpha predicate_variable)) }
{
    let held = held_by_number(alloc)?;
    let chosen = variable_at_choice(alloc)?;
    implication(alloc, &held, &chosen)
}

// `P x --> ex P`
fn introduction_is(alloc: Global) -> Result<Term, AllocError>
    ensures { IfOk result (λ t. t ≡ statement_of Introduction) }
{
    let held = held(alloc)?;
    let some = some(alloc)?;
    implication(alloc, &held, &some)
}

// `ex P --> (!x. P x --> q) --> q`
fn elimination_is(alloc: Global) -> Result<Term, AllocError>
    ensures { IfOk result (λ t. t ≡ statement_of Elimination) }
{
    let some = some(alloc)?;
    let reaches = reaches(alloc)?;
    implication(alloc, &some, &reaches)
}

// `!x. P x --> P (select P)`
fn choice_is(alloc: Global) -> Result<Term, AllocError>
    ensures { IfOk result (λ t. t ≡ statement_of Choice) }
{
    let ty = alpha(alloc)?;
    let body = choice_body(alloc)?;
    for_all(alloc, &ty, &body)
}

/// What it states.
pub fn statement(alloc: Global, schema: ExistenceSchema) -> Result<Term, AllocError>
    ensures { IfOk result (λ t. t ≡ statement_of schema) }
{
    match schema {
        ExistenceSchema::Introduction => introduction_is(alloc),
        ExistenceSchema::Elimination => elimination_is(alloc),
        ExistenceSchema::Choice => choice_is(alloc),
    }
}
