//! What is derived of `?`, for variables: `P x --> ex P`, `ex P --> (!x. P x --> q) --> q` and `!x. P x --> P (select P)`.
//! Primitive steps: `introduction` 90, `elimination` 41, `choice` 16.
ghost use Rattle.std.specs.Prelude.{◌≡◌, IfOk};
ghost use Rattle.fp_conclude.specs.Logic.{truth_type, alpha, equal, implication};
ghost use Rattle.fp_forms.specs.Schemas.{q_variable};
ghost use Rattle.fp_kernel.specs.Theorems.{plain, from_itself, by_one, by_both};
ghost use Rattle.fp_forms.specs.Existence.{predicate_variable, element_variable, holds, some_such, each_implies, reaches, reaches_all, each_chosen};

use crate::universal::{gen_all_known, specialized};
use fp_conclude::{Axiom, LogicalConstant, alpha, argument_in, body_in, truth_type};
use fp_forms::existence::{
    each_implies, element_variable, held, implied_body, predicate_variable, some,
};
use fp_forms::q_variable;
use fp_kernel::{Defs, Thm};
use fp_logic::equations::unfold;
use fp_logic::holding::{convert, fold};
use fp_logic::implications::{disch_known, mp_known};
use fp_term::{Name, Term};
use std::alloc::{AllocError, Global};

// `ex P = (!q. (!x. P x --> q) --> q)`
fn meaning(alloc: Global, defs: &Defs) -> Result<Thm, AllocError>
    ensures { IfOk result (λ th. th ≡ plain defs.now (equal truth_type (some_such alpha predicate_variable)
        (reaches_all alpha predicate_variable))) }
{
    let meaning = defs.connective_known(alloc, LogicalConstant::Existential)?;
    let predicate = predicate_variable(alloc)?;
    let own = defs.refl_known(alloc, &predicate)?;
    unfold(alloc, defs, &meaning, &own)
}

// `P x --> q` from `!x. P x --> q` itself.
fn implied(alloc: Global, defs: &Defs, a: &Thm) -> Result<Thm, AllocError>
    requires { a.now ≡ from_itself defs.now (each_implies alpha predicate_variable q_variable) }
    ensures { IfOk result (λ th. th ≡ by_one defs.now a.now (implication holds q_variable)) }
{
    let ty = alpha(alloc)?;
    let body = implied_body(alloc)?;
    let element = element_variable(alloc)?;
    specialized(alloc, defs, a, &ty, &body, &element)
}

// `P x --> q` from `!x. P x --> q` itself, by the terms.
fn implied_by(alloc: Global, defs: &Defs, each: &Term) -> Result<Thm, AllocError>
    requires { each.now ≡ each_implies alpha predicate_variable q_variable }
    ensures { IfOk result (λ th. th ≡ by_one defs.now (from_itself defs.now
        (each_implies alpha predicate_variable q_variable)) (implication holds q_variable)) }
{
    let itself = defs.assume_known(alloc, each)?;
    implied(alloc, defs, &itself)
}

// `q` from `!x. P x --> q` itself and `P x` itself.
fn reached(alloc: Global, defs: &Defs, each: &Term, held: &Term) -> Result<Thm, AllocError>
    requires each { each.now ≡ each_implies alpha predicate_variable q_variable }
    requires held { held.now ≡ holds }
    ensures { IfOk result (λ th. th ≡ by_both defs.now (from_itself defs.now
        (each_implies alpha predicate_variable q_variable)) (from_itself defs.now holds) q_variable) }
{
    let implied = implied_by(alloc, defs, each)?;
    let itself = defs.assume_known(alloc, held)?;
    mp_known(alloc, defs, &implied, &itself)
}

// `(!x. P x --> q) --> q` from `P x` itself.
fn reaches(alloc: Global, defs: &Defs, held: &Term) -> Result<Thm, AllocError>
    requires { held.now ≡ holds }
    ensures { IfOk result (λ th. th ≡ by_one defs.now (from_itself defs.now holds)
        (reaches alpha predicate_variable q_variable)) }
{
    let each = each_implies(alloc)?;
    let reached = reached(alloc, defs, &each, held)?;
    disch_known(alloc, defs, &each, &reached)
}

// `!q. (!x. P x --> q) --> q` from `P x` itself.
#[tactic(auto, unfolding(fp_term::specs::Names::is_name))]
fn reaches_all(alloc: Global, defs: &Defs, held: &Term) -> Result<Thm, AllocError>
    requires { held.now ≡ holds }
    ensures { IfOk result (λ th. th ≡ by_one defs.now (from_itself defs.now holds)
        (reaches_all alpha predicate_variable)) }
{
    let reaches = reaches(alloc, defs, held)?;
    let name = Name::of(alloc, b"q")?;
    let ty = truth_type(alloc)?;
    gen_all_known(alloc, defs, &name, &ty, &reaches)
}

// `ex P` from `P x` itself.
fn some_from(alloc: Global, defs: &Defs, held: &Term) -> Result<Thm, AllocError>
    requires { held.now ≡ holds }
    ensures { IfOk result (λ th. th ≡ by_one defs.now (from_itself defs.now holds)
        (some_such alpha predicate_variable)) }
{
    let all = reaches_all(alloc, defs, held)?;
    let meaning = meaning(alloc, defs)?;
    fold(alloc, defs, &meaning, &all)
}

/// `P x --> ex P`
pub(crate) fn introduction(alloc: Global, defs: &Defs) -> Result<Thm, AllocError>
    ensures { IfOk result (λ th. th ≡ plain defs.now (implication holds (some_such alpha predicate_variable))) }
{
    let held = held(alloc)?;
    let some = some_from(alloc, defs, &held)?;
    disch_known(alloc, defs, &held, &some)
}

// `!q. (!x. P x --> q) --> q` from `ex P` itself.
fn opened(alloc: Global, defs: &Defs, some: &Term) -> Result<Thm, AllocError>
    requires { some.now ≡ some_such alpha predicate_variable }
    ensures { IfOk result (λ th. th ≡ by_one defs.now (from_itself defs.now (some_such alpha predicate_variable))
        (reaches_all alpha predicate_variable)) }
{
    let meaning = meaning(alloc, defs)?;
    let itself = defs.assume_known(alloc, some)?;
    convert(alloc, defs, &meaning, &itself)
}

// `(!x. P x --> q) --> q` from `ex P` itself.
fn reaches_from(alloc: Global, defs: &Defs, some: &Term) -> Result<Thm, AllocError>
    requires { some.now ≡ some_such alpha predicate_variable }
    ensures { IfOk result (λ th. th ≡ by_one defs.now (from_itself defs.now (some_such alpha predicate_variable))
        (reaches alpha predicate_variable q_variable)) }
{
    let opened = opened(alloc, defs, some)?;
    let ty = truth_type(alloc)?;
    let variable = q_variable(alloc)?;
    specialized(
        alloc,
        defs,
        &opened,
        &ty,
        body_in(argument_in(opened.concl())),
        &variable,
    )
}

/// `ex P --> (!x. P x --> q) --> q`
pub(crate) fn elimination(alloc: Global, defs: &Defs) -> Result<Thm, AllocError>
    ensures { IfOk result (λ th. th ≡ plain defs.now (implication (some_such alpha predicate_variable)
        (reaches alpha predicate_variable q_variable))) }
{
    let some = some(alloc)?;
    let reaches = reaches_from(alloc, defs, &some)?;
    disch_known(alloc, defs, &some, &reaches)
}

/// `!x. P x --> P (select P)`
#[tactic(auto, unfolding(fp_term::specs::Names::is_name))]
pub(crate) fn choice(alloc: Global, defs: &Defs) -> Result<Thm, AllocError>
    ensures { IfOk result (λ th. th ≡ plain defs.now (each_chosen alpha predicate_variable)) }
{
    let selection = defs.axiom_known(alloc, Axiom::Selection)?;
    let name = Name::of(alloc, b"x")?;
    let ty = alpha(alloc)?;
    gen_all_known(alloc, defs, &name, &ty, &selection)
}
