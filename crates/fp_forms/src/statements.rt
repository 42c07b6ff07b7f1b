//! What the lemmas state.
ghost use Rattle.std.specs.Prelude.{◌≡◌, IfOk};
ghost use Rattle.fp_conclude.specs.Logic.{truth_type, true_constant, conjunction, implication};
ghost use Rattle.fp_forms.specs.Lemmas.{equivalent, statement_of};
ghost use Rattle.fp_forms.specs.Schemas.{p_variable, q_variable, identity, held, applying, both_true, implied, choice, chosen};
ghost use Rattle.fp_forms.specs.declared.lemma.Lemma.TheVariants.{Held, Truthful, Untrue, Conjoined, Truths, Choice, Implied, Turned, Folded};

use crate::choosers::{applying, chooser};
use crate::lemma::Lemma;
use crate::variables::{p_variable, q_variable};
use fp_conclude::{
    abstraction, apply, binary_truth, conjunction, equation, implication, predicate_over,
    true_constant, truth_type,
};
use fp_term::Term;
use std::alloc::{AllocError, Global};

/// `%p. p`
pub fn identity(alloc: Global) -> Result<Term, AllocError>
    ensures { IfOk result (λ t. t ≡ identity) }
{
    let body = Term::bound(alloc, 0)?;
    abstraction(alloc, &truth_type(alloc)?, &body)
}

/// `left = right`, for formulas.
pub fn equivalent(alloc: Global, left: &Term, right: &Term) -> Result<Term, AllocError>
    ensures { IfOk result (λ t. t ≡ equivalent left.now right.now) }
{
    let ty = truth_type(alloc)?;
    equation(alloc, &ty, left, right)
}

/// `T = p`
pub fn held_variable(alloc: Global) -> Result<Term, AllocError>
    ensures { IfOk result (λ t. t ≡ held p_variable) }
{
    let truth = true_constant(alloc)?;
    let variable = p_variable(alloc)?;
    equivalent(alloc, &truth, &variable)
}

// `p = (T = p)`
fn held_is(alloc: Global) -> Result<Term, AllocError>
    ensures { IfOk result (λ t. t ≡ statement_of Held) }
{
    let variable = p_variable(alloc)?;
    let held = held_variable(alloc)?;
    equivalent(alloc, &variable, &held)
}

// `p = T`
fn is_true(alloc: Global) -> Result<Term, AllocError>
    ensures { IfOk result (λ t. t ≡ equivalent p_variable true_constant) }
{
    let truth = true_constant(alloc)?;
    let variable = p_variable(alloc)?;
    equivalent(alloc, &variable, &truth)
}

// `p = (p = T)`
fn truthful_is(alloc: Global) -> Result<Term, AllocError>
    ensures { IfOk result (λ t. t ≡ statement_of Truthful) }
{
    let variable = p_variable(alloc)?;
    let is_true = is_true(alloc)?;
    equivalent(alloc, &variable, &is_true)
}

// `(p = T) = p`
fn untrue_is(alloc: Global) -> Result<Term, AllocError>
    ensures { IfOk result (λ t. t ≡ statement_of Untrue) }
{
    let variable = p_variable(alloc)?;
    let is_true = is_true(alloc)?;
    equivalent(alloc, &is_true, &variable)
}

/// `p /\ q`, for the variables.
pub fn conjunction_of_variables(alloc: Global) -> Result<Term, AllocError>
    ensures { IfOk result (λ t. t ≡ conjunction p_variable q_variable) }
{
    let left = p_variable(alloc)?;
    let right = q_variable(alloc)?;
    conjunction(alloc, &left, &right)
}

// `p --> q`, for the variables.
fn implication_of_variables(alloc: Global) -> Result<Term, AllocError>
    ensures { IfOk result (λ t. t ≡ implication p_variable q_variable) }
{
    let left = p_variable(alloc)?;
    let right = q_variable(alloc)?;
    implication(alloc, &left, &right)
}

/// `%f. f T T`
pub fn applying_truths(alloc: Global) -> Result<Term, AllocError>
    ensures { IfOk result (λ t. t ≡ applying true_constant true_constant) }
{
    let truth = true_constant(alloc)?;
    applying(alloc, &truth, &truth)
}

/// `%f. f p q`
pub fn applying_variables(alloc: Global) -> Result<Term, AllocError>
    ensures { IfOk result (λ t. t ≡ applying p_variable q_variable) }
{
    let left = p_variable(alloc)?;
    let right = q_variable(alloc)?;
    applying(alloc, &left, &right)
}

// `(%f. f p q) = (%f. f T T)`
fn both_true(alloc: Global) -> Result<Term, AllocError>
    ensures { IfOk result (λ t. t ≡ both_true p_variable q_variable) }
{
    let ty = predicate_over(alloc, &binary_truth(alloc)?)?;
    let left = applying_variables(alloc)?;
    let right = applying_truths(alloc)?;
    equation(alloc, &ty, &left, &right)
}

// `(p /\ q) = ((%f. f p q) = (%f. f T T))`
fn conjoined_is(alloc: Global) -> Result<Term, AllocError>
    ensures { IfOk result (λ t. t ≡ statement_of Conjoined) }
{
    let left = conjunction_of_variables(alloc)?;
    let right = both_true(alloc)?;
    equivalent(alloc, &left, &right)
}

/// `T /\ T`
pub fn truths(alloc: Global) -> Result<Term, AllocError>
    ensures { IfOk result (λ t. t ≡ statement_of Truths) }
{
    let truth = true_constant(alloc)?;
    conjunction(alloc, &truth, &truth)
}

// `(%f. f p q) c = (%f. f T T) c`, for the chooser `c`.
fn choices(alloc: Global, first: bool) -> Result<Term, AllocError>
    ensures { IfOk result (λ t. t ≡ equivalent (choice first p_variable q_variable)
        (choice first true_constant true_constant)) }
{
    let by = chooser(alloc, first)?;
    let left = apply(alloc, &applying_variables(alloc)?, &by)?;
    let right = apply(alloc, &applying_truths(alloc)?, &by)?;
    equivalent(alloc, &left, &right)
}

/// `p` where the first is asked for, else `q`.
pub fn chosen(alloc: Global, first: bool) -> Result<Term, AllocError>
    ensures { IfOk result (λ t. t ≡ chosen first p_variable q_variable) }
{
    if first {
        p_variable(alloc)
    } else {
        q_variable(alloc)
    }
}

// `((%f. f p q) c = (%f. f T T) c) = x`, for the chooser `c`, with `p` or `q` for `x`.
fn choice_is(alloc: Global, first: bool) -> Result<Term, AllocError>
    ensures { IfOk result (λ t. t ≡ statement_of (Choice first)) }
{
    let left = choices(alloc, first)?;
    let right = chosen(alloc, first)?;
    equivalent(alloc, &left, &right)
}

// `(p /\ q) = p`
fn implied(alloc: Global) -> Result<Term, AllocError>
    ensures { IfOk result (λ t. t ≡ implied p_variable q_variable) }
{
    let left = conjunction_of_variables(alloc)?;
    let right = p_variable(alloc)?;
    equivalent(alloc, &left, &right)
}

// `(p --> q) = ((p /\ q) = p)`
fn implied_is(alloc: Global) -> Result<Term, AllocError>
    ensures { IfOk result (λ t. t ≡ statement_of Implied) }
{
    let left = implication_of_variables(alloc)?;
    let right = implied(alloc)?;
    equivalent(alloc, &left, &right)
}

// `(p --> q) = (p = (p /\ q))`
fn turned_is(alloc: Global) -> Result<Term, AllocError>
    ensures { IfOk result (λ t. t ≡ statement_of Turned) }
{
    let left = implication_of_variables(alloc)?;
    let variable = p_variable(alloc)?;
    let both = conjunction_of_variables(alloc)?;
    let right = equivalent(alloc, &variable, &both)?;
    equivalent(alloc, &left, &right)
}

// `((p /\ q) = p) = (p --> q)`
fn folded_is(alloc: Global) -> Result<Term, AllocError>
    ensures { IfOk result (λ t. t ≡ statement_of Folded) }
{
    let left = implied(alloc)?;
    let right = implication_of_variables(alloc)?;
    equivalent(alloc, &left, &right)
}

/// What the lemma states.
pub fn statement(alloc: Global, lemma: Lemma) -> Result<Term, AllocError>
    ensures { IfOk result (λ t. t ≡ statement_of lemma) }
{
    match lemma {
        Lemma::Truth => true_constant(alloc),
        Lemma::Held => held_is(alloc),
        Lemma::Truthful => truthful_is(alloc),
        Lemma::Untrue => untrue_is(alloc),
        Lemma::Conjoined => conjoined_is(alloc),
        Lemma::Truths => truths(alloc),
        Lemma::Choice(first) => choice_is(alloc, first),
        Lemma::Implied => implied_is(alloc),
        Lemma::Turned => turned_is(alloc),
        Lemma::Folded => folded_is(alloc),
    }
}
