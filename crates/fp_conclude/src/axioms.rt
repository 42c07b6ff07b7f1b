//! The axioms.
ghost use Rattle.std.specs.Prelude.{◌≡◌, ◌≤◌, codes, IfOk, IsTrue};
ghost use Rattle.fp_term.specs.Names.{is_name};
ghost use Rattle.fp_term.specs.Terms.{bound, free, app, abs};
ghost use Rattle.fp_term.specs.Typing.{function_type};
ghost use Rattle.fp_conclude.specs.Logic.{alpha, beta, individuals, predicate_type, equal, conjunction, implication, negation, for_all, for_some, select};
ghost use Rattle.fp_conclude.specs.Axioms.{eta, selection, infinity, axiom_statement, axiom_numbered};

use crate::formula::{
    abstraction, alpha, beta_variable, conjunction, for_all, for_some, implication, individuals,
    negation, select,
};
use crate::logic::{apply, equation, predicate_over};
use fp_term::{Name, Term, Ty, function_of};
use std::alloc::{AllocError, Global};

/// The axioms of the logic.
#[derive(Clone, Copy)]
pub enum Axiom {
    /// `(%x. t x) = t`
    Eta,
    /// `P x --> P (select P)`
    Selection,
    /// `?f. (!x y. f x = f y --> x = y) /\ ~ (!y. ?x. y = f x)`, for a function of individuals
    Infinity,
}

fn variable(alloc: Global, name: &[u8], ty: &Ty) -> Result<Term, AllocError>
    requires { IsTrue (is_name name.now) }
    ensures { IfOk result (λ t. t ≡ free name.now ty.now) }
{
    Term::free(alloc, Name::of(alloc, name)?, ty.copy()?)
}

// `(%x. t x) = t`
#[tactic(auto, unfolding(fp_term::specs::Names::is_name))]
fn eta(alloc: Global) -> Result<Term, AllocError>
    ensures { IfOk result (λ t. t ≡ eta) }
{
    let ty = function_of(alloc, alpha(alloc)?, beta_variable(alloc)?)?;
    let function = variable(alloc, b"t", &ty)?;
    let expanded = expanded(alloc, &function)?;
    equation(alloc, &ty, &expanded, &function)
}

// `%x. t x`
fn expanded(alloc: Global, function: &Term) -> Result<Term, AllocError>
    ensures { IfOk result (λ t. t ≡ abs alpha (app function.now (bound 0))) }
{
    let body = apply(alloc, function, &Term::bound(alloc, 0)?)?;
    abstraction(alloc, &alpha(alloc)?, &body)
}

// `P`, a predicate on `'a`
#[tactic(auto, unfolding(fp_term::specs::Names::is_name))]
fn predicate(alloc: Global) -> Result<Term, AllocError>
    ensures { IfOk result (λ t. t ≡ free (codes "P") (predicate_type alpha)) }
{
    let ty = predicate_over(alloc, &alpha(alloc)?)?;
    variable(alloc, b"P", &ty)
}

// `P x`
#[tactic(auto, unfolding(fp_term::specs::Names::is_name))]
fn predicate_of_any(alloc: Global, predicate: &Term) -> Result<Term, AllocError>
    ensures { IfOk result (λ t. t ≡ app predicate.now (free (codes "x") alpha)) }
{
    let ty = alpha(alloc)?;
    apply(alloc, predicate, &variable(alloc, b"x", &ty)?)
}

// `P (select P)`
fn predicate_of_selected(alloc: Global, predicate: &Term) -> Result<Term, AllocError>
    ensures { IfOk result (λ t. t ≡ app predicate.now (select alpha predicate.now)) }
{
    let ty = alpha(alloc)?;
    apply(alloc, predicate, &select(alloc, &ty, predicate)?)
}

// `P x --> P (select P)`
fn selection(alloc: Global) -> Result<Term, AllocError>
    ensures { IfOk result (λ t. t ≡ selection) }
{
    let predicate = predicate(alloc)?;
    let given = predicate_of_any(alloc, &predicate)?;
    implication(alloc, &given, &predicate_of_selected(alloc, &predicate)?)
}

// A bound function applied to a bound number.
fn value(alloc: Global, function: u32, argument: u32) -> Result<Term, AllocError>
    ensures { IfOk result (λ t. t ≡ app (bound function) (bound argument)) }
{
    let function = Term::bound(alloc, function)?;
    apply(alloc, &function, &Term::bound(alloc, argument)?)
}

// `f x = f y`, where the numbers 2, 1 and 0 stand for `f`, `x` and `y`
fn same_value(alloc: Global) -> Result<Term, AllocError>
    ensures { IfOk result (λ t. t ≡ equal individuals (app (bound 2) (bound 1)) (app (bound 2) (bound 0))) }
{
    let ty = individuals(alloc)?;
    let left = value(alloc, 2, 1)?;
    equation(alloc, &ty, &left, &value(alloc, 2, 0)?)
}

// `x = y`, where the numbers 1 and 0 stand for `x` and `y`
fn same_argument(alloc: Global) -> Result<Term, AllocError>
    ensures { IfOk result (λ t. t ≡ equal individuals (bound 1) (bound 0)) }
{
    let ty = individuals(alloc)?;
    let left = Term::bound(alloc, 1)?;
    equation(alloc, &ty, &left, &Term::bound(alloc, 0)?)
}

// `!x y. f x = f y --> x = y`, where the number 2 in the innermost place stands for `f`
fn injective(alloc: Global) -> Result<Term, AllocError>
    ensures { IfOk result (λ t. t ≡ for_all individuals (for_all individuals (implication (equal individuals (app (bound 2) (bound 1)) (app (bound 2) (bound 0))) (equal individuals (bound 1) (bound 0))))) }
{
    let body = implication(alloc, &same_value(alloc)?, &same_argument(alloc)?)?;
    let ty = individuals(alloc)?;
    let inner = for_all(alloc, &ty, &body)?;
    for_all(alloc, &ty, &inner)
}

// `y = f x`, where the numbers 2, 1 and 0 stand for `f`, `y` and `x`
fn met(alloc: Global, ty: &Ty) -> Result<Term, AllocError>
    ensures { IfOk result (λ t. t ≡ equal ty.now (bound 1) (app (bound 2) (bound 0))) }
{
    let value = value(alloc, 2, 0)?;
    equation(alloc, ty, &Term::bound(alloc, 1)?, &value)
}

// `~ (!y. ?x. y = f x)`, where the number 2 in the innermost place stands for `f`
fn not_onto(alloc: Global) -> Result<Term, AllocError>
    ensures { IfOk result (λ t. t ≡ negation (for_all individuals (for_some individuals (equal individuals (bound 1) (app (bound 2) (bound 0)))))) }
{
    let ty = individuals(alloc)?;
    let met = met(alloc, &ty)?;
    let some = for_some(alloc, &ty, &met)?;
    negation(alloc, &for_all(alloc, &ty, &some)?)
}

// `?f. (!x y. f x = f y --> x = y) /\ ~ (!y. ?x. y = f x)`
fn infinity(alloc: Global) -> Result<Term, AllocError>
    ensures { IfOk result (λ t. t ≡ infinity) }
{
    let body = conjunction(alloc, &injective(alloc)?, &not_onto(alloc)?)?;
    let ty = function_of(alloc, individuals(alloc)?, individuals(alloc)?)?;
    for_some(alloc, &ty, &body)
}

impl Axiom {
    /// What the axiom states.
    pub fn statement(self, alloc: Global) -> Result<Term, AllocError>
        ensures { IfOk result (λ t. t ≡ axiom_statement self) }
    {
        match self {
            Axiom::Eta => eta(alloc),
            Axiom::Selection => selection(alloc),
            Axiom::Infinity => infinity(alloc),
        }
    }

    /// The axiom of that number, from 1.
    pub fn numbered(number: u32) -> Axiom
        ensures { axiom_statement result ≡ axiom_numbered number }
    {
        match number {
            1 => Axiom::Eta,
            2 => Axiom::Selection,
            _ => Axiom::Infinity,
        }
    }
}
