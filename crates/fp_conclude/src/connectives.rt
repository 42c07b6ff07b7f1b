//! The definitions of the logical constants.
ghost use Rattle.std.specs.Prelude.{◌≡◌, codes, IfOk, IsTrue};
ghost use Rattle.fp_term.specs.Names.{is_name};
ghost use Rattle.fp_term.specs.Terms.{bound, app, abs};
ghost use Rattle.fp_conclude.specs.Logic.{alpha, truth_type, predicate_type, binary_type, quantifier_type, equal, conjunction, implication, negation_constant, quantifier, true_constant, false_constant, connective, for_all};
ghost use Rattle.fp_conclude.specs.Axioms.{true_is, and_is, imp_is, all_is, ex_is, or_is, false_is, not_is, definition_statement, connective_numbered};

use crate::formula::{
    abstraction, alpha, binary_truth, conjunction, connective, false_constant, for_all,
    implication, negation_constant, quantifier, quantifier_type, true_constant,
};
use crate::logic::{apply, apply_both, equation, predicate_over, truth_type};
use fp_term::Term;
use std::alloc::{AllocError, Global};

/// The constants of the start that are defined by equality alone, in the order of their definitions.
#[derive(Clone, Copy)]
pub enum LogicalConstant {
    /// `T`
    Truth,
    /// `/\`
    Conjunction,
    /// `-->`
    Implication,
    /// `!`
    Universal,
    /// `?`
    Existential,
    /// `\/`
    Disjunction,
    /// `F`
    Falsity,
    /// `~`
    Negation,
}

// The implication of two bound numbers.
fn implied(alloc: Global, left: u32, right: u32) -> Result<Term, AllocError>
    ensures { IfOk result (λ t. t ≡ implication (bound left) (bound right)) }
{
    let left = Term::bound(alloc, left)?;
    implication(alloc, &left, &Term::bound(alloc, right)?)
}

// The abstraction over two formulas.
fn over_two(alloc: Global, body: &Term) -> Result<Term, AllocError>
    ensures { IfOk result (λ t. t ≡ abs truth_type (abs truth_type body.now)) }
{
    let ty = truth_type(alloc)?;
    let inner = abstraction(alloc, &ty, body)?;
    abstraction(alloc, &ty, &inner)
}

// The definition of a connective of two formulas, which the numbers 1 and 0 stand for.
fn binary_is(alloc: Global, name: &[u8], body: &Term) -> Result<Term, AllocError>
    requires { IsTrue (is_name name.now) }
    ensures { IfOk result (λ t. t ≡ equal (binary_type truth_type truth_type) (connective name.now) (abs truth_type (abs truth_type body.now))) }
{
    let ty = binary_truth(alloc)?;
    let constant = connective(alloc, name)?;
    let meaning = over_two(alloc, body)?;
    equation(alloc, &ty, &constant, &meaning)
}

// `T = ((%p. p) = (%p. p))`
fn true_is(alloc: Global) -> Result<Term, AllocError>
    ensures { IfOk result (λ t. t ≡ true_is) }
{
    let ty = truth_type(alloc)?;
    let same = abstraction(alloc, &ty, &Term::bound(alloc, 0)?)?;
    let meaning = equation(alloc, &predicate_over(alloc, &ty)?, &same, &same)?;
    equation(alloc, &ty, &true_constant(alloc)?, &meaning)
}

// `%f. f t u`, for a function of two formulas
fn selector(alloc: Global, left: &Term, right: &Term) -> Result<Term, AllocError>
    ensures { IfOk result (λ t. t ≡ abs (binary_type truth_type truth_type) (app (app (bound 0) left.now) right.now)) }
{
    let body = apply_both(alloc, &Term::bound(alloc, 0)?, left, right)?;
    abstraction(alloc, &binary_truth(alloc)?, &body)
}

// `%f. f p q`, where the numbers 2 and 1 within stand for `p` and `q`
fn pair(alloc: Global) -> Result<Term, AllocError>
    ensures { IfOk result (λ t. t ≡ abs (binary_type truth_type truth_type) (app (app (bound 0) (bound 2)) (bound 1))) }
{
    let left = Term::bound(alloc, 2)?;
    selector(alloc, &left, &Term::bound(alloc, 1)?)
}

// `%f. f T T`
fn pair_of_truth(alloc: Global) -> Result<Term, AllocError>
    ensures { IfOk result (λ t. t ≡ abs (binary_type truth_type truth_type) (app (app (bound 0) true_constant) true_constant)) }
{
    let truth = true_constant(alloc)?;
    selector(alloc, &truth, &truth)
}

// `(%f. f p q) = (%f. f T T)`
fn pair_is_true(alloc: Global) -> Result<Term, AllocError>
    ensures { IfOk result (λ t. t ≡ equal (predicate_type (binary_type truth_type truth_type)) (abs (binary_type truth_type truth_type) (app (app (bound 0) (bound 2)) (bound 1))) (abs (binary_type truth_type truth_type) (app (app (bound 0) true_constant) true_constant))) }
{
    let ty = predicate_over(alloc, &binary_truth(alloc)?)?;
    let pair = pair(alloc)?;
    equation(alloc, &ty, &pair, &pair_of_truth(alloc)?)
}

// `and = (%p q. (%f. f p q) = (%f. f T T))`
#[tactic(auto, unfolding(fp_term::specs::Names::is_name))]
fn and_is(alloc: Global) -> Result<Term, AllocError>
    ensures { IfOk result (λ t. t ≡ and_is) }
{
    binary_is(alloc, b"and", &pair_is_true(alloc)?)
}

// `imp = (%p q. (p /\ q) = p)`
#[tactic(auto, unfolding(fp_term::specs::Names::is_name))]
fn imp_is(alloc: Global) -> Result<Term, AllocError>
    ensures { IfOk result (λ t. t ≡ imp_is) }
{
    let first = Term::bound(alloc, 1)?;
    let both = conjunction(alloc, &first, &Term::bound(alloc, 0)?)?;
    let body = equation(alloc, &truth_type(alloc)?, &both, &first)?;
    binary_is(alloc, b"imp", &body)
}

// `all = (%P. P = (%x. T))`
#[tactic(auto, unfolding(fp_term::specs::Names::is_name))]
fn all_is(alloc: Global) -> Result<Term, AllocError>
    ensures { IfOk result (λ t. t ≡ all_is) }
{
    let ty = alpha(alloc)?;
    let always = abstraction(alloc, &ty, &true_constant(alloc)?)?;
    let predicate = predicate_over(alloc, &ty)?;
    let body = equation(alloc, &predicate, &Term::bound(alloc, 0)?, &always)?;
    quantifier_is(alloc, b"all", &body)
}

// The definition of a quantifier, where the number 0 stands for the predicate.
fn quantifier_is(alloc: Global, name: &[u8], body: &Term) -> Result<Term, AllocError>
    requires { IsTrue (is_name name.now) }
    ensures { IfOk result (λ t. t ≡ equal (quantifier_type alpha) (quantifier name.now alpha) (abs (predicate_type alpha) body.now)) }
{
    let ty = alpha(alloc)?;
    let constant = quantifier(alloc, name, &ty)?;
    let meaning = abstraction(alloc, &predicate_over(alloc, &ty)?, body)?;
    equation(alloc, &quantifier_type(alloc, &ty)?, &constant, &meaning)
}

// `P x --> q`, where the numbers 2, 1 and 0 stand for `P`, `q` and `x`
fn met_implies(alloc: Global) -> Result<Term, AllocError>
    ensures { IfOk result (λ t. t ≡ implication (app (bound 2) (bound 0)) (bound 1)) }
{
    let met = apply(alloc, &Term::bound(alloc, 2)?, &Term::bound(alloc, 0)?)?;
    implication(alloc, &met, &Term::bound(alloc, 1)?)
}

// `(!x. P x --> q) --> q`, where the numbers 1 and 0 stand for `P` and `q`
fn each_implies(alloc: Global) -> Result<Term, AllocError>
    ensures { IfOk result (λ t. t ≡ implication (for_all alpha (implication (app (bound 2) (bound 0)) (bound 1))) (bound 0)) }
{
    let ty = alpha(alloc)?;
    let each = for_all(alloc, &ty, &met_implies(alloc)?)?;
    implication(alloc, &each, &Term::bound(alloc, 0)?)
}

// `ex = (%P. !q. (!x. P x --> q) --> q)`
#[tactic(auto, unfolding(fp_term::specs::Names::is_name))]
fn ex_is(alloc: Global) -> Result<Term, AllocError>
    ensures { IfOk result (λ t. t ≡ ex_is) }
{
    let body = for_all(alloc, &truth_type(alloc)?, &each_implies(alloc)?)?;
    quantifier_is(alloc, b"ex", &body)
}

// `(p --> r) --> (q --> r) --> r`, where the numbers 2, 1 and 0 stand for `p`, `q` and `r`
fn either_implies(alloc: Global) -> Result<Term, AllocError>
    ensures { IfOk result (λ t. t ≡ implication (implication (bound 2) (bound 0)) (implication (implication (bound 1) (bound 0)) (bound 0))) }
{
    let second = implication(alloc, &implied(alloc, 1, 0)?, &Term::bound(alloc, 0)?)?;
    implication(alloc, &implied(alloc, 2, 0)?, &second)
}

// `or = (%p q. !r. (p --> r) --> (q --> r) --> r)`
#[tactic(auto, unfolding(fp_term::specs::Names::is_name))]
fn or_is(alloc: Global) -> Result<Term, AllocError>
    ensures { IfOk result (λ t. t ≡ or_is) }
{
    let ty = truth_type(alloc)?;
    let body = for_all(alloc, &ty, &either_implies(alloc)?)?;
    binary_is(alloc, b"or", &body)
}

// `F = (!p. p)`
fn false_is(alloc: Global) -> Result<Term, AllocError>
    ensures { IfOk result (λ t. t ≡ false_is) }
{
    let ty = truth_type(alloc)?;
    let meaning = for_all(alloc, &ty, &Term::bound(alloc, 0)?)?;
    equation(alloc, &ty, &false_constant(alloc)?, &meaning)
}

// `%p. p --> F`
fn negated(alloc: Global) -> Result<Term, AllocError>
    ensures { IfOk result (λ t. t ≡ abs truth_type (implication (bound 0) false_constant)) }
{
    let body = implication(alloc, &Term::bound(alloc, 0)?, &false_constant(alloc)?)?;
    abstraction(alloc, &truth_type(alloc)?, &body)
}

// `not = (%p. p --> F)`
fn not_is(alloc: Global) -> Result<Term, AllocError>
    ensures { IfOk result (λ t. t ≡ not_is) }
{
    let ty = predicate_over(alloc, &truth_type(alloc)?)?;
    equation(alloc, &ty, &negation_constant(alloc)?, &negated(alloc)?)
}

impl LogicalConstant {
    /// The equation by which the constant is defined.
    pub fn definition(self, alloc: Global) -> Result<Term, AllocError>
        ensures { IfOk result (λ t. t ≡ definition_statement self) }
    {
        match self {
            LogicalConstant::Truth => true_is(alloc),
            LogicalConstant::Conjunction => and_is(alloc),
            LogicalConstant::Implication => imp_is(alloc),
            LogicalConstant::Universal => all_is(alloc),
            LogicalConstant::Existential => ex_is(alloc),
            LogicalConstant::Disjunction => or_is(alloc),
            LogicalConstant::Falsity => false_is(alloc),
            LogicalConstant::Negation => not_is(alloc),
        }
    }

    /// The constant of that number, from 1.
    pub fn numbered(number: u32) -> LogicalConstant
        ensures { definition_statement result ≡ connective_numbered number }
    {
        match number {
            1 => LogicalConstant::Truth,
            2 => LogicalConstant::Conjunction,
            3 => LogicalConstant::Implication,
            4 => LogicalConstant::Universal,
            5 => LogicalConstant::Existential,
            6 => LogicalConstant::Disjunction,
            7 => LogicalConstant::Falsity,
            _ => LogicalConstant::Negation,
        }
    }
}
