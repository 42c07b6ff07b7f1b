//! The form of a congruence rule.
ghost use Rattle.std.specs.Prelude.{◌≡◌, ◌++◌, ◌-◌, [], ◌∷◌, length, IfOk, OnOk, not, ◌&&◌, is_none};
ghost use Rattle.std.specs.List.{list_all};
ghost use Rattle.std.specs.Option.{option_copied};
ghost use Rattle.fp_term.specs.Terms.{bound, term_eq, head_of, arguments_of};
ghost use Rattle.fp_term.specs.Variables.{hidden_of};
ghost use Rattle.fp_conclude.specs.Hypotheses.{member};
ghost use Rattle.fp_conclude.specs.Parts.{equation};
ghost use Rattle.fp_cong_rule.specs.Form.{is_variable, are_distinct, are_numbers, partner, is_that, mentions_only, are_ends};
ghost use Rattle.fp_cong_rule.specs.Form.{is_premise, subject_of, known_after, is_next, are_premises, are_sides, is_rule, is_rule_at};

use crate::parts::Premise;
use fp_conclude::{Equation, sides};
use fp_term::{Items, Node, Term, Ty, arguments, copy_all, head, hidden_type, same};
use std::alloc::{AllocError, Global};

fn is_variable(term: &Term) -> bool
    ensures { result ≡ is_variable term.now }
{
    match term.node() {
        Node::Free { .. } => true,
        _ => false,
    }
}

fn is_member(term: &Term, terms: &[Term]) -> bool
    ensures { result ≡ member term.now terms.now }
{
    for other in terms {
        if same(term, other) {
            return true;
        }
    }
    false
}

// Does none stand twice?
fn are_distinct(terms: &[Term]) -> bool
    ensures { result ≡ are_distinct terms.now }
{
    for at in 0..terms.len() {
        if is_member(&terms[at], &terms[at + 1..]) {
            return false;
        }
    }
    true
}

fn is_number(term: &Term, number: usize) -> bool
    ensures { result ≡ term_eq term.now (bound number) }
{
    match term.node() {
        Node::Bound(n) => *n as usize == number,
        _ => false,
    }
}

// Are these the loose numbers below the number, the greatest first?
fn are_numbers(count: usize, terms: &[Term]) -> bool
    ensures { result ≡ are_numbers count terms.now }
{
    let mut below = count;
    for term in terms {
        if below == 0 {
            return false;
        }
        below -= 1;
        if !is_number(term, below) {
            return false;
        }
    }
    below == 0
}

// The `y` of an `x`.
fn partner<'a>(xs: &[Term], ys: &'a [Term], term: &Term) -> Option<&'a Term>
    ensures { option_copied result ≡ partner xs.now ys.now term.now }
{
    for at in 0..xs.len() {
        if at >= ys.len() {
            return None;
        }
        if same(&xs[at], term) {
            return Some(&ys[at]);
        }
    }
    None
}

fn is_that(of: Option<&Term>, term: &Term) -> bool
    ensures { result ≡ is_that (option_copied of.entry) term.now }
{
    match of {
        Some(known) => same(known, term),
        None => false,
    }
}

// Are all free variables of the term among these?
fn mentions_only(known: &[Term], term: &Term) -> bool
    ensures { result ≡ mentions_only known.now term.now }
{
    match term.node() {
        Node::Bound(_) => true,
        Node::Free { .. } => is_member(term, known),
        Node::Const { .. } => true,
        Node::App { fun, arg } => mentions_only(known, fun) && mentions_only(known, arg),
        Node::Abs { body, .. } => mentions_only(known, body),
    }
}

fn all_mention_only(known: &[Term], terms: &[Term]) -> bool
    ensures { result ≡ list_all (mentions_only known.now) terms.now }
{
    terms.iter().all(|term| mentions_only(known, term))
}

/// The `x` of which a premise speaks.
pub(crate) fn subject_of(premise: &Premise) -> &Term
    ensures { result.now ≡ subject_of premise.now }
{
    match sides(&premise.rest) {
        Some(equation) => head(equation.left),
        None => &premise.rest,
    }
}

// Is the term applied to the loose numbers of so many variables?
fn is_at_numbers(alloc: Global, count: usize, term: &Term) -> Result<bool, AllocError>
    ensures { IfOk result (λ yes. yes ≡ are_numbers count (arguments_of term.now)) }
{
    let args = arguments(alloc, term)?;
    Ok(are_numbers(count, args.as_slice()))
}

// Are these `x v1 .. vk` and `y v1 .. vk`, for one of the pairs?
fn are_ends(
    alloc: Global,
    xs: &[Term],
    ys: &[Term],
    count: usize,
    rest: &Term,
) -> Result<bool, AllocError>
    ensures { IfOk result (λ yes. yes ≡ are_ends xs.now ys.now count (equation rest.now)) }
{
    let Some(equation) = sides(rest) else {
        return Ok(false);
    };
    if !is_that(partner(xs, ys, head(equation.left)), head(equation.right)) {
        return Ok(false);
    }
    if !is_at_numbers(alloc, count, equation.left)? {
        return Ok(false);
    }
    is_at_numbers(alloc, count, equation.right)
}

fn is_premise(
    alloc: Global,
    xs: &[Term],
    ys: &[Term],
    known: &[Term],
    premise: &Premise,
) -> Result<bool, AllocError>
    ensures { IfOk result (λ yes. yes ≡ is_premise xs.now ys.now known.now premise.now) }
{
    let count = premise.vars.as_slice().len();
    if !are_ends(alloc, xs, ys, count, &premise.rest)? {
        return Ok(false);
    }
    Ok(all_mention_only(known, premise.guards.as_slice()))
}

// Is it a premise that fits, for an `x` that isn't taken?
fn is_next(
    alloc: Global,
    xs: &[Term],
    ys: &[Term],
    taken: &[Term],
    known: &[Term],
    premise: &Premise,
) -> Result<bool, AllocError>
    ensures { IfOk result (λ yes. yes ≡ is_next xs.now ys.now taken.now known.now premise.now) }
{
    if !is_premise(alloc, xs, ys, known, premise)? {
        return Ok(false);
    }
    Ok(!is_member(subject_of(premise), taken))
}

// Puts the premise's `y` at the end of the known ones, where it has no guard.
fn add_known(
    xs: &[Term],
    ys: &[Term],
    known: &mut Items<Term>,
    premise: &Premise,
) -> Result<(), AllocError>
    ensures { OnOk result (known.new ≡ known_after xs.now ys.now known.old premise.now) }
{
    if !premise.guards.as_slice().is_empty() {
        return Ok(());
    }
    match partner(xs, ys, subject_of(premise)) {
        Some(y) => known.push(y.copy()?),
        None => Ok(()),
    }
}

fn are_premises(
    alloc: Global,
    xs: &[Term],
    ys: &[Term],
    premises: &[Premise],
) -> Result<bool, AllocError>
    ensures { IfOk result (λ yes. yes ≡ are_premises xs.now ys.now [] [] premises.now) }
{
    let mut taken = Items::new(alloc);
    let mut known = Items::new(alloc);
    for premise in premises {
        if !is_next(alloc, xs, ys, taken.as_slice(), known.as_slice(), premise)? {
            return Ok(false);
        }
        taken.push(subject_of(premise).copy()?)?;
        add_known(xs, ys, &mut known, premise)?;
    }
    Ok(true)
}

fn are_variables(terms: &[Term]) -> bool
    ensures { result ≡ list_all is_variable terms.now }
{
    terms.iter().all(|term| is_variable(term))
}

// Are these all variables, none of them twice?
fn are_distinct_variables(alloc: Global, xs: &[Term], ys: &[Term]) -> Result<bool, AllocError>
    ensures { IfOk result (λ yes. yes ≡ (list_all is_variable (xs.now ++ ys.now) && are_distinct (xs.now ++ ys.now))) }
{
    let both = copy_all(alloc, xs)?.extended(copy_all(alloc, ys)?)?;
    let all = both.as_slice();
    Ok(are_variables(all) && are_distinct(all))
}

// So many variables on each side, at least one, all distinct?
fn are_sides(alloc: Global, count: usize, xs: &[Term], ys: &[Term]) -> Result<bool, AllocError>
    ensures { IfOk result (λ yes. yes ≡ are_sides count xs.now ys.now) }
{
    if !(0 < count && xs.len() == count && ys.len() == count) {
        return Ok(false);
    }
    are_distinct_variables(alloc, xs, ys)
}

fn is_rule(
    alloc: Global,
    left: &Term,
    right: &Term,
    premises: &[Premise],
) -> Result<bool, AllocError>
    ensures { IfOk result (λ yes. yes ≡ is_rule left.now right.now premises.now) }
{
    if !same(head(left), head(right)) {
        return Ok(false);
    }
    let xs = arguments(alloc, left)?;
    let ys = arguments(alloc, right)?;
    if !are_sides(alloc, premises.len(), xs.as_slice(), ys.as_slice())? {
        return Ok(false);
    }
    are_premises(alloc, xs.as_slice(), ys.as_slice(), premises)
}

/// Are these the sides and the premises of a rule, and do all type variables of the conclusion occur in the constant's type?
pub(crate) fn is_rule_at(
    alloc: Global,
    concl: &Term,
    ty: &Ty,
    sides: &Equation<'_>,
    premises: &[Premise],
) -> Result<bool, AllocError>
    ensures { IfOk result (λ yes. yes ≡ is_rule_at concl.now ty.now sides.now.left.now sides.now.right.now premises.now) }
{
    if !is_rule(alloc, sides.left, sides.right, premises)? {
        return Ok(false);
    }
    Ok(hidden_type(concl, ty).is_none())
}
