//! The rules that a guard gives, and the names of the guards' variables.
ghost use Rattle.std.specs.Prelude.{◌≡◌, ◌∷◌, ◌++◌, [], if◌then◌else◌, codes, OnOk, IfOk};
ghost use Rattle.fp_term.specs.Variables.{is_among};
ghost use Rattle.fp_term.specs.Terms.{app, term_eq};
ghost use Rattle.fp_conclude.specs.Logic.{false_constant, connective, negation_constant};
ghost use Rattle.fp_rewriting.specs.Facts.{fact_of, facts_of, with_name, with_names, names_of};

use crate::fitting::is_truth;
use crate::fresh::is_among;
use fp_conclude::{connective, false_constant, negation_constant, true_constant};
use fp_term::{Items, Name, Node, Term, same};
use std::alloc::{AllocError, Global};

fn add_name(names: &mut Items<Name>, name: &Name) -> Result<(), AllocError>
    ensures { OnOk result (names.new ≡ with_name names.old name.now) }
{
    if is_among(names.as_slice(), name) {
        return Ok(());
    }
    names.push(name.copy()?)
}

fn add_names(names: &mut Items<Name>, term: &Term) -> Result<(), AllocError>
    ensures { OnOk result (names.new ≡ with_names names.old term.now) }
{
    match term.node() {
        Node::Bound(_) => Ok(()),
        Node::Free { name, .. } => add_name(names, name),
        Node::Const { .. } => Ok(()),
        Node::App { fun, arg } => {
            add_names(names, fun)?;
            add_names(names, arg)
        }
        Node::Abs { body, .. } => add_names(names, body),
    }
}

/// The names of the free variables of the terms.
pub fn names_of(alloc: Global, terms: &[Term]) -> Result<Items<Name>, AllocError>
    ensures { IfOk result (λ names. names ≡ names_of [] terms.now) }
{
    let mut names = Items::new(alloc);
    for term in terms {
        add_names(&mut names, term)?;
    }
    Ok(names)
}

// The rule that a term becomes `T`.
fn add_true(alloc: Global, facts: &mut Items<(Term, Term)>, term: &Term) -> Result<(), AllocError>
    ensures { OnOk result (facts.new ≡ facts.old ++ fact_of term.now) }
{
    if is_truth(alloc, term)? {
        return Ok(());
    }
    let truth = true_constant(alloc)?;
    facts.push((term.copy()?, truth))
}

// The rule that a term becomes `F`.
fn add_false(alloc: Global, facts: &mut Items<(Term, Term)>, term: &Term) -> Result<(), AllocError>
    ensures { OnOk result (facts.new ≡ facts.old ++ (term.now, false_constant) ∷ []) }
{
    let falsity = false_constant(alloc)?;
    facts.push((term.copy()?, falsity))
}

#[tactic(auto, unfolding(fp_term::specs::Names::is_name))]
fn is_conjunction(alloc: Global, head: &Term) -> Result<bool, AllocError>
    ensures { IfOk result (λ yes. yes ≡ term_eq head.now (connective (codes "and"))) }
{
    let and = connective(alloc, b"and")?;
    Ok(same(head, &and))
}

fn is_negation(alloc: Global, head: &Term) -> Result<bool, AllocError>
    ensures { IfOk result (λ yes. yes ≡ term_eq head.now negation_constant) }
{
    let not = negation_constant(alloc)?;
    Ok(same(head, &not))
}

#[cycle(add_facts)]
fn add_facts_of_both(
    alloc: Global,
    facts: &mut Items<(Term, Term)>,
    term: &Term,
    head: &Term,
    left: &Term,
    right: &Term,
) -> Result<(), AllocError>
    requires { term.now ≡ app (app head.now left.now) right.now }
    ensures { OnOk result (facts.new ≡ facts.old ++ facts_of (app (app head.now left.now) right.now)) }
{
    if is_conjunction(alloc, head)? {
        add_facts(alloc, facts, left)?;
        add_facts(alloc, facts, right)
    } else {
        add_true(alloc, facts, term)
    }
}

fn add_facts_of_negation(
    alloc: Global,
    facts: &mut Items<(Term, Term)>,
    term: &Term,
    head: &Term,
    arg: &Term,
) -> Result<(), AllocError>
    ensures { OnOk result (facts.new ≡ facts.old ++
        (if term_eq head.now negation_constant then (arg.now, false_constant) ∷ [] else fact_of term.now)) }
{
    if is_negation(alloc, head)? {
        add_false(alloc, facts, arg)
    } else {
        add_true(alloc, facts, term)
    }
}

/// The rules that a simplified guard gives, after those that are there.
#[cycle(add_facts)]
pub fn add_facts(
    alloc: Global,
    facts: &mut Items<(Term, Term)>,
    term: &Term,
) -> Result<(), AllocError>
    ensures { OnOk result (facts.new ≡ facts.old ++ facts_of term.now) }
{
    let Node::App { fun, arg } = term.node() else {
        return add_true(alloc, facts, term);
    };
    match fun.node() {
        Node::App {
            fun: head,
            arg: left,
        } => add_facts_of_both(alloc, facts, term, head, left, arg),
        Node::Const { .. } => add_facts_of_negation(alloc, facts, term, fun, arg),
        _ => add_true(alloc, facts, term),
    }
}
