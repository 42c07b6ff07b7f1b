//! The rule that a theorem's conclusion states.
ghost use Rattle.std.specs.Prelude.{◌≡◌, ◌++◌, Some, None, IfOk, OnOk, MatchOption};
ghost use Rattle.std.specs.List.{list_all};
ghost use Rattle.std.specs.Option.{IfSome};
ghost use Rattle.fp_rewriting.specs.Stated.{IsStated};
ghost use Rattle.fp_term.specs.Variables.{is_among, type_names, all_type_names, type_names_in};
ghost use Rattle.fp_rewriting.specs.Reading.{premises, consequence, negated, sides_of, read, is_covered, are_covered, covers, is_rewriting, rule_of};

use crate::rule::{Rule, head_constant};
use fp_conclude::{false_constant, negation_constant, sides, true_constant};
use fp_forms::implication_parts;
use fp_term::{Items, Name, Node, Term, Ty, TyNode, Tys, TysNode, occurs, same};
use std::alloc::{AllocError, Global};

// Puts the premises of the implications at the end of the list, and gives what is left.
#[tactic(auto, using(crate::proofs::Premises::one_taken, crate::proofs::Premises::all_taken))]
fn take_premises<'a>(
    alloc: Global,
    conds: &mut Items<Term>,
    term: &'a Term,
) -> Result<&'a Term, AllocError>
    ensures conds { OnOk result (conds.new ≡ conds.old ++ premises term.now) }
    ensures rest { IfOk result (λ t. t.now ≡ consequence term.now) }
{
    match implication_parts(alloc, term)? {
        Some((premise, rest)) => {
            conds.push(premise.copy()?)?;
            take_premises(alloc, conds, rest)
        }
        None => Ok(term),
    }
}

// The formula that is negated.
fn negated(alloc: Global, term: &Term) -> Result<Option<&Term>, AllocError>
    ensures { IfOk result (λ o. MatchOption o (negated term.now ≡ None) (λ p. negated term.now ≡ Some p.now)) }
{
    let Node::App { fun, arg } = term.node() else {
        return Ok(None);
    };
    let not = negation_constant(alloc)?;
    if same(fun, &not) {
        Ok(Some(arg))
    } else {
        Ok(None)
    }
}

// An equation's sides; `p` and `F` of a negation `~ p`, and `p` and `T` of another `p`.
fn sides_of(alloc: Global, term: &Term) -> Result<(Term, Term), AllocError>
    ensures { IfOk result (λ p. (p.0, p.1) ≡ sides_of term.now) }
{
    if let Some(equation) = sides(term) {
        return Ok((equation.left.copy()?, equation.right.copy()?));
    }
    match negated(alloc, term)? {
        Some(formula) => Ok((formula.copy()?, false_constant(alloc)?)),
        None => Ok((term.copy()?, true_constant(alloc)?)),
    }
}

#[cycle(mentions)]
fn mentions(ty: &Ty, name: &Name) -> bool
    ensures { result ≡ is_among (type_names ty.now) name.now }
{
    match ty.node() {
        TyNode::Var(a) => a.equals(name),
        TyNode::Con { args, .. } => any_mentions(args, name),
    }
}

#[cycle(mentions)]
#[tactic(auto, using(fp_term::proofs::Search::among_append))]
fn any_mentions(tys: &Tys, name: &Name) -> bool
    ensures { result ≡ is_among (all_type_names tys.now) name.now }
{
    match tys.node() {
        TysNode::End => false,
        TysNode::More { first, rest } => mentions(first, name) || any_mentions(rest, name),
    }
}

// Does the type variable occur in the term?
#[tactic(auto, using(fp_term::proofs::Search::among_append))]
fn has_type_variable(term: &Term, name: &Name) -> bool
    ensures { result ≡ is_among (type_names_in term.now) name.now }
{
    match term.node() {
        Node::Bound(_) => false,
        Node::Free { ty, .. } => mentions(ty, name),
        Node::Const { ty, .. } => mentions(ty, name),
        Node::App { fun, arg } => has_type_variable(fun, name) || has_type_variable(arg, name),
        Node::Abs { ty, body } => mentions(ty, name) || has_type_variable(body, name),
    }
}

// Does each type variable of the type occur in the term?
#[cycle(covered)]
fn is_covered(ty: &Ty, term: &Term) -> bool
    ensures { result ≡ is_covered term.now ty.now }
{
    match ty.node() {
        TyNode::Var(name) => has_type_variable(term, name),
        TyNode::Con { args, .. } => are_covered(args, term),
    }
}

#[cycle(covered)]
fn are_covered(tys: &Tys, term: &Term) -> bool
    ensures { result ≡ are_covered term.now tys.now }
{
    match tys.node() {
        TysNode::End => true,
        TysNode::More { first, rest } => is_covered(first, term) && are_covered(rest, term),
    }
}

// Does each variable and each type variable of the part occur in the term?
fn covers(part: &Term, term: &Term) -> bool
    ensures { result ≡ covers term.now part.now }
{
    match part.node() {
        Node::Bound(_) => true,
        Node::Free { name, ty } => occurs(name, ty, term) && is_covered(ty, term),
        Node::Const { ty, .. } => is_covered(ty, term),
        Node::App { fun, arg } => covers(fun, term) && covers(arg, term),
        Node::Abs { ty, body } => is_covered(ty, term) && covers(body, term),
    }
}

fn covers_all(parts: &[Term], term: &Term) -> bool
    ensures { result ≡ list_all (covers term.now) parts.now }
{
    parts.iter().all(|part| covers(part, term))
}

fn is_rewriting(rule: &Rule) -> bool
    ensures { result ≡ is_rewriting rule.now }
{
    head_constant(&rule.lhs).is_some()
        && covers_all(rule.conds.as_slice(), &rule.lhs)
        && covers(&rule.rhs, &rule.lhs)
}

// What the conclusion reads as.
fn read(alloc: Global, name: &Name, concl: &Term) -> Result<Rule, AllocError>
    ensures { IfOk result (λ r. r ≡ read name.now concl.now) }
{
    let mut conds = Items::new(alloc);
    let rest = take_premises(alloc, &mut conds, concl)?;
    let (lhs, rhs) = sides_of(alloc, rest)?;
    Ok(Rule {
        name: name.copy()?,
        conds,
        lhs,
        rhs,
    })
}

/// The rewriting rule of that name that a theorem's conclusion states. All its premises are conditions. An equation
/// rewrites its left side, a negation `~ p` rewrites `p` to `F`, and any other `p` becomes `T`. There is none exactly
/// where no constant stands at the head of the left side, or where a variable or a type variable doesn't occur there.
pub fn rule_of(alloc: Global, name: &Name, concl: &Term) -> Result<Option<Rule>, AllocError>
    ensures is { IfOk result (λ o. o ≡ rule_of name.now concl.now) }
    ensures stated { IfOk result (λ o. IfSome o IsStated) }
{
    let rule = read(alloc, name, concl)?;
    if is_rewriting(&rule) {
        Ok(Some(rule))
    } else {
        Ok(None)
    }
}
