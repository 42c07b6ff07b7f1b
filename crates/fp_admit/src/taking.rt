//! Clauses as functions with patterns and right sides.
ghost use Rattle.std.specs.Prelude.{◌≡◌, ◌<◌, ◌+◌, ◌++◌, ◌∷◌, [], length, Some, IfOk, IfSome, OnOk};
ghost use Rattle.fp_term.specs.Terms.{head_of};
ghost use Rattle.fp_term.specs.Typing.{function_type_over};
ghost use Rattle.fp_pattern.specs.Completed.{AreBelow};
ghost use Rattle.fp_admit.specs.Admitted.{AreEach, number_from, function_number, IsClauseOf, IsHeadOf};

use crate::fault::no_clause;
use crate::variables::{check_bound, check_hidden};
use fp_conclude::{function_parts, sides};
use fp_group::{Clause, Head};
use fp_outcome::FunFault;
use fp_term::{Items, Name, Node, Term, Ty, arguments, head, next};
use std::alloc::{AllocError, Global};

// The most functions of a group, and the most arguments of one.
const MOST_FUNCTIONS: usize = 8;

const MOST_ARGUMENTS: usize = 8;

/// The functions with the types of their arguments and of their results, and the written clauses.
#[derive(Drop)]
pub(crate) struct Parts {
    pub(crate) heads: Items<Head>,
    pub(crate) clauses: Items<Clause>,
}

// The number of the function of that name, where they are numbered from here on.
fn number_from(exact: &[(Name, Ty)], name: &Name, number: u32) -> Option<u32>
    ensures is { IfSome result (λ found. number_from number exact.now name.now ≡ Some found) }
    ensures below { IfSome result (λ found. found < number + length exact.now) }
{
    match exact {
        [] => None,
        [first, rest @ ..] => if first.0.equals(name) {
            Some(number)
        } else {
            number_from(rest, name, number.checked_add(1)?)
        },
    }
}

// The function that is defined by an equation with that left side.
fn defined_by(exact: &[(Name, Ty)], left: &Term) -> Option<u32>
    ensures is { IfSome result (λ number. function_number exact.now (head_of left.now) ≡ Some number) }
    ensures below { IfSome result (λ number. number < length exact.now) }
{
    match head(left).node() {
        Node::Const { name, .. } => number_from(exact, name, 0),
        _ => None,
    }
}

// The parts of a clause, if it is one.
fn parts_of(alloc: Global, exact: &[(Name, Ty)], term: &Term) -> Result<Option<Clause>, AllocError>
    ensures is { IfOk result (λ o. IfSome o (IsClauseOf exact.now term.now)) }
    ensures below { IfOk result (λ o. IfSome o (λ clause. clause.function < length exact.now)) }
{
    let Some(equation) = sides(term) else {
        return Ok(None);
    };
    let Some(function) = defined_by(exact, equation.left) else {
        return Ok(None);
    };
    let patterns = arguments(alloc, equation.left)?;
    if patterns.as_slice().is_empty() {
        return Ok(None);
    }
    Ok(Some(Clause {
        function,
        patterns,
        right: equation.right.copy()?,
        origin: None,
    }))
}

// Puts a clause at the end.
#[tactic(auto, using(crate::proofs::Below::pushed))]
fn add_clause(clauses: &mut Items<Clause>, count: usize, clause: Clause) -> Result<(), AllocError>
    requires below { AreBelow count clauses.old }
    requires function { clause.function < count }
    ensures added { OnOk result (clauses.new ≡ clauses.old ++ clause ∷ []) }
    ensures below { OnOk result (AreBelow count clauses.new) }
{
    clauses.push(clause)
}

fn taken(
    alloc: Global,
    at: u32,
    exact: &[(Name, Ty)],
    terms: &[Term],
) -> Result<Items<Clause>, FunFault>
    ensures each { IfOk result (AreEach (IsClauseOf exact.now) terms.now) }
    ensures below { IfOk result (AreBelow (length exact.now)) }
{
    let mut clauses = Items::new(alloc);
    let mut number = 0u32;
    for term in terms {
        number = next(number)?;
        match parts_of(alloc, exact, term)? {
            Some(clause) => add_clause(&mut clauses, exact.len(), clause)?,
            None => return Err(FunFault::NotClause { at, clause: number }),
        }
    }
    Ok(clauses)
}

// How many arguments the function's first clause has.
fn count_of(clauses: &[Clause], function: u32) -> Option<usize> {
    for clause in clauses {
        if clause.function == function {
            return Some(clause.patterns.as_slice().len());
        }
    }
    None
}

fn check_counts(at: u32, clauses: &[Clause]) -> Result<(), FunFault> {
    let mut number = 0u32;
    for clause in clauses {
        number = next(number)?;
        if count_of(clauses, clause.function) != Some(clause.patterns.as_slice().len()) {
            return Err(FunFault::ArityDiffers { at, clause: number });
        }
    }
    Ok(())
}

fn check_most(at: u32, clauses: &[Clause]) -> Result<(), FunFault> {
    let mut number = 0u32;
    for clause in clauses {
        number = next(number)?;
        if clause.patterns.as_slice().len() > MOST_ARGUMENTS {
            return Err(FunFault::TooManyArguments { at, clause: number });
        }
    }
    Ok(())
}

fn check_some(at: u32, exact: &[(Name, Ty)], clauses: &[Clause]) -> Result<(), FunFault> {
    let mut function = 0u32;
    for (name, _) in exact {
        if count_of(clauses, function).is_none() {
            return Err(no_clause(at, name));
        }
        function = next(function)?;
    }
    Ok(())
}

// The function with its type, of which so many arguments are taken. Want of memory where it doesn't have so many, which
// doesn't happen at a function that has a well-typed clause.
fn head_by(alloc: Global, name: &Name, ty: &Ty, count: usize) -> Result<Head, AllocError>
    ensures { IfOk result (IsHeadOf (name.now, ty.now)) }
{
    let mut args = Items::new(alloc);
    let mut rest = ty;
    for _ in 0..count {
        match function_parts(rest) {
            Some((from, to)) => {
                args.push(from.copy()?)?;
                rest = to;
            }
            None => return Err(AllocError),
        }
    }
    Ok(Head {
        name: name.copy()?,
        args,
        result: rest.copy()?,
    })
}

fn heads_of(
    alloc: Global,
    exact: &[(Name, Ty)],
    clauses: &[Clause],
) -> Result<Items<Head>, AllocError>
    ensures { IfOk result (AreEach IsHeadOf exact.now) }
{
    let mut heads = Items::new(alloc);
    let mut function = 0u32;
    for (name, ty) in exact {
        let count = count_of(clauses, function).unwrap_or(0);
        heads.push(head_by(alloc, name, ty, count)?)?;
        function = next(function)?;
    }
    Ok(heads)
}

/// The functions and the clauses, taken apart; or the first fault of their form.
pub(crate) fn take_apart(
    alloc: Global,
    at: u32,
    exact: &[(Name, Ty)],
    terms: &[Term],
) -> Result<Parts, FunFault>
    ensures heads { IfOk result (λ parts. AreEach IsHeadOf exact.now parts.heads) }
    ensures each { IfOk result (λ parts. AreEach (IsClauseOf exact.now) terms.now parts.clauses) }
    ensures clauses { IfOk result (λ parts. AreBelow (length exact.now) parts.clauses) }
{
    if exact.len() > MOST_FUNCTIONS {
        return Err(FunFault::TooManyFunctions { at });
    }
    let clauses = taken(alloc, at, exact, terms)?;
    check_counts(at, clauses.as_slice())?;
    check_most(at, clauses.as_slice())?;
    check_some(at, exact, clauses.as_slice())?;
    check_bound(alloc, at, clauses.as_slice())?;
    let heads = heads_of(alloc, exact, clauses.as_slice())?;
    check_hidden(alloc, at, exact, heads.as_slice(), terms)?;
    Ok(Parts { heads, clauses })
}
