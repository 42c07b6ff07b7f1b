//! The form of patterns, and the first argument that has not that form.
ghost use Rattle.std.specs.Prelude.{◌≡◌, ◌+◌, ◌++◌, [], ◌∷◌, Some, None, Ok, Err, IfOk, MatchOption};
ghost use Rattle.fp_pattern.specs.declared.faults.PatternFault.TheVariants.{NonLinear};
ghost use Rattle.fp_pattern.specs.Completed.{is_seen, noted, argument_fault, form_fault};

use crate::faults::PatternFault;
use crate::pattern::is_pattern;
use fp_group::{Clause, ConTable};
use fp_term::{Items, Name, Node, Term, Ty, next};
use std::alloc::{AllocError, Global};

fn is_seen(seen: &[(Name, Ty)], name: &Name, ty: &Ty) -> bool
    ensures { result ≡ is_seen seen.now name.now ty.now }
{
    for known in seen {
        if known.0.equals(name) && known.1.equals(ty) {
            return true;
        }
    }
    false
}

fn add(seen: &mut Items<(Name, Ty)>, name: &Name, ty: &Ty) -> Result<(), AllocError>
    ensures { IfOk result (λ _. seen.new ≡ seen.old ++ (name.now, ty.now) ∷ []) }
{
    seen.push((name.copy()?, ty.copy()?))
}

// Adds the variables of the term to those seen, or gives the first that was seen before.
fn note<'a>(seen: &mut Items<(Name, Ty)>, term: &'a Term) -> Result<Option<&'a Name>, AllocError>
    ensures { IfOk result (λ o. MatchOption o (noted seen.old term.now ≡ Ok seen.new) (λ name. noted seen.old term.now ≡ Err name.now)) }
{
    match term.node() {
        Node::Bound(_) => Ok(None),
        Node::Free { name, ty } => {
            if is_seen(seen.as_slice(), name, ty) {
                return Ok(Some(name));
            }
            add(seen, name, ty)?;
            Ok(None)
        }
        Node::Const { .. } => Ok(None),
        Node::App { fun, arg } => match note(seen, fun)? {
            Some(name) => Ok(Some(name)),
            None => note(seen, arg),
        },
        Node::Abs { .. } => Ok(None),
    }
}

fn non_linear(clause: u32, name: &Name) -> Result<PatternFault, AllocError>
    ensures { IfOk result (λ fault. fault ≡ NonLinear clause name.now) }
{
    Ok(PatternFault::NonLinear(clause, name.copy()?))
}

// What is wrong with the patterns of the clause from an argument on.
fn argument_fault(
    table: &ConTable,
    clause: u32,
    argument: u32,
    seen: &mut Items<(Name, Ty)>,
    patterns: &[Term],
) -> Result<Option<PatternFault>, AllocError>
    ensures { IfOk result (λ o. o ≡ argument_fault table.now clause argument seen.old patterns.now) }
{
    match patterns {
        [] => Ok(None),
        [pattern, rest @ ..] => {
            if !is_pattern(table, pattern) {
                return Ok(Some(PatternFault::NotPattern(clause, argument)));
            }
            match note(seen, pattern)? {
                Some(name) => Ok(Some(non_linear(clause, name)?)),
                None => argument_fault(table, clause, next(argument)?, seen, rest),
            }
        }
    }
}

fn clause_fault(
    alloc: Global,
    table: &ConTable,
    number: u32,
    clause: &Clause,
) -> Result<Option<PatternFault>, AllocError>
    ensures { IfOk result (λ o. o ≡ argument_fault table.now number 1 [] clause.now.patterns) }
{
    let mut seen = Items::new(alloc);
    argument_fault(table, number, 1, &mut seen, clause.patterns.as_slice())
}

/// The first pattern that is none, or has a variable that its clause had before.
pub(crate) fn form_fault(
    alloc: Global,
    table: &ConTable,
    number: u32,
    clauses: &[Clause],
) -> Result<Option<PatternFault>, AllocError>
    ensures { IfOk result (λ o. o ≡ form_fault table.now number clauses.now) }
{
    match clauses {
        [] => Ok(None),
        [clause, rest @ ..] => match clause_fault(alloc, table, number, clause)? {
            Some(fault) => Ok(Some(fault)),
            None => form_fault(alloc, table, next(number)?, rest),
        },
    }
}
