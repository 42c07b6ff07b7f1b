//! The completed clauses of a group: the written ones, each without what the earlier ones match, and then the missing ones.
ghost use Rattle.std.specs.Prelude.{◌≡◌, ◌≤◌, ◌<◌, ◌+◌, ◌++◌, [], ◌∷◌, Some, Ok, Err, length, take, drop, codes, IfOk, MatchBool};
ghost use Rattle.std.specs.List.{slice_get};
ghost use Rattle.fp_term.specs.Terms.{free, constant};
ghost use Rattle.fp_pattern.specs.Subtraction.{numbered};
ghost use Rattle.fp_pattern.specs.Completed.{written, variables_from, undefined_clause, patterns_of, Completes, AddsMissing, IsCompletion, IsOnly, Answers, AreBelow, IsPassing, WrittenLeft, MissingLeft, JoinAnswer};
ghost use Rattle.fp_pattern.specs.Instances.{ComeFrom};
ghost use Rattle.fp_pattern.specs.Laws.{Means};
ghost use Rattle.fp_pattern.specs.Witness.{ShowsNeeded};

use crate::faults::PatternFault;
use crate::form::form_fault;
use crate::left::{left_of, left_within};
use crate::split::numbered;
use crate::subtract::append;
use fp_group::{Clause, ConTable, Head};
use fp_term::{Items, Name, Signature, Term, Ty, next};
use std::alloc::{AllocError, Global};

// The clause alone, with its number as its origin.
fn written(alloc: Global, clause: &Clause, number: u32) -> Result<Items<Clause>, AllocError>
    ensures { IfOk result (λ cs. cs ≡ written number clause.now ∷ []) }
{
    let mut copy = clause.copy(alloc)?;
    copy.origin = Some(number);
    let mut clauses = Items::new(alloc);
    clauses.push(copy)?;
    Ok(clauses)
}

fn variable(alloc: Global, number: u32, ty: &Ty) -> Result<Term, AllocError>
    ensures { IfOk result (λ t. t ≡ free (numbered number) ty.now) }
{
    Term::free(alloc, numbered(alloc, number)?, ty.copy()?)
}

fn push_variables(
    alloc: Global,
    variables: &mut Items<Term>,
    number: u32,
    tys: &[Ty],
) -> Result<(), AllocError>
    ensures { IfOk result (λ _. variables.new ≡ variables.old ++ variables_from number tys.now) }
{
    match tys {
        [] => Ok(()),
        [ty, rest @ ..] => {
            variables.push(variable(alloc, number, ty)?)?;
            push_variables(alloc, variables, next(number)?, rest)
        }
    }
}

#[tactic(auto, unfolding(fp_term::specs::Names::is_name))]
fn undefined(alloc: Global, ty: &Ty) -> Result<Term, AllocError>
    ensures { IfOk result (λ t. t ≡ constant (codes "undefined") ty.now) }
{
    Term::constant(alloc, Name::of(alloc, b"undefined")?, ty.copy()?)
}

// The clause of all values of the function, undefined, alone.
fn undefined_clause(alloc: Global, function: u32, head: &Head) -> Result<Items<Clause>, AllocError>
    ensures { IfOk result (λ cs. cs ≡ undefined_clause function head.now ∷ []) }
{
    let mut patterns = Items::new(alloc);
    push_variables(alloc, &mut patterns, 1, head.args.as_slice())?;
    let mut clauses = Items::new(alloc);
    clauses.push(Clause {
        function,
        patterns,
        right: undefined(alloc, &head.result)?,
        origin: None,
    })?;
    Ok(clauses)
}

// Whether nothing is left of the clause, or something of too much on the way.
fn passing(
    alloc: Global,
    table: &ConTable,
    signature: &Signature,
    name: &Name,
    before: &[Clause],
    clause: &Clause,
    number: u32,
) -> Result<PatternFault, AllocError>
    ensures { IfOk result (λ fault. IsPassing table.now signature.now name.now (patterns_of clause.now.function before.now) (written number clause.now) number fault) }
{
    let start = written(alloc, clause, number)?;
    let left = left_of(
        alloc,
        table,
        signature,
        name,
        start,
        clause.function,
        before,
    )?;
    if left.as_slice().len() == 0 {
        Ok(PatternFault::Redundant(number))
    } else {
        Ok(PatternFault::TooMany(number))
    }
}

// What is left of the written clause, or its fault.
fn written_left(
    alloc: Global,
    table: &ConTable,
    signature: &Signature,
    name: &Name,
    before: &[Clause],
    clause: &Clause,
    number: u32,
) -> Result<Items<Clause>, PatternFault>
    ensures { WrittenLeft table.now signature.now name.now (patterns_of clause.now.function before.now) (written number clause.now) number result }
{
    let start = written(alloc, clause, number)?;
    match left_within(
        alloc,
        table,
        signature,
        name,
        start,
        clause.function,
        before,
    )? {
        Some(left) => if left.as_slice().len() == 0 {
            Err(PatternFault::Redundant(number))
        } else {
            Ok(left)
        },
        None => Err(passing(alloc, table, signature, name, before, clause, number)?),
    }
}

// What is left of all values of the function, or that it is too much.
fn missing_left(
    alloc: Global,
    table: &ConTable,
    signature: &Signature,
    head: &Head,
    function: u32,
    clauses: &[Clause],
    number: u32,
) -> Result<Items<Clause>, PatternFault>
    ensures { MissingLeft table.now signature.now head.now.name (patterns_of function clauses.now) (undefined_clause function head.now) number result }
{
    let start = undefined_clause(alloc, function, head)?;
    match left_within(
        alloc, table, signature, &head.name, start, function, clauses,
    )? {
        Some(left) => Ok(left),
        None => Err(PatternFault::TooMany(number)),
    }
}

// The clauses with those that are left, where they aren't too many.
fn join(
    alloc: Global,
    out: Items<Clause>,
    left: &[Clause],
    number: u32,
) -> Result<Items<Clause>, PatternFault>
    ensures { JoinAnswer out left.now number result }
{
    let mut joined = out;
    append(alloc, &mut joined, left)?;
    if joined.as_slice().len() > 256 {
        return Err(PatternFault::TooMany(number));
    }
    Ok(joined)
}

fn number_after(at: usize) -> Result<u32, AllocError>
    ensures { IfOk result (λ n. n ≡ at + 1) }
{
    if at >= 4294967295 {
        return Err(AllocError);
    }
    Ok(at as u32 + 1)
}

fn head_of<'a>(heads: &'a [Head], function: u32) -> &'a Head
    requires { function < length heads.now }
    ensures { slice_get heads.now function ≡ Some result.now }
{
    &heads[function as usize]
}

// The completed clauses of the clauses from a place on, after those that are there.
fn complete_from(
    alloc: Global,
    table: &ConTable,
    signature: &Signature,
    heads: &[Head],
    clauses: &[Clause],
    at: usize,
    out: Items<Clause>,
) -> Result<Items<Clause>, PatternFault>
    requires within { at ≤ length clauses.now }
    requires below { AreBelow (length heads.now) (drop at clauses.now) }
    ensures { Answers (Completes table.now signature.now heads.now (take at clauses.now) (drop at clauses.now) out) result }
{
    if at == clauses.len() {
        return Ok(out);
    }
    let clause = &clauses[at];
    let head = head_of(heads, clause.function);
    let number = number_after(at)?;
    let before = &clauses[..at];
    let left = match written_left(alloc, table, signature, &head.name, before, clause, number) {
        Ok(left) => left,
        Err(fault) => return Err(fault),
    };
    match join(alloc, out, left.as_slice(), number) {
        Ok(joined) => complete_from(alloc, table, signature, heads, clauses, at + 1, joined),
        Err(fault) => Err(fault),
    }
}

// The clauses with the missing ones of the functions from a number on.
fn add_missing(
    alloc: Global,
    table: &ConTable,
    signature: &Signature,
    clauses: &[Clause],
    function: u32,
    heads: &[Head],
    out: Items<Clause>,
) -> Result<Items<Clause>, PatternFault>
    ensures { Answers (AddsMissing table.now signature.now clauses.now function heads.now out) result }
{
    match heads {
        [] => Ok(out),
        [head, rest @ ..] => {
            let number = count_of(clauses)?;
            let left = match missing_left(
                alloc, table, signature, head, function, clauses, number,
            ) {
                Ok(left) => left,
                Err(fault) => return Err(fault),
            };
            let after = next(function)?;
            match join(alloc, out, left.as_slice(), number) {
                Ok(joined) => add_missing(alloc, table, signature, clauses, after, rest, joined),
                Err(fault) => Err(fault),
            }
        }
    }
}

fn count_of(clauses: &[Clause]) -> Result<u32, AllocError>
    ensures { IfOk result (λ n. n ≡ length clauses.now) }
{
    if clauses.len() > 4294967295 {
        return Err(AllocError);
    }
    Ok(clauses.len() as u32)
}

// The completed clauses, or the first fault.
fn completed(
    alloc: Global,
    table: &ConTable,
    signature: &Signature,
    clauses: &[Clause],
    heads: &[Head],
) -> Result<Items<Clause>, PatternFault>
    requires { AreBelow (length heads.now) clauses.now }
    ensures { Answers (IsCompletion table.now signature.now clauses.now heads.now) result }
{
    if let Some(fault) = form_fault(alloc, table, 1, clauses)? {
        return Err(fault);
    }
    match complete_from(
        alloc,
        table,
        signature,
        heads,
        clauses,
        0,
        Items::new(alloc),
    ) {
        Ok(out) => add_missing(alloc, table, signature, clauses, 0, heads, out),
        Err(fault) => Err(fault),
    }
}

/// The clauses completed: each written one without what the earlier ones of its function match, and then what none of a function's clauses matches, as undefined.
pub fn complete(
    alloc: Global,
    table: &ConTable,
    signature: &Signature,
    clauses: &[Clause],
    heads: &[Head],
) -> Result<Items<Clause>, PatternFault>
    requires { AreBelow (length heads.now) clauses.now }
    ensures exact { Answers (IsCompletion table.now signature.now clauses.now heads.now) result }
    ensures only { IsOnly table.now signature.now clauses.now heads.now result }
    ensures means { Means table.now signature.now clauses.now heads.now result }
    ensures come { ComeFrom clauses.now heads.now result }
    ensures needed { ShowsNeeded table.now signature.now clauses.now heads.now result }
{
    completed(alloc, table, signature, clauses, heads)
}
