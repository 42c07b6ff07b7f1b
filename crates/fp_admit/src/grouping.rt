//! Clauses completed, and their calls.
ghost use Rattle.std.specs.Prelude.{◌≡◌, length, Ok, IfOk};
ghost use Rattle.fp_kernel.specs.Start.{signature_of};
ghost use Rattle.fp_pattern.specs.Completed.{AreBelow, IsCompletion};
ghost use Rattle.fp_cong.specs.Rows.{AreRows};
ghost use Rattle.fp_admit.specs.Admitted.{table_of, Completes};

use crate::taking::Parts;
use fp_cong::{CallFault, calls};
use fp_declared::congruence_rules;
use fp_group::{CallSite, Clause, CongTable, Group, Head};
use fp_outcome::FunFault;
use fp_pattern::{PatternFault, complete};
use fp_term::Items;
use fp_theory::Theory;
use std::alloc::Global;

// The most call sites of a group.
const MOST_CALLS: u32 = 64;

fn of_patterns(at: u32, fault: PatternFault) -> FunFault {
    match fault {
        PatternFault::NotPattern(clause, argument) => FunFault::NotPattern {
            at,
            clause,
            argument,
        },
        PatternFault::NonLinear(clause, name) => FunFault::NonLinear { at, clause, name },
        PatternFault::Redundant(clause) => FunFault::Redundant { at, clause },
        PatternFault::TooMany(clause) => FunFault::TooManyClauses { at, clause },
        PatternFault::NoMemory => FunFault::NoMemory,
    }
}

// A completed clause's origin is counted from 1, and the walk of calls adds 1 to it.
fn of_calls(at: u32, fault: CallFault) -> FunFault {
    match fault {
        CallFault::PartialCall(number) => FunFault::PartialCall {
            at,
            clause: number.saturating_sub(1),
        },
        CallFault::TooMany(number) => FunFault::TooManyCalls { at, number },
        CallFault::NoMemory => FunFault::NoMemory,
    }
}

fn completed(
    alloc: Global,
    theory: &Theory,
    at: u32,
    parts: &Parts,
) -> Result<Items<Clause>, FunFault>
    requires { AreBelow (length parts.now.heads) parts.now.clauses }
    ensures { IfOk result (λ clauses. IsCompletion (table_of theory.now) (signature_of theory.now.defs) parts.now.clauses parts.now.heads (Ok clauses)) }
{
    match complete(
        alloc,
        theory.constructors(),
        theory.signature(),
        parts.clauses.as_slice(),
        parts.heads.as_slice(),
    ) {
        Ok(clauses) => Ok(clauses),
        Err(fault) => Err(of_patterns(at, fault)),
    }
}

fn sites_of(
    alloc: Global,
    at: u32,
    clauses: &[Clause],
    heads: &[Head],
    rules: &CongTable,
) -> Result<Items<CallSite>, FunFault>
    ensures { IfOk result (AreRows heads.now rules.now.rules clauses.now 64) }
{
    match calls(alloc, clauses, heads, rules, MOST_CALLS) {
        Ok(sites) => Ok(sites),
        Err(fault) => Err(of_calls(at, fault)),
    }
}

/// The group of these functions and clauses.
pub(crate) fn group_of(
    alloc: Global,
    theory: &Theory,
    at: u32,
    parts: Parts,
) -> Result<Group, FunFault>
    requires { AreBelow (length parts.heads) parts.clauses }
    ensures { IfOk result (Completes theory.now parts.heads parts.clauses) }
{
    let clauses = completed(alloc, theory, at, &parts)?;
    let rules = congruence_rules(alloc, theory)?;
    let sites = sites_of(
        alloc,
        at,
        clauses.as_slice(),
        parts.heads.as_slice(),
        &rules,
    )?;
    Ok(Group {
        heads: parts.heads,
        clauses,
        sites,
        rules,
    })
}
