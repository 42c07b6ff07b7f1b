//! The verdict of a cell with its theorem.
ghost use Rattle.std.specs.Prelude.{◌≡◌, IfOk, MatchOption};
ghost use Rattle.fp_conclude.specs.Logic.{true_constant};
ghost use Rattle.fp_order.specs.declared.entry.Entry.{Entry};
ghost use Rattle.fp_simp.specs.Verdicts.{asked_of, IsSettledTrue, IsVerdict};
ghost use Rattle.fp_retrace.specs.Standing.{AreNamedWithin};
ghost use Rattle.fp_retrace.specs.Proving.{Equates, Proves, ProvesEntry};

use crate::simplified::prove_simp;
use fp_kernel::{Defs, Thm};
use fp_logic::eqt_elim_known;
use fp_rewriting::{RuleSet, is_truth};
use fp_simp::{CellData, Entry};
use fp_term::{Name, Term};
use std::alloc::{AllocError, Global};

// The fuel and the room of each goal.
const FUEL: u32 = 1000;

const ROOM: u32 = 20000;

// The goal from its equation with `T`.
#[tactic(auto, using(crate::proofs::Proved::proves, crate::proofs::Proved::truth_equation))]
fn goal_from(
    alloc: Global,
    defs: &Defs,
    guards: &[Term],
    goal: &Term,
    th: &Thm,
) -> Result<Thm, AllocError>
    requires { Equates defs.now guards.now goal.now true_constant th.now }
    ensures { IfOk result (Proves defs.now guards.now goal.now) }
{
    th.concl();
    eqt_elim_known(alloc, defs, th, goal)
}

// The theorem of the goal, where it becomes `T`.
#[tactic(auto, using(crate::proofs::Proved::truth_reached, crate::proofs::Proved::goal_settled, crate::proofs::Proved::goal_unsettled))]
fn proved(
    alloc: Global,
    defs: &Defs,
    theorems: &[(Name, Thm)],
    rules: &RuleSet,
    guards: &[Term],
    goal: &Term,
) -> Result<Option<Thm>, AllocError>
    requires { AreNamedWithin defs.now theorems.now }
    ensures { IfOk result (λ o. MatchOption o (IsSettledTrue (asked_of rules.now guards.now goal.now) → ⊥)
        (λ th. IsSettledTrue (asked_of rules.now guards.now goal.now) × Proves defs.now guards.now goal.now th)) }
{
    let (simped, th) = prove_simp(alloc, defs, theorems, rules, guards, FUEL, ROOM, goal)?;
    if is_truth(alloc, &simped.term)? {
        Ok(Some(goal_from(alloc, defs, guards, goal, &th)?))
    } else {
        Ok(None)
    }
}

/// The verdict of the cell with the theorem of its goal, the strict one for Less and the weak one for Leq; none exactly
/// where the verdict is Unknown. The theorem rests on the cell's guards alone.
#[tactic(auto, using(fp_simp::proofs::Cells::less, fp_simp::proofs::Cells::leq, fp_simp::proofs::Cells::unknown))]
pub fn prove_cell(
    alloc: Global,
    defs: &Defs,
    theorems: &[(Name, Thm)],
    rules: &RuleSet,
    cell: &CellData,
) -> Result<Option<(Entry, Thm)>, AllocError>
    requires { AreNamedWithin defs.now theorems.now }
    ensures verdict { IfOk result (λ o. MatchOption o (IsVerdict rules.now cell.now Entry.Unknown)
        (λ p. IsVerdict rules.now cell.now p.0)) }
    ensures proves { IfOk result (λ o. MatchOption o (Unit {0}) (λ p. ProvesEntry defs.now cell.now p.0 p.1)) }
{
    let guards = cell.guards.as_slice();
    if let Some(th) = proved(alloc, defs, theorems, rules, guards, &cell.strict)? {
        return Ok(Some((Entry::Less, th)));
    }
    match proved(alloc, defs, theorems, rules, guards, &cell.weak)? {
        Some(th) => Ok(Some((Entry::Leq, th))),
        None => Ok(None),
    }
}
