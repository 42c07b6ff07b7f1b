//! The goals of a cell, and its verdict.
ghost use Rattle.std.specs.Prelude.{◌≡◌, IfOk, MatchBool};
ghost use Rattle.fp_order.specs.declared.entry.Entry.{Entry};
ghost use Rattle.fp_simp.specs.Verdicts.{asked_of, IsSettledTrue, IsVerdict};

use crate::task::simp;
use fp_order::Entry;
use fp_rewriting::{RuleSet, is_truth};
use fp_term::{Items, Term, copy_all};
use std::alloc::{AllocError, Global};

// The fuel and the room of each goal.
const FUEL: u32 = 1000;

const ROOM: u32 = 20000;

/// The goals of a cell: that a measure falls strictly, and that it falls weakly, under the guards of the call.
#[derive(Drop)]
pub struct CellData {
    /// What holds at the call.
    pub guards: Items<Term>,
    /// The callee's measure is less than the caller's.
    pub strict: Term,
    /// It is at most as large.
    pub weak: Term,
}

impl CellData {
    /// Equal goals.
    pub fn copy(&self, alloc: Global) -> Result<CellData, AllocError>
        ensures { IfOk result (λ c. c ≡ self.now) }
    {
        Ok(CellData {
            guards: copy_all(alloc, self.guards.as_slice())?,
            strict: self.strict.copy()?,
            weak: self.weak.copy()?,
        })
    }
}

// Does the goal become `T`?
#[tactic(auto, using(crate::proofs::Cells::settled_true, crate::proofs::Cells::not_settled_true))]
fn is_settled_true(
    alloc: Global,
    rules: &RuleSet,
    guards: &[Term],
    goal: &Term,
) -> Result<bool, AllocError>
    ensures { IfOk result (λ yes. MatchBool yes
        (IsSettledTrue (asked_of rules.now guards.now goal.now))
        (IsSettledTrue (asked_of rules.now guards.now goal.now) → ⊥)) }
{
    let simped = simp(alloc, rules, guards, FUEL, ROOM, goal)?;
    is_truth(alloc, &simped.term)
}

/// Less where the strict goal becomes `T` by the rules and the guards, else Leq where the weak one does, else Unknown.
/// Each goal has fuel 1,000 and room 20,000.
#[tactic(auto, using(crate::proofs::Cells::less, crate::proofs::Cells::leq, crate::proofs::Cells::unknown))]
pub fn verdict(alloc: Global, rules: &RuleSet, cell: &CellData) -> Result<Entry, AllocError>
    ensures { IfOk result (λ entry. IsVerdict rules.now cell.now entry) }
{
    let guards = cell.guards.as_slice();
    if is_settled_true(alloc, rules, guards, &cell.strict)? {
        Ok(Entry::Less)
    } else if is_settled_true(alloc, rules, guards, &cell.weak)? {
        Ok(Entry::Leq)
    } else {
        Ok(Entry::Unknown)
    }
}
