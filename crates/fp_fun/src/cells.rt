//! The cells that an order uses.
ghost use Rattle.std.specs.Prelude.{◌≡◌, OnOk, IfOk};
ghost use Rattle.fp_retrace.specs.Standing.{AreNamedWithin};

use crate::plan::Plan;
use fp_cells::goals_of;
use fp_declared::{rewrite_rules, rule_theorems};
use fp_descend::cell_line;
use fp_group::Group;
use fp_kernel::Thm;
use fp_level::Rank;
use fp_order::Cell;
use fp_proof::{Line, Proof, Stop};
use fp_retrace::prove_cell;
use fp_rewriting::RuleSet;
use fp_simp::CellData;
use fp_term::{Items, Name};
use std::alloc::Global;

// Is the measure in the set?
fn is_in(sets: &[u32], function: u32, measure: u32) -> bool {
    match sets.get(function as usize) {
        Some(set) => measure < 32 && *set >> measure & 1 == 1,
        None => false,
    }
}

fn is_chosen(column: &[u32], function: u32, measure: u32) -> bool {
    match column.get(function as usize) {
        Some(chosen) => *chosen == measure,
        None => false,
    }
}

// Is the cell one of those by which the rank compares the row's call?
fn is_compared(rank: &Rank, caller: u32, callee: u32, cell: Cell) -> bool {
    match rank {
        Rank::Column(column) => {
            is_chosen(column.as_slice(), caller, cell.source)
                && is_chosen(column.as_slice(), callee, cell.target)
        }
        Rank::Max(sets) => {
            is_in(sets.as_slice(), caller, cell.source)
                && is_in(sets.as_slice(), callee, cell.target)
        }
        Rank::Min(sets) => {
            is_in(sets.as_slice(), caller, cell.source)
                && is_in(sets.as_slice(), callee, cell.target)
        }
    }
}

// The position of the rank that decides the row.
fn decided(plan: &Plan, row: u32) -> Option<u32> {
    match plan.found.decided.as_slice().get(row as usize) {
        Some(position) => *position,
        None => None,
    }
}

// Is the cell compared by a rank up to the one that decides its row?
fn is_used(plan: &Plan, cell: Cell) -> bool {
    let Some(position) = decided(plan, cell.row) else {
        return false;
    };
    let Some((caller, callee)) = plan.grid.rows.as_slice().get(cell.row as usize) else {
        return false;
    };
    let mut left = position as u64 + 1;
    for rank in plan.found.ranks.as_slice() {
        if left == 0 {
            return false;
        }
        if is_compared(rank, *caller, *callee, cell) {
            return true;
        }
        left -= 1;
    }
    false
}

// Puts the line of the cell's theorem at the end, where its verdict isn't Unknown.
fn add_cell(
    proof: &mut Proof<'_>,
    theorems: &[(Name, Thm)],
    rules: &RuleSet,
    data: &CellData,
    lines: &mut Items<Line>,
) -> Result<(), Stop>
    requires { AreNamedWithin proof.old theorems.now }
    ensures { OnOk result (proof.new ≡ proof.old) }
{
    let theory = proof.theory();
    match prove_cell(proof.alloc(), theory.defs(), theorems, rules, data)? {
        Some((_, theorem)) => {
            lines.push(cell_line(proof, &theorem, data.guards.as_slice())?)?;
            Ok(())
        }
        None => Ok(()),
    }
}

fn add_cell_of(
    proof: &mut Proof<'_>,
    theorems: &[(Name, Thm)],
    rules: &RuleSet,
    group: &Group,
    plan: &Plan,
    cell: Cell,
    lines: &mut Items<Line>,
) -> Result<(), Stop>
    requires { AreNamedWithin proof.old theorems.now }
    ensures { OnOk result (proof.new ≡ proof.old) }
{
    match goals_of(proof.alloc(), group, plan.measures.as_slice(), cell)? {
        Some(data) => add_cell(proof, theorems, rules, &data, lines),
        None => Err(Stop::Stuck),
    }
}

/// The lines of the cells that the order uses.
pub(crate) fn cell_lines(
    alloc: Global,
    proof: &mut Proof<'_>,
    group: &Group,
    plan: &Plan,
) -> Result<Items<Line>, Stop>
    ensures { OnOk result (proof.new ≡ proof.old) }
{
    let theory = proof.theory();
    let rules = rewrite_rules(alloc, theory)?;
    let theorems = rule_theorems(alloc, theory)?;
    let mut lines = Items::new(alloc);
    for cell in plan.cells.as_slice() {
        if is_used(plan, *cell) {
            add_cell_of(
                proof,
                theorems.as_slice(),
                &rules,
                group,
                plan,
                *cell,
                &mut lines,
            )?;
        }
    }
    Ok(lines)
}
