//! The board of Ackermann's function.

ghost use Rattle.std.specs.Prelude.{◌≡◌, vec_len, IfOk};
ghost use Rattle.fp_board_rule.specs.Rule.{first_view};
ghost use Rattle.fp_board.specs.Seats.{IsOf, view_of};
ghost use Rattle.fp_board_tests.specs.Ack.{ack_grid};

use fp_board::{Board, Seat};
use fp_conclude::{false_constant, true_constant};
use fp_order::{Entry, Grid, Items as Counts};
use fp_rewriting::RuleSet;
use fp_simp::CellData;
use fp_term::{Items, Term};
use std::alloc::{AllocError, Global};

fn grid(alloc: Global) -> Result<Grid, AllocError>
    ensures { IfOk result (λ g. g ≡ ack_grid) }
{
    let mut functions = Counts::new(alloc);
    functions.push(2)?;
    let mut rows = Counts::new(alloc);
    rows.push((0, 0))?;
    rows.push((0, 0))?;
    rows.push((0, 0))?;
    Ok(Grid { functions, rows })
}

fn truth(alloc: Global, holds: bool) -> Result<Term, AllocError> {
    if holds {
        true_constant(alloc)
    } else {
        false_constant(alloc)
    }
}

/// Goals with this verdict.
fn goals_with(alloc: Global, entry: Entry) -> Result<CellData, AllocError> {
    let strict = truth(alloc, entry == Entry::Less)?;
    let weak = truth(alloc, entry != Entry::Unknown)?;
    Ok(CellData {
        guards: Items::new(alloc),
        strict,
        weak,
    })
}

/// The entry of a cell: Less or Leq in the first column and in the second on the second row, else Unknown.
fn entry(cell: u32) -> Entry {
    match cell {
        0 => Entry::Less,
        1 => Entry::Leq,
        2 => Entry::Less,
        4 => Entry::Less,
        _ => Entry::Unknown,
    }
}

/// The goals of the twelve cells.
fn goals(alloc: Global) -> Result<Vec<CellData>, AllocError>
    ensures { IfOk result (λ goals. vec_len goals ≡ 12) }
{
    let mut goals = Vec::new(alloc);
    for cell in 0..12 {
        goals.push(goals_with(alloc, entry(cell))?)?;
    }
    Ok(goals)
}

/// The board, all its cells free, and its first seat.
pub fn new_board(alloc: Global) -> Result<(Board, Seat), AllocError>
    ensures of { IfOk result (λ made. IsOf made.0 made.1) }
    ensures first { IfOk result (λ made. view_of made.1 ≡ first_view made.0.plan) }
{
    let rules = RuleSet::new(alloc, Vec::new(alloc))?;
    let goals = goals(alloc)?;
    let grid = grid(alloc)?;
    Board::new(alloc, goals, grid, rules)
}
