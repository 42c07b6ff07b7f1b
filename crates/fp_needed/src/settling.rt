//! Cells settled one after another, as far as they are needed.

ghost use Rattle.std.specs.Prelude.{◌≡◌, ◌<◌, ◌^◌, vec_len, length, IfOk, MatchOption};
ghost use Rattle.fp_order.specs.Grid.{cells_of, IsGrid};
ghost use Rattle.fp_shown.specs.Front.{IsFront};
ghost use Rattle.fp_shown.specs.Need.{IsNextNeeded};
ghost use Rattle.fp_needed.specs.Needed.{AllKnownOrShown, IsNeeded};

use fp_order::{Entry, Grid};
use fp_rewriting::RuleSet;
use fp_shown::{ColumnCells, Front, Partial, column_cells, force};
use fp_simp::{CellData, verdict};
use std::alloc::{AllocError, Global};

/// The first cell that is neither known nor on a row that the front decides.
fn first_hidden(s: &ColumnCells, front: &Front, known: &[Option<Entry>]) -> Option<u32>
    requires front { IsFront s.now.grid known.now front.now }
    requires rows { vec_len front.now.decided ≡ s.now.rows }
    requires cells { length known.now ≡ length (cells_of s.now.grid) }
    requires few { length known.now < 2 ^ 32 }
    ensures { MatchOption result (AllKnownOrShown s.now.grid known.now) (λ k. IsNextNeeded s.now.grid known.now k) }
{
    for cell in 0..known.len() as u32 {
        if known[cell as usize].is_none() && !front.shows(s, cell) {
            return Some(cell);
        }
    }
    None
}

/// The first cell that is neither known nor shown.
fn next_needed(
    alloc: Global,
    s: &ColumnCells,
    known: &[Option<Entry>],
) -> Result<Option<u32>, AllocError>
    requires cells { length known.now ≡ length (cells_of s.now.grid) }
    requires few { length known.now < 2 ^ 32 }
    ensures { IfOk result (λ next. MatchOption next (AllKnownOrShown s.now.grid known.now) (λ k. IsNextNeeded s.now.grid known.now k)) }
{
    let front = force(alloc, s, known)?;
    Ok(first_hidden(s, &front, known))
}

/// The verdicts of the cells that are needed: again and again the first cell that is neither known nor shown by the
/// known ones is settled.
pub fn needed(
    alloc: Global,
    g: &Grid,
    cells: &[CellData],
    rules: &RuleSet,
) -> Result<Partial, AllocError>
    requires grid { IsGrid g.now }
    requires cells { length cells.now ≡ length (cells_of g.now) }
    requires few { length cells.now < 2 ^ 32 }
    ensures { IfOk result (λ p. IsNeeded g.now rules.now cells.now p.known.items) }
{
    let s = column_cells(alloc, g)?;
    let mut known = vec![in alloc; None; cells.len()]?;
    while let Some(cell) = next_needed(alloc, &s, known.as_slice())? {
        known[cell as usize] = Some(verdict(alloc, rules, &cells[cell as usize])?);
    }
    Ok(Partial { known })
}
