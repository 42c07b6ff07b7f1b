//! The search: columns first, then mappings for the rows that are left.

ghost use Rattle.std.specs.Prelude.{◌≡◌, ◌<◌, ◌++◌, ℕ, map, length, slice_index, IfOk, OnOk};
ghost use Rattle.fp_order.specs.Grid.{IsGrid, cells_of};
ghost use Rattle.fp_level.specs.Ranks.{candidate, column_ranks, mappings_of};
ghost use Rattle.fp_level.specs.Result.{IsResult};

use crate::candidates::{column_candidates, mapping_candidates};
use crate::greedy::best_among;
use crate::rank::{Found, Rank};
use crate::sheet::{Sheet, sheet_of};
use fp_order::{Entry, Grid, Items};
use std::alloc::{AllocError, Global};

/// Adds copies of the chosen ones of these ranks.
fn add_chosen(
    alloc: Global,
    chosen: &mut Items<Rank>,
    ranks: &[Rank],
    order: &[usize],
) -> Result<(), AllocError>
    requires { (i : ℕ) → i < length order.now → slice_index order.now i < length ranks.now }
    ensures { OnOk result (chosen.new ≡ chosen.old ++ map (candidate ranks.now) order.now) }
{
    for c in order {
        chosen.push(ranks[*c].copy(alloc)?)?;
    }
    Ok(())
}

/// The search of a sheet among these columns and mappings.
fn search_among(
    alloc: Global,
    s: &Sheet,
    columns: &[Rank],
    mappings: &[Rank],
) -> Result<Found, AllocError>
    requires columns { columns.now ≡ column_ranks s.now.grid.functions }
    requires mappings { mappings.now ≡ mappings_of s.now.grid.functions }
    ensures { IfOk result (λ found. IsResult s.now.grid s.now.entries.items found) }
{
    let mut decided = vec![in alloc; None; s.grid.row_count() as usize]?;
    let first = best_among(alloc, s, columns, &mut decided, 0)?;
    let Ok(base) = u32::try_from(first.len()) else {
        return Err(AllocError);
    };
    let second = best_among(alloc, s, mappings, &mut decided, base)?;
    let mut ranks = Items::new(alloc);
    add_chosen(alloc, &mut ranks, columns, first.as_slice())?;
    add_chosen(alloc, &mut ranks, mappings, second.as_slice())?;
    Ok(Found {
        ranks,
        decided: Items::from_vec(decided),
    })
}

/// The best order of columns, and then the best order of mappings on the rows that it leaves, with the position
/// of the rank that decides each row. It is a success where each row has one.
pub fn search(alloc: Global, g: &Grid, entries: &[Entry]) -> Result<Found, AllocError>
    requires grid { IsGrid g.now }
    requires entries { length entries.now ≡ length (cells_of g.now) }
    ensures { IfOk result (λ found. IsResult g.now entries.now found) }
{
    let s = sheet_of(alloc, g, entries)?;
    let columns = column_candidates(alloc, g.functions.as_slice())?;
    let mappings = mapping_candidates(alloc, g.functions.as_slice())?;
    search_among(alloc, &s, columns.as_slice(), mappings.as_slice())
}
