//! Entries of columns and mappings.

ghost use Rattle.std.specs.Prelude.{◌≡◌, ◌<◌, ◌&&◌, ◌||◌, not, length, IfOk};
ghost use Rattle.fp_order.specs.Grid.{sources, targets, caller, callee, cells_of, IsGrid, IsCell};
ghost use Rattle.fp_level.specs.Ranks.{has, is_good, meets, all_meet, cell_of, over_count, under_count, over_set, under_set, mapping_entry, rank_entry, entry_at, IsRank, IsSets};

use crate::rank::{Extremum, Rank};
use crate::sheet::{Sheet, sheet_of};
use fp_order::{Cell, Entry, Grid, Items};
use std::alloc::{AllocError, Global};

/// Whether the measure is in the set.
fn has(set: u32, measure: u32) -> bool
    ensures { result ≡ has set measure }
{
    if measure < 32 {
        set >> measure & 1 == 1
    } else {
        false
    }
}

/// Less, or also Leq where it is allowed.
fn is_good(leq: bool, entry: Entry) -> bool
    ensures { result ≡ is_good leq entry }
{
    match entry {
        Entry::Less => true,
        Entry::Leq => leq,
        Entry::Unknown => false,
    }
}

impl Sheet {
    /// The entry of a cell.
    fn entry(&self, cell: Cell) -> Entry
        requires { IsCell self.now.grid cell }
        ensures { result ≡ entry_at self.now.grid self.now.entries.items cell }
    {
        self.entries[self.table.number(&self.grid, cell) as usize]
    }
}

impl Extremum {
    /// The cell of a measure that has to be met and a measure that may meet it.
    fn cell(self, row: u32, over: u32, under: u32) -> Cell
        ensures { result ≡ cell_of self row over under }
    {
        match self {
            Extremum::Greatest => Cell {
                row,
                source: under,
                target: over,
            },
            Extremum::Least => Cell {
                row,
                source: over,
                target: under,
            },
        }
    }

    /// How many measures may have to be met.
    fn over_count(self, g: &Grid, row: u32) -> u32
        requires grid { IsGrid g.now }
        requires row { row < length g.now.rows }
        ensures { result ≡ over_count self g.now row }
    {
        match self {
            Extremum::Greatest => g.targets(row),
            Extremum::Least => g.sources(row),
        }
    }

    /// How many measures may meet one.
    fn under_count(self, g: &Grid, row: u32) -> u32
        requires grid { IsGrid g.now }
        requires row { row < length g.now.rows }
        ensures { result ≡ under_count self g.now row }
    {
        match self {
            Extremum::Greatest => g.sources(row),
            Extremum::Least => g.targets(row),
        }
    }

    /// The set of the measures that have to be met.
    fn over_set(self, g: &Grid, sets: &[u32], row: u32) -> u32
        requires grid { IsGrid g.now }
        requires row { row < length g.now.rows }
        requires sets { IsSets g.now.functions sets.now }
        ensures { result ≡ over_set self g.now sets.now row }
    {
        let (caller, callee) = g.rows.as_slice()[row as usize];
        match self {
            Extremum::Greatest => sets[callee as usize],
            Extremum::Least => sets[caller as usize],
        }
    }

    /// The set of the measures that may meet one.
    fn under_set(self, g: &Grid, sets: &[u32], row: u32) -> u32
        requires grid { IsGrid g.now }
        requires row { row < length g.now.rows }
        requires sets { IsSets g.now.functions sets.now }
        ensures { result ≡ under_set self g.now sets.now row }
    {
        let (caller, callee) = g.rows.as_slice()[row as usize];
        match self {
            Extremum::Greatest => sets[caller as usize],
            Extremum::Least => sets[callee as usize],
        }
    }
}

/// Whether some measure of the set has a good cell with `over`.
fn meets(s: &Sheet, extremum: Extremum, leq: bool, row: u32, set: u32, over: u32) -> bool
    requires row { row < length s.now.grid.rows }
    requires over { over < over_count extremum s.now.grid row }
    ensures { result ≡ meets extremum s.now.grid s.now.entries.items leq row set over }
{
    let mut met = false;
    for under in 0..extremum.under_count(&s.grid, row) {
        let good = has(set, under) && is_good(leq, s.entry(extremum.cell(row, over, under)));
        met = good || met;
    }
    met
}

/// Whether each measure of the one set has a good cell with some measure of the other.
fn all_meet(s: &Sheet, extremum: Extremum, leq: bool, row: u32, sets: &[u32]) -> bool
    requires row { row < length s.now.grid.rows }
    requires sets { IsSets s.now.grid.functions sets.now }
    ensures { result ≡ all_meet extremum s.now.grid s.now.entries.items leq row sets.now }
{
    let set = extremum.over_set(&s.grid, sets, row);
    let other = extremum.under_set(&s.grid, sets, row);
    let mut all = true;
    for over in 0..extremum.over_count(&s.grid, row) {
        let met = !has(set, over) || meets(s, extremum, leq, row, other, over);
        all = met && all;
    }
    all
}

/// The entry of a mapping on a row.
fn mapping_entry(s: &Sheet, extremum: Extremum, sets: &[u32], row: u32) -> Entry
    requires row { row < length s.now.grid.rows }
    requires sets { IsSets s.now.grid.functions sets.now }
    ensures { result ≡ mapping_entry extremum s.now.grid s.now.entries.items sets.now row }
{
    if all_meet(s, extremum, false, row, sets) {
        Entry::Less
    } else if all_meet(s, extremum, true, row, sets) {
        Entry::Leq
    } else {
        Entry::Unknown
    }
}

/// The entry of a rank on a row.
pub fn rank_entry(s: &Sheet, rank: &Rank, row: u32) -> Entry
    requires row { row < length s.now.grid.rows }
    requires rank { IsRank s.now.grid.functions rank.now }
    ensures { result ≡ rank_entry s.now.grid s.now.entries.items rank.now row }
{
    match rank {
        Rank::Column(measures) => s.entry(s.grid.cell_on(measures.as_slice(), row)),
        Rank::Max(sets) => mapping_entry(s, Extremum::Greatest, sets.as_slice(), row),
        Rank::Min(sets) => mapping_entry(s, Extremum::Least, sets.as_slice(), row),
    }
}

/// The entry of a column or a mapping on a row, by the entries of the grid's cells.
pub fn entry_of(
    alloc: Global,
    g: &Grid,
    entries: &[Entry],
    rank: &Rank,
    row: u32,
) -> Result<Entry, AllocError>
    requires grid { IsGrid g.now }
    requires entries { length entries.now ≡ length (cells_of g.now) }
    requires rank { IsRank g.now.functions rank.now }
    requires row { row < length g.now.rows }
    ensures { IfOk result (λ entry. entry ≡ rank_entry g.now entries.now rank.now row) }
{
    let s = sheet_of(alloc, g, entries)?;
    Ok(rank_entry(&s, rank, row))
}
