//! The search on what is known.

ghost use Rattle.std.specs.Prelude.{◌≡◌, map, length, IfOk};
ghost use Rattle.fp_order.specs.Grid.{cells_of, IsGrid};
ghost use Rattle.fp_needed.specs.Needed.{entry_or_unknown, FindsForEach};

use fp_level::{Found, search};
use fp_order::{Entry, Grid};
use fp_shown::Partial;
use std::alloc::{AllocError, Global};

fn or_unknown(entry: Option<Entry>) -> Entry
    ensures { result ≡ entry_or_unknown entry }
{
    match entry {
        Some(entry) => entry,
        None => Entry::Unknown,
    }
}

/// The entries of the cells, where a cell that isn't known counts as Unknown.
pub fn entries_with_unknown(alloc: Global, p: &Partial) -> Result<Vec<Entry>, AllocError>
    ensures { IfOk result (λ entries. entries.items ≡ map entry_or_unknown p.now.known.items) }
{
    let mut entries = Vec::new(alloc);
    for entry in p.known.as_slice() {
        entries.push(or_unknown(*entry))?;
    }
    Ok(entries)
}

#[tactic(auto, using(crate::proofs::Filled::finds_for_each))]
/// What the search finds where each cell that isn't known counts as Unknown. Where each is known or shown, it is what
/// the search finds on every full matrix that agrees with what is known.
pub fn search_known(alloc: Global, g: &Grid, p: &Partial) -> Result<Found, AllocError>
    requires grid { IsGrid g.now }
    requires cells { length p.now.known.items ≡ length (cells_of g.now) }
    ensures { IfOk result (λ found. FindsForEach g.now p.now.known.items found) }
{
    let entries = entries_with_unknown(alloc, p)?;
    let found = search(alloc, g, entries.as_slice())?;
    Ok(found)
}
