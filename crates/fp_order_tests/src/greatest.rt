//! A grid whose rows only the greatest value of a set of measures decides: a function with one measure and one with
//! two, a call of the second by the first, and two calls back, one for each measure of the second.

ghost use Rattle.std.specs.Prelude.{◌≡◌, vec_len, IfOk};
ghost use Rattle.fp_order_tests.specs.Greatest.{greatest_grid};

use fp_level::{Found, search};
use fp_order::{Entry, Grid, Items};
use std::alloc::{AllocError, Global};

fn grid(alloc: Global) -> Result<Grid, AllocError>
    ensures { IfOk result (λ g. g ≡ greatest_grid) }
{
    let mut functions = Items::new(alloc);
    functions.push(1)?;
    functions.push(2)?;
    let mut rows = Items::new(alloc);
    rows.push((0, 1))?;
    rows.push((1, 0))?;
    rows.push((1, 0))?;
    Ok(Grid { functions, rows })
}

/// The entries of its six cells: both measures of the second function fall in the call, and one in each call back.
fn entries(alloc: Global) -> Result<Vec<Entry>, AllocError>
    ensures { IfOk result (λ entries. vec_len entries ≡ 6) }
{
    let mut entries = vec![in alloc; Entry::Less; 6]?;
    entries[2] = Entry::Unknown;
    entries[4] = Entry::Unknown;
    Ok(entries)
}

/// What the search finds there.
pub fn found_greatest(alloc: Global) -> Result<Found, AllocError> {
    let g = grid(alloc)?;
    let entries = entries(alloc)?;
    search(alloc, &g, entries.as_slice())
}
