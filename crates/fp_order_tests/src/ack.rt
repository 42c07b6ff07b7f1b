//! The matrix of Ackermann's function.

ghost use Rattle.std.specs.Prelude.{◌≡◌, length, vec_len, IfOk};
ghost use Rattle.fp_order_tests.specs.Ack.{ack_grid};

use fp_level::{Found, search};
use fp_order::{Entry, Grid, Items};
use fp_shown::Machine;
use std::alloc::{AllocError, Global};

fn grid(alloc: Global) -> Result<Grid, AllocError>
    ensures { IfOk result (λ g. g ≡ ack_grid) }
{
    let mut functions = Items::new(alloc);
    functions.push(2)?;
    let mut rows = Items::new(alloc);
    rows.push((0, 0))?;
    rows.push((0, 0))?;
    rows.push((0, 0))?;
    Ok(Grid { functions, rows })
}

/// The entries of its twelve cells: those of the first column, and that of the second on the second row.
fn entries(alloc: Global) -> Result<Vec<Entry>, AllocError>
    ensures { IfOk result (λ entries. vec_len entries ≡ 12) }
{
    let mut entries = vec![in alloc; Entry::Unknown; 12]?;
    entries[0] = Entry::Less;
    entries[1] = Entry::Leq;
    entries[2] = Entry::Less;
    entries[4] = Entry::Less;
    Ok(entries)
}

/// A machine of its grid and matrix, all cells free.
pub fn machine(alloc: Global) -> Result<Machine, AllocError> {
    let g = grid(alloc)?;
    let verdicts = entries(alloc)?;
    Machine::new(alloc, &g, verdicts)
}

/// What the search finds on its matrix.
pub fn found_ack(alloc: Global) -> Result<Found, AllocError> {
    let g = grid(alloc)?;
    let entries = entries(alloc)?;
    search(alloc, &g, entries.as_slice())
}
