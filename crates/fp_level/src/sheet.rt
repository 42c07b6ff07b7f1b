//! A grid with the entries of its cells.

ghost use Rattle.std.specs.Prelude.{◌≡◌, length, IfOk};
ghost use Rattle.fp_order.specs.Grid.{IsGrid, cells_of};
ghost use Rattle.fp_order.specs.Numbers.{IsTable};

use fp_order::{CellTable, Entry, Grid, cell_table};
use std::alloc::{AllocError, Global};

/// A grid with the numbers and entries of its cells.
#[derive(Drop)]
pub struct Sheet {
    pub grid: Grid,
    pub table: CellTable,
    pub entries: Vec<Entry>,
    pub ghost right: { IsGrid grid },
    pub ghost numbered: { IsTable grid table },
    pub ghost full: { length entries.items ≡ length (cells_of grid) },
}

/// The sheet of these entries.
pub fn sheet_of(alloc: Global, g: &Grid, entries: &[Entry]) -> Result<Sheet, AllocError>
    requires grid { IsGrid g.now }
    requires entries { length entries.now ≡ length (cells_of g.now) }
    ensures grid { IfOk result (λ s. s.grid ≡ g.now) }
    ensures entries { IfOk result (λ s. s.entries.items ≡ entries.now) }
{
    let grid = g.copy(alloc)?;
    let table = cell_table(alloc, &grid)?;
    let entries = Vec::from_slice(alloc, entries)?;
    Ok(Sheet {
        grid,
        table,
        entries,
    })
}
