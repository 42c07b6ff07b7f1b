//! The cells that columns have on rows.

ghost use Rattle.std.specs.Prelude.{◌≡◌, ◌++◌, ◌+◌, ◌*◌, ◌<◌, ℕ, List, map, length, slice_index, IfOk, OnOk};
ghost use Rattle.std.specs.List.{flat_map};
ghost use Rattle.fp_order.specs.Grid.{below, cell_on, cells_of, columns_of, IsGrid, IsColumn};
ghost use Rattle.fp_order.specs.Numbers.{number_of, IsTable};
ghost use Rattle.fp_shown.specs.Shown.{number_on, row_of};

use fp_order::{CellTable, Grid, Items, cell_table, columns};
use std::alloc::{AllocError, Global};

/// The number of the cell that each column has on each row of a grid.
#[derive(Drop)]
pub struct ColumnCells {
    pub grid: Grid,
    pub columns: u32,
    pub rows: u32,
    table: CellTable,
    /// Column by column.
    numbers: Vec<u32>,
    pub ghost right: { IsGrid grid },
    pub ghost tabled: { IsTable grid table },
    pub ghost count: { columns ≡ length (columns_of grid.functions) },
    pub ghost row_count: { rows ≡ length grid.rows },
    pub ghost full: { length numbers.items ≡ columns * rows },
    pub ghost told: { (c r : ℕ) → c < columns → r < rows → slice_index numbers.items (c * rows + r) ≡ number_on grid c r },
}

/// Adds the numbers of a column's cells, row by row.
fn add_numbers(
    numbers: &mut Vec<u32>,
    g: &Grid,
    table: &CellTable,
    column: &[u32],
) -> Result<(), AllocError>
    requires grid { IsGrid g.now }
    requires table { IsTable g.now table.now }
    requires column { IsColumn g.now.functions column.now }
    ensures { OnOk result (numbers.new.items ≡ numbers.old.items ++ map (λ r. number_of g.now (cell_on g.now column.now r)) (below (length g.now.rows))) }
{
    for row in 0..g.row_count() {
        numbers.push(table.number(g, g.cell_on(column, row)))?;
    }
    Ok(())
}

/// The numbers of all columns' cells, column by column.
fn all_numbers(
    alloc: Global,
    g: &Grid,
    table: &CellTable,
    columns: &[Items<u32>],
) -> Result<Vec<u32>, AllocError>
    requires grid { IsGrid g.now }
    requires table { IsTable g.now table.now }
    requires columns { columns.now ≡ columns_of g.now.functions }
    ensures { IfOk result (λ numbers. numbers.items ≡
        flat_map (λ column. map (λ r. number_of g.now (cell_on g.now column r)) (below (length g.now.rows))) columns.now) }
{
    let mut numbers = Vec::new(alloc);
    for column in columns {
        add_numbers(&mut numbers, g, table, column.as_slice())?;
    }
    Ok(numbers)
}

/// The table of these parts.
fn assembled(grid: Grid, table: CellTable, columns: u32, numbers: Vec<u32>) -> ColumnCells
    requires right { IsGrid grid }
    requires tabled { IsTable grid table }
    requires count { columns ≡ length (columns_of grid.functions) }
    requires numbers { numbers.items ≡
        flat_map (λ column. map (λ r. number_of grid (cell_on grid column r)) (below (length grid.rows))) (columns_of grid.functions) }
    ensures { result.grid ≡ grid }
{
    ColumnCells {
        columns,
        rows: grid.row_count(),
        grid,
        table,
        numbers,
    }
}

/// The cells that the columns of a grid have on its rows.
pub fn column_cells(alloc: Global, g: &Grid) -> Result<ColumnCells, AllocError>
    requires { IsGrid g.now }
    ensures { IfOk result (λ s. s.grid ≡ g.now) }
{
    let grid = g.copy(alloc)?;
    let table = cell_table(alloc, &grid)?;
    let all = columns(alloc, grid.functions.as_slice())?;
    let numbers = all_numbers(alloc, &grid, &table, all.as_slice())?;
    let Ok(count) = u32::try_from(all.as_slice().len()) else {
        return Err(AllocError);
    };
    Ok(assembled(grid, table, count, numbers))
}

impl ColumnCells {
    /// The number of the cell of a column on a row.
    pub fn number(&self, column: u32, row: u32) -> u32
        requires column { column < self.now.columns }
        requires row { row < self.now.rows }
        ensures value { result ≡ number_on self.now.grid column row }
        ensures cell { result < length (cells_of self.now.grid) }
    {
        self.numbers[column as usize * self.rows as usize + row as usize]
    }

    /// The row of a cell.
    pub fn row_of(&self, cell: u32) -> u32
        requires { cell < length (cells_of self.now.grid) }
        ensures value { result ≡ row_of self.now.grid cell }
        ensures inside { result < self.now.rows }
    {
        self.table.cells(&self.grid)[cell as usize].row
    }
}
