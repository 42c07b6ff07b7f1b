//! The cells of a grid in their order, and the number of each.

ghost use Rattle.std.specs.Prelude.{◌≡◌, ◌∷◌, ◌+◌, ◌*◌, ◌<◌, ◌≤◌, [], ℕ, vec_len, length, IfOk, OnOk};
ghost use Rattle.std.specs.List.{flat_map};
ghost use Rattle.fp_order.specs.Grid.{columns_of, cell_on, sources, targets, column_cells, row_cells, cells_of, source_cells, below, IsGrid, IsCell, IsColumn};
ghost use Rattle.fp_order.specs.Numbers.{number_of, start, place_of, IsStarts, IsNumbered, IsTable, Gains};

use crate::choices::columns;
use crate::{Cell, Grid, Items};
use std::alloc::{AllocError, Global};

/// The cells of a grid in their order, from which each one's number is found without a search.
#[derive(Drop)]
pub struct CellTable {
    cells: Vec<Cell>,
    /// Where each row begins when all cells stand by row, source and target, and the end.
    starts: Vec<u32>,
    /// The number of each cell, in that other order.
    numbers: Vec<Option<u32>>,
}

/// Cells in their order so far, with the number of each at its place by row, source and target.
#[derive(Drop)]
struct Numbered {
    cells: Vec<Cell>,
    numbers: Vec<Option<u32>>,
}

impl Grid {
    /// How many measures a row's caller has.
    pub fn sources(&self, row: u32) -> u32
        requires grid { IsGrid self.now }
        requires row { row < length self.now.rows }
        ensures { result ≡ sources self.now row }
    {
        self.functions.as_slice()[self.rows.as_slice()[row as usize].0 as usize]
    }

    /// How many measures a row's callee has.
    pub fn targets(&self, row: u32) -> u32
        requires grid { IsGrid self.now }
        requires row { row < length self.now.rows }
        ensures { result ≡ targets self.now row }
    {
        self.functions.as_slice()[self.rows.as_slice()[row as usize].1 as usize]
    }

    /// The cell of a column on a row.
    pub fn cell_on(&self, column: &[u32], row: u32) -> Cell
        requires grid { IsGrid self.now }
        requires column { IsColumn self.now.functions column.now }
        requires row { row < length self.now.rows }
        ensures value { result ≡ cell_on self.now column.now row }
        ensures cell { IsCell self.now result }
    {
        let (caller, callee) = self.rows.as_slice()[row as usize];
        Cell {
            row,
            source: column[caller as usize],
            target: column[callee as usize],
        }
    }

    /// How many rows the grid has.
    pub fn row_count(&self) -> u32
        requires { IsGrid self.now }
        ensures { result ≡ length self.now.rows }
    {
        self.rows.as_slice().len() as u32
    }
}

/// Where the cells of a row end.
fn end_of(start: u32, sources: u32, targets: u32) -> Result<u32, AllocError>
    ensures { IfOk result (λ end. end ≡ start + sources * targets) }
{
    let Some(size) = sources.checked_mul(targets) else {
        return Err(AllocError);
    };
    let Some(end) = start.checked_add(size) else {
        return Err(AllocError);
    };
    Ok(end)
}

/// Where the cells of each row begin, and where the last end.
fn starts(alloc: Global, g: &Grid) -> Result<Vec<u32>, AllocError>
    requires { IsGrid g.now }
    ensures { IfOk result (λ starts. IsStarts g.now starts.items) }
{
    let mut starts = Vec::new(alloc);
    let mut end = 0;
    starts.push(end)?;
    for row in 0..g.row_count() {
        end = end_of(end, g.sources(row), g.targets(row))?;
        starts.push(end)?;
    }
    Ok(starts)
}

/// Where a cell stands when all stand by row, source and target.
fn place(starts: &[u32], g: &Grid, cell: Cell) -> usize
    requires grid { IsGrid g.now }
    requires starts { IsStarts g.now starts.now }
    requires cell { IsCell g.now cell }
    ensures value { result ≡ place_of g.now cell }
    ensures inside { result < start g.now (length g.now.rows) }
{
    let inside = cell.source as usize * g.targets(cell.row) as usize + cell.target as usize;
    starts[cell.row as usize] as usize + inside
}

/// Adds a cell where it has no number yet.
fn add(g: &Grid, starts: &[u32], numbered: &mut Numbered, cell: Cell) -> Result<(), AllocError>
    requires grid { IsGrid g.now }
    requires starts { IsStarts g.now starts.now }
    requires numbered { IsNumbered g.now numbered.old }
    requires cell { IsCell g.now cell }
    ensures { OnOk result (Gains g.now numbered.old numbered.new (cell ∷ [])) }
{
    let place = place(starts, g, cell);
    if numbered.numbers[place].is_none() {
        let Ok(number) = u32::try_from(numbered.cells.len()) else {
            return Err(AllocError);
        };
        numbered.cells.push(cell)?;
        numbered.numbers[place] = Some(number);
    }
    Ok(())
}

/// Adds the cells of a column, row by row.
fn add_column(
    g: &Grid,
    starts: &[u32],
    numbered: &mut Numbered,
    column: &[u32],
) -> Result<(), AllocError>
    requires grid { IsGrid g.now }
    requires starts { IsStarts g.now starts.now }
    requires numbered { IsNumbered g.now numbered.old }
    requires column { IsColumn g.now.functions column.now }
    ensures { OnOk result (Gains g.now numbered.old numbered.new (column_cells g.now column.now)) }
{
    for row in 0..g.row_count() {
        add(g, starts, numbered, g.cell_on(column, row))?;
    }
    Ok(())
}

/// Adds the cells of a row and a source, by target.
fn add_source(
    g: &Grid,
    starts: &[u32],
    numbered: &mut Numbered,
    row: u32,
    source: u32,
) -> Result<(), AllocError>
    requires grid { IsGrid g.now }
    requires starts { IsStarts g.now starts.now }
    requires numbered { IsNumbered g.now numbered.old }
    requires row { row < length g.now.rows }
    requires source { source < sources g.now row }
    ensures { OnOk result (Gains g.now numbered.old numbered.new (source_cells g.now row source)) }
{
    for target in 0..g.targets(row) {
        let cell = Cell {
            row,
            source,
            target,
        };
        add(g, starts, numbered, cell)?;
    }
    Ok(())
}

/// Adds the cells of a row, by source and then target.
fn add_row(g: &Grid, starts: &[u32], numbered: &mut Numbered, row: u32) -> Result<(), AllocError>
    requires grid { IsGrid g.now }
    requires starts { IsStarts g.now starts.now }
    requires numbered { IsNumbered g.now numbered.old }
    requires row { row < length g.now.rows }
    ensures { OnOk result (Gains g.now numbered.old numbered.new (row_cells g.now row)) }
{
    for source in 0..g.sources(row) {
        add_source(g, starts, numbered, row, source)?;
    }
    Ok(())
}

/// Adds the cells of the columns, column by column.
fn add_columns(
    g: &Grid,
    starts: &[u32],
    numbered: &mut Numbered,
    columns: &[Items<u32>],
) -> Result<(), AllocError>
    requires grid { IsGrid g.now }
    requires starts { IsStarts g.now starts.now }
    requires numbered { IsNumbered g.now numbered.old }
    requires columns { columns.now ≡ columns_of g.now.functions }
    ensures { OnOk result (Gains g.now numbered.old numbered.new (flat_map (column_cells g.now) columns.now)) }
{
    for column in columns {
        add_column(g, starts, numbered, column.as_slice())?;
    }
    Ok(())
}

/// Adds the cells of all rows.
fn add_rows(g: &Grid, starts: &[u32], numbered: &mut Numbered) -> Result<(), AllocError>
    requires grid { IsGrid g.now }
    requires starts { IsStarts g.now starts.now }
    requires numbered { IsNumbered g.now numbered.old }
    ensures { OnOk result (Gains g.now numbered.old numbered.new (flat_map (row_cells g.now) (below (length g.now.rows)))) }
{
    for row in 0..g.row_count() {
        add_row(g, starts, numbered, row)?;
    }
    Ok(())
}

/// The numbers so far where there are none.
fn no_numbers(alloc: Global, g: &Grid, starts: &[u32]) -> Result<Numbered, AllocError>
    requires grid { IsGrid g.now }
    requires starts { IsStarts g.now starts.now }
    ensures cells { IfOk result (λ n. n.cells.items ≡ []) }
    ensures numbered { IfOk result (λ n. IsNumbered g.now n) }
{
    let numbers = vec![in alloc; None; starts[g.row_count() as usize] as usize]?;
    Ok(Numbered {
        cells: Vec::new(alloc),
        numbers,
    })
}

/// The cells of a grid in their order: first those of the columns, column by column, then all others, row by row.
pub fn cell_table(alloc: Global, g: &Grid) -> Result<CellTable, AllocError>
    requires { IsGrid g.now }
    ensures { IfOk result (λ table. IsTable g.now table) }
{
    let starts = starts(alloc, g)?;
    let columns = columns(alloc, g.functions.as_slice())?;
    let mut numbered = no_numbers(alloc, g, starts.as_slice())?;
    add_columns(g, starts.as_slice(), &mut numbered, columns.as_slice())?;
    add_rows(g, starts.as_slice(), &mut numbered)?;
    Ok(CellTable {
        cells: numbered.cells,
        starts,
        numbers: numbered.numbers,
    })
}

impl CellTable {
    /// The cells in their order.
    pub fn cells(&self, g: &Grid) -> &[Cell]
        requires { IsTable g.now self.now }
        ensures { result.now ≡ cells_of g.now }
    {
        self.cells.as_slice()
    }

    /// The number of a cell.
    pub fn number(&self, g: &Grid, cell: Cell) -> u32
        requires grid { IsGrid g.now }
        requires table { IsTable g.now self.now }
        requires cell { IsCell g.now cell }
        ensures value { result ≡ number_of g.now cell }
        ensures inside { result < length (cells_of g.now) }
    {
        match self.numbers[place(self.starts.as_slice(), g, cell)] {
            Some(number) => number,
            None => 0,
        }
    }
}

/// The cells of a grid in their order: first those of the columns, column by column, then all others, row by row.
pub fn cells(alloc: Global, g: &Grid) -> Result<Items<Cell>, AllocError>
    requires { IsGrid g.now }
    ensures { IfOk result (λ cells. cells ≡ cells_of g.now) }
{
    let CellTable {
        cells,
        starts: _,
        numbers: _,
    } = cell_table(alloc, g)?;
    Ok(Items::from_vec(cells))
}
