//! The search for forced columns.

ghost use Rattle.std.specs.Prelude.{◌≡◌, ◌<◌, ◌↔◌, List, Option, vec_len, length, IsTrue, IfOk, MatchOption};
ghost use Rattle.fp_order.specs.declared.entry.Entry.{Entry};
ghost use Rattle.fp_order.specs.Grid.{cells_of, columns_of, IsGrid};
ghost use Rattle.fp_order.specs.Greedy.{IsLeft};
ghost use Rattle.fp_shown.specs.Front.{IsFront};
ghost use Rattle.fp_shown.specs.Known.{known_at, IsSure, IsStuck, IsOfKind, IsMarked};
ghost use Rattle.fp_shown.specs.Shown.{number_on, AreForced, IsRowShown, IsShown};

use crate::Partial;
use crate::kind::Kind;
use crate::table::{ColumnCells, column_cells};
use fp_order::{Entry, Grid, Items};
use std::alloc::{AllocError, Global};

/// What is known of the cell of a column on a row.
fn known_entry(s: &ColumnCells, known: &[Option<Entry>], column: u32, row: u32) -> Option<Entry>
    requires column { column < s.now.columns }
    requires row { row < s.now.rows }
    requires cells { length known.now ≡ length (cells_of s.now.grid) }
    ensures { result ≡ known_at (number_on s.now.grid) known.now column row }
{
    known[s.number(column, row) as usize]
}

/// Whether each filling takes the column next, given that it takes none before it.
fn kind_of(s: &ColumnCells, known: &[Option<Entry>], decided: &[Option<u32>], column: u32) -> Kind
    requires column { column < s.now.columns }
    requires rows { length decided.now ≡ s.now.rows }
    requires cells { length known.now ≡ length (cells_of s.now.grid) }
    ensures { IsOfKind (known_at (number_on s.now.grid) known.now) (IsLeft decided.now) column result }
{
    let mut hole = false;
    let mut less = false;
    for row in 0..s.rows {
        if decided[row as usize].is_none() {
            match known_entry(s, known, column, row) {
                None => hole = true,
                Some(Entry::Unknown) => return Kind::Skipped,
                Some(Entry::Less) => less = true,
                Some(Entry::Leq) => {}
            }
        }
    }
    if hole {
        Kind::Open
    } else if less {
        Kind::Sure
    } else {
        Kind::Skipped
    }
}

/// The column that each filling takes next.
fn sure_column(s: &ColumnCells, known: &[Option<Entry>], decided: &[Option<u32>]) -> Option<u32>
    requires rows { length decided.now ≡ s.now.rows }
    requires cells { length known.now ≡ length (cells_of s.now.grid) }
    ensures { MatchOption result
        (IsStuck (known_at (number_on s.now.grid) known.now) s.now.columns (IsLeft decided.now))
        (λ c. IsSure (known_at (number_on s.now.grid) known.now) s.now.columns (IsLeft decided.now) c) }
{
    for column in 0..s.columns {
        match kind_of(s, known, decided, column) {
            Kind::Sure => return Some(column),
            Kind::Open => return None,
            Kind::Skipped => {}
        }
    }
    None
}

/// Gives the position to each row left on which the column is known as Less.
fn mark(
    s: &ColumnCells,
    known: &[Option<Entry>],
    decided: &mut Vec<Option<u32>>,
    column: u32,
    position: u32,
)
    requires column { column < s.now.columns }
    requires rows { vec_len decided.old ≡ s.now.rows }
    requires cells { length known.now ≡ length (cells_of s.now.grid) }
    ensures { IsMarked (known_at (number_on s.now.grid) known.now) column position decided.old.items decided.new.items }
{
    for row in 0..s.rows {
        if decided[row as usize].is_none()
            && matches!(known_entry(s, known, column, row), Some(Entry::Less))
        {
            decided[row as usize] = Some(position);
        }
    }
}

/// The forced columns, and the position of each row's deciding column among them.
#[derive(Drop)]
pub struct Front {
    pub columns: Vec<u32>,
    pub decided: Vec<Option<u32>>,
}

impl Front {
    /// Whether the row of the cell is decided by the forced columns in every filling.
    pub fn shows(&self, s: &ColumnCells, cell: u32) -> bool
        requires rows { vec_len self.now.decided ≡ s.now.rows }
        requires cell { cell < length (cells_of s.now.grid) }
        ensures { (known : List (Option Entry)) → IsFront s.now.grid known self.now → IsTrue result ↔ IsShown s.now.grid known cell }
    {
        self.decided[s.row_of(cell) as usize].is_some()
    }
}

/// The columns with which the column search of every filling begins, and the rows that they decide.
pub fn force(alloc: Global, s: &ColumnCells, known: &[Option<Entry>]) -> Result<Front, AllocError>
    requires { length known.now ≡ length (cells_of s.now.grid) }
    ensures forced { IfOk result (λ f. AreForced s.now.grid known.now f.columns.items) }
    ensures rows { IfOk result (λ f. vec_len f.decided ≡ s.now.rows) }
    ensures shown { IfOk result (λ f. IsFront s.now.grid known.now f) }
{
    let mut decided = vec![in alloc; None; s.rows as usize]?;
    let mut columns = Vec::new(alloc);
    while let Some(column) = sure_column(s, known, decided.as_slice()) {
        mark(s, known, &mut decided, column, columns.len() as u32);
        columns.push(column)?;
    }
    Ok(Front { columns, decided })
}

/// Whether the forced columns decide the cell's row in every filling.
pub fn cell_shown(
    alloc: Global,
    s: &ColumnCells,
    known: &[Option<Entry>],
    cell: u32,
) -> Result<bool, AllocError>
    requires cells { length known.now ≡ length (cells_of s.now.grid) }
    requires cell { cell < length (cells_of s.now.grid) }
    ensures { IfOk result (λ b. IsTrue b ↔ IsShown s.now.grid known.now cell) }
{
    let front = force(alloc, s, known)?;
    Ok(front.shows(s, cell))
}

/// The columns, by their numbers, with which the column search of every filling begins.
pub fn forced(alloc: Global, g: &Grid, p: &Partial) -> Result<Items<u32>, AllocError>
    requires grid { IsGrid g.now }
    requires cells { length p.now.known.items ≡ length (cells_of g.now) }
    ensures { IfOk result (λ columns. AreForced g.now p.now.known.items columns) }
{
    let s = column_cells(alloc, g)?;
    let Front {
        columns,
        decided: _,
    } = force(alloc, &s, p.known.as_slice())?;
    Ok(Items::from_vec(columns))
}

/// Whether the row of the cell is decided by the forced columns in every filling.
pub fn shown(alloc: Global, g: &Grid, p: &Partial, cell: u32) -> Result<bool, AllocError>
    requires grid { IsGrid g.now }
    requires cells { length p.now.known.items ≡ length (cells_of g.now) }
    requires cell { cell < length (cells_of g.now) }
    ensures { IfOk result (λ b. IsTrue b ↔ IsShown g.now p.now.known.items cell) }
{
    let s = column_cells(alloc, g)?;
    cell_shown(alloc, &s, p.known.as_slice(), cell)
}
