//! The matrix of a search that leaves rows.
ghost use Rattle.std.specs.Prelude.{◌≡◌, IfOk};
ghost use Rattle.fp_outcome.specs.Shown.{ListsHaveOnly, AreShownParts};
ghost use Rattle.fp_report.specs.Matrices.{IsShownMatrix};

use fp_level::Found;
use fp_order::{Cell, Entry};
use fp_outcome::parts_of;
use fp_report::{Matrix, MatrixCell, MatrixRow, RowVerdict};
use fp_term::{Items, Name, Term, next};
use std::alloc::{AllocError, Global};

// The cells of a row.
fn cells_of(
    alloc: Global,
    row: usize,
    left: &[(Cell, Entry)],
) -> Result<Items<MatrixCell>, AllocError> {
    let mut cells = Items::new(alloc);
    for (cell, entry) in left {
        if cell.row as usize == row {
            cells.push(MatrixCell {
                source: next(cell.source)?,
                target: next(cell.target)?,
                entry: *entry,
            })?;
        }
    }
    Ok(cells)
}

// What became of a row.
fn verdict_of(
    alloc: Global,
    row: usize,
    decided: &[Option<u32>],
    left: &[(Cell, Entry)],
) -> Result<RowVerdict, AllocError> {
    match decided.get(row) {
        Some(Some(position)) => Ok(RowVerdict::Decided(next(*position)?)),
        _ => Ok(RowVerdict::Left(cells_of(alloc, row, left)?)),
    }
}

// The name of a function of the group.
fn name_at(names: &[Name], number: u32) -> Result<Name, AllocError> {
    match names.get(number as usize) {
        Some(name) => name.copy(),
        None => Err(AllocError),
    }
}

// The rows, each with what became of it.
fn rows_of(
    alloc: Global,
    names: &[Name],
    rows: &[(u32, u32)],
    decided: &[Option<u32>],
    left: &[(Cell, Entry)],
) -> Result<Items<MatrixRow>, AllocError> {
    let mut made = Items::new(alloc);
    for at in 0..rows.len() {
        let (caller, callee) = rows[at];
        made.push(MatrixRow {
            caller: name_at(names, caller)?,
            callee: name_at(names, callee)?,
            verdict: verdict_of(alloc, at, decided, left)?,
        })?;
    }
    Ok(made)
}

/// The matrix of the functions with their measures, whose search found that and left these cells.
pub(crate) fn matrix_of(
    alloc: Global,
    functions: Items<Name>,
    measures: Items<Items<Term>>,
    rows: &[(u32, u32)],
    found: &Found,
    left: &[(Cell, Entry)],
) -> Result<Matrix, AllocError>
    requires { ListsHaveOnly measures }
    ensures shown { IfOk result IsShownMatrix }
    ensures functions { IfOk result (λ m. m.functions ≡ functions) }
    ensures measures { IfOk result (λ m. m.measures ≡ measures) }
{
    let order = parts_of(alloc, measures.as_slice(), found)?;
    let rows = rows_of(
        alloc,
        functions.as_slice(),
        rows,
        found.decided.as_slice(),
        left,
    )?;
    Ok(Matrix {
        functions,
        measures,
        order,
        rows,
    })
}
