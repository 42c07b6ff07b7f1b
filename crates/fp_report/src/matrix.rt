//! The text of a descent matrix that leaves rows.
ghost use Rattle.std.specs.Prelude.{◌≡◌, ◌++◌, OnOk};
ghost use Rattle.std.specs.Fmt.{decimal};
ghost use Rattle.fp_print.specs.Numbers.{AllHaveOnly, HasOnly};
ghost use Rattle.fp_outcome.specs.Shown.{ListsHaveOnly, AreShownParts};
ghost use Rattle.fp_report.specs.Matrices.{entry_text, cell_text, cells_after, cells_text, verdict_text, row_line, row_lines, measure_line, measure_lines, measures_lines, row_head, order_line, partial_line, matrix_lines, IsShownMatrix};

use crate::item::{push_name, push_names, push_term};
use crate::number::push_number;
use crate::order::push_order;
use fp_order::Entry;
use fp_outcome::OrderPart;
use fp_term::{Items, Name, Term, next};
use std::alloc::AllocError;

/// What a cell says, with its measures of the caller and of the callee, counted from 1.
#[derive(Clone, Copy)]
pub struct MatrixCell {
    pub source: u32,
    pub target: u32,
    pub entry: Entry,
}

/// What became of a row.
#[derive(Drop)]
pub enum RowVerdict {
    /// The position in the order of the part that decides it, counted from 1.
    Decided(u32),
    /// It is left; its cells by source, then target.
    Left(Items<MatrixCell>),
}

/// A call site, with the names of its functions.
#[derive(Drop)]
pub struct MatrixRow {
    pub caller: Name,
    pub callee: Name,
    pub verdict: RowVerdict,
}

/// A matrix that leaves rows: the functions with their measures, the order that was found, and the rows.
#[derive(Drop)]
pub struct Matrix {
    pub functions: Items<Name>,
    /// The measures of each function.
    pub measures: Items<Items<Term>>,
    pub order: Items<OrderPart>,
    pub rows: Items<MatrixRow>,
}

fn entry_text(entry: Entry) -> &'static [u8]
    ensures { result.now ≡ entry_text entry }
{
    match entry {
        Entry::Less => b"<",
        Entry::Leq => b"<=",
        Entry::Unknown => b"?",
    }
}

// Puts a cell at the end.
fn push_cell(text: &mut Vec<u8>, cell: &MatrixCell) -> Result<(), AllocError>
    ensures { OnOk result (text.new.items ≡ text.old.items ++ cell_text cell.now) }
{
    push_number(text, cell.source)?;
    text.extend_from_slice(b"-")?;
    push_number(text, cell.target)?;
    text.extend_from_slice(b" ")?;
    text.extend_from_slice(entry_text(cell.entry))
}

// Puts each cell behind a comma at the end.
fn push_cells_after(text: &mut Vec<u8>, cells: &[MatrixCell]) -> Result<(), AllocError>
    ensures { OnOk result (text.new.items ≡ text.old.items ++ cells_after cells.now) }
{
    for cell in cells {
        text.extend_from_slice(b", ")?;
        push_cell(text, cell)?;
    }
    Ok(())
}

// Puts cells at the end.
fn push_cells(text: &mut Vec<u8>, cells: &[MatrixCell]) -> Result<(), AllocError>
    ensures { OnOk result (text.new.items ≡ text.old.items ++ cells_text cells.now) }
{
    match cells {
        [] => text.extend_from_slice(b"none"),
        [first, rest @ ..] => {
            push_cell(text, first)?;
            push_cells_after(text, rest)
        }
    }
}

// Puts what became of a row at the end.
fn push_verdict(text: &mut Vec<u8>, verdict: &RowVerdict) -> Result<(), AllocError>
    ensures { OnOk result (text.new.items ≡ text.old.items ++ verdict_text verdict.now) }
{
    match verdict {
        RowVerdict::Decided(position) => {
            text.extend_from_slice(b"decided by ")?;
            push_number(text, *position)
        }
        RowVerdict::Left(cells) => {
            text.extend_from_slice(b"left: ")?;
            push_cells(text, cells.as_slice())
        }
    }
}

// Puts the words `row N f -> g ` at the end.
fn push_row_head(text: &mut Vec<u8>, number: u32, row: &MatrixRow) -> Result<(), AllocError>
    ensures { OnOk result (text.new.items ≡ text.old.items ++ row_head number row.now) }
{
    text.extend_from_slice(b"row ")?;
    push_number(text, number)?;
    push_name(text, b" ", &row.caller, b" -> ")?;
    push_name(text, b"", &row.callee, b" ")
}

// Puts the line of the row of that number at the end.
fn push_row(text: &mut Vec<u8>, number: u32, row: &MatrixRow) -> Result<(), AllocError>
    ensures { OnOk result (text.new.items ≡ text.old.items ++ row_line number row.now) }
{
    push_row_head(text, number, row)?;
    push_verdict(text, &row.verdict)?;
    text.extend_from_slice(b"\n")
}

// Puts the lines of the rows at the end, with numbers from 1.
fn push_rows(text: &mut Vec<u8>, rows: &[MatrixRow]) -> Result<(), AllocError>
    ensures { OnOk result (text.new.items ≡ text.old.items ++ row_lines 1 rows.now) }
{
    let mut number = 1;
    for row in rows {
        push_row(text, number, row)?;
        number = next(number)?;
    }
    Ok(())
}

// Puts the line of a function's measure of that number at the end.
fn push_measure(
    text: &mut Vec<u8>,
    full: bool,
    function: &Name,
    number: u32,
    measure: &Term,
) -> Result<(), AllocError>
    requires { HasOnly 0 measure.now }
    ensures { OnOk result (text.new.items ≡ text.old.items ++ measure_line full function.now number measure.now) }
{
    push_name(text, b"measure ", function, b" ")?;
    push_number(text, number)?;
    text.extend_from_slice(b": ")?;
    push_term(text, full, measure)?;
    text.extend_from_slice(b"\n")
}

// Puts the lines of a function's measures at the end, with numbers from 1.
fn push_measures(
    text: &mut Vec<u8>,
    full: bool,
    function: &Name,
    measures: &[Term],
) -> Result<(), AllocError>
    requires { AllHaveOnly 0 measures.now }
    ensures { OnOk result (text.new.items ≡ text.old.items ++ measure_lines full function.now 1 measures.now) }
{
    let mut number = 1;
    for measure in measures {
        push_measure(text, full, function, number, measure)?;
        number = next(number)?;
    }
    Ok(())
}

// Puts the lines of all functions' measures at the end.
#[tactic(auto, using(crate::proofs::Measured::none_left))]
fn push_all_measures(
    text: &mut Vec<u8>,
    full: bool,
    functions: &[Name],
    measures: &[Items<Term>],
) -> Result<(), AllocError>
    requires { ListsHaveOnly measures.now }
    ensures { OnOk result (text.new.items ≡ text.old.items ++ measures_lines full functions.now measures.now) }
{
    let mut at = 0;
    while at < functions.len() && at < measures.len() {
        push_measures(text, full, &functions[at], measures[at].as_slice())?;
        at += 1;
    }
    Ok(())
}

/// Puts the line of an order of functions at the end.
pub(crate) fn push_order_line(
    text: &mut Vec<u8>,
    full: bool,
    functions: &[Name],
    parts: &[OrderPart],
) -> Result<(), AllocError>
    requires { AreShownParts parts.now }
    ensures { OnOk result (text.new.items ≡ text.old.items ++ order_line full functions.now parts.now) }
{
    text.extend_from_slice(b"order ")?;
    push_names(text, functions)?;
    text.extend_from_slice(b": ")?;
    push_order(text, full, parts)?;
    text.extend_from_slice(b"\n")
}

// Puts the line of an order at the end, where there is some.
fn push_partial(
    text: &mut Vec<u8>,
    full: bool,
    functions: &[Name],
    parts: &[OrderPart],
) -> Result<(), AllocError>
    requires { AreShownParts parts.now }
    ensures { OnOk result (text.new.items ≡ text.old.items ++ partial_line full functions.now parts.now) }
{
    if parts.is_empty() {
        Ok(())
    } else {
        push_order_line(text, full, functions, parts)
    }
}

/// Puts the lines of a matrix at the end.
pub(crate) fn push_matrix(text: &mut Vec<u8>, full: bool, matrix: &Matrix) -> Result<(), AllocError>
    requires { IsShownMatrix matrix.now }
    ensures { OnOk result (text.new.items ≡ text.old.items ++ matrix_lines full matrix.now) }
{
    let functions = matrix.functions.as_slice();
    push_partial(text, full, functions, matrix.order.as_slice())?;
    push_all_measures(text, full, functions, matrix.measures.as_slice())?;
    push_rows(text, matrix.rows.as_slice())
}
