//! A line `M M ..;CD CD ..;ENTRIES`: how many measures each function has, each row's caller and callee by one digit
//! each, and the entries of the cells in their order, `<`, `=` or `?`.

ghost use Rattle.std.specs.Prelude.{◌≡◌, length, IfOk};
ghost use Rattle.std.specs.Bool.{OnTrue};
ghost use Rattle.fp_order.specs.Grid.{IsGrid, cells_of};

use fp_order::{Entry, Grid, Items, cells};
use std::alloc::{AllocError, Global};

/// A grid with the entries of its cells.
#[derive(Drop)]
pub struct Problem {
    pub grid: Grid,
    pub entries: Vec<Entry>,
}

// The parts of a line.
#[derive(Clone, Copy)]
enum Part {
    Functions,
    Rows,
    Entries,
}

fn after(part: Part) -> Part {
    match part {
        Part::Functions => Part::Rows,
        Part::Rows => Part::Entries,
        Part::Entries => Part::Entries,
    }
}

fn digit(byte: u8) -> u32 {
    if byte >= b'0' && byte <= b'9' {
        u32::from(byte - b'0')
    } else {
        0
    }
}

fn entry(byte: u8) -> Entry {
    match byte {
        b'<' => Entry::Less,
        b'=' => Entry::Leq,
        _ => Entry::Unknown,
    }
}

/// What the line says.
pub fn problem_of(alloc: Global, line: &[u8]) -> Result<Problem, AllocError> {
    let mut functions = Vec::new(alloc);
    let mut rows = Vec::new(alloc);
    let mut entries = Vec::new(alloc);
    let mut part = Part::Functions;
    let mut caller: Option<u32> = None;
    for byte in line {
        match (part, *byte) {
            (_, b';') => part = after(part),
            (_, b' ') => (),
            (Part::Functions, byte) => functions.push(digit(byte))?,
            (Part::Rows, byte) => match caller {
                None => caller = Some(digit(byte)),
                Some(number) => {
                    rows.push((number, digit(byte)))?;
                    caller = None;
                }
            },
            (Part::Entries, byte) => entries.push(entry(byte))?,
        }
    }
    Ok(Problem {
        grid: Grid {
            functions: Items::from_vec(functions),
            rows: Items::from_vec(rows),
        },
        entries,
    })
}

/// Whether each caller and callee is a function, and rows can be counted.
pub fn is_grid(grid: &Grid) -> bool
    ensures { OnTrue result (IsGrid grid.now) }
{
    let functions = grid.functions.as_slice().len();
    if grid.rows.as_slice().len() >= 4294967296 {
        return false;
    }
    for row in grid.rows.as_slice() {
        if row.0 as usize >= functions || row.1 as usize >= functions {
            return false;
        }
    }
    true
}

/// Whether there are as many entries as cells.
pub fn is_full(alloc: Global, grid: &Grid, entries: &[Entry]) -> Result<bool, AllocError>
    requires { IsGrid grid.now }
    ensures { IfOk result (λ yes. OnTrue yes (length entries.now ≡ length (cells_of grid.now))) }
{
    Ok(cells(alloc, grid)?.as_slice().len() == entries.len())
}
