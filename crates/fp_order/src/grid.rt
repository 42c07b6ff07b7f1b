//! Grids: functions with their measures, and rows with a caller and a callee.

ghost use Rattle.std.specs.Prelude.{◌≡◌, ◌∷◌, ◌++◌, [], IfOk};

use crate::Items;
use std::alloc::{AllocError, Global};

/// How many measures each function has, and the caller and callee of each row.
#[derive(Drop)]
pub struct Grid {
    pub functions: Items<u32>,
    pub rows: Items<(u32, u32)>,
}

/// A row with a measure of its caller and one of its callee.
#[derive(Debug, Clone, Copy, PartialEq, Eq)]
pub struct Cell {
    pub row: u32,
    pub source: u32,
    pub target: u32,
}

impl Grid {
    /// An equal grid.
    pub fn copy(&self, alloc: Global) -> Result<Grid, AllocError>
        ensures { IfOk result (λ g. g ≡ self.now) }
    {
        let functions = Vec::from_slice(alloc, self.functions.as_slice())?;
        let rows = Vec::from_slice(alloc, self.rows.as_slice())?;
        Ok(Grid {
            functions: Items::from_vec(functions),
            rows: Items::from_vec(rows),
        })
    }
}
