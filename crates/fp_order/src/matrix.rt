//! Matrices of entries, and orders of their columns.

ghost use Rattle.std.specs.Prelude.{◌≡◌, ◌*◌, length};

use crate::{Entry, Items};

/// The entry of each column on each row, row by row.
#[derive(Drop)]
pub struct Matrix {
    pub rows: u32,
    pub columns: u32,
    pub entries: Items<Entry>,
    pub ghost full: { length entries ≡ rows * columns },
}

/// Columns one after another, and the position of the column that decides each row.
#[derive(Drop)]
pub struct Order {
    pub columns: Items<u32>,
    pub decided: Items<Option<u32>>,
}
