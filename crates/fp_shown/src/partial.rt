//! Partial matrices.

use fp_order::Entry;

/// What is known of each cell, in the order of the cells.
#[derive(Drop)]
pub struct Partial {
    pub known: Vec<Option<Entry>>,
}
