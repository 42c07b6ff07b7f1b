//! What a search found for a group.

use fp_level::Found;
use fp_order::{Cell, Entry, Grid, Items as List};
use fp_term::{Items, Term};

/// The measures of each function, the cells of their grid with their entries, and the order.
#[derive(Drop)]
pub(crate) struct Plan {
    pub(crate) measures: Items<Items<Term>>,
    pub(crate) grid: Grid,
    pub(crate) cells: List<Cell>,
    pub(crate) entries: Vec<Entry>,
    pub(crate) found: Found,
}
