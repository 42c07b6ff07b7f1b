//! Lexicographic orders of measures: the first that descends in a matrix, and the cells of which matrices are made.
#![tactic(auto)]

mod choices;
mod entry;
mod grid;
mod items;
mod matrix;
mod numbering;
mod search;
mod threads;

pub use choices::{columns, first_choices};
pub use entry::Entry;
pub use grid::{Cell, Grid};
pub use items::Items;
pub use matrix::{Matrix, Order};
pub use numbering::{CellTable, cell_table, cells};
pub use search::{best_order, decides, orders_join};
pub use threads::cross_threads;
