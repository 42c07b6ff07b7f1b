//! Columns that are forced and cells that are shown by what is known of a descent matrix, and the machine that
//! settles and cancels its cells.
#![tactic(auto)]

mod kind;
mod laws;
mod machine;
mod partial;
mod search;
mod state;
mod table;
mod threads;

pub use laws::{
    closed_has_one_result, need_is_one, need_shows_rest, rows_left_decide, shown_free, shown_stays,
};
pub use machine::Machine;
pub use partial::Partial;
pub use search::{Front, force, forced, shown};
pub use state::{CellState, Event};
pub use table::{ColumnCells, column_cells};
pub use threads::cross_threads;
