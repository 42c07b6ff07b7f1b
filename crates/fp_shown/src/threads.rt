//! What may cross threads.

use crate::{ColumnCells, Front, Machine, Partial};

fn crosses_threads<T: Send + Sync>(_value: &T) {}

/// What is known of cells, what it shows, and machines may go from thread to thread, and threads may share them.
pub fn cross_threads(known: &Partial, cells: &ColumnCells, front: &Front, machine: &Machine) {
    crosses_threads(known);
    crosses_threads(cells);
    crosses_threads(front);
    crosses_threads(machine);
}
