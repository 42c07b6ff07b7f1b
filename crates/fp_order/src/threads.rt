//! What may cross threads.

use crate::Grid;

fn crosses_threads<T: Send + Sync>(_value: &T) {}

/// Grids may go from thread to thread, and threads may share them.
pub fn cross_threads(g: &Grid) {
    crosses_threads(g);
}
