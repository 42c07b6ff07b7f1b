//! What may cross threads.

use crate::{HoldGate, OpenGate};

fn crosses_threads<T: Send + Sync>(_value: &T) {}

/// Threads may share both gates.
pub fn cross_threads(open: &OpenGate, hold: &HoldGate) {
    crosses_threads(open);
    crosses_threads(hold);
}
