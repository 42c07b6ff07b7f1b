//! Gates at which the workers on a board may be held: one that holds nobody, and one that holds a cell's worker
//! until another cell was settled, so that a test sees whether two threads ran.
#![tactic(auto)]

mod gate;
mod hold;
mod threads;

pub use gate::{Gate, OpenGate};
pub use hold::HoldGate;
pub use threads::cross_threads;

#[cfg(test)]
mod holding;
