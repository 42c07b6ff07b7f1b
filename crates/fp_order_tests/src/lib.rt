//! Tests of the search, of what is shown and of the machine, on the grid of Ackermann's function (one function with
//! two measures and three calls of itself) and on one whose rows no column decides.
#![tactic(auto)]

mod ack;
mod greatest;

pub use ack::{found_ack, machine};
pub use greatest::found_greatest;

#[cfg(test)]
mod events;
#[cfg(test)]
mod searches;
