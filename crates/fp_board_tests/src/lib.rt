//! Tests of steps on a board that find another word than they hope for, on the grid of Ackermann's function with goals
//! that are true or false as they stand.
#![tactic(auto)]

mod ack;
mod steps;

pub use ack::new_board;
pub use steps::{cancel_cell, claim_cell, settle_cell, settle_first};

#[cfg(test)]
mod meeting;
