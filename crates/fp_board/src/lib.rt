//! A board of atomic words, one for each cell of a descent matrix, on which any number of seats settle and cancel the
//! cells, however their steps interleave.
#![tactic(auto)]

mod answers;
mod board;
mod closed;
mod learning;
mod seat;
mod threads;

pub use answers::{Cancel, Claim, Quit, Settle};
pub use board::Board;
pub use closed::Closed;
pub use seat::{Fresh, Seat};
pub use threads::cross_threads;
