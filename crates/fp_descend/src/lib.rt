//! Termination of a group by the order that a search found: each call descends in a relation that is well-founded.
//!
//! The relation is made of ranks, one within another. A rank compares, for a call, the greatest or the least values of sets of
//! measures; a column takes one measure for each function, which is its greatest. What comes out is compared with what it is to
//! say, so no step is trusted to be the right one.
#![tactic(auto)]

mod cells;
mod comparing;
mod descent;
mod levels;
mod nesting;
mod numbers;
mod ranks;
mod rows;
mod termination;

pub use cells::cell_line;
pub use termination::prove_termination;
