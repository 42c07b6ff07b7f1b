//! The goals of a cell: that a measure of a call's arguments is less, or at most as large, as one of the caller's.
#![tactic(auto)]

mod asking;

pub use asking::{goals, goals_of};
