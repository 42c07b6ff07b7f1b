//! The lines that the program writes: one for each accepted item, and one for a refusal.
#![tactic(auto)]

mod item;
mod matrix;
mod number;
mod order;
mod reason;
mod refusal;
mod words;

pub use item::{Item, push_item};
pub use matrix::{Matrix, MatrixCell, MatrixRow, RowVerdict};
pub use reason::{Cause, Clausal, Kind, Naming, Reason, Variable};
pub use refusal::{Refusal, push_refusal};
