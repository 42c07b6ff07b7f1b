//! What the simplifier answers, proved: it writes down its steps, and they are carried out again on theorems.
//!
//! The theorem that comes out is compared with what it is to say, so no step is trusted to be the right one.
#![tactic(auto)]

mod cell;
mod facts;
mod moves;
mod script;
mod simplified;
mod steps;

pub use cell::prove_cell;
pub use simplified::prove_simp;
