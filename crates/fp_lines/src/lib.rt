//! Proof lines: the theorem that a proof's lines come to, or the first line at fault with its cause.
#![tactic(auto)]

mod arguments;
mod cause;
mod checking;
mod fault;
mod lines;
mod pairs;
mod reading;
mod telling;

pub use cause::LineCause;
pub use checking::check_proof;
pub use fault::ProofFault;
