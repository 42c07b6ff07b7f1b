//! Proofs over a theory: theorems in lines, each from earlier ones by a rule, and forms of many steps on lists of
//! variables, parts and premises.
//!
//! A rule whose premises don't fit is stuck. What comes out is compared with what it is to say, so no line is trusted to be
//! the right one.
#![tactic(auto)]

mod forms;
mod proof;
mod rules;
mod stop;

pub use proof::{Line, Proof};
pub use stop::Stop;
