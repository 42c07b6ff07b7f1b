//! Theories: definitions, theorems under their names, and what is declared of them.
#![tactic(auto)]

mod defining;
mod fault;
mod mark;
mod named;
mod start;
mod tables;
mod theory;

pub use fault::{NoteFault, RuleShapeFault};
pub use mark::Mark;
pub use theory::Theory;
