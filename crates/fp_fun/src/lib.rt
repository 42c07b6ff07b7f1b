//! The commands for groups of functions: a group is admitted and defined, its theorems are proved and named, and what was made is
//! shown; or the theory is as before.
#![tactic(auto)]

mod cells;
mod commands;
mod noting;
mod plan;
mod proving;
mod searching;
mod showing;
mod total;

pub use commands::{fun_command, function_command};
pub use fp_admit::GroupSpec;
pub use fp_outcome::{FunFault, OrderPart};
pub use fp_report::Item;
