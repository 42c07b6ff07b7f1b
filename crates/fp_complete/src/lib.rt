//! Completeness: for each argument of a group some value is what the clauses say. An argument is split into constructors
//! until it is an instance of a clause.
#![tactic(auto)]

mod branching;
mod choosing;
mod covering;

pub use branching::{Branch, branches, joined};
pub use choosing::{clash, clause_of, split_variable};
pub use covering::prove_complete;
