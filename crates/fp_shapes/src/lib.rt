//! Terms over lists: over lists of variables, over lists of formulas, and over arguments and results of several functions.
#![tactic(auto)]

mod binders;
mod injections;
mod joined;
mod tuples;

pub use binders::{at_variables, curried, for_alls, for_somes, lambdas, variable};
pub use injections::{inject, project, sum_type, sums};
pub use joined::{before, conjunctions, disjunction, disjunctions, implications};
pub use tuples::{pair_type, tuple, tuple_type};
