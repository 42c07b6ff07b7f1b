//! Patterns of clauses, and the completion of clauses that are tried in order.
#![tactic(auto)]

mod clause;
mod completion;
mod faults;
mod form;
mod left;
mod pattern;
mod split;
mod subtract;
mod table;

pub use completion::complete;
pub use faults::PatternFault;
pub use fp_group::{Clause, ConTable, ConType, Head};
pub use pattern::is_pattern;
