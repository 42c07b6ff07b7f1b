//! Short printing of terms, types and statements.
#![tactic(auto)]

mod form;
mod names;
mod printer;
mod symbol;
mod text;
mod types;

pub use printer::{print_statement, print_statement_onto, print_term, print_term_onto, print_type};
pub use types::print_type_onto;
