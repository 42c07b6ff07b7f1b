//! Written terms and types, read from their words with the exact first fault.
#![tactic(auto)]

mod build;
mod kinds;
mod moves;
mod reader;
mod symbol;
mod types;

pub use kinds::{Found, Kind, Limits, ReadFault};
pub use reader::read_words;
