//! The words of a theory file: tokens by what they are to a reader.
#![tactic(auto)]

mod word;

pub use word::{Binder, Braces, Infix, Keyword, Placed, Word};
