//! Terms and theorems of written texts, and texts of what a rule gives, for the tests of the logic.
#![tactic(auto)]

pub mod over;
mod premises;
mod texts;

pub use premises::{Premise, given, made, same};
pub use texts::{has_text, name, same_text, sure, term, text_of};
