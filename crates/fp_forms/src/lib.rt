//! Formulas of the derived forms: their parts, the variables of lemmas, and what the lemmas state.
#![tactic(auto)]

mod choosers;
pub mod existence;
mod lemma;
mod parts;
mod quantifiers;
mod statements;
mod variables;

pub use choosers::{applying, chooser};
pub use lemma::Lemma;
pub use parts::{conjunction_parts, implication_parts, parts_by};
pub use quantifiers::{existence_parts, quantified};
pub use statements::{
    applying_truths, applying_variables, chosen, conjunction_of_variables, equivalent,
    held_variable, identity, statement, truths,
};
pub use variables::{p_variable, q_variable};
