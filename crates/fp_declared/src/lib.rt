//! What a theory declares, read: the rules that its declared theorems state.
#![tactic(auto)]

mod congruences;
mod rewriting;

pub use congruences::congruence_rules;
pub use rewriting::{rewrite_rules, rule_theorems};
