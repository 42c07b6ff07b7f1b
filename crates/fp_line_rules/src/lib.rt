//! The rules of proof lines: their names, what they are called on, and what they give.
#![tactic(auto)]

mod conclude;
mod rule;

pub use conclude::{
    before_term, before_theorem, by_cases, by_choice, by_nothing, by_terms, by_types, by_witness,
    of_pair, of_term, of_theorem, of_variable,
};
pub use rule::{
    BeforeTerm, BeforeTheorem, OfPair, OfTerm, OfTheorem, OfVariable, Rule, rule_named,
};
