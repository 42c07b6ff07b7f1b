//! What stays the same while a term is simplified.
use fp_rewriting::RuleSet;
use fp_term::{Items, Name, Term};

/// What stays the same while a term is simplified: the declared rules, the names of the guards' variables, and the rules
/// that the guards give.
#[derive(Drop)]
pub(crate) struct Context<'a> {
    pub(crate) rules: &'a RuleSet,
    pub(crate) names: Items<Name>,
    pub(crate) facts: Items<(Term, Term)>,
}
