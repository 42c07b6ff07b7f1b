//! Conditional rewriting: rules, the rules that guards give, and what one step of a simplification does.
#![tactic(auto)]

mod fitting;
mod fresh;
mod guards;
mod index;
mod laws;
mod left;
mod making;
mod reading;
mod rule;
mod rules;
mod threads;

pub use fitting::{Fitting, first_fitting, is_truth};
pub use fresh::fresh_name;
pub use guards::{add_facts, names_of};
pub use laws::simplifies_to_one;
pub use left::Left;
pub use making::{instance, made_at_once};
pub use reading::rule_of;
pub use rule::Rule;
pub use rules::RuleSet;
pub use threads::cross_threads;
