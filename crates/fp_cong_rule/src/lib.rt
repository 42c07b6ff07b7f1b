//! The congruence rule that a theorem's conclusion states.
#![tactic(auto)]

mod form;
mod parts;
mod reading;

pub use reading::cong_rule;
