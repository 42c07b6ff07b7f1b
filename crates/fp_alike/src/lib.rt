//! A clause's right side with either of two functions in place of its calls: where the functions agree on the calls, the
//! results are equal, by the group's congruence rules.
//!
//! The walk is that which found the clause's call sites, so it meets them in their order.
#![tactic(auto)]

mod alike;
mod around;
mod call;
mod equal;
mod form;
mod instance;
mod premise;
mod rule;
mod walk;

pub use equal::equal_at;
pub use walk::right_sides_equal;
