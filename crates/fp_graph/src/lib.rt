//! The definitions of a group in a theory.
#![tactic(auto)]

mod group;

pub use group::define_group;
