//! Sources of measures side by side, each of which is told every declaration.
#![tactic(auto)]

mod sources;

pub use sources::tell_each;
