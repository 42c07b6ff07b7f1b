//! Determinacy of a group's clauses: a function of the arguments whose calls are known leaves one result at most.
//!
//! It is proved by cases of the argument, by the tree in which completeness is.
#![tactic(auto)]

mod leaf;
mod live;
mod patterns;
mod prove;
mod tree;

pub use prove::prove_det;
