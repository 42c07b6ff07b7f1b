//! Partial rules: on the domain of a group a function has, at the patterns of a clause, the value of its right side.
#![tactic(auto)]

mod psimp;
mod value;

pub use psimp::{prove_psimp, prove_psimps};
