//! Why a group of functions is refused, as it is written.
#![tactic(auto)]

mod matrix;
mod refusal;

pub use refusal::refusal_of;
