//! Groups of functions as they are written, made into typed and completed ones with their call sites, or refused.
#![tactic(auto)]

mod admitting;
mod fault;
mod grouping;
mod lemmas;
mod names;
mod spec;
mod taking;
mod typing;
mod variables;

pub use admitting::admit;
pub use fp_outcome::FunFault;
pub use names::{
    definition_name, induct_name, pinduct_name, psimp_name, simp_name, termination_name,
};
pub use spec::GroupSpec;
