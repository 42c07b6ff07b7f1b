//! Definitions and theorems of higher-order logic: whoever holds a theorem holds something derivable.
#![tactic(auto)]

mod cut;
mod define;
mod definition;
mod defs;
mod fault;
mod kept;
mod known;
mod new_type;
mod over;
mod parameters;
mod promises;
mod rules;
mod start;
mod thm;
mod typing;

pub use definition::{Definition, Definitions};
pub use defs::Defs;
pub use fault::DefFault;
pub use fp_conclude::{
    Axiom, LogicalConstant, RuleFault, equality_at, equation, predicate_over, truth_type,
};
pub use thm::Thm;
