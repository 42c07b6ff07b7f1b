//! What a theory has to know of types before more can be built on them.
#![tactic(auto)]

mod fault;
mod needs;

pub use fault::LackFault;
pub use fp_constructors::{ConFault, Needed};
pub use needs::{constructor_needs, need};
