//! Types with constructors: the form of a constructor's type, and the theorems by which constants are the constructors of a
//! type.
#![tactic(auto)]

mod fault;
mod forms;
mod names;
mod naming;
mod needed;
mod shape;
mod statements;

pub use fault::ConFault;
pub use needed::{Needed, constructor_needs};
