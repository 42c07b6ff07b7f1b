//! Values of types with declared constructors: what it comes to that two of them are equal, and that each term is made by
//! one of the constructors.
//!
//! What is proved is compared with what it is to say before it is given out.
#![tactic(auto)]

mod asked;
mod derived;
mod equal;
mod exhaustion;
mod fault;
mod stating;
mod value;

pub use equal::con_eq;
pub use exhaustion::exhaust_at;
pub use fault::ValueFault;
