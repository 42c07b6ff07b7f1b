//! Elaboration: most general types for written terms, or the first fault at its place.
#![tactic(auto)]

mod building;
mod elaborating;
mod fault;
mod names;
mod written;

pub use elaborating::{Typed, Types, elaborate, elaborate_with, find_types, first_large, term_of};
pub use fault::InferFault;
pub use names::{Search, first_wrong, first_wrong_in_type};
