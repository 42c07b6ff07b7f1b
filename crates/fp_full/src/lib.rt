//! The full form of types, terms and statements, read and printed.
#![tactic(auto)]

mod fault;
mod full;
mod lexicon;
mod nest;
mod parsed;
mod phase;
mod printer;
mod reader;
mod state;
mod typing;

pub use fault::FullFault;
pub use full::{read_definitions, read_definitions_at, read_full, read_full_term};
pub use parsed::Definition;
pub use printer::{
    print_full, print_full_onto, print_full_term, print_full_term_onto, print_full_type_onto,
    printed_is_text,
};
