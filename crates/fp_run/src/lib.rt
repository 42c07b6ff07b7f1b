//! The run over theory files: what its words ask for, the files read and carried out in order, their texts and the status.
#![tactic(auto)]

mod asked;
mod asking;
mod file;
mod program;

pub use asked::Words;
pub use asking::words;
pub use program::run;
