//! The commands of a theory file, read from its tokens.
#![tactic(auto)]

mod braces;
mod classify;
mod cursor;
mod line;
mod reader;
mod written;

pub use cursor::SyntaxFault;
pub use fp_commands::{Arg, Body, Command, Head, Line};
pub use reader::{file_is_one_list, read_file};
