//! The commands of theory files, and the grammar by which words are commands.
#![tactic(auto)]

mod command;

pub use command::{Arg, Body, Command, Head, Line};
