//! The tokens of a theory file, taken longest first, and the first place where the bytes are none.
#![tactic(auto)]

mod bytes;
mod piece;
mod scan;
mod token;

pub use scan::tokens;
pub use token::{LexFault, Token, TokenKind};
