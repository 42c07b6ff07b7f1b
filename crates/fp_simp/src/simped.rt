//! The answer of a simplification.
use fp_term::Term;

/// What a goal became, and the fuel and the room that are left.
#[derive(Drop)]
pub struct Simped {
    pub term: Term,
    /// The contractions and uses of rules that were left.
    pub fuel: u32,
    /// The nodes that could still have been made.
    pub room: u32,
}
