//! An entry of a descent matrix.

/// How a measure changes at a call.
#[derive(Debug, Clone, Copy, PartialEq, Eq)]
pub enum Entry {
    /// It falls.
    Less,
    /// It doesn't rise.
    Leq,
    /// Neither is known.
    Unknown,
}
