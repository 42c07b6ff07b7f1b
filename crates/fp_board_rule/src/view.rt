//! What a seat knows of a board.

use fp_order::Entry;
use std::collections::LinkedList;

/// What a seat knows, as the rule sees it. No value of it is made.
pub struct View {
    /// From 1 to 16, and 0 for a seat that was taken in by another.
    pub number: u64,
    pub known: LinkedList<Option<Entry>>,
    /// The cells that are noted as cancelled.
    pub noted: LinkedList<bool>,
    pub claim: Option<u32>,
    /// How often the claimed cell was looked at.
    pub looks: u64,
    pub refreshes: u64,
    /// The last number that the first seat gave out.
    pub given: u64,
    /// The numbers that it gave out and that haven't come back.
    pub out: LinkedList<bool>,
}
