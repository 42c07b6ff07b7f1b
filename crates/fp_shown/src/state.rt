//! States of cells, and the events that change them.

use fp_order::Entry;

/// What has become of a cell.
#[derive(Debug, Clone, Copy, PartialEq, Eq)]
pub enum CellState {
    Free,
    /// By the seat of that number.
    Claimed(u32),
    Settled(Entry),
    Cancelled,
}

/// A seat's number and a cell, and for `Settle` the cell's entry.
#[derive(Clone, Copy)]
pub enum Event {
    Claim(u32, u32),
    Settle(u32, u32, Entry),
    Cancel(u32, u32),
    Quit(u32, u32),
}
