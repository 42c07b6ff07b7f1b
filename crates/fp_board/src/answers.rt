//! What comes of a step on a cell.

/// What comes of a claim.
#[derive(Debug, Clone, Copy, PartialEq, Eq)]
pub enum Claim {
    Claimed,
    /// The cell wasn't free: this was its word.
    Taken(u64),
}

/// What comes of settling a claimed cell.
#[derive(Debug, Clone, Copy, PartialEq, Eq)]
pub enum Settle {
    Settled,
    WasCancelled,
}

/// What comes of a cancellation.
#[derive(Debug, Clone, Copy, PartialEq, Eq)]
pub enum Cancel {
    Cancelled,
    /// The cell had another word than the expected one: this.
    Found(u64),
}

/// What comes of giving a claimed cell back.
#[derive(Debug, Clone, Copy, PartialEq, Eq)]
pub enum Quit {
    Freed,
    WasCancelled,
}
