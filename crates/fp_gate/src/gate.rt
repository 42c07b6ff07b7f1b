//! The gate that workers pass.

/// A place where a worker may be held for a bounded number of turns. It tells nothing: what a worker does after it is
/// what it would have done without it.
pub trait Gate: Sync {
    /// The worker has claimed the cell. `group` is the number of the group in its file.
    fn enter(&self, worker: u32, group: u32, cell: u32);

    /// The worker's claim of the cell has ended.
    fn leave(&self, worker: u32, group: u32, cell: u32);
}

/// Holds nobody.
#[derive(Drop)]
pub struct OpenGate;

impl Gate for OpenGate {
    fn enter(&self, _worker: u32, _group: u32, _cell: u32) {}

    fn leave(&self, _worker: u32, _group: u32, _cell: u32) {}
}
