//! A gate that holds the worker of one cell until another cell was left.

use crate::gate::Gate;
use std::sync::atomic::AtomicBool;
use std::sync::atomic::Ordering::SeqCst;
use std::thread;

/// Holds whoever enters one cell until another cell of the same group was left, at most for so many turns. A cell that
/// was left earlier counts.
#[derive(Drop)]
pub struct HoldGate {
    group: u32,
    held: u32,
    until: u32,
    turns: u64,
    was_left: AtomicBool,
    ran_out: AtomicBool,
}

impl HoldGate {
    /// Holds `enter` of the cell `held` until `leave` of the cell `until`.
    pub fn new(group: u32, held: u32, until: u32, turns: u64) -> HoldGate {
        HoldGate {
            group,
            held,
            until,
            turns,
            was_left: AtomicBool::new(false),
            ran_out: AtomicBool::new(false),
        }
    }

    /// Whether the turns ran out before the other cell was left.
    pub fn overran(&self) -> bool {
        self.ran_out.load(SeqCst)
    }

    /// Waits for the other cell, and notes where it didn't come.
    fn hold(&self) {
        for _ in 0..self.turns {
            if self.was_left.load(SeqCst) {
                return;
            }
            thread::yield_now();
        }
        if !self.was_left.load(SeqCst) {
            self.ran_out.store(true, SeqCst);
        }
    }
}

impl Gate for HoldGate {
    fn enter(&self, _worker: u32, group: u32, cell: u32) {
        if group == self.group && cell == self.held {
            self.hold();
        }
    }

    fn leave(&self, _worker: u32, group: u32, cell: u32) {
        if group == self.group && cell == self.until {
            self.was_left.store(true, SeqCst);
        }
    }
}
