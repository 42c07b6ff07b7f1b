//! When a worker is held, and when the turns run out.

use crate::{Gate, HoldGate, OpenGate};
use std::thread;

fn pass<G: Gate>(gate: &G, worker: u32, group: u32, cell: u32) {
    gate.enter(worker, group, cell);
    gate.leave(worker, group, cell);
}

#[test]
fn open_holds_nobody(_rt: HostRuntime) {
    pass(&OpenGate, 1, 0, 0);
}

#[test]
fn holds_until_the_other_is_left(rt: HostRuntime) {
    let gate = HoldGate::new(0, 0, 1, 100000000);
    let shared = &gate;
    thread::join(
        &rt,
        move || shared.enter(1, 0, 0),
        move || shared.leave(2, 0, 1),
    );
    assert!(rt; !gate.overran());
}

#[test]
fn what_was_left_earlier_counts(rt: HostRuntime) {
    let gate = HoldGate::new(0, 0, 1, 0);
    pass(&gate, 1, 0, 1);
    pass(&gate, 1, 0, 0);
    assert!(rt; !gate.overran());
}

#[test]
fn overruns_alone(rt: HostRuntime) {
    let gate = HoldGate::new(0, 0, 1, 1000);
    pass(&gate, 1, 0, 0);
    pass(&gate, 1, 0, 1);
    assert!(rt; gate.overran());
}

#[test]
fn other_cells_and_groups_pass(rt: HostRuntime) {
    let gate = HoldGate::new(0, 0, 1, 1000);
    pass(&gate, 1, 0, 2);
    pass(&gate, 1, 1, 0);
    assert!(rt; !gate.overran());
    pass(&gate, 1, 1, 1);
    pass(&gate, 1, 0, 0);
    assert!(rt; gate.overran());
}
