//! What may cross threads.

use crate::{Board, Closed, Seat};

fn crosses_threads<T: Send + Sync>(_value: &T) {}

fn goes_to_a_thread<T: Send>(_value: &T) {}

/// Threads may share boards, and seats may go from thread to thread.
pub fn cross_threads(board: &Board, seat: &Seat, closed: &Closed) {
    crosses_threads(board);
    goes_to_a_thread(seat);
    crosses_threads(closed);
}
