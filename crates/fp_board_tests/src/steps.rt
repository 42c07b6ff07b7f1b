//! Steps on a board, each where what it needs is so.

ghost use Rattle.std.specs.Prelude.{◌≡◌};
ghost use Rattle.fp_board.specs.Seats.{IsOf};

use fp_board::{Board, Cancel, Claim, Seat, Settle};
use fp_shown::shown;
use fp_simp::verdict;
use std::alloc::{AllocError, Global};

/// Claims the cell after a refresh, where the seat has no claim and doesn't know that the cell is shown.
pub fn claim_cell(
    alloc: Global,
    board: &Board,
    seat: &mut Seat,
    k: u32,
) -> Result<Option<Claim>, AllocError>
    requires { IsOf board.now seat.old }
    ensures { IsOf board.now seat.new }
{
    let fresh = board.refresh(seat);
    if k >= board.count() || seat.held().is_some() {
        return Ok(None);
    }
    if shown(alloc, board.grid(), seat.known(), k)? {
        return Ok(None);
    }
    Ok(Some(board.claim(seat, fresh, k)))
}

/// Settles the cell with its verdict, where the seat has claimed it.
pub fn settle_cell(
    alloc: Global,
    board: &Board,
    seat: &mut Seat,
    k: u32,
) -> Result<Option<Settle>, AllocError>
    requires { IsOf board.now seat.old }
    ensures { IsOf board.now seat.new }
{
    if k >= board.count() || seat.held() != Some(k) {
        return Ok(None);
    }
    let v = verdict(alloc, board.rules(), board.cell(k))?;
    Ok(Some(board.settle(seat, k, v)))
}

/// Cancels the cell where the seat knows that it is shown and a free or a claimed word is expected.
pub fn cancel_cell(
    alloc: Global,
    board: &Board,
    seat: &mut Seat,
    k: u32,
    expected: u64,
) -> Result<Option<Cancel>, AllocError>
    requires { IsOf board.now seat.old }
    ensures { IsOf board.now seat.new }
{
    if k >= board.count() || (expected != 0 && expected <= 8) {
        return Ok(None);
    }
    if !shown(alloc, board.grid(), seat.known(), k)? {
        return Ok(None);
    }
    Ok(Some(board.cancel(seat, k, expected)))
}

/// Claims and settles the first cells one after another. False where one of them couldn't be.
pub fn settle_first(
    alloc: Global,
    board: &Board,
    seat: &mut Seat,
    count: u32,
) -> Result<bool, AllocError>
    requires { IsOf board.now seat.old }
    ensures { IsOf board.now seat.new }
{
    for k in 0..count {
        let claimed = claim_cell(alloc, board, seat, k)?;
        if claimed != Some(Claim::Claimed) {
            return Ok(false);
        }
        let settled = settle_cell(alloc, board, seat, k)?;
        if settled != Some(Settle::Settled) {
            return Ok(false);
        }
    }
    Ok(true)
}
