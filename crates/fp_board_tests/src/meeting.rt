//! Two seats at one board.

use crate::{cancel_cell, claim_cell, new_board, settle_cell, settle_first};
use fp_board::{Cancel, Claim, Settle};
use std::test::Fail;

#[test]
fn a_held_cell_is_taken(rt: HostRuntime) -> Result<(), Fail> {
    let (board, mut first) = new_board(rt.alloc())?;
    let mut second = board.split(rt.alloc(), &mut first)?;
    let held = claim_cell(rt.alloc(), &board, &mut first, 3)?;
    assert_eq!(rt; held, Some(Claim::Claimed));
    let taken = claim_cell(rt.alloc(), &board, &mut second, 3)?;
    assert_eq!(rt; taken, Some(Claim::Taken(9)));
    Ok(())
}

#[test]
fn a_settled_cell_is_found_and_a_cancelled_one_not_settled(rt: HostRuntime) -> Result<(), Fail> {
    let (board, mut first) = new_board(rt.alloc())?;
    let mut second = board.split(rt.alloc(), &mut first)?;
    let held = claim_cell(rt.alloc(), &board, &mut first, 3)?;
    assert_eq!(rt; held, Some(Claim::Claimed));
    let settled = settle_first(rt.alloc(), &board, &mut second, 3)?;
    assert!(rt; settled);
    let found = cancel_cell(rt.alloc(), &board, &mut second, 0, 0)?;
    assert_eq!(rt; found, Some(Cancel::Found(4)));
    let cancelled = cancel_cell(rt.alloc(), &board, &mut second, 3, 9)?;
    assert_eq!(rt; cancelled, Some(Cancel::Cancelled));
    let late = settle_cell(rt.alloc(), &board, &mut first, 3)?;
    assert_eq!(rt; late, Some(Settle::WasCancelled));
    let left = cancel_cell(rt.alloc(), &board, &mut second, 4, 0)?;
    assert_eq!(rt; left, None);
    Ok(())
}
