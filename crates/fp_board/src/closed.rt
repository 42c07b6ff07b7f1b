//! The cells of a board that was closed.

ghost use Rattle.std.specs.Prelude.{◌≡◌, ◌<◌, Some, slice_get};
ghost use Rattle.fp_board_rule.specs.Rule.{count_of};
ghost use Rattle.fp_board.specs.Closing.{IsClosedBoard};

use fp_board_rule::Plan;
use fp_order::Grid;
use fp_rewriting::RuleSet;
use fp_shown::Partial;
use fp_simp::CellData;
use std::marker::Model;

/// What is known of the cells of a board on which each cell was settled or cancelled.
#[derive(Drop)]
pub struct Closed {
    plan: Plan,
    partial: Partial,
}

impl Model for Closed {
    ghost use Rattle.fp_board.specs.Codes.{coded_board};
    ghost use Rattle.fp_board.specs.Closing.{ClosedBoard, IsClosedBoard};

    ghost Value = { ClosedBoard };

    ghost coded = { coded_board };

    ghost view = { λ c. record { plan = c.plan; partial = c.partial } };

    ghost invariant = { λ c. IsClosedBoard c.plan c.partial.known.items };
}

impl Closed {
    /// The board with nothing left to do.
    pub(crate) fn of(plan: Plan, partial: Partial) -> Closed
        requires { IsClosedBoard plan partial.known.items }
        ensures { result ≡ record { plan = plan; partial = partial } }
    {
        Closed { plan, partial }
    }

    pub fn grid(&self) -> &Grid
        ensures { result.now ≡ self.now.plan.grid }
    {
        &self.plan.grid
    }

    /// The goals of a cell.
    pub fn cell(&self, k: u32) -> &CellData
        requires { k < count_of self.now.plan }
        ensures { slice_get self.now.plan.cells.items k ≡ Some result.now }
    {
        &self.plan.cells[k as usize]
    }

    pub fn rules(&self) -> &RuleSet
        ensures { result.now ≡ self.now.plan.rules }
    {
        &self.plan.rules
    }

    /// The settled cells with their verdicts; each other cell was cancelled, and is shown by these.
    pub fn partial(&self) -> &Partial
        ensures known { result.now ≡ self.now.partial }
        ensures closed { IsClosedBoard self.now.plan result.now.known.items }
    {
        &self.partial
    }
}
