//! Laws of the cells that are needed.

ghost use Rattle.fp_order.specs.Grid.{IsGrid};
ghost use Rattle.fp_needed.specs.Needed.{NeededIsNeed};

use fp_order::Grid;
use fp_rewriting::RuleSet;
use fp_simp::CellData;

/// The known cells are exactly those that are needed of the full matrix of verdicts, each with its verdict; each other
/// cell is shown by them, and the full matrix agrees with them.
pub fn needed_is_need(g: &Grid, cells: &[CellData], rules: &RuleSet)
    requires { IsGrid g.now }
    ensures { NeededIsNeed g.now rules.now cells.now }
{
    let _ = g;
    let _ = cells;
    let _ = rules;
}
