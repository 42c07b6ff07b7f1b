//! What a board is made for.

use fp_order::Grid;
use fp_rewriting::RuleSet;
use fp_simp::CellData;

/// A grid, the goals of its cells in their order, and the rules by which they get their verdicts.
#[derive(Drop)]
pub struct Plan {
    pub cells: Vec<CellData>,
    pub grid: Grid,
    pub rules: RuleSet,
}
