//! Laws of the rule.

ghost use Rattle.fp_board_rule.specs.Rule.{ShowsBoard};

use crate::plan::Plan;

/// Words that keep the rule show a state of the machine of cells: they come from events each of which was allowed,
/// and each settled cell has its verdict, and each cancelled cell is shown by the settled ones.
pub fn words_show_board(plan: &Plan)
    ensures { ShowsBoard plan.now }
{
    let _ = plan;
}
