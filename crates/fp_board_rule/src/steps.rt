//! The rule of the board's table, and its kinds of step by name.

ghost use Rattle.fp_board_rule.specs.Rule.{KeptOf, first_view};
ghost use Rattle.fp_board_rule.specs.Steps.{loaded, looked, last_loaded, claimed, settled, cancelled, quitted, left_part, right_part, taken_in, nobody};

use crate::plan::Plan;
use crate::view::View;
use atomic_table::{Join, Play, Split, TableRule};

/// The rule of a board's table.
pub struct BoardRule;

impl TableRule<u8, View, Plan> for BoardRule {
    ghost holds = { KeptOf };

    ghost first = { first_view };
}

/// A word is loaded.
pub struct Load;

impl Play<u8, View> for Load {
    ghost then = { loaded };
}

/// A word is loaded, which counts as a look where the seat has claimed the cell.
pub struct Look;

impl Play<u8, View> for Look {
    ghost then = { looked };
}

/// The last word of a refresh is loaded.
pub struct LastLoad;

impl Play<u8, View> for LastLoad {
    ghost then = { last_loaded };
}

/// A free cell is claimed.
pub struct ClaimCell;

impl Play<u8, View> for ClaimCell {
    ghost then = { claimed };
}

/// A claimed cell is settled.
pub struct SettleCell;

impl Play<u8, View> for SettleCell {
    ghost then = { settled };
}

/// A cell is cancelled, free or claimed.
pub struct CancelCell;

impl Play<u8, View> for CancelCell {
    ghost then = { cancelled };
}

/// A claimed cell becomes free again.
pub struct QuitCell;

impl Play<u8, View> for QuitCell {
    ghost then = { quitted };
}

/// A new seat is made, and a seat takes in another.
pub struct Parts;

impl Split<View> for Parts {
    ghost left = { left_part };

    ghost right = { right_part };
}

impl Join<View> for Parts {
    ghost both = { taken_in };

    ghost spent = { nobody };
}
