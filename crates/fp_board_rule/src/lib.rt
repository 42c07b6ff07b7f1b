//! The rule of a board, whose atomic words are the cells of a descent matrix: what is so at each moment of its words
//! and of what its seats know, and the kinds of step, each of which keeps it.
#![tactic(auto)]

mod laws;
mod plan;
mod steps;
mod view;

pub use laws::words_show_board;
pub use plan::Plan;
pub use steps::{
    BoardRule, CancelCell, ClaimCell, LastLoad, Load, Look, Parts, QuitCell, SettleCell,
};
pub use view::View;
