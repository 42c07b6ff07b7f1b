//! The simplifier: conditional rewriting by declared rules and by the guards of a goal, within fuel and room.
#![tactic(auto)]

mod cell;
mod context;
mod frame;
mod laws;
mod observe;
mod running;
mod simped;
mod stack;
mod task;
mod walk;

pub use cell::{CellData, verdict};
pub use fp_order::Entry;
pub use frame::{Frame, Mode};
pub use laws::{cross_threads, cuts_agree};
pub use observe::{Nobody, Observer};
pub use simped::Simped;
pub use stack::Stack;
pub use task::{SimpTask, observed_simp, simp};
