//! Unification: equations between types with unknown parts, and their most general solution.
#![tactic(auto)]

mod counting;
mod fact;
mod merging;
mod naming;
mod settling;
mod solving;
mod table;

pub use counting::nodes_within;
pub use fact::Fact;
pub use naming::{Namer, show};
pub use solving::solve;
pub use table::{Shape, root};
