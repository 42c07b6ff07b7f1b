//! The search of the descent matrix: first among columns, then among mappings for the rows that are left.
#![tactic(auto)]

mod candidates;
mod entries;
mod greedy;
mod rank;
mod result;
mod sheet;

pub use entries::entry_of;
pub use rank::{Found, Rank};
pub use result::search;
