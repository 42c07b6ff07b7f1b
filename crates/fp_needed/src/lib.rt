//! The cells of a descent matrix whose verdicts its search needs: they are settled in order, each once, and all others
//! left aside.
#![tactic(auto)]

mod found;
mod laws;
mod settling;

pub use found::{entries_with_unknown, search_known};
pub use laws::needed_is_need;
pub use settling::needed;
