//! What comes of a command for a group of functions: the order by which they end, or why it is refused.
#![tactic(auto)]

mod fault;
mod item;
mod parts;

pub use fault::FunFault;
pub use item::OrderPart;
pub use parts::parts_of;
