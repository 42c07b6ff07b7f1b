//! Typing rules of written terms as equations between numbered types, and the first subterm at which they clash.
#![tactic(auto)]

mod clash;
mod constants;
mod draft;
mod drawing;
mod instance;
mod plain;

pub use clash::{Equations, Question, equations_of, first_unsolvable};
pub use constants::Constants;
pub use plain::plain_type;
