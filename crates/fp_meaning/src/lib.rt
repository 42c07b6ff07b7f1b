//! What the relations of a group of functions mean: their unfoldings, introductions and eliminations, sums and
//! constructors, calls replaced, and, from completeness and determinacy, values on the domain.
#![tactic(auto)]

mod calling;
mod constructing;
mod defining;
mod lemmas;
mod relating;
mod shared;
mod start;
mod stating;
mod summing;
mod valuing;
mod wording;

pub use constructing::constructor_names;
pub use lemmas::lemma_of;
pub use shared::Setting;
pub use start::setting;
pub use stating::{agreement, complete_statement, det_statement};
