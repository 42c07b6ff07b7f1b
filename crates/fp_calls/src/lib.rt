//! The derived forms and the conversions called on written terms, for their tests: what comes of a call is a text, its
//! statement or its fault.
#![tactic(auto)]

mod calls;
mod quantified;

pub use calls::{Call, rows_right};
pub use fp_texts::Premise;
