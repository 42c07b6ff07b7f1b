//! Types and terms as they are written, each part with its place in the text.
#![tactic(auto)]

mod full_form;
mod raw;
mod ty;

pub use full_form::{full, full_type};
pub use raw::{Raw, RawNode};
pub use ty::{RawType, RawTypeNode};
