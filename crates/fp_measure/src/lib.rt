//! Measures of types into the natural numbers: the declared ones, and those of a pair by the measures of its parts.
#![tactic(auto)]

mod declared;
mod entries;
mod generating;
mod measure;
mod size;
mod source;

pub use declared::DeclaredSource;
pub use generating::generate;
pub use measure::{is_measure, natural};
pub use size::SizeSource;
pub use source::{Decl, DeclKind, MeasureSource};
