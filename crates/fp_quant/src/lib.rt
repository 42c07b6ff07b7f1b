//! The derived forms of the quantifiers, each made by the rules alone. Those whose names end in `_known` have the shape
//! of their premises as their condition and are refused for want of memory alone; the others test it first.
#![tactic(auto)]

mod existence;
mod existential;
pub mod extensional;
mod fault;
pub mod general;
mod kept;
mod placing;
pub mod steps;
pub mod universal;
pub mod witness;

pub use existential::{choose, exists, select};
pub use extensional::{ext, ext_known};
pub use general::{gen_all, spec, spec_known};
pub use universal::gen_all_known;
pub use witness::{choose_known, exists_known, select_known};
