//! Induction over the functions of a group: over the domain from completeness, and without the domain where the group is total;
//! the equations of total groups.
//!
//! What comes out is compared with what it is to say, so no step is trusted to be the right one.
#![tactic(auto)]

mod cases;
mod induction;
mod pinduct;
mod roles;
mod total;

pub use pinduct::{Inductions, prove_inductions};
pub use total::{induct_of, simp_of};
