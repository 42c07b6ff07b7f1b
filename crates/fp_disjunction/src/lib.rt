//! Forms of falsity, negation and disjunction, each made by the rules alone. Those whose names end in `_known` have the
//! shape of their premises as their condition and are refused for want of memory alone; the others test it first.
#![tactic(auto)]

pub mod disjunctions;
pub mod falsity;
pub mod joining;
mod kept;
pub mod negation;
mod parts;

pub use disjunctions::{cases, cases_known};
pub use falsity::{false_elim, false_elim_known};
pub use joining::{disj1, disj1_known, disj2, disj2_known};
pub use negation::{eqf, eqf_known, not_elim, not_elim_known, not_intro, not_intro_known};
