//! The derived forms of the connectives, each made by the rules alone. Those whose names end in `_known` have the shape
//! of their premises as their condition and are refused for want of memory alone; the others test it first. The public
//! modules hold further steps of that kind, on which crates that derive more stand.
#![tactic(auto)]

pub mod choosing;
mod conclude;
pub mod conjunctions;
mod derivations;
pub mod equality;
pub mod equations;
pub mod holding;
pub mod implications;
pub mod instances;
pub mod lemmas;
pub mod truths;
pub mod unfolding;

pub use conjunctions::{conj, conj_known, conj1, conj1_known, conj2, conj2_known};
pub use equality::{ap, ap_arg, ap_arg_known, ap_known, sym};
pub use equations::sym_known;
pub use implications::{disch, disch_known, mp, mp_known, undisch, undisch_known};
pub use truths::{eqt, eqt_elim, eqt_elim_known, eqt_known, truth};
