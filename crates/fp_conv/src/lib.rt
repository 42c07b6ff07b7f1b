//! Conversions: theorems that are equations of a term with what it is rewritten to, made by the kernel's rules alone.
//!
//! Rules that are used: for a rewriting at a place, two for the equation (`refl`, `trans`), two for each application
//! on the way (`refl` of the part beside it, `mk_comb`) and one for each abstraction (`lam`); for a pass of beta
//! reduction, one for each part without a redex (`refl`), for each redex (`beta`), application (`mk_comb`) and
//! abstraction (`lam`) above one, and one (`trans`) for each redex that comes to stand in an application's place; one
//! more (`trans`) for each further pass, and one (`eq_mp`) to reduce a theorem.
//!
//! For a rewriting of outermost instances: two for each of them (`inst_ty`, `inst`), one for each application
//! (`mk_comb`) and abstraction (`lam`) above one, one (`refl`) for each part that stays beside one, and one (`eq_mp`) at
//! the end. Where nothing is replaced, four (`refl`, `antisym`, `eq_mp`, `inst`) make the equation of the theorem with
//! itself from the first theorem's hypotheses and promises, and one (`refl`) does where it has none.
//!
//! The calls nest as deep as the term has levels, at most 4,000, and passes are made by a loop that counts them.
#![tactic(auto)]

mod at_place;
mod beta;
mod fresh;
mod instances;
mod outermost;
mod steps;

pub use at_place::{rewrite_at, rewrite_at_known};
pub use beta::{beta_norm, norm};
pub use outermost::rewrite;
