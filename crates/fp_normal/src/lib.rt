//! Beta-normal forms of terms: the same that `fp_conv` proves equal to them, found on terms alone.
//!
//! The calls nest as deep as the term has levels, at most 4,000, and passes are made by a loop that counts them.
#![tactic(auto)]

mod normal;
mod opening;

pub use normal::normal_form;
