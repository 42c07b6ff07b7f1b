//! The equation of a term with what the simplifier answers for it by the rules that a theory declares.
#![tactic(auto)]

mod equation;

pub use equation::simp_eq;
