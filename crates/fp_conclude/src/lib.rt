//! Formulas of the logic, and what its rules conclude from the conclusions of their premises.
#![tactic(auto)]

mod axioms;
mod checks;
mod conclude;
mod connectives;
mod fault;
mod formula;
mod hypotheses;
mod known;
mod logic;
mod parts;
mod shapes;
mod substitution;

pub use axioms::Axiom;
pub use checks::typed_over;
pub use conclude::{assume, beta, eq_mp, lam, mk_comb, refl, trans};
pub use connectives::LogicalConstant;
pub use fault::{RuleFault, differ};
pub use formula::{
    abstraction, alpha, beta_variable, binary_truth, conjunction, connective, false_constant,
    for_all, for_some, implication, individuals, negation, negation_constant, quantifier,
    quantifier_type, select, select_type, true_constant,
};
pub use hypotheses::{all_instances, all_retyped, occurs, occurs_in_any, single, union, without};
pub use known::{beta_known, lam_known, mk_comb_known, trans_known};
pub use logic::{
    apply, apply_both, equality_at, equality_type, equation, predicate_over, truth_type,
};
pub use parts::{Equation, function_parts, is_truth, redex_parts, sides};
pub use shapes::{
    argument_in, body_in, equality_in, function_in, left, right, side_type, source, target,
};
pub use substitution::{inst, inst_ty};
