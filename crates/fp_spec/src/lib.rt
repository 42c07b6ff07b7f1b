//! What a group of functions is defined by, and what is proved of it: terms, computed from its completed clauses and its call
//! sites. Of a clause or a site whose functions or arguments aren't the group's, a term stands there that says nothing.
#![tactic(auto)]

mod calls;
mod defining;
mod heads;
mod helpers;
mod letters;
mod naming;
mod relations;
mod statements;

pub use calls::calls_at;
pub use defining::defining_terms;
pub use heads::{
    argument_sum, argument_types, family_type, function_at, in_term, parameters, result_in,
    result_out, result_sum, result_types,
};
pub use helpers::{helper, names_in};
pub use letters::{Letters, as_terms, letters_of};
pub use naming::{
    calls_constant, clauses_constant, dom_constant, graph_constant, rel_constant, sum_constant,
};
pub use relations::{clause_fact, clause_part, clause_variables, row_fact, row_part};
pub use statements::{induct, pinduct, psimp, simp_statement, termination};
