//! The data of a group of functions that are defined by recursive equations: heads and clauses, constructors of types, congruence
//! rules and call sites.
#![tactic(auto)]

mod clause;
mod congruence;
mod constructors;
mod copying;
mod group;
mod site;

pub use clause::{Clause, Head};
pub use congruence::{CongPremise, CongRule, CongTable};
pub use constructors::{ConTable, ConType};
pub use copying::{copy_names, copy_types, copy_variables};
pub use group::Group;
pub use site::CallSite;
