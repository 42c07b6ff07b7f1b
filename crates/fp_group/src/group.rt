//! A group of functions that are defined together.

use crate::clause::{Clause, Head};
use crate::congruence::CongTable;
use crate::site::CallSite;
use fp_term::Items;

/// A group with its completed clauses, its call sites in order, and the congruence rules that counted when they were found.
#[derive(Drop)]
pub struct Group {
    pub heads: Items<Head>,
    pub clauses: Items<Clause>,
    pub sites: Items<CallSite>,
    pub rules: CongTable,
}
