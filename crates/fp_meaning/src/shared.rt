//! What the proofs about a group share.

use fp_group::Group;
use fp_proof::Line;
use fp_term::{Items, Name, Term, Ty};

/// A group, the variables that its proofs are written with, its constants, and what is derived of its relations once.
#[derive(Drop)]
pub struct Setting<'g> {
    pub group: &'g Group,
    /// Functions from all arguments to all results.
    pub h: (Name, Ty),
    pub k: (Name, Ty),
    /// An argument, and that of a call.
    pub x: (Name, Ty),
    pub z: (Name, Ty),
    /// Results.
    pub y: (Name, Ty),
    pub w: (Name, Ty),
    /// `f_clauses`, `f_calls`, `f_graph`, `f_sum`, `f_rel` and `f_dom`.
    pub clauses: Term,
    pub calls: Term,
    pub graph: Term,
    pub sum: Term,
    pub rel: Term,
    pub dom: Term,
    /// The types of the functions' arguments, each function's as one, and of their results.
    pub arguments: Items<Ty>,
    pub results: Items<Ty>,
    pub(crate) meaning: Meaning,
}

/// The variables.
#[derive(Drop)]
pub(crate) struct Variables {
    pub h: (Name, Ty),
    pub k: (Name, Ty),
    pub x: (Name, Ty),
    pub z: (Name, Ty),
    pub y: (Name, Ty),
    pub w: (Name, Ty),
}

/// The constants.
#[derive(Drop)]
pub(crate) struct Constants {
    pub clauses: Term,
    pub calls: Term,
    pub graph: Term,
    pub sum: Term,
    pub rel: Term,
    pub dom: Term,
}

/// What is derived of a group's two relations at its variables.
#[derive(Drop)]
pub(crate) struct Meaning {
    /// `f_clauses h x y = ..` and `f_calls h z x = ..`
    pub clauses: Line,
    pub calls: Line,
    /// `x = in(p) /\ y = inr(r[h]) --> f_clauses h x y`, of each clause.
    pub clause_rules: Items<Line>,
    /// `x = in(p) /\ G1[h] /\ .. /\ z = in(a[h]) --> f_calls h z x`, of each call site.
    pub row_rules: Items<Line>,
}
