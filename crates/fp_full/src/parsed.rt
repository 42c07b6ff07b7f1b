//! What a text of the full form is read as.
use fp_term::{Name, Term};

/// A definition of a file: the places of its first word and of its opening brace, its name and its term.
#[derive(Drop)]
pub struct Definition {
    pub at: u32,
    pub brace: u32,
    pub name: Name,
    pub term: Term,
}

// What is to be read.
#[derive(Clone, Copy)]
pub(crate) enum Kind {
    Term,
    Statement,
    File,
}

// What was read.
#[derive(Drop)]
pub(crate) enum Parsed {
    Term(Term),
    Statement { hyps: Vec<Term>, concl: Term },
    Definitions(Vec<Definition>),
}
