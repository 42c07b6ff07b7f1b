//! Commands as they are written.
use fp_raw::{Raw, RawType};
use fp_term::{Items, Name};

/// An argument of a proof line.
#[derive(Drop)]
pub enum Arg {
    Number(u32),
    Name(Name),
    /// A type variable, without its apostrophe.
    TyVar(Name),
    Term(Raw),
    Ty(RawType),
}

/// A proof line.
#[derive(Drop)]
pub struct Line {
    pub name: Name,
    pub args: Items<Arg>,
}

/// A function of a group with its written type.
#[derive(Drop)]
pub struct Head {
    pub name: Name,
    pub ty: RawType,
}

/// What a command says.
#[derive(Drop)]
pub enum Body {
    Definition {
        name: Name,
        term: Raw,
    },
    Typedef {
        name: Name,
        abs: Name,
        rep: Name,
        fact: Name,
    },
    Lemma {
        name: Name,
        statement: Raw,
        lines: Items<Line>,
    },
    Simp(Name),
    Cong(Name),
    Constructors {
        ty: Name,
        cons: Items<Name>,
    },
    Size {
        ty: RawType,
        term: Raw,
    },
    Measure {
        ty: RawType,
        term: Raw,
    },
    Fun {
        heads: Items<Head>,
        clauses: Items<Raw>,
    },
    Function {
        heads: Items<Head>,
        clauses: Items<Raw>,
    },
}

/// A command, and the byte at which it begins.
#[derive(Drop)]
pub struct Command {
    pub at: u32,
    pub body: Body,
}
