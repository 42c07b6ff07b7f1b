//! Why a group of functions is refused.
ghost use Rattle.std.specs.Prelude.{◌≡◌};
ghost use Rattle.fp_outcome.specs.declared.fault.FunFault.TheVariants.{NoMemory};

use fp_level::Found;
use fp_order::{Cell, Entry};
use fp_term::{Items, Name, Term};
use std::alloc::{AllocError, AllocFailed};

/// Why a group is refused, in the order in which the causes are tried, each with its place. Clauses and arguments are
/// counted from 1.
#[derive(Drop)]
pub enum FunFault {
    /// A name that the command would make is there already.
    NameTaken {
        at: u32,
        name: Name,
    },
    UnknownName {
        at: u32,
        name: Name,
    },
    BadArity {
        at: u32,
        name: Name,
    },
    Clash {
        at: u32,
    },
    TypeTooLarge {
        at: u32,
    },
    TooManyFunctions {
        at: u32,
    },
    /// The clause isn't an equation whose left side is a function of the group at arguments.
    NotClause {
        at: u32,
        clause: u32,
    },
    /// The clause has another number of arguments than its function's first one.
    ArityDiffers {
        at: u32,
        clause: u32,
    },
    TooManyArguments {
        at: u32,
        clause: u32,
    },
    /// The function has no clause.
    NoClause {
        at: u32,
        name: Name,
    },
    /// The variable of the right side isn't in the patterns.
    NotBound {
        at: u32,
        clause: u32,
        name: Name,
    },
    /// The function's type, or what all functions take, lacks a type variable of the group.
    HiddenType {
        at: u32,
        name: Name,
    },
    NotPattern {
        at: u32,
        clause: u32,
        argument: u32,
    },
    NonLinear {
        at: u32,
        clause: u32,
        name: Name,
    },
    Redundant {
        at: u32,
        clause: u32,
    },
    TooManyClauses {
        at: u32,
        clause: u32,
    },
    /// In the clause a function of the group has too few arguments.
    PartialCall {
        at: u32,
        clause: u32,
    },
    TooManyCalls {
        at: u32,
        number: u32,
    },
    LacksLemma {
        at: u32,
        name: Name,
    },
    /// The search leaves rows, whose cells are these.
    NoOrder {
        at: u32,
        names: Items<Name>,
        measures: Items<Items<Term>>,
        rows: Items<(u32, u32)>,
        found: Found,
        left: Items<(Cell, Entry)>,
    },
    /// The theorem of that name wasn't proved.
    NotProved {
        at: u32,
        name: Name,
    },
    NoMemory,
}

impl From<AllocError> for FunFault {
    ghost from_gives = { λ _ fault. fault ≡ NoMemory };

    fn from(_: AllocError) -> FunFault {
        FunFault::NoMemory
    }
}

impl<T: Drop> From<AllocFailed<T>> for FunFault {
    ghost from_gives = { λ _ fault. fault ≡ NoMemory };

    fn from(failed: AllocFailed<T>) -> FunFault {
        drop(failed);
        FunFault::NoMemory
    }
}
