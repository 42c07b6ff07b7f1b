//! Functions of a group with their types, and their clauses.
ghost use Rattle.std.specs.Prelude.{◌≡◌, IfOk};

use crate::copying::copy_types;
use fp_term::{Items, Name, Term, Ty, copy_all};
use std::alloc::{AllocError, Global};

/// A function of a group, with the types of its arguments and of its result.
#[derive(Drop)]
pub struct Head {
    pub name: Name,
    pub args: Items<Ty>,
    pub result: Ty,
}

impl Head {
    /// An equal head.
    pub fn copy(&self, alloc: Global) -> Result<Head, AllocError>
        ensures { IfOk result (λ head. head ≡ self.now) }
    {
        let args = copy_types(alloc, self.args.as_slice())?;
        Ok(Head {
            name: self.name.copy()?,
            args,
            result: self.result.copy()?,
        })
    }
}

/// A clause of a function: where the arguments match the patterns, which have no variable twice, the value is the right side.
#[derive(Drop)]
pub struct Clause {
    /// The number of the function in its group, from 0.
    pub function: u32,
    /// One pattern for each argument.
    pub patterns: Items<Term>,
    pub right: Term,
    /// The number of the written clause that it comes from, from 1; none for a missing clause.
    pub origin: Option<u32>,
}

impl Clause {
    /// An equal clause.
    pub fn copy(&self, alloc: Global) -> Result<Clause, AllocError>
        ensures { IfOk result (λ clause. clause ≡ self.now) }
    {
        let patterns = copy_all(alloc, self.patterns.as_slice())?;
        Ok(Clause {
            function: self.function,
            patterns,
            right: self.right.copy()?,
            origin: self.origin,
        })
    }
}
