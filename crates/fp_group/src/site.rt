//! Call sites.
ghost use Rattle.std.specs.Prelude.{◌≡◌, IfOk};

use crate::copying::copy_variables;
use fp_term::{Items, Name, Term, Ty, copy_all};
use std::alloc::{AllocError, Global};

/// A call in the right side of a completed clause, a row of the group's matrix.
#[derive(Drop)]
pub struct CallSite {
    /// The number of the completed clause, from 0.
    pub clause: u32,
    /// The numbers of the clause's function and of the function that is called, from 0.
    pub caller: u32,
    pub callee: u32,
    /// The variables that the way to the call added, outermost first.
    pub vars: Items<(Name, Ty)>,
    /// The guards that congruence rules added on the way, outermost first.
    pub guards: Items<Term>,
    /// The callee's arguments.
    pub args: Items<Term>,
}

impl CallSite {
    /// An equal site.
    pub fn copy(&self, alloc: Global) -> Result<CallSite, AllocError>
        ensures { IfOk result (λ site. site ≡ self.now) }
    {
        let vars = copy_variables(alloc, self.vars.as_slice())?;
        let guards = copy_all(alloc, self.guards.as_slice())?;
        let args = copy_all(alloc, self.args.as_slice())?;
        Ok(CallSite {
            clause: self.clause,
            caller: self.caller,
            callee: self.callee,
            vars,
            guards,
            args,
        })
    }
}
