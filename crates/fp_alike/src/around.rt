//! What the walk added on the way to a subterm.

use fp_group::copy_variables;
use fp_term::{Items, Name, Term, Ty, copy_all};
use std::alloc::{AllocError, Global};

/// The variables and the guards on the way to a subterm, outermost first; the guards with either function in place of
/// their calls.
#[derive(Drop)]
pub(crate) struct Around {
    pub vars: Items<(Name, Ty)>,
    pub by_h: Items<Term>,
    pub by_k: Items<Term>,
}

impl Around {
    /// Nothing.
    pub(crate) fn none(alloc: Global) -> Around {
        Around {
            vars: Items::new(alloc),
            by_h: Items::new(alloc),
            by_k: Items::new(alloc),
        }
    }

    /// With these behind.
    pub(crate) fn with(
        &self,
        alloc: Global,
        vars: &[(Name, Ty)],
        by_h: &[Term],
        by_k: &[Term],
    ) -> Result<Around, AllocError> {
        Ok(Around {
            vars: all_variables(alloc, self.vars.as_slice(), vars)?,
            by_h: all_terms(alloc, self.by_h.as_slice(), by_h)?,
            by_k: all_terms(alloc, self.by_k.as_slice(), by_k)?,
        })
    }
}

fn all_variables(
    alloc: Global,
    first: &[(Name, Ty)],
    second: &[(Name, Ty)],
) -> Result<Items<(Name, Ty)>, AllocError> {
    copy_variables(alloc, first)?.extended(copy_variables(alloc, second)?)
}

/// The terms of both lists.
pub(crate) fn all_terms(
    alloc: Global,
    first: &[Term],
    second: &[Term],
) -> Result<Items<Term>, AllocError> {
    copy_all(alloc, first)?.extended(copy_all(alloc, second)?)
}
