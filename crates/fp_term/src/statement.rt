//! Statements: hypotheses and a conclusion.
ghost use Rattle.std.specs.Prelude.{◌≡◌, IfOk};

use crate::items::Items;
use crate::term::Term;
use std::alloc::{AllocError, Global};

/// Hypotheses, and what is concluded from them.
#[derive(Drop)]
pub struct Statement {
    pub hyps: Items<Term>,
    pub concl: Term,
}

/// Copies of the terms.
pub fn copy_all(alloc: Global, terms: &[Term]) -> Result<Items<Term>, AllocError>
    ensures { IfOk result (λ copies. copies ≡ terms.now) }
{
    let mut copies = Vec::new(alloc);
    for term in terms {
        copies.push(term.copy()?)?;
    }
    Ok(Items::from_vec(copies))
}
