//! What a contraction, a rule of a guard or an instance of a rule makes of a term.
ghost use Rattle.std.specs.Prelude.{◌≡◌, Some, None, IfOk};
ghost use Rattle.std.specs.Option.{option_copied};
ghost use Rattle.fp_conclude.specs.Parts.{redex};
ghost use Rattle.fp_rewriting.specs.Simplification.{fact_for, contracted, made_at_once, instance};

use fp_match::Inst;
use fp_term::{Node, Term, inst, inst_ty, open_with, same};
use std::alloc::{AllocError, Global};

// What a contraction makes of the term.
fn contracted(alloc: Global, term: &Term) -> Result<Option<Term>, AllocError>
    ensures { IfOk result (λ o. o ≡ contracted (redex term.now)) }
{
    let Node::App { fun, arg } = term.node() else {
        return Ok(None);
    };
    match fun.node() {
        Node::Abs { body, .. } => Ok(Some(open_with(alloc, body, arg)?)),
        _ => Ok(None),
    }
}

// What the first rule of a guard for the term makes of it.
fn fact_for<'f>(facts: &'f [(Term, Term)], term: &Term) -> Option<&'f Term>
    ensures { option_copied result ≡ fact_for facts.now term.now }
{
    for fact in facts {
        if same(&fact.0, term) {
            return Some(&fact.1);
        }
    }
    None
}

/// What a contraction, or else a rule of a guard, makes of the term.
pub fn made_at_once(
    alloc: Global,
    facts: &[(Term, Term)],
    term: &Term,
) -> Result<Option<Term>, AllocError>
    ensures { IfOk result (λ o. o ≡ made_at_once facts.now term.now) }
{
    match contracted(alloc, term)? {
        Some(made) => Ok(Some(made)),
        None => match fact_for(facts, term) {
            Some(made) => Ok(Some(made.copy()?)),
            None => Ok(None),
        },
    }
}

/// The instance of a term.
pub fn instance(alloc: Global, by: &Inst, term: &Term) -> Result<Term, AllocError>
    ensures { IfOk result (λ t. t ≡ instance by.now term.now) }
{
    let retyped = inst_ty(alloc, term, by.types.as_slice())?;
    inst(alloc, &retyped, by.terms.as_slice())
}
