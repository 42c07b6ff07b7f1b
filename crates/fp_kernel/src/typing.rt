//! The type of a term that has one.
ghost use Rattle.std.specs.Prelude.{◌≡◌, [], Some, IfOk, MatchOption};
ghost use Rattle.fp_term.specs.Types.{Typ};
ghost use Rattle.fp_term.specs.Typing.{type_under};

use fp_conclude::function_parts;
use fp_term::{Node, Term, Ty, type_of};
use std::alloc::{AllocError, Global};

// The type of a term that has one, by the type of the variable or constant that it applies.
#[tactic(auto, using(crate::proofs::Unchecked::result_type))]
fn head_type(term: &Term) -> Option<&Ty>
    ensures { MatchOption result (Unit {0}) (λ ty. (s : Typ) → type_under [] term.now ≡ Some s → s ≡ ty.now) }
{
    match term.node() {
        Node::Free { ty, .. } => Some(ty),
        Node::Const { ty, .. } => Some(ty),
        Node::App { fun, .. } => match function_parts(head_type(fun)?) {
            Some((_, to)) => Some(to),
            None => None,
        },
        _ => None,
    }
}

/// The type of a term that has one. No argument is walked.
pub fn known_type(alloc: Global, term: &Term) -> Result<Ty, AllocError>
    requires { (s : Typ) × (type_under [] term.now ≡ Some s) }
    ensures { IfOk result (λ ty. type_under [] term.now ≡ Some ty) }
{
    match head_type(term) {
        Some(ty) => ty.copy(),
        None => type_of(alloc, term).map_err(|_| AllocError),
    }
}
