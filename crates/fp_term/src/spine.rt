//! A head applied to arguments, one after the other.
ghost use Rattle.std.specs.Prelude.{◌≡◌, [], ◌++◌, IfOk, OnOk};
ghost use Rattle.fp_term.specs.Terms.{applied_to, head_of, arguments_of};

use crate::items::Items;
use crate::term::{Node, Term};
use std::alloc::{AllocError, Global};

/// The head applied to the arguments.
pub fn apply(alloc: Global, head: &Term, args: &[Term]) -> Result<Term, AllocError>
    ensures { IfOk result (λ t. t ≡ applied_to head.now args.now) }
{
    let mut made = head.copy()?;
    for arg in args {
        made = Term::app(alloc, made, arg.copy()?)?;
    }
    Ok(made)
}

/// What is applied in the term: the term itself where it isn't an application.
pub fn head(term: &Term) -> &Term
    ensures { result.now ≡ head_of term.now }
{
    match term.node() {
        Node::Bound(_) => term,
        Node::Free { .. } => term,
        Node::Const { .. } => term,
        Node::App { fun, .. } => head(fun),
        Node::Abs { .. } => term,
    }
}

fn add_arguments(args: &mut Items<Term>, term: &Term) -> Result<(), AllocError>
    ensures { OnOk result (args.new ≡ args.old ++ arguments_of term.now) }
{
    match term.node() {
        Node::Bound(_) => Ok(()),
        Node::Free { .. } => Ok(()),
        Node::Const { .. } => Ok(()),
        Node::App { fun, arg } => {
            add_arguments(args, fun)?;
            args.push(arg.copy()?)
        }
        Node::Abs { .. } => Ok(()),
    }
}

/// The arguments to which the term's head is applied, the first one first.
pub fn arguments(alloc: Global, term: &Term) -> Result<Items<Term>, AllocError>
    ensures { IfOk result (λ args. args ≡ arguments_of term.now) }
{
    let mut args = Items::new(alloc);
    add_arguments(&mut args, term)?;
    Ok(args)
}
