//! The parameters of a new type.
ghost use Rattle.std.specs.Prelude.{◌≡◌, [], ◌∷◌, IfOk, OnOk};
ghost use Rattle.fp_term.specs.Variables.{is_among, type_names, all_type_names, type_names_in};
ghost use Rattle.fp_kernel.specs.Start.{distinct_after};

use fp_term::{Items, Name, Node, Term, Ty, TyNode, Tys, TysNode};
use std::alloc::{AllocError, Global};

fn is_among(names: &[Name], name: &Name) -> bool
    ensures { result ≡ is_among names.now name.now }
{
    for other in names {
        if other.equals(name) {
            return true;
        }
    }
    false
}

// Puts the name at the end, where it isn't there.
fn add(known: &mut Items<Name>, name: &Name) -> Result<(), AllocError>
    ensures { OnOk result (known.new ≡ distinct_after known.old (name.now ∷ [])) }
{
    if is_among(known.as_slice(), name) {
        return Ok(());
    }
    known.push(name.copy()?)
}

#[cycle(names)]
fn add_of_type(known: &mut Items<Name>, ty: &Ty) -> Result<(), AllocError>
    ensures { OnOk result (known.new ≡ distinct_after known.old (type_names ty.now)) }
{
    match ty.node() {
        TyNode::Var(name) => add(known, name),
        TyNode::Con { args, .. } => add_of_types(known, args),
    }
}

#[cycle(names)]
#[tactic(auto, using(crate::proofs::Names::distinct_append))]
fn add_of_types(known: &mut Items<Name>, tys: &Tys) -> Result<(), AllocError>
    ensures { OnOk result (known.new ≡ distinct_after known.old (all_type_names tys.now)) }
{
    match tys.node() {
        TysNode::End => Ok(()),
        TysNode::More { first, rest } => {
            add_of_type(known, first)?;
            add_of_types(known, rest)
        }
    }
}

#[tactic(auto, using(crate::proofs::Names::distinct_append))]
fn add_of_term(known: &mut Items<Name>, term: &Term) -> Result<(), AllocError>
    ensures { OnOk result (known.new ≡ distinct_after known.old (type_names_in term.now)) }
{
    match term.node() {
        Node::Bound(_) => Ok(()),
        Node::Free { ty, .. } => add_of_type(known, ty),
        Node::Const { ty, .. } => add_of_type(known, ty),
        Node::App { fun, arg } => {
            add_of_term(known, fun)?;
            add_of_term(known, arg)
        }
        Node::Abs { ty, body } => {
            add_of_type(known, ty)?;
            add_of_term(known, body)
        }
    }
}

/// The type variables of the term, each once, in the order of their first places.
pub fn parameters(alloc: Global, term: &Term) -> Result<Items<Name>, AllocError>
    ensures { IfOk result (λ names. names ≡ distinct_after [] (type_names_in term.now)) }
{
    let mut names = Items::new(alloc);
    add_of_term(&mut names, term)?;
    Ok(names)
}
