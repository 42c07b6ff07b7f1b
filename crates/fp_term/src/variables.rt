//! The variables of terms and types.
ghost use Rattle.std.specs.Prelude.{◌≡◌, [], IfOk, OnOk};
ghost use Rattle.std.specs.Option.{option_copied};
ghost use Rattle.fp_term.specs.Variables.{first_beyond, first_free_of, hidden_of, type_names, all_type_names, is_among};
ghost use Rattle.fp_term.specs.Variables.{occurs, is_variable_among, with_variable, with_variables, variables_of};

use crate::items::Items;
use crate::name::Name;
use crate::term::{Node, Term};
use crate::ty::{Ty, TyNode, Tys, TysNode};
use std::alloc::{AllocError, Global};

/// The term's first free variable from the left.
#[tactic(auto, using(crate::proofs::Search::found_before, crate::proofs::Search::found_after))]
pub fn first_free(term: &Term) -> Option<&Name>
    ensures { option_copied result ≡ first_free_of term.now }
{
    match term.node() {
        Node::Bound(_) => None,
        Node::Free { name, .. } => Some(name),
        Node::Const { .. } => None,
        Node::App { fun, arg } => match first_free(fun) {
            Some(name) => Some(name),
            None => first_free(arg),
        },
        Node::Abs { body, .. } => first_free(body),
    }
}

#[cycle(mentions)]
fn mentions(ty: &Ty, name: &Name) -> bool
    ensures { result ≡ is_among (type_names ty.now) name.now }
{
    match ty.node() {
        TyNode::Var(a) => a.equals(name),
        TyNode::Con { args, .. } => any_mentions(args, name),
    }
}

#[cycle(mentions)]
#[tactic(auto, using(crate::proofs::Search::among_append))]
fn any_mentions(tys: &Tys, name: &Name) -> bool
    ensures { result ≡ is_among (all_type_names tys.now) name.now }
{
    match tys.node() {
        TysNode::End => false,
        TysNode::More { first, rest } => mentions(first, name) || any_mentions(rest, name),
    }
}

#[cycle(hidden)]
fn hidden_in<'a>(part: &'a Ty, ty: &Ty) -> Option<&'a Name>
    ensures { option_copied result ≡ first_beyond (type_names ty.now) (type_names part.now) }
{
    match part.node() {
        TyNode::Var(name) => { if mentions(ty, name) { None } else { Some(name) } }
        TyNode::Con { args, .. } => hidden_in_all(args, ty),
    }
}

#[cycle(hidden)]
#[tactic(auto, using(crate::proofs::Search::found_before, crate::proofs::Search::found_after))]
fn hidden_in_all<'a>(parts: &'a Tys, ty: &Ty) -> Option<&'a Name>
    ensures { option_copied result ≡ first_beyond (type_names ty.now) (all_type_names parts.now) }
{
    match parts.node() {
        TysNode::End => None,
        TysNode::More { first, rest } => match hidden_in(first, ty) {
            Some(name) => Some(name),
            None => hidden_in_all(rest, ty),
        },
    }
}

/// The term's first type variable from the left that doesn't occur in the type.
#[tactic(auto, using(crate::proofs::Search::found_before, crate::proofs::Search::found_after))]
pub fn hidden_type<'a>(term: &'a Term, ty: &Ty) -> Option<&'a Name>
    ensures { option_copied result ≡ hidden_of term.now ty.now }
{
    match term.node() {
        Node::Bound(_) => None,
        Node::Free { ty: part, .. } => hidden_in(part, ty),
        Node::Const { ty: part, .. } => hidden_in(part, ty),
        Node::App { fun, arg } => match hidden_type(fun, ty) {
            Some(name) => Some(name),
            None => hidden_type(arg, ty),
        },
        Node::Abs { ty: part, body } => match hidden_in(part, ty) {
            Some(name) => Some(name),
            None => hidden_type(body, ty),
        },
    }
}

/// Is the variable free in the term?
#[tactic(auto, using(crate::proofs::Unchanged::no_occurrence))]
pub fn occurs(name: &Name, ty: &Ty, term: &Term) -> bool
    ensures { result ≡ occurs name.now ty.now term.now }
{
    if !term.is_open() {
        return false;
    }
    match term.node() {
        Node::Bound(_) => false,
        Node::Free { name: a, ty: s } => a.equals(name) && s.equals(ty),
        Node::Const { .. } => false,
        Node::App { fun, arg } => occurs(name, ty, fun) || occurs(name, ty, arg),
        Node::Abs { body, .. } => occurs(name, ty, body),
    }
}

// Is the variable one of those?
fn is_variable_among(known: &[(Name, Ty)], name: &Name, ty: &Ty) -> bool
    ensures { result ≡ is_variable_among known.now name.now ty.now }
{
    for pair in known {
        if pair.0.equals(name) && pair.1.equals(ty) {
            return true;
        }
    }
    false
}

fn add_variable(known: &mut Items<(Name, Ty)>, name: &Name, ty: &Ty) -> Result<(), AllocError>
    ensures { OnOk result (known.new ≡ with_variable known.old name.now ty.now) }
{
    if is_variable_among(known.as_slice(), name, ty) {
        return Ok(());
    }
    known.push((name.copy()?, ty.copy()?))
}

/// Puts the free variables of the term that aren't there yet at the end, each once, in the order of their first places.
#[tactic(auto, using(crate::proofs::Unchanged::no_variables))]
pub fn add_variables(known: &mut Items<(Name, Ty)>, term: &Term) -> Result<(), AllocError>
    ensures { OnOk result (known.new ≡ with_variables known.old term.now) }
{
    if !term.is_open() {
        return Ok(());
    }
    match term.node() {
        Node::Bound(_) => Ok(()),
        Node::Free { name, ty } => add_variable(known, name, ty),
        Node::Const { .. } => Ok(()),
        Node::App { fun, arg } => {
            add_variables(known, fun)?;
            add_variables(known, arg)
        }
        Node::Abs { body, .. } => add_variables(known, body),
    }
}

/// The free variables of the term, each once, in the order of their first places.
pub fn free_variables(alloc: Global, term: &Term) -> Result<Items<(Name, Ty)>, AllocError>
    ensures { IfOk result (λ known. known ≡ variables_of term.now) }
{
    let mut known = Items::new(alloc);
    add_variables(&mut known, term)?;
    Ok(known)
}
