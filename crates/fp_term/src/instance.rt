//! Putting terms in place of variables and types in place of type variables. What has none of them is answered as it is.
ghost use Rattle.std.specs.Prelude.{◌≡◌, IfOk};
ghost use Rattle.std.specs.Option.{option_copied};
ghost use Rattle.fp_term.specs.Types.{variable, applied, more, type_or, types_or, retyped, all_retyped};
ghost use Rattle.fp_term.specs.Terms.{free, constant, app, abs, or_else, replaced, found, retyped_term};

use crate::matching::find_type;
use crate::name::Name;
use crate::substitute::abstraction;
use crate::term::{Node, Term};
use crate::ty::{Ty, TyNode, Tys, TysNode};
use std::alloc::{AllocError, Global};

/// The term of the first pair for the variable.
pub fn find<'a>(name: &Name, ty: &Ty, pairs: &'a [(Name, Ty, Term)]) -> Option<&'a Term>
    ensures { option_copied result ≡ found name.now ty.now pairs.now }
{
    for pair in pairs {
        if pair.0.equals(name) && pair.1.equals(ty) {
            return Some(&pair.2);
        }
    }
    None
}

// The application of what became of the parts of one, where either changed.
fn applied_anew(
    alloc: Global,
    fun: &Term,
    arg: &Term,
    new_fun: Option<Term>,
    new_arg: Option<Term>,
) -> Result<Option<Term>, AllocError>
    ensures { IfOk result (λ o. or_else o (app fun.now arg.now) ≡ app (or_else new_fun fun.now) (or_else new_arg arg.now)) }
{
    match new_fun {
        Some(f) => match new_arg {
            Some(x) => Ok(Some(Term::app(alloc, f, x)?)),
            None => Ok(Some(Term::app(alloc, f, arg.copy()?)?)),
        },
        None => match new_arg {
            Some(x) => Ok(Some(Term::app(alloc, fun.copy()?, x)?)),
            None => Ok(None),
        },
    }
}

// What becomes of the term, where it doesn't stay as it is.
#[tactic(auto, using(crate::proofs::Unchanged::unreplaced))]
fn inst_in(
    alloc: Global,
    term: &Term,
    pairs: &[(Name, Ty, Term)],
) -> Result<Option<Term>, AllocError>
    ensures { IfOk result (λ o. or_else o term.now ≡ replaced pairs.now term.now) }
{
    if !term.is_open() {
        return Ok(None);
    }
    match term.node() {
        Node::Bound(_) => Ok(None),
        Node::Free { name, ty } => match find(name, ty, pairs) {
            Some(by) => Ok(Some(by.copy()?)),
            None => Ok(None),
        },
        Node::Const { .. } => Ok(None),
        Node::App { fun, arg } => {
            let new_fun = inst_in(alloc, fun, pairs)?;
            let new_arg = inst_in(alloc, arg, pairs)?;
            applied_anew(alloc, fun, arg, new_fun, new_arg)
        }
        Node::Abs { ty, body } => match inst_in(alloc, body, pairs)? {
            Some(body) => Ok(Some(abstraction(alloc, ty, body)?)),
            None => Ok(None),
        },
    }
}

/// The term with the terms of the pairs in place of their variables, all at once. Of several pairs for one variable the
/// first counts. A term that is put in has no loose number, or an abstraction around the variable would bind it.
pub fn inst(alloc: Global, term: &Term, pairs: &[(Name, Ty, Term)]) -> Result<Term, AllocError>
    ensures { IfOk result (λ t. t ≡ replaced pairs.now term.now) }
{
    match inst_in(alloc, term, pairs)? {
        Some(made) => Ok(made),
        None => term.copy(),
    }
}

// The list of what became of the parts of one, where either changed.
fn listed_anew(
    alloc: Global,
    first: &Ty,
    rest: &Tys,
    new_first: Option<Ty>,
    new_rest: Option<Tys>,
) -> Result<Option<Tys>, AllocError>
    ensures { IfOk result (λ o. types_or o (more first.now rest.now) ≡ more (type_or new_first first.now) (types_or new_rest rest.now)) }
{
    match new_first {
        Some(ty) => match new_rest {
            Some(tys) => Ok(Some(Tys::more(alloc, ty, tys)?)),
            None => Ok(Some(Tys::more(alloc, ty, rest.copy()?)?)),
        },
        None => match new_rest {
            Some(tys) => Ok(Some(Tys::more(alloc, first.copy()?, tys)?)),
            None => Ok(None),
        },
    }
}

// What becomes of the type, where it doesn't stay as it is.
#[cycle(retype)]
#[tactic(auto, using(crate::proofs::Unchanged::unretyped))]
fn retype_in(alloc: Global, ty: &Ty, pairs: &[(Name, Ty)]) -> Result<Option<Ty>, AllocError>
    ensures { IfOk result (λ o. type_or o ty.now ≡ retyped pairs.now ty.now) }
{
    if !ty.is_polymorphic() {
        return Ok(None);
    }
    match ty.node() {
        TyNode::Var(name) => match find_type(name, pairs) {
            Some(by) => Ok(Some(by.copy()?)),
            None => Ok(None),
        },
        TyNode::Con { name, args } => match retype_all_in(alloc, args, pairs)? {
            Some(args) => Ok(Some(Ty::con(alloc, name.copy()?, args)?)),
            None => Ok(None),
        },
    }
}

#[cycle(retype)]
#[tactic(auto, using(crate::proofs::Unchanged::all_unretyped))]
fn retype_all_in(alloc: Global, tys: &Tys, pairs: &[(Name, Ty)]) -> Result<Option<Tys>, AllocError>
    ensures { IfOk result (λ o. types_or o tys.now ≡ all_retyped pairs.now tys.now) }
{
    if !tys.is_polymorphic() {
        return Ok(None);
    }
    match tys.node() {
        TysNode::End => Ok(None),
        TysNode::More { first, rest } => {
            let new_first = retype_in(alloc, first, pairs)?;
            let new_rest = retype_all_in(alloc, rest, pairs)?;
            listed_anew(alloc, first, rest, new_first, new_rest)
        }
    }
}

/// The type with the types of the pairs in place of their type variables, all at once. Of several pairs for one variable
/// the first counts.
pub fn retype(alloc: Global, ty: &Ty, pairs: &[(Name, Ty)]) -> Result<Ty, AllocError>
    ensures { IfOk result (λ t. t ≡ retyped pairs.now ty.now) }
{
    match retype_in(alloc, ty, pairs)? {
        Some(made) => Ok(made),
        None => ty.copy(),
    }
}

// The abstraction of what became of the parts of one, where either changed.
fn abstracted_anew(
    alloc: Global,
    ty: &Ty,
    body: &Term,
    new_ty: Option<Ty>,
    new_body: Option<Term>,
) -> Result<Option<Term>, AllocError>
    ensures { IfOk result (λ o. or_else o (abs ty.now body.now) ≡ abs (type_or new_ty ty.now) (or_else new_body body.now)) }
{
    match new_ty {
        Some(s) => match new_body {
            Some(x) => Ok(Some(Term::abs(alloc, s, x)?)),
            None => Ok(Some(Term::abs(alloc, s, body.copy()?)?)),
        },
        None => match new_body {
            Some(x) => Ok(Some(abstraction(alloc, ty, x)?)),
            None => Ok(None),
        },
    }
}

fn retype_variable(
    alloc: Global,
    name: &Name,
    ty: &Ty,
    pairs: &[(Name, Ty)],
) -> Result<Option<Term>, AllocError>
    ensures { IfOk result (λ o. or_else o (free name.now ty.now) ≡ free name.now (retyped pairs.now ty.now)) }
{
    match retype_in(alloc, ty, pairs)? {
        Some(ty) => Ok(Some(Term::free(alloc, name.copy()?, ty)?)),
        None => Ok(None),
    }
}

fn retype_constant(
    alloc: Global,
    name: &Name,
    ty: &Ty,
    pairs: &[(Name, Ty)],
) -> Result<Option<Term>, AllocError>
    ensures { IfOk result (λ o. or_else o (constant name.now ty.now) ≡ constant name.now (retyped pairs.now ty.now)) }
{
    match retype_in(alloc, ty, pairs)? {
        Some(ty) => Ok(Some(Term::constant(alloc, name.copy()?, ty)?)),
        None => Ok(None),
    }
}

// What becomes of the term, where it doesn't stay as it is.
#[tactic(auto, using(crate::proofs::Unchanged::unretyped_term))]
fn inst_ty_in(alloc: Global, term: &Term, pairs: &[(Name, Ty)]) -> Result<Option<Term>, AllocError>
    ensures { IfOk result (λ o. or_else o term.now ≡ retyped_term pairs.now term.now) }
{
    if !term.is_polymorphic() {
        return Ok(None);
    }
    match term.node() {
        Node::Bound(_) => Ok(None),
        Node::Free { name, ty } => retype_variable(alloc, name, ty, pairs),
        Node::Const { name, ty } => retype_constant(alloc, name, ty, pairs),
        Node::App { fun, arg } => {
            let new_fun = inst_ty_in(alloc, fun, pairs)?;
            let new_arg = inst_ty_in(alloc, arg, pairs)?;
            applied_anew(alloc, fun, arg, new_fun, new_arg)
        }
        Node::Abs { ty, body } => {
            let new_body = inst_ty_in(alloc, body, pairs)?;
            let new_ty = retype_in(alloc, ty, pairs)?;
            abstracted_anew(alloc, ty, body, new_ty, new_body)
        }
    }
}

/// The term with the types of the pairs in place of their type variables, all at once. Of several pairs for one variable
/// the first counts.
pub fn inst_ty(alloc: Global, term: &Term, pairs: &[(Name, Ty)]) -> Result<Term, AllocError>
    ensures { IfOk result (λ t. t ≡ retyped_term pairs.now term.now) }
{
    match inst_ty_in(alloc, term, pairs)? {
        Some(made) => Ok(made),
        None => term.copy(),
    }
}
