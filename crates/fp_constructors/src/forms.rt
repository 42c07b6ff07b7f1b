//! The form of a constructor's type.
ghost use Rattle.std.specs.Prelude.{◌≡◌, ◌++◌, Some, None, IfOk, OnOk, MatchOption};
ghost use Rattle.std.specs.List.{list_all};
ghost use Rattle.fp_term.specs.Types.{found_type};
ghost use Rattle.fp_term.specs.Variables.{is_among, type_names, all_type_names};
ghost use Rattle.fp_pattern.specs.Patterns.{arrow, outcome};
ghost use Rattle.fp_constructors.specs.Forms.{arguments, variable_names, parameters, are_distinct, is_within, unless_hidden, parameters_in, constructor_parameters};

use fp_term::{Items, Name, Signature, Ty, TyNode, Tys, TysNode};
use std::alloc::{AllocError, Global};

// What a function takes, and what it gives.
fn arrow(ty: &Ty) -> Option<(&Ty, &Ty)>
    ensures { MatchOption result (arrow ty.now ≡ None) (λ pair. arrow ty.now ≡ Some (pair.0.now, pair.1.now)) }
{
    match ty.node() {
        TyNode::Var(_) => None,
        TyNode::Con { name, args } => match args.node() {
            TysNode::End => None,
            TysNode::More { first: from, rest } => match rest.node() {
                TysNode::End => None,
                TysNode::More {
                    first: to,
                    rest: end,
                } => match end.node() {
                    TysNode::End => if name.is_function() {
                        Some((from, to))
                    } else {
                        None
                    },
                    TysNode::More { .. } => None,
                },
            },
        },
    }
}

// Puts the types of the arguments at the end of the list, and gives the type of the value.
#[tactic(auto, using(fp_pattern::proofs::Arrows::outcome_arrow, fp_pattern::proofs::Arrows::outcome_none, crate::proofs::Taking::arguments_arrow, crate::proofs::Taking::arguments_none))]
pub fn add_arguments<'a>(args: &mut Items<Ty>, ty: &'a Ty) -> Result<&'a Ty, AllocError>
    ensures arguments { OnOk result (args.new ≡ args.old ++ arguments ty.now) }
    ensures outcome { IfOk result (λ t. t.now ≡ outcome ty.now) }
{
    match arrow(ty) {
        Some((from, to)) => {
            args.push(from.copy()?)?;
            add_arguments(args, to)
        }
        None => Ok(ty),
    }
}

// The names before and those of the types, where all of these are type variables.
fn variable_names(before: Items<Name>, tys: &Tys) -> Result<Option<Items<Name>>, AllocError>
    ensures { IfOk result (λ o. o ≡ variable_names before tys.now) }
{
    match tys.node() {
        TysNode::End => Ok(Some(before)),
        TysNode::More { first, rest } => match first.node() {
            TyNode::Var(name) => variable_names(before.appended(name.copy()?)?, rest),
            TyNode::Con { .. } => Ok(None),
        },
    }
}

// The parameters of a type of that name which is applied to type variables.
fn parameters(alloc: Global, name: &Name, ty: &Ty) -> Result<Option<Items<Name>>, AllocError>
    ensures { IfOk result (λ o. o ≡ parameters name.now ty.now) }
{
    match ty.node() {
        TyNode::Var(_) => Ok(None),
        TyNode::Con { name: own, args } => {
            if own.equals(name) {
                variable_names(Items::new(alloc), args)
            } else {
                Ok(None)
            }
        }
    }
}

/// Is the name one of those?
pub fn is_among(names: &[Name], name: &Name) -> bool
    ensures { result ≡ is_among names.now name.now }
{
    for other in names {
        if other.equals(name) {
            return true;
        }
    }
    false
}

fn are_distinct(names: &[Name]) -> bool
    ensures { result ≡ are_distinct names.now }
{
    match names.split_first() {
        Some((first, rest)) => !is_among(rest, first) && are_distinct(rest),
        None => true,
    }
}

// Are all type variables of the type among those?
#[cycle(within)]
fn is_within(params: &[Name], ty: &Ty) -> bool
    ensures { result ≡ is_within params.now ty.now }
{
    match ty.node() {
        TyNode::Var(name) => is_among(params, name),
        TyNode::Con { args, .. } => are_within(params, args),
    }
}

#[cycle(within)]
#[tactic(auto, using(crate::proofs::Taking::all_append))]
fn are_within(params: &[Name], tys: &Tys) -> bool
    ensures { result ≡ list_all (is_among params.now) (all_type_names tys.now) }
{
    match tys.node() {
        TysNode::End => true,
        TysNode::More { first, rest } => is_within(params, first) && are_within(params, rest),
    }
}

fn all_within(params: &[Name], tys: &[Ty]) -> bool
    ensures { result ≡ list_all (is_within params.now) tys.now }
{
    tys.iter().all(|ty| is_within(params, ty))
}

// The parameters, where they are distinct and have all type variables of the arguments.
fn unless_hidden(params: Option<Items<Name>>, args: &[Ty]) -> Option<Items<Name>>
    ensures { result ≡ unless_hidden params args.now }
{
    let params = params?;
    if are_distinct(params.as_slice()) && all_within(params.as_slice(), args) {
        Some(params)
    } else {
        None
    }
}

// The parameters of a type of a constructor of the type of that name.
fn parameters_in(alloc: Global, name: &Name, ty: &Ty) -> Result<Option<Items<Name>>, AllocError>
    ensures { IfOk result (λ o. o ≡ parameters_in name.now ty.now) }
{
    if name.is_function() {
        return Ok(None);
    }
    let mut args = Items::new(alloc);
    let value = add_arguments(&mut args, ty)?;
    let params = parameters(alloc, name, value)?;
    Ok(unless_hidden(params, args.as_slice()))
}

/// The parameters of the type at which the constant is a constructor of the type of that name.
pub fn constructor_parameters(
    alloc: Global,
    signature: &Signature,
    name: &Name,
    con: &Name,
) -> Result<Option<Items<Name>>, AllocError>
    ensures { IfOk result (λ o. o ≡ constructor_parameters signature.now name.now con.now) }
{
    match signature.const_type(con) {
        Some(ty) => parameters_in(alloc, name, ty),
        None => Ok(None),
    }
}
