//! The type variables that a term writes, with those of what is asked of it.

ghost use Rattle.std.specs.Prelude.{◌≡◌, ◌++◌, IfOk};
ghost use Rattle.std.specs.Option.{option_copied};
ghost use Rattle.fp_term.specs.Variables.{type_names, all_type_names};
ghost use Rattle.fp_raw.specs.Raws.{arguments};
ghost use Rattle.fp_constrain.specs.Subterms.{plain, all_plain};
ghost use Rattle.fp_infer.specs.Names.{written_in, written_in_option, written_in_pairs, written_in_want};
ghost use Rattle.fp_infer.specs.Held.{written_for};

use fp_constrain::Question;
use fp_raw::{Raw, RawNode, RawType, RawTypeNode};
use fp_term::{Name, Ty, TyNode, Tys, TysNode};
use std::alloc::{AllocError, Global};

#[cycle(add_type)]
fn add_type(names: &mut Vec<Name>, ty: &Ty) -> Result<(), AllocError>
    ensures { IfOk result (λ _. names.new.items ≡ names.old.items ++ type_names ty.now) }
{
    match ty.node() {
        TyNode::Var(name) => {
            names.push(name.copy()?)?;
            Ok(())
        }
        TyNode::Con { args, .. } => {
            add_types(names, args)?;
            Ok(())
        }
    }
}

#[cycle(add_type)]
fn add_types(names: &mut Vec<Name>, types: &Tys) -> Result<(), AllocError>
    ensures { IfOk result (λ _. names.new.items ≡ names.old.items ++ all_type_names types.now) }
{
    match types.node() {
        TysNode::End => Ok(()),
        TysNode::More { first, rest } => {
            add_type(names, first)?;
            add_types(names, rest)?;
            Ok(())
        }
    }
}

#[cycle(add_raw_type)]
fn add_raw_type(names: &mut Vec<Name>, ty: &RawType) -> Result<(), AllocError>
    ensures { IfOk result (λ _. names.new.items ≡ names.old.items ++ type_names (plain ty.now)) }
{
    match ty.node() {
        RawTypeNode::Var(name) => {
            names.push(name.copy()?)?;
            Ok(())
        }
        RawTypeNode::Con { args, .. } => {
            add_raw_types(names, args.as_slice())?;
            Ok(())
        }
    }
}

#[cycle(add_raw_type)]
fn add_raw_types(names: &mut Vec<Name>, types: &[RawType]) -> Result<(), AllocError>
    ensures { IfOk result (λ _. names.new.items ≡ names.old.items ++ all_type_names (all_plain (arguments types.now))) }
{
    match types {
        [] => Ok(()),
        [first, rest @ ..] => {
            add_raw_type(names, first)?;
            add_raw_types(names, rest)?;
            Ok(())
        }
    }
}

fn add_option(names: &mut Vec<Name>, ty: &Option<RawType>) -> Result<(), AllocError>
    ensures { IfOk result (λ _. names.new.items ≡ names.old.items ++ written_in_option ty.now) }
{
    match ty {
        None => Ok(()),
        Some(ty) => {
            add_raw_type(names, ty)?;
            Ok(())
        }
    }
}

#[cycle(add_raw)]
fn add_raw(names: &mut Vec<Name>, raw: &Raw) -> Result<(), AllocError>
    ensures { IfOk result (λ _. names.new.items ≡ names.old.items ++ written_in raw.now) }
{
    match raw.node() {
        RawNode::Name(_) => Ok(()),
        RawNode::Bound(_) => Ok(()),
        RawNode::Free { ty, .. } => {
            add_raw_type(names, ty)?;
            Ok(())
        }
        RawNode::Const { ty, .. } => {
            add_option(names, ty)?;
            Ok(())
        }
        RawNode::App { fun, arg } => {
            add_raw(names, fun)?;
            add_raw(names, arg)?;
            Ok(())
        }
        RawNode::Abs { ty, body, .. } => {
            add_option(names, ty)?;
            add_raw(names, body)?;
            Ok(())
        }
        RawNode::Typed { term, ty } => {
            add_raw(names, term)?;
            add_raw_type(names, ty)?;
            Ok(())
        }
    }
}

fn add_pairs(names: &mut Vec<Name>, pairs: &[(Name, Ty)]) -> Result<(), AllocError>
    ensures { IfOk result (λ _. names.new.items ≡ names.old.items ++ written_in_pairs pairs.now) }
{
    for pair in pairs {
        add_type(names, &pair.1)?;
    }
    Ok(())
}

fn add_want(names: &mut Vec<Name>, want: Option<&Ty>) -> Result<(), AllocError>
    ensures { IfOk result (λ _. names.new.items ≡ names.old.items ++ written_in_want (option_copied want.entry)) }
{
    match want {
        None => Ok(()),
        Some(ty) => {
            add_type(names, ty)?;
            Ok(())
        }
    }
}

/// The type variables that count as written.
pub(crate) fn written_names(alloc: Global, question: &Question<'_>) -> Result<Vec<Name>, AllocError>
    ensures { IfOk result (λ names. names.items ≡ written_for question.now) }
{
    let mut names = Vec::new(alloc);
    add_pairs(&mut names, question.constants.exact)?;
    add_pairs(&mut names, question.given)?;
    add_want(&mut names, question.want)?;
    add_raw(&mut names, question.raw)?;
    Ok(names)
}
