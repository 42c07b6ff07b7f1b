//! Written terms and types as text: each node is its form, its parts and the place of its token.

use crate::text::Text;
use fp_raw::{Raw, RawNode, RawType, RawTypeNode};
use fp_term::Name;
use std::alloc::AllocError;

/// A written type.
#[cycle(put_type)]
pub fn put_type(text: &mut Text, ty: &RawType) -> Result<(), AllocError> {
    match ty.node() {
        RawTypeNode::Var(name) => {
            text.put("(var")?;
            text.put_name(name)?;
        }
        RawTypeNode::Con { name, args } => {
            text.put("(con")?;
            text.put_name(name)?;
            put_types(text, args.as_slice())?;
        }
    }
    text.put_end(ty.place())
}

// The types, each behind a space.
#[cycle(put_type)]
fn put_types(text: &mut Text, types: &[RawType]) -> Result<(), AllocError> {
    match types {
        [] => Ok(()),
        [first, rest @ ..] => {
            text.put(" ")?;
            put_type(text, first)?;
            put_types(text, rest)
        }
    }
}

// A name that may be missing.
fn put_name_or_none(text: &mut Text, name: &Option<Name>) -> Result<(), AllocError> {
    match name {
        Some(name) => text.put_name(name),
        None => text.put(" -"),
    }
}

// A type that may be missing.
fn put_type_or_none(text: &mut Text, ty: &Option<RawType>) -> Result<(), AllocError> {
    match ty {
        Some(ty) => {
            text.put(" ")?;
            put_type(text, ty)
        }
        None => text.put(" -"),
    }
}

// What a node without parts is.
fn put_leaf(text: &mut Text, node: &RawNode) -> Result<(), AllocError> {
    match node {
        RawNode::Name(name) => {
            text.put("(name")?;
            text.put_name(name)
        }
        RawNode::Bound(number) => text.put_number("(bound ", *number),
        RawNode::Free { name, ty } => {
            text.put("(free")?;
            text.put_name(name)?;
            text.put(" ")?;
            put_type(text, ty)
        }
        RawNode::Const { name, ty } => {
            text.put("(const")?;
            text.put_name(name)?;
            put_type_or_none(text, ty)
        }
        RawNode::App { .. } | RawNode::Abs { .. } | RawNode::Typed { .. } => Ok(()),
    }
}

/// A written term.
#[cycle(put_term)]
pub fn put_term(text: &mut Text, term: &Raw) -> Result<(), AllocError> {
    match term.node() {
        RawNode::App { fun, arg } => {
            text.put("(app ")?;
            put_term(text, fun)?;
            text.put(" ")?;
            put_term(text, arg)?;
        }
        RawNode::Abs { name, ty, body } => {
            text.put("(abs")?;
            put_name_or_none(text, name)?;
            put_type_or_none(text, ty)?;
            text.put(" ")?;
            put_term(text, body)?;
        }
        RawNode::Typed { term, ty } => {
            text.put("(typed ")?;
            put_term(text, term)?;
            text.put(" ")?;
            put_type(text, ty)?;
        }
        leaf => put_leaf(text, leaf)?,
    }
    text.put_end(term.place())
}
