//! Terms in which nothing is left to be resolved as written terms: all their parts stand at one place.
ghost use Rattle.std.specs.Prelude.{◌≡◌, IfOk};
ghost use Rattle.fp_raw.specs.Raws.{full, full_type, full_types, arguments};

use crate::raw::Raw;
use crate::ty::RawType;
use fp_term::{Node, Term, Ty, TyNode, Tys, TysNode};
use std::alloc::{AllocError, Global};

/// The type as it is written at that place in the full form.
#[cycle(full_type)]
pub fn full_type(alloc: Global, ty: &Ty, at: u32) -> Result<RawType, AllocError>
    ensures { IfOk result (λ t. t ≡ full_type at ty.now) }
{
    match ty.node() {
        TyNode::Var(name) => RawType::var(alloc, name.copy()?, at),
        TyNode::Con { name, args } => {
            let args = full_arguments(alloc, args, at)?;
            RawType::con(alloc, name.copy()?, args, at)
        }
    }
}

#[cycle(full_type)]
#[tactic(auto, using(crate::proofs::Joined::joined_push, crate::proofs::Joined::joined_none))]
fn full_arguments(alloc: Global, types: &Tys, at: u32) -> Result<Vec<RawType>, AllocError>
    ensures { IfOk result (λ ts. arguments ts.items ≡ full_types at types.now) }
{
    let mut args = Vec::new(alloc);
    let mut rest = types;
    while let TysNode::More {
        first,
        rest: others,
    } = rest.node()
    {
        args.push(full_type(alloc, first, at)?)?;
        rest = others;
    }
    Ok(args)
}

/// The term as it is written at that place in the full form.
pub fn full(alloc: Global, term: &Term, at: u32) -> Result<Raw, AllocError>
    ensures { IfOk result (λ t. t ≡ full at term.now) }
{
    match term.node() {
        Node::Bound(number) => Raw::bound(alloc, *number, at),
        Node::Free { name, ty } => {
            let ty = full_type(alloc, ty, at)?;
            Raw::free(alloc, name.copy()?, ty, at)
        }
        Node::Const { name, ty } => {
            let ty = full_type(alloc, ty, at)?;
            Raw::constant(alloc, name.copy()?, Some(ty), at)
        }
        Node::App { fun, arg } => {
            let fun = full(alloc, fun, at)?;
            let arg = full(alloc, arg, at)?;
            Raw::app(alloc, fun, arg, at)
        }
        Node::Abs { ty, body } => {
            let ty = full_type(alloc, ty, at)?;
            let body = full(alloc, body, at)?;
            Raw::abs(alloc, None, Some(ty), body, at)
        }
    }
}
