//! Written types without their places.

ghost use Rattle.std.specs.Prelude.{◌≡◌, IfOk};
ghost use Rattle.fp_raw.specs.Raws.{arguments};
ghost use Rattle.fp_constrain.specs.Subterms.{plain, all_plain};

use fp_raw::{RawType, RawTypeNode};
use fp_term::{Ty, Tys};
use std::alloc::{AllocError, Global};

/// The written type.
#[cycle(plain)]
pub fn plain_type(alloc: Global, ty: &RawType) -> Result<Ty, AllocError>
    ensures { IfOk result (λ t. t ≡ plain ty.now) }
{
    match ty.node() {
        RawTypeNode::Var(name) => {
            let ty = Ty::var(alloc, name.copy()?)?;
            Ok(ty)
        }
        RawTypeNode::Con { name, args } => {
            let args = plain_types(alloc, args.as_slice())?;
            let ty = Ty::con(alloc, name.copy()?, args)?;
            Ok(ty)
        }
    }
}

#[cycle(plain)]
fn plain_types(alloc: Global, types: &[RawType]) -> Result<Tys, AllocError>
    ensures { IfOk result (λ ts. ts ≡ all_plain (arguments types.now)) }
{
    match types {
        [] => Tys::end(alloc),
        [first, rest @ ..] => {
            let first = plain_type(alloc, first)?;
            let rest = plain_types(alloc, rest)?;
            Tys::more(alloc, first, rest)
        }
    }
}
