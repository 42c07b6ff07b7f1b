//! Constructors with the types of their arguments.
ghost use Rattle.std.specs.Prelude.{◌≡◌, ◌++◌, map, Some, None, IfOk, OnOk, MatchOption};
ghost use Rattle.fp_term.specs.Types.{retyped, found_type, applied};
ghost use Rattle.fp_constructors.specs.Forms.{arguments, constructor_parameters};
ghost use Rattle.fp_constructors.specs.Naming.{lettered};
ghost use Rattle.fp_constructors.specs.Needed.{Shape, shape_of, whole_of, or_none, arguments_of};
ghost use Rattle.fp_constructors.specs.Shapes.{seen_shape};

use crate::forms::{add_arguments, constructor_parameters};
use crate::naming::{lettered, letters_from};
use fp_term::{Items, Name, Signature, Ty, retype};
use std::alloc::{AllocError, Global};

/// A constructor with the types of its arguments.
#[derive(Drop)]
pub struct Shape {
    pub con: Name,
    pub args: Items<Ty>,
}

fn all_retyped(alloc: Global, tys: &[Ty], pairs: &[(Name, Ty)]) -> Result<Items<Ty>, AllocError>
    ensures { IfOk result (λ made. made ≡ map (retyped pairs.now) tys.now) }
{
    let mut made = Items::new(alloc);
    for ty in tys {
        made.push(retype(alloc, ty, pairs)?)?;
    }
    Ok(made)
}

// The parameters, none where the constant isn't a constructor of the type.
fn known_parameters(
    alloc: Global,
    signature: &Signature,
    name: &Name,
    con: &Name,
) -> Result<Items<Name>, AllocError>
    ensures { IfOk result (λ names. names ≡ or_none (constructor_parameters signature.now name.now con.now)) }
{
    match constructor_parameters(alloc, signature, name, con)? {
        Some(params) => Ok(params),
        None => Ok(Items::new(alloc)),
    }
}

fn arguments_of(alloc: Global, signature: &Signature, con: &Name) -> Result<Items<Ty>, AllocError>
    ensures { IfOk result (λ args. args ≡ arguments_of (found_type con.now signature.now.consts)) }
{
    let mut args = Items::new(alloc);
    if let Some(ty) = signature.const_type(con) {
        add_arguments(&mut args, ty)?;
    }
    Ok(args)
}

/// The constructor, with its type's parameters named by the first type variables.
pub fn shape_of(
    alloc: Global,
    signature: &Signature,
    name: &Name,
    con: &Name,
) -> Result<Shape, AllocError>
    ensures { IfOk result (λ shape. seen_shape shape ≡ shape_of signature.now name.now con.now) }
{
    let params = known_parameters(alloc, signature, name, con)?;
    let pairs = lettered(alloc, params.as_slice())?;
    let args = arguments_of(alloc, signature, con)?;
    Ok(Shape {
        con: con.copy()?,
        args: all_retyped(alloc, args.as_slice(), pairs.as_slice())?,
    })
}

/// The type, applied to the first type variables.
pub fn whole_of(
    alloc: Global,
    signature: &Signature,
    name: &Name,
    cons: &[Name],
) -> Result<Ty, AllocError>
    ensures { IfOk result (λ ty. ty ≡ whole_of signature.now name.now cons.now) }
{
    let params = match cons.first() {
        Some(con) => known_parameters(alloc, signature, name, con)?,
        None => Items::new(alloc),
    };
    let letters = letters_from(alloc, 0, params.as_slice())?;
    Ty::con(alloc, name.copy()?, letters)
}

/// The constructors, with their type's parameters named by the first type variables.
pub fn shapes_of(
    alloc: Global,
    signature: &Signature,
    name: &Name,
    cons: &[Name],
) -> Result<Items<Shape>, AllocError>
    ensures { IfOk result (λ shapes. map seen_shape shapes ≡ map (shape_of signature.now name.now) cons.now) }
{
    let mut shapes = Items::new(alloc);
    for con in cons {
        shapes.push(shape_of(alloc, signature, name, con)?)?;
    }
    Ok(shapes)
}
