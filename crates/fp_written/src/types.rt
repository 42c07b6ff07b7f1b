//! Types that are made part by part: a constructor may still get arguments in front.
ghost use Rattle.std.specs.Prelude.{◌≡◌, ◌∷◌, ◌++◌, [], suc, max, reverse, IfOk, codes, None, Some, IsTrue};
ghost use Rattle.fp_term.specs.Names.{is_name};
ghost use Rattle.fp_raw.specs.Raws.{raw_variable, raw_applied, raw_none, raw_more, arguments};
ghost use Rattle.fp_written.specs.Trees.{ty_operator, ty_pair, with_arg};
ghost use Rattle.fp_written.specs.Machine.{sized_ty, deeper_ty, post_made, ty_infix_made, arg_made};
ghost use Rattle.fp_written.specs.TypeViews.{head_of, sized_type_of};

use crate::moves::plus;
use fp_raw::RawType;
use fp_term::Name;
use fp_words::Infix;
use std::alloc::{AllocError, Global};

/// A type variable, or a constructor with its arguments so far, the last first.
#[derive(Drop)]
pub(crate) enum Head {
    Var(Name),
    Con { name: Name, args: Vec<RawType> },
}

/// A type that was made, and its depth as written.
#[derive(Drop)]
pub(crate) struct TypePart {
    pub(crate) head: Head,
    pub(crate) at: u32,
    pub(crate) depth: u32,
}

#[tactic(auto, unfolding(fp_term::specs::Names::is_name))]
fn operator_name(o: Infix) -> &'static [u8]
    ensures is { result.now ≡ ty_operator o }
    ensures form { IsTrue (is_name result.now) }
{
    match o {
        Infix::Plus => b"sum",
        Infix::Times => b"prod",
        _ => b"fun",
    }
}

// The constructor at its arguments, of which the last comes first.
fn applied(alloc: Global, name: Name, args: Vec<RawType>, at: u32) -> Result<RawType, AllocError>
    ensures { IfOk result (λ t. t ≡ raw_applied name (arguments (reverse args.items)) at) }
{
    let mut args = args;
    args.reverse();
    RawType::con(alloc, name, args, at)
}

/// The whole type.
pub(crate) fn whole_type(alloc: Global, part: TypePart) -> Result<RawType, AllocError>
    ensures { IfOk result (λ t. t ≡ head_of part.head part.at) }
{
    let TypePart { head, at, .. } = part;
    match head {
        Head::Var(name) => RawType::var(alloc, name, at),
        Head::Con { name, args } => applied(alloc, name, args, at),
    }
}

/// A type variable.
pub(crate) fn variable(name: &Name, at: u32) -> Result<TypePart, AllocError>
    ensures { IfOk result (λ p. sized_type_of p ≡ sized_ty (raw_variable name.now at) 1) }
{
    let head = Head::Var(name.copy()?);
    Ok(TypePart { head, at, depth: 1 })
}

/// A constructor without arguments.
pub(crate) fn constructor(alloc: Global, name: &Name, at: u32) -> Result<TypePart, AllocError>
    ensures { IfOk result (λ p. sized_type_of p ≡ sized_ty (raw_applied name.now raw_none at) 1) }
{
    let head = Head::Con {
        name: name.copy()?,
        args: Vec::new(alloc),
    };
    Ok(TypePart { head, at, depth: 1 })
}

fn one(alloc: Global, ty: RawType) -> Result<Vec<RawType>, AllocError>
    ensures { IfOk result (λ all. all.items ≡ ty ∷ []) }
{
    let mut all = Vec::new(alloc);
    all.push(ty)?;
    Ok(all)
}

fn pushed(all: Vec<RawType>, ty: RawType) -> Result<Vec<RawType>, AllocError>
    ensures { IfOk result (λ more. more.items ≡ all.items ++ ty ∷ []) }
{
    let mut all = all;
    all.push(ty)?;
    Ok(all)
}

/// A constructor behind its one argument.
pub(crate) fn postfix(
    alloc: Global,
    name: &Name,
    at: u32,
    part: TypePart,
) -> Result<TypePart, AllocError>
    ensures { IfOk result (λ p. sized_type_of p ≡ post_made name.now at (sized_type_of part)) }
{
    let depth = plus(part.depth, 1)?;
    let args = one(alloc, whole_type(alloc, part)?)?;
    let head = Head::Con {
        name: name.copy()?,
        args,
    };
    Ok(TypePart { head, at, depth })
}

/// Two types with an operator between them.
pub(crate) fn joined(
    alloc: Global,
    o: Infix,
    at: u32,
    left: TypePart,
    right: TypePart,
) -> Result<TypePart, AllocError>
    ensures { IfOk result (λ p. sized_type_of p ≡ ty_infix_made o at (sized_type_of left) (sized_type_of right)) }
{
    let depth = plus(left.depth.max(right.depth), 1)?;
    let args = one(alloc, whole_type(alloc, right)?)?;
    let args = pushed(args, whole_type(alloc, left)?)?;
    let name = Name::of(alloc, operator_name(o))?;
    let head = Head::Con { name, args };
    Ok(TypePart { head, at, depth })
}

fn in_front(head: Head, ty: RawType, at: u32) -> Result<Head, AllocError>
    ensures { IfOk result (λ h. head_of h at ≡ with_arg ty (head_of head at)) }
{
    match head {
        Head::Var(name) => Ok(Head::Var(name)),
        Head::Con { name, args } => Ok(Head::Con {
            name,
            args: pushed(args, ty)?,
        }),
    }
}

/// The second type with the first as one more argument in front.
pub(crate) fn argued(
    alloc: Global,
    first: TypePart,
    second: TypePart,
) -> Result<TypePart, AllocError>
    ensures { IfOk result (λ p. sized_type_of p ≡ arg_made (sized_type_of first) (sized_type_of second)) }
{
    let depth = plus(first.depth, 1)?.max(second.depth);
    let ty = whole_type(alloc, first)?;
    let TypePart { head, at, .. } = second;
    let head = in_front(head, ty, at)?;
    Ok(TypePart { head, at, depth })
}

/// The type in parentheses.
pub(crate) fn deeper(part: TypePart) -> Result<TypePart, AllocError>
    ensures { IfOk result (λ p. sized_type_of p ≡ deeper_ty (sized_type_of part)) }
{
    let depth = plus(part.depth, 1)?;
    let TypePart { head, at, .. } = part;
    Ok(TypePart { head, at, depth })
}
