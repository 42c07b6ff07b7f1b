//! Which theorem says that two values are equal, or aren't.
ghost use Rattle.std.specs.Prelude.{◌≡◌, ◌++◌, codes, IfOk};
ghost use Rattle.fp_constructors.specs.Needed.{inject_name, apart_name};
ghost use Rattle.fp_values.specs.Shapes.{names_of};
ghost use Rattle.fp_values.specs.Values.{apart_by, name_for, of_names, stands_before};

use crate::value::{names_of, stands_before};
use fp_group::ConType;
use fp_term::{Name, Node, Term, Ty};
use std::alloc::{AllocError, Global};

/// The name with an ending. Where it would be longer than names are, want of memory is answered.
pub(crate) fn extended(alloc: Global, name: &Name, ending: &[u8]) -> Result<Name, AllocError>
    ensures { IfOk result (λ n. n ≡ name.now ++ ending.now) }
{
    let mut bytes = Vec::from_slice(alloc, name.as_slice())?;
    bytes.extend_from_slice(ending)?;
    match Name::new(alloc, bytes.as_slice())? {
        Some(name) => Ok(name),
        None => Err(AllocError),
    }
}

fn inject_name(alloc: Global, con: &Name) -> Result<Name, AllocError>
    ensures { IfOk result (λ n. n ≡ inject_name con.now) }
{
    extended(alloc, con, b"_inject")
}

// `_not_D`
fn apart_ending(alloc: Global, other: &Name) -> Result<Vec<u8>, AllocError>
    ensures { IfOk result (λ bytes. bytes.items ≡ codes "_not_" ++ other.now) }
{
    let mut bytes = Vec::from_slice(alloc, b"_not_")?;
    bytes.extend_from_slice(other.as_slice())?;
    Ok(bytes)
}

fn apart_name(alloc: Global, con: &Name, other: &Name) -> Result<Name, AllocError>
    ensures { IfOk result (λ n. n ≡ apart_name con.now other.now) }
{
    let ending = apart_ending(alloc, other)?;
    extended(alloc, con, ending.as_slice())
}

// `C_not_D` for the two in the order in which the type has them.
fn apart_by(alloc: Global, first: bool, con: &Name, other: &Name) -> Result<Name, AllocError>
    ensures { IfOk result (λ n. n ≡ apart_by first con.now other.now) }
{
    if first {
        apart_name(alloc, con, other)
    } else {
        apart_name(alloc, other, con)
    }
}

// The name of the theorem about two constructors of the type, the first one with these arguments.
fn name_of(
    alloc: Global,
    names: &[Name],
    con: &Name,
    other: &Name,
    args: &[Term],
) -> Result<Option<Name>, AllocError>
    ensures { IfOk result (λ o. o ≡ of_names names.now con.now other.now args.now) }
{
    if con.equals(other) {
        if args.is_empty() {
            Ok(None)
        } else {
            Ok(Some(inject_name(alloc, con)?))
        }
    } else {
        let first = stands_before(names, con, other);
        Ok(Some(apart_by(alloc, first, con, other)?))
    }
}

/// The name of the theorem that says what the equation of two values of the type comes to; none where nothing is to be
/// said.
pub(crate) fn name_for(
    alloc: Global,
    types: &[ConType],
    whole: &Ty,
    head: &Term,
    other: &Term,
    args: &[Term],
) -> Result<Option<Name>, AllocError>
    ensures { IfOk result (λ o. o ≡ name_for types.now whole.now head.now other.now args.now) }
{
    match (head.node(), other.node()) {
        (
            Node::Const { name, .. },
            Node::Const {
                name: other_name,
                ..
            },
        ) => name_of(alloc, names_of(types, whole), name, other_name, args),
        _ => Ok(None),
    }
}
