//! Matching of types, beside the pairs that are there.
ghost use Rattle.std.specs.Prelude.{◌≡◌, [], ◌∷◌, ◌++◌, Some, None, IfOk, MatchBool};
ghost use Rattle.fp_term.specs.Types.{found_type, bound_to};
ghost use Rattle.fp_term.specs.Typing.{type_under};
ghost use Rattle.fp_match.specs.Walk.{put_types, matched_type};

use crate::inst::push_type;
use fp_term::{Items, Name, Term, Ty, TypeOfFault, find_type, match_ty, type_of};
use std::alloc::{AllocError, Global};

// Adds the pair where there is none for the name, and says whether the name's pair is this one.
fn put_type(types: &mut Items<(Name, Ty)>, name: &Name, ty: &Ty) -> Result<bool, AllocError>
    ensures { IfOk result (λ yes. MatchBool yes (bound_to (found_type name.now types.old) name.now ty.now types.old ≡ Some types.new) (bound_to (found_type name.now types.old) name.now ty.now types.old ≡ None)) }
{
    match find_type(name, types.as_slice()) {
        Some(known) => Ok(known.equals(ty)),
        None => {
            push_type(types, name, ty)?;
            Ok(true)
        }
    }
}

// Adds the pairs up to the first that differs from a known one, and says whether there is no such pair.
fn put_all_types(types: &mut Items<(Name, Ty)>, pairs: &[(Name, Ty)]) -> Result<bool, AllocError>
    ensures { IfOk result (λ yes. MatchBool yes (put_types types.old pairs.now ≡ Some types.new) (put_types types.old pairs.now ≡ None)) }
{
    for pair in pairs {
        if !put_type(types, &pair.0, &pair.1)? {
            return Ok(false);
        }
    }
    Ok(true)
}

// Adds the pairs that make the pattern equal to the type, and says whether there are any that agree with the known ones.
pub(crate) fn match_type(
    alloc: Global,
    types: &mut Items<(Name, Ty)>,
    pattern: &Ty,
    ty: &Ty,
) -> Result<bool, AllocError>
    ensures { IfOk result (λ yes. MatchBool yes (matched_type types.old pattern.now ty.now ≡ Some types.new) (matched_type types.old pattern.now ty.now ≡ None)) }
{
    match match_ty(alloc, pattern, ty)? {
        Some(pairs) => put_all_types(types, pairs.as_slice()),
        None => Ok(false),
    }
}

// The type that the term has under no abstractions, if it has one.
#[tactic(auto, using(crate::proofs::Untyped::untyped))]
pub(crate) fn own_type(alloc: Global, term: &Term) -> Result<Option<Ty>, AllocError>
    ensures { IfOk result (λ o. o ≡ type_under [] term.now) }
{
    match type_of(alloc, term) {
        Ok(ty) => Ok(Some(ty)),
        Err(TypeOfFault::IllTyped(_)) => Ok(None),
        Err(TypeOfFault::NoMemory) => Err(AllocError),
    }
}
