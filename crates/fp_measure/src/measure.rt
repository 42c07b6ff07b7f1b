//! Which terms are measures.
ghost use Rattle.std.specs.Prelude.{◌≡◌, IfOk, MatchBool, codes};
ghost use Rattle.fp_term.specs.Names.{is_name};
ghost use Rattle.fp_measure.specs.Sources.{natural, IsMeasure};

use fp_term::{Name, Term, Ty, TypeOfFault, Tys, function_of, type_of};
use std::alloc::{AllocError, Global};

/// The type of the natural numbers.
#[tactic(auto, unfolding(fp_term::specs::Names::is_name))]
pub fn natural(alloc: Global) -> Result<Ty, AllocError>
    ensures { IfOk result (λ ty. ty ≡ natural) }
{
    let name = Name::of(alloc, b"nat")?;
    Ty::con(alloc, name, Tys::end(alloc)?)
}

/// Is the term a closed one from the type into the natural numbers?
#[tactic(auto, using(crate::proofs::Tested::open_none, crate::proofs::Tested::untyped_none))]
pub fn is_measure(alloc: Global, ty: &Ty, term: &Term) -> Result<bool, AllocError>
    ensures { IfOk result (λ yes. MatchBool yes (IsMeasure ty.now term.now) (IsMeasure ty.now term.now → ⊥)) }
{
    if term.is_open() {
        return Ok(false);
    }
    let wanted = function_of(alloc, ty.copy()?, natural(alloc)?)?;
    match type_of(alloc, term) {
        Ok(found) => Ok(found.equals(&wanted)),
        Err(TypeOfFault::IllTyped(place)) => {
            drop(place);
            Ok(false)
        }
        Err(TypeOfFault::NoMemory) => Err(AllocError),
    }
}
