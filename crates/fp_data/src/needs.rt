//! Needed theorems, looked up.
ghost use Rattle.std.specs.Prelude.{◌≡◌};
ghost use Rattle.fp_kernel.specs.Start.{signature_of};
ghost use Rattle.fp_theory.specs.State.{found_theorem};
ghost use Rattle.fp_constructors.specs.Answers.{Needs};
ghost use Rattle.fp_data.specs.Lacking.{states, Lacking};

use crate::fault::{self, LackFault};
use fp_constructors::{ConFault, Needed};
use fp_group::ConType;
use fp_term::{Items, same};
use fp_theory::Theory;
use std::alloc::Global;

// Has the theory a theorem of that name and statement?
fn is_there(theory: &Theory, needed: &Needed) -> bool
    ensures { result ≡ states (found_theorem needed.now.name theory.now.named) needed.now.statement }
{
    match theory.find(&needed.name) {
        Some(theorem) => same(theorem.concl(), &needed.statement),
        None => false,
    }
}

/// Has the theory each of the theorems? Else the first that it lacks is told.
pub fn need(theory: &Theory, table: &[Needed]) -> Result<(), LackFault>
    ensures { Lacking theory.now.named table.now result }
{
    for needed in table {
        if !is_there(theory, needed) {
            return Err(fault::lacks(&needed.name));
        }
    }
    Ok(())
}

/// The theorems that make the constants the constructors of the type, in their order: that each value is one of them, that
/// each with arguments is injective, and that no two give one value.
pub fn constructor_needs(
    alloc: Global,
    theory: &Theory,
    ty: &ConType,
) -> Result<Items<Needed>, ConFault>
    ensures { Needs (signature_of theory.now.defs) ty.now result }
{
    fp_constructors::constructor_needs(alloc, theory.signature(), ty)
}
