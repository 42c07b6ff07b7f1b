//! Instances by terms and by types.
ghost use Rattle.std.specs.Prelude.{◌≡◌};
ghost use Rattle.fp_conclude.specs.Outcomes.{Answers};
ghost use Rattle.fp_conclude.specs.Rules.{inst_of, inst_ty_of};

use crate::checks::{all_fit, unknown_in_pairs, unknown_in_type_pairs};
use crate::fault::{self, RuleFault};
use fp_term::{Name, Place, Signature, Term, Ty};
use std::alloc::Global;

/// The instance by terms for variables of their types.
#[tactic(auto, using(crate::proofs::Outcomes::faults_then))]
pub fn inst(
    alloc: Global,
    signature: &Signature,
    pairs: &[(Name, Ty, Term)],
    given: &Term,
) -> Result<Term, RuleFault>
    ensures { Answers result (inst_of signature.now pairs.now given.now) }
{
    if let Some(name) = unknown_in_pairs(alloc, signature, pairs)? {
        return Err(fault::unknown_name(name));
    }
    if !all_fit(alloc, pairs)? {
        return Err(RuleFault::IllTyped(Place::here(alloc)));
    }
    Ok(fp_term::inst(alloc, given, pairs)?)
}

/// The instance by types for type variables.
pub fn inst_ty(
    alloc: Global,
    signature: &Signature,
    pairs: &[(Name, Ty)],
    given: &Term,
) -> Result<Term, RuleFault>
    ensures { Answers result (inst_ty_of signature.now pairs.now given.now) }
{
    if let Some(name) = unknown_in_type_pairs(signature, pairs) {
        return Err(fault::unknown_name(name));
    }
    Ok(fp_term::inst_ty(alloc, given, pairs)?)
}
