//! Instances of an equation that make its left side a given term.
ghost use Rattle.std.specs.Prelude.{◌≡◌, IfOk, MatchOption};
ghost use Rattle.fp_term.specs.Terms.{term_eq, replaced, retyped_term};
ghost use Rattle.fp_match.specs.Instances.{AreFirst};
ghost use Rattle.fp_conclude.specs.Logic.{equal};
ghost use Rattle.fp_kernel.specs.Definitions.{Within};
ghost use Rattle.fp_kernel.specs.Start.{signature_of};
ghost use Rattle.fp_conv.specs.Equations.{IsTyped, Equates};
ghost use Rattle.fp_conv.specs.Outermost.{Instance, IsAllowed, Becomes, keeps_all};

use crate::steps::{inst_known, inst_ty_known};
use fp_conclude::Equation;
use fp_kernel::{Defs, Thm};
use fp_match::{Inst, match_term};
use fp_term::{Term, inst, inst_ty, same};
use std::alloc::{AllocError, Global};

// Does the instance leave the term as it is?
fn keeps(alloc: Global, instance: &Inst, term: &Term) -> Result<bool, AllocError>
    ensures { IfOk result (λ yes. yes ≡ term_eq (replaced instance.now.terms
        (retyped_term instance.now.types term.now)) term.now) }
{
    let retyped = inst_ty(alloc, term, instance.types.as_slice())?;
    let whole = inst(alloc, &retyped, instance.terms.as_slice())?;
    Ok(same(&whole, term))
}

fn keeps_all(alloc: Global, instance: &Inst, terms: &[Term]) -> Result<bool, AllocError>
    ensures { IfOk result (λ yes. yes ≡ keeps_all instance.now.types instance.now.terms terms.now) }
{
    for term in terms {
        if !keeps(alloc, instance, term)? {
            return Ok(false);
        }
    }
    Ok(true)
}

// The instance that makes the left side the term, where there is one that leaves the hypotheses as they are.
fn instance(
    alloc: Global,
    hyps: &[Term],
    left: &Term,
    term: &Term,
) -> Result<Option<Inst>, AllocError>
    ensures exact { IfOk result (λ o. MatchOption o (Instance hyps.now left.now term.now → ⊥)
        (λ i. IsAllowed hyps.now left.now i.types i.terms term.now)) }
    ensures first { IfOk result (λ o. MatchOption o (Unit {0}) (λ i. AreFirst i.types i.terms)) }
{
    match match_term(alloc, left, term)? {
        Some(found) => if keeps_all(alloc, &found, hyps)? {
            Ok(Some(found))
        } else {
            Ok(None)
        },
        None => Ok(None),
    }
}

// The equation's instance.
fn instantiated(
    alloc: Global,
    defs: &Defs,
    eq: &Thm,
    sides: &Equation<'_>,
    term: &Term,
    found: &Inst,
) -> Result<Thm, AllocError>
    requires within { Within eq.now.defs defs.now }
    requires equation { eq.now.concl ≡ equal sides.now.ty.now sides.now.left.now sides.now.right.now }
    requires typed { IsTyped (signature_of defs.now) term.now }
    requires allowed { IsAllowed eq.now.hyps sides.now.left.now found.now.types found.now.terms term.now }
    requires first { AreFirst found.now.types found.now.terms }
    ensures { IfOk result (Equates defs.now eq.now.promises eq.now.hyps term.now (replaced found.now.terms
        (retyped_term found.now.types sides.now.right.now))) }
{
    eq.concl();
    eq.hyps();
    let typed = inst_ty_known(alloc, defs, eq, found.types.as_slice())?;
    inst_known(alloc, defs, &typed, found.terms.as_slice())
}

/// The equation's instance that has the term on the left, where there is one that leaves the hypotheses as they are.
#[inline(never)]
pub(crate) fn at_instance(
    alloc: Global,
    defs: &Defs,
    eq: &Thm,
    sides: &Equation<'_>,
    term: &Term,
) -> Result<Option<Thm>, AllocError>
    requires within { Within eq.now.defs defs.now }
    requires equation { eq.now.concl ≡ equal sides.now.ty.now sides.now.left.now sides.now.right.now }
    requires typed { IsTyped (signature_of defs.now) term.now }
    ensures { IfOk result (λ o. MatchOption o (Instance eq.now.hyps sides.now.left.now term.now → ⊥)
        (Becomes defs.now eq.now sides.now term.now)) }
{
    match instance(alloc, eq.hyps(), sides.left, term)? {
        Some(found) => Ok(Some(instantiated(alloc, defs, eq, sides, term, &found)?)),
        None => Ok(None),
    }
}
