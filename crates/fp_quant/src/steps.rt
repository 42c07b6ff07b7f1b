//! Rules on premises of a known form: but for want of memory they give what the form says.
ghost use Rattle.std.specs.Prelude.{◌≡◌, codes, IfOk};
ghost use Rattle.fp_term.specs.Terms.{free, retyped_term};
ghost use Rattle.fp_term.specs.Signatures.{IsType};
ghost use Rattle.fp_kernel.specs.Theorems.{plain};
ghost use Rattle.fp_kernel.specs.Definitions.{Within};
ghost use Rattle.fp_kernel.specs.Start.{signature_of};
ghost use Rattle.fp_quant.specs.Meanings.{for_alpha, for_both};

use fp_kernel::{Defs, Thm};
use fp_term::{Name, Term, Ty};
use std::alloc::{AllocError, Global};

/// The variable of that name and type.
pub fn variable(alloc: Global, name: &Name, ty: &Ty) -> Result<Term, AllocError>
    ensures { IfOk result (λ t. t ≡ free name.now ty.now) }
{
    Term::free(alloc, name.copy()?, ty.copy()?)
}

// A type for the type variable `'a`.
#[tactic(auto, unfolding(fp_term::specs::Names::is_name))]
fn for_alpha(alloc: Global, ty: &Ty) -> Result<(Name, Ty), AllocError>
    ensures { IfOk result (λ p. p ≡ (codes "a", ty.now)) }
{
    Ok((Name::of(alloc, b"a")?, ty.copy()?))
}

// A type for the type variable `'b`.
#[tactic(auto, unfolding(fp_term::specs::Names::is_name))]
fn for_beta(alloc: Global, ty: &Ty) -> Result<(Name, Ty), AllocError>
    ensures { IfOk result (λ p. p ≡ (codes "b", ty.now)) }
{
    Ok((Name::of(alloc, b"b")?, ty.copy()?))
}

/// The instance by a type for `'a`.
pub fn retyped_at(alloc: Global, defs: &Defs, th: &Thm, ty: &Ty) -> Result<Thm, AllocError>
    requires whole { th.now ≡ plain th.now.defs th.now.concl }
    requires within { Within th.now.defs defs.now }
    requires known { IsType (signature_of defs.now) ty.now }
    ensures { IfOk result (λ i. i ≡ plain defs.now (retyped_term (for_alpha ty.now) th.now.concl)) }
{
    let pairs = [for_alpha(alloc, ty)?];
    defs.inst_ty_known(alloc, th, &pairs)
}

/// The instance by types for `'a` and `'b`.
pub fn retyped_at_both(
    alloc: Global,
    defs: &Defs,
    th: &Thm,
    first: &Ty,
    second: &Ty,
) -> Result<Thm, AllocError>
    requires whole { th.now ≡ plain th.now.defs th.now.concl }
    requires within { Within th.now.defs defs.now }
    requires first { IsType (signature_of defs.now) first.now }
    requires second { IsType (signature_of defs.now) second.now }
    ensures { IfOk result (λ i. i ≡ plain defs.now (retyped_term (for_both first.now second.now) th.now.concl)) }
{
    let alpha = for_alpha(alloc, first)?;
    let pairs = [alpha, for_beta(alloc, second)?];
    defs.inst_ty_known(alloc, th, &pairs)
}
