//! What is said of all values of a type, and of one of them. Primitive steps: `generalized` 15, `applied_to` 13,
//! `specialized` 15.
ghost use Rattle.std.specs.Prelude.{◌≡◌, false, codes, IfOk};
ghost use Rattle.fp_term.specs.Terms.{app, abs, opened, closed};
ghost use Rattle.fp_term.specs.Signatures.{IsType, IsWellTyped};
ghost use Rattle.fp_conclude.specs.Logic.{truth_type, predicate_type, equal, true_constant, quantifier, for_all};
ghost use Rattle.fp_conclude.specs.Hypotheses.{occurs_in_any};
ghost use Rattle.fp_kernel.specs.Definitions.{Within};
ghost use Rattle.fp_kernel.specs.Start.{signature_of};
ghost use Rattle.fp_kernel.specs.Theorems.{plain, by_one};
ghost use Rattle.fp_quant.specs.Meanings.{always, universal_at};

use crate::steps::retyped_at;
use fp_conclude::{LogicalConstant, abstraction, left};
use fp_kernel::{Defs, Thm};
use fp_logic::equations::unfold;
use fp_logic::holding::{convert, fold};
use fp_logic::truths::{eqt_elim_known, eqt_known};
use fp_term::{Name, Term, Ty};
use std::alloc::{AllocError, Global};

// `all = (%P. P = (%x. T))`, over the type.
fn universal_schema(alloc: Global, defs: &Defs, ty: &Ty) -> Result<Thm, AllocError>
    requires { IsType (signature_of defs.now) ty.now }
    ensures { IfOk result (λ th. th ≡ plain defs.now (universal_at ty.now)) }
{
    let meaning = defs.connective_known(alloc, LogicalConstant::Universal)?;
    retyped_at(alloc, defs, &meaning, ty)
}

/// `all P = (P = (%x. T))`, for a predicate on the type.
pub fn universal(alloc: Global, defs: &Defs, ty: &Ty, predicate: &Term) -> Result<Thm, AllocError>
    requires { IsWellTyped (signature_of defs.now) predicate.now (predicate_type ty.now) }
    ensures { IfOk result (λ th. th ≡ plain defs.now (equal truth_type
        (app (quantifier (codes "all") ty.now) predicate.now) (always ty.now predicate.now))) }
{
    let schema = universal_schema(alloc, defs, ty)?;
    let own = defs.refl_known(alloc, predicate)?;
    unfold(alloc, defs, &schema, &own)
}

// `(%x. p) = (%x. T)` from `p`.
fn always_from(alloc: Global, defs: &Defs, name: &Name, ty: &Ty, a: &Thm) -> Result<Thm, AllocError>
    requires within { Within a.now.defs defs.now }
    requires known { IsType (signature_of defs.now) ty.now }
    requires apart { occurs_in_any name.now ty.now a.now.hyps ≡ false }
    ensures { IfOk result (λ th. th ≡ by_one defs.now a.now (always ty.now
        (abs ty.now (closed 0 name.now ty.now a.now.concl)))) }
{
    let equation = eqt_known(alloc, defs, a)?;
    defs.lam_known(alloc, name, ty, &equation)
}

/// `!x. p` from `p`, for a variable in no hypothesis.
pub fn gen_all_known(
    alloc: Global,
    defs: &Defs,
    name: &Name,
    ty: &Ty,
    a: &Thm,
) -> Result<Thm, AllocError>
    requires within { Within a.now.defs defs.now }
    requires known { IsType (signature_of defs.now) ty.now }
    requires apart { occurs_in_any name.now ty.now a.now.hyps ≡ false }
    ensures { IfOk result (λ th. th ≡ by_one defs.now a.now (for_all ty.now (closed 0 name.now ty.now a.now.concl))) }
{
    let always = always_from(alloc, defs, name, ty, a)?;
    let meaning = universal(alloc, defs, ty, left(always.concl()))?;
    fold(alloc, defs, &meaning, &always)
}

// `P = (%x. T)` from `all P`.
fn always_of(
    alloc: Global,
    defs: &Defs,
    a: &Thm,
    ty: &Ty,
    predicate: &Term,
) -> Result<Thm, AllocError>
    requires within { Within a.now.defs defs.now }
    requires shape { a.now.concl ≡ app (quantifier (codes "all") ty.now) predicate.now }
    ensures { IfOk result (λ th. th ≡ by_one defs.now a.now (always ty.now predicate.now)) }
{
    let _concl = a.concl();
    let meaning = universal(alloc, defs, ty, predicate)?;
    convert(alloc, defs, &meaning, a)
}

// `P t = T` from `all P`.
fn true_at(
    alloc: Global,
    defs: &Defs,
    a: &Thm,
    ty: &Ty,
    predicate: &Term,
    term: &Term,
) -> Result<Thm, AllocError>
    requires within { Within a.now.defs defs.now }
    requires shape { a.now.concl ≡ app (quantifier (codes "all") ty.now) predicate.now }
    requires typed { IsWellTyped (signature_of defs.now) term.now ty.now }
    ensures { IfOk result (λ th. th ≡ by_one defs.now a.now (equal truth_type (app predicate.now term.now)
        true_constant)) }
{
    let always = always_of(alloc, defs, a, ty, predicate)?;
    let own = defs.refl_known(alloc, term)?;
    unfold(alloc, defs, &always, &own)
}

/// `P t` from `all P`.
pub fn applied_to(
    alloc: Global,
    defs: &Defs,
    a: &Thm,
    ty: &Ty,
    predicate: &Term,
    term: &Term,
) -> Result<Thm, AllocError>
    requires within { Within a.now.defs defs.now }
    requires shape { a.now.concl ≡ app (quantifier (codes "all") ty.now) predicate.now }
    requires typed { IsWellTyped (signature_of defs.now) term.now ty.now }
    ensures { IfOk result (λ th. th ≡ by_one defs.now a.now (app predicate.now term.now)) }
{
    let against = true_at(alloc, defs, a, ty, predicate, term)?;
    eqt_elim_known(alloc, defs, &against, left(against.concl()))
}

/// `p` with `t` in place of `v`, from `!v. p`.
pub fn specialized(
    alloc: Global,
    defs: &Defs,
    a: &Thm,
    ty: &Ty,
    body: &Term,
    term: &Term,
) -> Result<Thm, AllocError>
    requires within { Within a.now.defs defs.now }
    requires shape { a.now.concl ≡ for_all ty.now body.now }
    requires typed { IsWellTyped (signature_of defs.now) term.now ty.now }
    ensures { IfOk result (λ th. th ≡ by_one defs.now a.now (opened 0 term.now body.now)) }
{
    let predicate = abstraction(alloc, ty, body)?;
    let applied = applied_to(alloc, defs, a, ty, &predicate, term)?;
    let step = defs.beta_known(alloc, applied.concl())?;
    convert(alloc, defs, &step, &applied)
}
