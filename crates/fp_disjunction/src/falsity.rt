//! Forms of `F`. Primitive steps: `false_elim` 23.
ghost use Rattle.std.specs.Prelude.{◌≡◌, codes, IfOk};
ghost use Rattle.fp_term.specs.Terms.{app, term_eq};
ghost use Rattle.fp_term.specs.Signatures.{IsWellTyped};
ghost use Rattle.fp_conclude.specs.Logic.{truth_type, predicate_type, equal, true_constant, false_constant, quantifier};
ghost use Rattle.fp_conclude.specs.Outcomes.{Answers};
ghost use Rattle.fp_kernel.specs.Definitions.{Within};
ghost use Rattle.fp_kernel.specs.Derivability.{IsFormula};
ghost use Rattle.fp_kernel.specs.Start.{signature_of};
ghost use Rattle.fp_kernel.specs.Theorems.{from_one, plain, by_one};
ghost use Rattle.fp_disjunction.specs.Derived.{false_elim_of};
ghost use Rattle.fp_forms.specs.Schemas.{identity};
ghost use Rattle.fp_disjunction.specs.Schemas.{always_true, universal_is};
ghost use Rattle.fp_conclude.specs.Shapes.{left};

use fp_conclude::{LogicalConstant, RuleFault, apply, false_constant, truth_type};
use fp_forms::identity;
use fp_kernel::{Defs, Thm};
use fp_logic::choosing::established;
use fp_logic::equations::unfold;
use fp_logic::holding::convert;
use fp_term::{Name, Term, Ty, same};
use std::alloc::{AllocError, Global};

// Truth values for the type variable `'a`.
#[tactic(auto, unfolding(fp_term::specs::Names::is_name))]
fn truth_for_alpha(alloc: Global) -> Result<(Name, Ty), AllocError>
    ensures { IfOk result (λ p. p ≡ (codes "a", truth_type)) }
{
    Ok((Name::of(alloc, b"a")?, truth_type(alloc)?))
}

// `all = (%P. P = (%x. T))`, for formulas.
fn universal_schema(alloc: Global, defs: &Defs) -> Result<Thm, AllocError>
    ensures { IfOk result (λ th. th ≡ plain defs.now universal_is) }
{
    let meaning = defs.connective_known(alloc, LogicalConstant::Universal)?;
    let pairs = [truth_for_alpha(alloc)?];
    defs.inst_ty_known(alloc, &meaning, &pairs)
}

/// `all P = (P = (%x. T))`, for a predicate on formulas.
pub fn universal(alloc: Global, defs: &Defs, predicate: &Term) -> Result<Thm, AllocError>
    requires { IsWellTyped (signature_of defs.now) predicate.now (predicate_type truth_type) }
    ensures { IfOk result (λ th. th ≡ plain defs.now (equal truth_type (app (quantifier (codes "all") truth_type)
        predicate.now) (always_true predicate.now))) }
{
    let schema = universal_schema(alloc, defs)?;
    let own = defs.refl_known(alloc, predicate)?;
    unfold(alloc, defs, &schema, &own)
}

// `all (%p. p) = ((%p. p) = (%x. T))`
fn universal_identity(alloc: Global, defs: &Defs) -> Result<Thm, AllocError>
    ensures { IfOk result (λ th. th ≡ plain defs.now (equal truth_type (app (quantifier (codes "all") truth_type)
        identity) (always_true identity))) }
{
    let predicate = identity(alloc)?;
    universal(alloc, defs, &predicate)
}

// `F = ((%p. p) = (%x. T))`
fn false_meaning(alloc: Global, defs: &Defs) -> Result<Thm, AllocError>
    ensures { IfOk result (λ th. th ≡ plain defs.now (equal truth_type false_constant (always_true identity))) }
{
    let meaning = defs.connective_known(alloc, LogicalConstant::Falsity)?;
    let universal = universal_identity(alloc, defs)?;
    defs.trans_known(alloc, &meaning, &universal)
}

/// `P t = T` from `P = (%x. T)`.
pub fn always_at(alloc: Global, defs: &Defs, th: &Thm, term: &Term) -> Result<Thm, AllocError>
    requires always { th.now ≡ by_one defs.now th.now (always_true (left th.now.concl)) }
    requires formula { IsFormula (signature_of defs.now) term.now }
    ensures { IfOk result (λ a. a ≡ by_one defs.now th.now (equal truth_type (app (left th.now.concl) term.now)
        true_constant)) }
{
    let own = defs.refl_known(alloc, term)?;
    unfold(alloc, defs, th, &own)
}

// `(%p. p) t = t`
fn identity_at(alloc: Global, defs: &Defs, term: &Term) -> Result<Thm, AllocError>
    requires { IsFormula (signature_of defs.now) term.now }
    ensures { IfOk result (λ th. th ≡ plain defs.now (equal truth_type (app identity term.now) term.now)) }
{
    let function = identity(alloc)?;
    let redex = apply(alloc, &function, term)?;
    defs.beta_known(alloc, &redex)
}

// `(%p. p) = (%x. T)` from `F`.
fn always_from(alloc: Global, defs: &Defs, a: &Thm) -> Result<Thm, AllocError>
    requires within { Within a.now.defs defs.now }
    requires shape { a.now.concl ≡ false_constant }
    ensures { IfOk result (λ th. th ≡ by_one defs.now a.now (always_true identity)) }
{
    let meaning = false_meaning(alloc, defs)?;
    convert(alloc, defs, &meaning, a)
}

// `(%p. p) t = T` from `F`.
fn identity_true(alloc: Global, defs: &Defs, term: &Term, a: &Thm) -> Result<Thm, AllocError>
    requires within { Within a.now.defs defs.now }
    requires shape { a.now.concl ≡ false_constant }
    requires formula { IsFormula (signature_of defs.now) term.now }
    ensures { IfOk result (λ th. th ≡ by_one defs.now a.now (equal truth_type (app identity term.now) true_constant)) }
{
    let always = always_from(alloc, defs, a)?;
    always_at(alloc, defs, &always, term)
}

/// The formula from `F`.
pub fn false_elim_known(alloc: Global, defs: &Defs, term: &Term, a: &Thm) -> Result<Thm, AllocError>
    requires within { Within a.now.defs defs.now }
    requires shape { a.now.concl ≡ false_constant }
    requires formula { IsFormula (signature_of defs.now) term.now }
    ensures { IfOk result (λ th. th ≡ by_one defs.now a.now term.now) }
{
    let against = identity_true(alloc, defs, term, a)?;
    let equation = identity_at(alloc, defs, term)?;
    established(alloc, defs, &against, &equation)
}

/// Is it `F`?
pub fn is_false(alloc: Global, term: &Term) -> Result<bool, AllocError>
    ensures { IfOk result (λ b. b ≡ term_eq term.now false_constant) }
{
    let falsity = false_constant(alloc)?;
    Ok(same(term, &falsity))
}

/// Any formula from `F`.
pub fn false_elim(alloc: Global, defs: &Defs, term: &Term, a: &Thm) -> Result<Thm, RuleFault>
    requires { Within a.now.defs defs.now }
    ensures { Answers result (from_one defs.now a.now a.now.hyps (false_elim_of (signature_of defs.now) term.now
        a.now.concl)) }
{
    let term = fp_conclude::assume(alloc, defs.signature(), term)?;
    if !is_false(alloc, a.concl())? {
        return Err(RuleFault::Shape);
    }
    Ok(false_elim_known(alloc, defs, &term, a)?)
}
