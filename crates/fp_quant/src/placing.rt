//! Instances of what is derived for variables, each two primitive steps.
ghost use Rattle.std.specs.Prelude.{◌≡◌, codes, IfOk, IsTrue};
ghost use Rattle.fp_term.specs.Names.{is_name};
ghost use Rattle.fp_term.specs.Terms.{app, replaced, retyped_term};
ghost use Rattle.fp_term.specs.Signatures.{IsType, IsWellTyped};
ghost use Rattle.fp_conclude.specs.Logic.{truth_type, predicate_type, implication};
ghost use Rattle.fp_conclude.specs.Checks.{AreTerms};
ghost use Rattle.fp_kernel.specs.Derivability.{IsFormula};
ghost use Rattle.fp_kernel.specs.Start.{signature_of};
ghost use Rattle.fp_kernel.specs.Theorems.{plain};
ghost use Rattle.fp_forms.specs.Existence.{some_such, reaches, each_chosen, statement_of};
ghost use Rattle.fp_quant.specs.Existence.{placed, IsPredicate};
ghost use Rattle.fp_quant.specs.Meanings.{for_alpha};

use crate::kept::recalled;
use crate::steps::retyped_at;
use fp_conclude::{predicate_over, truth_type};
use fp_forms::existence::ExistenceSchema;
use fp_kernel::{Defs, Thm};
use fp_term::{Name, Term, Ty};
use std::alloc::{AllocError, Global};

// What is derived for variables, over the definitions and with a type for `'a`.
fn typed(alloc: Global, defs: &Defs, schema: ExistenceSchema, ty: &Ty) -> Result<Thm, AllocError>
    requires { IsType (signature_of defs.now) ty.now }
    ensures { IfOk result (λ th. th ≡ plain defs.now (retyped_term (for_alpha ty.now) (statement_of schema))) }
{
    let general = recalled(alloc, defs, schema)?;
    retyped_at(alloc, defs, &general, ty)
}

// A term for the variable of that name and type.
fn pair(alloc: Global, name: &[u8], ty: &Ty, term: &Term) -> Result<(Name, Ty, Term), AllocError>
    requires { IsTrue (is_name name.now) }
    ensures { IfOk result (λ p. p ≡ (name.now, ty.now, term.now)) }
{
    Ok((Name::of(alloc, name)?, ty.copy()?, term.copy()?))
}

// A predicate for `P`.
#[tactic(auto, unfolding(fp_term::specs::Names::is_name))]
fn for_predicate(alloc: Global, ty: &Ty, predicate: &Term) -> Result<(Name, Ty, Term), AllocError>
    ensures { IfOk result (λ p. p ≡ (codes "P", predicate_type ty.now, predicate.now)) }
{
    let of_predicate = predicate_over(alloc, ty)?;
    pair(alloc, b"P", &of_predicate, predicate)
}

// A formula for `q`.
#[tactic(auto, unfolding(fp_term::specs::Names::is_name))]
fn for_formula(alloc: Global, formula: &Term) -> Result<(Name, Ty, Term), AllocError>
    ensures { IfOk result (λ p. p ≡ (codes "q", truth_type, formula.now)) }
{
    let ty = truth_type(alloc)?;
    pair(alloc, b"q", &ty, formula)
}

// The instance by a predicate for `P` and by a term for another variable.
fn with_terms(
    alloc: Global,
    defs: &Defs,
    th: &Thm,
    ty: &Ty,
    predicate: &Term,
    other: (Name, Ty, Term),
) -> Result<Thm, AllocError>
    requires whole { th.now ≡ plain defs.now th.now.concl }
    requires typed { AreTerms (signature_of defs.now) (placed ty.now predicate.now other.0 other.1 other.2) }
    ensures { IfOk result (λ i. i ≡ plain defs.now (replaced (placed ty.now predicate.now other.0 other.1 other.2)
        th.now.concl)) }
{
    let pairs = [for_predicate(alloc, ty, predicate)?, other];
    defs.inst_known(alloc, th, &pairs)
}

/// `P t --> ex P`
#[tactic(auto, unfolding(fp_term::specs::Names::is_name))]
pub(crate) fn introduction_at(
    alloc: Global,
    defs: &Defs,
    ty: &Ty,
    predicate: &Term,
    term: &Term,
) -> Result<Thm, AllocError>
    requires predicate { IsPredicate defs.now ty.now predicate.now }
    requires typed { IsWellTyped (signature_of defs.now) term.now ty.now }
    ensures { IfOk result (λ th. th ≡ plain defs.now (implication (app predicate.now term.now)
        (some_such ty.now predicate.now))) }
{
    let typed = typed(alloc, defs, ExistenceSchema::Introduction, ty)?;
    let other = pair(alloc, b"x", ty, term)?;
    with_terms(alloc, defs, &typed, ty, predicate, other)
}

/// `ex P --> (!x. P x --> q) --> q`
pub(crate) fn elimination_at(
    alloc: Global,
    defs: &Defs,
    ty: &Ty,
    predicate: &Term,
    formula: &Term,
) -> Result<Thm, AllocError>
    requires predicate { IsPredicate defs.now ty.now predicate.now }
    requires formula { IsFormula (signature_of defs.now) formula.now }
    ensures { IfOk result (λ th. th ≡ plain defs.now (implication (some_such ty.now predicate.now)
        (reaches ty.now predicate.now formula.now))) }
{
    let typed = typed(alloc, defs, ExistenceSchema::Elimination, ty)?;
    let other = for_formula(alloc, formula)?;
    with_terms(alloc, defs, &typed, ty, predicate, other)
}

/// `!x. P x --> P (select P)`
pub(crate) fn choice_at(
    alloc: Global,
    defs: &Defs,
    ty: &Ty,
    predicate: &Term,
) -> Result<Thm, AllocError>
    requires { IsPredicate defs.now ty.now predicate.now }
    ensures { IfOk result (λ th. th ≡ plain defs.now (each_chosen ty.now predicate.now)) }
{
    let typed = typed(alloc, defs, ExistenceSchema::Choice, ty)?;
    let other = for_predicate(alloc, ty, predicate)?;
    with_terms(alloc, defs, &typed, ty, predicate, other)
}
