//! Forms of negations. Primitive steps: `not_elim` 7, `not_intro` 12, `eqf` 47.
ghost use Rattle.std.specs.Prelude.{◌≡◌, IfOk};
ghost use Rattle.fp_conclude.specs.Logic.{truth_type, equal, false_constant, conjunction, implication, negation};
ghost use Rattle.fp_conclude.specs.Outcomes.{Answers};
ghost use Rattle.fp_kernel.specs.Definitions.{Within};
ghost use Rattle.fp_kernel.specs.Derivability.{IsFormula};
ghost use Rattle.fp_kernel.specs.Start.{signature_of};
ghost use Rattle.fp_kernel.specs.Theorems.{from_one, plain, from_itself, by_one};
ghost use Rattle.fp_disjunction.specs.Derived.{eqf_of, not_intro_of, not_elim_of};
ghost use Rattle.fp_forms.specs.Schemas.{p_variable};
ghost use Rattle.fp_conclude.specs.Shapes.{left, right};
ghost use Rattle.fp_logic.specs.Steps.{IsImplication};
ghost use Rattle.fp_disjunction.specs.Steps.{IsNegation};

use crate::falsity::{false_elim_known, is_false};
use crate::parts::negated;
use fp_conclude::{LogicalConstant, RuleFault, conjunction, false_constant};
use fp_forms::{implication_parts, p_variable};
use fp_kernel::{Defs, Thm};
use fp_logic::choosing::conjunct;
use fp_logic::equations::{turn, unfold};
use fp_logic::holding::{convert, fold, truth_equality};
use fp_logic::implications::implied_from;
use fp_logic::instances::instance;
use fp_logic::unfolding::own_p;
use fp_term::Term;
use std::alloc::{AllocError, Global};

// `~ p = (p --> F)`, for the variable.
fn negation_schema(alloc: Global, defs: &Defs) -> Result<Thm, AllocError>
    ensures { IfOk result (λ th. th ≡ plain defs.now (equal truth_type (negation p_variable)
        (implication p_variable false_constant))) }
{
    let meaning = defs.connective_known(alloc, LogicalConstant::Negation)?;
    let own = own_p(alloc, defs)?;
    unfold(alloc, defs, &meaning, &own)
}

// What a negation says.
fn negation_meaning(alloc: Global, defs: &Defs, term: &Term) -> Result<Thm, AllocError>
    requires { IsFormula (signature_of defs.now) term.now }
    ensures { IfOk result (λ th. th ≡ plain defs.now (equal truth_type (negation term.now)
        (implication term.now false_constant))) }
{
    let schema = negation_schema(alloc, defs)?;
    instance(alloc, defs, &schema, term, term)
}

/// `p --> F` from `~ p`.
pub fn not_elim_known(alloc: Global, defs: &Defs, a: &Thm, term: &Term) -> Result<Thm, AllocError>
    requires { IsNegation defs.now a.now term.now }
    ensures { IfOk result (λ th. th ≡ by_one defs.now a.now (implication term.now false_constant)) }
{
    let meaning = negation_meaning(alloc, defs, term)?;
    convert(alloc, defs, &meaning, a)
}

/// `~ p` from `p --> F`.
pub fn not_intro_known(alloc: Global, defs: &Defs, a: &Thm, term: &Term) -> Result<Thm, AllocError>
    requires { IsImplication defs.now a.now term.now false_constant }
    ensures { IfOk result (λ th. th ≡ by_one defs.now a.now (negation term.now)) }
{
    let meaning = negation_meaning(alloc, defs, term)?;
    fold(alloc, defs, &meaning, a)
}

// `F` from `p /\ F` itself, for the variable.
fn falsity_from(
    alloc: Global,
    defs: &Defs,
    both: &Term,
    term: &Term,
    falsity: &Term,
) -> Result<Thm, AllocError>
    requires both { both.now ≡ conjunction p_variable false_constant }
    requires term { term.now ≡ p_variable }
    requires falsity { falsity.now ≡ false_constant }
    ensures { IfOk result (λ th. th ≡ by_one defs.now (from_itself defs.now (conjunction p_variable false_constant))
        false_constant) }
{
    let itself = defs.assume_known(alloc, both)?;
    conjunct(alloc, defs, false, &itself, term, falsity)
}

// `p /\ F` from `F` itself, for the variable.
fn from_falsity(alloc: Global, defs: &Defs, both: &Term, falsity: &Term) -> Result<Thm, AllocError>
    requires both { both.now ≡ conjunction p_variable false_constant }
    requires falsity { falsity.now ≡ false_constant }
    ensures { IfOk result (λ th. th ≡ by_one defs.now (from_itself defs.now false_constant)
        (conjunction p_variable false_constant)) }
{
    let itself = defs.assume_known(alloc, falsity)?;
    false_elim_known(alloc, defs, both, &itself)
}

// `(p /\ F) = F`, by the terms.
fn contradiction_of(
    alloc: Global,
    defs: &Defs,
    both: &Term,
    term: &Term,
    falsity: &Term,
) -> Result<Thm, AllocError>
    requires both { both.now ≡ conjunction p_variable false_constant }
    requires term { term.now ≡ p_variable }
    requires falsity { falsity.now ≡ false_constant }
    ensures { IfOk result (λ th. th ≡ plain defs.now (equal truth_type (conjunction p_variable false_constant)
        false_constant)) }
{
    let first = from_falsity(alloc, defs, both, falsity)?;
    let second = falsity_from(alloc, defs, both, term, falsity)?;
    defs.antisym_known(alloc, &first, &second)
}

// `(p /\ F) = F`, for the variable.
fn contradiction_schema(alloc: Global, defs: &Defs) -> Result<Thm, AllocError>
    ensures { IfOk result (λ th. th ≡ plain defs.now (equal truth_type (conjunction p_variable false_constant)
        false_constant)) }
{
    let term = p_variable(alloc)?;
    let falsity = false_constant(alloc)?;
    let both = conjunction(alloc, &term, &falsity)?;
    contradiction_of(alloc, defs, &both, &term, &falsity)
}

// `(p /\ F) = F`
fn contradiction(alloc: Global, defs: &Defs, term: &Term) -> Result<Thm, AllocError>
    requires { IsFormula (signature_of defs.now) term.now }
    ensures { IfOk result (λ th. th ≡ plain defs.now (equal truth_type (conjunction term.now false_constant)
        false_constant)) }
{
    let schema = contradiction_schema(alloc, defs)?;
    instance(alloc, defs, &schema, term, term)
}

// `(p /\ F) = p` from `~ p`.
fn implied_falsity(alloc: Global, defs: &Defs, a: &Thm, term: &Term) -> Result<Thm, AllocError>
    requires { IsNegation defs.now a.now term.now }
    ensures { IfOk result (λ th. th ≡ by_one defs.now a.now (equal truth_type (conjunction term.now false_constant)
        term.now)) }
{
    let opened = not_elim_known(alloc, defs, a, term)?;
    let falsity = false_constant(alloc)?;
    implied_from(alloc, defs, &opened, term, &falsity)
}

// `t = u` from `s = t` and `s = u`, for formulas over one list.
fn matched(alloc: Global, defs: &Defs, first: &Thm, second: &Thm) -> Result<Thm, AllocError>
    requires first { first.now ≡ by_one defs.now first.now (equal truth_type (left first.now.concl)
        (right first.now.concl)) }
    requires second { second.now ≡ plain defs.now (equal truth_type (left first.now.concl) (right second.now.concl)) }
    ensures { IfOk result (λ th. th ≡ by_one defs.now first.now (equal truth_type (right first.now.concl)
        (right second.now.concl))) }
{
    let equality = truth_equality(alloc, defs)?;
    let own = defs.refl_known(alloc, fp_conclude::left(first.concl()))?;
    turn(alloc, defs, &equality, first, second, &own)
}

/// `p = F` from `~ p`.
pub fn eqf_known(alloc: Global, defs: &Defs, a: &Thm, term: &Term) -> Result<Thm, AllocError>
    requires { IsNegation defs.now a.now term.now }
    ensures { IfOk result (λ th. th ≡ by_one defs.now a.now (equal truth_type term.now false_constant)) }
{
    let implied = implied_falsity(alloc, defs, a, term)?;
    let contradiction = contradiction(alloc, defs, term)?;
    matched(alloc, defs, &implied, &contradiction)
}

/// `p = F` from `~ p`.
pub fn eqf(alloc: Global, defs: &Defs, a: &Thm) -> Result<Thm, RuleFault>
    requires { Within a.now.defs defs.now }
    ensures { Answers result (from_one defs.now a.now a.now.hyps (eqf_of a.now.concl)) }
{
    let part = negated(alloc, a.concl())?;
    let Some(term) = part else {
        return Err(RuleFault::Shape);
    };
    Ok(eqf_known(alloc, defs, a, term)?)
}

/// `p --> F` from `~ p`.
pub fn not_elim(alloc: Global, defs: &Defs, a: &Thm) -> Result<Thm, RuleFault>
    requires { Within a.now.defs defs.now }
    ensures { Answers result (from_one defs.now a.now a.now.hyps (not_elim_of a.now.concl)) }
{
    let part = negated(alloc, a.concl())?;
    let Some(term) = part else {
        return Err(RuleFault::Shape);
    };
    Ok(not_elim_known(alloc, defs, a, term)?)
}

/// `~ p` from `p --> F`.
pub fn not_intro(alloc: Global, defs: &Defs, a: &Thm) -> Result<Thm, RuleFault>
    requires { Within a.now.defs defs.now }
    ensures { Answers result (from_one defs.now a.now a.now.hyps (not_intro_of a.now.concl)) }
{
    let parts = implication_parts(alloc, a.concl())?;
    let Some((left, right)) = parts else {
        return Err(RuleFault::Shape);
    };
    if !is_false(alloc, right)? {
        return Err(RuleFault::Shape);
    }
    Ok(not_intro_known(alloc, defs, a, left)?)
}
