//! Connectives at the variables `p` and `q`, by their definitions.
ghost use Rattle.std.specs.Prelude.{◌≡◌, IfOk};
ghost use Rattle.fp_conclude.specs.Logic.{truth_type, equal, conjunction, implication};
ghost use Rattle.fp_kernel.specs.Derivability.{IsFormula};
ghost use Rattle.fp_kernel.specs.Start.{signature_of};
ghost use Rattle.fp_kernel.specs.Theorems.{plain};
ghost use Rattle.fp_logic.specs.Steps.{unfolded, unfolded_twice, CanUnfoldTwice};
ghost use Rattle.fp_forms.specs.Schemas.{p_variable, q_variable, itself, both_true, implied};

use crate::equations::unfold;
use crate::lemmas::lemma_at;
use fp_conclude::LogicalConstant;
use fp_forms::{Lemma, p_variable, q_variable};
use fp_kernel::{Defs, Thm};
use fp_term::Term;
use std::alloc::{AllocError, Global};

/// `p = p`, for the variable.
pub fn own_p(alloc: Global, defs: &Defs) -> Result<Thm, AllocError>
    ensures { IfOk result (λ th. th ≡ plain defs.now (itself p_variable)) }
{
    let term = p_variable(alloc)?;
    defs.refl_known(alloc, &term)
}

/// `q = q`, for the variable.
pub fn own_q(alloc: Global, defs: &Defs) -> Result<Thm, AllocError>
    ensures { IfOk result (λ th. th ≡ plain defs.now (itself q_variable)) }
{
    let term = q_variable(alloc)?;
    defs.refl_known(alloc, &term)
}

// `f p = (%q. b)`, from `f = (%p q. b)`.
fn unfold_once(alloc: Global, defs: &Defs, th: &Thm) -> Result<Thm, AllocError>
    requires { CanUnfoldTwice defs.now th.now }
    ensures { IfOk result (λ u. u ≡ plain defs.now (unfolded th.now.concl (itself p_variable))) }
{
    let own = own_p(alloc, defs)?;
    unfold(alloc, defs, th, &own)
}

/// `f p q = b`, from `f = (%p q. b)`.
pub fn unfold_twice(alloc: Global, defs: &Defs, th: &Thm) -> Result<Thm, AllocError>
    requires { CanUnfoldTwice defs.now th.now }
    ensures { IfOk result (λ u. u ≡ plain defs.now (unfolded_twice th.now.concl)) }
{
    let once = unfold_once(alloc, defs, th)?;
    let own = own_q(alloc, defs)?;
    unfold(alloc, defs, &once, &own)
}

/// `(p /\ q) = ((%f. f p q) = (%f. f T T))`
pub fn conjunction_schema(alloc: Global, defs: &Defs) -> Result<Thm, AllocError>
    ensures { IfOk result (λ th. th ≡ plain defs.now (equal truth_type (conjunction p_variable q_variable)
        (both_true p_variable q_variable))) }
{
    let meaning = defs.connective_known(alloc, LogicalConstant::Conjunction)?;
    unfold_twice(alloc, defs, &meaning)
}

/// `(p --> q) = ((p /\ q) = p)`
pub fn implication_schema(alloc: Global, defs: &Defs) -> Result<Thm, AllocError>
    ensures { IfOk result (λ th. th ≡ plain defs.now (equal truth_type (implication p_variable q_variable)
        (implied p_variable q_variable))) }
{
    let meaning = defs.connective_known(alloc, LogicalConstant::Implication)?;
    unfold_twice(alloc, defs, &meaning)
}

/// What a conjunction says.
pub fn conjunction_meaning(
    alloc: Global,
    defs: &Defs,
    left: &Term,
    right: &Term,
) -> Result<Thm, AllocError>
    requires first { IsFormula (signature_of defs.now) left.now }
    requires second { IsFormula (signature_of defs.now) right.now }
    ensures { IfOk result (λ th. th ≡ plain defs.now (equal truth_type (conjunction left.now right.now)
        (both_true left.now right.now))) }
{
    lemma_at(alloc, defs, Lemma::Conjoined, left, right)
}

/// What an implication says.
pub fn implication_meaning(
    alloc: Global,
    defs: &Defs,
    left: &Term,
    right: &Term,
) -> Result<Thm, AllocError>
    requires first { IsFormula (signature_of defs.now) left.now }
    requires second { IsFormula (signature_of defs.now) right.now }
    ensures { IfOk result (λ th. th ≡ plain defs.now (equal truth_type (implication left.now right.now)
        (implied left.now right.now))) }
{
    lemma_at(alloc, defs, Lemma::Implied, left, right)
}
