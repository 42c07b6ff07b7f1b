//! `p` and `q` from `p /\ q`.
ghost use Rattle.std.specs.Prelude.{◌≡◌, IfOk};
ghost use Rattle.fp_term.specs.Terms.{app};
ghost use Rattle.fp_conclude.specs.Logic.{truth_type, binary_type, equal, true_constant};
ghost use Rattle.fp_kernel.specs.Derivability.{IsFormula};
ghost use Rattle.fp_kernel.specs.Start.{signature_of};
ghost use Rattle.fp_conclude.specs.Shapes.{left, right, IsEquationFrom};
ghost use Rattle.fp_kernel.specs.Theorems.{plain, by_one, by_both};
ghost use Rattle.fp_logic.specs.Steps.{choice_schema, IsConjunction};
ghost use Rattle.fp_forms.specs.Schemas.{p_variable, q_variable, both_true, chooser, chosen, chosen_from, choice};

use crate::equations::unfold;
use crate::holding::{convert, establish};
use crate::instances::instance;
use crate::lemmas::lemma_at;
use crate::unfolding::{conjunction_meaning, own_q};
use fp_conclude::{apply, left, true_constant};
use fp_forms::{Lemma, applying_variables, chooser, p_variable};
use fp_kernel::{Defs, Thm};
use fp_term::Term;
use std::alloc::{AllocError, Global};

// `(%f. f p q) c = c p q`, for a chooser `c`.
fn passed(alloc: Global, defs: &Defs, first: bool, by: &Term) -> Result<Thm, AllocError>
    requires { by.now ≡ chooser first }
    ensures { IfOk result (λ th. th ≡ plain defs.now (equal truth_type (choice first p_variable q_variable)
        (app (app (chooser first) p_variable) q_variable))) }
{
    let function = applying_variables(alloc)?;
    let redex = apply(alloc, &function, by)?;
    defs.beta_known(alloc, &redex)
}

// `c p = (%y. x)`, for a chooser `c`, with `p` or `y` for `x`.
fn chosen_once(alloc: Global, defs: &Defs, first: bool, by: &Term) -> Result<Thm, AllocError>
    requires { by.now ≡ chooser first }
    ensures { IfOk result (λ th. th ≡ plain defs.now (chosen_from first)) }
{
    let term = p_variable(alloc)?;
    let redex = apply(alloc, by, &term)?;
    defs.beta_known(alloc, &redex)
}

// `c p q = x`, for the chooser `c`, with `p` or `q` for `x`.
fn chosen_twice(alloc: Global, defs: &Defs, first: bool, by: &Term) -> Result<Thm, AllocError>
    requires { by.now ≡ chooser first }
    ensures { IfOk result (λ th. th ≡ plain defs.now (equal truth_type
        (app (app (chooser first) p_variable) q_variable) (chosen first p_variable q_variable))) }
{
    let once = chosen_once(alloc, defs, first, by)?;
    let second = own_q(alloc, defs)?;
    unfold(alloc, defs, &once, &second)
}

// `(%f. f p q) c = x`, for that chooser `c`, with `p` or `q` for `x`.
fn choice_schema_by(alloc: Global, defs: &Defs, first: bool, by: &Term) -> Result<Thm, AllocError>
    requires { by.now ≡ chooser first }
    ensures { IfOk result (λ th. th ≡ choice_schema defs.now first) }
{
    let passed = passed(alloc, defs, first, by)?;
    let twice = chosen_twice(alloc, defs, first, by)?;
    defs.trans_known(alloc, &passed, &twice)
}

/// `(%f. f p q) c = x`, for the chooser `c`, with `p` or `q` for `x`.
pub fn choice_schema(alloc: Global, defs: &Defs, first: bool) -> Result<Thm, AllocError>
    ensures { IfOk result (λ th. th ≡ choice_schema defs.now first) }
{
    let by = chooser(alloc, first)?;
    choice_schema_by(alloc, defs, first, &by)
}

// `c = c`, for a chooser `c`.
fn own_chooser(alloc: Global, defs: &Defs, first: bool) -> Result<Thm, AllocError>
    ensures { IfOk result (λ th. th ≡ plain defs.now (equal (binary_type truth_type truth_type) (chooser first)
        (chooser first))) }
{
    let by = chooser(alloc, first)?;
    defs.refl_known(alloc, &by)
}

// `(%f. f l r) = (%f. f T T)` from `l /\ r`.
fn both_hold(
    alloc: Global,
    defs: &Defs,
    a: &Thm,
    left: &Term,
    right: &Term,
) -> Result<Thm, AllocError>
    requires { IsConjunction defs.now a.now left.now right.now }
    ensures { IfOk result (λ th. th ≡ by_one defs.now a.now (both_true left.now right.now)) }
{
    let meaning = conjunction_meaning(alloc, defs, left, right)?;
    convert(alloc, defs, &meaning, a)
}

// `(%f. f l r) c = (%f. f T T) c` from `l /\ r`, for the chooser `c`.
fn choices(
    alloc: Global,
    defs: &Defs,
    first: bool,
    a: &Thm,
    left: &Term,
    right: &Term,
) -> Result<Thm, AllocError>
    requires { IsConjunction defs.now a.now left.now right.now }
    ensures { IfOk result (λ th. th ≡ by_one defs.now a.now (equal truth_type (choice first left.now right.now)
        (choice first true_constant true_constant))) }
{
    let both = both_hold(alloc, defs, a, left, right)?;
    let own = own_chooser(alloc, defs, first)?;
    defs.mk_comb_known(alloc, &both, &own)
}

// `(%f. f l r) c = x`, for the chooser `c`, by what is derived for variables.
fn choice_of(
    alloc: Global,
    defs: &Defs,
    schema: &Thm,
    first: bool,
    left: &Term,
    right: &Term,
) -> Result<Thm, AllocError>
    requires schema { schema.now ≡ choice_schema defs.now first }
    requires left { IsFormula (signature_of defs.now) left.now }
    requires right { IsFormula (signature_of defs.now) right.now }
    ensures { IfOk result (λ th. th ≡ plain defs.now (equal truth_type (choice first left.now right.now)
        (chosen first left.now right.now))) }
{
    let _ = first;
    instance(alloc, defs, schema, left, right)
}

/// `(%f. f T T) c = T`, by what is derived for variables.
pub fn truth_choice(
    alloc: Global,
    defs: &Defs,
    schema: &Thm,
    first: bool,
) -> Result<Thm, AllocError>
    requires { schema.now ≡ choice_schema defs.now first }
    ensures { IfOk result (λ th. th ≡ plain defs.now (equal truth_type (choice first true_constant true_constant)
        true_constant)) }
{
    let truth = true_constant(alloc)?;
    choice_of(alloc, defs, schema, first, &truth, &truth)
}

/// `u` from `s = T` and `s = u`, over one list.
pub fn established(
    alloc: Global,
    defs: &Defs,
    against: &Thm,
    equation: &Thm,
) -> Result<Thm, AllocError>
    requires first { against.now.defs ≡ defs.now }
    requires second { equation.now.defs ≡ defs.now }
    requires shape { against.now.concl ≡ equal truth_type (left against.now.concl) true_constant }
    requires equation { IsEquationFrom truth_type (left against.now.concl) equation.now.concl }
    ensures { IfOk result (λ th. th ≡ by_both defs.now against.now equation.now (right equation.now.concl)) }
{
    let own = defs.refl_known(alloc, left(against.concl()))?;
    establish(alloc, defs, against, equation, &own)
}

// `((%f. f l r) c = (%f. f T T) c) = x`, for the chooser `c`, with `l` or `r` for `x`.
fn choosing(
    alloc: Global,
    defs: &Defs,
    first: bool,
    left: &Term,
    right: &Term,
) -> Result<Thm, AllocError>
    requires left { IsFormula (signature_of defs.now) left.now }
    requires right { IsFormula (signature_of defs.now) right.now }
    ensures { IfOk result (λ th. th ≡ plain defs.now (equal truth_type (equal truth_type
        (choice first left.now right.now) (choice first true_constant true_constant))
        (chosen first left.now right.now))) }
{
    lemma_at(alloc, defs, Lemma::Choice(first), left, right)
}

/// `l` from `l /\ r`, where the first is asked for, else `r`.
pub fn conjunct(
    alloc: Global,
    defs: &Defs,
    first: bool,
    a: &Thm,
    left: &Term,
    right: &Term,
) -> Result<Thm, AllocError>
    requires { IsConjunction defs.now a.now left.now right.now }
    ensures { IfOk result (λ th. th ≡ by_one defs.now a.now (chosen first left.now right.now)) }
{
    let choices = choices(alloc, defs, first, a, left, right)?;
    let choosing = choosing(alloc, defs, first, left, right)?;
    convert(alloc, defs, &choosing, &choices)
}
