//! Derivations of the lemmas, by the rules and without other lemmas. Each is made once for a list of definitions and
//! those that grow from it.
ghost use Rattle.std.specs.Prelude.{◌≡◌, IfOk};
ghost use Rattle.fp_conclude.specs.Logic.{truth_type, true_constant, conjunction};
ghost use Rattle.fp_kernel.specs.Derivability.{IsFormula};
ghost use Rattle.fp_kernel.specs.Start.{signature_of};
ghost use Rattle.fp_forms.specs.Lemmas.{equivalent, exchanged, statement_of};
ghost use Rattle.fp_forms.specs.declared.lemma.Lemma.TheVariants.{Truthful, Untrue, Truths, Choice, Turned, Folded};
ghost use Rattle.fp_forms.specs.Schemas.{p_variable, q_variable, both_true, choice, chosen};
ghost use Rattle.fp_kernel.specs.Theorems.{plain, from_itself, by_one};

use crate::choosing::{choice_schema, truth_choice};
use crate::equations::sym_known;
use crate::holding::{fold, held_schema, truth_equality, truth_itself};
use crate::instances::instance;
use crate::unfolding::{conjunction_schema, implication_schema};
use fp_conclude::{left, true_constant, truth_type};
use fp_forms::{
    Lemma, applying_truths, chosen, conjunction_of_variables, equivalent, p_variable, q_variable,
};
use fp_kernel::{Defs, Thm};
use fp_term::Term;
use std::alloc::{AllocError, Global};

// `right = left` from `left = right` itself.
fn turned_round(alloc: Global, defs: &Defs, left: &Term, right: &Term) -> Result<Thm, AllocError>
    requires { IsFormula (signature_of defs.now) (equivalent left.now right.now) }
    ensures { IfOk result (λ th. th ≡ by_one defs.now (from_itself defs.now (equivalent left.now right.now))
        (equivalent right.now left.now)) }
{
    let ty = truth_type(alloc)?;
    let equation = equivalent(alloc, left, right)?;
    let itself = defs.assume_known(alloc, &equation)?;
    sym_known(alloc, defs, &itself, &ty, left)
}

// `(p = q) = (q = p)`
fn exchange_schema(alloc: Global, defs: &Defs) -> Result<Thm, AllocError>
    ensures { IfOk result (λ th. th ≡ plain defs.now (exchanged p_variable q_variable)) }
{
    let left = p_variable(alloc)?;
    let right = q_variable(alloc)?;
    let first = turned_round(alloc, defs, &right, &left)?;
    let second = turned_round(alloc, defs, &left, &right)?;
    defs.antisym_known(alloc, &first, &second)
}

// `(l = r) = (r = l)`
fn exchange(alloc: Global, defs: &Defs, left: &Term, right: &Term) -> Result<Thm, AllocError>
    requires first { IsFormula (signature_of defs.now) left.now }
    requires second { IsFormula (signature_of defs.now) right.now }
    ensures { IfOk result (λ th. th ≡ plain defs.now (exchanged left.now right.now)) }
{
    let schema = exchange_schema(alloc, defs)?;
    instance(alloc, defs, &schema, left, right)
}

// `(T = p) = (p = T)`
fn truth_exchange(alloc: Global, defs: &Defs) -> Result<Thm, AllocError>
    ensures { IfOk result (λ th. th ≡ plain defs.now (exchanged true_constant p_variable)) }
{
    let truth = true_constant(alloc)?;
    let variable = p_variable(alloc)?;
    exchange(alloc, defs, &truth, &variable)
}

// `p = (p = T)`
fn truthful_schema(alloc: Global, defs: &Defs) -> Result<Thm, AllocError>
    ensures { IfOk result (λ th. th ≡ plain defs.now (statement_of Truthful)) }
{
    let held = held_schema(alloc, defs)?;
    let exchange = truth_exchange(alloc, defs)?;
    defs.trans_known(alloc, &held, &exchange)
}

// `(p = T) = p`
fn untrue_schema(alloc: Global, defs: &Defs) -> Result<Thm, AllocError>
    ensures { IfOk result (λ th. th ≡ plain defs.now (statement_of Untrue)) }
{
    let ty = truth_type(alloc)?;
    let variable = p_variable(alloc)?;
    let truthful = truthful_schema(alloc, defs)?;
    sym_known(alloc, defs, &truthful, &ty, &variable)
}

// `(T /\ T) = ((%f. f T T) = (%f. f T T))`
fn truths_meaning(alloc: Global, defs: &Defs) -> Result<Thm, AllocError>
    ensures { IfOk result (λ th. th ≡ plain defs.now (equivalent (conjunction true_constant true_constant)
        (both_true true_constant true_constant))) }
{
    let truth = true_constant(alloc)?;
    let schema = conjunction_schema(alloc, defs)?;
    instance(alloc, defs, &schema, &truth, &truth)
}

// `(%f. f T T) = (%f. f T T)`
fn own_application(alloc: Global, defs: &Defs) -> Result<Thm, AllocError>
    ensures { IfOk result (λ th. th ≡ plain defs.now (both_true true_constant true_constant)) }
{
    let term = applying_truths(alloc)?;
    defs.refl_known(alloc, &term)
}

// `T /\ T`
fn truths_schema(alloc: Global, defs: &Defs) -> Result<Thm, AllocError>
    ensures { IfOk result (λ th. th ≡ plain defs.now (statement_of Truths)) }
{
    let meaning = truths_meaning(alloc, defs)?;
    let own = own_application(alloc, defs)?;
    fold(alloc, defs, &meaning, &own)
}

// `((%f. f p q) c = (%f. f T T) c) = (x = T)`, for the chooser `c`, by `(%f. f p q) c = x`.
fn choices_by(alloc: Global, defs: &Defs, first: bool, schema: &Thm) -> Result<Thm, AllocError>
    requires { schema.now ≡ plain defs.now (equivalent (choice first p_variable q_variable)
        (chosen first p_variable q_variable)) }
    ensures { IfOk result (λ th. th ≡ plain defs.now (equivalent (equivalent (choice first p_variable q_variable)
        (choice first true_constant true_constant)) (equivalent (chosen first p_variable q_variable) true_constant))) }
{
    let equality = truth_equality(alloc, defs)?;
    let applied = defs.mk_comb_known(alloc, &equality, schema)?;
    let truth = truth_choice(alloc, defs, schema, first)?;
    defs.mk_comb_known(alloc, &applied, &truth)
}

// `(x = T) = x`, for `p` or `q`.
fn untrue_chosen(alloc: Global, defs: &Defs, first: bool) -> Result<Thm, AllocError>
    ensures { IfOk result (λ th. th ≡ plain defs.now (equivalent (equivalent (chosen first p_variable q_variable)
        true_constant) (chosen first p_variable q_variable))) }
{
    let variable = chosen(alloc, first)?;
    let schema = untrue_schema(alloc, defs)?;
    instance(alloc, defs, &schema, &variable, &variable)
}

// `((%f. f p q) c = (%f. f T T) c) = x`, for the chooser `c`, with `p` or `q` for `x`.
fn choice_lemma(alloc: Global, defs: &Defs, first: bool) -> Result<Thm, AllocError>
    ensures { IfOk result (λ th. th ≡ plain defs.now (statement_of (Choice first))) }
{
    let schema = choice_schema(alloc, defs, first)?;
    let choices = choices_by(alloc, defs, first, &schema)?;
    let untrue = untrue_chosen(alloc, defs, first)?;
    defs.trans_known(alloc, &choices, &untrue)
}

// `((p /\ q) = p) = (p = (p /\ q))`
fn implied_exchange(alloc: Global, defs: &Defs) -> Result<Thm, AllocError>
    ensures { IfOk result (λ th. th ≡ plain defs.now (exchanged (conjunction p_variable q_variable) p_variable)) }
{
    let both = conjunction_of_variables(alloc)?;
    let variable = p_variable(alloc)?;
    exchange(alloc, defs, &both, &variable)
}

// `(p --> q) = (p = (p /\ q))`
fn turned_schema(alloc: Global, defs: &Defs) -> Result<Thm, AllocError>
    ensures { IfOk result (λ th. th ≡ plain defs.now (statement_of Turned)) }
{
    let implied = implication_schema(alloc, defs)?;
    let exchange = implied_exchange(alloc, defs)?;
    defs.trans_known(alloc, &implied, &exchange)
}

// `((p /\ q) = p) = (p --> q)`
fn folded_schema(alloc: Global, defs: &Defs) -> Result<Thm, AllocError>
    ensures { IfOk result (λ th. th ≡ plain defs.now (statement_of Folded)) }
{
    let ty = truth_type(alloc)?;
    let implied = implication_schema(alloc, defs)?;
    sym_known(alloc, defs, &implied, &ty, left(implied.concl()))
}

/// The lemma, derived.
pub fn derived(alloc: Global, defs: &Defs, lemma: Lemma) -> Result<Thm, AllocError>
    ensures { IfOk result (λ th. th ≡ plain defs.now (statement_of lemma)) }
{
    match lemma {
        Lemma::Truth => truth_itself(alloc, defs),
        Lemma::Held => held_schema(alloc, defs),
        Lemma::Truthful => truthful_schema(alloc, defs),
        Lemma::Untrue => untrue_schema(alloc, defs),
        Lemma::Conjoined => conjunction_schema(alloc, defs),
        Lemma::Truths => truths_schema(alloc, defs),
        Lemma::Choice(first) => choice_lemma(alloc, defs, first),
        Lemma::Implied => implication_schema(alloc, defs),
        Lemma::Turned => turned_schema(alloc, defs),
        Lemma::Folded => folded_schema(alloc, defs),
    }
}
