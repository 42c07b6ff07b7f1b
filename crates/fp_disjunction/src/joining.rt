//! Disjunctions from one of their formulas. Primitive steps: `disj1` 8, `disj2` 6.
ghost use Rattle.std.specs.Prelude.{◌≡◌, IfOk};
ghost use Rattle.fp_conclude.specs.Logic.{truth_type, equal, true_constant, implication};
ghost use Rattle.fp_conclude.specs.Outcomes.{Answers};
ghost use Rattle.fp_kernel.specs.Definitions.{Within};
ghost use Rattle.fp_kernel.specs.Derivability.{IsFormula};
ghost use Rattle.fp_kernel.specs.Start.{signature_of};
ghost use Rattle.fp_kernel.specs.Theorems.{from_one, plain, from_itself, by_one};
ghost use Rattle.fp_disjunction.specs.Derived.{disj1_of, disj2_of};
ghost use Rattle.fp_disjunction.specs.Equations.{disjunction_is, true_for_all_r, or_is_itself, or_of_is_itself, or_of_truth_is, truth_first_is, truth_second_is};
ghost use Rattle.fp_disjunction.specs.Forms.{disjunction};
ghost use Rattle.fp_forms.specs.Schemas.{q_variable, held};
ghost use Rattle.fp_disjunction.specs.Schemas.{r_variable, each_way, all_ways, always_true};
ghost use Rattle.fp_conclude.specs.Shapes.{left, right};
ghost use Rattle.fp_disjunction.specs.Steps.{without_both};

use crate::disjunctions::disjunction_meaning;
use crate::kept::joined_truth;
use fp_conclude::{RuleFault, apply, connective, implication, true_constant, truth_type};
use fp_forms::q_variable;
use fp_kernel::{Defs, Thm};
use fp_logic::holding::{fold, hold, truth_itself};
use fp_logic::implications::{disch_known, mp_known};
use fp_logic::instances::instance_of;
use fp_logic::truths::eqt_known;
use fp_term::{Name, Term};
use std::alloc::{AllocError, Global};

// `r`, the variable.
#[tactic(auto, unfolding(fp_term::specs::Names::is_name))]
fn r_variable(alloc: Global) -> Result<Term, AllocError>
    ensures { IfOk result (λ t. t ≡ r_variable) }
{
    Term::free(alloc, Name::of(alloc, b"r")?, truth_type(alloc)?)
}

// `T --> r`, for the variable.
fn from_truth(alloc: Global) -> Result<Term, AllocError>
    ensures { IfOk result (λ t. t ≡ implication true_constant r_variable) }
{
    let truth = true_constant(alloc)?;
    let variable = r_variable(alloc)?;
    implication(alloc, &truth, &variable)
}

// `q --> r`, for the variables.
fn from_other(alloc: Global) -> Result<Term, AllocError>
    ensures { IfOk result (λ t. t ≡ implication q_variable r_variable) }
{
    let other = q_variable(alloc)?;
    let variable = r_variable(alloc)?;
    implication(alloc, &other, &variable)
}

// `r` from `T --> r` itself.
fn reached(alloc: Global, defs: &Defs, term: &Term) -> Result<Thm, AllocError>
    requires { term.now ≡ implication true_constant r_variable }
    ensures { IfOk result (λ th. th ≡ by_one defs.now (from_itself defs.now (implication true_constant r_variable))
        r_variable) }
{
    let itself = defs.assume_known(alloc, term)?;
    let truth = truth_itself(alloc, defs)?;
    mp_known(alloc, defs, &itself, &truth)
}

// `m --> l --> p` from `p`, without the hypotheses `l` and `m`, for formulas.
fn discharged_twice(
    alloc: Global,
    defs: &Defs,
    first: &Term,
    second: &Term,
    a: &Thm,
) -> Result<Thm, AllocError>
    requires within { Within a.now.defs defs.now }
    requires first { IsFormula (signature_of defs.now) first.now }
    requires second { IsFormula (signature_of defs.now) second.now }
    ensures { IfOk result (λ th. th ≡ without_both defs.now first.now second.now a.now (implication second.now
        (implication first.now a.now.concl))) }
{
    let once = disch_known(alloc, defs, first, a)?;
    disch_known(alloc, defs, second, &once)
}

// `(T --> r) --> (q --> r) --> r`, by the two assumptions.
fn first_way_of(
    alloc: Global,
    defs: &Defs,
    truth_case: &Term,
    other_case: &Term,
) -> Result<Thm, AllocError>
    requires truth_case { truth_case.now ≡ implication true_constant r_variable }
    requires other_case { other_case.now ≡ implication q_variable r_variable }
    ensures { IfOk result (λ th. th ≡ plain defs.now (each_way true_constant q_variable r_variable)) }
{
    let reached = reached(alloc, defs, truth_case)?;
    discharged_twice(alloc, defs, other_case, truth_case, &reached)
}

// `(q --> r) --> (T --> r) --> r`, by the two assumptions.
fn second_way_of(
    alloc: Global,
    defs: &Defs,
    truth_case: &Term,
    other_case: &Term,
) -> Result<Thm, AllocError>
    requires truth_case { truth_case.now ≡ implication true_constant r_variable }
    requires other_case { other_case.now ≡ implication q_variable r_variable }
    ensures { IfOk result (λ th. th ≡ plain defs.now (each_way q_variable true_constant r_variable)) }
{
    let reached = reached(alloc, defs, truth_case)?;
    discharged_twice(alloc, defs, truth_case, other_case, &reached)
}

// `(T --> r) --> (q --> r) --> r`, for the variables.
fn first_way(alloc: Global, defs: &Defs) -> Result<Thm, AllocError>
    ensures { IfOk result (λ th. th ≡ plain defs.now (each_way true_constant q_variable r_variable)) }
{
    let truth_case = from_truth(alloc)?;
    let other_case = from_other(alloc)?;
    first_way_of(alloc, defs, &truth_case, &other_case)
}

// `(q --> r) --> (T --> r) --> r`, for the variables.
fn second_way(alloc: Global, defs: &Defs) -> Result<Thm, AllocError>
    ensures { IfOk result (λ th. th ≡ plain defs.now (each_way q_variable true_constant r_variable)) }
{
    let truth_case = from_truth(alloc)?;
    let other_case = from_other(alloc)?;
    second_way_of(alloc, defs, &truth_case, &other_case)
}

// `(%r. p) = (%r. T)` from `p = T` without hypotheses, for the variable `r`.
#[tactic(auto, unfolding(fp_term::specs::Names::is_name))]
fn abstracted(alloc: Global, defs: &Defs, th: &Thm) -> Result<Thm, AllocError>
    requires { th.now ≡ plain defs.now (equal truth_type (left th.now.concl) true_constant) }
    ensures { IfOk result (λ g. g ≡ plain defs.now (true_for_all_r (left th.now.concl))) }
{
    let name = Name::of(alloc, b"r")?;
    let ty = truth_type(alloc)?;
    defs.lam_known(alloc, &name, &ty, th)
}

// `(%r. p) = (%r. T)` from `p` without hypotheses, for the variable `r`.
fn generalized(alloc: Global, defs: &Defs, th: &Thm) -> Result<Thm, AllocError>
    requires { th.now ≡ plain defs.now th.now.concl }
    ensures { IfOk result (λ g. g ≡ plain defs.now (true_for_all_r th.now.concl)) }
{
    let equation = eqt_known(alloc, defs, th)?;
    abstracted(alloc, defs, &equation)
}

// `(%r. (T --> r) --> (q --> r) --> r) = (%r. T)`, for the variable `q`.
fn first_ways(alloc: Global, defs: &Defs) -> Result<Thm, AllocError>
    ensures { IfOk result (λ th. th ≡ plain defs.now (always_true (all_ways true_constant q_variable))) }
{
    let way = first_way(alloc, defs)?;
    generalized(alloc, defs, &way)
}

// `(%r. (q --> r) --> (T --> r) --> r) = (%r. T)`, for the variable `q`.
fn second_ways(alloc: Global, defs: &Defs) -> Result<Thm, AllocError>
    ensures { IfOk result (λ th. th ≡ plain defs.now (always_true (all_ways q_variable true_constant))) }
{
    let way = second_way(alloc, defs)?;
    generalized(alloc, defs, &way)
}

/// `T \/ q`, for the variable.
pub fn first_schema(alloc: Global, defs: &Defs) -> Result<Thm, AllocError>
    ensures { IfOk result (λ th. th ≡ plain defs.now (disjunction true_constant q_variable)) }
{
    let ways = first_ways(alloc, defs)?;
    let meaning = truth_first(alloc, defs)?;
    fold(alloc, defs, &meaning, &ways)
}

/// `q \/ T`, for the variable.
pub fn second_schema(alloc: Global, defs: &Defs) -> Result<Thm, AllocError>
    ensures { IfOk result (λ th. th ≡ plain defs.now (disjunction q_variable true_constant)) }
{
    let ways = second_ways(alloc, defs)?;
    let meaning = truth_second(alloc, defs)?;
    fold(alloc, defs, &meaning, &ways)
}

// What `T \/ q` says, for the variable.
fn truth_first(alloc: Global, defs: &Defs) -> Result<Thm, AllocError>
    ensures { IfOk result (λ th. th ≡ plain defs.now (disjunction_is true_constant q_variable)) }
{
    let truth = true_constant(alloc)?;
    let other = q_variable(alloc)?;
    disjunction_meaning(alloc, defs, &truth, &other)
}

// What `q \/ T` says, for the variable.
fn truth_second(alloc: Global, defs: &Defs) -> Result<Thm, AllocError>
    ensures { IfOk result (λ th. th ≡ plain defs.now (disjunction_is q_variable true_constant)) }
{
    let truth = true_constant(alloc)?;
    let other = q_variable(alloc)?;
    disjunction_meaning(alloc, defs, &other, &truth)
}

// `or = or`
#[tactic(auto, unfolding(fp_term::specs::Names::is_name))]
fn own_or(alloc: Global, defs: &Defs) -> Result<Thm, AllocError>
    ensures { IfOk result (λ th. th ≡ plain defs.now or_is_itself) }
{
    let or = connective(alloc, b"or")?;
    defs.refl_known(alloc, &or)
}

// `or T = or p` from `T = p`.
fn or_replaced(alloc: Global, defs: &Defs, th: &Thm) -> Result<Thm, AllocError>
    requires { th.now ≡ by_one defs.now th.now (held (right th.now.concl)) }
    ensures { IfOk result (λ e. e ≡ by_one defs.now th.now (or_of_truth_is (right th.now.concl))) }
{
    let _hyps = th.hyps();
    let _promises = th.promises();
    let or = own_or(alloc, defs)?;
    defs.mk_comb_known(alloc, &or, th)
}

// `(T \/ t) = (p \/ t)` from `T = p`.
fn first_replaced(alloc: Global, defs: &Defs, th: &Thm, term: &Term) -> Result<Thm, AllocError>
    requires held { th.now ≡ by_one defs.now th.now (held (right th.now.concl)) }
    requires formula { IsFormula (signature_of defs.now) term.now }
    ensures { IfOk result (λ e. e ≡ by_one defs.now th.now (truth_first_is (right th.now.concl) term.now)) }
{
    let once = or_replaced(alloc, defs, th)?;
    let own = defs.refl_known(alloc, term)?;
    defs.mk_comb_known(alloc, &once, &own)
}

// `or t = or t`
#[tactic(auto, unfolding(fp_term::specs::Names::is_name))]
fn own_or_at(alloc: Global, defs: &Defs, term: &Term) -> Result<Thm, AllocError>
    requires { IsFormula (signature_of defs.now) term.now }
    ensures { IfOk result (λ th. th ≡ plain defs.now (or_of_is_itself term.now)) }
{
    let or = connective(alloc, b"or")?;
    let applied = apply(alloc, &or, term)?;
    defs.refl_known(alloc, &applied)
}

// `(t \/ T) = (t \/ p)` from `T = p`.
fn second_replaced(alloc: Global, defs: &Defs, th: &Thm, term: &Term) -> Result<Thm, AllocError>
    requires held { th.now ≡ by_one defs.now th.now (held (right th.now.concl)) }
    requires formula { IsFormula (signature_of defs.now) term.now }
    ensures { IfOk result (λ e. e ≡ by_one defs.now th.now (truth_second_is term.now (right th.now.concl))) }
{
    let _hyps = th.hyps();
    let _promises = th.promises();
    let once = own_or_at(alloc, defs, term)?;
    defs.mk_comb_known(alloc, &once, th)
}

// `(T \/ t) = (p \/ t)` from `p`, for a formula `t`.
fn first_equation(alloc: Global, defs: &Defs, a: &Thm, term: &Term) -> Result<Thm, AllocError>
    requires within { Within a.now.defs defs.now }
    requires formula { IsFormula (signature_of defs.now) term.now }
    ensures { IfOk result (λ e. e ≡ by_one defs.now a.now (truth_first_is a.now.concl term.now)) }
{
    let held = hold(alloc, defs, a)?;
    first_replaced(alloc, defs, &held, term)
}

// `(t \/ T) = (t \/ p)` from `p`, for a formula `t`.
fn second_equation(alloc: Global, defs: &Defs, term: &Term, a: &Thm) -> Result<Thm, AllocError>
    requires within { Within a.now.defs defs.now }
    requires formula { IsFormula (signature_of defs.now) term.now }
    ensures { IfOk result (λ e. e ≡ by_one defs.now a.now (truth_second_is term.now a.now.concl)) }
{
    let held = hold(alloc, defs, a)?;
    second_replaced(alloc, defs, &held, term)
}

// `T \/ t`, for a formula `t`.
fn first_truth(alloc: Global, defs: &Defs, term: &Term) -> Result<Thm, AllocError>
    requires { IsFormula (signature_of defs.now) term.now }
    ensures { IfOk result (λ th. th ≡ plain defs.now (disjunction true_constant term.now)) }
{
    let schema = joined_truth(alloc, defs, true)?;
    instance_of(alloc, defs, &schema, term, term)
}

// `t \/ T`, for a formula `t`.
fn second_truth(alloc: Global, defs: &Defs, term: &Term) -> Result<Thm, AllocError>
    requires { IsFormula (signature_of defs.now) term.now }
    ensures { IfOk result (λ th. th ≡ plain defs.now (disjunction term.now true_constant)) }
{
    let schema = joined_truth(alloc, defs, false)?;
    instance_of(alloc, defs, &schema, term, term)
}

/// `p \/ t` from `p`, for a formula `t`.
pub fn disj1_known(alloc: Global, defs: &Defs, a: &Thm, term: &Term) -> Result<Thm, AllocError>
    requires within { Within a.now.defs defs.now }
    requires formula { IsFormula (signature_of defs.now) term.now }
    ensures { IfOk result (λ th. th ≡ by_one defs.now a.now (disjunction a.now.concl term.now)) }
{
    let equation = first_equation(alloc, defs, a, term)?;
    let truth = first_truth(alloc, defs, term)?;
    defs.eq_mp_known(alloc, &equation, &truth)
}

/// `t \/ p` from `p`, for a formula `t`.
pub fn disj2_known(alloc: Global, defs: &Defs, term: &Term, a: &Thm) -> Result<Thm, AllocError>
    requires within { Within a.now.defs defs.now }
    requires formula { IsFormula (signature_of defs.now) term.now }
    ensures { IfOk result (λ th. th ≡ by_one defs.now a.now (disjunction term.now a.now.concl)) }
{
    let equation = second_equation(alloc, defs, term, a)?;
    let truth = second_truth(alloc, defs, term)?;
    defs.eq_mp_known(alloc, &equation, &truth)
}

/// `p \/ t` from `p`.
pub fn disj1(alloc: Global, defs: &Defs, a: &Thm, term: &Term) -> Result<Thm, RuleFault>
    requires { Within a.now.defs defs.now }
    ensures { Answers result (from_one defs.now a.now a.now.hyps (disj1_of (signature_of defs.now) a.now.concl
        term.now)) }
{
    let term = fp_conclude::assume(alloc, defs.signature(), term)?;
    Ok(disj1_known(alloc, defs, a, &term)?)
}

/// `t \/ p` from `p`.
pub fn disj2(alloc: Global, defs: &Defs, term: &Term, a: &Thm) -> Result<Thm, RuleFault>
    requires { Within a.now.defs defs.now }
    ensures { Answers result (from_one defs.now a.now a.now.hyps (disj2_of (signature_of defs.now) term.now
        a.now.concl)) }
{
    let term = fp_conclude::assume(alloc, defs.signature(), term)?;
    Ok(disj2_known(alloc, defs, &term, a)?)
}
