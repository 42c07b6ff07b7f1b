//! What a disjunction says, and forms of disjunctions. Primitive steps: `cases` 88.
ghost use Rattle.std.specs.Prelude.{◌≡◌, IfOk};
ghost use Rattle.fp_term.specs.Terms.{app};
ghost use Rattle.fp_conclude.specs.Logic.{truth_type, equal, true_constant, implication};
ghost use Rattle.fp_conclude.specs.Outcomes.{Answers};
ghost use Rattle.fp_kernel.specs.Definitions.{Within};
ghost use Rattle.fp_kernel.specs.Derivability.{IsFormula};
ghost use Rattle.fp_kernel.specs.Start.{signature_of};
ghost use Rattle.fp_disjunction.specs.Equations.{disjunction_is, disjunction_is_for_all};
ghost use Rattle.fp_disjunction.specs.Forms.{disjunction};
ghost use Rattle.fp_disjunction.specs.Derived.{either_way, cases_from};
ghost use Rattle.fp_forms.specs.Schemas.{p_variable, q_variable};
ghost use Rattle.fp_disjunction.specs.Schemas.{each_way, all_ways};
ghost use Rattle.fp_kernel.specs.Theorems.{plain, by_one, by_both};
ghost use Rattle.fp_logic.specs.Steps.{without_one};
ghost use Rattle.fp_disjunction.specs.Steps.{IsDisjunction};

use crate::falsity::{always_at, universal};
use crate::parts::disjunction_parts;
use fp_conclude::{LogicalConstant, RuleFault, argument_in, differ};
use fp_kernel::{Defs, Thm};
use fp_logic::choosing::established;
use fp_logic::holding::convert;
use fp_logic::implications::{disch_known, mp_known};
use fp_logic::instances::instance;
use fp_logic::unfolding::unfold_twice;
use fp_term::{Term, same};
use std::alloc::{AllocError, Global};

// `(p \/ q) = (!r. (p --> r) --> (q --> r) --> r)`, for the variables.
fn quantified_schema(alloc: Global, defs: &Defs) -> Result<Thm, AllocError>
    ensures { IfOk result (λ th. th ≡ plain defs.now (disjunction_is_for_all p_variable q_variable)) }
{
    let meaning = defs.connective_known(alloc, LogicalConstant::Disjunction)?;
    unfold_twice(alloc, defs, &meaning)
}

// `(p \/ q) = ((%r. (p --> r) --> (q --> r) --> r) = (%x. T))`, for the variables.
fn disjunction_schema(alloc: Global, defs: &Defs) -> Result<Thm, AllocError>
    ensures { IfOk result (λ th. th ≡ plain defs.now (disjunction_is p_variable q_variable)) }
{
    let quantified = quantified_schema(alloc, defs)?;
    let predicate = argument_in(fp_conclude::right(quantified.concl()));
    let universal = universal(alloc, defs, predicate)?;
    defs.trans_known(alloc, &quantified, &universal)
}

/// What a disjunction says.
pub fn disjunction_meaning(
    alloc: Global,
    defs: &Defs,
    left: &Term,
    right: &Term,
) -> Result<Thm, AllocError>
    requires first { IsFormula (signature_of defs.now) left.now }
    requires second { IsFormula (signature_of defs.now) right.now }
    ensures { IfOk result (λ th. th ≡ plain defs.now (disjunction_is left.now right.now)) }
{
    let schema = disjunction_schema(alloc, defs)?;
    instance(alloc, defs, &schema, left, right)
}

// `(%r. (l --> r) --> (m --> r) --> r) t = T` from `l \/ m`.
fn ways_at(
    alloc: Global,
    defs: &Defs,
    a: &Thm,
    left: &Term,
    right: &Term,
    term: &Term,
) -> Result<Thm, AllocError>
    requires disjunction { IsDisjunction defs.now a.now left.now right.now }
    requires formula { IsFormula (signature_of defs.now) term.now }
    ensures { IfOk result (λ th. th ≡ by_one defs.now a.now (equal truth_type
        (app (all_ways left.now right.now) term.now) true_constant)) }
{
    let meaning = disjunction_meaning(alloc, defs, left, right)?;
    let always = convert(alloc, defs, &meaning, a)?;
    always_at(alloc, defs, &always, term)
}

/// `(l --> t) --> (m --> t) --> t` from `l \/ m`.
pub fn ways(
    alloc: Global,
    defs: &Defs,
    a: &Thm,
    left: &Term,
    right: &Term,
    term: &Term,
) -> Result<Thm, AllocError>
    requires disjunction { IsDisjunction defs.now a.now left.now right.now }
    requires formula { IsFormula (signature_of defs.now) term.now }
    ensures { IfOk result (λ th. th ≡ by_one defs.now a.now (each_way left.now right.now term.now)) }
{
    let against = ways_at(alloc, defs, a, left, right, term)?;
    let equation = defs.beta_known(alloc, fp_conclude::left(against.concl()))?;
    established(alloc, defs, &against, &equation)
}

// `(q --> r) --> r` from `p \/ q` and `r`, without `p` among the hypotheses of the second.
fn first_passed(
    alloc: Global,
    defs: &Defs,
    a: &Thm,
    b: &Thm,
    left: &Term,
    right: &Term,
) -> Result<Thm, AllocError>
    requires disjunction { IsDisjunction defs.now a.now left.now right.now }
    requires within { Within b.now.defs defs.now }
    ensures { IfOk result (λ th. th ≡ by_both defs.now a.now (without_one defs.now left.now b.now b.now.concl)
        (implication (implication right.now b.now.concl) b.now.concl)) }
{
    let ways = ways(alloc, defs, a, left, right, b.concl())?;
    let first = disch_known(alloc, defs, left, b)?;
    mp_known(alloc, defs, &ways, &first)
}

/// `r` from `l \/ m`, from `r` and from `r`, without `l` among the hypotheses of the second theorem and without `m`
/// among those of the third.
pub fn cases_known(
    alloc: Global,
    defs: &Defs,
    a: &Thm,
    b: &Thm,
    c: &Thm,
    left: &Term,
    right: &Term,
) -> Result<Thm, AllocError>
    requires disjunction { IsDisjunction defs.now a.now left.now right.now }
    requires second_within { Within b.now.defs defs.now }
    requires third_within { Within c.now.defs defs.now }
    requires same { b.now.concl ≡ c.now.concl }
    ensures { IfOk result (λ th. th ≡ either_way defs.now a.now b.now c.now (left.now, right.now)) }
{
    let once = first_passed(alloc, defs, a, b, left, right)?;
    let second = disch_known(alloc, defs, right, c)?;
    mp_known(alloc, defs, &once, &second)
}

/// `r` from `p \/ q`, from `r` and from `r`, without `p` among the hypotheses of the second theorem and without `q`
/// among those of the third.
pub fn cases(alloc: Global, defs: &Defs, a: &Thm, b: &Thm, c: &Thm) -> Result<Thm, RuleFault>
    requires first_within { Within a.now.defs defs.now }
    requires second_within { Within b.now.defs defs.now }
    requires third_within { Within c.now.defs defs.now }
    ensures { Answers result (cases_from defs.now a.now b.now c.now) }
{
    let parts = disjunction_parts(alloc, a.concl())?;
    let Some((left, right)) = parts else {
        return Err(RuleFault::Shape);
    };
    if !same(b.concl(), c.concl()) {
        return Err(differ(b.concl(), c.concl()));
    }
    Ok(cases_known(alloc, defs, a, b, c, left, right)?)
}
