//! Forms of conjunctions. Primitive steps: `conj` 8, `conj1` and `conj2` 6.
ghost use Rattle.std.specs.Prelude.{◌≡◌, codes, IfOk};
ghost use Rattle.fp_conclude.specs.Logic.{truth_type, binary_type, equal, true_constant, connective, conjunction};
ghost use Rattle.fp_conclude.specs.Outcomes.{Answers, gives};
ghost use Rattle.fp_kernel.specs.Definitions.{Within};
ghost use Rattle.fp_kernel.specs.Theorems.{from_one, from_both, plain, by_one, by_both};
ghost use Rattle.fp_logic.specs.Derived.{conj1_of, conj2_of};
ghost use Rattle.fp_forms.specs.Schemas.{held};
ghost use Rattle.fp_conclude.specs.Shapes.{right};
ghost use Rattle.fp_logic.specs.Steps.{IsConjunction};

use crate::choosing::conjunct;
use crate::holding::hold;
use crate::lemmas::recalled;
use fp_conclude::{RuleFault, connective};
use fp_forms::{Lemma, conjunction_parts};
use fp_kernel::{Defs, Thm};
use fp_term::Term;
use std::alloc::{AllocError, Global};

// `and = and`
#[tactic(auto, unfolding(fp_term::specs::Names::is_name))]
fn own_and(alloc: Global, defs: &Defs) -> Result<Thm, AllocError>
    ensures { IfOk result (λ th. th ≡ plain defs.now (equal (binary_type truth_type truth_type)
        (connective (codes "and")) (connective (codes "and")))) }
{
    let and = connective(alloc, b"and")?;
    defs.refl_known(alloc, &and)
}

// `(T /\ T) = (p /\ q)` from `T = p` and `T = q`.
fn conjoined_sides(alloc: Global, defs: &Defs, first: &Thm, second: &Thm) -> Result<Thm, AllocError>
    requires first { first.now ≡ by_one defs.now first.now (held (right first.now.concl)) }
    requires second { second.now ≡ by_one defs.now second.now (held (right second.now.concl)) }
    ensures { IfOk result (λ th. th ≡ by_both defs.now first.now second.now (equal truth_type
        (conjunction true_constant true_constant) (conjunction (right first.now.concl) (right second.now.concl)))) }
{
    let _hyps = first.hyps();
    let _promises = first.promises();
    let own = own_and(alloc, defs)?;
    let once = defs.mk_comb_known(alloc, &own, first)?;
    defs.mk_comb_known(alloc, &once, second)
}

// `(T /\ T) = (p /\ q)` from `p` and `q`.
fn conjoined_truths(alloc: Global, defs: &Defs, a: &Thm, b: &Thm) -> Result<Thm, AllocError>
    requires first_within { Within a.now.defs defs.now }
    requires second_within { Within b.now.defs defs.now }
    ensures { IfOk result (λ th. th ≡ by_both defs.now a.now b.now (equal truth_type
        (conjunction true_constant true_constant) (conjunction a.now.concl b.now.concl))) }
{
    let first = hold(alloc, defs, a)?;
    let second = hold(alloc, defs, b)?;
    conjoined_sides(alloc, defs, &first, &second)
}

// What follows from `(T /\ T) = p`.
fn conclude_from(alloc: Global, defs: &Defs, th: &Thm) -> Result<Thm, AllocError>
    requires { th.now ≡ by_one defs.now th.now (equal truth_type (conjunction true_constant true_constant)
        (right th.now.concl)) }
    ensures { IfOk result (λ p. p ≡ by_one defs.now th.now (right th.now.concl)) }
{
    let truths = recalled(alloc, defs, Lemma::Truths)?;
    defs.eq_mp_known(alloc, th, &truths)
}

/// `p /\ q` from `p` and `q`.
pub fn conj_known(alloc: Global, defs: &Defs, a: &Thm, b: &Thm) -> Result<Thm, AllocError>
    requires first_within { Within a.now.defs defs.now }
    requires second_within { Within b.now.defs defs.now }
    ensures { IfOk result (λ th. th ≡ by_both defs.now a.now b.now (conjunction a.now.concl b.now.concl)) }
{
    let joined = conjoined_truths(alloc, defs, a, b)?;
    conclude_from(alloc, defs, &joined)
}

/// `p /\ q` from `p` and `q`.
pub fn conj(alloc: Global, defs: &Defs, a: &Thm, b: &Thm) -> Result<Thm, RuleFault>
    requires first_within { Within a.now.defs defs.now }
    requires second_within { Within b.now.defs defs.now }
    ensures { Answers result (from_both defs.now a.now b.now (gives (conjunction a.now.concl b.now.concl))) }
{
    Ok(conj_known(alloc, defs, a, b)?)
}

/// `l` from `l /\ r`.
pub fn conj1_known(
    alloc: Global,
    defs: &Defs,
    a: &Thm,
    left: &Term,
    right: &Term,
) -> Result<Thm, AllocError>
    requires { IsConjunction defs.now a.now left.now right.now }
    ensures { IfOk result (λ th. th ≡ by_one defs.now a.now left.now) }
{
    conjunct(alloc, defs, true, a, left, right)
}

/// `p` from `p /\ q`.
pub fn conj1(alloc: Global, defs: &Defs, a: &Thm) -> Result<Thm, RuleFault>
    requires { Within a.now.defs defs.now }
    ensures { Answers result (from_one defs.now a.now a.now.hyps (conj1_of a.now.concl)) }
{
    let parts = conjunction_parts(alloc, a.concl())?;
    let Some((left, right)) = parts else {
        return Err(RuleFault::Shape);
    };
    Ok(conj1_known(alloc, defs, a, left, right)?)
}

/// `r` from `l /\ r`.
pub fn conj2_known(
    alloc: Global,
    defs: &Defs,
    a: &Thm,
    left: &Term,
    right: &Term,
) -> Result<Thm, AllocError>
    requires { IsConjunction defs.now a.now left.now right.now }
    ensures { IfOk result (λ th. th ≡ by_one defs.now a.now right.now) }
{
    conjunct(alloc, defs, false, a, left, right)
}

/// `q` from `p /\ q`.
pub fn conj2(alloc: Global, defs: &Defs, a: &Thm) -> Result<Thm, RuleFault>
    requires { Within a.now.defs defs.now }
    ensures { Answers result (from_one defs.now a.now a.now.hyps (conj2_of a.now.concl)) }
{
    let parts = conjunction_parts(alloc, a.concl())?;
    let Some((left, right)) = parts else {
        return Err(RuleFault::Shape);
    };
    Ok(conj2_known(alloc, defs, a, left, right)?)
}
