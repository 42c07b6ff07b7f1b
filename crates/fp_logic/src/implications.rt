//! Forms of implications. Primitive steps: `mp` 9, `undisch` 10, `disch` 19.
ghost use Rattle.std.specs.Prelude.{◌≡◌, IfOk};
ghost use Rattle.fp_conclude.specs.Logic.{truth_type, equal, conjunction, implication};
ghost use Rattle.fp_conclude.specs.Hypotheses.{without};
ghost use Rattle.fp_conclude.specs.Outcomes.{Answers};
ghost use Rattle.fp_kernel.specs.Definitions.{Within};
ghost use Rattle.fp_kernel.specs.Start.{signature_of};
ghost use Rattle.fp_kernel.specs.Derivability.{IsFormula};
ghost use Rattle.fp_kernel.specs.Theorems.{from_one, from_both, by_one, by_both, from_itself};
ghost use Rattle.fp_logic.specs.Derived.{mp_of, undisch_from, disch_of};
ghost use Rattle.fp_forms.specs.Schemas.{implied};
ghost use Rattle.fp_conclude.specs.Shapes.{right};
ghost use Rattle.fp_logic.specs.Steps.{without_one, IsImplication};

use crate::choosing::conjunct;
use crate::conclude;
use crate::conjunctions::conj_known;
use crate::holding::convert;
use crate::lemmas::lemma_at;
use crate::unfolding::implication_meaning;
use fp_conclude::{RuleFault, conjunction};
use fp_forms::{Lemma, implication_parts};
use fp_kernel::{Defs, Thm};
use fp_term::Term;
use std::alloc::{AllocError, Global};

/// `(l /\ r) = l` from `l --> r`.
pub fn implied_from(
    alloc: Global,
    defs: &Defs,
    a: &Thm,
    left: &Term,
    right: &Term,
) -> Result<Thm, AllocError>
    requires { IsImplication defs.now a.now left.now right.now }
    ensures { IfOk result (λ th. th ≡ by_one defs.now a.now (implied left.now right.now)) }
{
    let meaning = implication_meaning(alloc, defs, left, right)?;
    convert(alloc, defs, &meaning, a)
}

// `l = (l /\ r)` from `l --> r`.
fn conjunction_from(
    alloc: Global,
    defs: &Defs,
    a: &Thm,
    left: &Term,
    right: &Term,
) -> Result<Thm, AllocError>
    requires { IsImplication defs.now a.now left.now right.now }
    ensures { IfOk result (λ th. th ≡ by_one defs.now a.now (equal truth_type left.now
        (conjunction left.now right.now))) }
{
    let meaning = lemma_at(alloc, defs, Lemma::Turned, left, right)?;
    convert(alloc, defs, &meaning, a)
}

// `r` from `l --> r` and `l`, by the two formulas.
fn modus(
    alloc: Global,
    defs: &Defs,
    a: &Thm,
    b: &Thm,
    left: &Term,
    right: &Term,
) -> Result<Thm, AllocError>
    requires implication { IsImplication defs.now a.now left.now right.now }
    requires within { Within b.now.defs defs.now }
    requires premise { b.now.concl ≡ left.now }
    ensures { IfOk result (λ th. th ≡ by_both defs.now a.now b.now right.now) }
{
    let equation = conjunction_from(alloc, defs, a, left, right)?;
    let both = defs.eq_mp_known(alloc, &equation, b)?;
    conjunct(alloc, defs, false, &both, left, right)
}

/// `q` from `p --> q` and `p`.
pub fn mp_known(alloc: Global, defs: &Defs, a: &Thm, b: &Thm) -> Result<Thm, AllocError>
    requires first_within { Within a.now.defs defs.now }
    requires second_within { Within b.now.defs defs.now }
    requires shape { a.now.concl ≡ implication b.now.concl (right a.now.concl) }
    ensures { IfOk result (λ th. th ≡ by_both defs.now a.now b.now (right a.now.concl)) }
{
    modus(alloc, defs, a, b, b.concl(), fp_conclude::right(a.concl()))
}

/// `q` from `p --> q` and `p`.
pub fn mp(alloc: Global, defs: &Defs, a: &Thm, b: &Thm) -> Result<Thm, RuleFault>
    requires first_within { Within a.now.defs defs.now }
    requires second_within { Within b.now.defs defs.now }
    ensures { Answers result (from_both defs.now a.now b.now (mp_of a.now.concl b.now.concl)) }
{
    let concl = conclude::mp(alloc, a.concl(), b.concl())?;
    Ok(modus(alloc, defs, a, b, b.concl(), &concl)?)
}

/// `r` from `l --> r`, with the hypothesis `l` after the others.
pub fn undisch_known(
    alloc: Global,
    defs: &Defs,
    a: &Thm,
    left: &Term,
    right: &Term,
) -> Result<Thm, AllocError>
    requires { IsImplication defs.now a.now left.now right.now }
    ensures { IfOk result (λ th. th ≡ by_both defs.now a.now (from_itself defs.now left.now) right.now) }
{
    let itself = defs.assume_known(alloc, left)?;
    modus(alloc, defs, a, &itself, left, right)
}

/// `q` from `p --> q`, with the hypothesis `p` after the others.
pub fn undisch(alloc: Global, defs: &Defs, a: &Thm) -> Result<Thm, RuleFault>
    requires { Within a.now.defs defs.now }
    ensures { Answers result (undisch_from defs.now a.now) }
{
    let parts = implication_parts(alloc, a.concl())?;
    let Some((left, right)) = parts else {
        return Err(RuleFault::Shape);
    };
    Ok(undisch_known(alloc, defs, a, left, right)?)
}

// `t /\ p` from `p`, with the hypothesis `t`.
fn with_assumption(alloc: Global, defs: &Defs, term: &Term, a: &Thm) -> Result<Thm, AllocError>
    requires within { Within a.now.defs defs.now }
    requires formula { IsFormula (signature_of defs.now) term.now }
    ensures { IfOk result (λ th. th ≡ by_both defs.now (from_itself defs.now term.now) a.now
        (conjunction term.now a.now.concl)) }
{
    let itself = defs.assume_known(alloc, term)?;
    conj_known(alloc, defs, &itself, a)
}

// `l` from `l /\ r` itself.
fn first_assumed(alloc: Global, defs: &Defs, left: &Term, right: &Term) -> Result<Thm, AllocError>
    requires left { IsFormula (signature_of defs.now) left.now }
    requires right { IsFormula (signature_of defs.now) right.now }
    ensures { IfOk result (λ th. th ≡ by_one defs.now (from_itself defs.now (conjunction left.now right.now))
        left.now) }
{
    let both = conjunction(alloc, left, right)?;
    let itself = defs.assume_known(alloc, &both)?;
    conjunct(alloc, defs, true, &itself, left, right)
}

// `(t /\ p) = t` from `p`, without the hypothesis `t`.
fn implied_without(alloc: Global, defs: &Defs, term: &Term, a: &Thm) -> Result<Thm, AllocError>
    requires within { Within a.now.defs defs.now }
    requires formula { IsFormula (signature_of defs.now) term.now }
    ensures { IfOk result (λ th. th ≡ without_one defs.now term.now a.now (implied term.now a.now.concl)) }
{
    let _hyps = a.hyps();
    let _promises = a.promises();
    let first = with_assumption(alloc, defs, term, a)?;
    let second = first_assumed(alloc, defs, term, a.concl())?;
    defs.antisym_known(alloc, &first, &second)
}

/// `t --> p` from `p`, without the hypothesis `t`, for a formula `t`.
pub fn disch_known(alloc: Global, defs: &Defs, term: &Term, a: &Thm) -> Result<Thm, AllocError>
    requires within { Within a.now.defs defs.now }
    requires formula { IsFormula (signature_of defs.now) term.now }
    ensures { IfOk result (λ th. th ≡ without_one defs.now term.now a.now (implication term.now a.now.concl)) }
{
    let implied = implied_without(alloc, defs, term, a)?;
    let meaning = lemma_at(alloc, defs, Lemma::Folded, term, a.concl())?;
    convert(alloc, defs, &meaning, &implied)
}

/// `t --> p` from `p`, without the hypothesis `t`.
pub fn disch(alloc: Global, defs: &Defs, term: &Term, a: &Thm) -> Result<Thm, RuleFault>
    requires { Within a.now.defs defs.now }
    ensures { Answers result (from_one defs.now a.now (without term.now a.now.hyps)
        (disch_of (signature_of defs.now) term.now a.now.concl)) }
{
    let term = fp_conclude::assume(alloc, defs.signature(), term)?;
    Ok(disch_known(alloc, defs, &term, a)?)
}
