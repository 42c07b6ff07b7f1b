//! Lemmas that depend on no argument: each is derived once, kept beside the definitions, and then used at formulas by
//! one rule (`inst`).
ghost use Rattle.std.specs.Prelude.{◌≡◌, [], IfOk};
ghost use Rattle.fp_term.specs.Terms.{replaced};
ghost use Rattle.fp_kernel.specs.Derivability.{IsFormula};
ghost use Rattle.fp_kernel.specs.Start.{signature_of};
ghost use Rattle.fp_forms.specs.Lemmas.{statement_of};
ghost use Rattle.fp_forms.specs.Schemas.{in_place};
ghost use Rattle.fp_kernel.specs.Theorems.{plain};

use crate::derivations::derived;
use crate::instances::instance_of;
use fp_forms::{Lemma, statement};
use fp_kernel::{Defs, Thm};
use fp_term::Term;
use std::alloc::{AllocError, Global};

// The place in which the lemma is kept.
fn place(lemma: Lemma) -> usize {
    match lemma {
        Lemma::Truth => 0,
        Lemma::Held => 1,
        Lemma::Truthful => 2,
        Lemma::Untrue => 3,
        Lemma::Conjoined => 4,
        Lemma::Truths => 5,
        Lemma::Choice(false) => 6,
        Lemma::Choice(true) => 7,
        Lemma::Implied => 8,
        Lemma::Turned => 9,
        Lemma::Folded => 10,
    }
}

// Derives the lemma over no definitions, and keeps it.
fn first_time(alloc: Global, defs: &Defs, lemma: Lemma) -> Result<Thm, AllocError>
    ensures { IfOk result (λ th. th ≡ plain [] (statement_of lemma)) }
{
    let start = Defs::new(alloc)?;
    let theorem = derived(alloc, &start, lemma)?;
    defs.keep(alloc, place(lemma), theorem.copy(alloc)?)?;
    Ok(theorem)
}

/// The lemma, over no definitions.
pub fn recalled(alloc: Global, defs: &Defs, lemma: Lemma) -> Result<Thm, AllocError>
    ensures { IfOk result (λ th. th ≡ plain [] (statement_of lemma)) }
{
    let statement = statement(alloc, lemma)?;
    match defs.kept(place(lemma), &statement) {
        Some(theorem) => theorem.copy(alloc),
        None => first_time(alloc, defs, lemma),
    }
}

/// The lemma with formulas in place of `p` and `q`.
pub fn lemma_at(
    alloc: Global,
    defs: &Defs,
    which: Lemma,
    left: &Term,
    right: &Term,
) -> Result<Thm, AllocError>
    requires first { IsFormula (signature_of defs.now) left.now }
    requires second { IsFormula (signature_of defs.now) right.now }
    ensures { IfOk result (λ th. th ≡ plain defs.now (replaced (in_place left.now right.now) (statement_of which))) }
{
    let theorem = recalled(alloc, defs, which)?;
    instance_of(alloc, defs, &theorem, left, right)
}
