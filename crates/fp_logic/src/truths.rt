//! Forms of `T`. Primitive steps: `truth` 1, `eqt` and `eqt_elim` 2.
ghost use Rattle.std.specs.Prelude.{◌≡◌, [], IfOk};
ghost use Rattle.fp_conclude.specs.Logic.{truth_type, equal, true_constant};
ghost use Rattle.fp_conclude.specs.Outcomes.{Answers, gives};
ghost use Rattle.fp_kernel.specs.Definitions.{Within};
ghost use Rattle.fp_kernel.specs.Theorems.{stands, from_one, by_one};
ghost use Rattle.fp_logic.specs.Derived.{eqt_elim_of};

use crate::conclude;
use crate::holding::convert;
use crate::lemmas::lemma_at;
use fp_conclude::{RuleFault, true_constant};
use fp_forms::Lemma;
use fp_kernel::{Defs, Thm};
use fp_term::Term;
use std::alloc::{AllocError, Global};

/// `T`.
pub fn truth(alloc: Global, defs: &Defs) -> Result<Thm, RuleFault>
    ensures { Answers result (stands defs.now [] [] (gives true_constant)) }
{
    let term = true_constant(alloc)?;
    Ok(lemma_at(alloc, defs, Lemma::Truth, &term, &term)?)
}

/// `p = T` from `p`.
pub fn eqt_known(alloc: Global, defs: &Defs, a: &Thm) -> Result<Thm, AllocError>
    requires { Within a.now.defs defs.now }
    ensures { IfOk result (λ th. th ≡ by_one defs.now a.now (equal truth_type a.now.concl true_constant)) }
{
    let equation = lemma_at(alloc, defs, Lemma::Truthful, a.concl(), a.concl())?;
    convert(alloc, defs, &equation, a)
}

/// `p = T` from `p`.
pub fn eqt(alloc: Global, defs: &Defs, a: &Thm) -> Result<Thm, RuleFault>
    requires { Within a.now.defs defs.now }
    ensures { Answers result (from_one defs.now a.now a.now.hyps (gives (equal truth_type a.now.concl true_constant))) }
{
    Ok(eqt_known(alloc, defs, a)?)
}

/// `p` from `p = T`, for that formula `p`.
pub fn eqt_elim_known(alloc: Global, defs: &Defs, a: &Thm, concl: &Term) -> Result<Thm, AllocError>
    requires within { Within a.now.defs defs.now }
    requires shape { a.now.concl ≡ equal truth_type concl.now true_constant }
    ensures { IfOk result (λ th. th ≡ by_one defs.now a.now concl.now) }
{
    let _concl = a.concl();
    let equation = lemma_at(alloc, defs, Lemma::Untrue, concl, concl)?;
    convert(alloc, defs, &equation, a)
}

/// `p` from `p = T`.
pub fn eqt_elim(alloc: Global, defs: &Defs, a: &Thm) -> Result<Thm, RuleFault>
    requires { Within a.now.defs defs.now }
    ensures { Answers result (from_one defs.now a.now a.now.hyps (eqt_elim_of a.now.concl)) }
{
    let concl = conclude::eqt_elim(alloc, a.concl())?;
    Ok(eqt_elim_known(alloc, defs, a, &concl)?)
}
