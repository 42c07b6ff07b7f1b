//! Promises, and their proofs in their place.
ghost use Rattle.std.specs.Prelude.{◌≡◌, true, [], ◌∷◌, IfOk};
ghost use Rattle.fp_conclude.specs.Outcomes.{Answers};
ghost use Rattle.fp_conclude.specs.Rules.{assume_of};
ghost use Rattle.fp_kernel.specs.Definitions.{Within};
ghost use Rattle.fp_kernel.specs.Start.{signature_of};
ghost use Rattle.fp_kernel.specs.Derivability.{IsFormula};
ghost use Rattle.fp_kernel.specs.Theorems.{IsTheorem, stands, fulfils, fulfilled, cut_of};
ghost use Rattle.fp_kernel.specs.Known.{promised_formula, CanCut};

use crate::defs::Defs;
use crate::promises::{first_not_below, is_promised, promise_union, without_promise};
use crate::thm::Thm;
use fp_conclude::{self, RuleFault};
use fp_term::{Items, Term, copy_all};
use std::alloc::{AllocError, Global};

// Is that a promise of the first theorem, and is the second without hypotheses?
fn fulfils(theorem: &Thm, number: u32, proof: &Thm) -> bool
    ensures { result ≡ fulfils theorem.now number proof.now }
{
    is_promised(number, proof.concl(), theorem.promises()) && proof.hyps().is_empty()
}

impl Defs {
    /// A formula as a promise of that number.
    pub fn promise(&self, alloc: Global, number: u32, term: &Term) -> Result<Thm, RuleFault>
        ensures { Answers result (stands self.now ((number, term.now) ∷ []) [] (assume_of (signature_of self.now) term.now)) }
    {
        let concl = fp_conclude::assume(alloc, self.signature(), term)?;
        Ok(self.promise_known(alloc, number, &concl)?)
    }

    /// A formula as a promise of that number, where it is known to be one.
    pub fn promise_known(&self, alloc: Global, number: u32, term: &Term) -> Result<Thm, AllocError>
        requires { IsFormula (signature_of self.now) term.now }
        ensures { IfOk result (λ th. th ≡ promised_formula self.now number term.now) }
    {
        let mut promises = Items::new(alloc);
        promises.push((number, term.copy()?))?;
        self.theorem(promises, Items::new(alloc), term.copy()?)
    }

    /// The theorem with its promise of that number replaced by its proof, which has no hypotheses and promises of lower
    /// numbers alone.
    pub fn cut(
        &self,
        alloc: Global,
        theorem: &Thm,
        number: u32,
        proof: &Thm,
    ) -> Result<Thm, RuleFault>
        requires first_within { Within theorem.now.defs self.now }
        requires second_within { Within proof.now.defs self.now }
        ensures { Answers result (cut_of self.now theorem.now number proof.now) }
    {
        if !fulfils(theorem, number, proof) {
            return Err(RuleFault::NoSuchPromise(number));
        }
        if let Some(other) = first_not_below(number, proof.promises()) {
            return Err(RuleFault::PromiseOrder(other));
        }
        Ok(self.cut_known(alloc, theorem, number, proof)?)
    }

    /// The theorem with its promise of that number replaced by its proof, where it is known that it is one.
    pub fn cut_known(
        &self,
        alloc: Global,
        theorem: &Thm,
        number: u32,
        proof: &Thm,
    ) -> Result<Thm, AllocError>
        requires { CanCut self.now theorem.now number proof.now }
        ensures { IfOk result (λ th. th ≡ fulfilled self.now theorem.now number proof.now) }
    {
        let rest = without_promise(alloc, number, proof.concl(), theorem.promises())?;
        let promises = promise_union(alloc, rest.as_slice(), proof.promises())?;
        let hyps = copy_all(alloc, theorem.hyps())?;
        self.theorem(promises, hyps, theorem.concl().copy()?)
    }
}
