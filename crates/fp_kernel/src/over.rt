//! Theorems over a list of definitions, with the hypotheses and the promises of others.
ghost use Rattle.std.specs.Prelude.{◌≡◌, [], IfOk};
ghost use Rattle.fp_conclude.specs.Logic.{truth_type, equal};
ghost use Rattle.fp_conclude.specs.Hypotheses.{IsSet, union, without};
ghost use Rattle.fp_kernel.specs.Derivability.{Derives};
ghost use Rattle.fp_kernel.specs.Theorems.{promise_union, by_both};

use crate::defs::Defs;
use crate::promises::{copy_promises, promise_union};
use crate::thm::Thm;
use fp_conclude::{equation, truth_type, union, without};
use fp_term::{Items, Term};
use std::alloc::{AllocError, Global};

/// The hypotheses of the one theorem but the other's conclusion, and then the other's but the one's.
pub(crate) fn remaining(alloc: Global, first: &Thm, second: &Thm) -> Result<Items<Term>, AllocError>
    ensures value { IfOk result (λ hyps. hyps ≡ union (without second.now.concl first.now.hyps) (without first.now.concl second.now.hyps)) }
    ensures set { IfOk result (λ hyps. IsSet hyps) }
{
    let left = without(alloc, second.concl(), first.hyps())?;
    let right = without(alloc, first.concl(), second.hyps())?;
    let hyps = union(alloc, left.as_slice(), right.as_slice())?;
    Ok(hyps)
}

/// `p = q`, for formulas.
pub(crate) fn equivalence(alloc: Global, left: &Term, right: &Term) -> Result<Term, AllocError>
    ensures { IfOk result (λ t. t ≡ equal truth_type left.now right.now) }
{
    let ty = truth_type(alloc)?;
    equation(alloc, &ty, left, right)
}

impl Defs {
    /// The theorem without promises.
    pub(crate) fn plain(
        &self,
        alloc: Global,
        hyps: Items<Term>,
        concl: Term,
    ) -> Result<Thm, AllocError>
        requires derived { Derives self.now [] hyps concl }
        requires set { IsSet hyps }
        ensures { IfOk result (λ th. th ≡ record { defs = self.now; promises = []; hyps = hyps; concl = concl }) }
    {
        self.theorem(Items::new(alloc), hyps, concl)
    }

    /// The theorem with the promises of another.
    pub(crate) fn over_one(
        &self,
        alloc: Global,
        given: &Thm,
        hyps: Items<Term>,
        concl: Term,
    ) -> Result<Thm, AllocError>
        requires derived { Derives self.now given.now.promises hyps concl }
        requires set { IsSet hyps }
        ensures { IfOk result (λ th. th ≡ record { defs = self.now; promises = given.now.promises; hyps = hyps; concl = concl }) }
    {
        let promises = copy_promises(alloc, given.promises())?;
        self.theorem(promises, hyps, concl)
    }

    /// The theorem with the promises of two others.
    pub(crate) fn over_two(
        &self,
        alloc: Global,
        first: &Thm,
        second: &Thm,
        hyps: Items<Term>,
        concl: Term,
    ) -> Result<Thm, AllocError>
        requires derived { Derives self.now (promise_union first.now.promises second.now.promises) hyps concl }
        requires set { IsSet hyps }
        ensures { IfOk result (λ th. th ≡ record { defs = self.now; promises = promise_union first.now.promises second.now.promises; hyps = hyps; concl = concl }) }
    {
        let promises = promise_union(alloc, first.promises(), second.promises())?;
        self.theorem(promises, hyps, concl)
    }

    /// The theorem with the hypotheses and the promises of two others.
    pub(crate) fn over_both(
        &self,
        alloc: Global,
        first: &Thm,
        second: &Thm,
        concl: Term,
    ) -> Result<Thm, AllocError>
        requires { Derives self.now (promise_union first.now.promises second.now.promises) (union first.now.hyps second.now.hyps) concl }
        ensures { IfOk result (λ th. th ≡ by_both self.now first.now second.now concl) }
    {
        let hyps = union(alloc, first.hyps(), second.hyps())?;
        self.over_two(alloc, first, second, hyps, concl)
    }
}
