//! Theorems.
ghost use Rattle.std.specs.Prelude.{◌≡◌, [], length, IfOk};
ghost use Rattle.fp_conclude.specs.Hypotheses.{IsSet};
ghost use Rattle.fp_kernel.specs.Theorems.{IsTheorem, ArePromises, plain};
ghost use Rattle.fp_kernel.specs.Start.{signature_of};
ghost use Rattle.fp_kernel.specs.Conservative.{IsConservative};
ghost use Rattle.fp_kernel.specs.Derivability.{Derives, IsFormula, AreFormulas};

use crate::definition::Definitions;
use crate::promises::copy_promises;
use fp_term::{Items, Statement, Term, copy_all};
use std::alloc::{AllocError, Global};
use std::marker::Model;

/// A theorem: what the hypotheses and the promises give by the definitions. It keeps its list of definitions, which is
/// conservative.
pub struct Thm {
    defs: Definitions,
    promises: Items<(u32, Term)>,
    hyps: Items<Term>,
    concl: Term,
}

impl Drop for Thm {
    fn drop(self) {
        let Thm {
            defs,
            promises,
            hyps,
            concl,
        } = self;
        drop(defs);
        drop(promises);
        drop(hyps);
        drop(concl);
    }
}

impl Model for Thm {
    ghost use Rattle.fp_conclude.specs.Hypotheses.{IsSet};
    ghost use Rattle.fp_kernel.specs.Theorems.{Theorem, ArePromises};
    ghost use Rattle.fp_kernel.specs.Derivability.{Derives};
    ghost use Rattle.fp_kernel.specs.Codes.{coded_theorem};

    ghost Value = { Theorem };

    ghost coded = { coded_theorem };

    ghost view = { λ t. record { defs = t.defs; promises = t.promises; hyps = t.hyps; concl = t.concl } };

    ghost invariant = { λ t. Derives t.defs t.promises t.hyps t.concl × IsSet t.hyps × ArePromises t.promises };
}

impl Thm {
    /// The theorem of these parts, without hypotheses and promises.
    pub(crate) fn plain(alloc: Global, defs: Definitions, concl: Term) -> Thm
        requires { Derives defs [] [] concl }
        ensures { result ≡ plain defs concl }
    {
        Thm {
            defs,
            promises: Items::new(alloc),
            hyps: Items::new(alloc),
            concl,
        }
    }

    /// The theorem of these parts.
    pub(crate) fn made(
        defs: Definitions,
        promises: Items<(u32, Term)>,
        hyps: Items<Term>,
        concl: Term,
    ) -> Thm
        requires derived { Derives defs promises hyps concl }
        requires set { IsSet hyps }
        requires promises_set { ArePromises promises }
        ensures { result ≡ record { defs = defs; promises = promises; hyps = hyps; concl = concl } }
    {
        Thm {
            defs,
            promises,
            hyps,
            concl,
        }
    }

    /// An equal theorem, over the same definitions.
    pub fn copy(&self, alloc: Global) -> Result<Thm, AllocError>
        ensures { IfOk result (λ th. th ≡ self.now) }
    {
        let promises = copy_promises(alloc, self.promises.as_slice())?;
        let hyps = copy_all(alloc, self.hyps.as_slice())?;
        let concl = self.concl.copy()?;
        Ok(Thm::made(self.defs.copy()?, promises, hyps, concl))
    }

    /// What is concluded: a formula, derivable from the hypotheses and the promises.
    #[tactic(auto, using(crate::proofs::Formulas::formula_of))]
    pub fn concl(&self) -> &Term
        ensures value { result.now ≡ self.now.concl }
        ensures derived { IsTheorem self.now }
        ensures formula { IsFormula (signature_of self.now.defs) self.now.concl }
    {
        &self.concl
    }

    /// The formulas that it is concluded from, none twice.
    #[tactic(auto, using(crate::proofs::Assumed::formulas_of))]
    pub fn hyps(&self) -> &[Term]
        ensures value { result.now ≡ self.now.hyps }
        ensures formulas { AreFormulas (signature_of self.now.defs) self.now.hyps }
        ensures set { IsSet self.now.hyps }
    {
        self.hyps.as_slice()
    }

    /// The formulas that it takes for granted, each with its number, none twice.
    pub fn promises(&self) -> &[(u32, Term)]
        ensures value { result.now ≡ self.now.promises }
        ensures set { ArePromises self.now.promises }
    {
        self.promises.as_slice()
    }

    /// What it states.
    pub fn statement(&self, alloc: Global) -> Result<Statement, AllocError>
        ensures hyps { IfOk result (λ s. s.hyps ≡ self.now.hyps) }
        ensures concl { IfOk result (λ s. s.concl ≡ self.now.concl) }
        ensures derived { IsTheorem self.now }
    {
        Ok(Statement {
            hyps: copy_all(alloc, self.hyps.as_slice())?,
            concl: self.concl.copy()?,
        })
    }

    /// The number of definitions over which it stands.
    pub fn level(&self) -> u32
        ensures number { result ≡ length self.now.defs }
        ensures conservative { IsConservative self.now.defs }
    {
        self.defs.level()
    }
}
