//! Lists of definitions, on which theorems are derived.
ghost use Rattle.std.specs.Prelude.{◌≡◌, ◌≤◌, [], ◌∷◌, length, IfOk, IfSome, MatchResult};
ghost use Rattle.fp_term.specs.Terms.{Tm};
ghost use Rattle.fp_conclude.specs.Hypotheses.{IsSet};
ghost use Rattle.fp_kernel.specs.Definitions.{Within, oldest};
ghost use Rattle.fp_kernel.specs.Start.{signature_of};
ghost use Rattle.fp_kernel.specs.Derivability.{Derives};
ghost use Rattle.fp_kernel.specs.Theorems.{ArePromises, plain};
ghost use Rattle.fp_kernel.specs.Conservative.{IsConservative};

use crate::definition::Definitions;
use crate::kept::Kept;
use crate::start::start_signature;
use crate::thm::Thm;
use fp_term::{Items, Signature, Term};
use std::alloc::{AllocError, Global};
use std::marker::Model;

/// A conservative list of definitions, on which theorems are derived.
pub struct Defs {
    list: Definitions,
    level: u32,
    kept: Kept,
}

impl Drop for Defs {
    fn drop(self) {
        let Defs {
            list,
            level: _,
            kept,
        } = self;
        drop(list);
        drop(kept);
    }
}

impl Model for Defs {
    ghost use Rattle.std.specs.Prelude.{◌≤◌, List, length};
    ghost use Rattle.fp_kernel.specs.Definitions.{Def, oldest};
    ghost use Rattle.fp_kernel.specs.Codes.{coded_defs};

    ghost Value = { List Def };

    ghost coded = { coded_defs };

    // The first definitions of what is held: so a list can be shortened without memory.
    ghost view = { λ d. oldest d.level d.list };

    ghost invariant = { λ d. d.level ≤ length d.list };
}

impl Defs {
    /// No definitions.
    pub fn new(alloc: Global) -> Result<Defs, AllocError>
        ensures { IfOk result (λ d. d ≡ []) }
    {
        let signature = start_signature(alloc)?;
        Ok(Defs {
            list: Definitions::start(alloc, signature)?,
            level: 0,
            kept: Kept::new(alloc)?,
        })
    }

    /// An equal list.
    pub fn copy(&self) -> Result<Defs, AllocError>
        ensures { IfOk result (λ d. d ≡ self.now) }
    {
        let kept = self.kept.share()?;
        Ok(Defs {
            list: self.list.copy()?,
            level: self.level,
            kept,
        })
    }

    /// The definitions.
    pub(crate) fn definitions(&self) -> &Definitions
        ensures { result.now ≡ self.now }
    {
        self.list.first(self.level)
    }

    /// The types and constants of the start and of the definitions.
    pub fn signature(&self) -> &Signature
        ensures { result.now ≡ signature_of self.now }
    {
        self.definitions().signature()
    }

    /// The number of definitions.
    pub fn level(&self) -> u32
        ensures number { result ≡ length self.now }
        ensures conservative { IsConservative self.now }
    {
        self.definitions().level()
    }

    /// The first definitions, of that number.
    pub fn first(&self, level: u32) -> Result<Defs, AllocError>
        requires { level ≤ length self.now }
        ensures exact { IfOk result (λ d. d ≡ oldest level self.now) }
        ensures number { IfOk result (λ d. length d ≡ level) }
        ensures within { IfOk result (λ d. Within d self.now) }
    {
        let kept = self.kept.share()?;
        let list = self.definitions().first(level).copy()?;
        Ok(Defs { list, level, kept })
    }

    // Fewer of the definitions that are held.
    fn shorten(&mut self, level: u32)
        requires { level ≤ length self.old }
        ensures { self.new ≡ oldest level self.old }
    {
        self.level = level;
    }

    // A shorter list, which is shared where memory allows.
    fn leave(&mut self, level: u32)
        requires { level ≤ length self.old }
        ensures { self.new ≡ oldest level self.old }
    {
        match self.definitions().first(level).copy() {
            Ok(shorter) => self.replace(shorter),
            Err(_) => self.shorten(level),
        }
    }

    /// The first definitions stay, of that number.
    pub fn back_to(&mut self, level: u32)
        requires { level ≤ length self.old }
        ensures exact { self.new ≡ oldest level self.old }
        ensures number { length self.new ≡ level }
        ensures within { Within self.new self.old }
    {
        self.leave(level);
    }

    /// The list is that one from now on.
    pub(crate) fn replace(&mut self, list: Definitions)
        ensures { self.new ≡ list }
    {
        self.level = list.level();
        self.list = list;
    }

    /// The theorem that is kept in the place, where there is one and it states just that over no definitions, without
    /// hypotheses and promises.
    pub fn kept(&self, place: usize, statement: &Term) -> Option<&Thm>
        ensures { IfSome result (λ th. th.now ≡ plain [] statement.now) }
    {
        self.kept.find(place, statement)
    }

    /// Keeps the theorem in the place, of which there are 64, where none is kept there yet. Nothing that the rules and
    /// `define` answer depends on it.
    pub fn keep(&self, alloc: Global, place: usize, theorem: Thm) -> Result<(), AllocError> {
        self.kept.put(alloc, place, theorem)
    }

    /// The theorem of these parts over this list.
    pub(crate) fn theorem(
        &self,
        promises: Items<(u32, Term)>,
        hyps: Items<Term>,
        concl: Term,
    ) -> Result<Thm, AllocError>
        requires derived { Derives self.now promises hyps concl }
        requires set { IsSet hyps }
        requires promises_set { ArePromises promises }
        ensures { IfOk result (λ th. th ≡ record { defs = self.now; promises = promises; hyps = hyps; concl = concl }) }
    {
        let defs = self.definitions().copy()?;
        Ok(Thm::made(defs, promises, hyps, concl))
    }
}
