//! The sizes of types.
ghost use Rattle.std.specs.Prelude.{[], ◌≡◌, true, false, OnOk, OnErr, IfOk};
ghost use Rattle.fp_measure.specs.Sources.{IsMeasure, AreMeasures, Habits, told, measures_of};

use crate::entries::Entries;
use crate::source::{Decl, DeclKind, MeasureSource};
use fp_term::{Items, Term, Ty};
use std::alloc::{AllocError, Global};

/// The sizes that were declared, one for each type, of which the last one counts.
#[derive(Drop)]
pub struct SizeSource {
    entries: Entries,
}

impl SizeSource {
    /// No sizes yet.
    pub fn new(alloc: Global) -> SizeSource
        ensures { result.entries ≡ [] }
    {
        SizeSource {
            entries: Entries::new(alloc),
        }
    }
}

impl MeasureSource for SizeSource {
    ghost entries = { λ s. s.entries };

    ghost habits = { λ s. record { sizes = true; measures = false; replaces = true } };

    fn tell(&mut self, decl: &Decl) -> Result<(), AllocError> {
        match decl.kind {
            DeclKind::Size => self.entries.put(&decl.ty, &decl.term),
            DeclKind::Measure => Ok(()),
        }
    }

    fn measures(&self, ty: &Ty) -> Result<Items<Term>, AllocError> {
        self.entries.measures(ty)
    }
}
