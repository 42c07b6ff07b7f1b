//! The measures that are declared beside the sizes.
ghost use Rattle.std.specs.Prelude.{[], ◌≡◌, true, false, OnOk, OnErr, IfOk};
ghost use Rattle.fp_measure.specs.Sources.{IsMeasure, AreMeasures, Habits, told, measures_of};

use crate::entries::Entries;
use crate::source::{Decl, DeclKind, MeasureSource};
use fp_term::{Items, Term, Ty};
use std::alloc::{AllocError, Global};

/// The measures that were declared, in their order.
#[derive(Drop)]
pub struct DeclaredSource {
    entries: Entries,
}

impl DeclaredSource {
    /// No measures yet.
    pub fn new(alloc: Global) -> DeclaredSource
        ensures { result.entries ≡ [] }
    {
        DeclaredSource {
            entries: Entries::new(alloc),
        }
    }
}

impl MeasureSource for DeclaredSource {
    ghost entries = { λ s. s.entries };

    ghost habits = { λ s. record { sizes = false; measures = true; replaces = false } };

    fn tell(&mut self, decl: &Decl) -> Result<(), AllocError> {
        match decl.kind {
            DeclKind::Size => Ok(()),
            DeclKind::Measure => self.entries.add(&decl.ty, &decl.term),
        }
    }

    fn measures(&self, ty: &Ty) -> Result<Items<Term>, AllocError> {
        self.entries.measures(ty)
    }
}
