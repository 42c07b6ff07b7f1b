//! Where measures come from.
ghost use Rattle.std.specs.Prelude.{◌≡◌, List, IfOk, OnOk, OnErr};
ghost use Rattle.fp_term.specs.Types.{Typ};
ghost use Rattle.fp_term.specs.Terms.{Tm};
ghost use Rattle.fp_measure.specs.Sources.{IsMeasure, AreMeasures, Habits, told, measures_of};

use fp_term::{Items, Term, Ty};
use std::alloc::AllocError;

/// What a declared measure is.
#[derive(Clone, Copy, Debug, PartialEq, Eq)]
pub enum DeclKind {
    /// The size of the type's values.
    Size,
    /// One more way to measure them.
    Measure,
}

/// A declaration: the term is a measure of the type.
#[derive(Drop)]
pub struct Decl {
    pub kind: DeclKind,
    pub ty: Ty,
    pub term: Term,
}

/// Measures by types, to which more are told.
pub trait MeasureSource: Drop {
    /// The types with their measures, in order.
    ghost entries: { Self → List (Typ × Tm) };

    /// What it takes, and whether a later measure of a type replaces the earlier one. This never changes.
    ghost habits: { Self → Habits };

    /// Takes the declaration, where it takes such ones. Without memory for it nothing changes.
    fn tell(&mut self, decl: &Decl) -> Result<(), AllocError>
        requires { IsMeasure decl.now.ty decl.now.term }
        ensures ok { OnOk result (entries self.new ≡ told (habits self.old) decl.now.kind decl.now.ty
            decl.now.term (entries self.old)) }
        ensures err { OnErr result (entries self.new ≡ entries self.old) }
        ensures habits { habits self.new ≡ habits self.old };

    /// The measures of the type: those of the entries whose type has it as an instance, so instantiated.
    fn measures(&self, ty: &Ty) -> Result<Items<Term>, AllocError>
        ensures exact { IfOk result (λ found. found ≡ measures_of (entries self.now) ty.now) }
        ensures measures { IfOk result (AreMeasures ty.now) };
}
