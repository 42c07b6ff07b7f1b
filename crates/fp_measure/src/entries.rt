//! Types with their measures, in order.
ghost use Rattle.std.specs.Prelude.{◌≡◌, ◌<◌, ◌++◌, [], ◌∷◌, ℕ, length, set, IfOk, OnOk, OnErr};
ghost use Rattle.std.specs.Option.{IfNone, IfSome};
ghost use Rattle.fp_term.specs.Terms.{Tm};
ghost use Rattle.fp_measure.specs.Sources.{IsMeasure, AreMeasures, AreEntries, put, added, is_entry, measures_of};

use fp_term::{Items, Term, Ty, inst_ty, match_ty, same};
use std::alloc::{AllocError, Global};
use std::marker::Model;

// Types with measures of them.
#[derive(Drop)]
pub(crate) struct Entries {
    alloc: Global,
    entries: Vec<(Ty, Term)>,
}

impl Model for Entries {
    ghost use Rattle.std.specs.Prelude.{List};
    ghost use Rattle.std.specs.Coded.{coded_list, coded×};
    ghost use Rattle.fp_term.specs.Codes.{coded_type, coded_term};
    ghost use Rattle.fp_term.specs.Types.{Typ};
    ghost use Rattle.fp_term.specs.Terms.{Tm};
    ghost use Rattle.fp_measure.specs.Sources.{AreEntries};

    ghost Value = { List (Typ × Tm) };

    ghost coded = { coded_list (coded× coded_type coded_term) };

    ghost view = { λ e. e.entries.items };

    ghost invariant = { λ e. AreEntries e.entries.items };
}

// The place of the type's entry.
fn place_of(entries: &[(Ty, Term)], ty: &Ty) -> Option<usize>
    ensures none { IfNone result ((term : Tm) →
        put ty.now term entries.now ≡ entries.now ++ (ty.now, term) ∷ []) }
    ensures some { IfSome result (λ place. (place < length entries.now) × ((term : Tm) →
        put ty.now term entries.now ≡ set entries.now place (ty.now, term))) }
{
    for (place, entry) in entries.iter().enumerate() {
        if entry.0.equals(ty) {
            return Some(place);
        }
    }
    None
}

// Is the measure there?
fn is_entry(entries: &[(Ty, Term)], ty: &Ty, term: &Term) -> bool
    ensures { result ≡ is_entry ty.now term.now entries.now }
{
    for entry in entries {
        if entry.0.equals(ty) && same(&entry.1, term) {
            return true;
        }
    }
    false
}

impl Entries {
    pub(crate) fn new(alloc: Global) -> Entries
        ensures { result ≡ [] }
    {
        Entries {
            alloc,
            entries: Vec::new(alloc),
        }
    }

    // Puts the measure in the place of the type's entry, else at the end.
    pub(crate) fn put(&mut self, ty: &Ty, term: &Term) -> Result<(), AllocError>
        requires { IsMeasure ty.now term.now }
        ensures ok { OnOk result (self.new ≡ put ty.now term.now self.old) }
        ensures err { OnErr result (self.new ≡ self.old) }
    {
        let place = place_of(&self.entries, ty);
        let entry = (ty.copy()?, term.copy()?);
        match place {
            Some(place) => self.entries[place] = entry,
            None => self.entries.push(entry)?,
        }
        Ok(())
    }

    // Puts the measure at the end, unless it is there.
    pub(crate) fn add(&mut self, ty: &Ty, term: &Term) -> Result<(), AllocError>
        requires { IsMeasure ty.now term.now }
        ensures ok { OnOk result (self.new ≡ added ty.now term.now self.old) }
        ensures err { OnErr result (self.new ≡ self.old) }
    {
        if !is_entry(&self.entries, ty, term) {
            self.entries.push((ty.copy()?, term.copy()?))?;
        }
        Ok(())
    }

    // The measures of the type: of each entry whose type has it as an instance.
    pub(crate) fn measures(&self, ty: &Ty) -> Result<Items<Term>, AllocError>
        ensures exact { IfOk result (λ found. found ≡ measures_of self.now ty.now) }
        ensures measures { IfOk result (AreMeasures ty.now) }
    {
        let mut found = Items::new(self.alloc);
        for entry in &self.entries {
            if let Some(pairs) = match_ty(self.alloc, &entry.0, ty)? {
                found.push(inst_ty(self.alloc, &entry.1, pairs.as_slice())?)?;
            }
        }
        Ok(found)
    }
}
