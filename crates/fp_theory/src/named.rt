//! Theorems under their names.
ghost use Rattle.std.specs.Prelude.{◌≡◌, [], ◌∷◌, ◌++◌, length, take, IfOk, OnOk, OnErr};
ghost use Rattle.std.specs.Option.{option_copied};
ghost use Rattle.fp_theory.specs.State.{found_theorem};
ghost use Rattle.fp_theory.specs.Places.{placed};

use fp_kernel::Thm;
use fp_term::{Arities, Name};
use std::alloc::{AllocError, Global};
use std::marker::Model;

/// Theorems with their names, the oldest first. They are found by name without a walk.
pub struct Named {
    alloc: Global,
    entries: Vec<Entry>,
}

// A theorem with its name, and the place of each name up to it.
#[derive(Drop)]
struct Entry {
    name: Name,
    theorem: Thm,
    places: Arities,
}

impl Drop for Named {
    fn drop(self) {
        let Named { alloc: _, entries } = self;
        drop(entries);
    }
}

impl Model for Named {
    ghost use Rattle.std.specs.Prelude.{ℕ, [], List, map};
    ghost use Rattle.fp_kernel.specs.Theorems.{Theorem};
    ghost use Rattle.fp_theory.specs.Codes.{coded_named};

    ghost Value = { List (List ℕ × Theorem) };

    ghost coded = { coded_named };

    ghost use Rattle.fp_theory.specs.Places.{seen_entry, ArePlaced};

    ghost view = { λ n. map seen_entry n.entries.items };

    ghost invariant = { λ n. ArePlaced [] n.entries.items };
}

impl Named {
    pub fn new(alloc: Global) -> Named
        ensures { result ≡ [] }
    {
        Named {
            alloc,
            entries: Vec::new(alloc),
        }
    }

    pub fn len(&self) -> usize
        ensures { result ≡ length self.now }
    {
        self.entries.len()
    }

    /// The theorem of that name.
    pub fn find(&self, name: &Name) -> Option<&Thm>
        ensures { option_copied result ≡ found_theorem name.now self.now }
    {
        let (last, _) = self.entries.as_slice().split_last()?;
        let place = last.places.find(name)?;
        Some(&self.entries[place as usize].theorem)
    }

    // The places of the names.
    fn places(&self) -> Result<Arities, AllocError>
        ensures { IfOk result (λ places. places ≡ placed 0 self.now) }
    {
        match self.entries.as_slice().split_last() {
            Some((last, _)) => last.places.copy(self.alloc),
            None => Arities::new(self.alloc),
        }
    }

    // The entry that comes next.
    fn next_entry(&self, name: &Name, theorem: Thm) -> Result<Entry, AllocError>
        ensures name { IfOk result (λ e. e.name ≡ name.now) }
        ensures theorem { IfOk result (λ e. e.theorem ≡ theorem) }
        ensures places { IfOk result (λ e. e.places ≡ placed 0 self.now ++ (name.now, length (placed 0 self.now)) ∷ []) }
    {
        let mut places = self.places()?;
        let place = places.len();
        places.push((name.copy()?, place))?;
        Ok(Entry {
            name: name.copy()?,
            theorem,
            places,
        })
    }

    /// Puts a theorem at the end.
    pub fn push(&mut self, name: &Name, theorem: Thm) -> Result<(), AllocError>
        ensures ok { OnOk result (self.new ≡ self.old ++ (name.now, theorem) ∷ []) }
        ensures err { OnErr result (self.new ≡ self.old) }
    {
        let entry = self.next_entry(name, theorem)?;
        self.entries.push(entry)?;
        Ok(())
    }

    /// The first theorems, of that number.
    pub fn cut(&mut self, number: usize)
        ensures { self.new ≡ take number self.old }
    {
        self.entries.truncate(number);
    }
}
