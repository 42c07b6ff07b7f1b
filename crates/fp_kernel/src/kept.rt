//! Theorems that are kept, so that each is derived only once.
ghost use Rattle.std.specs.Prelude.{◌≡◌, ◌<◌, [], length, IfOk, IfSome, IsTrue};
ghost use Rattle.fp_kernel.specs.Theorems.{plain};

use crate::thm::Thm;
use fp_term::{Term, same};
use once_cell::race::OnceBox;
use std::alloc::{AllocError, Global};
use std::sync::Arc;

// How many theorems can be kept.
const ROOM: usize = 64;

/// Places for theorems that are derived once and used again. What is put into one stays there.
pub struct Kept {
    places: Arc<Vec<OnceBox<Thm>>>,
}

impl Drop for Kept {
    fn drop(self) {
        let Kept { places } = self;
        drop(places);
    }
}

// Does it state just that, over no definitions, without hypotheses and promises?
fn states(theorem: &Thm, statement: &Term) -> bool
    ensures { IsTrue result → theorem.now ≡ plain [] statement.now }
{
    theorem.level() == 0
        && theorem.hyps().is_empty()
        && theorem.promises().is_empty()
        && same(theorem.concl(), statement)
}

impl Kept {
    pub fn new(alloc: Global) -> Result<Kept, AllocError> {
        let mut places = Vec::new(alloc);
        for _ in 0..ROOM {
            places.push(OnceBox::new(alloc))?;
        }
        Ok(Kept {
            places: Arc::new(alloc, places)?,
        })
    }

    /// The same places.
    pub fn share(&self) -> Result<Kept, AllocError> {
        Ok(Kept {
            places: self.places.clone()?,
        })
    }

    /// The theorem in the place, where it states just that over no definitions.
    pub fn find(&self, place: usize, statement: &Term) -> Option<&Thm>
        ensures { IfSome result (λ th. th.now ≡ plain [] statement.now) }
    {
        let theorem = self.places.get(place)?.get()?;
        if states(theorem, statement) {
            Some(theorem)
        } else {
            None
        }
    }

    /// Puts the theorem into the place, where it is empty.
    pub fn put(&self, alloc: Global, place: usize, theorem: Thm) -> Result<(), AllocError> {
        if let Some(cell) = self.places.get(place) {
            let _ = cell.set(Box::new(alloc, theorem)?);
        }
        Ok(())
    }
}
