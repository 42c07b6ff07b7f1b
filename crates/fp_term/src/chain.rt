//! Lists that grow at the end, and that share their parts with their copies.
ghost use Rattle.std.specs.Prelude.{◌≡◌, [], ◌∷◌, ◌++◌, IfOk, MatchOption};

use std::alloc::{AllocError, Global};
use std::marker::Model;
use std::sync::Arc;

/// Values in order, which contracts see as a list. A copy is one step, and so is one more value.
#[cycle(chain)]
pub struct Chain<T> {
    link: Arc<Link<T>>,
}

#[cycle(chain)]
#[derive(Drop)]
enum Link<T> {
    Start,
    Then { older: Chain<T>, newest: T },
}

impl<T> Model for Chain<T> {
    ghost use Rattle.std.specs.Prelude.{List, length};

    ghost Value = { List T };

    ghost use Rattle.fp_term.specs.Chains.{linked};

    ghost view = { λ c. linked c.link.value };

    ghost size = { length };

    ghost use Rattle.std.proofs.Common.{arith, length-append};

    ghost size_decreases = { λ a h. Prim.grind (arith, length-append) };
}

// A loop, since a list is as long as a file has definitions.
impl<T: Drop> Drop for Chain<T> {
    fn drop(self) {
        let Chain { link } = self;
        let mut rest = Arc::into_inner(link);
        while let Some(Link::Then { older, newest }) = rest {
            drop(newest);
            rest = Arc::into_inner(older.into_link());
        }
    }
}

impl<T: Drop> Chain<T> {
    ghost use Rattle.fp_term.specs.Chains.{linked};

    fn into_link(self) -> Arc<Link<T>>
        ensures { linked result.value ≡ self }
    {
        let Chain { link } = self;
        link
    }

    pub fn new(alloc: Global) -> Result<Chain<T>, AllocError>
        ensures { IfOk result (λ c. c ≡ []) }
    {
        Ok(Chain {
            link: Arc::new(alloc, Link::Start)?,
        })
    }

    pub fn copy(&self) -> Result<Chain<T>, AllocError>
        ensures { IfOk result (λ c. c ≡ self.now) }
    {
        Ok(Chain {
            link: Arc::try_clone(&self.link)?,
        })
    }

    /// The list with a value at the end.
    pub fn with(&self, alloc: Global, newest: T) -> Result<Chain<T>, AllocError>
        ensures { IfOk result (λ c. c ≡ self.now ++ newest ∷ []) }
    {
        let older = self.copy()?;
        Ok(Chain {
            link: Arc::new(alloc, Link::Then { older, newest })?,
        })
    }

    /// The last value, after those before it.
    pub fn last(&self) -> Option<(&Chain<T>, &T)>
        ensures { MatchOption result (self.now ≡ []) (λ p. self.now ≡ p.0.now ++ p.1.now ∷ []) }
    {
        match &*self.link {
            Link::Start => None,
            Link::Then { older, newest } => Some((older, newest)),
        }
    }
}
