//! The type constructors of a signature.
ghost use Rattle.std.specs.Prelude.{◌≡◌, [], ◌∷◌, ◌++◌, length, IfOk, OnOk, OnErr};
ghost use Rattle.fp_term.specs.Signatures.{arity_of};

use crate::chain::Chain;
use crate::index::{Declared, Index, LEVELS};
use crate::name::Name;
use crate::number::next;
use std::alloc::{AllocError, Global};
use std::marker::Model;

/// Type constructors with the numbers of their arguments in order, which contracts see as a list. They are found by name
/// without a walk. A copy is one step, and so is one more constructor.
pub struct Arities {
    alloc: Global,
    count: u32,
    list: Chain<(Name, u32)>,
    index: Index,
}

impl Drop for Arities {
    fn drop(self) {
        let Arities {
            alloc: _,
            count: _,
            list,
            index,
        } = self;
        drop(list);
        drop(index);
    }
}

impl Model for Arities {
    ghost use Rattle.std.specs.Prelude.{◌≡◌, ℕ, List, length, option_map};
    ghost use Rattle.fp_term.specs.Names.{name_hash};
    ghost use Rattle.fp_term.specs.Arities.{arity_of};
    ghost use Rattle.fp_term.specs.Index.{sought, has_arity};

    ghost Value = { List (List ℕ × ℕ) };

    ghost view = { λ a. a.list };

    ghost invariant = { λ a. (a.count ≡ length a.list) × ((name : List ℕ) → sought (name_hash name) name a.index ≡ option_map has_arity (arity_of name a.list)) };
}

impl Arities {
    pub fn new(alloc: Global) -> Result<Arities, AllocError>
        ensures { IfOk result (λ a. a ≡ []) }
    {
        let list = Chain::new(alloc)?;
        let index = Index::new(alloc)?;
        Ok(Arities {
            alloc,
            count: 0,
            list,
            index,
        })
    }

    /// An equal list.
    pub fn copy(&self, alloc: Global) -> Result<Arities, AllocError>
        ensures { IfOk result (λ a. a ≡ self.now) }
    {
        let list = self.list.copy()?;
        let index = self.index.copy()?;
        Ok(Arities {
            alloc,
            count: self.count,
            list,
            index,
        })
    }

    /// The list, from its last constructor on.
    pub fn list(&self) -> &Chain<(Name, u32)>
        ensures { result.now ≡ self.now }
    {
        &self.list
    }

    pub fn len(&self) -> u32
        ensures { result ≡ length self.now }
    {
        self.count
    }

    /// How many arguments the first constructor of that name has.
    pub fn find(&self, name: &Name) -> Option<u32>
        ensures { result ≡ arity_of name.now self.now }
    {
        match self.index.find(name.hash(), name) {
            Some(Declared::Arity(number)) => Some(*number),
            Some(Declared::Constant(_)) => None,
            None => None,
        }
    }

    /// Puts a constructor at the end.
    pub fn push(&mut self, item: (Name, u32)) -> Result<(), AllocError>
        ensures ok { OnOk result (self.new ≡ self.old ++ item ∷ []) }
        ensures err { OnErr result (self.new ≡ self.old) }
    {
        let count = next(self.count)?;
        let declared = Declared::Arity(item.1);
        let index = self
            .index
            .with(self.alloc, LEVELS, item.0.hash(), &item.0, &declared)?;
        self.list = self.list.with(self.alloc, item)?;
        self.index = index;
        self.count = count;
        Ok(())
    }
}
