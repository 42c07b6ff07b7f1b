//! The constants of a signature.
ghost use Rattle.std.specs.Prelude.{◌≡◌, [], ◌∷◌, ◌++◌, length, IfOk, OnOk, OnErr};
ghost use Rattle.std.specs.Option.{option_copied};
ghost use Rattle.fp_term.specs.Types.{found_type};
ghost use Rattle.fp_term.specs.Index.{has_type};
ghost use Rattle.fp_term.specs.IndexView.{seen_entry};

use crate::chain::Chain;
use crate::index::{Declared, Index, LEVELS};
use crate::name::Name;
use crate::number::next;
use crate::ty::Ty;
use std::alloc::{AllocError, Global};
use std::marker::Model;

/// Constants with their types in order, which contracts see as a list. They are found by name without a walk. A copy is
/// one step, and so is one more constant.
pub struct Consts {
    alloc: Global,
    count: u32,
    list: Chain<(Name, Ty)>,
    index: Index,
}

impl Drop for Consts {
    fn drop(self) {
        let Consts {
            alloc: _,
            count: _,
            list,
            index,
        } = self;
        drop(list);
        drop(index);
    }
}

impl Model for Consts {
    ghost use Rattle.std.specs.Prelude.{◌≡◌, ℕ, List, length, option_map};
    ghost use Rattle.fp_term.specs.Types.{Typ, found_type};
    ghost use Rattle.fp_term.specs.Names.{name_hash};
    ghost use Rattle.fp_term.specs.Index.{sought, has_type};
    ghost use Rattle.std.specs.Coded.{coded_list, coded×, coded_ℕ};
    ghost use Rattle.fp_term.specs.Codes.{coded_type};

    ghost Value = { List (List ℕ × Typ) };

    ghost coded = { coded_list (coded× (coded_list coded_ℕ) coded_type) };

    ghost view = { λ c. c.list };

    ghost invariant = { λ c. (c.count ≡ length c.list) × ((name : List ℕ) → sought (name_hash name) name c.index ≡ option_map has_type (found_type name c.list)) };
}

fn constant_of(ty: &Ty) -> Result<Declared, AllocError>
    ensures { IfOk result (λ d. seen_entry d ≡ has_type ty.now) }
{
    Ok(Declared::Constant(ty.copy()?))
}

impl Consts {
    pub fn new(alloc: Global) -> Result<Consts, AllocError>
        ensures { IfOk result (λ c. c ≡ []) }
    {
        let list = Chain::new(alloc)?;
        let index = Index::new(alloc)?;
        Ok(Consts {
            alloc,
            count: 0,
            list,
            index,
        })
    }

    /// An equal list.
    pub fn copy(&self, alloc: Global) -> Result<Consts, AllocError>
        ensures { IfOk result (λ c. c ≡ self.now) }
    {
        let list = self.list.copy()?;
        let index = self.index.copy()?;
        Ok(Consts {
            alloc,
            count: self.count,
            list,
            index,
        })
    }

    /// The list, from its last constant on.
    pub fn list(&self) -> &Chain<(Name, Ty)>
        ensures { result.now ≡ self.now }
    {
        &self.list
    }

    pub fn len(&self) -> u32
        ensures { result ≡ length self.now }
    {
        self.count
    }

    /// The type of the first constant of that name.
    pub fn find(&self, name: &Name) -> Option<&Ty>
        ensures { option_copied result ≡ found_type name.now self.now }
    {
        match self.index.find(name.hash(), name) {
            Some(Declared::Constant(ty)) => Some(ty),
            Some(Declared::Arity(_)) => None,
            None => None,
        }
    }

    /// Puts a constant at the end.
    pub fn push(&mut self, item: (Name, Ty)) -> Result<(), AllocError>
        ensures ok { OnOk result (self.new ≡ self.old ++ item ∷ []) }
        ensures err { OnErr result (self.new ≡ self.old) }
    {
        let count = next(self.count)?;
        let declared = constant_of(&item.1)?;
        let index = self
            .index
            .with(self.alloc, LEVELS, item.0.hash(), &item.0, &declared)?;
        self.list = self.list.with(self.alloc, item)?;
        self.index = index;
        self.count = count;
        Ok(())
    }
}
