//! Types with declared constructors.
ghost use Rattle.std.specs.Prelude.{◌≡◌, IfOk};

use crate::copying::copy_names;
use fp_term::{Items, Name};
use std::alloc::{AllocError, Global};

/// A type with its constructors, in their declared order.
#[derive(Drop)]
pub struct ConType {
    pub name: Name,
    pub cons: Items<Name>,
}

impl ConType {
    /// An equal type with its constructors.
    pub fn copy(&self, alloc: Global) -> Result<ConType, AllocError>
        ensures { IfOk result (λ ty. ty ≡ self.now) }
    {
        let cons = copy_names(alloc, self.cons.as_slice())?;
        Ok(ConType {
            name: self.name.copy()?,
            cons,
        })
    }
}

/// The types that have declared constructors.
#[derive(Drop)]
pub struct ConTable {
    pub types: Items<ConType>,
}

impl ConTable {
    /// An equal table.
    pub fn copy(&self, alloc: Global) -> Result<ConTable, AllocError>
        ensures { IfOk result (λ table. table ≡ self.now) }
    {
        let mut types = Items::new(alloc);
        for ty in self.types.as_slice() {
            types.push(ty.copy(alloc)?)?;
        }
        Ok(ConTable { types })
    }
}
