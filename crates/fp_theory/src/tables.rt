//! Types with declared constructors, from which the last ones can be taken away again.
ghost use Rattle.std.specs.Prelude.{◌≡◌, [], ◌∷◌, ◌++◌, length, take, IfOk, OnOk, OnErr};

use fp_group::{ConTable, ConType};
use fp_term::Items;
use std::alloc::{AllocError, Global};
use std::marker::Model;

/// The declared types, with a table of each number of the first of them.
pub struct Tables {
    alloc: Global,
    none: ConTable,
    tables: Vec<ConTable>,
}

impl Drop for Tables {
    fn drop(self) {
        let Tables {
            alloc: _,
            none,
            tables,
        } = self;
        drop(none);
        drop(tables);
    }
}

impl Model for Tables {
    ghost use Rattle.std.specs.Prelude.{◌≡◌, [], List};
    ghost use Rattle.fp_group.specs.declared.constructors.ConType.{ConType};
    ghost use Rattle.fp_theory.specs.Codes.{coded_con_types};

    ghost Value = { List ConType };

    ghost coded = { coded_con_types };

    ghost use Rattle.fp_theory.specs.Tables.{last_types, AreGrowing};

    ghost view = { λ t. last_types [] t.tables.items };

    ghost invariant = { λ t. (t.none.types ≡ []) × AreGrowing [] t.tables.items };
}

// The table with a type more.
fn longer(alloc: Global, table: &ConTable, ty: ConType) -> Result<ConTable, AllocError>
    ensures { IfOk result (λ t. t.types ≡ table.now.types ++ ty ∷ []) }
{
    let ConTable { types } = table.copy(alloc)?;
    Ok(ConTable {
        types: types.appended(ty)?,
    })
}

impl Tables {
    pub fn new(alloc: Global) -> Tables
        ensures { result ≡ [] }
    {
        Tables {
            alloc,
            none: ConTable {
                types: Items::new(alloc),
            },
            tables: Vec::new(alloc),
        }
    }

    /// The declared types.
    pub fn table(&self) -> &ConTable
        ensures { result.now.types ≡ self.now }
    {
        match self.tables.as_slice().split_last() {
            Some((last, _)) => last,
            None => &self.none,
        }
    }

    pub fn len(&self) -> usize
        ensures { result ≡ length self.now }
    {
        self.table().types.as_slice().len()
    }

    /// Puts a type at the end.
    pub fn push(&mut self, ty: ConType) -> Result<(), AllocError>
        ensures ok { OnOk result (self.new ≡ self.old ++ ty ∷ []) }
        ensures err { OnErr result (self.new ≡ self.old) }
    {
        let current = self.table();
        let table = longer(self.alloc, current, ty)?;
        self.tables.push(table)?;
        Ok(())
    }

    /// The first types, of that number.
    pub fn cut(&mut self, number: usize)
        ensures { self.new ≡ take number self.old }
    {
        self.tables.truncate(number);
    }
}
