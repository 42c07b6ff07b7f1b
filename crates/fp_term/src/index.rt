//! What a signature declares, found by name without a walk.
ghost use Rattle.std.specs.Prelude.{◌≡◌, IfOk, option_map};
ghost use Rattle.fp_term.specs.Index.{Tree, tip, fork, sought, with_entry};
ghost use Rattle.fp_term.specs.IndexView.{seen_entry, seen_tree};

use crate::name::Name;
use crate::ty::Ty;
use std::alloc::{AllocError, Global};
use std::marker::Model;
use std::sync::Arc;

/// How many levels an index has at most. Only names with one hash need many.
pub(crate) const LEVELS: u32 = 4000;

/// What a signature says of a name: how many arguments the type constructor has, or the constant's type.
#[derive(Drop)]
pub enum Declared {
    Arity(u32),
    Constant(Ty),
}

impl Declared {
    fn copy(&self) -> Result<Declared, AllocError>
        ensures { IfOk result (λ d. seen_entry d ≡ seen_entry self.now) }
    {
        match self {
            Declared::Arity(number) => Ok(Declared::Arity(*number)),
            Declared::Constant(ty) => Ok(Declared::Constant(ty.copy()?)),
        }
    }
}

/// What stands with names. The bits of a name's hash lead the way, the lowest first. A copy shares its parts.
#[cycle(index)]
pub struct Index {
    branch: Arc<Branch>,
}

impl Drop for Index {
    #[cycle(index_drop)]
    fn drop(self) {
        let Index { branch } = self;
        drop(branch);
    }
}

#[cycle(index)]
#[derive(Drop)]
enum Branch {
    Tip,
    Fork {
        name: Name,
        declared: Declared,
        zero: Index,
        one: Index,
    },
}

impl Model for Index {
    ghost use Rattle.fp_term.specs.Index.{Tree, tree_size, coded_tree};

    ghost Value = { Tree };

    ghost coded = { coded_tree };

    ghost use Rattle.fp_term.specs.IndexView.{seen_tree};

    ghost view = { λ t. seen_tree t.branch.value };

    ghost size = { tree_size };

    ghost use Rattle.std.proofs.Common.{arith};

    ghost size_decreases = { λ a h. Prim.grind arith };
}

impl Index {
    fn branch(&self) -> &Branch
        ensures { seen_tree result.now ≡ self.now }
    {
        &self.branch
    }

    fn make(alloc: Global, branch: Branch) -> Result<Index, AllocError>
        ensures { IfOk result (λ t. t ≡ seen_tree branch) }
    {
        Ok(Index {
            branch: Arc::new(alloc, branch)?,
        })
    }

    pub fn new(alloc: Global) -> Result<Index, AllocError>
        ensures { IfOk result (λ t. t ≡ tip) }
    {
        Index::make(alloc, Branch::Tip)
    }

    pub fn copy(&self) -> Result<Index, AllocError>
        ensures { IfOk result (λ t. t ≡ self.now) }
    {
        Ok(Index {
            branch: Arc::try_clone(&self.branch)?,
        })
    }

    /// What stands with the name of that hash.
    pub fn find(&self, hash: u32, name: &Name) -> Option<&Declared>
        ensures { option_map (λ d. seen_entry d.now) result ≡ sought hash name.now self.now }
    {
        match self.branch() {
            Branch::Tip => None,
            Branch::Fork {
                name: a,
                declared,
                zero,
                one,
            } => {
                if a.equals(name) {
                    Some(declared)
                } else if hash % 2 == 0 {
                    zero.find(hash / 2, name)
                } else {
                    one.find(hash / 2, name)
                }
            }
        }
    }

    fn leaf(alloc: Global, name: &Name, declared: &Declared) -> Result<Index, AllocError>
        ensures { IfOk result (λ t. t ≡ fork name.now (seen_entry declared.now) tip tip) }
    {
        let zero = Index::new(alloc)?;
        let one = zero.copy()?;
        Index::joined(alloc, name, declared, zero, one)
    }

    fn joined(
        alloc: Global,
        name: &Name,
        declared: &Declared,
        zero: Index,
        one: Index,
    ) -> Result<Index, AllocError>
        ensures { IfOk result (λ t. t ≡ fork name.now (seen_entry declared.now) zero one) }
    {
        let name = name.copy()?;
        let declared = declared.copy()?;
        Index::make(
            alloc,
            Branch::Fork {
                name,
                declared,
                zero,
                one,
            },
        )
    }

    /// The index with what is declared of the name of that hash, where it has nothing, if it has no more levels than
    /// there is room for.
    pub fn with(
        &self,
        alloc: Global,
        room: u32,
        hash: u32,
        name: &Name,
        declared: &Declared,
    ) -> Result<Index, AllocError>
        ensures { IfOk result (λ t. t ≡ with_entry hash name.now (seen_entry declared.now) self.now) }
    {
        if room == 0 {
            return Err(AllocError);
        }
        match self.branch() {
            Branch::Tip => Index::leaf(alloc, name, declared),
            Branch::Fork {
                name: a,
                declared: known,
                zero,
                one,
            } => {
                if a.equals(name) {
                    self.copy()
                } else if hash % 2 == 0 {
                    let zero = zero.with(alloc, room - 1, hash / 2, name, declared)?;
                    Index::joined(alloc, a, known, zero, one.copy()?)
                } else {
                    let one = one.with(alloc, room - 1, hash / 2, name, declared)?;
                    Index::joined(alloc, a, known, zero.copy()?, one)
                }
            }
        }
    }
}
