//! What a search chooses from: columns and mappings.

ghost use Rattle.std.specs.Prelude.{◌≡◌, IfOk};
ghost use Rattle.fp_level.specs.Ranks.{rank_of};

use fp_order::Items;
use std::alloc::{AllocError, Global};

/// How the values of a call are compared: by one measure for each function, or by the greatest or the least
/// value of a set of measures for each. A set is a number whose bit 0 is the first measure.
#[derive(Drop)]
pub enum Rank {
    Column(Items<u32>),
    Max(Items<u32>),
    Min(Items<u32>),
}

/// The ranks that a search chose one after another, and the position of the rank that decides each row.
#[derive(Drop)]
pub struct Found {
    pub ranks: Items<Rank>,
    pub decided: Items<Option<u32>>,
}

/// Which value of a set counts.
#[derive(Clone, Copy)]
pub enum Extremum {
    Greatest,
    Least,
}

/// An equal list.
pub fn copied(alloc: Global, items: &Items<u32>) -> Result<Items<u32>, AllocError>
    ensures { IfOk result (λ copy. copy ≡ items.now) }
{
    Ok(Items::from_vec(Vec::from_slice(alloc, items.as_slice())?))
}

impl Rank {
    /// An equal rank.
    pub fn copy(&self, alloc: Global) -> Result<Rank, AllocError>
        ensures { IfOk result (λ rank. rank ≡ self.now) }
    {
        match self {
            Rank::Column(measures) => Ok(Rank::Column(copied(alloc, measures)?)),
            Rank::Max(sets) => Ok(Rank::Max(copied(alloc, sets)?)),
            Rank::Min(sets) => Ok(Rank::Min(copied(alloc, sets)?)),
        }
    }
}

impl Extremum {
    /// The mapping of these sets.
    pub fn of(self, sets: Items<u32>) -> Rank
        ensures { result ≡ rank_of self sets }
    {
        match self {
            Extremum::Greatest => Rank::Max(sets),
            Extremum::Least => Rank::Min(sets),
        }
    }
}
