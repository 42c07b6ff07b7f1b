//! The candidates of a search in their order.

ghost use Rattle.std.specs.Prelude.{◌≡◌, ◌++◌, ◌+◌, map, take, IfOk, OnOk};
ghost use Rattle.fp_order.specs.Grid.{choices};
ghost use Rattle.fp_level.specs.Ranks.{column_ranks, mappings_of, rank_of};
ghost use Rattle.fp_level.specs.Counts.{set_count, over_choices};
ghost use Rattle.fp_level.specs.declared.rank.Rank.TheVariants.{Column};

use crate::rank::{Extremum, Rank, copied};
use fp_order::{Items, columns, first_choices};
use std::alloc::{AllocError, Global};

/// How many mappings by the greatest value there are at most; there are as many by the least.
const MAX_SETS: usize = 2048;

/// Columns as ranks.
fn as_ranks(alloc: Global, columns: &[Items<u32>]) -> Result<Vec<Rank>, AllocError>
    ensures { IfOk result (λ ranks. ranks.items ≡ map (λ column. Column column) columns.now) }
{
    let mut ranks = Vec::new(alloc);
    for column in columns {
        ranks.push(Rank::Column(copied(alloc, column)?))?;
    }
    Ok(ranks)
}

/// The columns as ranks.
pub fn column_candidates(alloc: Global, functions: &[u32]) -> Result<Vec<Rank>, AllocError>
    ensures { IfOk result (λ ranks. ranks.items ≡ column_ranks functions.now) }
{
    let all = columns(alloc, functions)?;
    as_ranks(alloc, all.as_slice())
}

/// How many nonempty sets there are of so many measures, or 4,095 where there are more.
fn set_count(measures: u32) -> u32
    ensures { result ≡ set_count measures }
{
    if measures < 12 {
        (1 << measures) - 1
    } else {
        4095
    }
}

/// How many nonempty sets of measures each function has, or 4,095 where there are more.
fn set_counts(alloc: Global, functions: &[u32]) -> Result<Vec<u32>, AllocError>
    ensures { IfOk result (λ counts. counts.items ≡ map set_count functions.now) }
{
    let mut counts = Vec::new(alloc);
    for measures in functions {
        counts.push(set_count(*measures))?;
    }
    Ok(counts)
}

/// The sets of a choice, whose numbers count from 0.
fn sets(alloc: Global, choice: &[u32]) -> Result<Items<u32>, AllocError>
    ensures { IfOk result (λ sets. sets ≡ map (λ n. n + 1) choice.now) }
{
    let mut sets = Vec::new(alloc);
    for number in choice {
        let Some(set) = number.checked_add(1) else {
            return Err(AllocError);
        };
        sets.push(set)?;
    }
    Ok(Items::from_vec(sets))
}

/// Adds the mapping of each choice of sets.
fn add_mappings(
    alloc: Global,
    ranks: &mut Vec<Rank>,
    extremum: Extremum,
    choices: &[Items<u32>],
) -> Result<(), AllocError>
    ensures { OnOk result (ranks.new.items ≡ ranks.old.items ++ map (λ choice. rank_of extremum (map (λ n. n + 1) choice)) choices.now) }
{
    for choice in choices {
        let rank = extremum.of(sets(alloc, choice.as_slice())?);
        ranks.push(rank)?;
    }
    Ok(())
}

/// The mappings of these choices of sets, by the greatest value and then by the least.
fn mappings_over(alloc: Global, choices: &[Items<u32>]) -> Result<Vec<Rank>, AllocError>
    ensures { IfOk result (λ ranks. ranks.items ≡ over_choices choices.now) }
{
    let mut ranks = Vec::new(alloc);
    add_mappings(alloc, &mut ranks, Extremum::Greatest, choices)?;
    add_mappings(alloc, &mut ranks, Extremum::Least, choices)?;
    Ok(ranks)
}

/// The mappings in their order, or none where there are more than 4,096.
pub fn mapping_candidates(alloc: Global, functions: &[u32]) -> Result<Vec<Rank>, AllocError>
    ensures { IfOk result (λ ranks. ranks.items ≡ mappings_of functions.now) }
{
    let counts = set_counts(alloc, functions)?;
    let chosen = first_choices(alloc, MAX_SETS + 1, counts.as_slice())?;
    if chosen.as_slice().len() > MAX_SETS {
        return Ok(Vec::new(alloc));
    }
    mappings_over(alloc, chosen.as_slice())
}
