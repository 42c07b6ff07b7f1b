//! Ranks with the measures that they take.

use fp_level::Rank;
use fp_proof::Stop;
use fp_term::{Items, Term};
use std::alloc::Global;

/// Which value of a set counts.
#[derive(Clone, Copy)]
pub(crate) enum Extremum {
    Greatest,
    Least,
}

/// A set of measures for each function, and which of their values counts.
#[derive(Drop)]
pub(crate) struct Mapping {
    pub extremum: Extremum,
    pub sets: Items<Items<Term>>,
}

impl Mapping {
    /// The measures of the function of that index.
    pub fn set(&self, function: usize) -> Result<&[Term], Stop> {
        measures_at(self.sets.as_slice(), function)
    }
}

fn measures_at(measures: &[Items<Term>], function: usize) -> Result<&[Term], Stop> {
    match measures.get(function) {
        Some(own) => Ok(own.as_slice()),
        None => Err(Stop::Stuck),
    }
}

fn single(alloc: Global, measures: &[Term], number: u32) -> Result<Items<Term>, Stop> {
    match measures.get(number as usize) {
        Some(measure) => Ok(Items::new(alloc).appended(measure.copy()?)?),
        None => Err(Stop::Stuck),
    }
}

// Those of the mask, whose bit 0 is the first.
fn masked(alloc: Global, measures: &[Term], mask: u32) -> Result<Items<Term>, Stop> {
    let mut chosen = Items::new(alloc);
    let mut left = mask;
    for measure in measures {
        if left % 2 == 1 {
            chosen.push(measure.copy()?)?;
        }
        left /= 2;
    }
    Ok(chosen)
}

// One measure for each function.
fn column(
    alloc: Global,
    measures: &[Items<Term>],
    numbers: &[u32],
) -> Result<Items<Items<Term>>, Stop> {
    let mut sets = Items::new(alloc);
    for function in 0..numbers.len() {
        let own = measures_at(measures, function)?;
        sets.push(single(alloc, own, numbers[function])?)?;
    }
    Ok(sets)
}

// A set of measures for each function.
fn sets(
    alloc: Global,
    measures: &[Items<Term>],
    masks: &[u32],
) -> Result<Items<Items<Term>>, Stop> {
    let mut sets = Items::new(alloc);
    for function in 0..masks.len() {
        let own = measures_at(measures, function)?;
        sets.push(masked(alloc, own, masks[function])?)?;
    }
    Ok(sets)
}

/// The rank with its measures.
pub(crate) fn mapping_of(
    alloc: Global,
    measures: &[Items<Term>],
    rank: &Rank,
) -> Result<Mapping, Stop> {
    let (extremum, sets) = match rank {
        Rank::Column(numbers) => (
            Extremum::Greatest,
            column(alloc, measures, numbers.as_slice())?,
        ),
        Rank::Max(masks) => (Extremum::Greatest, sets(alloc, measures, masks.as_slice())?),
        Rank::Min(masks) => (Extremum::Least, sets(alloc, measures, masks.as_slice())?),
    };
    Ok(Mapping { extremum, sets })
}
