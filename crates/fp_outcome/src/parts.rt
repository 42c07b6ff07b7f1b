//! The order that a search found, as measures.
ghost use Rattle.std.specs.Prelude.{◌≡◌, ◌<◌, ◌++◌, length, slice_get, Some, IfOk, OnOk};
ghost use Rattle.fp_level.specs.Ranks.{has};
ghost use Rattle.fp_outcome.specs.Shown.{ListsHaveOnly, AreShownParts};
ghost use Rattle.fp_outcome.specs.Parts.{numbered_measure, column_of, set_of, sets_of, part_of, parts_of};

use crate::item::OrderPart;
use fp_level::{Found, Rank};
use fp_term::{Items, Term};
use std::alloc::{AllocError, Global};

// The measure of that number.
fn at(own: &[Term], number: usize) -> &Term
    requires { number < length own.now }
    ensures { slice_get own.now number ≡ Some result.now }
{
    &own[number]
}

// Puts the measure of that number at the end, where there is one.
#[tactic(auto, using(crate::proofs::Showing::none_added))]
fn add_measure(chosen: &mut Items<Term>, own: &[Term], number: usize) -> Result<(), AllocError>
    ensures { OnOk result (chosen.new ≡ chosen.old ++ numbered_measure own.now number) }
{
    if number >= own.len() {
        return Ok(());
    }
    chosen.push(at(own, number).copy()?)
}

// The measure of that number, alone.
fn measure_of(alloc: Global, own: &[Term], number: u32) -> Result<Items<Term>, AllocError>
    ensures { IfOk result (λ chosen. chosen ≡ numbered_measure own.now number) }
{
    let mut chosen = Items::new(alloc);
    add_measure(&mut chosen, own, number as usize)?;
    Ok(chosen)
}

// The measures of these numbers, one for each function.
fn column(
    alloc: Global,
    measures: &[Items<Term>],
    numbers: &[u32],
) -> Result<Items<Term>, AllocError>
    ensures { IfOk result (λ chosen. chosen ≡ column_of measures.now numbers.now) }
{
    let [own, others @ ..] = measures else {
        return Ok(Items::new(alloc));
    };
    let [number, rest @ ..] = numbers else {
        return Ok(Items::new(alloc));
    };
    let first = measure_of(alloc, own.as_slice(), *number)?;
    first.extended(column(alloc, others, rest)?)
}

// Is the measure in the set?
fn is_in(set: u32, number: usize) -> bool
    ensures { result ≡ has set number }
{
    if number < 32 {
        set >> number as u32 & 1 == 1
    } else {
        false
    }
}

// The measures whose bits are in the set.
fn set_of(alloc: Global, own: &[Term], set: u32) -> Result<Items<Term>, AllocError>
    ensures { IfOk result (λ chosen. chosen ≡ set_of own.now set) }
{
    let mut chosen = Items::new(alloc);
    for number in 0..own.len() {
        if is_in(set, number) {
            add_measure(&mut chosen, own, number)?;
        }
    }
    Ok(chosen)
}

// The measures of these sets, one set for each function.
fn sets_of(
    alloc: Global,
    measures: &[Items<Term>],
    sets: &[u32],
) -> Result<Items<Items<Term>>, AllocError>
    ensures { IfOk result (λ all. all ≡ sets_of measures.now sets.now) }
{
    let [own, others @ ..] = measures else {
        return Ok(Items::new(alloc));
    };
    let [set, rest @ ..] = sets else {
        return Ok(Items::new(alloc));
    };
    let first = set_of(alloc, own.as_slice(), *set)?;
    let all = Items::new(alloc).appended(first)?;
    all.extended(sets_of(alloc, others, rest)?)
}

fn part_of(alloc: Global, measures: &[Items<Term>], rank: &Rank) -> Result<OrderPart, AllocError>
    ensures { IfOk result (λ part. part ≡ part_of measures.now rank.now) }
{
    match rank {
        Rank::Column(numbers) => {
            Ok(OrderPart::Column(column(alloc, measures, numbers.as_slice())?))
        }
        Rank::Max(sets) => Ok(OrderPart::Max(sets_of(alloc, measures, sets.as_slice())?)),
        Rank::Min(sets) => Ok(OrderPart::Min(sets_of(alloc, measures, sets.as_slice())?)),
    }
}

// The parts of ranks.
fn parts(
    alloc: Global,
    measures: &[Items<Term>],
    ranks: &[Rank],
) -> Result<Items<OrderPart>, AllocError>
    ensures { IfOk result (λ parts. parts ≡ parts_of measures.now ranks.now) }
{
    let mut parts = Items::new(alloc);
    for rank in ranks {
        parts.push(part_of(alloc, measures, rank)?)?;
    }
    Ok(parts)
}

/// The parts of the order that was found, by the measures of each function.
#[tactic(auto, using(crate::proofs::Showing::all_shown))]
pub fn parts_of(
    alloc: Global,
    measures: &[Items<Term>],
    found: &Found,
) -> Result<Items<OrderPart>, AllocError>
    requires { ListsHaveOnly measures.now }
    ensures exact { IfOk result (λ parts. parts ≡ parts_of measures.now found.now.ranks) }
    ensures shown { IfOk result AreShownParts }
{
    parts(alloc, measures, found.ranks.as_slice())
}
