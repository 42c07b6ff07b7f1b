//! Whether no type of a table is a part of itself: its types are settled one after another, each once its parts are.

ghost use Rattle.std.specs.Prelude.{◌≡◌, ◌<◌, ◌≤◌, ◌+◌, length, IfOk, MatchBool};
ghost use Rattle.std.specs.List.{list_all};
ghost use Rattle.fp_unify.specs.Cells.{AreFine};
ghost use Rattle.fp_unify.specs.Settled.{flag, is_ready, upto, AreUnder, Settles, Lists, Settled, Rounds, NoneSettled, Determines, Unfit};

use crate::table::Shape;
use std::alloc::{AllocError, Global};

fn is_settled(settled: &[bool], at: u32) -> bool
    ensures { result ≡ flag settled.now at }
{
    match settled.get(at as usize) {
        Some(flag) => *flag,
        None => false,
    }
}

fn are_settled(settled: &[bool], all: &[u32]) -> bool
    ensures { result ≡ list_all (flag settled.now) all.now }
{
    for at in all {
        if !is_settled(settled, *at) {
            return false;
        }
    }
    true
}

// Is the type made of settled ones?
fn is_ready(settled: &[bool], shape: &Shape) -> bool
    ensures { result ≡ is_ready settled.now shape.now }
{
    match shape {
        Shape::Open => true,
        Shape::Link(next) => is_settled(settled, *next),
        Shape::Var(_) => true,
        Shape::Con { args, .. } => are_settled(settled, args.as_slice()),
    }
}

// Settles the type if it is made of settled ones, and says whether it is settled.
fn settle_one(cells: &[Shape], settled: &mut [bool], at: usize) -> bool
    requires kept { length settled.old ≡ length cells.now }
    requires inside { at < length cells.now }
    ensures { Settled cells.now at settled.old settled.new result }
{
    if settled[at] {
        return true;
    }
    if !is_ready(settled, &cells[at]) {
        return false;
    }
    settled[at] = true;
    true
}

// Settles each of these types that is made of settled ones, and answers the others.
fn settle_round(
    alloc: Global,
    cells: &[Shape],
    settled: &mut [bool],
    left: &[usize],
) -> Result<Vec<usize>, AllocError>
    requires kept { length settled.old ≡ length cells.now }
    requires inside { AreUnder (length cells.now) left.now }
    requires settles { Settles cells.now settled.old }
    requires lists { Lists settled.old left.now }
    ensures { IfOk result (λ rest. Rounds cells.now (length left.now) settled.old settled.new rest.items) }
{
    let mut rest = Vec::new(alloc);
    for at in left {
        if !settle_one(cells, settled, *at) {
            rest.push(*at)?;
        }
    }
    Ok(rest)
}

fn none_settled(alloc: Global, count: usize) -> Result<Vec<bool>, AllocError>
    ensures length { IfOk result (λ flags. length flags.items ≡ count) }
    ensures none { IfOk result (λ flags. NoneSettled flags.items) }
{
    let mut flags = Vec::new(alloc);
    for _ in 0..count {
        flags.push(false)?;
    }
    Ok(flags)
}

fn numbers(alloc: Global, count: usize) -> Result<Vec<usize>, AllocError>
    ensures { IfOk result (λ all. all.items ≡ upto count) }
{
    let mut all = Vec::new(alloc);
    for number in 0..count {
        all.push(number)?;
    }
    Ok(all)
}

// Settles all types that aren't a part of themselves, and says whether these are all.
fn settle_all(alloc: Global, cells: &[Shape], settled: &mut [bool]) -> Result<bool, AllocError>
    requires fine { AreFine cells.now }
    requires kept { length settled.old ≡ length cells.now }
    requires settles { Settles cells.now settled.old }
    ensures { IfOk result (λ yes. MatchBool yes (Determines cells.now) (Unfit cells.now)) }
{
    let mut left = numbers(alloc, cells.len())?;
    let mut before = left.len() + 1;
    while left.len() < before {
        before = left.len();
        left = settle_round(alloc, cells, settled, left.as_slice())?;
    }
    Ok(before == 0)
}

/// Is no type of the table a part of itself?
#[tactic(auto, using(crate::proofs::Ordered::start))]
pub(crate) fn settles(alloc: Global, cells: &[Shape]) -> Result<bool, AllocError>
    requires { AreFine cells.now }
    ensures { IfOk result (λ yes. MatchBool yes (Determines cells.now) (Unfit cells.now)) }
{
    let mut settled = none_settled(alloc, cells.len())?;
    let all = settle_all(alloc, cells, settled.as_mut_slice())?;
    Ok(all)
}
