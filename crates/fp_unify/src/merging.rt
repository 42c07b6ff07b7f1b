//! Making two types of a table one, as far as their forms go.

ghost use Rattle.std.specs.Prelude.{◌≡◌, ◌<◌, ◌++◌, [], ◌∷◌, true, false, length, slice_set, IfOk, MatchBool, MatchOption};
ghost use Rattle.fp_unify.specs.declared.table.Shape.TheVariants.{Link};
ghost use Rattle.fp_unify.specs.Cells.{cell, IsFine, AreFine, IsRoot, IsFormed, pairs, needed, is_open, AreInside, Apart, AllApart, Turns, Reaches, Takes, Against};

use crate::table::{Shape, root};
use std::alloc::AllocError;
use std::mem;

fn push_pairs(pending: &mut Vec<(u32, u32)>, left: &[u32], right: &[u32]) -> Result<(), AllocError>
    requires { length left.now ≡ length right.now }
    ensures { IfOk result (λ _. pending.new.items ≡ pending.old.items ++ pairs left.now right.now) }
{
    for i in 0..left.len() {
        pending.push((left[i], right[i]))?;
    }
    Ok(())
}

// Adds what must be equal where two types of these forms are, and says whether they can be.
fn add_needed(pending: &mut Vec<(u32, u32)>, low: &Shape, high: &Shape) -> Result<bool, AllocError>
    ensures { IfOk result (λ yes. MatchOption (needed low.now high.now) (yes ≡ false) (λ more. (yes ≡ true) × (pending.new.items ≡ pending.old.items ++ more))) }
{
    match high {
        Shape::Open => Ok(true),
        Shape::Link(_) => Ok(false),
        Shape::Var(b) => match low {
            Shape::Var(a) => Ok(a.equals(b)),
            _ => Ok(false),
        },
        Shape::Con { name: b, args: ys } => match low {
            Shape::Con { name: a, args: xs } => {
                if a.equals(b) && xs.as_slice().len() == ys.as_slice().len() {
                    push_pairs(pending, xs.as_slice(), ys.as_slice())?;
                    Ok(true)
                } else {
                    Ok(false)
                }
            }
            _ => Ok(false),
        },
    }
}

fn is_open(shape: &Shape) -> bool
    ensures { result ≡ is_open shape.now }
{
    matches!(shape, Shape::Open)
}

// What is known of the later type is known of the earlier one.
fn take_over(cells: &mut [Shape], low: u32, high: u32)
    requires order { low < high }
    requires inside { high < length cells.old }
    ensures { cells.new ≡ slice_set (slice_set cells.old high (Link low)) low (cell cells.old high) }
{
    let shape = mem::replace(&mut cells[high as usize], Shape::Link(low));
    cells[low as usize] = shape;
}

// Makes the later type the earlier one; adds what must then be equal, and says whether the two can be.
fn merge(
    cells: &mut [Shape],
    pending: &mut Vec<(u32, u32)>,
    low: u32,
    high: u32,
) -> Result<bool, AllocError>
    requires fine { AreFine cells.old }
    requires order { low < high }
    requires inside { high < length cells.old }
    requires low_root { IsRoot (cell cells.old low) }
    requires high_root { IsRoot (cell cells.old high) }
    ensures { IfOk result (λ yes. MatchBool yes (Turns cells.old ((low, high) ∷ pending.old.items) cells.new pending.new.items) (Apart cells.old low high)) }
{
    if is_open(&cells[low as usize]) {
        take_over(cells, low, high);
        return Ok(true);
    }
    if !add_needed(pending, &cells[low as usize], &cells[high as usize])? {
        return Ok(false);
    }
    cells[high as usize] = Shape::Link(low);
    Ok(true)
}

// Makes two types equal as far as their forms go.
fn join_pair(
    cells: &mut [Shape],
    pending: &mut Vec<(u32, u32)>,
    left: u32,
    right: u32,
) -> Result<bool, AllocError>
    requires fine { AreFine cells.old }
    requires left_inside { left < length cells.old }
    requires right_inside { right < length cells.old }
    ensures { IfOk result (λ yes. MatchBool yes (Turns cells.old ((left, right) ∷ pending.old.items) cells.new pending.new.items) (Apart cells.old left right)) }
{
    let a = root(cells, left);
    let b = root(cells, right);
    if a < b {
        merge(cells, pending, a, b)
    } else if b < a {
        merge(cells, pending, b, a)
    } else {
        Ok(true)
    }
}

/// Makes the types of each pair equal, and says whether they can be.
pub(crate) fn join_all(
    cells: &mut [Shape],
    mut pending: Vec<(u32, u32)>,
) -> Result<bool, AllocError>
    requires fine { AreFine cells.old }
    requires inside { AreInside (length cells.old) pending.items }
    ensures { IfOk result (λ yes. MatchBool yes (Reaches cells.old pending.items cells.new []) (AllApart cells.old pending.items)) }
{
    while let Some(pair) = pending.pop() {
        if !join_pair(cells, &mut pending, pair.0, pair.1)? {
            return Ok(false);
        }
    }
    Ok(true)
}

/// Gives the type a form; adds what must then be equal, and says whether it can have the form.
pub(crate) fn take_form(
    cells: &mut [Shape],
    pending: &mut Vec<(u32, u32)>,
    at: u32,
    form: Shape,
) -> Result<bool, AllocError>
    requires fine { AreFine cells.old }
    requires inside { at < length cells.old }
    requires form_fine { IsFine (length cells.old) 0 form }
    requires known { IsFormed form }
    requires none { pending.old.items ≡ [] }
    ensures { IfOk result (λ yes. MatchBool yes (Takes cells.old at form cells.new pending.new.items) (Against cells.old at form)) }
{
    let at = root(cells, at);
    if is_open(&cells[at as usize]) {
        cells[at as usize] = form;
        return Ok(true);
    }
    let may = add_needed(pending, &cells[at as usize], &form)?;
    Ok(may)
}
