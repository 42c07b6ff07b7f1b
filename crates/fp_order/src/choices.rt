//! Choices of one number below each of some, among them the columns of a grid: one measure for each function.

ghost use Rattle.std.specs.Prelude.{◌≡◌, ◌∷◌, ◌<◌, ◌++◌, IfOk, take};
ghost use Rattle.fp_order.specs.Grid.{prefixed, choices, columns_of};

use crate::Items;
use std::alloc::{AllocError, Global};

/// How many columns there are at most.
const MAX_COLUMNS: usize = 256;

/// A choice with one more number in front.
fn with_first(alloc: Global, number: u32, later: &Items<u32>) -> Result<Items<u32>, AllocError>
    ensures { IfOk result (λ choice. choice ≡ number ∷ later.now) }
{
    let mut choice = Vec::new(alloc);
    choice.push(number)?;
    choice.extend_from_slice(later.as_slice())?;
    Ok(Items::from_vec(choice))
}

/// The first `limit` choices with a first number below `count`, given those of the numbers after it.
fn prepend(
    alloc: Global,
    limit: usize,
    count: u32,
    rest: &[Items<u32>],
) -> Result<Vec<Items<u32>>, AllocError>
    ensures { IfOk result (λ all. all.items ≡ take limit (prefixed count rest.now)) }
{
    let mut all = Vec::new(alloc);
    for number in 0..count {
        for later in rest {
            if all.len() < limit {
                let choice = with_first(alloc, number, later)?;
                all.push(choice)?;
            }
        }
    }
    Ok(all)
}

/// The first `limit` choices, in dictionary order, of one number below each of these.
pub fn first_choices(
    alloc: Global,
    limit: usize,
    counts: &[u32],
) -> Result<Items<Items<u32>>, AllocError>
    requires { 0 < limit }
    ensures { IfOk result (λ all. all ≡ take limit (choices counts.now)) }
{
    let mut all = Vec::new(alloc);
    all.push(Items::new(alloc))?;
    for i in 0..counts.len() {
        all = prepend(alloc, limit, counts[counts.len() - 1 - i], all.as_slice())?;
    }
    Ok(Items::from_vec(all))
}

/// The columns: the choices of one measure for each function in dictionary order, only the first 256.
pub fn columns(alloc: Global, functions: &[u32]) -> Result<Items<Items<u32>>, AllocError>
    ensures { IfOk result (λ all. all ≡ columns_of functions.now) }
{
    first_choices(alloc, MAX_COLUMNS, functions)
}
