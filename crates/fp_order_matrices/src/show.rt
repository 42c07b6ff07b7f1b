//! What the search finds, as a line: the ranks, and then the deciding position of each row.

use crate::read::{is_full, is_grid, problem_of};
use fp_level::{Found, Rank, search};
use std::alloc::{AllocError, Global};

fn put_number(alloc: Global, text: &mut String, number: u32) -> Result<(), AllocError> {
    let word = format!(in alloc; " {number}")?;
    text.push_str(word.as_str())
}

fn put_list(
    alloc: Global,
    text: &mut String,
    kind: &str,
    numbers: &[u32],
) -> Result<(), AllocError> {
    text.push_str(kind)?;
    for number in numbers {
        put_number(alloc, text, *number)?;
    }
    text.push_str(",")
}

fn put_rank(alloc: Global, text: &mut String, rank: &Rank) -> Result<(), AllocError> {
    match rank {
        Rank::Column(measures) => put_list(alloc, text, "column", measures.as_slice()),
        Rank::Max(sets) => put_list(alloc, text, "max", sets.as_slice()),
        Rank::Min(sets) => put_list(alloc, text, "min", sets.as_slice()),
    }
}

fn put_found(alloc: Global, text: &mut String, found: &Found) -> Result<(), AllocError> {
    for rank in found.ranks.as_slice() {
        put_rank(alloc, text, rank)?;
    }
    text.push_str(";")?;
    for position in found.decided.as_slice() {
        match position {
            None => text.push_str(" -")?,
            Some(position) => put_number(alloc, text, *position)?,
        }
    }
    Ok(())
}

/// The ranks that are found, and each row's position or `-`; nothing for a line that is no grid with its entries.
pub fn answer(alloc: Global, line: &[u8]) -> Result<String, AllocError> {
    let mut text = String::new(alloc);
    let problem = problem_of(alloc, line)?;
    if !is_grid(&problem.grid) {
        return Ok(text);
    }
    let entries = problem.entries.as_slice();
    if !is_full(alloc, &problem.grid, entries)? {
        return Ok(text);
    }
    let found = search(alloc, &problem.grid, entries)?;
    put_found(alloc, &mut text, &found)?;
    Ok(text)
}
