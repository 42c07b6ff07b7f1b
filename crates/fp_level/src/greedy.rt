//! The best order among candidates whose entries are computed row by row.

ghost use Rattle.std.specs.Prelude.{◌≡◌, ◌<◌, ℕ, vec_len, length, IfOk, MatchOption};
ghost use Rattle.std.specs.Bool.{OnTrue, OnFalse};
ghost use Rattle.fp_order.specs.Greedy.{IsLeft, IsMarked, Fits, IsNext, NoneFits};
ghost use Rattle.fp_level.specs.Ranks.{candidate, candidate_entry, IsRank};
ghost use Rattle.fp_level.specs.Result.{IsSearched};

use crate::entries::rank_entry;
use crate::rank::Rank;
use crate::sheet::Sheet;
use fp_order::Entry;
use std::alloc::{AllocError, Global};

/// Whether the candidate has only Less and Leq on the rows left, and Less on one of them.
fn fits(s: &Sheet, ranks: &[Rank], decided: &[Option<u32>], c: usize) -> bool
    requires ranks { (d : ℕ) → d < length ranks.now → IsRank s.now.grid.functions (candidate ranks.now d) }
    requires rows { length decided.now ≡ length s.now.grid.rows }
    requires below { c < length ranks.now }
    ensures yes { OnTrue result (Fits (candidate_entry s.now.grid s.now.entries.items ranks.now) (IsLeft decided.now) c) }
    ensures no { OnFalse result (Fits (candidate_entry s.now.grid s.now.entries.items ranks.now) (IsLeft decided.now) c → ⊥) }
{
    let mut some_less = false;
    for row in 0..s.grid.row_count() {
        if decided[row as usize].is_none() {
            match rank_entry(s, &ranks[c], row) {
                Entry::Less => some_less = true,
                Entry::Leq => {}
                Entry::Unknown => return false,
            }
        }
    }
    some_less
}

/// The first candidate that fits the rows left.
fn next_candidate(s: &Sheet, ranks: &[Rank], decided: &[Option<u32>]) -> Option<usize>
    requires ranks { (d : ℕ) → d < length ranks.now → IsRank s.now.grid.functions (candidate ranks.now d) }
    requires rows { length decided.now ≡ length s.now.grid.rows }
    ensures { MatchOption result
        (NoneFits (candidate_entry s.now.grid s.now.entries.items ranks.now) (length ranks.now) (IsLeft decided.now))
        (λ c. IsNext (candidate_entry s.now.grid s.now.entries.items ranks.now) (length ranks.now) (IsLeft decided.now) c) }
{
    for c in 0..ranks.len() {
        if fits(s, ranks, decided, c) {
            return Some(c);
        }
    }
    None
}

/// Gives the position to each row left on which the candidate has Less.
fn mark(s: &Sheet, ranks: &[Rank], decided: &mut Vec<Option<u32>>, c: usize, position: u32)
    requires ranks { (d : ℕ) → d < length ranks.now → IsRank s.now.grid.functions (candidate ranks.now d) }
    requires rows { vec_len decided.old ≡ length s.now.grid.rows }
    requires below { c < length ranks.now }
    ensures { IsMarked (candidate_entry s.now.grid s.now.entries.items ranks.now) c position decided.old.items decided.new.items }
{
    for row in 0..s.grid.row_count() {
        if decided[row as usize].is_none() && matches!(rank_entry(s, &ranks[c], row), Entry::Less) {
            decided[row as usize] = Some(position);
        }
    }
}

/// The best order of the candidates on the rows left, whose positions count from `base`.
pub fn best_among(
    alloc: Global,
    s: &Sheet,
    ranks: &[Rank],
    decided: &mut Vec<Option<u32>>,
    base: u32,
) -> Result<Vec<usize>, AllocError>
    requires ranks { (d : ℕ) → d < length ranks.now → IsRank s.now.grid.functions (candidate ranks.now d) }
    requires rows { vec_len decided.old ≡ length s.now.grid.rows }
    ensures { IfOk result (λ order. IsSearched (candidate_entry s.now.grid s.now.entries.items ranks.now)
        (length ranks.now) base decided.old.items decided.new.items order.items) }
{
    let mut order = Vec::new(alloc);
    while let Some(c) = next_candidate(s, ranks, decided.as_slice()) {
        let Ok(position) = u32::try_from(base as usize + order.len()) else {
            return Err(AllocError);
        };
        mark(s, ranks, decided, c, position);
        order.push(c)?;
    }
    Ok(order)
}
