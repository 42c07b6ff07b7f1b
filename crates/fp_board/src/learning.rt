//! What is taken in of words and of other seats.

ghost use Rattle.std.specs.Prelude.{◌≡◌, ◌<◌, ◌==◌, vec_len, length, replicate, IfOk};
ghost use Rattle.fp_board_rule.specs.Words.{code, entry_of};
ghost use Rattle.fp_board_rule.specs.Steps.{knowing, noting, known_both, noted_both, or_known};

use fp_order::Entry;
use std::alloc::{AllocError, Global};

/// The entry of a settled word.
fn entry_of_word(word: u64) -> Option<Entry>
    ensures { result ≡ entry_of word }
{
    match word {
        2 => Some(Entry::Unknown),
        3 => Some(Entry::Leq),
        4 => Some(Entry::Less),
        _ => None,
    }
}

/// The word of a settled cell.
pub fn word_of_entry(entry: Entry) -> u64
    ensures { result ≡ code entry }
{
    match entry {
        Entry::Unknown => 2,
        Entry::Leq => 3,
        Entry::Less => 4,
    }
}

pub fn filled<T: Copy>(alloc: Global, value: T, count: usize) -> Result<Vec<T>, AllocError>
    ensures { IfOk result (λ v. v.items ≡ replicate count value) }
{
    let mut all = Vec::with_capacity(alloc, count)?;
    all.resize(count, value)?;
    Ok(all)
}

pub fn copied<T: Copy>(alloc: Global, all: &[T]) -> Result<Vec<T>, AllocError>
    ensures { IfOk result (λ v. v.items ≡ all.now) }
{
    Vec::from_slice(alloc, all)
}

/// Takes in what a word says of a cell.
pub fn learn(known: &mut Vec<Option<Entry>>, noted: &mut Vec<bool>, k: usize, word: u64)
    requires { (k < vec_len known.old) × (k < vec_len noted.old) }
    ensures known { known.new.items ≡ knowing known.old.items k (entry_of word) }
    ensures noted { noted.new.items ≡ noting noted.old.items k (word == 1) }
{
    if let Some(entry) = entry_of_word(word) {
        known[k] = Some(entry);
    }
    if word == 1 {
        noted[k] = true;
    }
}

fn first_known(one: Option<Entry>, other: Option<Entry>) -> Option<Entry>
    ensures { result ≡ or_known one other }
{
    match one {
        Some(entry) => Some(entry),
        None => other,
    }
}

/// Takes in what another seat knows.
pub fn learn_known(known: &mut [Option<Entry>], other: &[Option<Entry>])
    requires { length known.old ≡ length other.now }
    ensures { known.new ≡ known_both known.old other.now }
{
    for k in 0..other.len() {
        known[k] = first_known(known[k], other[k]);
    }
}

/// Takes in what another seat has noted.
pub fn learn_noted(noted: &mut [bool], other: &[bool])
    requires { length noted.old ≡ length other.now }
    ensures { noted.new ≡ noted_both noted.old other.now }
{
    for k in 0..other.len() {
        let own = noted[k];
        noted[k] = own | other[k];
    }
}
