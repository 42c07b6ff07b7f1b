//! A seat at a board: what one worker knows of the cells.

ghost use Rattle.std.specs.Prelude.{◌≡◌, ◌<◌, ◌≤◌, [], length};
ghost use Rattle.fp_board_rule.specs.Words.{word_at, noted_in};
ghost use Rattle.fp_board.specs.Agreement.{Agrees};

use atomic_table::Seat as Token;
use fp_board_rule::View;
use fp_shown::Partial;
use std::snapshot::Snapshot;

/// What a worker knows of a board.
#[derive(Drop)]
pub struct Seat {
    pub(crate) token: Token<u8, View>,
    pub(crate) number: u32,
    pub(crate) known: Partial,
    pub(crate) noted: Vec<bool>,
    pub(crate) words: Vec<u64>,
    pub(crate) claim: Option<u32>,
    pub(crate) given: u32,
    pub ghost agrees: { Agrees token.me.0 number known.known.items noted.items claim given },
    pub ghost no_slot: { token.me.1 ≡ [] },
    pub ghost numbered: { (0 < number) × (number ≤ 16) },
}

/// That a seat has loaded every word.
#[derive(Drop)]
pub struct Fresh {
    pub(crate) at: Snapshot<Token<u8, View>>,
}

impl Seat {
    ghost use Rattle.fp_board.specs.Seats.{view_of};

    /// From 1 to 16; the first seat has 1.
    pub fn number(&self) -> u32
        ensures { result ≡ (view_of self.now).number }
    {
        self.number
    }

    /// The cell of its claim.
    pub fn held(&self) -> Option<u32>
        ensures { result ≡ (view_of self.now).claim }
    {
        self.claim
    }

    /// What it knows of the cells.
    pub fn known(&self) -> &Partial
        ensures { result.now.known.items ≡ (view_of self.now).known }
    {
        &self.known
    }

    /// Whether it has noted the cell as cancelled.
    pub fn noted(&self, k: u32) -> bool
        requires { k < length (view_of self.now).noted }
        ensures { result ≡ noted_in (view_of self.now).noted k }
    {
        self.noted[k as usize]
    }

    /// The word that its last refresh or look found at the cell, or 0 before any.
    pub fn word(&self, k: u32) -> u64
        requires { k < length self.now.words.items }
        ensures { result ≡ word_at self.now.words.items k }
    {
        self.words[k as usize]
    }
}
