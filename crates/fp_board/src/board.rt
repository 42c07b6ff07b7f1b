//! The board.

ghost use Rattle.std.specs.Prelude.{◌≡◌, ◌≢◌, ℕ, ◌+◌, ◌<◌, ◌≤◌, ◌⊎◌, [], length, IfOk, IfErr, Some, None, slice_get};
ghost use Rattle.fp_order.specs.Grid.{cells_of, IsGrid};
ghost use Rattle.fp_shown.specs.Shown.{IsShown};
ghost use Rattle.fp_board_rule.specs.Words.{word_at};
ghost use Rattle.fp_board_rule.specs.Rule.{count_of, IsPlan, IsVerdictOf, first_of, first_view};
ghost use Rattle.fp_board_rule.specs.Steps.{learned, looks_after, left_part, right_part, taken_in, IsAlone, IsDone, IsLoaded, IsRefreshed, Finds, Grows};
ghost use Rattle.fp_board.specs.Answers.{IsClaim, IsSettle, IsCancel, IsQuit};

use crate::answers::{Cancel, Claim, Quit, Settle};
use crate::closed::Closed;
use crate::learning::{copied, filled, learn, learn_known, learn_noted, word_of_entry};
use crate::seat::{Fresh, Seat};
use atomic_table::Table;
use fp_board_rule::{
    BoardRule, CancelCell, ClaimCell, LastLoad, Load, Look, Parts, Plan, QuitCell, SettleCell, View,
};
use fp_order::{Entry, Grid};
use fp_rewriting::RuleSet;
use fp_shown::Partial;
use fp_simp::CellData;
use std::alloc::{AllocError, Global};
use std::snapshot::Snapshot;

/// The words of the cells, with what they are made for.
#[derive(Drop)]
pub struct Board {
    plan: Plan,
    count: u32,
    table: Table<u8, View, Plan, BoardRule, Global>,
    pub ghost right: { IsPlan plan },
    pub ghost counted: { count ≡ count_of plan },
    pub ghost keyed: { table.shared.key ≡ plan },
    pub ghost sized: { count_of plan ≤ table.shared.table_id.words },
    pub ghost no_slots: { table.shared.table_id.slots ≡ 0 },
    pub ghost some_word: { 0 < table.shared.table_id.words },
}

/// A seat's parts with no claim, where each cell has its first word.
fn new_parts(alloc: Global, count: usize) -> Result<(Partial, Vec<bool>, Vec<u64>), AllocError>
    ensures known { IfOk result (λ r. r.0.known.items ≡ (first_of count).known) }
    ensures noted { IfOk result (λ r. r.1.items ≡ (first_of count).noted) }
    ensures words { IfOk result (λ r. length r.2.items ≡ count) }
{
    let known = filled(alloc, None, count)?;
    let noted = filled(alloc, false, count)?;
    let words = filled(alloc, 0, count)?;
    Ok((Partial { known }, noted, words))
}

impl Board {
    ghost use Rattle.fp_board.specs.Seats.{IsOf, IsLast, view_of};

    pub fn grid(&self) -> &Grid
        ensures { result.now ≡ self.now.plan.grid }
    {
        &self.plan.grid
    }

    /// How many cells it has.
    pub fn count(&self) -> u32
        ensures { result ≡ count_of self.now.plan }
    {
        self.count
    }

    /// The goals of a cell.
    pub fn cell(&self, k: u32) -> &CellData
        requires { k < count_of self.now.plan }
        ensures { slice_get self.now.plan.cells.items k ≡ Some result.now }
    {
        &self.plan.cells[k as usize]
    }

    pub fn rules(&self) -> &RuleSet
        ensures { result.now ≡ self.now.plan.rules }
    {
        &self.plan.rules
    }

    /// The board of a grid with the goals of its cells in their order, all cells free, and its first seat.
    pub fn new(
        alloc: Global,
        cells: Vec<CellData>,
        grid: Grid,
        rules: RuleSet,
    ) -> Result<(Board, Seat), AllocError>
        requires grid { IsGrid grid }
        requires cells { length cells.items ≡ length (cells_of grid) }
        ensures plan { IfOk result (λ made. made.0.plan ≡ record { cells = cells; grid = grid; rules = rules }) }
        ensures of { IfOk result (λ made. IsOf made.0 made.1) }
        ensures first { IfOk result (λ made. view_of made.1 ≡ first_view made.0.plan) }
    {
        let Ok(count) = u32::try_from(cells.len()) else {
            return Err(AllocError);
        };
        let plan = Plan { cells, grid, rules };
        let zeros = filled(alloc, 0, (count as usize).max(1))?;
        let (known, noted, words) = new_parts(alloc, count as usize)?;
        let (table, token) = Table::of_words(alloc, &zeros, &plan)?;
        let seat = Seat {
            token,
            number: 1,
            known,
            noted,
            words,
            claim: None,
            given: 1,
        };
        Ok((Board { plan, count, table }, seat))
    }

    /// Loads the word of one cell.
    pub fn look(&self, seat: &mut Seat, k: u32) -> u64
        requires of { IsOf self.now seat.old }
        requires cell { k < count_of self.now.plan }
        ensures of { IsOf self.now seat.new }
        ensures view { view_of seat.new ≡ record (learned (view_of seat.old) k result) { looks = looks_after (view_of seat.old).claim k (view_of seat.old).looks } }
        ensures grows { Grows (view_of seat.old) (view_of seat.new) }
        ensures finds { Finds (view_of seat.old) k result }
        ensures word { word_at seat.new.words.items k ≡ result }
        ensures others { (j : ℕ) → j ≢ k → word_at seat.new.words.items j ≡ word_at seat.old.words.items j }
    {
        let word = self.table.shared.load::<Look>(&mut seat.token, k as usize);
        learn(&mut seat.known.known, &mut seat.noted, k as usize, word);
        seat.words[k as usize] = word;
        word
    }

    /// Loads one word of a refresh, not the last.
    fn load_one(&self, seat: &mut Seat, k: usize)
        requires of { IsOf self.now seat.old }
        requires cell { k < count_of self.now.plan }
        ensures of { IsOf self.now seat.new }
        ensures told { IsLoaded (view_of seat.old) k seat.old.words.items (view_of seat.new) seat.new.words.items }
    {
        let word = self.table.shared.load::<Load>(&mut seat.token, k);
        learn(&mut seat.known.known, &mut seat.noted, k, word);
        seat.words[k] = word;
    }

    /// Loads the last word of a refresh, and counts it.
    fn load_last(&self, seat: &mut Seat, k: usize)
        requires of { IsOf self.now seat.old }
        requires cell { k < count_of self.now.plan }
        ensures of { IsOf self.now seat.new }
        ensures told { IsLoaded (view_of seat.old) k seat.old.words.items (view_of seat.new) seat.new.words.items }
    {
        let word = self.table.shared.load::<LastLoad>(&mut seat.token, k);
        learn(&mut seat.known.known, &mut seat.noted, k, word);
        seat.words[k] = word;
    }

    /// Loads the word of every cell, of which there are some.
    fn load_all(&self, seat: &mut Seat)
        requires of { IsOf self.now seat.old }
        requires cells { 0 < count_of self.now.plan }
        ensures of { IsOf self.now seat.new }
        ensures told { IsRefreshed (view_of seat.old) (view_of seat.new) seat.new.words.items (count_of self.now.plan) }
    {
        let last = (self.count - 1) as usize;
        for k in 0..last {
            self.load_one(seat, k);
        }
        self.load_last(seat, last);
    }

    /// Loads the word of every cell. A seat that is alone learns nothing new.
    pub fn refresh(&self, seat: &mut Seat) -> Fresh
        requires of { IsOf self.now seat.old }
        ensures of { IsOf self.now seat.new }
        ensures last { IsLast result seat.new }
        ensures told { IsRefreshed (view_of seat.old) (view_of seat.new) seat.new.words.items (count_of self.now.plan) }
    {
        if self.count > 0 {
            self.load_all(seat);
        }
        Fresh {
            at: Snapshot::of(&seat.token),
        }
    }

    /// Claims a free cell that the seat's knowledge doesn't show.
    pub fn claim(&self, seat: &mut Seat, fresh: Fresh, k: u32) -> Claim
        requires of { IsOf self.now seat.old }
        requires cell { k < count_of self.now.plan }
        requires last { IsLast fresh seat.old }
        requires idle { (view_of seat.old).claim ≡ None }
        requires unshown { ¬ IsShown self.now.plan.grid (view_of seat.old).known k }
        ensures of { IsOf self.now seat.new }
        ensures claim { IsClaim (view_of seat.old) k result (view_of seat.new) }
        ensures words { seat.new.words ≡ seat.old.words }
    {
        let _ = fresh;
        let own = 8 + u64::from(seat.number);
        let found = self
            .table
            .shared
            .compare_exchange::<ClaimCell>(&mut seat.token, k as usize, 0, own);
        if found != 0 {
            return Claim::Taken(found);
        }
        seat.claim = Some(k);
        Claim::Claimed
    }

    /// Settles the claimed cell with its verdict.
    pub fn settle(&self, seat: &mut Seat, k: u32, v: Entry) -> Settle
        requires of { IsOf self.now seat.old }
        requires cell { k < count_of self.now.plan }
        requires claimed { (view_of seat.old).claim ≡ Some k }
        requires verdict { IsVerdictOf self.now.plan k v }
        ensures of { IsOf self.now seat.new }
        ensures settle { IsSettle (view_of seat.old) k v result (view_of seat.new) }
        ensures grows { Grows (view_of seat.old) (view_of seat.new) }
        ensures words { seat.new.words ≡ seat.old.words }
    {
        let own = 8 + u64::from(seat.number);
        let word = word_of_entry(v);
        let found = self
            .table
            .shared
            .compare_exchange::<SettleCell>(&mut seat.token, k as usize, own, word);
        seat.claim = None;
        if found != own {
            return Settle::WasCancelled;
        }
        learn(&mut seat.known.known, &mut seat.noted, k as usize, word);
        Settle::Settled
    }

    /// Cancels a cell that the seat's knowledge shows, free or claimed.
    pub fn cancel(&self, seat: &mut Seat, k: u32, expected: u64) -> Cancel
        requires of { IsOf self.now seat.old }
        requires cell { k < count_of self.now.plan }
        requires expected { (expected ≡ 0) ⊎ (8 < expected) }
        requires shown { IsShown self.now.plan.grid (view_of seat.old).known k }
        ensures of { IsOf self.now seat.new }
        ensures cancel { IsCancel (view_of seat.old) k expected result (view_of seat.new) }
        ensures grows { Grows (view_of seat.old) (view_of seat.new) }
        ensures words { seat.new.words ≡ seat.old.words }
    {
        let found = self
            .table
            .shared
            .compare_exchange::<CancelCell>(&mut seat.token, k as usize, expected, 1);
        if found != expected {
            return Cancel::Found(found);
        }
        learn(&mut seat.known.known, &mut seat.noted, k as usize, 1);
        Cancel::Cancelled
    }

    /// Gives the claimed cell back.
    pub fn quit(&self, seat: &mut Seat, k: u32) -> Quit
        requires of { IsOf self.now seat.old }
        requires cell { k < count_of self.now.plan }
        requires claimed { (view_of seat.old).claim ≡ Some k }
        ensures of { IsOf self.now seat.new }
        ensures quit { IsQuit (view_of seat.old) k result (view_of seat.new) }
        ensures words { seat.new.words ≡ seat.old.words }
    {
        let own = 8 + u64::from(seat.number);
        let found = self
            .table
            .shared
            .compare_exchange::<QuitCell>(&mut seat.token, k as usize, own, 0);
        seat.claim = None;
        if found != own {
            return Quit::WasCancelled;
        }
        Quit::Freed
    }

    /// Makes a seat with the next number that knows as much as the first one.
    pub fn split(&self, alloc: Global, seat: &mut Seat) -> Result<Seat, AllocError>
        requires of { IsOf self.now seat.old }
        requires first { (view_of seat.old).number ≡ 1 }
        requires room { (view_of seat.old).given < 16 }
        ensures of { IsOf self.now seat.new }
        ensures made { IfOk result (λ made. IsOf self.now made) }
        ensures left { IfOk result (λ made. view_of seat.new ≡ left_part (view_of seat.old)) }
        ensures right { IfOk result (λ made. view_of made ≡ right_part (view_of seat.old)) }
        ensures err { IfErr result (λ _. view_of seat.new ≡ view_of seat.old) }
    {
        let known = copied(alloc, &seat.known.known)?;
        let noted = copied(alloc, &seat.noted)?;
        let words = filled(alloc, 0, known.len())?;
        let token = self.table.shared.split_seat::<Parts>(&mut seat.token);
        seat.given += 1;
        Ok(Seat {
            token,
            number: seat.given,
            known: Partial { known },
            noted,
            words,
            claim: None,
            given: 0,
        })
    }

    /// Takes another seat, which holds no claim, into the first one.
    pub fn join(&self, seat: &mut Seat, other: Seat)
        requires of { IsOf self.now seat.old }
        requires other { IsOf self.now other }
        requires first { (view_of seat.old).number ≡ 1 }
        requires idle { (view_of other).claim ≡ None }
        ensures of { IsOf self.now seat.new }
        ensures view { view_of seat.new ≡ taken_in (view_of seat.old) (view_of other) }
        ensures words { seat.new.words ≡ seat.old.words }
    {
        let Seat {
            token,
            number: _,
            known,
            noted,
            words: _,
            claim: _,
            given: _,
        } = other;
        self.table.shared.join_seat::<Parts>(&mut seat.token, token);
        learn_known(&mut seat.known.known, &known.known);
        learn_noted(&mut seat.noted, &noted);
    }

    /// Ends the board, where the seat has each cell known or noted.
    pub fn close(self, seat: Seat) -> Closed
        requires of { IsOf self seat }
        requires all { (k : ℕ) → k < count_of self.plan → IsDone (view_of seat) k }
        ensures plan { result.plan ≡ self.plan }
        ensures known { result.partial.known.items ≡ (view_of seat).known }
    {
        let Board {
            plan,
            count: _,
            table,
        } = self;
        let Seat {
            token,
            number: _,
            known,
            noted: _,
            words: _,
            claim: _,
            given: _,
        } = seat;
        let closed = table.close_with(token);
        closed.free();
        Closed::of(plan, known)
    }
}
