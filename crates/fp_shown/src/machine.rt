//! The machine that settles and cancels the cells of a descent matrix.

ghost use Rattle.std.specs.Prelude.{◌≡◌, ◌<◌, ◌^◌, ℕ, length, replicate, IfOk, OnErr};
ghost use Rattle.std.specs.Bool.{OnTrue, OnFalse};
ghost use Rattle.fp_order.specs.Grid.{cells_of, IsGrid};
ghost use Rattle.fp_shown.specs.declared.state.CellState.TheVariants.{Free, Claimed};
ghost use Rattle.fp_shown.specs.Machine.{settled, settled_of, IsSeat, IsPending, MayClaim, MaySettle, MayCancel, MayQuit, IsAllowed, cell_of, state_of, Steps, state_at, IsPlayed, IsBoard, ClosedStays, CancelledAreFree, ClosedHasResult};

use crate::search::cell_shown;
use crate::state::{CellState, Event};
use crate::table::{ColumnCells, column_cells};
use fp_order::{Entry, Grid};
use std::alloc::{AllocError, Global};
use std::marker::Model;

/// A grid with the entries of its full matrix and the states of its cells.
#[derive(Drop)]
pub struct Machine {
    cells: ColumnCells,
    verdicts: Vec<Entry>,
    states: Vec<CellState>,
    /// The entries of the settled cells.
    known: Vec<Option<Entry>>,
}

impl Model for Machine {
    ghost use Rattle.std.specs.Prelude.{◌≡◌};
    ghost use Rattle.fp_shown.specs.Machine.{Board, IsBoard, settled};

    ghost Value = { Board };

    ghost view = { λ m. record { grid = m.cells.grid; verdicts = m.verdicts.items; states = m.states.items } };

    ghost invariant = { λ m. IsBoard m.cells.grid m.verdicts.items m.states.items × (m.known.items ≡ settled m.states.items) };
}

fn is_seat(w: u32) -> bool
    ensures yes { OnTrue result (IsSeat w) }
    ensures no { OnFalse result (IsSeat w → ⊥) }
{
    1 <= w && w <= 16
}

/// Whether the cell is one of these and the seat has claimed it.
fn is_claimed(states: &[CellState], w: u32, k: u32) -> bool
    ensures yes { OnTrue result (MayQuit states.now w k) }
    ensures no { OnFalse result (MayQuit states.now w k → ⊥) }
{
    if !is_seat(w) || k as usize >= states.len() {
        return false;
    }
    match states[k as usize] {
        CellState::Claimed(u) => u == w,
        CellState::Free => false,
        CellState::Settled(_) => false,
        CellState::Cancelled => false,
    }
}

/// Whether some cell is claimed by the seat.
fn has_claim(states: &[CellState], w: u32) -> bool
    ensures yes { OnTrue result ((j : ℕ) × (j < length states.now) × (state_at states.now j ≡ Claimed w)) }
    ensures no { OnFalse result ((j : ℕ) → j < length states.now → state_at states.now j ≡ Claimed w → ⊥) }
{
    for state in states {
        match *state {
            CellState::Claimed(u) => {
                if u == w {
                    return true;
                }
            }
            CellState::Free => {}
            CellState::Settled(_) => {}
            CellState::Cancelled => {}
        }
    }
    false
}

/// Whether the cell is free and the seat has no claim.
fn may_claim(states: &[CellState], w: u32, k: u32) -> bool
    ensures yes { OnTrue result (MayClaim states.now w k) }
    ensures no { OnFalse result (MayClaim states.now w k → ⊥) }
{
    if !is_seat(w) || k as usize >= states.len() || has_claim(states, w) {
        return false;
    }
    matches!(states[k as usize], CellState::Free)
}

/// Whether the seat has claimed the cell, and this is its entry.
fn may_settle(verdicts: &[Entry], states: &[CellState], w: u32, k: u32, v: Entry) -> bool
    requires { length verdicts.now ≡ length states.now }
    ensures yes { OnTrue result (MaySettle verdicts.now states.now w k v) }
    ensures no { OnFalse result (MaySettle verdicts.now states.now w k v → ⊥) }
{
    if !is_claimed(states, w, k) {
        return false;
    }
    v == verdicts[k as usize]
}

/// Whether a cell is neither settled nor cancelled.
fn is_pending(state: CellState) -> bool
    ensures yes { OnTrue result (IsPending state) }
    ensures no { OnFalse result (IsPending state → ⊥) }
{
    match state {
        CellState::Free => true,
        CellState::Claimed(_) => true,
        CellState::Settled(_) => false,
        CellState::Cancelled => false,
    }
}

/// Whether the cell is neither settled nor cancelled, and shown by the settled ones.
fn may_cancel(
    alloc: Global,
    cells: &ColumnCells,
    states: &[CellState],
    known: &[Option<Entry>],
    w: u32,
    k: u32,
) -> Result<bool, AllocError>
    requires states { length states.now ≡ length (cells_of cells.now.grid) }
    requires known { known.now ≡ settled states.now }
    ensures yes { IfOk result (λ b. OnTrue b (MayCancel cells.now.grid states.now w k)) }
    ensures no { IfOk result (λ b. OnFalse b (MayCancel cells.now.grid states.now w k → ⊥)) }
{
    if !is_seat(w) || k as usize >= states.len() {
        return Ok(false);
    }
    if !is_pending(states[k as usize]) {
        return Ok(false);
    }
    if cell_shown(alloc, cells, known, k)? {
        return Ok(true);
    }
    Ok(false)
}

/// Whether the event is allowed.
fn allowed(
    alloc: Global,
    cells: &ColumnCells,
    verdicts: &[Entry],
    states: &[CellState],
    known: &[Option<Entry>],
    event: Event,
) -> Result<bool, AllocError>
    requires verdicts { length verdicts.now ≡ length (cells_of cells.now.grid) }
    requires states { length states.now ≡ length (cells_of cells.now.grid) }
    requires known { known.now ≡ settled states.now }
    ensures yes { IfOk result (λ b. OnTrue b (IsAllowed cells.now.grid verdicts.now states.now event)) }
    ensures no { IfOk result (λ b. OnFalse b (IsAllowed cells.now.grid verdicts.now states.now event → ⊥)) }
{
    match event {
        Event::Claim(w, k) => Ok(may_claim(states, w, k)),
        Event::Settle(w, k, v) => Ok(may_settle(verdicts, states, w, k, v)),
        Event::Cancel(w, k) => may_cancel(alloc, cells, states, known, w, k),
        Event::Quit(w, k) => Ok(is_claimed(states, w, k)),
    }
}

/// The entry of a cell that is settled.
fn settled_entry(state: CellState) -> Option<Entry>
    ensures { result ≡ settled_of state }
{
    match state {
        CellState::Settled(v) => Some(v),
        CellState::Free => None,
        CellState::Claimed(_) => None,
        CellState::Cancelled => None,
    }
}

impl Event {
    /// The event's cell.
    fn cell(self) -> u32
        ensures { result ≡ cell_of self }
    {
        match self {
            Event::Claim(_, k) => k,
            Event::Settle(_, k, _) => k,
            Event::Cancel(_, k) => k,
            Event::Quit(_, k) => k,
        }
    }

    /// The state of its cell after the event.
    fn state(self) -> CellState
        ensures { result ≡ state_of self }
    {
        match self {
            Event::Claim(w, _) => CellState::Claimed(w),
            Event::Settle(_, _, v) => CellState::Settled(v),
            Event::Cancel(_, _) => CellState::Cancelled,
            Event::Quit(_, _) => CellState::Free,
        }
    }
}

/// A new machine: all cells are free.
fn free_cells(
    alloc: Global,
    count: usize,
) -> Result<(Vec<CellState>, Vec<Option<Entry>>), AllocError>
    ensures states { IfOk result (λ r. r.0.items ≡ replicate count Free) }
    ensures known { IfOk result (λ r. r.1.items ≡ settled (replicate count Free)) }
{
    let states = vec![in alloc; CellState::Free; count]?;
    let known = vec![in alloc; None; count]?;
    Ok((states, known))
}

impl Machine {
    /// The machine of a grid and the entries of its full matrix, all cells free.
    pub fn new(alloc: Global, g: &Grid, verdicts: Vec<Entry>) -> Result<Machine, AllocError>
        requires grid { IsGrid g.now }
        requires verdicts { length verdicts.items ≡ length (cells_of g.now) }
        ensures { IfOk result (λ m. m ≡ record { grid = g.now; verdicts = verdicts.items; states = replicate (length (cells_of g.now)) Free }) }
    {
        let cells = column_cells(alloc, g)?;
        let (states, known) = free_cells(alloc, verdicts.len())?;
        Ok(Machine {
            cells,
            verdicts,
            states,
            known,
        })
    }

    /// The state of a cell.
    pub fn state(&self, cell: u32) -> CellState
        requires { cell < length self.now.states }
        ensures { result ≡ state_at self.now.states cell }
    {
        self.states[cell as usize]
    }

    /// Does the event where it is allowed, and else nothing.
    pub fn step(&mut self, alloc: Global, event: Event) -> Result<bool, AllocError>
        ensures steps { IfOk result (λ b. Steps self.old event self.new b) }
        ensures err { OnErr result (self.new ≡ self.old) }
    {
        let done = allowed(
            alloc,
            &self.cells,
            self.verdicts.as_slice(),
            self.states.as_slice(),
            self.known.as_slice(),
            event,
        )?;
        if done {
            let k = event.cell() as usize;
            self.states[k] = event.state();
            self.known[k] = settled_entry(event.state());
        }
        Ok(done)
    }

    /// Does the events in order up to the first that isn't allowed, and answers how many were done.
    fn play_events(&mut self, alloc: Global, events: &[Event]) -> Result<u32, AllocError>
        requires few { length events.now < 2 ^ 32 }
        ensures { IfOk result (λ n. IsPlayed self.old events.now self.new n) }
    {
        for i in 0..events.len() {
            let done = self.step(alloc, events[i])?;
            if !done {
                return Ok(i as u32);
            }
        }
        Ok(events.len() as u32)
    }

    /// Does the events in order up to the first that isn't allowed, and answers how many were done. A closed cell
    /// stays as it is, each cancelled cell is free of effect, and where all cells are closed every filling of the
    /// settled ones has the full matrix's result.
    pub fn play(&mut self, alloc: Global, events: &[Event]) -> Result<u32, AllocError>
        requires few { length events.now < 2 ^ 32 }
        ensures played { IfOk result (λ n. IsPlayed self.old events.now self.new n) }
        ensures stays { IfOk result (λ _. ClosedStays self.old.states self.new.states) }
        ensures free { CancelledAreFree self.new }
        ensures closed { ClosedHasResult self.new }
    {
        let played = self.play_events(alloc, events);
        self.laws();
        played
    }

    /// What is so of every machine: each settled cell has its entry, each cancelled cell is shown by the settled
    /// ones and free of effect, and where all cells are closed every filling has the full matrix's result.
    pub fn laws(&self)
        ensures board { IsBoard self.now.grid self.now.verdicts self.now.states }
        ensures free { CancelledAreFree self.now }
        ensures closed { ClosedHasResult self.now }
    {
        let _ = &self.states;
    }
}
