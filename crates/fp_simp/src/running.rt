//! The guards in their order, and then the goal.
ghost use Rattle.std.specs.Prelude.{◌≡◌, ◌≤◌, ◌<◌, ◌+◌, ◌*◌, ℕ, ◌∷◌, [], length, true, false, if◌then◌else◌, IfOk, OnOk};
ghost use Rattle.fp_term.specs.Terms.{Tm};
ghost use Rattle.fp_rewriting.specs.declared.left.Left.{Left};
ghost use Rattle.std.specs.Option.{IfNone, IfSome};
ghost use Rattle.fp_simp.specs.Results.{ResultOf};
ghost use Rattle.fp_simp.specs.Known.{known, handing};
ghost use Rattle.fp_simp.specs.Observing.{term_of};
ghost use Rattle.fp_simp.specs.Remaining.{Ends, is_step, is_over, weight, cost, goes_on};

use crate::context::Context;
use crate::frame::Mode;
use crate::observe::Observer;
use crate::simped::Simped;
use crate::stack::Stack;
use crate::walk::Walk;
use fp_rewriting::add_facts;
use fp_term::Term;
use std::alloc::{AllocError, Global};

/// A simplification under way: the guards that are left, the goal, and whether the goal is being simplified.
#[derive(Drop)]
pub(crate) struct Running<'a> {
    pub(crate) context: Context<'a>,
    pub(crate) walk: Walk<'a>,
    pub(crate) guards: Stack<Term>,
    pub(crate) goal: Term,
    pub(crate) in_goal: bool,
}

/// What is under way, and what is done next.
#[derive(Drop)]
pub(crate) struct Live<'a> {
    pub(crate) running: Running<'a>,
    pub(crate) mode: Mode,
}

// The steps that it is to do this.
fn cost(mode: &Mode) -> u64
    ensures { result ≡ cost mode.now }
{
    match mode {
        Mode::Enter(_) => 1,
        Mode::Rewrite(_) => 1,
        Mode::Return(_) => 0,
    }
}

impl<'a> Running<'a> {
    // Is there something to do, within so many steps?
    fn goes_on(&self, steps: u64, mode: &Mode) -> bool
        ensures { result ≡ goes_on self.now.in_goal self.now.walk.frames steps mode.now }
    {
        match mode {
            Mode::Enter(_) => steps != 0,
            Mode::Rewrite(_) => steps != 0,
            Mode::Return(_) => !self.walk.frames.is_empty() || !self.in_goal,
        }
    }

    // The next guard, or the goal.
    #[tactic(auto, using(crate::proofs::Settled::next_guard, crate::proofs::Settled::next_goal))]
    fn next<O: Observer>(
        &mut self,
        observer: &mut O,
        alloc: Global,
        done: &Term,
    ) -> Result<Mode, AllocError>
        requires guard { self.old.in_goal ≡ false }
        requires bottom { self.old.walk.frames ≡ [] }
        ensures same { IfOk result (λ mode. (u : Tm) (m : Left) →
            Ends (known self.new.context) self.new.guards self.new.goal self.new.in_goal self.new.walk.frames mode
            self.new.walk.left u m →
            Ends (known self.old.context) self.old.guards self.old.goal false [] (Mode.Return done.now)
            self.old.walk.left u m) }
        ensures steps { self.new.walk.left.steps ≡ self.old.walk.left.steps }
        ensures weight { IfOk result (λ mode. weight self.new.guards self.new.in_goal self.new.walk.frames mode <
            length self.old.guards + 2) }
        ensures goal { OnOk result (self.new.goal ≡ self.old.goal) }
        ensures followed { IfOk result (λ mode. (self.new.in_goal ≡ true →
            O.follows observer.new (known self.new.context) self.new.goal self.new.walk.frames (term_of mode))) }
    {
        observer.guard(done)?;
        add_facts(alloc, &mut self.context.facts, done)?;
        match self.guards.pop() {
            Some(guard) => {
                observer.begin(&guard)?;
                Ok(Mode::Enter(guard))
            }
            None => {
                self.in_goal = true;
                observer.begin(&self.goal)?;
                Ok(Mode::Enter(self.goal.copy()?))
            }
        }
    }

    // What is done next, and what is to be done then.
    #[tactic(auto, using(crate::proofs::Settled::ends_along))]
    fn step<O: Observer>(
        &mut self,
        observer: &mut O,
        alloc: Global,
        mode: Mode,
    ) -> Result<Mode, AllocError>
        requires { is_over self.old.in_goal self.old.walk.frames mode ≡ false }
        ensures same { IfOk result (λ next. (u : Tm) (m : Left) →
            Ends (known self.new.context) self.new.guards self.new.goal self.new.in_goal self.new.walk.frames next
            self.new.walk.left u m →
            Ends (known self.old.context) self.old.guards self.old.goal self.old.in_goal self.old.walk.frames mode
            self.old.walk.left u m) }
        ensures steps { OnOk result (self.new.walk.left.steps ≡ self.old.walk.left.steps + cost mode) }
        ensures weight { IfOk result (λ next. weight self.new.guards self.new.in_goal self.new.walk.frames next <
            weight self.old.guards self.old.in_goal self.old.walk.frames mode + 2 * cost mode) }
        ensures goal { OnOk result (self.new.goal ≡ self.old.goal) }
        ensures followed { IfOk result (λ next. (self.old.in_goal ≡ true →
            O.follows observer.old (known self.old.context) self.old.goal self.old.walk.frames (term_of mode)) →
            (self.new.in_goal ≡ true →
            O.follows observer.new (known self.new.context) self.new.goal self.new.walk.frames (term_of next))) }
    {
        match mode {
            Mode::Enter(term) => self.walk.enter(observer, alloc, &self.context, term),
            Mode::Rewrite(term) => self.walk.rewrite(observer, alloc, &self.context, term),
            Mode::Return(term) => if self.walk.frames.is_empty() {
                self.next(observer, alloc, &term)
            } else {
                self.walk.give(observer, alloc, &self.context, term)
            },
        }
    }

    /// The result, where all is done.
    pub(crate) fn result(&self, mode: &Mode) -> Result<Option<Simped>, AllocError>
        ensures none { IfOk result (λ o. IfNone o (is_over self.now.in_goal self.now.walk.frames mode.now ≡ false)) }
        ensures some { IfOk result (λ o. IfSome o (λ s.
            ResultOf s self.now.in_goal self.now.walk.frames mode.now self.now.walk.left)) }
    {
        match mode {
            Mode::Enter(_) => Ok(None),
            Mode::Rewrite(_) => Ok(None),
            Mode::Return(term) => {
                if self.walk.frames.is_empty() && self.in_goal {
                    let left = &self.walk.left;
                    Ok(Some(Simped {
                        term: term.copy()?,
                        fuel: left.fuel,
                        room: left.room,
                    }))
                } else {
                    Ok(None)
                }
            }
        }
    }

    /// Does so many steps, or all that are left.
    pub(crate) fn advance<O: Observer>(
        &mut self,
        observer: &mut O,
        alloc: Global,
        steps: u64,
        start: Mode,
    ) -> Result<Mode, AllocError>
        ensures same { IfOk result (λ mode. (u : Tm) (m : Left) →
            Ends (known self.new.context) self.new.guards self.new.goal self.new.in_goal self.new.walk.frames mode
            self.new.walk.left u m →
            Ends (known self.old.context) self.old.guards self.old.goal self.old.in_goal self.old.walk.frames start
            self.old.walk.left u m) }
        ensures bound { OnOk result (self.new.walk.left.steps ≤ self.old.walk.left.steps + steps) }
        ensures stops { IfOk result (λ mode. is_over self.new.in_goal self.new.walk.frames mode ≡ false →
            is_step mode ≡ true) }
        ensures spent { IfOk result (λ mode. is_over self.new.in_goal self.new.walk.frames mode ≡ false →
            self.new.walk.left.steps ≡ self.old.walk.left.steps + steps) }
        ensures goal { OnOk result (self.new.goal ≡ self.old.goal) }
        ensures followed { IfOk result (λ mode. (self.old.in_goal ≡ true →
            O.follows observer.old (known self.old.context) self.old.goal self.old.walk.frames (term_of start)) →
            (self.new.in_goal ≡ true →
            O.follows observer.new (known self.new.context) self.new.goal self.new.walk.frames (term_of mode))) }
    {
        let mut left = steps;
        let mut mode = start;
        'work: while self.goes_on(left, &mode) {
            left -= cost(&mode);
            mode = self.step(observer, alloc, mode)?;
        }
        Ok(mode)
    }
}
