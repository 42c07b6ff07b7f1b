//! A simplification that can be stopped and resumed, and one that is run to its end.
ghost use Rattle.std.specs.Prelude.{◌≡◌, ◌≤◌, ◌+◌, ℕ, ◌∷◌, [], true, false, Some, None, IfOk, OnOk, OnErr, IsErr};
ghost use Rattle.std.specs.Option.{IfNone, IfSome};
ghost use Rattle.fp_rewriting.specs.Settling.{Question};
ghost use Rattle.fp_simp.specs.Remaining.{is_step};
ghost use Rattle.fp_simp.specs.Known.{known};
ghost use Rattle.fp_simp.specs.Observing.{term_of};
ghost use Rattle.fp_simp.specs.Watching.{Begins, Watched};
ghost use Rattle.fp_rewriting.specs.Simplification.{Known};
ghost use Rattle.fp_simp.specs.Tasks.{Task, Follows, IsAnswer, IsAnswerAfter, HasMore, IsResult};

use crate::context::Context;
use crate::frame::Mode;
use crate::observe::{Nobody, Observer};
use crate::running::{Live, Running};
use crate::simped::Simped;
use crate::stack::stack_of;
use crate::walk::Walk;
use fp_rewriting::{RuleSet, names_of};
use fp_term::{Items, Term, copy_all};
use std::alloc::{AllocError, Global};
use std::marker::Model;

/// The simplification of a goal, which can be stopped after each step. Without memory it ends for good.
pub struct SimpTask<'a> {
    alloc: Global,
    rules: &'a RuleSet,
    guards: Items<Term>,
    goal: Term,
    fuel: u32,
    room: u32,
    steps: u64,
    live: Option<Live<'a>>,
}

impl<'a> Drop for SimpTask<'a> {
    fn drop(self) {
        let SimpTask {
            alloc: _,
            rules: _,
            guards,
            goal,
            fuel: _,
            room: _,
            steps: _,
            live,
        } = self;
        drop(guards);
        drop(goal);
        drop(live);
    }
}

impl<'a> Model for SimpTask<'a> {
    ghost use Rattle.std.specs.Option.{is_none};
    ghost use Rattle.fp_rewriting.specs.Settling.{Question};
    ghost use Rattle.fp_simp.specs.Tasks.{Task, coded_task, IsLive};

    ghost Value = { Task };

    ghost coded = { coded_task };

    ghost view = { λ t. record {
      asked = record { rules = t.rules.now; guards = t.guards; fuel = t.fuel; room = t.room; goal = t.goal };
      steps = t.steps;
      failed = is_none t.live;
    } };

    ghost invariant = { λ t. IsLive (
        record { rules = t.rules.now; guards = t.guards; fuel = t.fuel; room = t.room; goal = t.goal }) t.steps t.live };
}

// What is under way at the start.
#[tactic(auto, using(crate::proofs::Settled::begins_with_guard, crate::proofs::Settled::begins_with_goal))]
fn start<'a>(
    alloc: Global,
    rules: &'a RuleSet,
    guards: &[Term],
    fuel: u32,
    room: u32,
    goal: &Term,
) -> Result<Live<'a>, AllocError>
    ensures follows { IfOk result (λ live. Follows (
        record { rules = rules.now; guards = guards.now; fuel = fuel; room = room; goal = goal.now }) 0 live) }
    ensures begins { IfOk result (Begins goal.now) }
{
    let context = Context {
        rules,
        names: names_of(alloc, guards)?,
        facts: Items::new(alloc),
    };
    let walk = Walk::new(alloc, fuel, room);
    let goal = goal.copy()?;
    let mut guards = stack_of(alloc, guards)?;
    match guards.pop() {
        Some(guard) => Ok(Live {
            running: Running {
                context,
                walk,
                guards,
                goal,
                in_goal: false,
            },
            mode: Mode::Enter(guard),
        }),
        None => {
            let mode = Mode::Enter(goal.copy()?);
            Ok(Live {
                running: Running {
                    context,
                    walk,
                    guards,
                    goal,
                    in_goal: true,
                },
                mode,
            })
        }
    }
}

// What is under way, which is there unless memory was wanting.
fn taken<'a>(live: &mut Option<Live<'a>>) -> Result<Live<'a>, AllocError>
    ensures ok { IfOk result (λ l. live.old ≡ Some l) }
    ensures err { OnErr result (live.old ≡ None) }
    ensures after { live.new ≡ None }
{
    match live.take() {
        Some(live) => Ok(live),
        None => Err(AllocError),
    }
}

// The task after so many steps, or after all that are left, and its result where it is over.
#[tactic(auto, using(crate::proofs::Tasks::follows_on))]
fn advanced<'a, O: Observer>(
    observer: &mut O,
    alloc: Global,
    live: Live<'a>,
    n: u64,
) -> Result<(Live<'a>, Option<Simped>), AllocError>
    ensures follows { IfOk result (λ p. (q : Question) (steps : ℕ) →
        Follows q steps live.entry → Follows q p.0.running.walk.left.steps p.0) }
    ensures bound { IfOk result (λ p. p.0.running.walk.left.steps ≤ live.entry.running.walk.left.steps + n) }
    ensures none { IfOk result (λ p. IfNone p.1 ((p.0.running.walk.left.steps ≡ live.entry.running.walk.left.steps + n) ×
        (is_step p.0.mode ≡ true))) }
    ensures some { IfOk result (λ p. IfSome p.1 (IsResult p.0)) }
    ensures goal { IfOk result (λ p. p.0.running.goal ≡ live.entry.running.goal) }
    ensures followed { IfOk result (λ p. (live.entry.running.in_goal ≡ true →
        O.follows observer.old (known live.entry.running.context) live.entry.running.goal
        live.entry.running.walk.frames (term_of live.entry.mode)) →
        p.0.running.in_goal ≡ true →
        O.follows observer.new (known p.0.running.context) p.0.running.goal p.0.running.walk.frames (term_of p.0.mode)) }
{
    let Live { mut running, mode } = live;
    let mode = running.advance(observer, alloc, n, mode)?;
    let simped = running.result(&mode)?;
    Ok((Live { running, mode }, simped))
}

impl<'a> SimpTask<'a> {
    /// The simplification of the goal by the rules and the guards, within fuel and room.
    pub fn new(
        alloc: Global,
        rules: &'a RuleSet,
        guards: &[Term],
        fuel: u32,
        room: u32,
        goal: &Term,
    ) -> Result<SimpTask<'a>, AllocError>
        ensures { IfOk result (λ t. t ≡ record {
          asked = record { rules = rules.now; guards = guards.now; fuel = fuel; room = room; goal = goal.now };
          steps = 0;
          failed = false;
        }) }
    {
        let live = start(alloc, rules, guards, fuel, room, goal)?;
        Ok(SimpTask {
            alloc,
            rules,
            guards: copy_all(alloc, guards)?,
            goal: goal.copy()?,
            fuel,
            room,
            steps: 0,
            live: Some(live),
        })
    }

    /// How many steps were done.
    pub fn steps(&self) -> u64
        ensures { result ≡ self.now.steps }
    {
        self.steps
    }

    fn run_steps(&mut self, n: u64) -> Result<Option<Simped>, AllocError>
        ensures asked { self.new.asked ≡ self.old.asked }
        ensures none { IfOk result (λ o. IfNone o (HasMore self.old.asked self.new.steps)) }
        ensures some { IfOk result (λ o. IfSome o (IsAnswerAfter self.old.asked self.new.steps)) }
        ensures spent { IfOk result (λ o. IfNone o (self.new.steps ≡ self.old.steps + n)) }
        ensures bound { OnOk result (self.new.steps ≤ self.old.steps + n) }
        ensures stays { OnErr result (self.new.failed ≡ true) }
        ensures failed { self.old.failed ≡ true → IsErr result }
    {
        let live = taken(&mut self.live)?;
        let (live, simped) = advanced(&mut Nobody {}, self.alloc, live, n)?;
        self.steps = live.running.walk.left.steps;
        self.live = Some(live);
        Ok(simped)
    }

    /// Does the next steps, or all that are left where these are fewer: none exactly where there are more steps to do.
    pub fn run(&mut self, n: u32) -> Result<Option<Simped>, AllocError>
        ensures asked { self.new.asked ≡ self.old.asked }
        ensures none { IfOk result (λ o. IfNone o (HasMore self.old.asked self.new.steps)) }
        ensures some { IfOk result (λ o. IfSome o (IsAnswerAfter self.old.asked self.new.steps)) }
        ensures spent { IfOk result (λ o. IfNone o (self.new.steps ≡ self.old.steps + n)) }
        ensures bound { OnOk result (self.new.steps ≤ self.old.steps + n) }
        ensures stays { OnErr result (self.new.failed ≡ true) }
        ensures failed { self.old.failed ≡ true → IsErr result }
    {
        self.run_steps(u64::from(n))
    }
}

// The result of a task, run to its end.
fn run_to_end(task: &mut SimpTask<'_>) -> Result<(Simped, u64), AllocError>
    ensures { IfOk result (λ p. IsAnswerAfter task.old.asked p.1 p.0) }
{
    match task.run_steps(u64::MAX)? {
        Some(simped) => Ok((simped, task.steps())),
        None => Err(AllocError),
    }
}

/// What the goal becomes by the rules and the guards, within fuel and room.
#[tactic(auto, using(crate::proofs::Tasks::answer_of))]
pub fn simp(
    alloc: Global,
    rules: &RuleSet,
    guards: &[Term],
    fuel: u32,
    room: u32,
    goal: &Term,
) -> Result<Simped, AllocError>
    ensures { IfOk result (IsAnswer (
        record { rules = rules.now; guards = guards.now; fuel = fuel; room = room; goal = goal.now })) }
{
    let mut task = SimpTask::new(alloc, rules, guards, fuel, room, goal)?;
    let (simped, _) = run_to_end(&mut task)?;
    Ok(simped)
}

// What is done first.
fn begin<O: Observer>(observer: &mut O, mode: &Mode) -> Result<(), AllocError>
    ensures { OnOk result ((k : Known) → O.follows observer.new k (term_of mode.now) [] (term_of mode.now)) }
{
    match mode {
        Mode::Enter(term) => observer.begin(term),
        Mode::Rewrite(term) => observer.begin(term),
        Mode::Return(term) => observer.begin(term),
    }
}

// What is under way, run to its end.
fn ended<'a, O: Observer>(
    observer: &mut O,
    alloc: Global,
    live: Live<'a>,
) -> Result<(Live<'a>, Simped), AllocError>
    ensures follows { IfOk result (λ p. (q : Question) (steps : ℕ) →
        Follows q steps live.entry → Follows q p.0.running.walk.left.steps p.0) }
    ensures ends { IfOk result (λ p. IsResult p.0 p.1) }
    ensures goal { IfOk result (λ p. p.0.running.goal ≡ live.entry.running.goal) }
    ensures followed { IfOk result (λ p. (live.entry.running.in_goal ≡ true →
        O.follows observer.old (known live.entry.running.context) live.entry.running.goal
        live.entry.running.walk.frames (term_of live.entry.mode)) →
        p.0.running.in_goal ≡ true →
        O.follows observer.new (known p.0.running.context) p.0.running.goal p.0.running.walk.frames (term_of p.0.mode)) }
{
    let (live, simped) = advanced(observer, alloc, live, u64::MAX)?;
    match simped {
        Some(simped) => Ok((live, simped)),
        None => Err(AllocError),
    }
}

/// What `simp` gives, for an observer that is told of every step.
pub fn observed_simp<O: Observer>(
    observer: &mut O,
    alloc: Global,
    rules: &RuleSet,
    guards: &[Term],
    fuel: u32,
    room: u32,
    goal: &Term,
) -> Result<Simped, AllocError>
    ensures is { IfOk result (IsAnswer (
        record { rules = rules.now; guards = guards.now; fuel = fuel; room = room; goal = goal.now })) }
    ensures followed { IfOk result (λ s. Watched (λ k. O.follows observer.new k goal.now [] s.term)) }
{
    let live = start(alloc, rules, guards, fuel, room, goal)?;
    begin(observer, &live.mode)?;
    let (live, simped) = ended(observer, alloc, live)?;
    drop(live);
    Ok(simped)
}
