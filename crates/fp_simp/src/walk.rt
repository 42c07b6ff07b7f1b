//! The steps of a simplification over a stack of what waits.
ghost use Rattle.std.specs.Prelude.{◌≡◌, ◌≤◌, ◌<◌, ◌+◌, ℕ, ◌∷◌, [], length, map, true, false, Some, None, OnOk, IfOk, MatchBool};
ghost use Rattle.fp_term.specs.Terms.{Tm, free, app, abs, opened, closed};
ghost use Rattle.fp_rewriting.specs.declared.left.Left.{Left};
ghost use Rattle.fp_simp.specs.Depth.{depth_of};
ghost use Rattle.fp_rewriting.specs.Fresh.{fresh_name};
ghost use Rattle.fp_rewriting.specs.Simplification.{instance, made_at_once, Matches};
ghost use Rattle.fp_rewriting.specs.Spending.{affords, paid, emptied};
ghost use Rattle.fp_simp.specs.Observing.{term_of};
ghost use Rattle.fp_simp.specs.Known.{known, handing};
ghost use Rattle.fp_simp.specs.Waiting.{Finishes, Proceeds, Tries, Asks};

use crate::context::Context;
use crate::frame::{Frame, Mode};
use crate::observe::Observer;
use crate::stack::Stack;
use fp_match::Inst;
use fp_rewriting::{
    Fitting, Left, Rule, first_fitting, fresh_name, instance, is_truth, made_at_once,
};
use fp_term::{Name, Node, Term, Ty, close_over, open_with};
use std::alloc::{AllocError, Global};

/// What waits, in conditions of what depth, and what is left.
#[derive(Drop)]
pub(crate) struct Walk<'a> {
    pub(crate) frames: Stack<Frame<'a>>,
    pub(crate) depth: u32,
    pub(crate) left: Left,
    ghost deep: { depth ≡ depth_of frames },
}

impl<'a> Walk<'a> {
    /// Nothing waits, and nothing is spent.
    pub(crate) fn new(alloc: Global, fuel: u32, room: u32) -> Walk<'a>
        ensures frames { result.frames ≡ [] }
        ensures left { result.left ≡ record { fuel = fuel; room = room; steps = 0 } }
    {
        Walk {
            frames: Stack::new(alloc),
            depth: 0,
            left: Left {
                fuel,
                room,
                steps: 0,
            },
        }
    }

    // The term goes to its parts: the function of an application.
    fn enter_application<O: Observer>(
        &mut self,
        observer: &mut O,
        context: &Context<'a>,
        fun: &Term,
        arg: &Term,
    ) -> Result<Mode, AllocError>
        ensures same { IfOk result (λ mode. (u : Tm) (m : Left) →
            Finishes (known context.now) self.new.frames mode self.new.left u m →
            Finishes (known context.now) (Frame.Function arg.now ∷ self.old.frames) (Mode.Enter fun.now)
            self.old.left u m) }
        ensures left { self.new.left ≡ self.old.left }
        ensures weight { IfOk result (λ mode. length self.new.frames + handing mode ≤ length self.old.frames + 1) }
        ensures followed { IfOk result (λ mode. (a : Tm) →
            O.follows observer.old (known context.now) a self.old.frames (app fun.now arg.now) →
            O.follows observer.new (known context.now) a self.new.frames (term_of mode)) }
    {
        observer.to_function(fun, arg)?;
        self.frames.push(Frame::Function { arg: arg.copy()? })?;
        Ok(Mode::Enter(fun.copy()?))
    }

    // The body of an abstraction, opened.
    fn enter_abstraction<O: Observer>(
        &mut self,
        observer: &mut O,
        alloc: Global,
        context: &Context<'a>,
        term: &Term,
        ty: &Ty,
        body: &Term,
    ) -> Result<Mode, AllocError>
        requires { term.now ≡ abs ty.now body.now }
        ensures same { IfOk result (λ mode. (u : Tm) (m : Left) →
            Finishes (known context.now) self.new.frames mode self.new.left u m →
            Finishes (known context.now)
            (Frame.Body (fresh_name context.now.names (abs ty.now body.now)) ty.now ∷ self.old.frames)
            (Mode.Enter (opened 0 (free (fresh_name context.now.names (abs ty.now body.now)) ty.now) body.now))
            self.old.left u m) }
        ensures left { self.new.left ≡ self.old.left }
        ensures weight { IfOk result (λ mode. length self.new.frames + handing mode ≤ length self.old.frames + 1) }
        ensures followed { IfOk result (λ mode. (a : Tm) →
            O.follows observer.old (known context.now) a self.old.frames (abs ty.now body.now) →
            O.follows observer.new (known context.now) a self.new.frames (term_of mode)) }
    {
        let name = fresh_name(alloc, context.names.as_slice(), term)?;
        let opened = opened_by(alloc, &name, ty, body)?;
        observer.to_body(&name, ty, &opened)?;
        self.frames.push(Frame::Body {
            name,
            ty: ty.copy()?,
        })?;
        Ok(Mode::Enter(opened))
    }

    /// The term's parts are simplified first, where it has any.
    #[tactic(auto, using(crate::proofs::Steps::enter_application, crate::proofs::Steps::enter_abstraction, crate::proofs::Steps::enter_other))]
    pub(crate) fn enter<O: Observer>(
        &mut self,
        observer: &mut O,
        alloc: Global,
        context: &Context<'a>,
        term: Term,
    ) -> Result<Mode, AllocError>
        ensures same { IfOk result (λ mode. (u : Tm) (m : Left) →
            Finishes (known context.now) self.new.frames mode self.new.left u m →
            Finishes (known context.now) self.old.frames (Mode.Enter term) self.old.left u m) }
        ensures step { OnOk result (self.new.left.steps ≡ self.old.left.steps + 1) }
        ensures weight { IfOk result (λ mode. length self.new.frames + handing mode ≤ length self.old.frames + 1) }
        ensures followed { IfOk result (λ mode. (a : Tm) →
            O.follows observer.old (known context.now) a self.old.frames term →
            O.follows observer.new (known context.now) a self.new.frames (term_of mode)) }
    {
        self.left = self.left.stepped()?;
        match term.node() {
            Node::App { fun, arg } => self.enter_application(observer, context, fun, arg),
            Node::Abs { ty, body } => self.enter_abstraction(
                observer, alloc, context, &term, ty, body,
            ),
            Node::Bound(_) => Ok(Mode::Rewrite(term)),
            Node::Free { .. } => Ok(Mode::Rewrite(term)),
            Node::Const { .. } => Ok(Mode::Rewrite(term)),
        }
    }

    // Pays for what is made, where fuel and room allow it.
    fn pays(&mut self, made: &Term) -> bool
        ensures pays { MatchBool result ((affords self.old.left made.now ≡ true) ×
            (self.new.left ≡ paid self.old.left made.now)) ((affords self.old.left made.now ≡ false) ×
            (self.new.left ≡ emptied self.old.left)) }
        ensures frames { self.new.frames ≡ self.old.frames }
    {
        if self.left.affords(made) {
            self.left = self.left.paid(made);
            true
        } else {
            self.left = self.left.emptied();
            false
        }
    }

    // A term of which a contraction or a rule of a guard makes something becomes that where fuel and room allow it.
    #[tactic(auto, using(crate::proofs::Steps::go_ends, crate::proofs::Steps::go_on))]
    fn go_at_once<O: Observer>(
        &mut self,
        observer: &mut O,
        context: &Context<'a>,
        term: Term,
        made: Term,
    ) -> Result<Mode, AllocError>
        requires { made_at_once context.now.facts term ≡ Some made }
        ensures same { IfOk result (λ mode. (u : Tm) (m : Left) →
            Finishes (known context.now) self.new.frames mode self.new.left u m →
            Proceeds (known context.now) self.old.frames term (Some made) self.old.left u m) }
        ensures steps { self.new.left.steps ≡ self.old.left.steps }
        ensures weight { IfOk result (λ mode. length self.new.frames + handing mode ≤ length self.old.frames + 1) }
        ensures followed { IfOk result (λ mode. (a : Tm) →
            O.follows observer.old (known context.now) a self.old.frames term →
            O.follows observer.new (known context.now) a self.new.frames (term_of mode)) }
    {
        if self.pays(&made) {
            observer.at_once(&term, &made)?;
            Ok(Mode::Enter(made))
        } else {
            Ok(Mode::Return(term))
        }
    }

    // A term that a rule fits whose conditions hold becomes what the rule makes where fuel and room allow it.
    #[tactic(auto, using(crate::proofs::Steps::go_ends, crate::proofs::Steps::go_on))]
    fn go_by_rule<O: Observer>(
        &mut self,
        observer: &mut O,
        context: &Context<'a>,
        term: Term,
        inst: &Inst,
        rule: &Rule,
        made: Term,
    ) -> Result<Mode, AllocError>
        requires { made ≡ instance inst.now rule.now.rhs }
        ensures same { IfOk result (λ mode. (u : Tm) (m : Left) →
            Finishes (known context.now) self.new.frames mode self.new.left u m →
            Proceeds (known context.now) self.old.frames term (Some made) self.old.left u m) }
        ensures steps { self.new.left.steps ≡ self.old.left.steps }
        ensures weight { IfOk result (λ mode. length self.new.frames + handing mode ≤ length self.old.frames + 1) }
        ensures followed { IfOk result (λ mode. (a : Tm) →
            O.asks observer.old (known context.now) a self.old.frames term inst.now rule.now [] →
            O.follows observer.new (known context.now) a self.new.frames (term_of mode)) }
    {
        if self.pays(&made) {
            observer.used(&made)?;
            Ok(Mode::Enter(made))
        } else {
            observer.unused()?;
            Ok(Mode::Return(term))
        }
    }

    // A rule fits the term: its next condition is simplified, or the rule is used where none is left.
    #[tactic(auto, using(crate::proofs::Steps::asks_nothing, crate::proofs::Steps::asks_next))]
    fn ask<O: Observer>(
        &mut self,
        observer: &mut O,
        alloc: Global,
        context: &Context<'a>,
        term: Term,
        fitting: Fitting<'a>,
        conds: &'a [Term],
    ) -> Result<Mode, AllocError>
        ensures same { IfOk result (λ mode. (u : Tm) (m : Left) →
            Finishes (known context.now) self.new.frames mode self.new.left u m →
            Asks (known context.now) self.old.frames term (map (instance fitting.entry.inst) conds.now)
            (instance fitting.entry.inst fitting.entry.rule.now.rhs) fitting.entry.rules.now self.old.left u m) }
        ensures steps { self.new.left.steps ≡ self.old.left.steps }
        ensures weight { IfOk result (λ mode. length self.new.frames + handing mode ≤ length self.old.frames + 1) }
        ensures followed { IfOk result (λ mode. (a : Tm) →
            O.asks observer.old (known context.now) a self.old.frames term fitting.entry.inst
            fitting.entry.rule.now conds.now →
            O.follows observer.new (known context.now) a self.new.frames (term_of mode)) }
    {
        let Fitting { inst, rule, rules } = fitting;
        match conds.split_first() {
            None => {
                let made = instance(alloc, &inst, &rule.rhs)?;
                self.go_by_rule(observer, context, term, &inst, rule, made)
            }
            Some((cond, conds)) => {
                let asked = instance(alloc, &inst, cond)?;
                observer.to_condition(&asked)?;
                self.wait_for_condition(Frame::Condition {
                    term,
                    inst,
                    rule,
                    conds,
                    rules,
                })?;
                Ok(Mode::Enter(asked))
            }
        }
    }

    // The rules are tried on the term.
    #[tactic(auto, using(crate::proofs::Steps::tries_nothing, crate::proofs::Steps::tries_passed, crate::proofs::Steps::tries_fitting))]
    fn try_rules<O: Observer>(
        &mut self,
        observer: &mut O,
        alloc: Global,
        context: &Context<'a>,
        term: Term,
        rules: &'a [Rule],
    ) -> Result<Mode, AllocError>
        ensures same { IfOk result (λ mode. (u : Tm) (m : Left) →
            Finishes (known context.now) self.new.frames mode self.new.left u m →
            Tries (known context.now) self.old.frames term rules.now self.old.left u m) }
        ensures steps { self.new.left.steps ≡ self.old.left.steps }
        ensures weight { IfOk result (λ mode. length self.new.frames + handing mode ≤ length self.old.frames + 1) }
        ensures followed { IfOk result (λ mode. (a : Tm) →
            O.follows observer.old (known context.now) a self.old.frames term →
            O.follows observer.new (known context.now) a self.new.frames (term_of mode)) }
    {
        match first_fitting(alloc, self.depth, &term, rules)? {
            Some(fitting) => {
                observer.fits(&term, &fitting.inst, fitting.rule)?;
                let conds = fitting.rule.conds.as_slice();
                self.ask(observer, alloc, context, term, fitting, conds)
            }
            None => Ok(Mode::Return(term)),
        }
    }

    /// The term, whose parts are simplified, is rewritten.
    #[tactic(auto, using(crate::proofs::Steps::rewrite_without_fuel, crate::proofs::Steps::rewrite_at_once, crate::proofs::Steps::rewrite_by_candidates))]
    pub(crate) fn rewrite<O: Observer>(
        &mut self,
        observer: &mut O,
        alloc: Global,
        context: &Context<'a>,
        term: Term,
    ) -> Result<Mode, AllocError>
        ensures same { IfOk result (λ mode. (u : Tm) (m : Left) →
            Finishes (known context.now) self.new.frames mode self.new.left u m →
            Finishes (known context.now) self.old.frames (Mode.Rewrite term) self.old.left u m) }
        ensures step { OnOk result (self.new.left.steps ≡ self.old.left.steps + 1) }
        ensures weight { IfOk result (λ mode. length self.new.frames + handing mode ≤ length self.old.frames + 1) }
        ensures followed { IfOk result (λ mode. (a : Tm) →
            O.follows observer.old (known context.now) a self.old.frames term →
            O.follows observer.new (known context.now) a self.new.frames (term_of mode)) }
    {
        self.left = self.left.stepped()?;
        if self.left.fuel == 0 {
            return Ok(Mode::Return(term));
        }
        match made_at_once(alloc, context.facts.as_slice(), &term)? {
            Some(made) => self.go_at_once(observer, context, term, made),
            None => {
                let rules = context.rules.candidates(&term);
                self.try_rules(observer, alloc, context, term, rules)
            }
        }
    }

    // A condition of a rule that fits the term has become that.
    #[tactic(auto, using(crate::proofs::Steps::return_holds, crate::proofs::Steps::return_fails))]
    fn resume<O: Observer>(
        &mut self,
        observer: &mut O,
        alloc: Global,
        context: &Context<'a>,
        reply: Term,
        term: Term,
        fitting: Fitting<'a>,
        conds: &'a [Term],
    ) -> Result<Mode, AllocError>
        ensures same { IfOk result (λ mode. (u : Tm) (m : Left) →
            Finishes (known context.now) self.new.frames mode self.new.left u m →
            Finishes (known context.now)
            (Frame.Condition term fitting.entry.inst fitting.entry.rule conds.entry fitting.entry.rules ∷ self.old.frames)
            (Mode.Return reply) self.old.left u m) }
        ensures steps { self.new.left.steps ≡ self.old.left.steps }
        ensures weight { IfOk result (λ mode. length self.new.frames + handing mode ≤ length self.old.frames + 1) }
        ensures followed { IfOk result (λ mode. (a : Tm) →
            O.follows observer.old (known context.now) a
            (Frame.Condition term fitting.entry.inst fitting.entry.rule conds.entry fitting.entry.rules ∷ self.old.frames)
            reply →
            O.follows observer.new (known context.now) a self.new.frames (term_of mode)) }
    {
        if is_truth(alloc, &reply)? {
            observer.holds(&reply)?;
            self.ask(observer, alloc, context, term, fitting, conds)
        } else {
            observer.fails()?;
            self.try_rules(observer, alloc, context, term, fitting.rules)
        }
    }

    /// The term is handed to what waits for it.
    #[tactic(auto, using(crate::proofs::Steps::return_to_body, crate::proofs::Steps::return_to_function, crate::proofs::Steps::return_to_argument))]
    pub(crate) fn give<O: Observer>(
        &mut self,
        observer: &mut O,
        alloc: Global,
        context: &Context<'a>,
        term: Term,
    ) -> Result<Mode, AllocError>
        requires { 0 < length self.old.frames }
        ensures same { IfOk result (λ mode. (u : Tm) (m : Left) →
            Finishes (known context.now) self.new.frames mode self.new.left u m →
            Finishes (known context.now) self.old.frames (Mode.Return term) self.old.left u m) }
        ensures steps { self.new.left.steps ≡ self.old.left.steps }
        ensures weight { IfOk result (λ mode. length self.new.frames + handing mode ≤ length self.old.frames) }
        ensures followed { IfOk result (λ mode. (a : Tm) →
            O.follows observer.old (known context.now) a self.old.frames term →
            O.follows observer.new (known context.now) a self.new.frames (term_of mode)) }
    {
        match self.frames.pop() {
            None => Ok(Mode::Return(term)),
            Some(Frame::Body { name, ty }) => {
                observer.to_abstraction(&name, &ty, &term)?;
                let body = close_over(alloc, &term, &name, &ty)?;
                Ok(Mode::Return(Term::abs(alloc, ty, body)?))
            }
            Some(Frame::Function { arg }) => {
                observer.to_argument(&term, &arg)?;
                self.frames.push(Frame::Argument { fun: term })?;
                Ok(Mode::Enter(arg))
            }
            Some(Frame::Argument { fun }) => {
                observer.to_application(&fun, &term)?;
                Ok(Mode::Rewrite(Term::app(alloc, fun, term)?))
            }
            Some(
                Frame::Condition {
                    term: waiting,
                    inst,
                    rule,
                    conds,
                    rules,
                },
            ) => {
                self.depth = self.depth.saturating_sub(1);
                let fitting = Fitting { inst, rule, rules };
                self.resume(observer, alloc, context, term, waiting, fitting, conds)
            }
        }
    }

    // A frame on top that waits for a condition.
    fn wait_for_condition(&mut self, frame: Frame<'a>) -> Result<(), AllocError>
        requires { depth_of (frame ∷ self.old.frames) ≡ depth_of self.old.frames + 1 }
        ensures frames { OnOk result (self.new.frames ≡ frame.entry ∷ self.old.frames) }
        ensures left { self.new.left ≡ self.old.left }
    {
        let depth = self.depth.checked_add(1).ok_or(AllocError)?;
        self.frames.push(frame)?;
        self.depth = depth;
        Ok(())
    }
}

// The body with the variable in place of its outermost loose number.
fn opened_by(alloc: Global, name: &Name, ty: &Ty, body: &Term) -> Result<Term, AllocError>
    ensures { IfOk result (λ t. t ≡ opened 0 (free name.now ty.now) body.now) }
{
    let variable = Term::free(alloc, name.copy()?, ty.copy()?)?;
    open_with(alloc, body, &variable)
}
