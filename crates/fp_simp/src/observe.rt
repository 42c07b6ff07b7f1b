//! Those who are told of each step of a simplification.
ghost use Rattle.std.specs.Prelude.{◌≡◌, ◌∷◌, [], List, OnOk, Some, true};
ghost use Rattle.std.specs.Borrow.{Bor};
ghost use Rattle.fp_term.specs.Terms.{Tm, free, app, abs, opened, closed, term_eq};
ghost use Rattle.fp_conclude.specs.Logic.{true_constant};
ghost use Rattle.fp_conclude.specs.Parts.{redex};
ghost use Rattle.fp_rewriting.specs.declared.rule.Rule.{Rule};
ghost use Rattle.fp_simp.specs.declared.frame.Frame.{Frame};
ghost use Rattle.fp_rewriting.specs.Fresh.{fresh_name};
ghost use Rattle.fp_rewriting.specs.Simplification.{Known, Matches, instance, made_at_once};

use fp_match::Inst;
use fp_rewriting::Rule;
use fp_term::{Name, Term, Ty};
use std::alloc::AllocError;

/// Who is told of each step by which a term becomes another, such as one that proves it.
pub trait Observer {
    ghost use Rattle.std.specs.Prelude.{List};
    ghost use Rattle.fp_term.specs.Terms.{Tm};
    ghost use Rattle.fp_match.specs.declared.inst.Inst.{Inst};
    ghost use Rattle.fp_rewriting.specs.declared.rule.Rule.{Rule};
    ghost use Rattle.fp_simp.specs.declared.frame.Frame.{Frame};
    ghost use Rattle.fp_rewriting.specs.Simplification.{Known};

    /// It has followed the steps from the one term, of which this is made and for which the frames wait, to the other.
    ghost follows: { Self → Known → Tm → List Frame → Tm → Type 0 };

    /// It has followed them to a term, for which the frames wait and which a rule fits whose conditions are left.
    ghost asks: { Self → Known → Tm → List Frame → Tm → Inst → Rule → List Tm → Type 0 };

    /// A guard, or the goal, is next.
    fn begin(&mut self, term: &Term) -> Result<(), AllocError>
        ensures { OnOk result ((k : Known) → follows self.new k term.now [] term.now) };

    /// A guard has become this.
    fn guard(&mut self, done: &Term) -> Result<(), AllocError>;

    /// An application's function is next.
    fn to_function(&mut self, fun: &Term, arg: &Term) -> Result<(), AllocError>
        ensures { OnOk result ((k : Known) (a : Tm) (fs : List Frame) →
            follows self.old k a fs (app fun.now arg.now) →
            follows self.new k a (Frame.Function arg.now ∷ fs) fun.now) };

    /// The function is done, and the argument is next.
    fn to_argument(&mut self, fun: &Term, arg: &Term) -> Result<(), AllocError>
        ensures { OnOk result ((k : Known) (a : Tm) (fs : List Frame) →
            follows self.old k a (Frame.Function arg.now ∷ fs) fun.now →
            follows self.new k a (Frame.Argument fun.now ∷ fs) arg.now) };

    /// The argument is done too.
    fn to_application(&mut self, fun: &Term, arg: &Term) -> Result<(), AllocError>
        ensures { OnOk result ((k : Known) (a : Tm) (fs : List Frame) →
            follows self.old k a (Frame.Argument fun.now ∷ fs) arg.now →
            follows self.new k a fs (app fun.now arg.now)) };

    /// An abstraction's body, opened by the variable, is next.
    fn to_body(&mut self, name: &Name, ty: &Ty, inside: &Term) -> Result<(), AllocError>
        ensures { OnOk result ((k : Known) (a : Tm) (fs : List Frame) (body : Tm) →
            inside.now ≡ opened 0 (free name.now ty.now) body → name.now ≡ fresh_name k.names (abs ty.now body) →
            follows self.old k a fs (abs ty.now body) →
            follows self.new k a (Frame.Body name.now ty.now ∷ fs) inside.now) };

    /// The body is done.
    fn to_abstraction(&mut self, name: &Name, ty: &Ty, body: &Term) -> Result<(), AllocError>
        ensures { OnOk result ((k : Known) (a : Tm) (fs : List Frame) →
            follows self.old k a (Frame.Body name.now ty.now ∷ fs) body.now →
            follows self.new k a fs (abs ty.now (closed 0 name.now ty.now body.now))) };

    /// A contraction, or a rule of a guard, is used.
    fn at_once(&mut self, term: &Term, made: &Term) -> Result<(), AllocError>
        ensures { OnOk result ((k : Known) (a : Tm) (fs : List Frame) →
            made_at_once k.facts term.now ≡ Some made.now → follows self.old k a fs term.now →
            follows self.new k a fs made.now) };

    /// A rule fits the term.
    fn fits(&mut self, term: &Term, inst: &Inst, rule: &Rule) -> Result<(), AllocError>
        requires { Matches inst.now rule.now.lhs term.now }
        ensures { OnOk result ((k : Known) (a : Tm) (fs : List Frame) →
            follows self.old k a fs term.now → asks self.new k a fs term.now inst.now rule.now rule.now.conds) };

    /// The next of its conditions is next.
    fn to_condition(&mut self, asked: &Term) -> Result<(), AllocError>
        ensures { OnOk result ((k : Known) (a : Tm) (fs : List Frame) (t : Tm) (i : Inst) (r : Bor Rule) (p : Tm) (ps : Bor (List Tm)) (rs : Bor (List Rule)) →
            asked.now ≡ instance i p → asks self.old k a fs t i r.now (p ∷ ps.now) →
            follows self.new k a (Frame.Condition t i r ps rs ∷ fs) asked.now) };

    /// The condition is `T`.
    fn holds(&mut self, reply: &Term) -> Result<(), AllocError>
        requires { term_eq reply.now true_constant ≡ true }
        ensures { OnOk result ((k : Known) (a : Tm) (fs : List Frame) (t : Tm) (i : Inst) (r : Bor Rule) (ps : Bor (List Tm)) (rs : Bor (List Rule)) →
            follows self.old k a (Frame.Condition t i r ps rs ∷ fs) reply.now →
            asks self.new k a fs t i r.now ps.now) };

    /// The condition isn't `T`, and the rule isn't used.
    fn fails(&mut self) -> Result<(), AllocError>
        ensures { OnOk result ((k : Known) (a : Tm) (fs : List Frame) (t : Tm) (i : Inst) (r : Bor Rule) (ps : Bor (List Tm)) (rs : Bor (List Rule)) (reply : Tm) →
            follows self.old k a (Frame.Condition t i r ps rs ∷ fs) reply → follows self.new k a fs t) };

    /// All conditions hold, and the rule is used.
    fn used(&mut self, made: &Term) -> Result<(), AllocError>
        ensures { OnOk result ((k : Known) (a : Tm) (fs : List Frame) (t : Tm) (i : Inst) (r : Rule) →
            made.now ≡ instance i r.rhs → asks self.old k a fs t i r [] → follows self.new k a fs made.now) };

    /// All conditions hold, but the rule isn't used.
    fn unused(&mut self) -> Result<(), AllocError>
        ensures { OnOk result ((k : Known) (a : Tm) (fs : List Frame) (t : Tm) (i : Inst) (r : Rule) →
            asks self.old k a fs t i r [] → follows self.new k a fs t) };
}

/// It follows nothing.
#[derive(Drop)]
pub struct Nobody {}

impl Observer for Nobody {
    ghost follows = { λ _ k a fs t. Unit {0} };

    ghost asks = { λ _ k a fs t i r ps. Unit {0} };

    fn begin(&mut self, _term: &Term) -> Result<(), AllocError> {
        Ok(())
    }

    fn guard(&mut self, _done: &Term) -> Result<(), AllocError> {
        Ok(())
    }

    fn to_function(&mut self, _fun: &Term, _arg: &Term) -> Result<(), AllocError> {
        Ok(())
    }

    fn to_argument(&mut self, _fun: &Term, _arg: &Term) -> Result<(), AllocError> {
        Ok(())
    }

    fn to_application(&mut self, _fun: &Term, _arg: &Term) -> Result<(), AllocError> {
        Ok(())
    }

    fn to_body(&mut self, _name: &Name, _ty: &Ty, _inside: &Term) -> Result<(), AllocError> {
        Ok(())
    }

    fn to_abstraction(&mut self, _name: &Name, _ty: &Ty, _body: &Term) -> Result<(), AllocError> {
        Ok(())
    }

    fn at_once(&mut self, _term: &Term, _made: &Term) -> Result<(), AllocError> {
        Ok(())
    }

    fn fits(&mut self, _term: &Term, _inst: &Inst, _rule: &Rule) -> Result<(), AllocError> {
        Ok(())
    }

    fn to_condition(&mut self, _asked: &Term) -> Result<(), AllocError> {
        Ok(())
    }

    fn holds(&mut self, _reply: &Term) -> Result<(), AllocError> {
        Ok(())
    }

    fn fails(&mut self) -> Result<(), AllocError> {
        Ok(())
    }

    fn used(&mut self, _made: &Term) -> Result<(), AllocError> {
        Ok(())
    }

    fn unused(&mut self) -> Result<(), AllocError> {
        Ok(())
    }
}
