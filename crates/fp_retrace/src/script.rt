//! The steps of a simplification, written down.

use fp_match::Inst;
use fp_rewriting::Rule;
use fp_simp::Observer;
use fp_term::{Items, Name, Term, Ty};
use std::alloc::{AllocError, Global};

/// A step, with what a theorem of it needs.
#[derive(Drop)]
pub(crate) enum Step {
    /// A term is next.
    Next(Term),
    /// A guard has become this.
    Guard(Term),
    /// Both parts of an application are done.
    Application,
    /// The body of an abstraction, opened by that variable, is done.
    Abstraction(Name, Ty),
    /// The term is contracted, or a guard says what it is.
    AtOnce(Term),
    /// The rule of that name fits the term, by the instance.
    Fits(Name, Inst),
    /// The rule's next condition is `T`.
    Holds,
    /// It isn't `T`.
    Fails,
    /// All conditions hold, and the rule is used.
    Used,
    /// All conditions hold, but the rule isn't used.
    Unused,
}

/// The steps that were told so far.
#[derive(Drop)]
pub(crate) struct Script {
    alloc: Global,
    steps: Items<Step>,
}

impl Script {
    /// No step yet.
    pub(crate) fn new(alloc: Global) -> Script {
        Script {
            alloc,
            steps: Items::new(alloc),
        }
    }

    /// The steps in their order.
    pub(crate) fn steps(&self) -> &[Step] {
        self.steps.as_slice()
    }
}

impl Observer for Script {
    ghost follows = { λ _ k a fs t. Unit {0} };

    ghost asks = { λ _ k a fs t i r ps. Unit {0} };

    fn begin(&mut self, term: &Term) -> Result<(), AllocError> {
        self.steps.push(Step::Next(term.copy()?))
    }

    fn guard(&mut self, done: &Term) -> Result<(), AllocError> {
        self.steps.push(Step::Guard(done.copy()?))
    }

    fn to_function(&mut self, fun: &Term, _arg: &Term) -> Result<(), AllocError> {
        self.steps.push(Step::Next(fun.copy()?))
    }

    fn to_argument(&mut self, _fun: &Term, arg: &Term) -> Result<(), AllocError> {
        self.steps.push(Step::Next(arg.copy()?))
    }

    fn to_application(&mut self, _fun: &Term, _arg: &Term) -> Result<(), AllocError> {
        self.steps.push(Step::Application)
    }

    fn to_body(&mut self, _name: &Name, _ty: &Ty, inside: &Term) -> Result<(), AllocError> {
        self.steps.push(Step::Next(inside.copy()?))
    }

    fn to_abstraction(&mut self, name: &Name, ty: &Ty, _body: &Term) -> Result<(), AllocError> {
        self.steps.push(Step::Abstraction(name.copy()?, ty.copy()?))
    }

    fn at_once(&mut self, term: &Term, _made: &Term) -> Result<(), AllocError> {
        self.steps.push(Step::AtOnce(term.copy()?))
    }

    fn fits(&mut self, _term: &Term, inst: &Inst, rule: &Rule) -> Result<(), AllocError> {
        let step = Step::Fits(rule.name.copy()?, inst.copy(self.alloc)?);
        self.steps.push(step)
    }

    fn to_condition(&mut self, asked: &Term) -> Result<(), AllocError> {
        self.steps.push(Step::Next(asked.copy()?))
    }

    fn holds(&mut self, _reply: &Term) -> Result<(), AllocError> {
        self.steps.push(Step::Holds)
    }

    fn fails(&mut self) -> Result<(), AllocError> {
        self.steps.push(Step::Fails)
    }

    fn used(&mut self, _made: &Term) -> Result<(), AllocError> {
        self.steps.push(Step::Used)
    }

    fn unused(&mut self) -> Result<(), AllocError> {
        self.steps.push(Step::Unused)
    }
}
