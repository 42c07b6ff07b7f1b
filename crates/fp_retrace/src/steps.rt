//! Steps that are carried out on theorems. On the stack each theorem says what a term became: the terms that wait, and on top
//! the one that is simplified now.
ghost use Rattle.std.specs.Prelude.{◌≡◌, List, IfOk, OnOk};
ghost use Rattle.fp_kernel.specs.Definitions.{Def, Within};
ghost use Rattle.fp_retrace.specs.Standing.{IsWithin, AreWithin, AreNamedWithin};

use crate::facts::{add_facts, fact_for};
use crate::moves::{
    abstracted, chained, combined, discharged, equation_from, held, instance, is_redex, itself,
    reduced,
};
use crate::script::Step;
use fp_kernel::{Defs, Thm};
use fp_match::Inst;
use fp_simp::Stack;
use fp_term::{Items, Name, Term, Ty};
use std::alloc::{AllocError, Global};

// The theorem on top, taken away.
#[tactic(auto, using(crate::proofs::Stood::top_within, crate::proofs::Stood::rest_within))]
fn taken(stack: &mut Stack<Thm>) -> Result<Thm, AllocError>
    ensures top { IfOk result (λ th. (defs : List Def) → AreWithin defs stack.old → Within th.defs defs) }
    ensures rest { OnOk result ((defs : List Def) → AreWithin defs stack.old → AreWithin defs stack.new) }
{
    stack.pop().ok_or(AllocError)
}

// The theorem on top, carried on by one of its right side.
#[tactic(auto, using(crate::proofs::Stood::within_put))]
fn carry_on(
    alloc: Global,
    defs: &Defs,
    stack: &mut Stack<Thm>,
    step: &Thm,
) -> Result<(), AllocError>
    requires step { Within step.now.defs defs.now }
    requires stack { AreWithin defs.now stack.old }
    ensures { OnOk result (AreWithin defs.now stack.new) }
{
    let whole = taken(stack)?;
    let new = chained(alloc, defs, &whole, step)?;
    stack.push(new)
}

#[tactic(auto, using(crate::proofs::Stood::within_put))]
fn next(alloc: Global, defs: &Defs, stack: &mut Stack<Thm>, term: &Term) -> Result<(), AllocError>
    requires { AreWithin defs.now stack.old }
    ensures { OnOk result (AreWithin defs.now stack.new) }
{
    let th = itself(alloc, defs, term)?;
    stack.push(th)
}

fn application(alloc: Global, defs: &Defs, stack: &mut Stack<Thm>) -> Result<(), AllocError>
    requires { AreWithin defs.now stack.old }
    ensures { OnOk result (AreWithin defs.now stack.new) }
{
    let arg = taken(stack)?;
    let fun = taken(stack)?;
    let both = combined(alloc, defs, &fun, &arg)?;
    carry_on(alloc, defs, stack, &both)
}

fn abstraction(
    alloc: Global,
    defs: &Defs,
    stack: &mut Stack<Thm>,
    name: &Name,
    ty: &Ty,
) -> Result<(), AllocError>
    requires { AreWithin defs.now stack.old }
    ensures { OnOk result (AreWithin defs.now stack.new) }
{
    let body = taken(stack)?;
    let both = abstracted(alloc, defs, name, ty, &body)?;
    carry_on(alloc, defs, stack, &both)
}

fn at_once(
    alloc: Global,
    defs: &Defs,
    facts: &[Thm],
    stack: &mut Stack<Thm>,
    term: &Term,
) -> Result<(), AllocError>
    requires facts { AreWithin defs.now facts.now }
    requires stack { AreWithin defs.now stack.old }
    ensures { OnOk result (AreWithin defs.now stack.new) }
{
    if is_redex(term) {
        let step = reduced(alloc, defs, term)?;
        carry_on(alloc, defs, stack, &step)
    } else {
        let step = fact_for(facts, term)?;
        carry_on(alloc, defs, stack, step)
    }
}

// The theorem of that name.
#[tactic(auto, using(crate::proofs::Stood::named_at))]
fn theorem_of<'t>(theorems: &'t [(Name, Thm)], name: &Name) -> Result<&'t Thm, AllocError>
    ensures { IfOk result (λ th. (defs : List Def) → AreNamedWithin defs theorems.now →
        Within th.now.defs defs) }
{
    for named in theorems {
        if named.0.equals(name) {
            return Ok(&named.1);
        }
    }
    Err(AllocError)
}

#[tactic(auto, using(crate::proofs::Stood::within_put))]
fn fits(
    alloc: Global,
    defs: &Defs,
    theorems: &[(Name, Thm)],
    stack: &mut Stack<Thm>,
    name: &Name,
    inst: &Inst,
) -> Result<(), AllocError>
    requires theorems { AreNamedWithin defs.now theorems.now }
    requires stack { AreWithin defs.now stack.old }
    ensures { OnOk result (AreWithin defs.now stack.new) }
{
    let th = theorem_of(theorems, name)?;
    let th = instance(alloc, defs, th, inst)?;
    stack.push(th)
}

#[tactic(auto, using(crate::proofs::Stood::within_put))]
fn holds(alloc: Global, defs: &Defs, stack: &mut Stack<Thm>) -> Result<(), AllocError>
    requires { AreWithin defs.now stack.old }
    ensures { OnOk result (AreWithin defs.now stack.new) }
{
    let held = taken(stack)?;
    let rule = taken(stack)?;
    let new = discharged(alloc, defs, &rule, &held)?;
    stack.push(new)
}

fn fails(stack: &mut Stack<Thm>) -> Result<(), AllocError>
    ensures { OnOk result ((defs : List Def) → AreWithin defs stack.old → AreWithin defs stack.new) }
{
    taken(stack)?;
    taken(stack)?;
    Ok(())
}

fn used(alloc: Global, defs: &Defs, stack: &mut Stack<Thm>) -> Result<(), AllocError>
    requires { AreWithin defs.now stack.old }
    ensures { OnOk result (AreWithin defs.now stack.new) }
{
    let rule = taken(stack)?;
    let step = equation_from(alloc, defs, rule)?;
    carry_on(alloc, defs, stack, &step)
}

fn unused(stack: &mut Stack<Thm>) -> Result<(), AllocError>
    ensures { OnOk result ((defs : List Def) → AreWithin defs stack.old → AreWithin defs stack.new) }
{
    taken(stack)?;
    Ok(())
}

// A guard is done, and what it became holds on the guard.
fn guard(
    alloc: Global,
    defs: &Defs,
    facts: &mut Items<Thm>,
    stack: &mut Stack<Thm>,
    done: &Term,
) -> Result<(), AllocError>
    requires facts { AreWithin defs.now facts.old }
    requires stack { AreWithin defs.now stack.old }
    ensures facts { OnOk result (AreWithin defs.now facts.new) }
    ensures stack { OnOk result (AreWithin defs.now stack.new) }
{
    let th = taken(stack)?;
    let held = held(alloc, defs, &th)?;
    add_facts(alloc, defs, facts, done, &held)
}

fn carry_out(
    alloc: Global,
    defs: &Defs,
    theorems: &[(Name, Thm)],
    facts: &mut Items<Thm>,
    stack: &mut Stack<Thm>,
    step: &Step,
) -> Result<(), AllocError>
    requires theorems { AreNamedWithin defs.now theorems.now }
    requires facts { AreWithin defs.now facts.old }
    requires stack { AreWithin defs.now stack.old }
    ensures facts { OnOk result (AreWithin defs.now facts.new) }
    ensures stack { OnOk result (AreWithin defs.now stack.new) }
{
    match step {
        Step::Next(term) => next(alloc, defs, stack, term),
        Step::Guard(done) => guard(alloc, defs, facts, stack, done),
        Step::Application => application(alloc, defs, stack),
        Step::Abstraction(name, ty) => abstraction(alloc, defs, stack, name, ty),
        Step::AtOnce(term) => at_once(alloc, defs, facts.as_slice(), stack, term),
        Step::Fits(name, inst) => fits(alloc, defs, theorems, stack, name, inst),
        Step::Holds => holds(alloc, defs, stack),
        Step::Fails => fails(stack),
        Step::Used => used(alloc, defs, stack),
        Step::Unused => unused(stack),
    }
}

/// The theorem that the steps come to, by the theorems of the rules.
pub(crate) fn carried_out(
    alloc: Global,
    defs: &Defs,
    theorems: &[(Name, Thm)],
    steps: &[Step],
) -> Result<Thm, AllocError>
    requires { AreNamedWithin defs.now theorems.now }
    ensures { IfOk result (IsWithin defs.now) }
{
    let mut facts = Items::new(alloc);
    let mut stack = Stack::new(alloc);
    for step in steps {
        carry_out(alloc, defs, theorems, &mut facts, &mut stack, step)?;
    }
    taken(&mut stack)
}
