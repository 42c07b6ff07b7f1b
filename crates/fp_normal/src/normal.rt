//! Passes over a term until nothing is left to reduce.
ghost use Rattle.std.specs.Prelude.{◌≡◌, ◌+◌, false, IfOk};
ghost use Rattle.fp_term.specs.Terms.{app, abs};
ghost use Rattle.fp_conv.specs.Beta.{is_abstraction, is_redex, is_normal};
ghost use Rattle.fp_conv.specs.Passes.{contracted, Passes, NormalBy};

use crate::opening::first_opening;
use fp_term::{Node, Term, Ty, close_over, next, open_with};
use std::alloc::{AllocError, Global};

fn is_abstraction(term: &Term) -> bool
    ensures { result ≡ is_abstraction term.now }
{
    match term.node() {
        Node::Abs { .. } => true,
        _ => false,
    }
}

fn is_redex(term: &Term) -> bool
    ensures { result ≡ is_redex term.now }
{
    match term.node() {
        Node::App { fun, .. } => is_abstraction(fun),
        _ => false,
    }
}

fn is_normal(term: &Term) -> bool
    ensures { result ≡ is_normal term.now }
{
    match term.node() {
        Node::App { fun, arg } => !is_abstraction(fun) && is_normal(fun) && is_normal(arg),
        Node::Abs { body, .. } => is_normal(body),
        _ => true,
    }
}

// A redex contracted; all else stays.
fn contracted(alloc: Global, term: &Term) -> Result<Term, AllocError>
    ensures { IfOk result (λ t. t ≡ contracted term.now) }
{
    match term.node() {
        Node::App { fun, arg } => match fun.node() {
            Node::Abs { body, .. } => open_with(alloc, body, arg),
            _ => term.copy(),
        },
        _ => term.copy(),
    }
}

// The application of what became of its parts.
#[inline(never)]
fn applied(alloc: Global, function: Term, argument: Term) -> Result<Term, AllocError>
    ensures { IfOk result (λ t. t ≡ contracted (app function argument)) }
{
    let whole = Term::app(alloc, function, argument)?;
    contracted(alloc, &whole)
}

#[cycle(passed)]
#[tactic(auto, using(crate::proofs::Passed::parts_pass))]
fn passed_application(alloc: Global, fun: &Term, arg: &Term, depth: u32) -> Result<Term, AllocError>
    requires unreduced { is_normal (app fun.now arg.now) ≡ false }
    requires no_redex { is_redex (app fun.now arg.now) ≡ false }
    ensures { IfOk result (Passes depth (app fun.now arg.now)) }
{
    let function = passed(alloc, fun, depth)?;
    let argument = passed(alloc, arg, depth)?;
    applied(alloc, function, argument)
}

#[cycle(passed)]
fn passed_abstraction(alloc: Global, ty: &Ty, body: &Term, depth: u32) -> Result<Term, AllocError>
    requires { is_normal body.now ≡ false }
    ensures { IfOk result (Passes depth (abs ty.now body.now)) }
{
    let deeper = next(depth)?;
    let (name, opened) = first_opening(alloc, depth, ty, body)?;
    let inner = passed(alloc, &opened, deeper)?;
    Term::abs(alloc, ty.copy()?, close_over(alloc, &inner, &name, ty)?)
}

// One pass: all outermost redexes are contracted, and those that then stand where an application stood.
#[cycle(passed)]
#[tactic(auto, using(crate::proofs::Passed::stays, crate::proofs::Passed::redex_passes))]
fn passed(alloc: Global, term: &Term, depth: u32) -> Result<Term, AllocError>
    ensures { IfOk result (Passes depth term.now) }
{
    if is_normal(term) {
        return term.copy();
    }
    if is_redex(term) {
        return contracted(alloc, term);
    }
    match term.node() {
        Node::App { fun, arg } => passed_application(alloc, fun, arg, depth),
        Node::Abs { ty, body } => passed_abstraction(alloc, ty, body, depth),
        _ => unreachable!(),
    }
}

/// The beta-normal form of the term, which is the one that passes come to.
pub fn normal_form(alloc: Global, term: &Term) -> Result<Term, AllocError>
    ensures { IfOk result (NormalBy term.now) }
{
    let mut made = term.copy()?;
    for _ in 0..u64::MAX {
        if is_normal(&made) {
            return Ok(made);
        }
        made = passed(alloc, &made, 0)?;
    }
    Err(AllocError)
}
