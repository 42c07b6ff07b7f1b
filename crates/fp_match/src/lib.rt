//! First-order matching of terms of higher-order logic.
#![tactic(auto)]

ghost use Rattle.std.specs.Prelude.{◌≡◌, [], Some, None, IfOk, MatchOption, MatchBool};
ghost use Rattle.fp_term.specs.Terms.{constant, app, abs, found};
ghost use Rattle.fp_term.specs.Typing.{type_under};
ghost use Rattle.fp_match.specs.Instances.{IsInstanceBy, IsTermInstance, AreOwn, AreFirst};
ghost use Rattle.fp_match.specs.Walk.{is_number, matched_term, put_term, put_variable};

mod inst;
mod types;

use crate::inst::push_term;
use crate::types::{match_type, own_type};
pub use fp_term::match_ty;
use fp_term::{Name, Node, Term, Ty, find, same};
pub use inst::Inst;
use std::alloc::{AllocError, Global};

// Adds the pair where there is none for the variable, and says whether the variable's term is this one.
fn put_term(inst: &mut Inst, name: &Name, ty: &Ty, term: &Term) -> Result<bool, AllocError>
    ensures { IfOk result (λ yes. MatchBool yes (put_term (found name.now ty.now inst.old.terms) name.now ty.now term.now inst.old ≡ Some inst.new) (put_term (found name.now ty.now inst.old.terms) name.now ty.now term.now inst.old ≡ None)) }
{
    match find(name, ty, inst.terms.as_slice()) {
        Some(known) => Ok(same(known, term)),
        None => {
            push_term(&mut inst.terms, name, ty, term)?;
            Ok(true)
        }
    }
}

// A variable matches a term that has a type, and only this one wherever it stands at that type.
fn match_variable(
    alloc: Global,
    inst: &mut Inst,
    name: &Name,
    ty: &Ty,
    term: &Term,
) -> Result<bool, AllocError>
    ensures { IfOk result (λ yes. MatchBool yes (put_variable (type_under [] term.now) name.now ty.now term.now inst.old ≡ Some inst.new) (put_variable (type_under [] term.now) name.now ty.now term.now inst.old ≡ None)) }
{
    match own_type(alloc, term)? {
        Some(of_term) => if match_type(alloc, &mut inst.types, ty, &of_term)? {
            put_term(inst, name, &of_term, term)
        } else {
            Ok(false)
        },
        None => Ok(false),
    }
}

fn is_number(number: u32, term: &Term) -> bool
    ensures { result ≡ is_number number term.now }
{
    match term.node() {
        Node::Bound(n) => number == *n,
        _ => false,
    }
}

fn match_constant(
    alloc: Global,
    inst: &mut Inst,
    name: &Name,
    ty: &Ty,
    term: &Term,
) -> Result<bool, AllocError>
    ensures { IfOk result (λ yes. MatchBool yes (matched_term inst.old (constant name.now ty.now) term.now ≡ Some inst.new) (matched_term inst.old (constant name.now ty.now) term.now ≡ None)) }
{
    match term.node() {
        Node::Const { name: a, ty: u } => {
            Ok(name.equals(a) && match_type(alloc, &mut inst.types, ty, u)?)
        }
        _ => Ok(false),
    }
}

#[cycle(match_onto)]
fn match_application(
    alloc: Global,
    inst: &mut Inst,
    fun: &Term,
    arg: &Term,
    term: &Term,
) -> Result<bool, AllocError>
    ensures { IfOk result (λ yes. MatchBool yes (matched_term inst.old (app fun.now arg.now) term.now ≡ Some inst.new) (matched_term inst.old (app fun.now arg.now) term.now ≡ None)) }
{
    match term.node() {
        Node::App { fun: g, arg: y } => {
            Ok(match_onto(alloc, inst, fun, g)? && match_onto(alloc, inst, arg, y)?)
        }
        _ => Ok(false),
    }
}

#[cycle(match_onto)]
fn match_abstraction(
    alloc: Global,
    inst: &mut Inst,
    ty: &Ty,
    body: &Term,
    term: &Term,
) -> Result<bool, AllocError>
    ensures { IfOk result (λ yes. MatchBool yes (matched_term inst.old (abs ty.now body.now) term.now ≡ Some inst.new) (matched_term inst.old (abs ty.now body.now) term.now ≡ None)) }
{
    match term.node() {
        Node::Abs { ty: u, body: y } => {
            Ok(match_type(alloc, &mut inst.types, ty, u)? && match_onto(alloc, inst, body, y)?)
        }
        _ => Ok(false),
    }
}

// Adds what makes the pattern equal to the term, and says whether there is anything that agrees with what is there.
#[cycle(match_onto)]
fn match_onto(
    alloc: Global,
    inst: &mut Inst,
    pattern: &Term,
    term: &Term,
) -> Result<bool, AllocError>
    ensures { IfOk result (λ yes. MatchBool yes (matched_term inst.old pattern.now term.now ≡ Some inst.new) (matched_term inst.old pattern.now term.now ≡ None)) }
{
    match pattern.node() {
        Node::Bound(number) => Ok(is_number(*number, term)),
        Node::Free { name, ty } => match_variable(alloc, inst, name, ty, term),
        Node::Const { name, ty } => match_constant(alloc, inst, name, ty, term),
        Node::App { fun, arg } => match_application(alloc, inst, fun, arg, term),
        Node::Abs { ty, body } => match_abstraction(alloc, inst, ty, body, term),
    }
}

/// The types and terms that make the pattern equal to the term, where there are any. The types stand for the pattern's
/// type variables, and then the terms for its variables at the types that these have by then. So two variables of one
/// name stand for one term where their types become equal. No term there has a loose bound number. Each pair is of what
/// the pattern has, and none stands behind another of its variable.
#[tactic(auto, using(crate::proofs::Matching::unmatched))]
pub fn match_term(alloc: Global, pattern: &Term, term: &Term) -> Result<Option<Inst>, AllocError>
    ensures exact { IfOk result (λ o. MatchOption o (IsTermInstance pattern.now term.now → ⊥) (λ i. IsInstanceBy i.types i.terms pattern.now term.now)) }
    ensures own { IfOk result (λ o. MatchOption o (Unit {0}) (λ i. AreOwn i.types i.terms pattern.now)) }
    ensures first { IfOk result (λ o. MatchOption o (Unit {0}) (λ i. AreFirst i.types i.terms)) }
{
    let mut inst = Inst::new(alloc);
    if match_onto(alloc, &mut inst, pattern, term)? {
        Ok(Some(inst))
    } else {
        Ok(None)
    }
}
