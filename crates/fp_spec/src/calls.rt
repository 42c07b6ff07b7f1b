//! A term with a function of the group's arguments in place of its calls.
ghost use Rattle.std.specs.Prelude.{◌≡◌, ◌+◌, length, map, IfOk};
ghost use Rattle.fp_term.specs.Terms.{app, abs, head_of, arguments_of};
ghost use Rattle.fp_cong.specs.Spines.{callee_from};
ghost use Rattle.fp_cong.specs.Replaced.{callee_if, callee_at, replaced_if};
ghost use Rattle.fp_spec.specs.Calls.{call_by, calls_at, all_calls_at};

use crate::heads::{in_term, result_out};
use fp_conclude::apply;
use fp_group::Head;
use fp_term::{Items, Name, Node, Term, arguments, head, next};
use std::alloc::{AllocError, Global};

// The number of the function of that name that has so many arguments.
fn callee_if(heads: &[Head], name: &Name, count: usize) -> Result<Option<u32>, AllocError>
    ensures { IfOk result (λ o. o ≡ callee_if (callee_from 0 heads.now name.now) count) }
{
    let mut number = 0u32;
    for head in heads {
        if head.name.equals(name) {
            return if count == head.args.as_slice().len() {
                Ok(Some(number))
            } else {
                Ok(None)
            };
        }
        number = next(number)?;
    }
    Ok(None)
}

fn argument_count(term: &Term) -> Result<usize, AllocError>
    ensures { IfOk result (λ n. n ≡ length (arguments_of term.now)) }
{
    match term.node() {
        Node::Bound(_) => Ok(0),
        Node::Free { .. } => Ok(0),
        Node::Const { .. } => Ok(0),
        Node::App { fun, .. } => argument_count(fun)?.checked_add(1).ok_or(AllocError),
        Node::Abs { .. } => Ok(0),
    }
}

// The number of the function that is applied in the application to all its arguments, and no more.
fn callee_at(heads: &[Head], fun: &Term) -> Result<Option<u32>, AllocError>
    ensures { IfOk result (λ o. o ≡ callee_at heads.now (head_of fun.now) (length (arguments_of fun.now) + 1)) }
{
    let count = argument_count(fun)?.checked_add(1).ok_or(AllocError)?;
    match head(fun).node() {
        Node::Bound(_) => Ok(None),
        Node::Free { .. } => Ok(None),
        Node::Const { name, .. } => callee_if(heads, name, count),
        Node::App { .. } => Ok(None),
        Node::Abs { .. } => Ok(None),
    }
}

// `out(h (in(t1, .., tn)))`
fn call_by(
    alloc: Global,
    heads: &[Head],
    by: &Term,
    index: u32,
    args: &[Term],
) -> Result<Term, AllocError>
    ensures { IfOk result (λ t. t ≡ call_by heads.now by.now index args.now) }
{
    let arg = in_term(alloc, heads, index, args)?;
    let result = apply(alloc, by, &arg)?;
    result_out(alloc, heads, index, &result)
}

// What stands in place of an application, where its parts are replaced.
fn replaced(
    alloc: Global,
    heads: &[Head],
    by: &Term,
    callee: Option<u32>,
    made: Term,
) -> Result<Term, AllocError>
    ensures { IfOk result (λ t. t ≡ replaced_if (call_by heads.now by.now) callee (arguments_of made) made) }
{
    match callee {
        None => Ok(made),
        Some(index) => {
            let args = arguments(alloc, &made)?;
            call_by(alloc, heads, by, index, args.as_slice())
        }
    }
}

#[cycle(calls_at)]
fn calls_at_application(
    alloc: Global,
    heads: &[Head],
    by: &Term,
    fun: &Term,
    arg: &Term,
) -> Result<Term, AllocError>
    ensures { IfOk result (λ t. t ≡ calls_at heads.now by.now (app fun.now arg.now)) }
{
    let left = calls_at(alloc, heads, by, fun)?;
    let right = calls_at(alloc, heads, by, arg)?;
    let made = Term::app(alloc, left, right)?;
    replaced(alloc, heads, by, callee_at(heads, fun)?, made)
}

/// `t[h]`: the term with each call of a function with all its arguments replaced, those in arguments too.
#[cycle(calls_at)]
pub fn calls_at(alloc: Global, heads: &[Head], by: &Term, term: &Term) -> Result<Term, AllocError>
    ensures { IfOk result (λ t. t ≡ calls_at heads.now by.now term.now) }
{
    match term.node() {
        Node::Bound(_) => term.copy(),
        Node::Free { .. } => term.copy(),
        Node::Const { .. } => term.copy(),
        Node::App { fun, arg } => calls_at_application(alloc, heads, by, fun, arg),
        Node::Abs { ty, body } => {
            let made = calls_at(alloc, heads, by, body)?;
            Term::abs(alloc, ty.copy()?, made)
        }
    }
}

/// The terms with their calls replaced.
pub(crate) fn all_calls_at(
    alloc: Global,
    heads: &[Head],
    by: &Term,
    terms: &[Term],
) -> Result<Items<Term>, AllocError>
    ensures { IfOk result (λ ts. ts ≡ all_calls_at heads.now by.now terms.now) }
{
    let mut made = Items::new(alloc);
    for term in terms {
        made.push(calls_at(alloc, heads, by, term)?)?;
    }
    Ok(made)
}
