//! Terms of nearly as many levels as there may be: no call overflows the stack.

use crate::terms::term;
use fp_full::print_full_term;
use fp_match::match_term;
use fp_term::{
    Name, Node, Term, Ty, apply, arguments, close_over, depth, first_free, free_variables, head,
    hidden_type, inst, inst_ty, occurs, open_with, same, type_of,
};
use std::alloc::{AllocError, Global};

const LEVELS: u32 = 3990;

// `f (f (.. x))`, where the functions are the same.
fn applied(alloc: Global, fun: &Term, last: Term) -> Result<Term, AllocError> {
    let mut made = last;
    for _ in 0..LEVELS {
        made = Term::app(alloc, fun.copy()?, made)?;
    }
    Ok(made)
}

fn applications(alloc: Global, last: &str) -> Result<Term, AllocError> {
    let fun = term(alloc, "(v f (fun 'a 'a))")?;
    applied(alloc, &fun, term(alloc, last)?)
}

// A body under so many abstractions.
fn abstractions(alloc: Global) -> Result<Term, AllocError> {
    let ty = Ty::var(alloc, Name::new(alloc, b"a")?.ok_or(AllocError)?)?;
    let mut made = term(alloc, "(v x 'a)")?;
    for _ in 0..LEVELS {
        made = Term::abs(alloc, ty.copy()?, made)?;
    }
    Ok(made)
}

fn is_pair(term: &Term) -> Option<(&Name, &Ty)> {
    match term.node() {
        Node::Free { name, ty } => Some((name, ty)),
        _ => None,
    }
}

// Closed over `x` and opened by it again, it is the same; with `y` in its place it is another.
fn is_substituted(alloc: Global, deep: &Term) -> Result<bool, AllocError> {
    let x = term(alloc, "(v x 'a)")?;
    let Some((name, ty)) = is_pair(&x) else {
        return Ok(false);
    };
    let closed = close_over(alloc, deep, name, ty)?;
    let opened = open_with(alloc, &closed, &x)?;
    let pairs = [(name.copy()?, ty.copy()?, term(alloc, "(v y 'a)")?)];
    let other = inst(alloc, deep, &pairs)?;
    Ok(
        same(deep, &opened)
            && !same(deep, &other)
            && occurs(name, ty, deep)
            && !occurs(name, ty, &other),
    )
}

fn is_retyped(alloc: Global, deep: &Term) -> Result<bool, AllocError> {
    let a = Name::new(alloc, b"a")?.ok_or(AllocError)?;
    let b = Ty::var(alloc, Name::new(alloc, b"b")?.ok_or(AllocError)?)?;
    let hidden = hidden_type(deep, &b).is_some();
    let other = inst_ty(alloc, deep, &[(a, b)])?;
    Ok(hidden && !same(deep, &other) && depth(&other) == depth(deep))
}

fn is_matched(alloc: Global, deep: &Term, copy: &Term) -> Result<bool, AllocError> {
    Ok(match_term(alloc, deep, copy)?.is_some() && same(deep, copy))
}

fn has_variables(alloc: Global, deep: &Term, number: usize) -> Result<bool, AllocError> {
    let known = free_variables(alloc, deep)?;
    Ok(first_free(deep).is_some() && known.as_slice().len() == number)
}

fn is_typed(alloc: Global, deep: &Term) -> Result<bool, AllocError> {
    Ok(type_of(alloc, deep).is_ok())
}

fn is_long(alloc: Global, deep: &Term) -> Result<bool, AllocError> {
    Ok(print_full_term(alloc, deep)?.as_slice().len() > 3990)
}

fn works(alloc: Global, deep: &Term, copy: &Term) -> Result<bool, AllocError> {
    Ok(is_substituted(alloc, deep)? && is_retyped(alloc, deep)? && is_matched(alloc, deep, copy)?)
}

fn is_walked(alloc: Global, deep: &Term, number: usize) -> Result<bool, AllocError> {
    Ok(has_variables(alloc, deep, number)? && is_long(alloc, deep)?)
}

fn applications_work(alloc: Global) -> Result<bool, AllocError> {
    let deep = applications(alloc, "(v x 'a)")?;
    let copy = applications(alloc, "(v x 'a)")?;
    Ok(works(alloc, &deep, &copy)? && is_walked(alloc, &deep, 2)? && is_typed(alloc, &deep)?)
}

fn abstractions_work(alloc: Global) -> Result<bool, AllocError> {
    let deep = abstractions(alloc)?;
    let copy = abstractions(alloc)?;
    Ok(works(alloc, &deep, &copy)? && is_walked(alloc, &deep, 1)?)
}

// The head and the arguments of a term with that many of them.
fn spine_works(alloc: Global) -> Result<bool, AllocError> {
    let x = term(alloc, "(v x 'a)")?;
    let mut made = x.copy()?;
    for _ in 0..LEVELS {
        made = Term::app(alloc, made, x.copy()?)?;
    }
    let again = apply(alloc, head(&made), arguments(alloc, &made)?.as_slice())?;
    Ok(same(&made, &again))
}

#[test]
fn deep_applications(rt: HostRuntime) {
    assert!(rt; applications_work(rt.alloc()) == Ok(true));
}

#[test]
fn deep_abstractions(rt: HostRuntime) {
    assert!(rt; abstractions_work(rt.alloc()) == Ok(true));
}

#[test]
fn deep_spines(rt: HostRuntime) {
    assert!(rt; spine_works(rt.alloc()) == Ok(true));
}
