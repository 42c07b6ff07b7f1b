//! Names of variables that are free nowhere in given terms.
ghost use Rattle.std.specs.Prelude.{◌≡◌, ◌∷◌, ◌||◌, false, IfOk};
ghost use Rattle.fp_term.specs.Terms.{free, opened};
ghost use Rattle.fp_term.specs.Variables.{is_among, free_names};
ghost use Rattle.fp_conclude.specs.Hypotheses.{occurs, occurs_in_any};
ghost use Rattle.fp_conv.specs.Outermost.{is_used};
ghost use Rattle.fp_conv.specs.Passes.{opening_name, IsFirstUnused};

use fp_conclude::{Equation, occurs, occurs_in_any};
use fp_term::{Name, Node, Term, Ty, numbered, open_with};
use std::alloc::{AllocError, Global};

// `_` and the number's digits.
#[tactic(auto, unfolding(fp_term::specs::Names::is_name))]
fn opening_name(alloc: Global, number: u32) -> Result<Name, AllocError>
    ensures { IfOk result (λ name. name ≡ opening_name number) }
{
    let stem = Name::of(alloc, b"_")?;
    numbered(alloc, &stem, number)
}

// The name of the first number, from that one on, whose variable of the type isn't free in the body.
fn first_unused(alloc: Global, from: u32, ty: &Ty, body: &Term) -> Result<Name, AllocError>
    ensures { IfOk result (λ name. IsFirstUnused from ty.now body.now name) }
{
    for number in from..u32::MAX {
        let name = opening_name(alloc, number)?;
        if !occurs(&name, ty, body) {
            return Ok(name);
        }
    }
    Err(AllocError)
}

// Is the variable free in any of the terms?
fn is_taken(name: &Name, ty: &Ty, body: &Term, other: &Term, hyps: &[Term]) -> bool
    ensures { result ≡ (occurs name.now ty.now body.now || (occurs name.now ty.now other.now ||
        occurs_in_any name.now ty.now hyps.now)) }
{
    occurs(name, ty, body) || occurs(name, ty, other) || occurs_in_any(name, ty, hyps)
}

// A name whose variable of the type is free in none of the terms.
fn fresh(
    alloc: Global,
    from: u32,
    ty: &Ty,
    body: &Term,
    other: &Term,
    hyps: &[Term],
) -> Result<Name, AllocError>
    ensures { IfOk result (λ name. (occurs name ty.now body.now || (occurs name ty.now other.now ||
        occurs_in_any name ty.now hyps.now)) ≡ false) }
{
    for number in from..u32::MAX {
        let name = opening_name(alloc, number)?;
        if !is_taken(&name, ty, body, other, hyps) {
            return Ok(name);
        }
    }
    Err(AllocError)
}

// The body with the variable in place of its outermost loose number.
pub(crate) fn opened(alloc: Global, body: &Term, name: &Name, ty: &Ty) -> Result<Term, AllocError>
    ensures { IfOk result (λ t. t ≡ opened 0 (free name.now ty.now) body.now) }
{
    let variable = Term::free(alloc, name.copy()?, ty.copy()?)?;
    open_with(alloc, body, &variable)
}

/// That first unused name, and the body opened by its variable.
#[inline(never)]
pub(crate) fn first_opening(
    alloc: Global,
    from: u32,
    ty: &Ty,
    body: &Term,
) -> Result<(Name, Term), AllocError>
    ensures first { IfOk result (λ p. IsFirstUnused from ty.now body.now p.0) }
    ensures opened { IfOk result (λ p. p.1 ≡ opened 0 (free p.0 ty.now) body.now) }
{
    let name = first_unused(alloc, from, ty, body)?;
    let opened = opened(alloc, body, &name, ty)?;
    Ok((name, opened))
}

/// A name whose variable of the type is free in none of the terms, and the body opened by its variable.
#[inline(never)]
pub(crate) fn opening(
    alloc: Global,
    from: u32,
    ty: &Ty,
    body: &Term,
    other: &Term,
    hyps: &[Term],
) -> Result<(Name, Term), AllocError>
    ensures apart { IfOk result (λ p. (occurs p.0 ty.now body.now || (occurs p.0 ty.now other.now ||
        occurs_in_any p.0 ty.now hyps.now)) ≡ false) }
    ensures opened { IfOk result (λ p. p.1 ≡ opened 0 (free p.0 ty.now) body.now) }
{
    let name = fresh(alloc, from, ty, body, other, hyps)?;
    let opened = opened(alloc, body, &name, ty)?;
    Ok((name, opened))
}

// Has a variable that is free in the term that name, of whatever type?
#[tactic(auto, using(fp_term::proofs::Search::among_append))]
fn has_name(name: &Name, term: &Term) -> bool
    ensures { result ≡ is_among (free_names term.now) name.now }
{
    match term.node() {
        Node::Bound(_) => false,
        Node::Free { name: a, .. } => a.equals(name),
        Node::Const { .. } => false,
        Node::App { fun, arg } => has_name(name, fun) || has_name(name, arg),
        Node::Abs { body, .. } => has_name(name, body),
    }
}

fn is_used(name: &Name, terms: &[Term]) -> bool
    ensures { result ≡ is_used name.now terms.now }
{
    for term in terms {
        if has_name(name, term) {
            return true;
        }
    }
    false
}

// Has a variable that is free in the term, in the sides or in the hypotheses that name?
fn is_used_here(name: &Name, term: &Term, sides: &Equation<'_>, hyps: &[Term]) -> bool
    ensures { result ≡ is_used name.now (term.now ∷ sides.now.left.now ∷ sides.now.right.now ∷ hyps.now) }
{
    has_name(name, term)
        || has_name(name, sides.left)
        || has_name(name, sides.right)
        || is_used(name, hyps)
}

/// A name that no variable has that is free in the term, in the sides or in the hypotheses.
pub(crate) fn unused(
    alloc: Global,
    from: u32,
    term: &Term,
    sides: &Equation<'_>,
    hyps: &[Term],
) -> Result<Name, AllocError>
    ensures { IfOk result (λ name. is_used name (term.now ∷ sides.now.left.now ∷ sides.now.right.now ∷ hyps.now)
        ≡ false) }
{
    for number in from..u32::MAX {
        let name = opening_name(alloc, number)?;
        if !is_used_here(&name, term, sides, hyps) {
            return Ok(name);
        }
    }
    Err(AllocError)
}

/// Such a name, and the body opened by its variable of the type.
#[inline(never)]
pub(crate) fn unused_opening(
    alloc: Global,
    from: u32,
    ty: &Ty,
    body: &Term,
    sides: &Equation<'_>,
    hyps: &[Term],
) -> Result<(Name, Term), AllocError>
    ensures unused { IfOk result (λ p. is_used p.0 (body.now ∷ sides.now.left.now ∷ sides.now.right.now ∷ hyps.now)
        ≡ false) }
    ensures opened { IfOk result (λ p. p.1 ≡ opened 0 (free p.0 ty.now) body.now) }
{
    let name = unused(alloc, from, body, sides, hyps)?;
    let opened = opened(alloc, body, &name, ty)?;
    Ok((name, opened))
}
