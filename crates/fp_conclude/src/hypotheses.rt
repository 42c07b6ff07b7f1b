//! Lists of hypotheses without repeats, and the variables that are free in them.
ghost use Rattle.std.specs.Prelude.{◌≡◌, [], ◌∷◌, ◌++◌, IfOk};
ghost use Rattle.fp_conclude.specs.Hypotheses.{member, union, without, all_replaced, all_retyped_terms, occurs, occurs_in_any};

use fp_term::{Items, Name, Node, Term, Ty, copy_all, inst, inst_ty, same};
use std::alloc::{AllocError, Global};

fn contains(terms: &[Term], term: &Term) -> bool
    ensures { result ≡ member term.now terms.now }
{
    for other in terms {
        if same(term, other) {
            return true;
        }
    }
    false
}

// Puts the term at the end, where it isn't there.
fn add(terms: &mut Items<Term>, term: Term) -> Result<(), AllocError>
    ensures { IfOk result (λ _. terms.new ≡ union terms.old (term ∷ [])) }
{
    if contains(terms.as_slice(), &term) {
        return Ok(());
    }
    terms.push(term)
}

/// The first terms, and then the new ones of the second.
pub fn union(alloc: Global, first: &[Term], second: &[Term]) -> Result<Items<Term>, AllocError>
    ensures { IfOk result (λ terms. terms ≡ union first.now second.now) }
{
    let mut terms = copy_all(alloc, first)?;
    for term in second {
        add(&mut terms, term.copy()?)?;
    }
    Ok(terms)
}

/// The terms but this one.
pub fn without(alloc: Global, term: &Term, terms: &[Term]) -> Result<Items<Term>, AllocError>
    ensures { IfOk result (λ rest. rest ≡ without term.now terms.now) }
{
    let mut rest = Items::new(alloc);
    for other in terms {
        if !same(term, other) {
            rest.push(other.copy()?)?;
        }
    }
    Ok(rest)
}

/// The term alone.
pub fn single(alloc: Global, term: &Term) -> Result<Items<Term>, AllocError>
    ensures { IfOk result (λ terms. terms ≡ term.now ∷ []) }
{
    let mut terms = Items::new(alloc);
    terms.push(term.copy()?)?;
    Ok(terms)
}

/// The instances of the terms, each once.
pub fn all_instances(
    alloc: Global,
    terms: &[Term],
    pairs: &[(Name, Ty, Term)],
) -> Result<Items<Term>, AllocError>
    ensures { IfOk result (λ made. made ≡ all_replaced pairs.now terms.now) }
{
    let mut made = Items::new(alloc);
    for term in terms {
        add(&mut made, inst(alloc, term, pairs)?)?;
    }
    Ok(made)
}

/// The terms with types in place of type variables, each once.
pub fn all_retyped(
    alloc: Global,
    terms: &[Term],
    pairs: &[(Name, Ty)],
) -> Result<Items<Term>, AllocError>
    ensures { IfOk result (λ made. made ≡ all_retyped_terms pairs.now terms.now) }
{
    let mut made = Items::new(alloc);
    for term in terms {
        add(&mut made, inst_ty(alloc, term, pairs)?)?;
    }
    Ok(made)
}

/// Is the variable free in the term?
pub fn occurs(name: &Name, ty: &Ty, term: &Term) -> bool
    ensures { result ≡ occurs name.now ty.now term.now }
{
    match term.node() {
        Node::Bound(_) => false,
        Node::Free { name: a, ty: s } => a.equals(name) && s.equals(ty),
        Node::Const { .. } => false,
        Node::App { fun, arg } => occurs(name, ty, fun) || occurs(name, ty, arg),
        Node::Abs { body, .. } => occurs(name, ty, body),
    }
}

/// Is the variable free in any of the terms?
pub fn occurs_in_any(name: &Name, ty: &Ty, terms: &[Term]) -> bool
    ensures { result ≡ occurs_in_any name.now ty.now terms.now }
{
    for term in terms {
        if occurs(name, ty, term) {
            return true;
        }
    }
    false
}
