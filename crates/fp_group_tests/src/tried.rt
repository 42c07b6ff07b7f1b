//! What is computed of a group, beside written texts.
use crate::written::{Written, full, group};
use fp_full::print_full_term;
use fp_group::Group;
use fp_spec::{defining_terms, induct, pinduct, psimp, simp_statement, termination};
use fp_term::{Items, Term, next};
use std::alloc::{AllocError, Global};
use std::process::Abort;

fn add_statements(alloc: Global, terms: &mut Items<Term>, group: &Group) -> Result<(), AllocError> {
    let mut number = 0u32;
    for _ in group.clauses.as_slice() {
        terms.push(psimp_of(alloc, group, number)?)?;
        terms.push(simp_statement(alloc, group, number)?)?;
        number = next(number)?;
    }
    Ok(())
}

fn psimp_of(alloc: Global, group: &Group, number: u32) -> Result<Term, AllocError> {
    if group.heads.as_slice().is_empty() {
        return Err(AllocError);
    }
    psimp(alloc, group, number)
}

fn add_inductions(alloc: Global, terms: &mut Items<Term>, group: &Group) -> Result<(), AllocError> {
    if group.heads.as_slice().is_empty() {
        return Err(AllocError);
    }
    terms.push(termination(alloc, group)?)?;
    let mut number = 0u32;
    for _ in group.heads.as_slice() {
        terms.push(pinduct(alloc, group, number)?)?;
        terms.push(induct(alloc, group, number)?)?;
        number = next(number)?;
    }
    Ok(())
}

fn bodies(alloc: Global, group: &Group) -> Result<Items<Term>, AllocError> {
    if group.heads.as_slice().is_empty() {
        return Err(AllocError);
    }
    let mut terms = Items::new(alloc);
    for (_, body) in defining_terms(alloc, group)?.as_slice() {
        terms.push(body.copy()?)?;
    }
    Ok(terms)
}

// How many of the terms have these texts.
fn right(
    alloc: Global,
    marks: &[(u8, &str)],
    terms: &[Term],
    texts: &[&str],
) -> Result<usize, AllocError> {
    let mut right = 0usize;
    for (term, text) in terms.iter().zip(texts.iter()) {
        if print_full_term(alloc, term)?.as_slice() == full(alloc, marks, *text)?.as_slice() {
            right = right.saturating_add(1);
        }
    }
    Ok(right)
}

/// The bodies, for each clause the partial rule and the total one, termination, and for each function the partial and the total
/// rule of induction have these texts.
pub fn try_group(
    rt: &impl Abort,
    alloc: Global,
    written: &Written<'_>,
    texts: &[&str],
) -> Result<(), AllocError> {
    let group = group(alloc, written)?;
    let mut terms = bodies(alloc, &group)?;
    add_statements(alloc, &mut terms, &group)?;
    add_inductions(alloc, &mut terms, &group)?;
    assert_eq!(rt; terms.as_slice().len(), texts.len());
    let right = right(alloc, written.marks, terms.as_slice(), texts)?;
    assert_eq!(rt; right, texts.len());
    Ok(())
}
