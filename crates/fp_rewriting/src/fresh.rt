//! The name of the variable with which an abstraction is opened.
ghost use Rattle.std.specs.Prelude.{◌≡◌, ◌≤◌, ◌∷◌, ◌+◌, ◌^◌, ◌||◌, length, IfOk};
ghost use Rattle.fp_term.specs.Terms.{size_of};
ghost use Rattle.fp_term.specs.Variables.{is_among, free_names};
ghost use Rattle.fp_rewriting.specs.Fresh.{opening_name, is_taken, first_untaken, fresh_name, IsFirstUntaken};

use fp_term::{Name, Node, Term, nodes, numbered};
use std::alloc::{AllocError, Global};

#[tactic(auto, unfolding(fp_term::specs::Names::is_name))]
fn opening_name(alloc: Global, number: u32) -> Result<Name, AllocError>
    ensures { IfOk result (λ name. name ≡ opening_name number) }
{
    let stem = Name::of(alloc, b"w")?;
    numbered(alloc, &stem, number)
}

/// Is the name one of those?
pub(crate) fn is_among(names: &[Name], name: &Name) -> bool
    ensures { result ≡ is_among names.now name.now }
{
    for known in names {
        if known.equals(name) {
            return true;
        }
    }
    false
}

// Has a free variable of the term that name?
#[tactic(auto, using(fp_term::proofs::Search::among_append))]
fn has_name(name: &Name, term: &Term) -> bool
    ensures { result ≡ is_among (free_names term.now) name.now }
{
    match term.node() {
        Node::Bound(_) => false,
        Node::Free { name: a, .. } => a.equals(name),
        Node::Const { .. } => false,
        Node::App { fun, arg } => has_name(name, fun) || has_name(name, arg),
        Node::Abs { body, .. } => has_name(name, body),
    }
}

fn is_taken(names: &[Name], term: &Term, name: &Name) -> bool
    ensures { result ≡ is_taken names.now term.now name.now }
{
    has_name(name, term) || is_among(names, name)
}

fn next(number: u32) -> Result<u32, AllocError>
    ensures { IfOk result (λ n. n ≡ number + 1) }
{
    number.checked_add(1).ok_or(AllocError)
}

// The first of `w1`, `w2` and so on that isn't taken, of so many and one.
fn first_untaken(alloc: Global, tries: u32, names: &[Name], term: &Term) -> Result<Name, AllocError>
    ensures { IfOk result (λ name. name ≡ first_untaken tries names.now term.now 1) }
{
    let mut number = 1;
    for _tried in 0..tries {
        let name = opening_name(alloc, number)?;
        if !is_taken(names, term, &name) {
            return Ok(name);
        }
        number = next(number)?;
    }
    opening_name(alloc, number)
}

// How many names may be taken, where one more and one more still have numbers.
fn most_taken(names: &[Name], term: &Term) -> Result<u32, AllocError>
    ensures is { IfOk result (λ n. n ≡ size_of term.now + length names.now) }
    ensures bound { IfOk result (λ n. n + 2 ≤ 2 ^ 32) }
{
    let most = nodes(term)
        .checked_add(names.len() as u64)
        .ok_or(AllocError)?;
    if most > 4_000_000_000 {
        return Err(AllocError);
    }
    Ok(most as u32)
}

/// The first of `w1`, `w2` and so on that no free variable of the term has and that isn't among the names.
#[tactic(auto, using(crate::proofs::FirstUntaken::first_of_all))]
pub fn fresh_name(alloc: Global, names: &[Name], term: &Term) -> Result<Name, AllocError>
    ensures is { IfOk result (λ name. name ≡ fresh_name names.now term.now) }
    ensures first { IfOk result (λ name. IsFirstUntaken names.now term.now name) }
{
    let tries = most_taken(names, term)?;
    first_untaken(alloc, tries, names, term)
}
