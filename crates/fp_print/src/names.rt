//! The names of bound variables.
ghost use Rattle.std.specs.Prelude.{◌≡◌, ◌+◌, ◌++◌, [], ◌∷◌, OnOk, IfOk, IfSome};
ghost use Rattle.fp_term.specs.Variables.{is_among};
ghost use Rattle.fp_print.specs.Names.{candidate, with_name, with_names, with_names_of_all, next_place, place_of, binder_name, binder_names};

use fp_term::{Items, Name, Node, Statement, Term, next};
use std::alloc::{AllocError, Global};
use std::marker::Model;

fn is_among(used: &[Name], bytes: &[u8]) -> bool
    ensures { result ≡ is_among used.now bytes.now }
{
    for name in used {
        if name.as_slice() == bytes {
            return true;
        }
    }
    false
}

// The same of a name, by hashes first.
fn is_known(used: &[Name], name: &Name) -> bool
    ensures { result ≡ is_among used.now name.now }
{
    for known in used {
        if known.equals(name) {
            return true;
        }
    }
    false
}

fn add_name(used: &mut Items<Name>, name: &Name) -> Result<(), AllocError>
    ensures { OnOk result (used.new ≡ with_name used.old name.now) }
{
    if is_known(used.as_slice(), name) {
        return Ok(());
    }
    used.push(name.copy()?)
}

fn add_names(used: &mut Items<Name>, term: &Term) -> Result<(), AllocError>
    ensures { OnOk result (used.new ≡ with_names used.old term.now) }
{
    match term.node() {
        Node::Bound(_) => Ok(()),
        Node::Free { name, .. } => add_name(used, name),
        Node::Const { name, .. } => add_name(used, name),
        Node::App { fun, arg } => {
            add_names(used, fun)?;
            add_names(used, arg)
        }
        Node::Abs { body, .. } => add_names(used, body),
    }
}

fn add_names_of_all(used: &mut Items<Name>, terms: &[Term]) -> Result<(), AllocError>
    ensures { OnOk result (used.new ≡ with_names_of_all used.old terms.now) }
{
    for term in terms {
        add_names(used, term)?;
    }
    Ok(())
}

// The names of the free variables and the constants of a term.
fn names_of_term(alloc: Global, term: &Term) -> Result<Items<Name>, AllocError>
    ensures { IfOk result (λ used. used ≡ with_names [] term.now) }
{
    let mut used = Items::new(alloc);
    add_names(&mut used, term)?;
    Ok(used)
}

// The names of the free variables and the constants of a statement.
fn names_of_statement(alloc: Global, statement: &Statement) -> Result<Items<Name>, AllocError>
    ensures { IfOk result (λ used. used ≡ with_names (with_names_of_all [] statement.now.hyps) statement.now.concl) }
{
    let mut used = Items::new(alloc);
    add_names_of_all(&mut used, statement.hyps.as_slice())?;
    add_names(&mut used, &statement.concl)?;
    Ok(used)
}

// The name at that place of `a`, .., `z`, `a1`, .., `z1`, `a2` and so on.
fn candidate(alloc: Global, place: u32) -> Result<Vec<u8>, AllocError>
    ensures { IfOk result (λ name. name.items ≡ candidate place) }
{
    let mut name = Vec::new(alloc);
    name.push(b'a' + (place % 26) as u8)?;
    let round = place / 26;
    if round != 0 {
        let digits = round.to_string(alloc)?;
        name.extend_from_slice(digits.as_bytes())?;
    }
    Ok(name)
}

fn is_used(alloc: Global, used: &[Name], place: u32) -> Result<bool, AllocError>
    ensures { IfOk result (λ b. b ≡ is_among used.now (candidate place)) }
{
    let name = candidate(alloc, place)?;
    Ok(is_among(used, name.as_slice()))
}

// The first place from there on whose candidate isn't used.
fn next_place(alloc: Global, used: &[Name], from: u32) -> Result<u32, AllocError>
    ensures { IfOk result (λ place. place ≡ next_place used.now used.now from) }
{
    let mut place = from;
    for _step in used {
        if !is_used(alloc, used, place)? {
            return Ok(place);
        }
        place = next(place)?;
    }
    Ok(place)
}

// The place of the name of a binder inside so many others.
fn place_of(alloc: Global, used: &[Name], depth: u32) -> Result<u32, AllocError>
    ensures { IfOk result (λ place. place ≡ place_of used.now depth) }
{
    let mut place = next_place(alloc, used, 0)?;
    for _outer in 0..depth {
        let from = next(place)?;
        place = next_place(alloc, used, from)?;
    }
    Ok(place)
}

/// The names that are used in a statement, with those of its binders, which are made once. Contracts see the used names.
pub(crate) struct BinderNames {
    used: Items<Name>,
    known: Items<Items<u8>>,
}

impl Drop for BinderNames {
    fn drop(self) {
        let BinderNames { used, known } = self;
        drop(used);
        drop(known);
    }
}

impl Model for BinderNames {
    ghost use Rattle.std.specs.Prelude.{◌≡◌, List, ℕ, length};
    ghost use Rattle.fp_print.specs.Names.{binder_names};

    ghost Value = { List (List ℕ) };

    ghost view = { λ n. n.used };

    ghost invariant = { λ n. n.known ≡ binder_names n.used (length n.known) };
}

// How many binders stand inside one another in the term, at most as many as can be counted.
fn deepest(term: &Term) -> u32 {
    match term.node() {
        Node::Bound(_) => 0,
        Node::Free { .. } => 0,
        Node::Const { .. } => 0,
        Node::App { fun, arg } => deepest(fun).max(deepest(arg)),
        Node::Abs { body, .. } => deepest(body).saturating_add(1),
    }
}

fn deepest_of_all(terms: &[Term]) -> u32 {
    let mut most = 0;
    for term in terms {
        most = deepest(term).max(most);
    }
    most
}

// The name at that place, among those of binders.
fn with_candidate(
    alloc: Global,
    known: Items<Items<u8>>,
    place: u32,
) -> Result<Items<Items<u8>>, AllocError>
    ensures { IfOk result (λ names. names ≡ known ++ candidate place ∷ []) }
{
    let name = candidate(alloc, place)?;
    known.appended(Items::from_vec(name))
}

// The names of so many binders, each inside the one before.
fn names_of_binders(
    alloc: Global,
    used: &[Name],
    number: u32,
) -> Result<Items<Items<u8>>, AllocError>
    ensures { IfOk result (λ names. names ≡ binder_names used.now number) }
{
    let mut names = Items::new(alloc);
    let mut place = next_place(alloc, used, 0)?;
    for _outer in 0..number {
        names = with_candidate(alloc, names, place)?;
        place = next_place(alloc, used, next(place)?)?;
    }
    Ok(names)
}

#[tactic(auto, using(crate::proofs::Known::binder_names_length))]
fn binder_names(alloc: Global, used: Items<Name>, number: u32) -> Result<BinderNames, AllocError>
    ensures { IfOk result (λ names. names ≡ used) }
{
    let known = names_of_binders(alloc, used.as_slice(), number)?;
    Ok(BinderNames { used, known })
}

/// The names that are used in a term, and those of its binders.
pub(crate) fn names_in_term(alloc: Global, term: &Term) -> Result<BinderNames, AllocError>
    ensures { IfOk result (λ names. names ≡ with_names [] term.now) }
{
    let used = names_of_term(alloc, term)?;
    binder_names(alloc, used, deepest(term))
}

/// The names that are used in a statement, and those of its binders.
pub(crate) fn names_in_statement(
    alloc: Global,
    statement: &Statement,
) -> Result<BinderNames, AllocError>
    ensures { IfOk result (λ names. names ≡ with_names (with_names_of_all [] statement.now.hyps) statement.now.concl) }
{
    let used = names_of_statement(alloc, statement)?;
    let deepest = deepest(&statement.concl).max(deepest_of_all(statement.hyps.as_slice()));
    binder_names(alloc, used, deepest)
}

// Puts the name of a binder inside so many others at the end, whether it was made before or not.
fn push_made_name(out: &mut Vec<u8>, used: &[Name], depth: u32) -> Result<(), AllocError>
    ensures { OnOk result (out.new.items ≡ out.old.items ++ binder_name used.now depth) }
{
    let alloc = *out.allocator();
    let place = place_of(alloc, used, depth)?;
    let name = candidate(alloc, place)?;
    out.extend_from_slice(name.as_slice())
}

impl BinderNames {
    // The name of a binder inside so many others, where it is made.
    fn made_name(&self, depth: u32) -> Option<&Items<u8>>
        ensures { IfSome result (λ name. name.now ≡ binder_name self.now depth) }
    {
        match self.known.as_slice().get(depth as usize) {
            Some(name) => Some(name),
            None => None,
        }
    }
}

/// Puts the name of a binder inside so many others at the end.
pub(crate) fn push_binder_name(
    out: &mut Vec<u8>,
    names: &BinderNames,
    depth: u32,
) -> Result<(), AllocError>
    ensures { OnOk result (out.new.items ≡ out.old.items ++ binder_name names.now depth) }
{
    match names.made_name(depth) {
        Some(name) => out.extend_from_slice(name.as_slice()),
        None => push_made_name(out, names.used.as_slice(), depth),
    }
}
