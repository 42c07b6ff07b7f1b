//! Type variables named in order of first occurrence.
ghost use Rattle.std.specs.Prelude.{◌≡◌, ◌++◌, [], ◌∷◌, IfOk, OnOk};
ghost use Rattle.fp_term.specs.Types.{variable};
ghost use Rattle.fp_term.specs.Variables.{type_names, all_type_names, type_names_in};
ghost use Rattle.fp_unify.specs.Candidates.{candidate};
ghost use Rattle.fp_constructors.specs.Naming.{distinct_after, lettered, renamed};
ghost use Rattle.fp_constructors.specs.Needed.{letters_from};

use crate::forms::is_among;
use fp_term::{Items, Name, Node, Term, Ty, TyNode, Tys, TysNode, inst_ty, next};
use std::alloc::{AllocError, Global};

// The name at that place of `a`, .., `z`, `a1`, .., `z1`, `a2` and so on.
fn candidate_bytes(alloc: Global, place: u32) -> Result<Vec<u8>, AllocError>
    ensures { IfOk result (λ name. name.items ≡ candidate place) }
{
    let mut name = Vec::new(alloc);
    name.push(b'a' + (place % 26) as u8)?;
    let round = place / 26;
    if round != 0 {
        let digits = round.to_string(alloc)?;
        name.extend_from_slice(digits.as_bytes())?;
    }
    Ok(name)
}

fn candidate(alloc: Global, place: u32) -> Result<Name, AllocError>
    ensures { IfOk result (λ name. name ≡ candidate place) }
{
    let bytes = candidate_bytes(alloc, place)?;
    let name = Name::of(alloc, bytes.as_slice())?;
    Ok(name)
}

// Puts the name at the end, where it isn't there.
fn add(known: &mut Items<Name>, name: &Name) -> Result<(), AllocError>
    ensures { OnOk result (known.new ≡ distinct_after known.old (name.now ∷ [])) }
{
    if is_among(known.as_slice(), name) {
        return Ok(());
    }
    known.push(name.copy()?)
}

#[cycle(names)]
fn add_of_type(known: &mut Items<Name>, ty: &Ty) -> Result<(), AllocError>
    ensures { OnOk result (known.new ≡ distinct_after known.old (type_names ty.now)) }
{
    match ty.node() {
        TyNode::Var(name) => add(known, name),
        TyNode::Con { args, .. } => add_of_types(known, args),
    }
}

#[cycle(names)]
#[tactic(auto, using(crate::proofs::Distinct::distinct_append))]
fn add_of_types(known: &mut Items<Name>, tys: &Tys) -> Result<(), AllocError>
    ensures { OnOk result (known.new ≡ distinct_after known.old (all_type_names tys.now)) }
{
    match tys.node() {
        TysNode::End => Ok(()),
        TysNode::More { first, rest } => {
            add_of_type(known, first)?;
            add_of_types(known, rest)
        }
    }
}

#[tactic(auto, using(crate::proofs::Distinct::distinct_append))]
fn add_of_term(known: &mut Items<Name>, term: &Term) -> Result<(), AllocError>
    ensures { OnOk result (known.new ≡ distinct_after known.old (type_names_in term.now)) }
{
    match term.node() {
        Node::Bound(_) => Ok(()),
        Node::Free { ty, .. } => add_of_type(known, ty),
        Node::Const { ty, .. } => add_of_type(known, ty),
        Node::App { fun, arg } => {
            add_of_term(known, fun)?;
            add_of_term(known, arg)
        }
        Node::Abs { ty, body } => {
            add_of_type(known, ty)?;
            add_of_term(known, body)
        }
    }
}

fn letter(alloc: Global, place: u32) -> Result<Ty, AllocError>
    ensures { IfOk result (λ ty. ty ≡ variable (candidate place)) }
{
    Ty::var(alloc, candidate(alloc, place)?)
}

/// A type variable for each of the names: the first candidates.
pub fn lettered(alloc: Global, names: &[Name]) -> Result<Items<(Name, Ty)>, AllocError>
    ensures { IfOk result (λ pairs. pairs ≡ lettered 0 names.now) }
{
    let mut pairs = Items::new(alloc);
    let mut place = 0;
    for name in names {
        pairs.push((name.copy()?, letter(alloc, place)?))?;
        place = next(place)?;
    }
    Ok(pairs)
}

/// As many type variables as there are names, from that candidate on.
pub fn letters_from(alloc: Global, place: u32, names: &[Name]) -> Result<Tys, AllocError>
    ensures { IfOk result (λ tys. tys ≡ letters_from place names.now) }
{
    match names.split_first() {
        Some((_, rest)) => {
            let later = letters_from(alloc, next(place)?, rest)?;
            Tys::more(alloc, letter(alloc, place)?, later)
        }
        None => Tys::end(alloc),
    }
}

/// The term with its type variables named in order of first occurrence.
pub fn renamed(alloc: Global, term: &Term) -> Result<Term, AllocError>
    ensures { IfOk result (λ t. t ≡ renamed term.now) }
{
    let mut names = Items::new(alloc);
    add_of_term(&mut names, term)?;
    let pairs = lettered(alloc, names.as_slice())?;
    inst_ty(alloc, term, pairs.as_slice())
}
