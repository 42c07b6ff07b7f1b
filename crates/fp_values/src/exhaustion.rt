//! The exhaustion of a type, at a term.
ghost use Rattle.std.specs.Prelude.{◌≡◌, ◌∷◌, [], None, Some, codes, IfOk, MatchOption};
ghost use Rattle.fp_term.specs.Terms.{replaced, retyped_term};
ghost use Rattle.fp_constructors.specs.Needed.{exhaust_name};
ghost use Rattle.fp_values.specs.Answers.{States};
ghost use Rattle.fp_values.specs.Exhaustion.{put, put_for, IsPut, NamedAnswer, ExhaustionAnswer};

use crate::asked::extended;
use crate::equal::{answer, lacks};
use crate::fault::ValueFault;
use crate::value::names_of;
use fp_kernel::Thm;
use fp_proof::{Proof, Stop};
use fp_term::{Items, Name, Term, Ty, TyNode, find_type, free_variables, inst, inst_ty, match_ty};
use fp_theory::Theory;
use std::alloc::{AllocError, Global};

// A statement with the term for its variable `x`, and the types that it then has for its type variables.
#[derive(Drop)]
struct Placed {
    types: Items<(Name, Ty)>,
    statement: Term,
}

#[tactic(auto, unfolding(fp_term::specs::Names::is_name))]
fn x_name(alloc: Global) -> Result<Name, AllocError>
    ensures { IfOk result (λ n. n ≡ codes "x") }
{
    Name::of(alloc, b"x")
}

fn x_for(alloc: Global, ty: &Ty, term: &Term) -> Result<Items<(Name, Ty, Term)>, AllocError>
    ensures { IfOk result (λ pairs. pairs ≡ (codes "x", ty.now, term.now) ∷ []) }
{
    let mut pairs = Items::new(alloc);
    pairs.push((x_name(alloc)?, ty.copy()?, term.copy()?))?;
    Ok(pairs)
}

fn put_at(
    alloc: Global,
    types: Items<(Name, Ty)>,
    ty: &Ty,
    term: &Term,
    statement: &Term,
) -> Result<Placed, AllocError>
    ensures { IfOk result (λ put. put.statement ≡ replaced ((codes "x", ty.now, term.now) ∷ []) (retyped_term types statement.now)) }
{
    let pairs = x_for(alloc, ty, term)?;
    let typed = inst_ty(alloc, statement, types.as_slice())?;
    let statement = inst(alloc, &typed, pairs.as_slice())?;
    Ok(Placed { types, statement })
}

fn put_for(
    alloc: Global,
    own: &Ty,
    ty: &Ty,
    term: &Term,
    statement: &Term,
) -> Result<Option<Placed>, AllocError>
    ensures { IfOk result (λ o. MatchOption o (put_for (Some own.now) ty.now term.now statement.now ≡ None)
        (λ p. put_for (Some own.now) ty.now term.now statement.now ≡ Some p.statement)) }
{
    match match_ty(alloc, own, ty)? {
        Some(types) => Ok(Some(put_at(alloc, types, ty, term, statement)?)),
        None => Ok(None),
    }
}

fn put(alloc: Global, statement: &Term, ty: &Ty, term: &Term) -> Result<Option<Placed>, AllocError>
    ensures { IfOk result (λ o. MatchOption o (put statement.now ty.now term.now ≡ None)
        (λ p. put statement.now ty.now term.now ≡ Some p.statement)) }
{
    let name = x_name(alloc)?;
    let variables = free_variables(alloc, statement)?;
    match find_type(&name, variables.as_slice()) {
        Some(own) => put_for(alloc, own, ty, term, statement),
        None => Ok(None),
    }
}

fn derived(
    alloc: Global,
    theory: &Theory,
    name: &Name,
    put: &Placed,
    ty: &Ty,
    term: &Term,
) -> Result<Thm, Stop>
    ensures { IfOk result (States theory.now.defs put.now.statement) }
{
    let mut proof = Proof::new(alloc, theory, Items::new(alloc));
    let line = proof.named(name)?;
    let line = proof.inst_ty(line, put.types.as_slice())?;
    let pairs = x_for(alloc, ty, term)?;
    let line = proof.inst(line, pairs.as_slice())?;
    proof.theorem(line, &put.statement)
}

// The theorem of the name, which states this, at the term.
fn at_term(
    alloc: Global,
    theory: &Theory,
    name: &Name,
    statement: &Term,
    ty: &Ty,
    term: &Term,
) -> Result<Thm, Stop>
    ensures { IfOk result (IsPut theory.now.defs (put statement.now ty.now term.now)) }
{
    match put(alloc, statement, ty, term)? {
        Some(put) => derived(alloc, theory, name, &put, ty, term),
        None => Err(Stop::Stuck),
    }
}

// The theorem of the name at the term.
fn by_name(
    alloc: Global,
    theory: &Theory,
    name: &Name,
    ty: &Ty,
    term: &Term,
) -> Result<Thm, ValueFault>
    ensures { NamedAnswer theory.now name.now ty.now term.now result }
{
    match theory.find(name) {
        Some(theorem) => {
            let statement = theorem.concl();
            answer(at_term(alloc, theory, name, statement, ty, term))
        }
        None => Err(lacks(name)),
    }
}

fn exhaust_name(alloc: Global, name: &Name) -> Result<Name, AllocError>
    ensures { IfOk result (λ n. n ≡ exhaust_name name.now) }
{
    extended(alloc, name, b"_exhaust")
}

/// That the term of the type is made by one of the type's declared constructors: the theorem by which they are
/// exhaustive, with the term for its variable `x`. A type without declared constructors has no values.
pub fn exhaust_at(alloc: Global, theory: &Theory, ty: &Ty, term: &Term) -> Result<Thm, ValueFault>
    ensures { ExhaustionAnswer theory.now ty.now term.now result }
{
    let types = theory.constructors().types.as_slice();
    if names_of(types, ty).is_empty() {
        return Err(ValueFault::NotValues);
    }
    match ty.node() {
        TyNode::Con { name, .. } => {
            let name = exhaust_name(alloc, name)?;
            by_name(alloc, theory, &name, ty, term)
        }
        TyNode::Var(_) => Err(ValueFault::NotValues),
    }
}
