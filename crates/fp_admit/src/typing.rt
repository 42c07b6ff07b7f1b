//! The types of a group's functions, and its clauses as terms.
ghost use Rattle.std.specs.Prelude.{◌≡◌, true, length, IfOk};
ghost use Rattle.fp_infer.specs.Elaborated.{AreTypesIn};
ghost use Rattle.fp_kernel.specs.Start.{signature_of};
ghost use Rattle.fp_admit.specs.Admitted.{AreEach, IsTyped, typed_heads};

use crate::spec::GroupSpec;
use fp_commands::Head;
use fp_constrain::{Constants, Question, plain_type};
use fp_infer::{
    InferFault, Search, Typed, elaborate_with, find_types, first_wrong, first_wrong_in_type,
};
use fp_outcome::FunFault;
use fp_raw::Raw;
use fp_term::{Items, Name, Signature, Term, Ty};
use fp_theory::Theory;
use std::alloc::{AllocError, Global};

/// The functions with their written types.
pub(crate) fn written_types(alloc: Global, heads: &[Head]) -> Result<Items<(Name, Ty)>, AllocError>
    ensures { IfOk result (λ exact. exact ≡ typed_heads heads.now) }
{
    let mut exact = Items::new(alloc);
    for head in heads {
        let ty = plain_type(alloc, &head.ty)?;
        exact.push((head.name.copy()?, ty))?;
    }
    Ok(exact)
}

// Of two places with names the first; of equal places the one that was found before.
fn sooner(best: Option<(u32, Name)>, other: Option<(u32, Name)>) -> Option<(u32, Name)> {
    match (best, other) {
        (None, other) => other,
        (Some(best), None) => Some(best),
        (Some(best), Some(other)) => if other.0 < best.0 {
            Some(other)
        } else {
            Some(best)
        },
    }
}

// The first wrong name of the functions' types and of the clauses.
fn first_wrong_name(
    search: Search,
    constants: &Constants<'_>,
    spec: GroupSpec<'_>,
) -> Result<Option<(u32, Name)>, AllocError> {
    let mut best = None;
    for head in spec.heads {
        best = sooner(
            best,
            first_wrong_in_type(search, constants.signature, &head.ty)?,
        );
    }
    for raw in spec.clauses {
        best = sooner(best, first_wrong(search, constants, raw)?);
    }
    Ok(best)
}

fn check_written_names(constants: &Constants<'_>, spec: GroupSpec<'_>) -> Result<(), FunFault> {
    if let Some((at, name)) = first_wrong_name(Search::Unknown, constants, spec)? {
        return Err(FunFault::UnknownName { at, name });
    }
    if let Some((at, name)) = first_wrong_name(Search::Arity, constants, spec)? {
        return Err(FunFault::BadArity { at, name });
    }
    Ok(())
}

// The place of the first clash of a clause.
fn clash_in<'x>(
    alloc: Global,
    constants: &'x Constants<'x>,
    raw: &'x Raw,
) -> Result<Option<u32>, AllocError> {
    let question = Question {
        constants,
        given: &[],
        want: None,
        raw,
    };
    match find_types(alloc, &question)? {
        Typed::Found(_types) => Ok(None),
        Typed::ClashAt(at) => Ok(Some(at)),
    }
}

fn check_clashes(
    alloc: Global,
    constants: &Constants<'_>,
    clauses: &[Raw],
) -> Result<(), FunFault> {
    for raw in clauses {
        if let Some(at) = clash_in(alloc, &*constants, raw)? {
            return Err(FunFault::Clash { at });
        }
    }
    Ok(())
}

fn of_term(fault: InferFault) -> FunFault {
    match fault {
        InferFault::UnknownName(name, at) => FunFault::UnknownName { at, name },
        InferFault::BadArity(name, at) => FunFault::BadArity { at, name },
        InferFault::Clash(at) => FunFault::Clash { at },
        InferFault::TypeTooLarge(at) => FunFault::TypeTooLarge { at },
        InferFault::NoMemory => FunFault::NoMemory,
    }
}

// Are they types of the signature?
fn are_types(signature: &Signature, exact: &[(Name, Ty)]) -> bool
    ensures { result ≡ true → AreTypesIn signature.now exact.now }
{
    match exact {
        [] => true,
        [first, rest @ ..] => {
            signature.unknown_in_type(&first.1).is_none() && are_types(signature, rest)
        }
    }
}

fn typed_clause(
    alloc: Global,
    theory: &Theory,
    exact: &[(Name, Ty)],
    raw: &Raw,
) -> Result<Term, FunFault>
    requires { AreTypesIn (signature_of theory.now.defs) exact.now }
    ensures { IfOk result (IsTyped (signature_of theory.now.defs) exact.now raw.now) }
{
    let constants = Constants {
        signature: theory.signature(),
        exact,
    };
    match elaborate_with(alloc, raw, &constants, &[], None) {
        Ok(term) => Ok(term),
        Err(fault) => Err(of_term(fault)),
    }
}

fn typed_each(
    alloc: Global,
    theory: &Theory,
    exact: &[(Name, Ty)],
    clauses: &[Raw],
) -> Result<Items<Term>, FunFault>
    requires { AreTypesIn (signature_of theory.now.defs) exact.now }
    ensures { IfOk result (AreEach (IsTyped (signature_of theory.now.defs) exact.now) clauses.now) }
{
    let mut terms = Items::new(alloc);
    for raw in clauses {
        terms.push(typed_clause(alloc, theory, exact, raw)?)?;
    }
    Ok(terms)
}

/// The terms that the clauses stand for, where the functions are constants of exactly these types. Each kind of fault is
/// looked for in all types and clauses before the next.
pub(crate) fn typed_clauses(
    alloc: Global,
    theory: &Theory,
    exact: &[(Name, Ty)],
    spec: GroupSpec<'_>,
) -> Result<Items<Term>, FunFault>
    ensures { IfOk result (AreEach (IsTyped (signature_of theory.now.defs) exact.now) spec.entry.clauses.now) }
{
    let signature = theory.signature();
    let constants = Constants { signature, exact };
    check_written_names(&constants, spec)?;
    check_clashes(alloc, &constants, spec.clauses)?;
    if !are_types(signature, exact) {
        return Err(FunFault::NoMemory);
    }
    typed_each(alloc, theory, exact, spec.clauses)
}
