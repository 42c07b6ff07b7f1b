//! The variables and type variables of clauses.

use crate::fault::hidden_type as hides;
use fp_conclude::truth_type;
use fp_group::{Clause, Head};
use fp_outcome::FunFault;
use fp_term::{
    Items, Name, Term, Ty, add_variables, free_variables, function_of_all, hidden_type, next,
};
use std::alloc::{AllocError, Global};

fn is_among(known: &[(Name, Ty)], var: &(Name, Ty)) -> bool {
    for own in known {
        if own.0.equals(&var.0) && own.1.equals(&var.1) {
            return true;
        }
    }
    false
}

// The first variable of the right side that isn't in the patterns.
fn unbound(alloc: Global, clause: &Clause) -> Result<Option<Name>, AllocError> {
    let mut bound = Items::new(alloc);
    for pattern in clause.patterns.as_slice() {
        add_variables(&mut bound, pattern)?;
    }
    let used = free_variables(alloc, &clause.right)?;
    for var in used.as_slice() {
        if !is_among(bound.as_slice(), var) {
            return Ok(Some(var.0.copy()?));
        }
    }
    Ok(None)
}

/// Are the variables of all right sides in the patterns?
pub(crate) fn check_bound(alloc: Global, at: u32, clauses: &[Clause]) -> Result<(), FunFault> {
    let mut number = 0u32;
    for clause in clauses {
        number = next(number)?;
        if let Some(name) = unbound(alloc, clause)? {
            return Err(FunFault::NotBound {
                at,
                clause: number,
                name,
            });
        }
    }
    Ok(())
}

// Has some term a type variable that the type lacks?
fn is_hiding(terms: &[Term], ty: &Ty) -> bool {
    for term in terms {
        if hidden_type(term, ty).is_some() {
            return true;
        }
    }
    false
}

// A type that has the type variables of all arguments, and no others.
fn all_arguments(alloc: Global, heads: &[Head]) -> Result<Ty, AllocError> {
    let mut all = truth_type(alloc)?;
    for head in heads {
        all = function_of_all(alloc, head.args.as_slice(), all)?;
    }
    Ok(all)
}

/// Has each function's type all type variables of the clauses, in which all functions stand, and have the arguments of all
/// functions together?
pub(crate) fn check_hidden(
    alloc: Global,
    at: u32,
    exact: &[(Name, Ty)],
    heads: &[Head],
    terms: &[Term],
) -> Result<(), FunFault> {
    for (name, ty) in exact {
        if is_hiding(terms, ty) {
            return Err(hides(at, name));
        }
    }
    let all = all_arguments(alloc, heads)?;
    match exact {
        [(first, _), ..] => if is_hiding(terms, &all) {
            Err(hides(at, first))
        } else {
            Ok(())
        },
        [] => Ok(()),
    }
}
