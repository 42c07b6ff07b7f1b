//! A variable of a clause split into the constructors of its type.
ghost use Rattle.std.specs.Prelude.{◌≡◌, [], Some, None, IfOk, MatchOption};
ghost use Rattle.std.specs.Option.{option_copied};
ghost use Rattle.fp_term.specs.Types.{retyped, all_retyped, found_type};
ghost use Rattle.fp_term.specs.Terms.{constant, free, app};
ghost use Rattle.fp_pattern.specs.Patterns.{con_type, type_for, constructors, listed};
ghost use Rattle.fp_pattern.specs.Subtraction.{numbered, occurs, is_variable_of, is_used, IsFirstNew, IsFilled, IsPart, AreParts};

use crate::{clause, pattern, table};
use fp_group::{Clause, ConTable};
use fp_term::{Items, Name, Node, Signature, Term, Ty, TyNode, match_ty, retype};
use std::alloc::{AllocError, Global};

// The declared type at which its values have the type.
fn type_for(alloc: Global, declared: &Ty, ty: &Ty) -> Result<Option<Ty>, AllocError>
    ensures { IfOk result (λ o. o ≡ type_for (Some declared.now) ty.now) }
{
    match match_ty(alloc, pattern::outcome(declared), ty)? {
        Some(pairs) => Ok(Some(retype(alloc, declared, pairs.as_slice())?)),
        None => Ok(None),
    }
}

// The type at which the constructor gives values of the type.
fn con_type(
    alloc: Global,
    signature: &Signature,
    ty: &Ty,
    con: &Name,
) -> Result<Option<Ty>, AllocError>
    ensures { IfOk result (λ o. o ≡ con_type signature.now ty.now con.now) }
{
    match signature.const_type(con) {
        Some(declared) => type_for(alloc, declared, ty),
        None => Ok(None),
    }
}

// `v` and the number.
#[tactic(auto, unfolding(fp_term::specs::Names::is_name))]
pub(crate) fn numbered(alloc: Global, number: u32) -> Result<Name, AllocError>
    ensures { IfOk result (λ n. n ≡ numbered number) }
{
    let stem = Name::of(alloc, b"v")?;
    fp_term::numbered(alloc, &stem, number)
}

fn is_variable_of(term: &Term, name: &Name) -> bool
    ensures { result ≡ is_variable_of term.now name.now }
{
    match term.node() {
        Node::Bound(_) => false,
        Node::Free { name: a, .. } => a.equals(name),
        Node::Const { .. } => false,
        Node::App { fun, arg } => is_variable_of(fun, name) || is_variable_of(arg, name),
        Node::Abs { body, .. } => is_variable_of(body, name),
    }
}

// The first of the numbered names that doesn't occur in the clause, nor as a variable of the head.
fn first_new(
    alloc: Global,
    function: &Name,
    clause: &Clause,
    head: &Term,
) -> Result<(u32, Name), AllocError>
    ensures first { IfOk result (λ pair. IsFirstNew function.now clause.now head.now pair.0) }
    ensures name { IfOk result (λ pair. pair.1 ≡ numbered pair.0) }
{
    for number in 1..u32::MAX {
        let name = numbered(alloc, number)?;
        if !(clause::occurs(function, clause, &name) || is_variable_of(head, &name)) {
            return Ok((number, name));
        }
    }
    Err(AllocError)
}

fn with_variable(alloc: Global, head: Term, name: Name, ty: &Ty) -> Result<Term, AllocError>
    ensures { IfOk result (λ t. t ≡ app head (free name ty.now)) }
{
    Term::app(alloc, head, Term::free(alloc, name, ty.copy()?)?)
}

// The head with a new variable for each argument that its type takes.
fn filled(
    alloc: Global,
    function: &Name,
    clause: &Clause,
    head: Term,
    ty: &Ty,
) -> Result<Term, AllocError>
    ensures { IfOk result (λ t. IsFilled function.now clause.now head ty.now t) }
{
    match pattern::arrow(ty) {
        Some((arg, to)) => {
            let (_, name) = first_new(alloc, function, clause, &head)?;
            let head = with_variable(alloc, head, name, arg)?;
            filled(alloc, function, clause, head, to)
        }
        None => Ok(head),
    }
}

// The constructor at the type, with new variables.
fn value_of(
    alloc: Global,
    function: &Name,
    clause: &Clause,
    con: &Name,
    ty: Ty,
) -> Result<Term, AllocError>
    ensures { IfOk result (λ t. IsFilled function.now clause.now (constant con.now ty) ty t) }
{
    let head = Term::constant(alloc, con.copy()?, ty.copy()?)?;
    filled(alloc, function, clause, head, &ty)
}

// The clause with the constructor in place of the variable, where it gives values of that type.
fn part(
    alloc: Global,
    signature: &Signature,
    function: &Name,
    clause: &Clause,
    name: &Name,
    ty: &Ty,
    con: &Name,
) -> Result<Option<Clause>, AllocError>
    ensures { IfOk result (λ o. MatchOption o (con_type signature.now ty.now con.now ≡ None) (λ c. IsPart signature.now function.now clause.now name.now ty.now con.now c)) }
{
    match con_type(alloc, signature, ty, con)? {
        Some(at) => {
            let value = value_of(alloc, function, clause, con, at)?;
            Ok(Some(clause::with_value(alloc, clause, name, ty, value)?))
        }
        None => Ok(None),
    }
}

// The variable of the clause split into the constructors.
fn parts_by(
    alloc: Global,
    signature: &Signature,
    function: &Name,
    clause: &Clause,
    name: &Name,
    ty: &Ty,
    cons: &[Name],
) -> Result<Items<Clause>, AllocError>
    ensures { IfOk result (λ parts. AreParts signature.now function.now clause.now name.now ty.now cons.now parts) }
{
    let mut parts = Items::new(alloc);
    for con in cons {
        if let Some(clause) = part(alloc, signature, function, clause, name, ty, con)? {
            parts.push(clause)?;
        }
    }
    Ok(parts)
}

/// The variable of the clause split into the constructors of its type.
pub(crate) fn parts(
    alloc: Global,
    table: &ConTable,
    signature: &Signature,
    function: &Name,
    clause: &Clause,
    name: &Name,
    ty: &Ty,
) -> Result<Items<Clause>, AllocError>
    ensures { IfOk result (λ parts. AreParts signature.now function.now clause.now name.now ty.now (constructors table.now ty.now) parts) }
{
    match ty.node() {
        TyNode::Var(_) => Ok(Items::new(alloc)),
        TyNode::Con { name: of, .. } => {
            let cons = table::listed(table, of);
            parts_by(alloc, signature, function, clause, name, ty, cons)
        }
    }
}
