//! A clause without what a pattern matches.
ghost use Rattle.std.specs.Prelude.{◌≡◌, ◌++◌, [], ◌∷◌, Some, None, IfOk, MatchOption};
ghost use Rattle.fp_pattern.specs.Subtraction.{apart, any_apart, met, first_met, IsMinus, AreMinus};

use crate::split;
use fp_group::{Clause, ConTable};
use fp_term::{Items, Name, Node, Signature, Term, Ty};
use std::alloc::{AllocError, Global};

// Does some place have two constructors that differ?
fn apart(p: &Term, q: &Term) -> bool
    ensures { result ≡ apart p.now q.now }
{
    match p.node() {
        Node::Const { name: a, .. } => match q.node() {
            Node::Const { name: b, .. } => !a.equals(b),
            Node::App { .. } => true,
            _ => false,
        },
        Node::App { fun: f, arg: x } => match q.node() {
            Node::Const { .. } => true,
            Node::App { fun: g, arg: y } => apart(f, g) || apart(x, y),
            _ => false,
        },
        _ => false,
    }
}

fn any_apart(ps: &[Term], qs: &[Term]) -> bool
    ensures { result ≡ any_apart ps.now qs.now }
{
    match ps {
        [p, ps @ ..] => match qs {
            [q, qs @ ..] => apart(p, q) || any_apart(ps, qs),
            [] => false,
        },
        [] => false,
    }
}

// The first pattern's variable at the first place where the second has a constructor.
fn met<'a>(p: &'a Term, q: &Term) -> Option<(&'a Name, &'a Ty)>
    ensures { MatchOption result (met p.now q.now ≡ None) (λ x. met p.now q.now ≡ Some (x.0.now, x.1.now)) }
{
    match p.node() {
        Node::Free { name, ty } => match q.node() {
            Node::Const { .. } => Some((name, ty)),
            Node::App { .. } => Some((name, ty)),
            _ => None,
        },
        Node::App { fun: f, arg: x } => match q.node() {
            Node::App { fun: g, arg: y } => match met(f, g) {
                Some(variable) => Some(variable),
                None => met(x, y),
            },
            _ => None,
        },
        _ => None,
    }
}

fn first_met<'a>(ps: &'a [Term], qs: &[Term]) -> Option<(&'a Name, &'a Ty)>
    ensures { MatchOption result (first_met ps.now qs.now ≡ None) (λ x. first_met ps.now qs.now ≡ Some (x.0.now, x.1.now)) }
{
    match ps {
        [p, ps @ ..] => match qs {
            [q, qs @ ..] => match met(p, q) {
                Some(variable) => Some(variable),
                None => first_met(ps, qs),
            },
            [] => None,
        },
        [] => None,
    }
}

fn only(alloc: Global, clause: &Clause) -> Result<Items<Clause>, AllocError>
    ensures { IfOk result (λ clauses. clauses ≡ clause.now ∷ []) }
{
    let mut clauses = Items::new(alloc);
    clauses.push(clause.copy(alloc)?)?;
    Ok(clauses)
}

pub(crate) fn append(
    alloc: Global,
    to: &mut Items<Clause>,
    clauses: &[Clause],
) -> Result<(), AllocError>
    ensures { IfOk result (λ _. to.new ≡ to.old ++ clauses.now) }
{
    for clause in clauses {
        to.push(clause.copy(alloc)?)?;
    }
    Ok(())
}

/// What is left of the clause without what the patterns match.
#[cycle(minus)]
pub(crate) fn minus(
    alloc: Global,
    table: &ConTable,
    signature: &Signature,
    function: &Name,
    clause: &Clause,
    q: &[Term],
) -> Result<Items<Clause>, AllocError>
    ensures { IfOk result (λ left. IsMinus table.now signature.now function.now q.now clause.now left) }
{
    if any_apart(clause.patterns.as_slice(), q) {
        return only(alloc, clause);
    }
    match first_met(clause.patterns.as_slice(), q) {
        Some((name, ty)) => {
            let parts = split::parts(alloc, table, signature, function, clause, name, ty)?;
            minus_all(alloc, table, signature, function, parts.as_slice(), q)
        }
        None => Ok(Items::new(alloc)),
    }
}

/// What is left of the clauses without what the patterns match.
#[cycle(minus)]
pub(crate) fn minus_all(
    alloc: Global,
    table: &ConTable,
    signature: &Signature,
    function: &Name,
    clauses: &[Clause],
    q: &[Term],
) -> Result<Items<Clause>, AllocError>
    ensures { IfOk result (λ left. AreMinus table.now signature.now function.now q.now clauses.now left) }
{
    let mut left = Items::new(alloc);
    for clause in clauses {
        let of_clause = minus(alloc, table, signature, function, clause, q)?;
        append(alloc, &mut left, of_clause.as_slice())?;
    }
    Ok(left)
}
