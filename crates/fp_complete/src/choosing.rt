//! Which clause an argument is an instance of, and at which variable it is split.

use fp_match::{Inst, match_term};
use fp_meaning::Setting;
use fp_proof::Stop;
use fp_term::{Items, Name, Node, Term, Ty, free_variables};
use std::alloc::Global;

// Do the two constants, or what they are applied to, have different constructors?
fn differs(name: &Name, term: &Term) -> bool {
    match term.node() {
        Node::Const { name: other, .. } => !name.equals(other),
        _ => true,
    }
}

/// Have the two patterns no common instance, since some place has two constructors that differ?
pub fn clash(p: &Term, q: &Term) -> bool {
    if is_variable(p) || is_variable(q) {
        return false;
    }
    match p.node() {
        Node::Const { name, .. } => differs(name, q),
        Node::App { fun: f, arg: x } => match q.node() {
            Node::App { fun: g, arg: y } => clash(f, g) || clash(x, y),
            _ => true,
        },
        _ => false,
    }
}

fn is_variable(term: &Term) -> bool {
    matches!(term.node(), Node::Free { .. })
}

// Has the pattern `p` a constructor where `q` has the variable?
fn has_constructor_at(p: &Term, q: &Term, var: &(Name, Ty)) -> bool {
    match q.node() {
        Node::Free { name, ty } => { name.equals(&var.0) && ty.equals(&var.1) && !is_variable(p) }
        Node::App { fun: g, arg: y } => match p.node() {
            Node::App { fun: f, arg: x } => {
                has_constructor_at(f, g, var) || has_constructor_at(x, y, var)
            }
            _ => false,
        },
        _ => false,
    }
}

/// The clause that the argument is an instance of, with the terms for the clause's variables.
pub fn clause_of(
    alloc: Global,
    setting: &Setting<'_>,
    q: &Term,
) -> Result<Option<(usize, Items<(Name, Ty, Term)>)>, Stop> {
    for j in 0..setting.group.clauses.as_slice().len() {
        if let Some(inst) = match_term(alloc, &setting.in_p(alloc, j)?, q)? {
            let Inst { types, terms } = inst;
            drop(types);
            return Ok(Some((j, terms)));
        }
    }
    Ok(None)
}

// The arguments of the clauses that have a common instance with this one.
fn compatible(alloc: Global, setting: &Setting<'_>, q: &Term) -> Result<Items<Term>, Stop> {
    let mut patterns = Items::new(alloc);
    for j in 0..setting.group.clauses.as_slice().len() {
        let pattern = setting.in_p(alloc, j)?;
        if !clash(&pattern, q) {
            patterns.push(pattern)?;
        }
    }
    Ok(patterns)
}

// How many of the patterns have no constructor where `q` has the variable.
fn without_constructor(patterns: &[Term], q: &Term, var: &(Name, Ty)) -> usize {
    let mut number = 0usize;
    for pattern in patterns {
        if !has_constructor_at(pattern, q, var) {
            number = number.saturating_add(1);
        }
    }
    number
}

// The index of the first variable where the fewest of the patterns have no constructor, and not all.
fn fewest_again(patterns: &[Term], q: &Term, vars: &[(Name, Ty)]) -> Option<usize> {
    let mut fewest = patterns.len();
    let mut best = None;
    for at in 0..vars.len() {
        let again = without_constructor(patterns, q, &vars[at]);
        if again < fewest {
            fewest = again;
            best = Some(at);
        }
    }
    best
}

/// Of the variables of an argument where some clause that has a common instance with it has a constructor, the first of
/// those where the fewest of these clauses have none, since each such clause is met again in every branch; stuck where
/// there is none.
pub fn split_variable(alloc: Global, setting: &Setting<'_>, q: &Term) -> Result<(Name, Ty), Stop> {
    let patterns = compatible(alloc, setting, q)?;
    let vars = free_variables(alloc, q)?;
    let Some(at) = fewest_again(patterns.as_slice(), q, vars.as_slice()) else {
        return Err(Stop::Stuck);
    };
    match vars.as_slice().get(at) {
        Some(var) => Ok((var.0.copy()?, var.1.copy()?)),
        None => Err(Stop::Stuck),
    }
}
