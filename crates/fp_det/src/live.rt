//! The clauses that a pattern has a common instance with.
ghost use Rattle.std.specs.Prelude.{◌≡◌, OnOk};

use crate::patterns::clashed;
use fp_complete::clash;
use fp_meaning::Setting;
use fp_proof::{Line, Proof, Stop};
use fp_shapes::{disjunctions, variable};
use fp_spec::clause_part;
use fp_term::{Items, Name, Term, Ty};
use std::alloc::{AllocError, Global};

/// Indices of clauses, and `f_clauses h q y --> (?vars. q = in(p) /\ y = inr(r[h])) \/ ..` over them.
#[derive(Drop)]
pub(crate) struct Live {
    pub clauses: Items<usize>,
    pub line: Line,
}

pub(crate) fn as_term(alloc: Global, var: &(Name, Ty)) -> Result<Term, AllocError> {
    variable(alloc, &var.0, &var.1)
}

/// `q = in(p) /\ y = inr(r[h])`
pub(crate) fn fact_at(
    alloc: Global,
    setting: &Setting<'_>,
    q: &Term,
    j: usize,
) -> Result<Term, Stop> {
    let h = as_term(alloc, &setting.h)?;
    setting.clause_fact(alloc, j, &h, q, &as_term(alloc, &setting.y)?)
}

// `?vars. q = in(p) /\ y = inr(r[h])`
fn part_at(alloc: Global, setting: &Setting<'_>, q: &Term, j: usize) -> Result<Term, Stop> {
    let h = as_term(alloc, &setting.h)?;
    let y = as_term(alloc, &setting.y)?;
    let heads = setting.group.heads.as_slice();
    Ok(clause_part(alloc, heads, &h, q, &y, setting.clause(j)?)?)
}

// Those of the clauses that the pattern has a common instance with.
fn kept(
    alloc: Global,
    setting: &Setting<'_>,
    q: &Term,
    clauses: &[usize],
) -> Result<Items<usize>, Stop> {
    let mut kept = Items::new(alloc);
    for j in clauses {
        if !clash(&setting.in_p(alloc, *j)?, q) {
            kept.push(*j)?;
        }
    }
    Ok(kept)
}

fn parts_at(
    alloc: Global,
    setting: &Setting<'_>,
    q: &Term,
    clauses: &[usize],
) -> Result<Items<Term>, Stop> {
    let mut parts = Items::new(alloc);
    for j in clauses {
        parts.push(part_at(alloc, setting, q, *j)?)?;
    }
    Ok(parts)
}

fn place_of(clauses: &[usize], j: usize) -> Option<usize> {
    for at in 0..clauses.len() {
        if clauses[at] == j {
            return Some(at);
        }
    }
    None
}

// From the part of that index to all parts.
fn kept_rule(proof: &mut Proof<'_>, parts: &[Term], index: usize) -> Result<Line, Stop>
    ensures { OnOk result (proof.new ≡ proof.old) }
{
    let Some(part) = parts.get(index) else {
        return Err(Stop::Stuck);
    };
    let held = proof.assume(part)?;
    let made = proof.disjunct_from(parts, index, held)?;
    proof.disch(part, made)
}

// From the part of a clause that clashes to the goal.
fn clashing_rule(
    proof: &mut Proof<'_>,
    setting: &Setting<'_>,
    q: &Term,
    j: usize,
    goal: &Term,
) -> Result<Line, Stop>
    ensures { OnOk result (proof.new ≡ proof.old) }
{
    let fact = fact_at(proof.alloc(), setting, q, j)?;
    let vars = setting.clause_vars(proof.alloc(), j)?;
    let held = proof.assume(&fact)?;
    let equation = proof.conj1(held)?;
    let never = clashed(proof, setting, equation)?;
    let made = proof.false_elim(goal, never)?;
    let rule = proof.disch(&fact, made)?;
    proof.somes_to(vars.as_slice(), rule)
}

// From the part of a clause to the parts of those that are kept.
fn rule_of(
    proof: &mut Proof<'_>,
    setting: &Setting<'_>,
    q: &Term,
    j: usize,
    kept: &[usize],
    parts: &[Term],
    goal: &Term,
) -> Result<Line, Stop>
    ensures { OnOk result (proof.new ≡ proof.old) }
{
    match place_of(kept, j) {
        Some(index) => kept_rule(proof, parts, index),
        None => clashing_rule(proof, setting, q, j, goal),
    }
}

// The line with the parts of those clauses alone that are kept.
fn without_clashing(
    proof: &mut Proof<'_>,
    setting: &Setting<'_>,
    q: &Term,
    live: &Live,
    kept: &[usize],
) -> Result<Line, Stop>
    ensures { OnOk result (proof.new ≡ proof.old) }
{
    let parts = parts_at(proof.alloc(), setting, q, kept)?;
    let goal = disjunctions(proof.alloc(), parts.as_slice())?;
    let mut rules = Items::new(proof.alloc());
    for j in live.clauses.as_slice() {
        let rule = rule_of(proof, setting, q, *j, kept, parts.as_slice(), &goal)?;
        rules.push(rule)?;
    }
    let rule = proof.cases_to(rules.as_slice(), &goal)?;
    follows(proof, live.line, rule)
}

/// `p --> r` from `p --> q` and `q --> r`.
pub(crate) fn follows(proof: &mut Proof<'_>, first: Line, second: Line) -> Result<Line, Stop>
    ensures { OnOk result (proof.new ≡ proof.old) }
{
    let premise = proof.premise(first)?;
    let held = proof.undisch(first)?;
    let made = proof.mp(second, held)?;
    proof.disch(&premise, made)
}

/// Those of the clauses that the pattern has a common instance with.
pub(crate) fn narrowed(
    proof: &mut Proof<'_>,
    setting: &Setting<'_>,
    q: &Term,
    live: &Live,
) -> Result<Live, Stop>
    ensures { OnOk result (proof.new ≡ proof.old) }
{
    let clauses = kept(proof.alloc(), setting, q, live.clauses.as_slice())?;
    let line = if clauses.as_slice().len() == live.clauses.as_slice().len() {
        live.line
    } else {
        without_clashing(proof, setting, q, live, clauses.as_slice())?
    };
    Ok(Live { clauses, line })
}
