//! The relations unfolded at the variables, and what makes them hold.
ghost use Rattle.std.specs.Prelude.{◌≡◌, OnOk};

use crate::lemmas::definition;
use crate::shared::{Constants, Meaning, Variables};
use fp_group::{CallSite, Clause, Group, copy_variables};
use fp_proof::{Line, Proof, Stop};
use fp_shapes::{disjunctions, variable};
use fp_spec::{clause_fact, clause_part, clause_variables, row_fact, row_part};
use fp_term::{Items, Name, Term, Ty};
use std::alloc::{AllocError, Global};

/// Terms at which a relation is taken.
#[derive(Drop)]
struct Place {
    h: Term,
    first: Term,
    second: Term,
}

fn place_at(
    alloc: Global,
    h: &(Name, Ty),
    first: &(Name, Ty),
    second: &(Name, Ty),
) -> Result<Place, AllocError> {
    Ok(Place {
        h: variable(alloc, &h.0, &h.1)?,
        first: variable(alloc, &first.0, &first.1)?,
        second: variable(alloc, &second.0, &second.1)?,
    })
}

// The constant at the three terms, contracted.
fn unfolded(proof: &mut Proof<'_>, constant: &Term, place: &Place) -> Result<Line, Stop>
    ensures { OnOk result (proof.new ≡ proof.old) }
{
    let mut terms = Items::new(proof.alloc());
    terms.push(place.h.copy()?)?;
    terms.push(place.first.copy()?)?;
    terms.push(place.second.copy()?)?;
    let line = definition(proof, constant)?;
    proof.applied_to(line, terms.as_slice())
}

// From a fact about variables to what the rule gives, whose premise begins with the part that says that there are such
// values; the other parts behind it are this formula, where there are any.
fn introduced(
    proof: &mut Proof<'_>,
    fact: &Term,
    vars: &[(Name, Ty)],
    behind: Option<&Term>,
    rule: Line,
) -> Result<Line, Stop>
    ensures { OnOk result (proof.new ≡ proof.old) }
{
    let mark = proof.mark();
    let held = proof.assume(fact)?;
    let mut some = proof.somes_from(vars, held)?;
    if let Some(behind) = behind {
        some = proof.disj1(some, behind)?;
    }
    let whole = proof.mp(rule, some)?;
    let made = proof.disch(fact, whole)?;
    proof.keep(mark, made)
}

// `r --> q` from `p \/ r --> q`.
fn without_first(
    proof: &mut Proof<'_>,
    first: &Term,
    behind: &Term,
    rule: Line,
) -> Result<Line, Stop>
    ensures { OnOk result (proof.new ≡ proof.old) }
{
    let held = proof.assume(behind)?;
    let either = proof.disj2(first, held)?;
    let whole = proof.mp(rule, either)?;
    proof.disch(behind, whole)
}

// `p --> q` from `q = p`.
fn folding_rule(proof: &mut Proof<'_>, unfolded: Line) -> Result<Line, Stop>
    ensures { OnOk result (proof.new ≡ proof.old) }
{
    let meaning = proof.right(unfolded)?;
    let held = proof.assume(&meaning)?;
    let folding = proof.sym(unfolded)?;
    let whole = proof.eq_mp(folding, held)?;
    proof.disch(&meaning, whole)
}

// The disjunction of the parts behind the index, where there are any.
fn parts_behind(alloc: Global, parts: &[Term], index: usize) -> Result<Option<Term>, AllocError> {
    if index >= parts.len() || index + 1 == parts.len() {
        return Ok(None);
    }
    Ok(Some(disjunctions(alloc, &parts[index + 1..])?))
}

// The rule whose premise has one part less, where parts are behind it.
fn next_rule(
    proof: &mut Proof<'_>,
    first: &Term,
    behind: Option<&Term>,
    rule: Line,
) -> Result<Line, Stop>
    ensures { OnOk result (proof.new ≡ proof.old) }
{
    match behind {
        Some(behind) => without_first(proof, first, behind, rule),
        None => Ok(rule),
    }
}

fn clause_parts(alloc: Global, group: &Group, place: &Place) -> Result<Items<Term>, AllocError> {
    let mut parts = Items::new(alloc);
    let heads = group.heads.as_slice();
    for clause in group.clauses.as_slice() {
        let part = clause_part(alloc, heads, &place.h, &place.first, &place.second, clause)?;
        parts.push(part)?;
    }
    Ok(parts)
}

fn row_parts(alloc: Global, group: &Group, place: &Place) -> Result<Items<Term>, AllocError> {
    let mut parts = Items::new(alloc);
    let heads = group.heads.as_slice();
    let clauses = group.clauses.as_slice();
    for site in group.sites.as_slice() {
        let h = &place.h;
        let part = row_part(alloc, heads, clauses, h, &place.first, &place.second, site)?;
        parts.push(part)?;
    }
    Ok(parts)
}

fn clause_rule(
    proof: &mut Proof<'_>,
    group: &Group,
    place: &Place,
    clause: &Clause,
    behind: Option<&Term>,
    rule: Line,
) -> Result<Line, Stop>
    ensures { OnOk result (proof.new ≡ proof.old) }
{
    let alloc = proof.alloc();
    let heads = group.heads.as_slice();
    let fact = clause_fact(alloc, heads, &place.h, &place.first, &place.second, clause)?;
    let vars = clause_variables(alloc, clause)?;
    introduced(proof, &fact, vars.as_slice(), behind, rule)
}

fn row_variables(
    alloc: Global,
    clause: &Clause,
    site: &CallSite,
) -> Result<Items<(Name, Ty)>, AllocError> {
    let vars = clause_variables(alloc, clause)?;
    vars.extended(copy_variables(alloc, site.vars.as_slice())?)
}

fn row_rule(
    proof: &mut Proof<'_>,
    group: &Group,
    place: &Place,
    site: &CallSite,
    behind: Option<&Term>,
    rule: Line,
) -> Result<Line, Stop>
    ensures { OnOk result (proof.new ≡ proof.old) }
{
    let alloc = proof.alloc();
    let heads = group.heads.as_slice();
    let Some(clause) = group.clauses.as_slice().get(site.clause as usize) else {
        return Err(Stop::Stuck);
    };
    let h = &place.h;
    let fact = row_fact(alloc, heads, h, &place.first, &place.second, clause, site)?;
    let vars = row_variables(alloc, clause, site)?;
    introduced(proof, &fact, vars.as_slice(), behind, rule)
}

fn clause_rules(
    proof: &mut Proof<'_>,
    group: &Group,
    place: &Place,
    unfolded: Line,
) -> Result<Items<Line>, Stop>
    ensures { OnOk result (proof.new ≡ proof.old) }
{
    let all = clause_parts(proof.alloc(), group, place)?;
    let parts = all.as_slice();
    let mut rest = folding_rule(proof, unfolded)?;
    let mut rules = Items::new(proof.alloc());
    let clauses = group.clauses.as_slice();
    for index in 0..clauses.len() {
        if index >= parts.len() {
            return Err(Stop::Stuck);
        }
        let behind = parts_behind(proof.alloc(), parts, index)?;
        rules.push(clause_rule(proof, group, place, &clauses[index], behind.as_ref(), rest)?)?;
        rest = next_rule(proof, &parts[index], behind.as_ref(), rest)?;
    }
    Ok(rules)
}

fn row_rules(
    proof: &mut Proof<'_>,
    group: &Group,
    place: &Place,
    unfolded: Line,
) -> Result<Items<Line>, Stop>
    ensures { OnOk result (proof.new ≡ proof.old) }
{
    let all = row_parts(proof.alloc(), group, place)?;
    let parts = all.as_slice();
    let mut rest = folding_rule(proof, unfolded)?;
    let mut rules = Items::new(proof.alloc());
    let sites = group.sites.as_slice();
    for index in 0..sites.len() {
        if index >= parts.len() {
            return Err(Stop::Stuck);
        }
        let behind = parts_behind(proof.alloc(), parts, index)?;
        rules.push(row_rule(proof, group, place, &sites[index], behind.as_ref(), rest)?)?;
        rest = next_rule(proof, &parts[index], behind.as_ref(), rest)?;
    }
    Ok(rules)
}

/// The two relations at the variables, and their rules.
pub(crate) fn meaning_of(
    proof: &mut Proof<'_>,
    group: &Group,
    variables: &Variables,
    constants: &Constants,
) -> Result<Meaning, Stop>
    ensures { OnOk result (proof.new ≡ proof.old) }
{
    let alloc = proof.alloc();
    let clause = place_at(alloc, &variables.h, &variables.x, &variables.y)?;
    let clauses = unfolded(proof, &constants.clauses, &clause)?;
    let clause_rules = clause_rules(proof, group, &clause, clauses)?;
    let row = place_at(alloc, &variables.h, &variables.z, &variables.x)?;
    let calls = unfolded(proof, &constants.calls, &row)?;
    let row_rules = row_rules(proof, group, &row, calls)?;
    Ok(Meaning {
        clauses,
        calls,
        clause_rules,
        row_rules,
    })
}
