//! Determinacy.
ghost use Rattle.std.specs.Prelude.{◌≡◌, OnOk};

use crate::leaf::{Premises, premises_at, right_equal};
use crate::live::{Live, as_term};
use crate::tree::case;
use fp_conclude::conjunction;
use fp_meaning::{Setting, det_statement};
use fp_proof::{Line, Proof, Stop};
use fp_term::{Items, Name, Term, Ty, nodes};
use std::alloc::Global;

// What is known of the clauses' right sides.
fn rights(proof: &mut Proof<'_>, setting: &Setting<'_>) -> Result<Items<Line>, Stop>
    ensures { OnOk result (proof.new ≡ proof.old) }
{
    let mut lines = Items::new(proof.alloc());
    for j in 0..setting.group.clauses.as_slice().len() {
        let line = right_equal(proof, setting, j)?;
        lines.push(line)?;
    }
    Ok(lines)
}

// More than the splits on any way: each makes a constructor of some clause.
fn split_limit(alloc: Global, setting: &Setting<'_>) -> Result<u32, Stop> {
    let mut limit = 1u32;
    for j in 0..setting.group.clauses.as_slice().len() {
        let pattern = setting.in_p(alloc, j)?;
        let Ok(count) = u32::try_from(nodes(&pattern)) else {
            return Err(Stop::NoMemory);
        };
        limit = limit.saturating_add(count);
    }
    Ok(limit)
}

// All clauses, with what the relation means.
fn all_live(
    proof: &mut Proof<'_>,
    setting: &Setting<'_>,
    x: &Term,
    premises: &Premises,
) -> Result<Live, Stop>
    ensures { OnOk result (proof.new ≡ proof.old) }
{
    let alloc = proof.alloc();
    let mut clauses = Items::new(alloc);
    for j in 0..setting.group.clauses.as_slice().len() {
        clauses.push(j)?;
    }
    let h = as_term(alloc, &setting.h)?;
    let y = as_term(alloc, &setting.y)?;
    let unfolded = setting.unfolded_clauses(proof, &h, x, &y)?;
    let line = start(proof, &premises.first, unfolded)?;
    Ok(Live { clauses, line })
}

// `p --> q` from `p = q`.
fn start(proof: &mut Proof<'_>, formula: &Term, unfolded: Line) -> Result<Line, Stop>
    ensures { OnOk result (proof.new ≡ proof.old) }
{
    let held = proof.assume(formula)?;
    let made = proof.eq_mp(unfolded, held)?;
    proof.disch(formula, made)
}

// `p /\ q /\ r --> t` from `p --> q --> r --> t`.
fn on_conjunction(proof: &mut Proof<'_>, premises: &Premises, rule: Line) -> Result<Line, Stop>
    ensures { OnOk result (proof.new ≡ proof.old) }
{
    let alloc = proof.alloc();
    let values = conjunction(alloc, &premises.first, &premises.second)?;
    let all = conjunction(alloc, &premises.agree, &values)?;
    let held = proof.assume(&all)?;
    let parts = proof.conjuncts(held, 3)?;
    let made = proof.mp_all(rule, parts.as_slice())?;
    proof.disch(&all, made)
}

// The letters over which the statement quantifies.
fn letters(alloc: Global, setting: &Setting<'_>) -> Result<Items<(Name, Ty)>, Stop> {
    let mut vars = Items::new(alloc);
    vars.push((setting.h.0.copy()?, setting.h.1.copy()?))?;
    vars.push((setting.k.0.copy()?, setting.k.1.copy()?))?;
    vars.push((setting.x.0.copy()?, setting.x.1.copy()?))?;
    vars.push((setting.y.0.copy()?, setting.y.1.copy()?))?;
    vars.push((setting.w.0.copy()?, setting.w.1.copy()?))?;
    Ok(vars)
}

// What is due.
fn stated(proof: &mut Proof<'_>, setting: &Setting<'_>, line: Line) -> Result<Line, Stop>
    ensures { OnOk result (proof.new ≡ proof.old) }
{
    let statement = det_statement(proof.alloc(), setting)?;
    let _theorem = proof.theorem(line, &statement)?;
    Ok(line)
}

/// Determinacy: two functions that agree on the calls of an argument leave one result at most.
pub fn prove_det(proof: &mut Proof<'_>, setting: &Setting<'_>) -> Result<Line, Stop>
    ensures { OnOk result (proof.new ≡ proof.old) }
{
    let alloc = proof.alloc();
    let mark = proof.mark();
    let rights = rights(proof, setting)?;
    let x = as_term(alloc, &setting.x)?;
    let premises = premises_at(alloc, setting, &x)?;
    let live = all_live(proof, setting, &x, &premises)?;
    let limit = split_limit(alloc, setting)?;
    let cases = case(proof, setting, rights.as_slice(), limit, &x, &live)?;
    let made = on_conjunction(proof, &premises, cases)?;
    let made = proof.alls_from(letters(alloc, setting)?.as_slice(), made)?;
    let kept = proof.keep(mark, made)?;
    stated(proof, setting, kept)
}
