//! Cases of the argument.
ghost use Rattle.std.specs.Prelude.{◌≡◌, OnOk};

use crate::leaf::{leaf, one_pair, premises_at};
use crate::live::{Live, as_term, narrowed};
use fp_complete::{Branch, branches, clause_of, joined, split_variable};
use fp_conclude::equation;
use fp_meaning::Setting;
use fp_proof::{Line, Proof, Stop};
use fp_shapes::implications;
use fp_term::{Items, Name, Term, Ty, inst};
use std::alloc::Global;

// `HH --> f_clauses h q y --> f_clauses k q w --> y = w`
fn formula_at(alloc: Global, setting: &Setting<'_>, q: &Term) -> Result<Term, Stop> {
    let premises = premises_at(alloc, setting, q)?;
    let y = as_term(alloc, &setting.y)?;
    let same = equation(alloc, &setting.y.1, &y, &as_term(alloc, &setting.w)?)?;
    let mut all = Items::new(alloc);
    all.push(premises.agree.copy()?)?;
    all.push(premises.first.copy()?)?;
    all.push(premises.second.copy()?)?;
    Ok(implications(alloc, all.as_slice(), &same)?)
}

// What is known of a clause's right side.
fn right_of(rights: &[Line], j: usize) -> Result<Line, Stop> {
    match rights.get(j) {
        Some(right) => Ok(*right),
        None => Err(Stop::Stuck),
    }
}

// A pattern, and what is known of it.
#[derive(Drop)]
struct Narrower {
    q: Term,
    live: Live,
}

// The pattern with the branch's value for the variable, and what is known of it.
fn with_value(
    proof: &mut Proof<'_>,
    q: &Term,
    live: &Live,
    var: &(Name, Ty),
    branch: &Branch,
) -> Result<Narrower, Stop>
    ensures { OnOk result (proof.new ≡ proof.old) }
{
    let alloc = proof.alloc();
    let pairs = one_pair(alloc, var, &branch.value)?;
    let line = proof.inst(live.line, pairs.as_slice())?;
    let mut clauses = Items::new(alloc);
    for j in live.clauses.as_slice() {
        clauses.push(*j)?;
    }
    Ok(Narrower {
        q: inst(alloc, q, pairs.as_slice())?,
        live: Live { clauses, line },
    })
}

#[cycle(cases)]
fn branch_case(
    proof: &mut Proof<'_>,
    setting: &Setting<'_>,
    rights: &[Line],
    levels: u32,
    q: &Term,
    live: &Live,
    var: &(Name, Ty),
    branch: &Branch,
) -> Result<Line, Stop>
    ensures { OnOk result (proof.new ≡ proof.old) }
{
    let narrower = with_value(proof, q, live, var, branch)?;
    case(proof, setting, rights, levels, &narrower.q, &narrower.live)
}

#[cycle(cases)]
fn split(
    proof: &mut Proof<'_>,
    setting: &Setting<'_>,
    rights: &[Line],
    levels: u32,
    q: &Term,
    live: &Live,
) -> Result<Line, Stop>
    ensures { OnOk result (proof.new ≡ proof.old) }
{
    let var = split_variable(proof.alloc(), setting, q)?;
    let formula = formula_at(proof.alloc(), setting, q)?;
    let all = branches(proof, &var)?;
    let mut lines = Items::new(proof.alloc());
    for branch in all.as_slice() {
        let line = branch_case(proof, setting, rights, levels, q, live, &var, branch)?;
        lines.push(line)?;
    }
    joined(proof, &var, &formula, all.as_slice(), lines.as_slice())
}

/// The formula of a pattern, from its clauses; after so many splits it is stuck.
#[cycle(cases)]
pub(crate) fn case(
    proof: &mut Proof<'_>,
    setting: &Setting<'_>,
    rights: &[Line],
    levels: u32,
    q: &Term,
    live: &Live,
) -> Result<Line, Stop>
    ensures { OnOk result (proof.new ≡ proof.old) }
{
    if levels == 0 {
        return Err(Stop::Stuck);
    }
    let mark = proof.mark();
    let live = narrowed(proof, setting, q, live)?;
    let made = match clause_of(proof.alloc(), setting, q)? {
        Some((j, instance)) => {
            let right = right_of(rights, j)?;
            leaf(proof, setting, q, j, instance.as_slice(), live.line, right)?
        }
        None => split(proof, setting, rights, levels - 1, q, &live)?,
    };
    proof.keep(mark, made)
}
