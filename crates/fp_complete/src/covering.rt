//! Completeness.
ghost use Rattle.std.specs.Prelude.{◌≡◌, OnOk};

use crate::branching::{Branch, branches, joined};
use crate::choosing::{clause_of, split_variable};
use fp_meaning::Setting;
use fp_proof::{Line, Proof, Stop};
use fp_shapes::{for_somes, variable};
use fp_term::{Items, Name, Term, Ty, inst};
use std::alloc::{AllocError, Global};
use std::slice;

// How many splits there may be one inside another.
const DEEPEST: u32 = 4000;

// `?y. f_clauses h q y`
fn some_value(alloc: Global, setting: &Setting<'_>, q: &Term) -> Result<Term, Stop> {
    let h = variable(alloc, &setting.h.0, &setting.h.1)?;
    let y = variable(alloc, &setting.y.0, &setting.y.1)?;
    let holds = setting.holds_clauses(alloc, &h, q, &y)?;
    Ok(for_somes(alloc, slice::from_ref(&setting.y), &holds)?)
}

// `?y. f_clauses h (in(p)) y`, of a clause.
fn covered_clause(proof: &mut Proof<'_>, setting: &Setting<'_>, j: usize) -> Result<Line, Stop>
    ensures { OnOk result (proof.new ≡ proof.old) }
{
    let alloc = proof.alloc();
    let h = variable(alloc, &setting.h.0, &setting.h.1)?;
    let argument = setting.in_p(alloc, j)?;
    let value = setting.inr_r(alloc, j, &h)?;
    let held = setting.clause_holds(proof, j, &h, &argument, &value)?;
    let some = some_value(alloc, setting, &argument)?;
    proof.exists(&some, &value, held)
}

// The argument with the value for the variable.
fn with_value(alloc: Global, q: &Term, var: &(Name, Ty), value: &Term) -> Result<Term, AllocError> {
    let pair = (var.0.copy()?, var.1.copy()?, value.copy()?);
    inst(alloc, q, slice::from_ref(&pair))
}

// `?y. f_clauses h q y`, by at most so many splits one inside another.
#[cycle(covered)]
fn covered(
    proof: &mut Proof<'_>,
    setting: &Setting<'_>,
    q: &Term,
    levels: u32,
) -> Result<Line, Stop>
    ensures { OnOk result (proof.new ≡ proof.old) }
{
    match clause_of(proof.alloc(), setting, q)? {
        Some((j, pairs)) => {
            let line = covered_clause(proof, setting, j)?;
            proof.inst(line, pairs.as_slice())
        }
        None => {
            if levels == 0 {
                return Err(Stop::Stuck);
            }
            covered_by_split(proof, setting, q, levels - 1)
        }
    }
}

// The same of each branch.
#[cycle(covered)]
fn covered_branches(
    proof: &mut Proof<'_>,
    setting: &Setting<'_>,
    q: &Term,
    var: &(Name, Ty),
    branches: &[Branch],
    levels: u32,
) -> Result<Items<Line>, Stop>
    ensures { OnOk result (proof.new ≡ proof.old) }
{
    let mut lines = Items::new(proof.alloc());
    for branch in branches {
        let to = with_value(proof.alloc(), q, var, &branch.value)?;
        lines.push(covered(proof, setting, &to, levels)?)?;
    }
    Ok(lines)
}

#[cycle(covered)]
fn covered_by_split(
    proof: &mut Proof<'_>,
    setting: &Setting<'_>,
    q: &Term,
    levels: u32,
) -> Result<Line, Stop>
    ensures { OnOk result (proof.new ≡ proof.old) }
{
    let mark = proof.mark();
    let var = split_variable(proof.alloc(), setting, q)?;
    let branches = branches(proof, &var)?;
    let lines = covered_branches(proof, setting, q, &var, branches.as_slice(), levels)?;
    let formula = some_value(proof.alloc(), setting, q)?;
    let line = joined(proof, &var, &formula, branches.as_slice(), lines.as_slice())?;
    proof.keep(mark, line)
}

/// Completeness: `!h x. ?y. f_clauses h x y`.
pub fn prove_complete(proof: &mut Proof<'_>, setting: &Setting<'_>) -> Result<Line, Stop>
    ensures { OnOk result (proof.new ≡ proof.old) }
{
    let mark = proof.mark();
    let x = variable(proof.alloc(), &setting.x.0, &setting.x.1)?;
    let line = covered(proof, setting, &x, DEEPEST)?;
    let line = proof.gen_all(&setting.x, line)?;
    let line = proof.gen_all(&setting.h, line)?;
    proof.keep(mark, line)
}
