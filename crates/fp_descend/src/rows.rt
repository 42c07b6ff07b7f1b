//! A row: what a call's arguments are, on what the row says.
ghost use Rattle.std.specs.Prelude.{◌≡◌, OnOk};

use fp_group::{CallSite, Head};
use fp_meaning::Setting;
use fp_proof::{Line, Proof, Stop};
use fp_shapes::{conjunctions, tuple, variable};
use fp_term::{Items, Term};
use std::alloc::Global;

/// What a row says, and what follows from it.
#[derive(Drop)]
pub(crate) struct Row {
    /// `x = in(p) /\ G1[s] /\ .. /\ z = in(a[s])`
    pub part: Term,
    /// The caller's patterns and the callee's arguments, each as one.
    pub pattern: Term,
    pub argument: Term,
    /// `x = in(p)` and `z = in(a)`
    pub here: Line,
    pub there: Line,
    /// The guards.
    pub guards: Items<Line>,
}

// The arguments of a function as one.
fn as_one(alloc: Global, head: &Head, args: &[Term]) -> Result<Term, Stop> {
    let tys = head.args.as_slice();
    if tys.is_empty() || tys.len() != args.len() {
        return Err(Stop::Stuck);
    }
    Ok(tuple(alloc, tys, args)?)
}

// The patterns of the row's clause as one.
fn pattern_of(alloc: Global, setting: &Setting<'_>, site: &CallSite) -> Result<Term, Stop> {
    let clause = setting.clause(site.clause as usize)?;
    let head = setting.head(site.caller as usize)?;
    as_one(alloc, head, clause.patterns.as_slice())
}

fn line_at(lines: &[Line], index: usize) -> Result<Line, Stop> {
    match lines.get(index) {
        Some(line) => Ok(*line),
        None => Err(Stop::Stuck),
    }
}

// `G` from `G[s]`.
fn unfolded(
    proof: &mut Proof<'_>,
    setting: &Setting<'_>,
    guard: &Term,
    held: Line,
) -> Result<Line, Stop>
    ensures { OnOk result (proof.new ≡ proof.old) }
{
    let same = setting.folded(proof, guard)?;
    let same = proof.sym(same)?;
    proof.eq_mp(same, held)
}

// The guards, from the lines of the row's facts, which stand behind the first.
fn guards_of(
    proof: &mut Proof<'_>,
    setting: &Setting<'_>,
    guards: &[Term],
    facts: &[Line],
) -> Result<Items<Line>, Stop>
    ensures { OnOk result (proof.new ≡ proof.old) }
{
    let mut lines = Items::new(proof.alloc());
    let mut index = 0;
    for guard in guards {
        index = after(index)?;
        let held = line_at(facts, index)?;
        lines.push(unfolded(proof, setting, guard, held)?)?;
    }
    Ok(lines)
}

fn after(index: usize) -> Result<usize, Stop> {
    match index.checked_add(1) {
        Some(next) => Ok(next),
        None => Err(Stop::NoMemory),
    }
}

// `z = in(a)` from `z = in(a[s])`, the last fact.
fn call_place(
    proof: &mut Proof<'_>,
    setting: &Setting<'_>,
    index: usize,
    facts: &[Line],
) -> Result<Line, Stop>
    ensures { OnOk result (proof.new ≡ proof.old) }
{
    let Some(last) = facts.last() else {
        return Err(Stop::Stuck);
    };
    let argument = setting.in_a(proof.alloc(), index)?;
    let same = setting.folded(proof, &argument)?;
    let same = proof.sym(same)?;
    proof.trans(*last, same)
}

// The row's facts, with what they say together.
fn facts_of(
    proof: &mut Proof<'_>,
    setting: &Setting<'_>,
    index: usize,
) -> Result<(Term, Items<Line>), Stop>
    ensures { OnOk result (proof.new ≡ proof.old) }
{
    let alloc = proof.alloc();
    let z = variable(alloc, &setting.z.0, &setting.z.1)?;
    let x = variable(alloc, &setting.x.0, &setting.x.1)?;
    let formulas = setting.row_facts(alloc, index, &setting.sum, &z, &x)?;
    let part = conjunctions(alloc, formulas.as_slice())?;
    let held = proof.assume(&part)?;
    let facts = proof.conjuncts(held, formulas.as_slice().len())?;
    Ok((part, facts))
}

/// The row of that index.
pub(crate) fn row_of(
    proof: &mut Proof<'_>,
    setting: &Setting<'_>,
    index: usize,
) -> Result<Row, Stop>
    ensures { OnOk result (proof.new ≡ proof.old) }
{
    let alloc = proof.alloc();
    let site = setting.site(index)?;
    let pattern = pattern_of(alloc, setting, site)?;
    let argument = as_one(
        alloc,
        setting.head(site.callee as usize)?,
        site.args.as_slice(),
    )?;
    let (part, facts) = facts_of(proof, setting, index)?;
    let here = line_at(facts.as_slice(), 0)?;
    let there = call_place(proof, setting, index, facts.as_slice())?;
    let guards = guards_of(proof, setting, site.guards.as_slice(), facts.as_slice())?;
    Ok(Row {
        part,
        pattern,
        argument,
        here,
        there,
        guards,
    })
}
