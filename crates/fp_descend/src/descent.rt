//! Each call descends in the relation of the ranks.
ghost use Rattle.std.specs.Prelude.{◌≡◌, OnOk};

use crate::cells::Stated;
use crate::comparing::{Known, extremes_compared};
use crate::levels::{measured, value_at};
use crate::nesting::Step;
use crate::numbers::{Comparison, relation};
use crate::ranks::Mapping;
use crate::rows::{Row, row_of};
use fp_forms::parts_by;
use fp_group::CallSite;
use fp_meaning::Setting;
use fp_proof::{Line, Proof, Stop};
use fp_term::Term;
use std::alloc::Global;

// How the rank's values of the call and of its caller compare, at their arguments.
fn values_compared(
    proof: &mut Proof<'_>,
    row: &Row,
    known: &Known<'_>,
    comparison: Comparison,
    mapping: &Mapping,
    site: &CallSite,
) -> Result<Line, Stop>
    ensures { OnOk result (proof.new ≡ proof.old) }
{
    let theirs = mapping.set(site.callee as usize)?;
    let own = mapping.set(site.caller as usize)?;
    let lows = measured(proof.alloc(), theirs, &row.argument)?;
    let highs = measured(proof.alloc(), own, &row.pattern)?;
    let extremum = mapping.extremum;
    extremes_compared(
        proof,
        known,
        extremum,
        comparison,
        lows.as_slice(),
        highs.as_slice(),
    )
}

// `(m z < m x) = (s < t)`, of the rank's values `s` of the call and `t` of its caller.
fn comparison_at(
    proof: &mut Proof<'_>,
    row: &Row,
    comparison: Comparison,
    measure: &Term,
    count: usize,
    site: &CallSite,
) -> Result<Line, Stop>
    ensures { OnOk result (proof.new ≡ proof.old) }
{
    let relation = relation(proof.alloc(), comparison)?;
    let low = value_at(proof, measure, row.there, count, site.callee as usize)?;
    let high = value_at(proof, measure, row.here, count, site.caller as usize)?;
    let made = proof.ap(&relation, low)?;
    proof.mk_comb(made, high)
}

// `m z < m x`, or `m z <= m x`, for the measure of a rank.
fn at_rank(
    proof: &mut Proof<'_>,
    setting: &Setting<'_>,
    row: &Row,
    known: &Known<'_>,
    comparison: Comparison,
    step: &Step,
    site: &CallSite,
) -> Result<Line, Stop>
    ensures { OnOk result (proof.new ≡ proof.old) }
{
    let count = setting.arguments.as_slice().len();
    let held = values_compared(proof, row, known, comparison, &step.mapping, site)?;
    let same = comparison_at(proof, row, comparison, &step.measure, count, site)?;
    let same = proof.sym(same)?;
    proof.eq_mp(same, held)
}

// The two parts of a disjunction.
#[tactic(auto, unfolding(fp_term::specs::Names::is_name))]
fn disjuncts(alloc: Global, formula: &Term) -> Result<(Term, Term), Stop> {
    match parts_by(alloc, b"or", formula)? {
        Some((first, second)) => Ok((first.copy()?, second.copy()?)),
        None => Err(Stop::Stuck),
    }
}

// The relation from the deciding rank on, since the call is less there.
fn decided_here(
    proof: &mut Proof<'_>,
    setting: &Setting<'_>,
    row: &Row,
    known: &Known<'_>,
    step: &Step,
    site: &CallSite,
) -> Result<Line, Stop>
    ensures { OnOk result (proof.new ≡ proof.old) }
{
    let formula = proof.right(step.unfolded)?;
    let (_, rest) = disjuncts(proof.alloc(), &formula)?;
    let less = at_rank(proof, setting, row, known, Comparison::Less, step, site)?;
    let either = proof.disj1(less, &rest)?;
    let same = proof.sym(step.unfolded)?;
    proof.eq_mp(same, either)
}

// The relation from a rank on, since the call is at most as large there and descends in the later ranks.
fn decided_later(
    proof: &mut Proof<'_>,
    setting: &Setting<'_>,
    row: &Row,
    known: &Known<'_>,
    step: &Step,
    site: &CallSite,
    later: Line,
) -> Result<Line, Stop>
    ensures { OnOk result (proof.new ≡ proof.old) }
{
    let formula = proof.right(step.unfolded)?;
    let (less, _) = disjuncts(proof.alloc(), &formula)?;
    let most = at_rank(proof, setting, row, known, Comparison::AtMost, step, site)?;
    let both = proof.conj(most, later)?;
    let either = proof.disj2(&less, both)?;
    let same = proof.sym(step.unfolded)?;
    proof.eq_mp(same, either)
}

// The relation of the ranks, which stand the last one first; the deciding one is the first that is given.
fn in_relation(
    proof: &mut Proof<'_>,
    setting: &Setting<'_>,
    row: &Row,
    known: &Known<'_>,
    steps: &[Step],
    site: &CallSite,
) -> Result<Line, Stop>
    ensures { OnOk result (proof.new ≡ proof.old) }
{
    let Some((deciding, earlier)) = steps.split_first() else {
        return Err(Stop::Stuck);
    };
    let mut line = decided_here(proof, setting, row, known, deciding, site)?;
    for step in earlier {
        line = decided_later(proof, setting, row, known, step, site, line)?;
    }
    Ok(line)
}

// The ranks up to the one at that position, the last one first.
fn up_to(steps: &[Step], position: u32) -> Result<&[Step], Stop> {
    let position = position as usize;
    if position >= steps.len() {
        return Err(Stop::Stuck);
    }
    Ok(&steps[steps.len() - 1 - position..])
}

/// What the row of that index says leads to the relation of the ranks; the rank at that position decides the row.
pub(crate) fn descends(
    proof: &mut Proof<'_>,
    setting: &Setting<'_>,
    index: usize,
    position: u32,
    steps: &[Step],
    cells: &[Stated],
) -> Result<Line, Stop>
    ensures { OnOk result (proof.new ≡ proof.old) }
{
    let site = setting.site(index)?;
    let row = row_of(proof, setting, index)?;
    let known = Known {
        cells,
        guards: site.guards.as_slice(),
        held: row.guards.as_slice(),
    };
    let steps = up_to(steps, position)?;
    let line = in_relation(proof, setting, &row, &known, steps, site)?;
    proof.disch(&row.part, line)
}
