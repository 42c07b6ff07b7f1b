//! How the values of a call compare with those of its caller, on what the row says.
ghost use Rattle.std.specs.Prelude.{◌≡◌, OnOk};

use crate::cells::{Stated, line_of};
use crate::levels::extreme_of;
use crate::numbers::{Comparison, compared, joined_both, weakened, widened_first, widened_second};
use crate::ranks::Extremum;
use fp_proof::{Line, Proof, Stop};
use fp_shapes::implications;
use fp_term::{Items, Term};

/// What cells of a row are known: their theorems, and the row's guards with their lines.
#[derive(Clone, Copy)]
pub(crate) struct Known<'k> {
    pub cells: &'k [Stated],
    pub guards: &'k [Term],
    pub held: &'k [Line],
}

// What the theorem of a cell says, without its guards; none where there is no such theorem.
fn goal_held(proof: &mut Proof<'_>, known: &Known<'_>, goal: &Term) -> Result<Option<Line>, Stop>
    ensures { OnOk result (proof.new ≡ proof.old) }
{
    let statement = implications(proof.alloc(), known.guards, goal)?;
    match line_of(known.cells, &statement) {
        Some(line) => Ok(Some(proof.mp_all(line, known.held)?)),
        None => Ok(None),
    }
}

// The comparison of the two values by the theorem of their cell, which is about its normal form.
fn by_cell(
    proof: &mut Proof<'_>,
    known: &Known<'_>,
    comparison: Comparison,
    left: &Term,
    right: &Term,
) -> Result<Option<Line>, Stop>
    ensures { OnOk result (proof.new ≡ proof.old) }
{
    let formula = compared(proof.alloc(), comparison, left, right)?;
    let same = proof.normal(&formula)?;
    let goal = proof.right(same)?;
    match goal_held(proof, known, &goal)? {
        Some(held) => Ok(Some(turned_back(proof, same, held)?)),
        None => Ok(None),
    }
}

// `p` from `p = q` and `q`.
fn turned_back(proof: &mut Proof<'_>, same: Line, held: Line) -> Result<Line, Stop>
    ensures { OnOk result (proof.new ≡ proof.old) }
{
    let back = proof.sym(same)?;
    proof.eq_mp(back, held)
}

// `s <= t`, from the theorem of either goal.
fn at_most(
    proof: &mut Proof<'_>,
    known: &Known<'_>,
    left: &Term,
    right: &Term,
) -> Result<Option<Line>, Stop>
    ensures { OnOk result (proof.new ≡ proof.old) }
{
    match by_cell(proof, known, Comparison::Less, left, right)? {
        Some(line) => Ok(Some(weakened(proof, left, right, line)?)),
        None => by_cell(proof, known, Comparison::AtMost, left, right),
    }
}

// The comparison of a value of the call with one of its caller.
fn values_compared(
    proof: &mut Proof<'_>,
    known: &Known<'_>,
    comparison: Comparison,
    left: &Term,
    right: &Term,
) -> Result<Option<Line>, Stop>
    ensures { OnOk result (proof.new ≡ proof.old) }
{
    match comparison {
        Comparison::Less => by_cell(proof, known, Comparison::Less, left, right),
        Comparison::AtMost => at_most(proof, known, left, right),
    }
}

// The comparison of a value on the outer side, of which all are met, with one on the inner side, of which one is chosen. The
// outer side is the call's for greatest values, and the caller's for least ones.
fn between(
    proof: &mut Proof<'_>,
    known: &Known<'_>,
    extremum: Extremum,
    comparison: Comparison,
    outer: &Term,
    inner: &Term,
) -> Result<Option<Line>, Stop>
    ensures { OnOk result (proof.new ≡ proof.old) }
{
    match extremum {
        Extremum::Greatest => values_compared(proof, known, comparison, outer, inner),
        Extremum::Least => values_compared(proof, known, comparison, inner, outer),
    }
}

// How the outer value compares with the extreme value of the inner ones from that index on, from how it does with the one there.
fn with_later(
    proof: &mut Proof<'_>,
    extremum: Extremum,
    comparison: Comparison,
    outer: &Term,
    inners: &[Term],
    index: usize,
    line: Line,
) -> Result<Line, Stop>
    ensures { OnOk result (proof.new ≡ proof.old) }
{
    if index >= inners.len() {
        return Err(Stop::Stuck);
    }
    let later = &inners[index + 1..];
    if later.is_empty() {
        return Ok(line);
    }
    let rest = extreme_of(proof.alloc(), extremum, later)?;
    widened_first(
        proof,
        extremum,
        comparison,
        outer,
        &inners[index],
        &rest,
        line,
    )
}

// How the outer value compares with the extreme value of the inner ones from that index on, from how it does with that of the
// later ones.
fn with_one_more(
    proof: &mut Proof<'_>,
    extremum: Extremum,
    comparison: Comparison,
    outer: &Term,
    inners: &[Term],
    index: usize,
    line: Line,
) -> Result<Line, Stop>
    ensures { OnOk result (proof.new ≡ proof.old) }
{
    if index >= inners.len() {
        return Err(Stop::Stuck);
    }
    let rest = extreme_of(proof.alloc(), extremum, &inners[index + 1..])?;
    widened_second(
        proof,
        extremum,
        comparison,
        outer,
        &inners[index],
        &rest,
        line,
    )
}

// How the outer value compares with the extreme value of the inner ones, from how it does with the one of that index.
fn with_all(
    proof: &mut Proof<'_>,
    extremum: Extremum,
    comparison: Comparison,
    outer: &Term,
    inners: &[Term],
    index: usize,
    line: Line,
) -> Result<Line, Stop>
    ensures { OnOk result (proof.new ≡ proof.old) }
{
    let mut made = with_later(proof, extremum, comparison, outer, inners, index, line)?;
    let mut at = index;
    while at > 0 {
        at -= 1;
        made = with_one_more(proof, extremum, comparison, outer, inners, at, made)?;
    }
    Ok(made)
}

// How the outer value compares with the extreme value of the inner ones, by the first that has a theorem.
fn met(
    proof: &mut Proof<'_>,
    known: &Known<'_>,
    extremum: Extremum,
    comparison: Comparison,
    outer: &Term,
    inners: &[Term],
) -> Result<Line, Stop>
    ensures { OnOk result (proof.new ≡ proof.old) }
{
    for index in 0..inners.len() {
        let found = between(proof, known, extremum, comparison, outer, &inners[index])?;
        if let Some(line) = found {
            return with_all(proof, extremum, comparison, outer, inners, index, line);
        }
    }
    Err(Stop::Stuck)
}

// How the extreme value of the outer ones from that index on compares, from how the one there does, and that of the later ones.
fn with_outer(
    proof: &mut Proof<'_>,
    extremum: Extremum,
    comparison: Comparison,
    outers: &[Term],
    index: usize,
    inner: &Term,
    lines: (Line, Line),
) -> Result<Line, Stop>
    ensures { OnOk result (proof.new ≡ proof.old) }
{
    if index >= outers.len() {
        return Err(Stop::Stuck);
    }
    let rest = extreme_of(proof.alloc(), extremum, &outers[index + 1..])?;
    let numbers = (&outers[index], &rest);
    joined_both(proof, extremum, comparison, numbers, inner, lines)
}

// How the extreme value of the outer ones compares with the inner one, from how each does.
fn collected(
    proof: &mut Proof<'_>,
    extremum: Extremum,
    comparison: Comparison,
    outers: &[Term],
    inner: &Term,
    lines: &[Line],
) -> Result<Line, Stop>
    ensures { OnOk result (proof.new ≡ proof.old) }
{
    let mut at = lines.len();
    if at == 0 {
        return Err(Stop::Stuck);
    }
    at -= 1;
    let mut made = lines[at];
    while at > 0 {
        at -= 1;
        let both = (lines[at], made);
        made = with_outer(proof, extremum, comparison, outers, at, inner, both)?;
    }
    Ok(made)
}

// How the extreme values of both sides compare.
fn sides_compared(
    proof: &mut Proof<'_>,
    known: &Known<'_>,
    extremum: Extremum,
    comparison: Comparison,
    outers: &[Term],
    inners: &[Term],
) -> Result<Line, Stop>
    ensures { OnOk result (proof.new ≡ proof.old) }
{
    let mut lines = Items::new(proof.alloc());
    for outer in outers {
        lines.push(met(proof, known, extremum, comparison, outer, inners)?)?;
    }
    let inner = extreme_of(proof.alloc(), extremum, inners)?;
    collected(
        proof,
        extremum,
        comparison,
        outers,
        &inner,
        lines.as_slice(),
    )
}

/// How the extreme value of a call's values compares with that of its caller's.
pub(crate) fn extremes_compared(
    proof: &mut Proof<'_>,
    known: &Known<'_>,
    extremum: Extremum,
    comparison: Comparison,
    lows: &[Term],
    highs: &[Term],
) -> Result<Line, Stop>
    ensures { OnOk result (proof.new ≡ proof.old) }
{
    match extremum {
        Extremum::Greatest => sides_compared(proof, known, extremum, comparison, lows, highs),
        Extremum::Least => sides_compared(proof, known, extremum, comparison, highs, lows),
    }
}
