//! The measure of a rank, and its value at the arguments of a function.
ghost use Rattle.std.specs.Prelude.{◌≡◌, OnOk};

use crate::numbers::{extreme, measure_type};
use crate::ranks::{Extremum, Mapping};
use fp_conclude::{apply, apply_both};
use fp_proof::{Line, Proof, Stop};
use fp_shapes::{lambdas, sum_type, variable};
use fp_term::{Items, Name, Term, Ty, function_of};
use std::alloc::{AllocError, Global};
use std::slice;

/// The measures at an argument.
pub(crate) fn measured(
    alloc: Global,
    measures: &[Term],
    argument: &Term,
) -> Result<Items<Term>, AllocError> {
    let mut values = Items::new(alloc);
    for measure in measures {
        values.push(apply(alloc, measure, argument)?)?;
    }
    Ok(values)
}

/// The extreme value of some numbers: `max t1 (max t2 ..)`; of one number itself.
pub(crate) fn extreme_of(
    alloc: Global,
    extremum: Extremum,
    numbers: &[Term],
) -> Result<Term, Stop> {
    let mut at = numbers.len();
    if at == 0 {
        return Err(Stop::Stuck);
    }
    at -= 1;
    let function = extreme(alloc, extremum)?;
    let mut made = numbers[at].copy()?;
    while at > 0 {
        at -= 1;
        made = apply_both(alloc, &function, &numbers[at], &made)?;
    }
    Ok(made)
}

// `%v. max (m1 v) (m2 v ..)`
fn level(
    proof: &mut Proof<'_>,
    extremum: Extremum,
    measures: &[Term],
    ty: &Ty,
) -> Result<Term, Stop>
    ensures { OnOk result (proof.new ≡ proof.old) }
{
    let var = proof.fresh(ty)?;
    let argument = variable(proof.alloc(), &var.0, &var.1)?;
    let values = measured(proof.alloc(), measures, &argument)?;
    let body = extreme_of(proof.alloc(), extremum, values.as_slice())?;
    Ok(lambdas(proof.alloc(), slice::from_ref(&var), &body)?)
}

// `case_sum`, for measures of two types.
#[tactic(auto, unfolding(fp_term::specs::Names::is_name))]
fn case_constant(alloc: Global, left: &Ty, right: &Ty) -> Result<Term, AllocError> {
    let whole = measure_type(alloc, &sum_type(alloc, left, right)?)?;
    let inner = function_of(alloc, measure_type(alloc, right)?, whole)?;
    let ty = function_of(alloc, measure_type(alloc, left)?, inner)?;
    Term::constant(alloc, Name::of(alloc, b"case_sum")?, ty)
}

// The measure of the sum of two types that is the first on the left one and the second on the right one.
fn by_cases(
    alloc: Global,
    left: &Ty,
    right: &Ty,
    first: &Term,
    second: &Term,
) -> Result<Term, AllocError> {
    let function = case_constant(alloc, left, right)?;
    apply_both(alloc, &function, first, second)
}

/// The measure of a rank, of the arguments of all functions, whose types these are.
pub(crate) fn measure_of(proof: &mut Proof<'_>, tys: &[Ty], mapping: &Mapping) -> Result<Term, Stop>
    ensures { OnOk result (proof.new ≡ proof.old) }
{
    let mut at = tys.len();
    if at == 0 {
        return Err(Stop::Stuck);
    }
    at -= 1;
    let mut made = level(proof, mapping.extremum, mapping.set(at)?, &tys[at])?;
    let mut ty = tys[at].copy()?;
    while at > 0 {
        at -= 1;
        let own = level(proof, mapping.extremum, mapping.set(at)?, &tys[at])?;
        made = by_cases(proof.alloc(), &tys[at], &ty, &own, &made)?;
        ty = sum_type(proof.alloc(), &tys[at], &ty)?;
    }
    Ok(made)
}

// The equation, carried on by the lemma at its right side.
fn carried_on(proof: &mut Proof<'_>, line: Line, name: &[u8]) -> Result<Line, Stop>
    ensures { OnOk result (proof.new ≡ proof.old) }
{
    let value = proof.right(line)?;
    let rule = proof.lemma(name)?;
    let part = proof.left(rule)?;
    let step = proof.at_match(rule, &part, &value)?;
    proof.trans(line, step)
}

// The measures of the functions before the one of that index, passed over.
fn passed_over(proof: &mut Proof<'_>, line: Line, index: usize) -> Result<Line, Stop>
    ensures { OnOk result (proof.new ≡ proof.old) }
{
    let mut made = line;
    for _ in 0..index {
        made = carried_on(proof, made, b"case_sum_Inr")?;
    }
    Ok(made)
}

// The measure of the function of that index, of so many, taken.
fn taken(proof: &mut Proof<'_>, line: Line, count: usize, index: usize) -> Result<Line, Stop>
    ensures { OnOk result (proof.new ≡ proof.old) }
{
    if index.checked_add(1) == Some(count) {
        Ok(line)
    } else {
        carried_on(proof, line, b"case_sum_Inl")
    }
}

/// `m x = max (m1 t) (m2 t ..)`, from `x = in(t)` of the function of that index, of so many.
pub(crate) fn value_at(
    proof: &mut Proof<'_>,
    measure: &Term,
    place: Line,
    count: usize,
    index: usize,
) -> Result<Line, Stop>
    ensures { OnOk result (proof.new ≡ proof.old) }
{
    let line = proof.ap(measure, place)?;
    let line = passed_over(proof, line, index)?;
    let line = taken(proof, line, count, index)?;
    proof.contracted(line)
}
