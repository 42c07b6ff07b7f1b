//! The statements of completeness and determinacy.

use crate::shared::Setting;
use fp_conclude::{apply, conjunction, equation, implication};
use fp_proof::Stop;
use fp_shapes::{for_alls, for_somes, variable};
use fp_term::{Items, Name, Term, Ty};
use std::alloc::{AllocError, Global};
use std::slice;

fn term_of(alloc: Global, var: &(Name, Ty)) -> Result<Term, AllocError> {
    variable(alloc, &var.0, &var.1)
}

// Adds an equal variable.
fn add_variable(vars: &mut Items<(Name, Ty)>, var: &(Name, Ty)) -> Result<(), AllocError> {
    vars.push((var.0.copy()?, var.1.copy()?))
}

// `f_calls h z x /\ f_calls k z x`
fn both_call(alloc: Global, setting: &Setting<'_>, z: &Term, x: &Term) -> Result<Term, Stop> {
    let first = setting.holds_calls(alloc, &term_of(alloc, &setting.h)?, z, x)?;
    let second = setting.holds_calls(alloc, &term_of(alloc, &setting.k)?, z, x)?;
    Ok(conjunction(alloc, &first, &second)?)
}

// `h z = k z`
fn same_value(alloc: Global, setting: &Setting<'_>, z: &Term) -> Result<Term, AllocError> {
    let first = apply(alloc, &term_of(alloc, &setting.h)?, z)?;
    let second = apply(alloc, &term_of(alloc, &setting.k)?, z)?;
    equation(alloc, &setting.y.1, &first, &second)
}

/// `!z. f_calls h z x /\ f_calls k z x --> h z = k z`
pub fn agreement(alloc: Global, setting: &Setting<'_>, x: &Term) -> Result<Term, Stop> {
    let z = term_of(alloc, &setting.z)?;
    let calls = both_call(alloc, setting, &z, x)?;
    let same = same_value(alloc, setting, &z)?;
    let leads = implication(alloc, &calls, &same)?;
    Ok(for_alls(alloc, slice::from_ref(&setting.z), &leads)?)
}

// `f_clauses h x y`, of the variables.
fn has_value(
    alloc: Global,
    setting: &Setting<'_>,
    h: &(Name, Ty),
    y: &(Name, Ty),
) -> Result<Term, Stop> {
    let x = term_of(alloc, &setting.x)?;
    let y = term_of(alloc, y)?;
    setting.holds_clauses(alloc, &term_of(alloc, h)?, &x, &y)
}

/// Completeness: `!h x. ?y. f_clauses h x y`.
pub fn complete_statement(alloc: Global, setting: &Setting<'_>) -> Result<Term, Stop> {
    let holds = has_value(alloc, setting, &setting.h, &setting.y)?;
    let some = for_somes(alloc, slice::from_ref(&setting.y), &holds)?;
    let each = for_alls(alloc, slice::from_ref(&setting.x), &some)?;
    Ok(for_alls(alloc, slice::from_ref(&setting.h), &each)?)
}

// `f_clauses h x y /\ f_clauses k x w`
fn two_values(alloc: Global, setting: &Setting<'_>) -> Result<Term, Stop> {
    let first = has_value(alloc, setting, &setting.h, &setting.y)?;
    let second = has_value(alloc, setting, &setting.k, &setting.w)?;
    Ok(conjunction(alloc, &first, &second)?)
}

// `y = w`
fn values_equal(alloc: Global, setting: &Setting<'_>) -> Result<Term, AllocError> {
    let y = term_of(alloc, &setting.y)?;
    equation(alloc, &setting.y.1, &y, &term_of(alloc, &setting.w)?)
}

// `h`, `k`, `x`, `y`, `w`
fn det_variables(alloc: Global, setting: &Setting<'_>) -> Result<Items<(Name, Ty)>, AllocError> {
    let mut vars = Items::new(alloc);
    add_variable(&mut vars, &setting.h)?;
    add_variable(&mut vars, &setting.k)?;
    add_variable(&mut vars, &setting.x)?;
    add_variable(&mut vars, &setting.y)?;
    add_variable(&mut vars, &setting.w)?;
    Ok(vars)
}

/// Determinacy: `!h k x y w. (!z. f_calls h z x /\ f_calls k z x --> h z = k z) /\ f_clauses h x y /\ f_clauses k x w -->
/// y = w`.
pub fn det_statement(alloc: Global, setting: &Setting<'_>) -> Result<Term, Stop> {
    let agree = agreement(alloc, setting, &term_of(alloc, &setting.x)?)?;
    let premise = conjunction(alloc, &agree, &two_values(alloc, setting)?)?;
    let leads = implication(alloc, &premise, &values_equal(alloc, setting)?)?;
    let vars = det_variables(alloc, setting)?;
    Ok(for_alls(alloc, vars.as_slice(), &leads)?)
}
