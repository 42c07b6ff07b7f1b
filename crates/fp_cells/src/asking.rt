//! The goals of a cell, in normal form.
ghost use Rattle.std.specs.Prelude.{◌≡◌, ◌<◌, length, slice_get, Some, IsSome, true, IfOk, IfSome, MatchOption, IsTrue, codes};
ghost use Rattle.fp_term.specs.Names.{is_name};
ghost use Rattle.fp_term.specs.Terms.{constant, app};
ghost use Rattle.fp_term.specs.Typing.{function_type};
ghost use Rattle.fp_conclude.specs.Logic.{truth_type};
ghost use Rattle.fp_conv.specs.Passes.{NormalBy};
ghost use Rattle.fp_shapes.specs.Tuples.{tuple};
ghost use Rattle.fp_cells.specs.Goals.{natural, related, measure_at, CanAsk, IsFull, AreGoals};

use fp_conclude::{apply_both, truth_type};
use fp_group::{CallSite, Clause, Group, Head};
use fp_normal::normal_form;
use fp_order::Cell;
use fp_shapes::tuple;
use fp_simp::CellData;
use fp_term::{Items, Name, Term, Ty, Tys, copy_all, function_of};
use std::alloc::{AllocError, Global};

#[tactic(auto, unfolding(fp_term::specs::Names::is_name))]
fn natural(alloc: Global) -> Result<Ty, AllocError>
    ensures { IfOk result (λ ty. ty ≡ natural) }
{
    let name = Name::of(alloc, b"nat")?;
    Ty::con(alloc, name, Tys::end(alloc)?)
}

// The relation of that name between natural numbers.
fn relation(alloc: Global, name: &[u8]) -> Result<Term, AllocError>
    requires { IsTrue (is_name name.now) }
    ensures { IfOk result (λ t. t ≡ constant name.now (function_type natural (function_type natural truth_type))) }
{
    let inner = function_of(alloc, natural(alloc)?, truth_type(alloc)?)?;
    let ty = function_of(alloc, natural(alloc)?, inner)?;
    Term::constant(alloc, Name::of(alloc, name)?, ty)
}

// The relation of that name between two terms, in normal form.
fn compared(alloc: Global, name: &[u8], left: &Term, right: &Term) -> Result<Term, AllocError>
    requires { IsTrue (is_name name.now) }
    ensures { IfOk result (NormalBy (related name.now left.now right.now)) }
{
    let relation = relation(alloc, name)?;
    let whole = apply_both(alloc, &relation, left, right)?;
    normal_form(alloc, &whole)
}

// The measure of a function's arguments.
fn measured(alloc: Global, measure: &Term, tys: &[Ty], terms: &[Term]) -> Result<Term, AllocError>
    requires some { 0 < length tys.now }
    requires each { length terms.now ≡ length tys.now }
    ensures { IfOk result (λ t. t ≡ app measure.now (tuple tys.now terms.now)) }
{
    let argument = tuple(alloc, tys, terms)?;
    Term::app(alloc, measure.copy()?, argument)
}

// Both goals under the guards.
#[tactic(auto, unfolding(fp_term::specs::Names::is_name))]
fn asked(alloc: Global, guards: &[Term], left: &Term, right: &Term) -> Result<CellData, AllocError>
    ensures guards { IfOk result (λ d. d.guards ≡ guards.now) }
    ensures strict { IfOk result (λ d. NormalBy (related (codes "less") left.now right.now) d.strict) }
    ensures weak { IfOk result (λ d. NormalBy (related (codes "leq") left.now right.now) d.weak) }
{
    let strict = compared(alloc, b"less", left, right)?;
    let weak = compared(alloc, b"leq", left, right)?;
    Ok(CellData {
        guards: copy_all(alloc, guards)?,
        strict,
        weak,
    })
}

// The item of that number.
fn at<T>(items: &[T], number: u32) -> &T
    requires { number < length items.now }
    ensures { slice_get items.now number ≡ Some result.now }
{
    &items[number as usize]
}

// The measure of that number of the function of that number.
#[tactic(auto, using(crate::proofs::Asked::has_function, crate::proofs::Asked::has_measure, crate::proofs::Asked::same_measure))]
fn measure_at(measures: &[Items<Term>], function: u32, number: u32) -> &Term
    requires { IsSome (measure_at measures.now function number) }
    ensures { measure_at measures.now function number ≡ Some result.now }
{
    let own = at(measures, function);
    at(own.as_slice(), number)
}

/// The goals of a cell: under the call's guards, that the callee's measure of its arguments is less than the caller's of the
/// clause's patterns, and that it is at most as large, both in beta-normal form.
pub fn goals(
    alloc: Global,
    group: &Group,
    measures: &[Items<Term>],
    cell: &Cell,
) -> Result<CellData, AllocError>
    requires { CanAsk group.now measures.now cell.now }
    ensures { IfOk result (AreGoals group.now measures.now cell.now) }
{
    let site = at(group.sites.as_slice(), cell.row);
    let clause = at(group.clauses.as_slice(), site.clause);
    let caller = at(group.heads.as_slice(), site.caller);
    let callee = at(group.heads.as_slice(), site.callee);
    let source = measure_at(measures, site.caller, cell.source);
    let target = measure_at(measures, site.callee, cell.target);
    let left = measured(alloc, target, callee.args.as_slice(), site.args.as_slice())?;
    let right = measured(
        alloc,
        source,
        caller.args.as_slice(),
        clause.patterns.as_slice(),
    )?;
    asked(alloc, site.guards.as_slice(), &left, &right)
}

// The item of that number, where there is one.
fn found<T>(items: &[T], number: u32) -> Option<&T>
    ensures { MatchOption result (Unit {0}) (λ item. slice_get items.now number ≡ Some item.now) }
{
    items.get(number as usize)
}

// The measure of that number of the function of that number, where there is one.
#[tactic(auto, using(crate::proofs::Asked::same_measure))]
fn measure_found(measures: &[Items<Term>], function: u32, number: u32) -> Option<&Term>
    ensures { MatchOption result (Unit {0}) (λ measure. measure_at measures.now function number ≡ Some measure.now) }
{
    let own = found(measures, function)?;
    found(own.as_slice(), number)
}

// Has each of the functions arguments, and is there a term for each?
fn is_full(site: &CallSite, clause: &Clause, caller: &Head, callee: &Head) -> bool
    ensures { result ≡ true → IsFull site.now clause.now caller.now callee.now }
{
    let caller_count = caller.args.as_slice().len();
    let callee_count = callee.args.as_slice().len();
    0 < caller_count
        && 0 < callee_count
        && clause.patterns.as_slice().len() == caller_count
        && site.args.as_slice().len() == callee_count
}

/// The goals of a cell, where it is one of the group with these measures.
pub fn goals_of(
    alloc: Global,
    group: &Group,
    measures: &[Items<Term>],
    cell: Cell,
) -> Result<Option<CellData>, AllocError>
    ensures { IfOk result (λ o. IfSome o (AreGoals group.now measures.now cell)) }
{
    let Some(site) = found(group.sites.as_slice(), cell.row) else {
        return Ok(None);
    };
    let Some(clause) = found(group.clauses.as_slice(), site.clause) else {
        return Ok(None);
    };
    let Some(caller) = found(group.heads.as_slice(), site.caller) else {
        return Ok(None);
    };
    let Some(callee) = found(group.heads.as_slice(), site.callee) else {
        return Ok(None);
    };
    let Some(source) = measure_found(measures, site.caller, cell.source) else {
        return Ok(None);
    };
    let Some(target) = measure_found(measures, site.callee, cell.target) else {
        return Ok(None);
    };
    if !is_full(site, clause, caller, callee) {
        return Ok(None);
    }
    let left = measured(alloc, target, callee.args.as_slice(), site.args.as_slice())?;
    let right = measured(
        alloc,
        source,
        caller.args.as_slice(),
        clause.patterns.as_slice(),
    )?;
    Ok(Some(asked(alloc, site.guards.as_slice(), &left, &right)?))
}
