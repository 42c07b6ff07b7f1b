//! What a clause says of an argument and its value, and what a row says of an argument and that of a call.
ghost use Rattle.std.specs.Prelude.{◌≡◌, ◌∷◌, ◌++◌, [], map, Some, IfOk, OnOk};
ghost use Rattle.fp_conclude.specs.Logic.{equal};
ghost use Rattle.fp_spec.specs.Heads.{result_sum, result_in};
ghost use Rattle.fp_spec.specs.Calls.{calls_at};
ghost use Rattle.std.specs.List.{slice_get};
ghost use Rattle.fp_spec.specs.Relations.{with_all_variables, clause_variables, argument_is, clause_fact, clause_part};
ghost use Rattle.fp_spec.specs.Relations.{call_is, row_fact, row_by, row_part, some_clause, some_row};

use crate::calls::{all_calls_at, calls_at};
use crate::heads::{argument_sum, in_term, result_in, result_sum};
use fp_conclude::{conjunction, equation, false_constant};
use fp_group::{CallSite, Clause, Head, copy_variables};
use fp_shapes::{conjunctions, disjunctions, for_somes};
use fp_term::{Items, Name, Term, Ty, add_variables};
use std::alloc::{AllocError, Global};

/// The variables of a clause, in the order of their first places in its patterns.
pub fn clause_variables(alloc: Global, clause: &Clause) -> Result<Items<(Name, Ty)>, AllocError>
    ensures { IfOk result (λ vars. vars ≡ clause_variables clause.now) }
{
    let mut vars = Items::new(alloc);
    for pattern in clause.patterns.as_slice() {
        add_variables(&mut vars, pattern)?;
    }
    Ok(vars)
}

// `x = in(p)`
fn argument_is(alloc: Global, heads: &[Head], x: &Term, clause: &Clause) -> Result<Term, AllocError>
    ensures { IfOk result (λ t. t ≡ argument_is heads.now x.now clause.now) }
{
    let ty = argument_sum(alloc, heads)?;
    let arg = in_term(alloc, heads, clause.function, clause.patterns.as_slice())?;
    equation(alloc, &ty, x, &arg)
}

// `y = inr(r[h])`
fn value_is(
    alloc: Global,
    heads: &[Head],
    h: &Term,
    y: &Term,
    clause: &Clause,
) -> Result<Term, AllocError>
    ensures { IfOk result (λ t. t ≡ equal (result_sum heads.now) y.now (result_in heads.now clause.now.function
        (calls_at heads.now h.now clause.now.right))) }
{
    let ty = result_sum(alloc, heads)?;
    let right = calls_at(alloc, heads, h, &clause.right)?;
    let value = result_in(alloc, heads, clause.function, &right)?;
    equation(alloc, &ty, y, &value)
}

/// `x = in(p) /\ y = inr(r[h])`
pub fn clause_fact(
    alloc: Global,
    heads: &[Head],
    h: &Term,
    x: &Term,
    y: &Term,
    clause: &Clause,
) -> Result<Term, AllocError>
    ensures { IfOk result (λ t. t ≡ clause_fact heads.now h.now x.now y.now clause.now) }
{
    let argument = argument_is(alloc, heads, x, clause)?;
    let value = value_is(alloc, heads, h, y, clause)?;
    conjunction(alloc, &argument, &value)
}

/// `?vars. x = in(p) /\ y = inr(r[h])`
pub fn clause_part(
    alloc: Global,
    heads: &[Head],
    h: &Term,
    x: &Term,
    y: &Term,
    clause: &Clause,
) -> Result<Term, AllocError>
    ensures { IfOk result (λ t. t ≡ clause_part heads.now h.now x.now y.now clause.now) }
{
    let fact = clause_fact(alloc, heads, h, x, y, clause)?;
    let vars = clause_variables(alloc, clause)?;
    for_somes(alloc, vars.as_slice(), &fact)
}

// `z = in(a[h])`
fn call_is(
    alloc: Global,
    heads: &[Head],
    h: &Term,
    z: &Term,
    site: &CallSite,
) -> Result<Term, AllocError>
    ensures { IfOk result (λ t. t ≡ call_is heads.now h.now z.now site.now) }
{
    let ty = argument_sum(alloc, heads)?;
    let args = all_calls_at(alloc, heads, h, site.args.as_slice())?;
    let arg = in_term(alloc, heads, site.callee, args.as_slice())?;
    equation(alloc, &ty, z, &arg)
}

/// `x = in(p) /\ G1[h] /\ .. /\ z = in(a[h])`
pub fn row_fact(
    alloc: Global,
    heads: &[Head],
    h: &Term,
    z: &Term,
    x: &Term,
    clause: &Clause,
    site: &CallSite,
) -> Result<Term, AllocError>
    ensures { IfOk result (λ t. t ≡ row_fact heads.now h.now z.now x.now clause.now site.now) }
{
    let argument = Items::new(alloc).appended(argument_is(alloc, heads, x, clause)?)?;
    let guards = all_calls_at(alloc, heads, h, site.guards.as_slice())?;
    let rest = guards.appended(call_is(alloc, heads, h, z, site)?)?;
    let parts = argument.extended(rest)?;
    conjunctions(alloc, parts.as_slice())
}

fn row_by(
    alloc: Global,
    heads: &[Head],
    h: &Term,
    z: &Term,
    x: &Term,
    site: &CallSite,
    clause: &Clause,
) -> Result<Term, AllocError>
    ensures { IfOk result (λ t. t ≡ row_by heads.now h.now z.now x.now site.now (Some clause.now)) }
{
    let fact = row_fact(alloc, heads, h, z, x, clause, site)?;
    let added = copy_variables(alloc, site.vars.as_slice())?;
    let vars = clause_variables(alloc, clause)?.extended(added)?;
    for_somes(alloc, vars.as_slice(), &fact)
}

/// `?vars. x = in(p) /\ G1[h] /\ .. /\ z = in(a[h])`; `F` where the site's clause isn't there.
#[tactic(auto, using(crate::proofs::Missing::no_row))]
pub fn row_part(
    alloc: Global,
    heads: &[Head],
    clauses: &[Clause],
    h: &Term,
    z: &Term,
    x: &Term,
    site: &CallSite,
) -> Result<Term, AllocError>
    ensures { IfOk result (λ t. t ≡ row_part heads.now clauses.now h.now z.now x.now site.now) }
{
    match clauses.get(site.clause as usize) {
        Some(clause) => row_by(alloc, heads, h, z, x, site, clause),
        None => false_constant(alloc),
    }
}

/// What some clause says.
pub(crate) fn some_clause(
    alloc: Global,
    heads: &[Head],
    clauses: &[Clause],
    h: &Term,
    x: &Term,
    y: &Term,
) -> Result<Term, AllocError>
    ensures { IfOk result (λ t. t ≡ some_clause heads.now clauses.now h.now x.now y.now) }
{
    let mut parts = Items::new(alloc);
    for clause in clauses {
        parts.push(clause_part(alloc, heads, h, x, y, clause)?)?;
    }
    disjunctions(alloc, parts.as_slice())
}

/// What some row says.
pub(crate) fn some_row(
    alloc: Global,
    heads: &[Head],
    clauses: &[Clause],
    sites: &[CallSite],
    h: &Term,
    z: &Term,
    x: &Term,
) -> Result<Term, AllocError>
    ensures { IfOk result (λ t. t ≡ some_row heads.now clauses.now sites.now h.now z.now x.now) }
{
    let mut parts = Items::new(alloc);
    for site in sites {
        parts.push(row_part(alloc, heads, clauses, h, z, x, site)?)?;
    }
    disjunctions(alloc, parts.as_slice())
}
