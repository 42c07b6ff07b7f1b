//! The definitions of a group.
ghost use Rattle.std.specs.Prelude.{◌≡◌, ◌<◌, ◌∷◌, ◌++◌, [], length, IfOk, OnOk};
ghost use Rattle.fp_term.specs.Terms.{app};
ghost use Rattle.fp_spec.specs.Defining.{at_two, at_three, as_term, clauses_body, calls_body, step_fact, graph_body, sum_body, rel_body, dom_body};
ghost use Rattle.fp_spec.specs.Defining.{clauses_name, calls_name, graph_name, sum_name, rel_name, dom_name, calls_constant, clauses_constant};
ghost use Rattle.fp_spec.specs.Defining.{function_body, functions_from, relations_by, defining_terms_of};

use crate::heads::{argument_sum, in_term, parameters, result_out};
use crate::letters::{Letters, as_term, as_terms, letters_of};
use crate::naming::{
    acc_constant, calls_constant, calls_name, clauses_constant, clauses_name, dom_name,
    graph_constant, graph_name, lfp_constant, rel_constant, rel_name, sum_constant, sum_name,
};
use crate::relations::{some_clause, some_row};
use fp_conclude::{apply, apply_both, conjunction, implication, select};
use fp_group::{Group, Head};
use fp_shapes::{for_alls, for_somes, lambdas};
use fp_term::{Items, Name, Term, Ty, next};
use std::alloc::{AllocError, Global};

fn one(alloc: Global, first: &(Name, Ty)) -> Result<Items<(Name, Ty)>, AllocError>
    ensures { IfOk result (λ vars. vars ≡ first.now ∷ []) }
{
    Items::new(alloc).appended((first.0.copy()?, first.1.copy()?))
}

fn two(
    alloc: Global,
    first: &(Name, Ty),
    second: &(Name, Ty),
) -> Result<Items<(Name, Ty)>, AllocError>
    ensures { IfOk result (λ vars. vars ≡ first.now ∷ second.now ∷ []) }
{
    one(alloc, first)?.appended((second.0.copy()?, second.1.copy()?))
}

fn three(
    alloc: Global,
    first: &(Name, Ty),
    second: &(Name, Ty),
    third: &(Name, Ty),
) -> Result<Items<(Name, Ty)>, AllocError>
    ensures { IfOk result (λ vars. vars ≡ first.now ∷ second.now ∷ third.now ∷ []) }
{
    two(alloc, first, second)?.appended((third.0.copy()?, third.1.copy()?))
}

fn at_three(alloc: Global, fun: &Term, x: &Term, y: &Term, z: &Term) -> Result<Term, AllocError>
    ensures { IfOk result (λ t. t ≡ at_three fun.now x.now y.now z.now) }
{
    let both = apply_both(alloc, fun, x, y)?;
    apply(alloc, &both, z)
}

fn clauses_body(alloc: Global, group: &Group, letters: &Letters) -> Result<Term, AllocError>
    ensures { IfOk result (λ t. t ≡ clauses_body group.now letters.now) }
{
    let h = as_term(alloc, &letters.h)?;
    let x = as_term(alloc, &letters.x)?;
    let y = as_term(alloc, &letters.y)?;
    let heads = group.heads.as_slice();
    let body = some_clause(alloc, heads, group.clauses.as_slice(), &h, &x, &y)?;
    let vars = three(alloc, &letters.h, &letters.x, &letters.y)?;
    lambdas(alloc, vars.as_slice(), &body)
}

fn calls_body(alloc: Global, group: &Group, letters: &Letters) -> Result<Term, AllocError>
    ensures { IfOk result (λ t. t ≡ calls_body group.now letters.now) }
{
    let h = as_term(alloc, &letters.h)?;
    let z = as_term(alloc, &letters.z)?;
    let x = as_term(alloc, &letters.x)?;
    let heads = group.heads.as_slice();
    let clauses = group.clauses.as_slice();
    let body = some_row(alloc, heads, clauses, group.sites.as_slice(), &h, &z, &x)?;
    let vars = three(alloc, &letters.h, &letters.z, &letters.x)?;
    lambdas(alloc, vars.as_slice(), &body)
}

// `f_calls h z x`
fn calls_hold(alloc: Global, heads: &[Head], letters: &Letters) -> Result<Term, AllocError>
    requires some { 0 < length heads.now }
    ensures { IfOk result (λ t. t ≡ at_three (calls_constant heads.now) (as_term letters.now.h) (as_term letters.now.z) (as_term letters.now.x)) }
{
    let calls = calls_constant(alloc, heads)?;
    let h = as_term(alloc, &letters.h)?;
    let z = as_term(alloc, &letters.z)?;
    let x = as_term(alloc, &letters.x)?;
    at_three(alloc, &calls, &h, &z, &x)
}

// `G z (h z)`
fn relation_holds(alloc: Global, letters: &Letters) -> Result<Term, AllocError>
    ensures { IfOk result (λ t. t ≡ at_two (as_term letters.now.relation) (as_term letters.now.z) (app (as_term letters.now.h) (as_term letters.now.z))) }
{
    let relation = as_term(alloc, &letters.relation)?;
    let z = as_term(alloc, &letters.z)?;
    let value = apply(alloc, &as_term(alloc, &letters.h)?, &z)?;
    apply_both(alloc, &relation, &z, &value)
}

// `f_clauses h x y`
fn clauses_hold(alloc: Global, heads: &[Head], letters: &Letters) -> Result<Term, AllocError>
    requires some { 0 < length heads.now }
    ensures { IfOk result (λ t. t ≡ at_three (clauses_constant heads.now) (as_term letters.now.h) (as_term letters.now.x) (as_term letters.now.y)) }
{
    let clauses = clauses_constant(alloc, heads)?;
    let h = as_term(alloc, &letters.h)?;
    let x = as_term(alloc, &letters.x)?;
    let y = as_term(alloc, &letters.y)?;
    at_three(alloc, &clauses, &h, &x, &y)
}

// `(!z. f_calls h z x --> G z (h z)) /\ f_clauses h x y`
fn step_fact(alloc: Global, heads: &[Head], letters: &Letters) -> Result<Term, AllocError>
    requires some { 0 < length heads.now }
    ensures { IfOk result (λ t. t ≡ step_fact heads.now letters.now) }
{
    let calls = calls_hold(alloc, heads, letters)?;
    let leads = implication(alloc, &calls, &relation_holds(alloc, letters)?)?;
    let z = one(alloc, &letters.z)?;
    let each = for_alls(alloc, z.as_slice(), &leads)?;
    conjunction(alloc, &each, &clauses_hold(alloc, heads, letters)?)
}

fn graph_body(alloc: Global, heads: &[Head], letters: &Letters) -> Result<Term, AllocError>
    requires some { 0 < length heads.now }
    ensures { IfOk result (λ t. t ≡ graph_body heads.now letters.now) }
{
    let fact = step_fact(alloc, heads, letters)?;
    let some = for_somes(alloc, one(alloc, &letters.h)?.as_slice(), &fact)?;
    let vars = three(alloc, &letters.relation, &letters.x, &letters.y)?;
    let step = lambdas(alloc, vars.as_slice(), &some)?;
    let lfp = lfp_constant(alloc, &letters.relation.1)?;
    apply(alloc, &lfp, &step)
}

fn sum_body(alloc: Global, heads: &[Head], letters: &Letters) -> Result<Term, AllocError>
    requires some { 0 < length heads.now }
    ensures { IfOk result (λ t. t ≡ sum_body heads.now letters.now) }
{
    let graph = graph_constant(alloc, heads)?;
    let x = as_term(alloc, &letters.x)?;
    let holds = apply_both(alloc, &graph, &x, &as_term(alloc, &letters.y)?)?;
    let predicate = lambdas(alloc, one(alloc, &letters.y)?.as_slice(), &holds)?;
    let value = select(alloc, &letters.y.1, &predicate)?;
    lambdas(alloc, one(alloc, &letters.x)?.as_slice(), &value)
}

fn rel_body(alloc: Global, heads: &[Head], letters: &Letters) -> Result<Term, AllocError>
    requires some { 0 < length heads.now }
    ensures { IfOk result (λ t. t ≡ rel_body heads.now letters.now) }
{
    let calls = calls_constant(alloc, heads)?;
    let sum = sum_constant(alloc, heads)?;
    let z = as_term(alloc, &letters.z)?;
    let holds = at_three(alloc, &calls, &sum, &z, &as_term(alloc, &letters.x)?)?;
    let vars = two(alloc, &letters.z, &letters.x)?;
    lambdas(alloc, vars.as_slice(), &holds)
}

fn dom_body(alloc: Global, heads: &[Head]) -> Result<Term, AllocError>
    requires some { 0 < length heads.now }
    ensures { IfOk result (λ t. t ≡ dom_body heads.now) }
{
    let acc = acc_constant(alloc, &argument_sum(alloc, heads)?)?;
    apply(alloc, &acc, &rel_constant(alloc, heads)?)
}

fn function_body(alloc: Global, heads: &[Head], index: u32, head: &Head) -> Result<Term, AllocError>
    requires some { 0 < length heads.now }
    ensures { IfOk result (λ t. t ≡ function_body heads.now index head.now) }
{
    let vars = parameters(alloc, head)?;
    let args = as_terms(alloc, vars.as_slice())?;
    let arg = in_term(alloc, heads, index, args.as_slice())?;
    let value = apply(alloc, &sum_constant(alloc, heads)?, &arg)?;
    let result = result_out(alloc, heads, index, &value)?;
    lambdas(alloc, vars.as_slice(), &result)
}

// The two relations that say what the clauses say, and the graph.
fn first_three(
    alloc: Global,
    group: &Group,
    letters: &Letters,
) -> Result<Items<(Name, Term)>, AllocError>
    requires some { 0 < length group.now.heads }
    ensures { IfOk result (λ terms. terms ≡ (clauses_name group.now.heads, clauses_body group.now letters.now)
        ∷ (calls_name group.now.heads, calls_body group.now letters.now) ∷ (graph_name group.now.heads, graph_body group.now.heads letters.now) ∷ []) }
{
    let heads = group.heads.as_slice();
    let mut terms = Items::new(alloc);
    terms.push((
        clauses_name(alloc, heads)?,
        clauses_body(alloc, group, letters)?,
    ))?;
    terms.push((
        calls_name(alloc, heads)?,
        calls_body(alloc, group, letters)?,
    ))?;
    terms.push((
        graph_name(alloc, heads)?,
        graph_body(alloc, heads, letters)?,
    ))?;
    Ok(terms)
}

// The function of all arguments, the relation of calls, and its domain.
fn next_three(
    alloc: Global,
    heads: &[Head],
    letters: &Letters,
) -> Result<Items<(Name, Term)>, AllocError>
    requires some { 0 < length heads.now }
    ensures { IfOk result (λ terms. terms ≡ (sum_name heads.now, sum_body heads.now letters.now)
        ∷ (rel_name heads.now, rel_body heads.now letters.now) ∷ (dom_name heads.now, dom_body heads.now) ∷ []) }
{
    let mut terms = Items::new(alloc);
    terms.push((sum_name(alloc, heads)?, sum_body(alloc, heads, letters)?))?;
    terms.push((rel_name(alloc, heads)?, rel_body(alloc, heads, letters)?))?;
    terms.push((dom_name(alloc, heads)?, dom_body(alloc, heads)?))?;
    Ok(terms)
}

// What is defined before the functions.
fn relations(
    alloc: Global,
    group: &Group,
    letters: &Letters,
) -> Result<Items<(Name, Term)>, AllocError>
    requires some { 0 < length group.now.heads }
    ensures { IfOk result (λ terms. terms ≡ relations_by group.now letters.now) }
{
    let first = first_three(alloc, group, letters)?;
    first.extended(next_three(alloc, group.heads.as_slice(), letters)?)
}

// The functions and their bodies.
fn functions(alloc: Global, heads: &[Head]) -> Result<Items<(Name, Term)>, AllocError>
    requires some { 0 < length heads.now }
    ensures { IfOk result (λ terms. terms ≡ functions_from heads.now 0 heads.now) }
{
    let mut terms = Items::new(alloc);
    let mut number = 0u32;
    for head in heads {
        terms.push((
            head.name.copy()?,
            function_body(alloc, heads, number, head)?,
        ))?;
        number = next(number)?;
    }
    Ok(terms)
}

/// The constants that a group is defined by, in the order in which they are defined, with their bodies: `f_clauses`, `f_calls`,
/// `f_graph`, `f_sum`, `f_rel`, `f_dom` and each function, where `f` is the name of the first one. Want of memory where a name
/// would be too long.
pub fn defining_terms(alloc: Global, group: &Group) -> Result<Items<(Name, Term)>, AllocError>
    requires some { 0 < length group.now.heads }
    ensures { IfOk result (λ terms. terms ≡ defining_terms_of group.now) }
{
    let letters = letters_of(alloc, group)?;
    let relations = relations(alloc, group, &letters)?;
    relations.extended(functions(alloc, group.heads.as_slice())?)
}
