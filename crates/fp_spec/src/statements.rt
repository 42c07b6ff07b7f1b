//! What is proved of a group.
ghost use Rattle.std.specs.Prelude.{◌≡◌, ◌<◌, ◌∷◌, ◌++◌, [], length, true, false, Some, codes, IfOk, OnOk};
ghost use Rattle.fp_term.specs.Names.{numbered};
ghost use Rattle.fp_spec.specs.Statements.{clause_equation_by, clause_equation, in_domain, guarded_equation, simp_of, psimp_of, termination_of};
ghost use Rattle.fp_spec.specs.Statements.{predicate_on, hidden_from, hidden_predicates, shown_from, shown_predicates, holds, site_premise, site_premises};
ghost use Rattle.fp_spec.specs.Statements.{domain_premise, induction_case, cases_from, induction_for, renaming, induction_by, induction_of, pinduct_of, induct_of};

use crate::heads::{argument_sum, function_at, in_term, parameters};
use crate::helpers::{helper, names_in};
use crate::letters::{as_term, as_terms};
use crate::naming::dom_constant;
use crate::relations::clause_variables;
use fp_conclude::{apply, equation, for_all, implication, true_constant, truth_type};
use fp_group::{CallSite, Clause, Group, Head};
use fp_shapes::{for_alls, implications};
use fp_term::{Items, Name, Term, Ty, function_of_all, inst, next, numbered};
use std::alloc::{AllocError, Global};

// `f p1 .. pn = r`
fn equation_of(alloc: Global, head: &Head, clause: &Clause) -> Result<Term, AllocError>
    ensures { IfOk result (λ t. t ≡ clause_equation_by clause.now (Some head.now)) }
{
    let function = function_at(alloc, head)?;
    let left = fp_term::apply(alloc, &function, clause.patterns.as_slice())?;
    equation(alloc, &head.result, &left, &clause.right)
}

#[tactic(auto, using(crate::proofs::Missing::no_equation))]
fn clause_equation(alloc: Global, heads: &[Head], clause: &Clause) -> Result<Term, AllocError>
    ensures { IfOk result (λ t. t ≡ clause_equation heads.now clause.now) }
{
    match heads.get(clause.function as usize) {
        Some(head) => equation_of(alloc, head, clause),
        None => true_constant(alloc),
    }
}

// `f_dom (in(t))`
fn in_domain(alloc: Global, heads: &[Head], index: u32, args: &[Term]) -> Result<Term, AllocError>
    requires some { 0 < length heads.now }
    ensures { IfOk result (λ t. t ≡ in_domain heads.now index args.now) }
{
    let dom = dom_constant(alloc, heads)?;
    apply(alloc, &dom, &in_term(alloc, heads, index, args)?)
}

fn guarded_equation(alloc: Global, heads: &[Head], clause: &Clause) -> Result<Term, AllocError>
    requires some { 0 < length heads.now }
    ensures { IfOk result (λ t. t ≡ guarded_equation heads.now clause.now) }
{
    let premise = in_domain(alloc, heads, clause.function, clause.patterns.as_slice())?;
    implication(alloc, &premise, &clause_equation(alloc, heads, clause)?)
}

/// `f_simp_j`, for the clause of that number, from 0: `f p1 .. pn = r`. `T` where there is no such clause.
#[tactic(auto, using(crate::proofs::Missing::no_simp))]
pub fn simp_statement(alloc: Global, group: &Group, number: u32) -> Result<Term, AllocError>
    ensures { IfOk result (λ t. t ≡ simp_of group.now number) }
{
    match group.clauses.as_slice().get(number as usize) {
        Some(clause) => clause_equation(alloc, group.heads.as_slice(), clause),
        None => true_constant(alloc),
    }
}

/// `f_psimp_j`, for the clause of that number, from 0: `f_dom (in(p)) --> f p1 .. pn = r`. `T` where there is no such clause.
#[tactic(auto, using(crate::proofs::Missing::no_psimp))]
pub fn psimp(alloc: Global, group: &Group, number: u32) -> Result<Term, AllocError>
    requires some { 0 < length group.now.heads }
    ensures { IfOk result (λ t. t ≡ psimp_of group.now number) }
{
    match group.clauses.as_slice().get(number as usize) {
        Some(clause) => guarded_equation(alloc, group.heads.as_slice(), clause),
        None => true_constant(alloc),
    }
}

/// `f_termination`: `!x. f_dom x`.
pub fn termination(alloc: Global, group: &Group) -> Result<Term, AllocError>
    requires some { 0 < length group.now.heads }
    ensures { IfOk result (λ t. t ≡ termination_of group.now) }
{
    let heads = group.heads.as_slice();
    let dom = dom_constant(alloc, heads)?;
    let body = apply(alloc, &dom, &Term::bound(alloc, 0)?)?;
    for_all(alloc, &argument_sum(alloc, heads)?, &body)
}

fn predicate_on(alloc: Global, head: &Head) -> Result<Ty, AllocError>
    ensures { IfOk result (λ ty. ty ≡ predicate_on head.now) }
{
    function_of_all(alloc, head.args.as_slice(), truth_type(alloc)?)
}

// A predicate for each function, under names that aren't known.
fn hidden_from(
    alloc: Global,
    known: &[Name],
    heads: &[Head],
) -> Result<Items<(Name, Ty)>, AllocError>
    ensures { IfOk result (λ vars. vars ≡ hidden_from known.now 5 heads.now) }
{
    let mut vars = Items::new(alloc);
    let mut number = 5u32;
    for head in heads {
        vars.push((helper(alloc, known, number)?, predicate_on(alloc, head)?))?;
        number = next(number)?;
    }
    Ok(vars)
}

fn hidden_predicates(alloc: Global, group: &Group) -> Result<Items<(Name, Ty)>, AllocError>
    ensures { IfOk result (λ vars. vars ≡ hidden_predicates group.now) }
{
    let known = names_in(alloc, group)?;
    hidden_from(alloc, known.as_slice(), group.heads.as_slice())
}

#[tactic(auto, unfolding(fp_term::specs::Names::is_name))]
fn shown_name(alloc: Global, number: u32) -> Result<Name, AllocError>
    ensures { IfOk result (λ name. name ≡ numbered (codes "P") number) }
{
    let stem = Name::of(alloc, b"P")?;
    numbered(alloc, &stem, number)
}

fn shown_from(alloc: Global, heads: &[Head]) -> Result<Items<(Name, Ty)>, AllocError>
    ensures { IfOk result (λ vars. vars ≡ shown_from 1 heads.now) }
{
    let mut vars = Items::new(alloc);
    let mut number = 1u32;
    for head in heads {
        vars.push((shown_name(alloc, number)?, predicate_on(alloc, head)?))?;
        number = next(number)?;
    }
    Ok(vars)
}

// The predicate of a single function.
#[tactic(auto, unfolding(fp_term::specs::Names::is_name))]
fn shown_alone(alloc: Global, head: &Head) -> Result<Items<(Name, Ty)>, AllocError>
    ensures { IfOk result (λ vars. vars ≡ shown_predicates (head.now ∷ [])) }
{
    let name = Name::of(alloc, b"P")?;
    Items::new(alloc).appended((name, predicate_on(alloc, head)?))
}

// `P`, or `P1 .. Pk`.
#[tactic(auto, using(crate::proofs::Alone::only, crate::proofs::Alone::several))]
fn shown_predicates(alloc: Global, heads: &[Head]) -> Result<Items<(Name, Ty)>, AllocError>
    ensures { IfOk result (λ vars. vars ≡ shown_predicates heads.now) }
{
    if heads.len() == 1 {
        shown_alone(alloc, &heads[0])
    } else {
        shown_from(alloc, heads)
    }
}

// A predicate at the arguments of its function.
#[tactic(auto, using(crate::proofs::Missing::not_held))]
fn holds(
    alloc: Global,
    predicates: &[(Name, Ty)],
    index: u32,
    args: &[Term],
) -> Result<Term, AllocError>
    ensures { IfOk result (λ t. t ≡ holds predicates.now index args.now) }
{
    match predicates.get(index as usize) {
        Some(predicate) => fp_term::apply(alloc, &as_term(alloc, predicate)?, args),
        None => true_constant(alloc),
    }
}

// `!newvars. G1 --> .. --> Pj a1 .. an`
fn site_premise(
    alloc: Global,
    predicates: &[(Name, Ty)],
    site: &CallSite,
) -> Result<Term, AllocError>
    ensures { IfOk result (λ t. t ≡ site_premise predicates.now site.now) }
{
    let held = holds(alloc, predicates, site.callee, site.args.as_slice())?;
    let guarded = implications(alloc, site.guards.as_slice(), &held)?;
    for_alls(alloc, site.vars.as_slice(), &guarded)
}

// Puts those of the clause of that number at the end of the list.
fn add_site_premises(
    alloc: Global,
    premises: &mut Items<Term>,
    predicates: &[(Name, Ty)],
    number: u32,
    sites: &[CallSite],
) -> Result<(), AllocError>
    ensures { OnOk result (premises.new ≡ premises.old ++ site_premises predicates.now number sites.now) }
{
    for site in sites {
        if site.clause == number {
            premises.push(site_premise(alloc, predicates, site)?)?;
        }
    }
    Ok(())
}

// Puts `f_dom (in(t))` at the end of the list, where induction is over the domain.
fn add_domain(
    alloc: Global,
    premises: &mut Items<Term>,
    partial: bool,
    heads: &[Head],
    index: u32,
    args: &[Term],
) -> Result<(), AllocError>
    requires some { 0 < length heads.now }
    ensures { OnOk result (premises.new ≡ premises.old ++ domain_premise partial heads.now index args.now) }
{
    if partial {
        premises.push(in_domain(alloc, heads, index, args)?)
    } else {
        Ok(())
    }
}

// `!vars. f_dom (in(p)) --> H1 --> .. --> Hs --> Pi p1 .. pn`
fn induction_case(
    alloc: Global,
    partial: bool,
    predicates: &[(Name, Ty)],
    group: &Group,
    number: u32,
    clause: &Clause,
) -> Result<Term, AllocError>
    requires some { 0 < length group.now.heads }
    ensures { IfOk result (λ t. t ≡ induction_case partial predicates.now group.now number clause.now) }
{
    let heads = group.heads.as_slice();
    let patterns = clause.patterns.as_slice();
    let mut premises = Items::new(alloc);
    add_domain(
        alloc,
        &mut premises,
        partial,
        heads,
        clause.function,
        patterns,
    )?;
    add_site_premises(
        alloc,
        &mut premises,
        predicates,
        number,
        group.sites.as_slice(),
    )?;
    let held = holds(alloc, predicates, clause.function, patterns)?;
    let leads = implications(alloc, premises.as_slice(), &held)?;
    let vars = clause_variables(alloc, clause)?;
    for_alls(alloc, vars.as_slice(), &leads)
}

fn cases(
    alloc: Global,
    partial: bool,
    predicates: &[(Name, Ty)],
    group: &Group,
) -> Result<Items<Term>, AllocError>
    requires some { 0 < length group.now.heads }
    ensures { IfOk result (λ ts. ts ≡ cases_from partial predicates.now group.now 0 group.now.clauses) }
{
    let mut cases = Items::new(alloc);
    let mut number = 0u32;
    let clauses = group.clauses.as_slice();
    for clause in clauses {
        cases.push(induction_case(alloc, partial, predicates, group, number, clause)?)?;
        number = next(number)?;
    }
    Ok(cases)
}

// `Case1 --> .. --> Casec --> f_dom (in(x)) --> Pi x1 .. xn`
fn induction_for(
    alloc: Global,
    partial: bool,
    predicates: &[(Name, Ty)],
    group: &Group,
    index: u32,
    head: &Head,
) -> Result<Term, AllocError>
    requires some { 0 < length group.now.heads }
    ensures { IfOk result (λ t. t ≡ induction_for partial predicates.now group.now index head.now) }
{
    let vars = parameters(alloc, head)?;
    let args = as_terms(alloc, vars.as_slice())?;
    let mut premises = cases(alloc, partial, predicates, group)?;
    add_domain(
        alloc,
        &mut premises,
        partial,
        group.heads.as_slice(),
        index,
        args.as_slice(),
    )?;
    let held = holds(alloc, predicates, index, args.as_slice())?;
    implications(alloc, premises.as_slice(), &held)
}

// The second variables in place of the first.
fn renaming(
    alloc: Global,
    vars: &[(Name, Ty)],
    others: &[(Name, Ty)],
) -> Result<Items<(Name, Ty, Term)>, AllocError>
    ensures { IfOk result (λ pairs. pairs ≡ renaming vars.now others.now) }
{
    let mut pairs = Items::new(alloc);
    for at in 0..vars.len() {
        if at >= others.len() {
            return Ok(pairs);
        }
        let var = &vars[at];
        pairs.push((var.0.copy()?, var.1.copy()?, as_term(alloc, &others[at])?))?;
    }
    Ok(pairs)
}

fn induction_by(
    alloc: Global,
    partial: bool,
    group: &Group,
    index: u32,
    head: &Head,
) -> Result<Term, AllocError>
    requires some { 0 < length group.now.heads }
    ensures { IfOk result (λ t. t ≡ induction_by partial group.now index (Some head.now)) }
{
    let hidden = hidden_predicates(alloc, group)?;
    let stated = induction_for(alloc, partial, hidden.as_slice(), group, index, head)?;
    let shown = shown_predicates(alloc, group.heads.as_slice())?;
    let pairs = renaming(alloc, hidden.as_slice(), shown.as_slice())?;
    inst(alloc, &stated, pairs.as_slice())
}

#[tactic(auto, using(crate::proofs::Missing::no_induction))]
fn induction_of(alloc: Global, partial: bool, group: &Group, index: u32) -> Result<Term, AllocError>
    requires some { 0 < length group.now.heads }
    ensures { IfOk result (λ t. t ≡ induction_of partial group.now index) }
{
    match group.heads.as_slice().get(index as usize) {
        Some(head) => induction_by(alloc, partial, group, index, head),
        None => true_constant(alloc),
    }
}

/// `fi_pinduct`, for the function of that number, from 0: a case for each clause, then `f_dom (in(x)) --> Pi x1 .. xn`. `T` where
/// there is no such function.
pub fn pinduct(alloc: Global, group: &Group, index: u32) -> Result<Term, AllocError>
    requires some { 0 < length group.now.heads }
    ensures { IfOk result (λ t. t ≡ pinduct_of group.now index) }
{
    induction_of(alloc, true, group, index)
}

/// `fi_induct`: the same without what it says of `f_dom`.
pub fn induct(alloc: Global, group: &Group, index: u32) -> Result<Term, AllocError>
    requires some { 0 < length group.now.heads }
    ensures { IfOk result (λ t. t ≡ induct_of group.now index) }
{
    induction_of(alloc, false, group, index)
}
