//! What is shown of a group: theorems that the theory names, each compared with what it is to state.
ghost use Rattle.std.specs.Prelude.{◌≡◌, ◌<◌, [], ◌∷◌, length, IfOk, IfErr, IfSome, OnOk};
ghost use Rattle.fp_kernel.specs.Theorems.{IsTheorem};
ghost use Rattle.fp_kernel.specs.Conservative.{IsConservative};
ghost use Rattle.fp_outcome.specs.Shown.{ListsHaveOnly, IsShownFault};
ghost use Rattle.fp_report.specs.Texts.{IsShownStatement};
ghost use Rattle.fp_fun.specs.Named.{stated, IsNamed, IsNamedItem, AreNamed};

use crate::plan::Plan;
use crate::proving::unproved;
use fp_admit::{
    definition_name, induct_name, pinduct_name, psimp_name, simp_name, termination_name,
};
use fp_conclude::equation;
use fp_group::{Group, Head};
use fp_kernel::Thm;
use fp_outcome::{FunFault, parts_of};
use fp_proof::Stop;
use fp_report::Item;
use fp_spec::{defining_terms, induct, pinduct, psimp, simp_statement, termination};
use fp_term::{Items, Name, Statement, Term, TypeOfFault, next, same, type_of};
use fp_theory::Theory;
use std::alloc::{AllocError, Global};

// What a theorem without hypotheses states, which can be printed.
#[tactic(auto, using(crate::proofs::Stating::statement_shown))]
fn statement_of(alloc: Global, theorem: &Thm) -> Result<Statement, AllocError>
    requires { theorem.now.hyps ≡ [] }
    ensures statement { IfOk result (λ s. s ≡ stated theorem.now.concl) }
    ensures shown { IfOk result IsShownStatement }
    ensures derived { IfOk result (λ _. IsTheorem theorem.now) }
    ensures conservative { IfOk result (λ _. IsConservative theorem.now.defs) }
{
    let _level = theorem.level();
    let _concl = theorem.concl();
    let statement = theorem.statement(alloc)?;
    Ok(statement)
}

// The statement of the theorem of that name, where it is the one that is due.
#[tactic(auto, using(crate::proofs::Stating::named))]
fn named(
    alloc: Global,
    at: u32,
    theory: &Theory,
    name: &Name,
    due: &Term,
) -> Result<Statement, FunFault>
    ensures is { IfOk result (λ s. s ≡ stated due.now) }
    ensures named { IfOk result (IsNamed theory.now name.now) }
    ensures shown { IfOk result IsShownStatement }
    ensures err { IfErr result IsShownFault }
{
    let Some(theorem) = theory.find(name) else {
        return Err(unproved(at, Stop::Stuck, name));
    };
    if !same(theorem.concl(), due) {
        return Err(unproved(at, Stop::Stuck, name));
    }
    Ok(statement_of(alloc, theorem)?)
}

#[tactic(auto, using(crate::proofs::Stating::pushed))]
fn push(theory: &Theory, items: &mut Items<Item>, item: Item) -> Result<(), AllocError>
    requires items { AreNamed theory.now items.old }
    requires item { IsNamedItem theory.now item }
    ensures { OnOk result (AreNamed theory.now items.new) }
{
    items.push(item)
}

// Shows the theorem of that name.
fn show(
    alloc: Global,
    at: u32,
    theory: &Theory,
    name: Name,
    due: &Term,
    items: &mut Items<Item>,
) -> Result<(), FunFault>
    requires { AreNamed theory.now items.old }
    ensures items { OnOk result (AreNamed theory.now items.new) }
    ensures err { IfErr result IsShownFault }
{
    match named(alloc, at, theory, &name, due) {
        Ok(statement) => Ok(push(theory, items, Item::Theorem(name, statement))?),
        Err(fault) => Err(fault),
    }
}

// That the constant is the term.
fn definition_of(alloc: Global, name: &Name, body: &Term) -> Result<Term, AllocError> {
    match type_of(alloc, body) {
        Ok(ty) => {
            let constant = Term::constant(alloc, name.copy()?, ty.copy()?)?;
            equation(alloc, &ty, &constant, body)
        }
        Err(_) => Err(AllocError),
    }
}

fn show_definition(
    alloc: Global,
    at: u32,
    theory: &Theory,
    name: &Name,
    body: &Term,
    items: &mut Items<Item>,
) -> Result<(), FunFault>
    requires { AreNamed theory.now items.old }
    ensures items { OnOk result (AreNamed theory.now items.new) }
    ensures err { IfErr result IsShownFault }
{
    let due = definition_of(alloc, name, body)?;
    let label = definition_name(alloc, name)?;
    match named(alloc, at, theory, &label, &due) {
        Ok(statement) => Ok(push(theory, items, Item::Definition(label, statement))?),
        Err(fault) => Err(fault),
    }
}

fn show_definitions(
    alloc: Global,
    at: u32,
    theory: &Theory,
    terms: &[(Name, Term)],
    items: &mut Items<Item>,
) -> Result<(), FunFault>
    requires { AreNamed theory.now items.old }
    ensures items { OnOk result (AreNamed theory.now items.new) }
    ensures err { IfErr result IsShownFault }
{
    for (name, body) in terms {
        show_definition(alloc, at, theory, name, body, items)?;
    }
    Ok(())
}

fn show_psimps(
    alloc: Global,
    at: u32,
    theory: &Theory,
    first: &Name,
    group: &Group,
    items: &mut Items<Item>,
) -> Result<(), FunFault>
    requires some { 0 < length group.now.heads }
    requires items { AreNamed theory.now items.old }
    ensures items { OnOk result (AreNamed theory.now items.new) }
    ensures err { IfErr result IsShownFault }
{
    for index in 0..group.clauses.as_slice().len() {
        let Ok(number) = u32::try_from(index) else {
            return Err(FunFault::NoMemory);
        };
        let due = psimp(alloc, group, number)?;
        let name = psimp_name(alloc, first, next(number)?)?;
        show(alloc, at, theory, name, &due, items)?;
    }
    Ok(())
}

fn show_simps(
    alloc: Global,
    at: u32,
    theory: &Theory,
    first: &Name,
    group: &Group,
    items: &mut Items<Item>,
) -> Result<(), FunFault>
    requires items { AreNamed theory.now items.old }
    ensures items { OnOk result (AreNamed theory.now items.new) }
    ensures err { IfErr result IsShownFault }
{
    for index in 0..group.clauses.as_slice().len() {
        let Ok(number) = u32::try_from(index) else {
            return Err(FunFault::NoMemory);
        };
        let due = simp_statement(alloc, group, number)?;
        let name = simp_name(alloc, first, next(number)?)?;
        show(alloc, at, theory, name, &due, items)?;
    }
    Ok(())
}

fn show_pinducts(
    alloc: Global,
    at: u32,
    theory: &Theory,
    group: &Group,
    items: &mut Items<Item>,
) -> Result<(), FunFault>
    requires some { 0 < length group.now.heads }
    requires items { AreNamed theory.now items.old }
    ensures items { OnOk result (AreNamed theory.now items.new) }
    ensures err { IfErr result IsShownFault }
{
    let mut index = 0u32;
    for head in group.heads.as_slice() {
        let due = pinduct(alloc, group, index)?;
        show(
            alloc,
            at,
            theory,
            pinduct_name(alloc, &head.name)?,
            &due,
            items,
        )?;
        index = next(index)?;
    }
    Ok(())
}

fn show_inducts(
    alloc: Global,
    at: u32,
    theory: &Theory,
    group: &Group,
    items: &mut Items<Item>,
) -> Result<(), FunFault>
    requires some { 0 < length group.now.heads }
    requires items { AreNamed theory.now items.old }
    ensures items { OnOk result (AreNamed theory.now items.new) }
    ensures err { IfErr result IsShownFault }
{
    let mut index = 0u32;
    for head in group.heads.as_slice() {
        let due = induct(alloc, group, index)?;
        show(
            alloc,
            at,
            theory,
            induct_name(alloc, &head.name)?,
            &due,
            items,
        )?;
        index = next(index)?;
    }
    Ok(())
}

fn show_partial(
    alloc: Global,
    at: u32,
    theory: &Theory,
    first: &Name,
    group: &Group,
    items: &mut Items<Item>,
) -> Result<(), FunFault>
    requires some { 0 < length group.now.heads }
    requires items { AreNamed theory.now items.old }
    ensures items { OnOk result (AreNamed theory.now items.new) }
    ensures err { IfErr result IsShownFault }
{
    let terms = defining_terms(alloc, group)?;
    show_definitions(alloc, at, theory, terms.as_slice(), items)?;
    show_psimps(alloc, at, theory, first, group, items)?;
    show_pinducts(alloc, at, theory, group, items)
}

fn names_of(alloc: Global, heads: &[Head]) -> Result<Items<Name>, AllocError> {
    let mut names = Items::new(alloc);
    for head in heads {
        names.push(head.name.copy()?)?;
    }
    Ok(names)
}

// The order's line.
fn show_order(
    alloc: Global,
    theory: &Theory,
    group: &Group,
    plan: &Plan,
    items: &mut Items<Item>,
) -> Result<(), AllocError>
    requires measures { ListsHaveOnly plan.now.measures }
    requires items { AreNamed theory.now items.old }
    ensures items { OnOk result (AreNamed theory.now items.new) }
{
    let names = names_of(alloc, group.heads.as_slice())?;
    let parts = parts_of(alloc, plan.measures.as_slice(), &plan.found)?;
    push(theory, items, Item::Order(names, parts))
}

fn show_total(
    alloc: Global,
    at: u32,
    theory: &Theory,
    first: &Name,
    group: &Group,
    plan: &Plan,
    items: &mut Items<Item>,
) -> Result<(), FunFault>
    requires some { 0 < length group.now.heads }
    requires measures { ListsHaveOnly plan.now.measures }
    requires items { AreNamed theory.now items.old }
    ensures items { OnOk result (AreNamed theory.now items.new) }
    ensures err { IfErr result IsShownFault }
{
    show_order(alloc, theory, group, plan, items)?;
    let due = termination(alloc, group)?;
    show(
        alloc,
        at,
        theory,
        termination_name(alloc, first)?,
        &due,
        items,
    )?;
    show_simps(alloc, at, theory, first, group, items)?;
    show_inducts(alloc, at, theory, group, items)
}

/// What is shown of a group: its definitions, its partial rules, and where there is an order this and the rules of total
/// functions.
pub(crate) fn shown(
    alloc: Global,
    at: u32,
    theory: &Theory,
    first: &Name,
    group: &Group,
    plan: Option<&Plan>,
) -> Result<Items<Item>, FunFault>
    requires some { 0 < length group.now.heads }
    requires measures { IfSome plan (λ p. ListsHaveOnly p.now.measures) }
    ensures items { IfOk result (AreNamed theory.now) }
    ensures err { IfErr result IsShownFault }
{
    let mut items = Items::new(alloc);
    show_partial(alloc, at, theory, first, group, &mut items)?;
    match plan {
        Some(plan) => show_total(alloc, at, theory, first, group, plan, &mut items)?,
        None => {}
    }
    Ok(items)
}
