//! Names that occur nowhere in a group.
ghost use Rattle.std.specs.Prelude.{◌≡◌, ◌<◌, ◌^◌, ◌++◌, ◌+◌, length, map, IfOk, OnOk};
ghost use Rattle.fp_term.specs.Variables.{is_among};
ghost use Rattle.fp_cong.specs.Rows.{names_of, all_names};
ghost use Rattle.fp_spec.specs.Helpers.{names_in_clauses, names_in_site, names_in_sites, names_in, candidate, unused_from, helper_number, helper};

use fp_group::{CallSite, Clause, Group};
use fp_term::{Items, Name, Node, Term, Ty, next, numbered};
use std::alloc::{AllocError, Global};

fn add_names(names: &mut Items<Name>, term: &Term) -> Result<(), AllocError>
    ensures { OnOk result (names.new ≡ names.old ++ names_of term.now) }
{
    match term.node() {
        Node::Bound(_) => Ok(()),
        Node::Free { name, .. } => names.push(name.copy()?),
        Node::Const { name, .. } => names.push(name.copy()?),
        Node::App { fun, arg } => {
            add_names(names, fun)?;
            add_names(names, arg)
        }
        Node::Abs { body, .. } => add_names(names, body),
    }
}

fn add_all_names(names: &mut Items<Name>, terms: &[Term]) -> Result<(), AllocError>
    ensures { OnOk result (names.new ≡ names.old ++ all_names terms.now) }
{
    for term in terms {
        add_names(names, term)?;
    }
    Ok(())
}

fn add_names_of_variables(names: &mut Items<Name>, vars: &[(Name, Ty)]) -> Result<(), AllocError>
    ensures { OnOk result (names.new ≡ names.old ++ map (λ v. v.0) vars.now) }
{
    for var in vars {
        names.push(var.0.copy()?)?;
    }
    Ok(())
}

fn add_names_in_clauses(names: &mut Items<Name>, clauses: &[Clause]) -> Result<(), AllocError>
    ensures { OnOk result (names.new ≡ names.old ++ names_in_clauses clauses.now) }
{
    for clause in clauses {
        add_all_names(names, clause.patterns.as_slice())?;
        add_names(names, &clause.right)?;
    }
    Ok(())
}

fn add_names_in_site(names: &mut Items<Name>, site: &CallSite) -> Result<(), AllocError>
    ensures { OnOk result (names.new ≡ names.old ++ names_in_site site.now) }
{
    add_names_of_variables(names, site.vars.as_slice())?;
    add_all_names(names, site.guards.as_slice())?;
    add_all_names(names, site.args.as_slice())
}

fn add_names_in_sites(names: &mut Items<Name>, sites: &[CallSite]) -> Result<(), AllocError>
    ensures { OnOk result (names.new ≡ names.old ++ names_in_sites sites.now) }
{
    for site in sites {
        add_names_in_site(names, site)?;
    }
    Ok(())
}

/// The names of the variables and constants in the clauses and the sites of a group, those of added variables too.
pub fn names_in(alloc: Global, group: &Group) -> Result<Items<Name>, AllocError>
    ensures { IfOk result (λ names. names ≡ names_in group.now) }
{
    let mut names = Items::new(alloc);
    add_names_in_clauses(&mut names, group.clauses.as_slice())?;
    add_names_in_sites(&mut names, group.sites.as_slice())?;
    Ok(names)
}

// a1, a2, ..
#[tactic(auto, unfolding(fp_term::specs::Names::is_name))]
fn candidate(alloc: Global, number: u32) -> Result<Name, AllocError>
    ensures { IfOk result (λ name. name ≡ candidate number) }
{
    let stem = Name::of(alloc, b"a")?;
    numbered(alloc, &stem, number)
}

fn is_among(names: &[Name], name: &Name) -> bool
    ensures { result ≡ is_among names.now name.now }
{
    for one in names {
        if one.equals(name) {
            return true;
        }
    }
    false
}

// The first number, from this one on, of a candidate that isn't known.
fn unused_from(alloc: Global, known: &[Name], from: u32) -> Result<u32, AllocError>
    ensures { IfOk result (λ n. n ≡ unused_from known.now (length known.now) from) }
{
    let mut number = from;
    let mut left = known.len();
    while left > 0 {
        if !is_among(known, &candidate(alloc, number)?) {
            return Ok(number);
        }
        number = next(number)?;
        left -= 1;
    }
    Ok(number)
}

fn helper_number(alloc: Global, known: &[Name], count: u32) -> Result<u32, AllocError>
    ensures { IfOk result (λ n. n ≡ helper_number known.now count) }
{
    let mut number = unused_from(alloc, known, 1)?;
    for _ in 0..count {
        number = unused_from(alloc, known, next(number)?)?;
    }
    Ok(number)
}

/// The unknown one of `a1`, `a2`, .. that so many unknown ones come before.
pub fn helper(alloc: Global, known: &[Name], count: u32) -> Result<Name, AllocError>
    ensures exact { IfOk result (λ name. name ≡ helper known.now count) }
    ensures low { IfOk result (λ _. helper_number known.now count < 2 ^ 32) }
{
    candidate(alloc, helper_number(alloc, known, count)?)
}
