//! The names that a command for a group makes, and whether they are free.
ghost use Rattle.std.specs.Prelude.{◌≡◌, ◌++◌, codes, IfOk};
ghost use Rattle.fp_term.specs.Names.{numbered};

use crate::fault::name_taken;
use crate::spec::GroupSpec;
use fp_commands::Head;
use fp_outcome::FunFault;
use fp_term::{Arities, Name, numbered};
use fp_theory::Theory;
use std::alloc::{AllocError, Global};

// So many numbers of theorems count as made by a command, whether it makes them or not.
const NUMBERED: u32 = 256;

// The longest name that a number is put to.
const LONGEST_STEM: usize = 150;

// The name with an ending; want of memory where it is no name then, being too long.
fn longer(alloc: Global, name: &Name, ending: &[u8]) -> Result<Name, AllocError>
    ensures { IfOk result (λ n. n ≡ name.now ++ ending.now) }
{
    let mut bytes = Vec::from_slice(alloc, name.as_slice())?;
    bytes.extend_from_slice(ending)?;
    match Name::new(alloc, bytes.as_slice())? {
        Some(name) => Ok(name),
        None => Err(AllocError),
    }
}

fn with_number(alloc: Global, stem: &Name, number: u32) -> Result<Name, AllocError>
    ensures { IfOk result (λ n. n ≡ numbered stem.now number) }
{
    if stem.as_slice().len() > LONGEST_STEM {
        return Err(AllocError);
    }
    numbered(alloc, stem, number)
}

/// The name of the theorem that defines a constant.
pub fn definition_name(alloc: Global, constant: &Name) -> Result<Name, AllocError>
    ensures { IfOk result (λ n. n ≡ constant.now ++ codes "_def") }
{
    longer(alloc, constant, b"_def")
}

/// The name of the partial rule of that number, from 1, of the group with that first function.
pub fn psimp_name(alloc: Global, first: &Name, number: u32) -> Result<Name, AllocError>
    ensures { IfOk result (λ n. n ≡ numbered (first.now ++ codes "_psimp_") number) }
{
    let stem = longer(alloc, first, b"_psimp_")?;
    with_number(alloc, &stem, number)
}

/// The name of the rule of that number, from 1, of the group with that first function.
pub fn simp_name(alloc: Global, first: &Name, number: u32) -> Result<Name, AllocError>
    ensures { IfOk result (λ n. n ≡ numbered (first.now ++ codes "_simp_") number) }
{
    let stem = longer(alloc, first, b"_simp_")?;
    with_number(alloc, &stem, number)
}

/// The name of a function's partial rule of induction.
pub fn pinduct_name(alloc: Global, function: &Name) -> Result<Name, AllocError>
    ensures { IfOk result (λ n. n ≡ function.now ++ codes "_pinduct") }
{
    longer(alloc, function, b"_pinduct")
}

/// The name of a function's rule of induction.
pub fn induct_name(alloc: Global, function: &Name) -> Result<Name, AllocError>
    ensures { IfOk result (λ n. n ≡ function.now ++ codes "_induct") }
{
    longer(alloc, function, b"_induct")
}

/// The name of the theorem that the group with that first function ends.
pub fn termination_name(alloc: Global, first: &Name) -> Result<Name, AllocError>
    ensures { IfOk result (λ n. n ≡ first.now ++ codes "_termination") }
{
    longer(alloc, first, b"_termination")
}

// What the name of the group's constant of that number ends with.
fn ending(number: u32) -> &'static [u8] {
    match number {
        0 => b"_clauses",
        1 => b"_calls",
        2 => b"_graph",
        3 => b"_sum",
        4 => b"_rel",
        _ => b"_dom",
    }
}

fn check_theorem(theory: &Theory, at: u32, name: &Name) -> Result<(), FunFault> {
    match theory.find(name) {
        Some(_) => Err(name_taken(at, name)),
        None => Ok(()),
    }
}

// Is there a constant of that name, or does the command make one before?
fn is_constant(theory: &Theory, made: &Arities, name: &Name) -> bool {
    theory.signature().const_type(name).is_some() || made.find(name).is_some()
}

// A constant and its definition. Only constants of one command can have one name: its theorems' names differ where those
// of its constants do.
fn check_constant(
    alloc: Global,
    theory: &Theory,
    at: u32,
    made: &mut Arities,
    name: &Name,
) -> Result<(), FunFault> {
    if is_constant(theory, made, name) {
        return Err(name_taken(at, name));
    }
    check_theorem(theory, at, &definition_name(alloc, name)?)?;
    made.push((name.copy()?, 0))?;
    Ok(())
}

fn check_constants(
    alloc: Global,
    theory: &Theory,
    at: u32,
    first: &Name,
    heads: &[Head],
) -> Result<(), FunFault> {
    let mut made = Arities::new(alloc)?;
    for number in 0..6u32 {
        let name = longer(alloc, first, ending(number))?;
        check_constant(alloc, theory, at, &mut made, &name)?;
    }
    for head in heads {
        check_constant(alloc, theory, at, &mut made, &head.name)?;
    }
    Ok(())
}

// All numbered names of that stem.
fn check_numbered(
    alloc: Global,
    theory: &Theory,
    at: u32,
    first: &Name,
    ending: &[u8],
) -> Result<(), FunFault> {
    let stem = longer(alloc, first, ending)?;
    for before in 0..NUMBERED {
        let name = with_number(alloc, &stem, before + 1)?;
        check_theorem(theory, at, &name)?;
    }
    Ok(())
}

// The name of each function with that ending.
fn check_each(
    alloc: Global,
    theory: &Theory,
    at: u32,
    heads: &[Head],
    ending: &[u8],
) -> Result<(), FunFault> {
    for head in heads {
        let name = longer(alloc, &head.name, ending)?;
        check_theorem(theory, at, &name)?;
    }
    Ok(())
}

fn check_total(
    alloc: Global,
    theory: &Theory,
    at: u32,
    first: &Name,
    heads: &[Head],
) -> Result<(), FunFault> {
    check_theorem(theory, at, &termination_name(alloc, first)?)?;
    check_numbered(alloc, theory, at, first, b"_simp_")?;
    check_each(alloc, theory, at, heads, b"_induct")
}

/// Are all names free that the command would make, with or without the rules of a total function? They are tried in the order
/// in which they would be made.
pub(crate) fn check_names(
    alloc: Global,
    theory: &Theory,
    spec: GroupSpec<'_>,
    total: bool,
) -> Result<(), FunFault> {
    let Some((head, _)) = spec.heads.split_first() else {
        return Ok(());
    };
    check_constants(alloc, theory, spec.at, &head.name, spec.heads)?;
    check_numbered(alloc, theory, spec.at, &head.name, b"_psimp_")?;
    check_each(alloc, theory, spec.at, spec.heads, b"_pinduct")?;
    if total {
        check_total(alloc, theory, spec.at, &head.name, spec.heads)?;
    }
    Ok(())
}
