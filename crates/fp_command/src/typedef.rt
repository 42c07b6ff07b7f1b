//! The command `typedef`.
ghost use Rattle.std.specs.Prelude.{◌≡◌, [], ◌∷◌, ◌++◌, None, IfOk, IfErr, IfSome};
ghost use Rattle.fp_kernel.specs.Definitions.{Within};
ghost use Rattle.fp_kernel.specs.Theorems.{IsTheorem};
ghost use Rattle.fp_kernel.specs.Conservative.{IsConservative};
ghost use Rattle.fp_report.specs.declared.item.Item.TheVariants as item;
ghost use Rattle.fp_report.specs.Items.{IsShown, AreShown};
ghost use Rattle.fp_theory.specs.State.{found_theorem, IsNoted};
ghost use Rattle.fp_theory.specs.Defining.{abs_rep_name, rep_abs_name, taken_by_type};
ghost use Rattle.fp_command.specs.Outcome.{stated, AcceptsType, RefusesType, FailsType, AreProved};
ghost use Rattle.fp_command.specs.Answers.{Leaves, At, ShowsType};

use crate::fault::{CommandFault, of_definition, refused_of};
use crate::names::suffixed;
use crate::stated::{stated, two};
use fp_kernel::Thm;
use fp_report::{Item, Naming};
use fp_term::{Items, Name};
use fp_theory::Theory;
use std::alloc::{AllocError, Global};

/// The names of a new type, of its constants and of the theorem that it is made from.
#[derive(Clone, Copy)]
pub(crate) struct TypeNames<'a> {
    pub(crate) name: &'a Name,
    pub(crate) abs: &'a Name,
    pub(crate) rep: &'a Name,
    pub(crate) fact: &'a Name,
}

// What is shown of one of a type's theorems.
fn type_item(alloc: Global, name: &Name, suffix: &[u8], theorem: &Thm) -> Result<Item, AllocError>
    requires { theorem.now.hyps ≡ [] }
    ensures item { IfOk result (λ i. i ≡ item.Typedef (name.now ++ suffix.now) (stated theorem.now.concl)) }
    ensures shown { IfOk result IsShown }
    ensures derived { IfOk result (λ _. IsTheorem theorem.now) }
    ensures conservative { IfOk result (λ _. IsConservative theorem.now.defs) }
{
    let statement = stated(alloc, theorem)?;
    let name = suffixed(alloc, name, suffix)?;
    Ok(Item::Typedef(name, statement))
}

// What is shown of a type's theorems.
fn type_items(
    alloc: Global,
    name: &Name,
    abs_rep: &Thm,
    rep_abs: &Thm,
) -> Result<Items<Item>, AllocError>
    requires first { abs_rep.now.hyps ≡ [] }
    requires second { rep_abs.now.hyps ≡ [] }
    ensures items { IfOk result (λ items. items ≡ item.Typedef (abs_rep_name name.now) (stated abs_rep.now.concl) ∷ item.Typedef (rep_abs_name name.now) (stated rep_abs.now.concl) ∷ []) }
    ensures shown { IfOk result AreShown }
    ensures derived { IfOk result (λ _. IsTheorem abs_rep.now × IsTheorem rep_abs.now) }
    ensures conservative { IfOk result (λ _. IsConservative abs_rep.now.defs × IsConservative rep_abs.now.defs) }
{
    let first = type_item(alloc, name, b"_abs_rep", abs_rep)?;
    let second = type_item(alloc, name, b"_rep_abs", rep_abs)?;
    two(alloc, first, second)
}

// Defines the type by the theorem.
fn type_defined(
    alloc: Global,
    at: u32,
    names: TypeNames<'_>,
    inhabited: &Thm,
    theory: &mut Theory,
) -> Result<Items<Item>, CommandFault>
    requires within { Within inhabited.now.defs theory.old.defs }
    ensures defines { IfOk result (ShowsType theory.old theory.new names.entry.name.now names.entry.abs.now names.entry.rep.now inhabited.now) }
    ensures shown { IfOk result AreShown }
    ensures refused { IfErr result (Leaves theory.old theory.new (At at (FailsType theory.old names.entry.name.now names.entry.abs.now names.entry.rep.now inhabited.now))) }
{
    match theory.define_type(alloc, names.name, names.abs, names.rep, inhabited) {
        Ok((abs_rep, rep_abs)) => Ok(type_items(alloc, names.name, &abs_rep, &rep_abs)?),
        Err(fault) => Err(of_definition(at, fault)),
    }
}

// The theorem that the type is made from.
fn fact_of(alloc: Global, name: &Name, theory: &Theory) -> Result<Option<Thm>, AllocError>
    ensures found { IfOk result (λ o. found_theorem name.now theory.now.named ≡ o) }
    ensures noted { IfOk result (λ o. IfSome o (IsNoted theory.now.defs)) }
{
    match theory.find(name) {
        Some(theorem) => Ok(Some(theorem.copy(alloc)?)),
        None => Ok(None),
    }
}

// Defines the type, whose names are free, by the named theorem.
#[tactic(auto, using(crate::proofs::Accepting::type_accepts, crate::proofs::Accepting::type_proves, crate::proofs::Refusing::type_refuses, crate::proofs::Refusing::type_without))]
fn type_free(
    alloc: Global,
    at: u32,
    names: TypeNames<'_>,
    theory: &mut Theory,
) -> Result<Items<Item>, CommandFault>
    requires { taken_by_type theory.old names.name.now names.abs.now names.rep.now ≡ None }
    ensures accepted { IfOk result (λ items. AcceptsType theory.old names.entry.name.now names.entry.abs.now names.entry.rep.now names.entry.fact.now items theory.new) }
    ensures proved { IfOk result (AreProved theory.new) }
    ensures shown { IfOk result AreShown }
    ensures refused { IfErr result (Leaves theory.old theory.new (At at (RefusesType theory.old names.entry.name.now names.entry.abs.now names.entry.rep.now names.entry.fact.now))) }
{
    let fact = fact_of(alloc, names.fact, theory)?;
    match fact {
        Some(inhabited) => type_defined(alloc, at, names, &inhabited, theory),
        None => Err(refused_of(at, Naming::NoSuchTheorem, names.fact.copy()?)),
    }
}

/// Defines a type by a named theorem, and shows its theorems.
#[tactic(auto, using(crate::proofs::Refusing::type_taken))]
pub(crate) fn typedef(
    alloc: Global,
    at: u32,
    names: TypeNames<'_>,
    theory: &mut Theory,
) -> Result<Items<Item>, CommandFault>
    ensures accepted { IfOk result (λ items. AcceptsType theory.old names.entry.name.now names.entry.abs.now names.entry.rep.now names.entry.fact.now items theory.new) }
    ensures proved { IfOk result (AreProved theory.new) }
    ensures shown { IfOk result AreShown }
    ensures refused { IfErr result (Leaves theory.old theory.new (At at (RefusesType theory.old names.entry.name.now names.entry.abs.now names.entry.rep.now names.entry.fact.now))) }
{
    match theory.taken_by_type(alloc, names.name, names.abs, names.rep)? {
        Some(taken) => Err(refused_of(at, Naming::NameTaken, taken)),
        None => type_free(alloc, at, names, theory),
    }
}
