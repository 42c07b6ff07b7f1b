//! The command `definition`.
ghost use Rattle.std.specs.Prelude.{◌≡◌, [], ◌∷◌, None, IfOk, IfErr};
ghost use Rattle.fp_kernel.specs.Theorems.{IsTheorem};
ghost use Rattle.fp_kernel.specs.Conservative.{IsConservative};
ghost use Rattle.fp_report.specs.declared.item.Item.TheVariants as item;
ghost use Rattle.fp_report.specs.Items.{AreShown};
ghost use Rattle.fp_theory.specs.Defining.{def_name, taken_by_definition};
ghost use Rattle.fp_command.specs.Outcome.{stated, AcceptsDefinition, RefusesDefinition, FailsDefinition, AreProved};
ghost use Rattle.fp_command.specs.Answers.{Leaves, At, ShowsDefinition};

use crate::fault::{CommandFault, of_definition, refused_of};
use crate::names::suffixed;
use crate::stated::{one, stated};
use crate::terms::elaborated;
use fp_kernel::Thm;
use fp_raw::Raw;
use fp_report::{Item, Naming};
use fp_term::{Items, Name, Term};
use fp_theory::Theory;
use std::alloc::{AllocError, Global};

// What is shown of a definition's theorem.
fn definition_items(alloc: Global, name: &Name, theorem: &Thm) -> Result<Items<Item>, AllocError>
    requires { theorem.now.hyps ≡ [] }
    ensures items { IfOk result (λ items. items ≡ item.Definition (def_name name.now) (stated theorem.now.concl) ∷ []) }
    ensures shown { IfOk result AreShown }
    ensures derived { IfOk result (λ _. IsTheorem theorem.now) }
    ensures conservative { IfOk result (λ _. IsConservative theorem.now.defs) }
{
    let statement = stated(alloc, theorem)?;
    let name = suffixed(alloc, name, b"_def")?;
    one(alloc, Item::Definition(name, statement))
}

// Defines the constant by the term.
fn defined(
    alloc: Global,
    at: u32,
    name: &Name,
    body: &Term,
    theory: &mut Theory,
) -> Result<Items<Item>, CommandFault>
    ensures defines { IfOk result (ShowsDefinition theory.old theory.new name.now body.now) }
    ensures shown { IfOk result AreShown }
    ensures refused { IfErr result (Leaves theory.old theory.new (At at (FailsDefinition theory.old name.now body.now))) }
{
    match theory.define(alloc, name, body) {
        Ok(theorem) => Ok(definition_items(alloc, name, &theorem)?),
        Err(fault) => Err(of_definition(at, fault)),
    }
}

// Defines the constant, whose names are free, by the written term.
#[tactic(auto, using(crate::proofs::Accepting::definition_accepts, crate::proofs::Accepting::definition_proves, crate::proofs::Refusing::definition_refuses, crate::proofs::Refusing::definition_untyped))]
fn define_free(
    alloc: Global,
    at: u32,
    name: &Name,
    term: &Raw,
    theory: &mut Theory,
) -> Result<Items<Item>, CommandFault>
    requires { taken_by_definition theory.old name.now ≡ None }
    ensures accepted { IfOk result (λ items. AcceptsDefinition theory.old name.now term.now items theory.new) }
    ensures proved { IfOk result (AreProved theory.new) }
    ensures shown { IfOk result AreShown }
    ensures refused { IfErr result (Leaves theory.old theory.new (RefusesDefinition theory.old at name.now term.now)) }
{
    match elaborated(alloc, theory, term) {
        Ok(body) => defined(alloc, at, name, &body, theory),
        Err(fault) => Err(fault),
    }
}

/// Defines a constant by a written term, and shows its theorem.
#[tactic(auto, using(crate::proofs::Refusing::definition_taken))]
pub(crate) fn definition(
    alloc: Global,
    at: u32,
    name: &Name,
    term: &Raw,
    theory: &mut Theory,
) -> Result<Items<Item>, CommandFault>
    ensures accepted { IfOk result (λ items. AcceptsDefinition theory.old name.now term.now items theory.new) }
    ensures proved { IfOk result (AreProved theory.new) }
    ensures shown { IfOk result AreShown }
    ensures refused { IfErr result (Leaves theory.old theory.new (RefusesDefinition theory.old at name.now term.now)) }
{
    match theory.taken_by_definition(alloc, name)? {
        Some(taken) => Err(refused_of(at, Naming::NameTaken, taken)),
        None => define_free(alloc, at, name, term, theory),
    }
}
