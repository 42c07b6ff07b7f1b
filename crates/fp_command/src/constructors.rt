//! The command `constructors`.
ghost use Rattle.std.specs.Prelude.{◌≡◌, [], ◌∷◌, map, None, true, false, IfOk, IfErr};
ghost use Rattle.fp_kernel.specs.Start.{signature_of};
ghost use Rattle.fp_constructors.specs.Answers.{AreConstructors, named};
ghost use Rattle.fp_constructors.specs.Needed.{needed};
ghost use Rattle.fp_data.specs.Lacking.{first_lacking};
ghost use Rattle.fp_report.specs.declared.item.Item.TheVariants as item;
ghost use Rattle.fp_report.specs.Items.{AreShown};
ghost use Rattle.fp_theory.specs.State.{with_type};
ghost use Rattle.fp_command.specs.Outcome.{is_declared, con_type, AcceptsConstructors, RefusesConstructors, AreProved};
ghost use Rattle.fp_command.specs.Answers.{Leaves, Shows, At};

use crate::fault::{CommandFault, refused_of};
use crate::stated::one;
use fp_data::{ConFault, LackFault, Needed, constructor_needs, need};
use fp_group::{ConType, copy_names};
use fp_report::{Item, Naming};
use fp_term::{Items, Name};
use fp_theory::Theory;
use std::alloc::{AllocError, Global};

// Are the constructors of the type of that name among those?
fn is_declared(types: &[ConType], name: &Name) -> bool
    ensures { result ≡ is_declared types.now name.now }
{
    for ty in types {
        if ty.name.equals(name) {
            return true;
        }
    }
    false
}

// The theorems that make the constants the constructors of the type, if they have the types of such.
#[tactic(auto, using(crate::proofs::Constructing::unknown_refused, crate::proofs::Constructing::other_refused))]
fn needs_of(
    alloc: Global,
    at: u32,
    theory: &Theory,
    ty: &ConType,
) -> Result<Items<Needed>, CommandFault>
    requires { is_declared theory.now.types ty.now.name ≡ false }
    ensures fit { IfOk result (λ _. AreConstructors (signature_of theory.now.defs) ty.now) }
    ensures needs { IfOk result (λ needs. map named needs ≡ needed (signature_of theory.now.defs) ty.now) }
    ensures refused { IfErr result (Shows (At at (RefusesConstructors theory.now ty.now))) }
{
    match constructor_needs(alloc, theory, ty) {
        Ok(needs) => Ok(needs),
        Err(ConFault::UnknownName(name)) => Err(refused_of(at, Naming::UnknownName, name)),
        Err(ConFault::NotConstructor(name)) => Err(refused_of(at, Naming::NotConstructor, name)),
        Err(ConFault::NoMemory) => Err(CommandFault::NoMemory),
    }
}

// Has the theory the theorems that make the constants the constructors of the type?
#[tactic(auto, using(crate::proofs::Constructing::lack_refused, crate::proofs::Constructing::none_lacking))]
fn known(at: u32, theory: &Theory, ty: &ConType, needs: &[Needed]) -> Result<(), CommandFault>
    requires free { is_declared theory.now.types ty.now.name ≡ false }
    requires fit { AreConstructors (signature_of theory.now.defs) ty.now }
    requires needs { map named needs.now ≡ needed (signature_of theory.now.defs) ty.now }
    ensures known { IfOk result (λ _. first_lacking theory.now.named (needed (signature_of theory.now.defs) ty.now) ≡ None) }
    ensures refused { IfErr result (Shows (At at (RefusesConstructors theory.now ty.now))) }
{
    match need(theory, needs) {
        Ok(()) => Ok(()),
        Err(LackFault::Lacks(name)) => Err(refused_of(at, Naming::LacksLemma, name)),
        Err(LackFault::NoMemory) => Err(CommandFault::NoMemory),
    }
}

// Are the constants the constructors of the type, which is known to the theory?
fn judged(alloc: Global, at: u32, theory: &Theory, ty: &ConType) -> Result<(), CommandFault>
    requires { is_declared theory.now.types ty.now.name ≡ false }
    ensures fit { IfOk result (λ _. AreConstructors (signature_of theory.now.defs) ty.now) }
    ensures known { IfOk result (λ _. first_lacking theory.now.named (needed (signature_of theory.now.defs) ty.now) ≡ None) }
    ensures refused { IfErr result (Shows (At at (RefusesConstructors theory.now ty.now))) }
{
    match needs_of(alloc, at, theory, ty) {
        Ok(needs) => known(at, theory, ty, needs.as_slice()),
        Err(fault) => Err(fault),
    }
}

// Declares the constructors of the type, and shows them.
fn declared(alloc: Global, ty: ConType, theory: &mut Theory) -> Result<Items<Item>, AllocError>
    ensures items { IfOk result (λ items. items ≡ item.Constructors ty.name ty.cons ∷ []) }
    ensures declared { IfOk result (λ _. theory.new ≡ with_type ty theory.old) }
{
    let names = copy_names(alloc, ty.cons.as_slice())?;
    let items = one(alloc, Item::Constructors(ty.name.copy()?, names))?;
    theory.declare_constructors(ty)?;
    Ok(items)
}

// The type with its constructors.
fn con_type(alloc: Global, name: &Name, cons: &[Name]) -> Result<ConType, AllocError>
    ensures { IfOk result (λ ty. ty ≡ con_type name.now cons.now) }
{
    let cons = copy_names(alloc, cons)?;
    Ok(ConType {
        name: name.copy()?,
        cons,
    })
}

// Declares the constructors of a type for which none are declared.
#[tactic(auto, using(crate::proofs::Constructing::constructors_accepted, crate::proofs::Constructing::constructors_proved, crate::proofs::Constructing::constructors_shown, crate::proofs::Telling::leaves_same))]
fn constructors_free(
    alloc: Global,
    at: u32,
    ty: ConType,
    theory: &mut Theory,
) -> Result<Items<Item>, CommandFault>
    requires { is_declared theory.old.types ty.name ≡ false }
    ensures accepted { IfOk result (λ items. AcceptsConstructors theory.old ty items theory.new) }
    ensures proved { IfOk result (AreProved theory.new) }
    ensures shown { IfOk result AreShown }
    ensures refused { IfErr result (Leaves theory.old theory.new (At at (RefusesConstructors theory.old ty))) }
{
    match judged(alloc, at, theory, &ty) {
        Ok(()) => Ok(declared(alloc, ty, theory)?),
        Err(fault) => Err(fault),
    }
}

/// Declares the constructors of a type, and shows them.
#[tactic(auto, using(crate::proofs::Constructing::taken_refused))]
pub(crate) fn constructors(
    alloc: Global,
    at: u32,
    name: &Name,
    cons: &[Name],
    theory: &mut Theory,
) -> Result<Items<Item>, CommandFault>
    ensures accepted { IfOk result (λ items. AcceptsConstructors theory.old (con_type name.now cons.now) items theory.new) }
    ensures proved { IfOk result (AreProved theory.new) }
    ensures shown { IfOk result AreShown }
    ensures refused { IfErr result (Leaves theory.old theory.new (At at (RefusesConstructors theory.old (con_type name.now cons.now)))) }
{
    if is_declared(theory.constructors().types.as_slice(), name) {
        return Err(refused_of(at, Naming::NameTaken, name.copy()?));
    }
    let ty = con_type(alloc, name, cons)?;
    constructors_free(alloc, at, ty, theory)
}
