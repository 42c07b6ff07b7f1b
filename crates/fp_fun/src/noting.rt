//! Definitions and theorems of a group, put into a theory.
ghost use Rattle.std.specs.Prelude.{◌≡◌, ◌<◌, length, IfErr, OnOk};
ghost use Rattle.fp_kernel.specs.Definitions.{Within};
ghost use Rattle.fp_theory.specs.Changes.{Extends};
ghost use Rattle.fp_theory.specs.State.{IsNoted};
ghost use Rattle.fp_outcome.specs.Shown.{IsShownFault};
ghost use Rattle.fp_fun.specs.Ready.{AreReady};

use fp_graph::define_group;
use fp_group::Group;
use fp_kernel::{DefFault, Thm};
use fp_outcome::FunFault;
use fp_term::Name;
use fp_theory::{NoteFault, Theory};
use std::alloc::Global;

// A definition is refused for its name at most: bodies of admitted groups are closed, typed and hide no type variable.
fn of_definition(at: u32, first: &Name, fault: DefFault) -> FunFault
    ensures { IsShownFault result }
{
    match fault {
        DefFault::NameTaken(name) => FunFault::NameTaken { at, name },
        DefFault::NoMemory => FunFault::NoMemory,
        other => {
            drop(other);
            match first.copy() {
                Ok(name) => FunFault::NotProved { at, name },
                Err(_) => FunFault::NoMemory,
            }
        }
    }
}

/// Defines the group's constants.
#[tactic(auto, using(crate::proofs::Extending::group_defined))]
pub(crate) fn defined(
    alloc: Global,
    at: u32,
    first: &Name,
    theory: &mut Theory,
    group: &Group,
) -> Result<(), FunFault>
    requires some { 0 < length group.now.heads }
    ensures extends { Extends theory.old theory.new }
    ensures err { IfErr result IsShownFault }
{
    match define_group(theory, alloc, group) {
        Ok(theorems) => {
            drop(theorems);
            Ok(())
        }
        Err(fault) => Err(of_definition(at, first, fault)),
    }
}

fn of_note(at: u32, name: &Name, fault: NoteFault) -> FunFault
    ensures { IsShownFault result }
{
    match fault {
        NoteFault::NameTaken(name) => FunFault::NameTaken { at, name },
        NoteFault::HasPromise(_) => match name.copy() {
            Ok(name) => FunFault::NotProved { at, name },
            Err(_) => FunFault::NoMemory,
        },
        NoteFault::NoMemory => FunFault::NoMemory,
    }
}

#[tactic(auto, using(crate::proofs::Extending::noted, crate::proofs::Extending::unchanged, fp_theory::proofs::Marks::extends_itself))]
fn note_one(
    alloc: Global,
    at: u32,
    theory: &mut Theory,
    name: &Name,
    theorem: &Thm,
) -> Result<(), FunFault>
    requires { IsNoted theory.old.defs theorem.now }
    ensures extends { Extends theory.old theory.new }
    ensures same { theory.new.defs ≡ theory.old.defs }
    ensures err { IfErr result IsShownFault }
{
    match theory.note(name, theorem.copy(alloc)?) {
        Ok(()) => Ok(()),
        Err(fault) => Err(of_note(at, name, fault)),
    }
}

/// Names the theorems.
#[tactic(auto, using(crate::proofs::Extending::extends_both))]
pub(crate) fn note_each(
    alloc: Global,
    at: u32,
    theory: &mut Theory,
    theorems: &[(Name, Thm)],
) -> Result<(), FunFault>
    requires { AreReady theory.old.defs theorems.now }
    ensures extends { Extends theory.old theory.new }
    ensures err { IfErr result IsShownFault }
{
    for named in theorems {
        note_one(alloc, at, theory, &named.0, &named.1)?;
    }
    Ok(())
}
