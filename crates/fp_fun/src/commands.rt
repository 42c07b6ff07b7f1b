//! The commands `function` and `fun`.
ghost use Rattle.std.specs.Prelude.{◌≡◌, ◌<◌, length, IfOk, IfErr, IfSome, OnErr};
ghost use Rattle.fp_theory.specs.Changes.{Extends};
ghost use Rattle.fp_outcome.specs.Shown.{ListsHaveOnly, IsShownFault};
ghost use Rattle.fp_fun.specs.Named.{AreNamed};

use crate::noting::{defined, note_each};
use crate::plan::Plan;
use crate::proving::proved;
use crate::searching::plan_of;
use crate::showing::shown;
use fp_admit::{GroupSpec, admit};
use fp_group::Group;
use fp_measure::MeasureSource;
use fp_outcome::FunFault;
use fp_report::Item;
use fp_term::{Items, Name};
use fp_theory::Theory;
use std::alloc::Global;

// Defines the group, proves its theorems and names them.
fn made(
    alloc: Global,
    at: u32,
    theory: &mut Theory,
    first: &Name,
    group: &Group,
    plan: Option<&Plan>,
) -> Result<(), FunFault>
    requires some { 0 < length group.now.heads }
    ensures extends { Extends theory.old theory.new }
    ensures err { IfErr result IsShownFault }
{
    defined(alloc, at, first, theory, group)?;
    let theorems = proved(alloc, at, &*theory, group, plan)?;
    note_each(alloc, at, theory, theorems.as_slice())
}

// Makes the group and shows it.
fn carried_out(
    alloc: Global,
    at: u32,
    theory: &mut Theory,
    group: &Group,
    plan: Option<&Plan>,
) -> Result<Items<Item>, FunFault>
    requires some { 0 < length group.now.heads }
    requires measures { IfSome plan (λ p. ListsHaveOnly p.now.measures) }
    ensures extends { Extends theory.old theory.new }
    ensures items { IfOk result (AreNamed theory.new) }
    ensures err { IfErr result IsShownFault }
{
    let first = &group.heads.as_slice()[0].name;
    made(alloc, at, theory, first, group, plan)?;
    shown(alloc, at, &*theory, first, group, plan)
}

// Makes the group and shows it, or leaves the theory as it was.
#[tactic(auto, using(fp_theory::proofs::Marks::cut_back_to, fp_theory::proofs::Marks::theory_back, fp_theory::proofs::Marks::most_back))]
fn carry_out(
    alloc: Global,
    at: u32,
    theory: &mut Theory,
    group: &Group,
    plan: Option<&Plan>,
) -> Result<Items<Item>, FunFault>
    requires some { 0 < length group.now.heads }
    requires measures { IfSome plan (λ p. ListsHaveOnly p.now.measures) }
    ensures items { IfOk result (AreNamed theory.new) }
    ensures same { OnErr result (theory.new ≡ theory.old) }
    ensures err { IfErr result IsShownFault }
{
    let before = theory.mark();
    match carried_out(alloc, at, theory, group, plan) {
        Ok(items) => Ok(items),
        Err(fault) => {
            theory.back_to(before);
            Err(fault)
        }
    }
}

// The refusal of a group, which isn't for want of an order.
fn refused(fault: FunFault) -> FunFault
    ensures { IsShownFault result }
{
    match fault {
        FunFault::NoOrder { .. } => FunFault::NoMemory,
        other => other,
    }
}

/// Defines functions on the domain on which they end, and proves and names their partial rules and inductions. After a refusal
/// the theory is as before.
pub fn function_command(
    alloc: Global,
    theory: &mut Theory,
    spec: GroupSpec<'_>,
) -> Result<Items<Item>, FunFault>
    requires some { 0 < length spec.heads.now }
    ensures items { IfOk result (AreNamed theory.new) }
    ensures same { OnErr result (theory.new ≡ theory.old) }
    ensures err { IfErr result IsShownFault }
{
    let group = match admit(alloc, &*theory, spec, false) {
        Ok(group) => group,
        Err(fault) => return Err(refused(fault)),
    };
    carry_out(alloc, spec.at, theory, &group, None)
}

/// Defines functions that end by an order that is found, and proves and names their rules and inductions. After a refusal the
/// theory is as before.
pub fn fun_command(
    alloc: Global,
    theory: &mut Theory,
    spec: GroupSpec<'_>,
    sources: &[Box<dyn MeasureSource + Send + Sync>],
) -> Result<Items<Item>, FunFault>
    requires some { 0 < length spec.heads.now }
    ensures items { IfOk result (AreNamed theory.new) }
    ensures same { OnErr result (theory.new ≡ theory.old) }
    ensures err { IfErr result IsShownFault }
{
    let group = match admit(alloc, &*theory, spec, true) {
        Ok(group) => group,
        Err(fault) => return Err(refused(fault)),
    };
    let plan = plan_of(alloc, spec.at, &*theory, &group, sources)?;
    carry_out(alloc, spec.at, theory, &group, Some(&plan))
}
