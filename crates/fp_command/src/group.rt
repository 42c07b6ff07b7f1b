//! The commands `function` and `fun`.
ghost use Rattle.std.specs.Prelude.{IfOk, IfErr};
ghost use Rattle.fp_outcome.specs.Shown.{IsShownFault};
ghost use Rattle.fp_report.specs.Items.{AreShown};
ghost use Rattle.fp_fun.specs.Named as groups;
ghost use Rattle.fp_command.specs.Outcome.{AreProved, RefusesGroup};
ghost use Rattle.fp_command.specs.Answers.{Leaves, Shows};

use crate::fault::CommandFault;
use fp_admit::GroupSpec;
use fp_commands::Head;
use fp_fun::{FunFault, fun_command, function_command};
use fp_group_report::refusal_of;
use fp_measure::MeasureSource;
use fp_raw::Raw;
use fp_report::Item;
use fp_term::Items;
use fp_theory::Theory;
use std::alloc::Global;

// The refusal of a group for that fault.
#[tactic(auto, using(crate::proofs::Grouping::explained))]
fn of_group(alloc: Global, fault: FunFault) -> CommandFault
    requires { IsShownFault fault }
    ensures { Shows RefusesGroup result }
{
    match refusal_of(alloc, fault) {
        Ok(refusal) => CommandFault::Refused(refusal),
        Err(_) => CommandFault::NoMemory,
    }
}

/// Defines the functions by description, and proves their partial rules.
#[tactic(auto, using(crate::proofs::Grouping::left))]
pub(crate) fn function(
    alloc: Global,
    at: u32,
    heads: &[Head],
    clauses: &[Raw],
    theory: &mut Theory,
) -> Result<Items<Item>, CommandFault>
    ensures items { IfOk result (groups.AreNamed theory.new) }
    ensures proved { IfOk result (AreProved theory.new) }
    ensures shown { IfOk result AreShown }
    ensures refused { IfErr result (Leaves theory.old theory.new RefusesGroup) }
{
    // No command is read without a function.
    if heads.is_empty() {
        return Err(CommandFault::NoMemory);
    }
    let spec = GroupSpec { at, heads, clauses };
    match function_command(alloc, theory, spec) {
        Ok(items) => Ok(items),
        Err(fault) => Err(of_group(alloc, fault)),
    }
}

/// Defines the functions by description, proves that they end, and proves their rules.
#[tactic(auto, using(crate::proofs::Grouping::left))]
pub(crate) fn fun(
    alloc: Global,
    at: u32,
    heads: &[Head],
    clauses: &[Raw],
    theory: &mut Theory,
    sources: &[Box<dyn MeasureSource + Send + Sync>],
) -> Result<Items<Item>, CommandFault>
    ensures items { IfOk result (groups.AreNamed theory.new) }
    ensures proved { IfOk result (AreProved theory.new) }
    ensures shown { IfOk result AreShown }
    ensures refused { IfErr result (Leaves theory.old theory.new RefusesGroup) }
{
    // No command is read without a function.
    if heads.is_empty() {
        return Err(CommandFault::NoMemory);
    }
    let spec = GroupSpec { at, heads, clauses };
    match fun_command(alloc, theory, spec, sources) {
        Ok(items) => Ok(items),
        Err(fault) => Err(of_group(alloc, fault)),
    }
}
