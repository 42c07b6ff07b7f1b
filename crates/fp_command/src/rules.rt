//! The commands `simp` and `cong`.
ghost use Rattle.std.specs.Prelude.{IfOk, IfErr};
ghost use Rattle.fp_report.specs.Items.{AreShown};
ghost use Rattle.fp_command.specs.Outcome.{AcceptsSimp, RefusesSimp, AcceptsCong, RefusesCong, AreProved};
ghost use Rattle.fp_command.specs.Answers.{Leaves, Shows, At, ExplainsRule};

use crate::fault::{CommandFault, refused, refused_of};
use crate::stated::one;
use fp_report::{Item, Kind, Naming};
use fp_term::{Items, Name};
use fp_theory::{RuleShapeFault, Theory};
use std::alloc::Global;

// A refusal for what a rule has at fault.
fn of_rule(at: u32, fault: RuleShapeFault) -> CommandFault
    ensures { Shows (At at (ExplainsRule fault)) result }
{
    match fault {
        RuleShapeFault::NoSuchTheorem(name) => refused_of(at, Naming::NoSuchTheorem, name),
        RuleShapeFault::NotRuleShape => refused(at, Kind::NotRuleShape),
        RuleShapeFault::NoMemory => CommandFault::NoMemory,
    }
}

/// Declares a named theorem as a rule of simplification.
#[tactic(auto, using(crate::proofs::Ruling::simp_refused))]
pub(crate) fn simp(
    alloc: Global,
    at: u32,
    name: &Name,
    theory: &mut Theory,
) -> Result<Items<Item>, CommandFault>
    ensures accepted { IfOk result (λ items. AcceptsSimp theory.old name.now items theory.new) }
    ensures proved { IfOk result (AreProved theory.new) }
    ensures shown { IfOk result AreShown }
    ensures refused { IfErr result (Leaves theory.old theory.new (At at (RefusesSimp theory.old name.now))) }
{
    let items = one(alloc, Item::Simp(name.copy()?))?;
    match theory.declare_simp(alloc, name) {
        Ok(()) => Ok(items),
        Err(fault) => Err(of_rule(at, fault)),
    }
}

/// Declares a named theorem as a congruence rule.
#[tactic(auto, using(crate::proofs::Ruling::cong_refused))]
pub(crate) fn cong(
    alloc: Global,
    at: u32,
    name: &Name,
    theory: &mut Theory,
) -> Result<Items<Item>, CommandFault>
    ensures accepted { IfOk result (λ items. AcceptsCong theory.old name.now items theory.new) }
    ensures proved { IfOk result (AreProved theory.new) }
    ensures shown { IfOk result AreShown }
    ensures refused { IfErr result (Leaves theory.old theory.new (At at (RefusesCong theory.old name.now))) }
{
    let items = one(alloc, Item::Cong(name.copy()?))?;
    match theory.declare_cong(alloc, name) {
        Ok(()) => Ok(items),
        Err(fault) => Err(of_rule(at, fault)),
    }
}
