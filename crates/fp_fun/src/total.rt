//! The theorems of a group whose functions end.
ghost use Rattle.std.specs.Prelude.{◌≡◌, IfErr, OnOk};
ghost use Rattle.fp_outcome.specs.Shown.{IsShownFault};
ghost use Rattle.fp_fun.specs.Ready.{AreReady};

use crate::cells::cell_lines;
use crate::plan::Plan;
use crate::proving::{add, unproved};
use fp_admit::{induct_name, simp_name, termination_name};
use fp_descend::prove_termination;
use fp_kernel::Thm;
use fp_meaning::Setting;
use fp_outcome::FunFault;
use fp_pinduct::{induct_of, simp_of};
use fp_proof::{Line, Proof, Stop};
use fp_term::{Items, Name, next};

// The theorem that the functions end, and its line.
fn ended(
    proof: &mut Proof<'_>,
    setting: &Setting<'_>,
    plan: &Plan,
    name: &Name,
    theorems: &mut Items<(Name, Thm)>,
) -> Result<Line, Stop>
    requires ready { AreReady proof.old theorems.old }
    ensures same { OnOk result (proof.new ≡ proof.old) }
    ensures ready { OnOk result (AreReady proof.old theorems.new) }
{
    let cells = cell_lines(proof.alloc(), proof, setting.group, plan)?;
    let measures = plan.measures.as_slice();
    let theorem = prove_termination(proof, setting, measures, &plan.found, cells.as_slice())?;
    let line = proof.bring(&theorem)?;
    add(proof, theorems, name.copy()?, theorem)?;
    Ok(line)
}

// The rule of the clause of that number, from 0.
fn add_simp(
    at: u32,
    first: &Name,
    proof: &mut Proof<'_>,
    setting: &Setting<'_>,
    total: Line,
    number: u32,
    psimp: Line,
    theorems: &mut Items<(Name, Thm)>,
) -> Result<(), FunFault>
    requires ready { AreReady proof.old theorems.old }
    ensures same { OnOk result (proof.new ≡ proof.old) }
    ensures ready { OnOk result (AreReady proof.old theorems.new) }
    ensures err { IfErr result IsShownFault }
{
    let name = simp_name(proof.alloc(), first, next(number)?)?;
    match simp_of(proof, setting, number, psimp, total) {
        Ok(theorem) => Ok(add(proof, theorems, name, theorem)?),
        Err(stop) => Err(unproved(at, stop, &name)),
    }
}

fn add_simps(
    at: u32,
    first: &Name,
    proof: &mut Proof<'_>,
    setting: &Setting<'_>,
    total: Line,
    psimps: &[Line],
    theorems: &mut Items<(Name, Thm)>,
) -> Result<(), FunFault>
    requires ready { AreReady proof.old theorems.old }
    ensures same { OnOk result (proof.new ≡ proof.old) }
    ensures ready { OnOk result (AreReady proof.old theorems.new) }
    ensures err { IfErr result IsShownFault }
{
    let mut number = 0u32;
    for psimp in psimps {
        add_simp(at, first, proof, setting, total, number, *psimp, theorems)?;
        number = next(number)?;
    }
    Ok(())
}

// The rule of induction of the function of that number and name.
fn add_induct(
    at: u32,
    proof: &mut Proof<'_>,
    setting: &Setting<'_>,
    total: Line,
    index: u32,
    pinduct: Line,
    name: Name,
    theorems: &mut Items<(Name, Thm)>,
) -> Result<(), FunFault>
    requires ready { AreReady proof.old theorems.old }
    ensures same { OnOk result (proof.new ≡ proof.old) }
    ensures ready { OnOk result (AreReady proof.old theorems.new) }
    ensures err { IfErr result IsShownFault }
{
    match induct_of(proof, setting, index, pinduct, total) {
        Ok(theorem) => Ok(add(proof, theorems, name, theorem)?),
        Err(stop) => Err(unproved(at, stop, &name)),
    }
}

fn add_inducts(
    at: u32,
    proof: &mut Proof<'_>,
    setting: &Setting<'_>,
    total: Line,
    pinducts: &[Line],
    theorems: &mut Items<(Name, Thm)>,
) -> Result<(), FunFault>
    requires ready { AreReady proof.old theorems.old }
    ensures same { OnOk result (proof.new ≡ proof.old) }
    ensures ready { OnOk result (AreReady proof.old theorems.new) }
    ensures err { IfErr result IsShownFault }
{
    let heads = setting.group.heads.as_slice();
    let mut index = 0u32;
    for pinduct in pinducts {
        match heads.get(index as usize) {
            Some(head) => {
                let name = induct_name(proof.alloc(), &head.name)?;
                add_induct(at, proof, setting, total, index, *pinduct, name, theorems)?;
            }
            None => return Err(FunFault::NoMemory),
        }
        index = next(index)?;
    }
    Ok(())
}

/// That the functions end, and their rules, from the lines of the partial rules.
pub(crate) fn add_total(
    at: u32,
    first: &Name,
    proof: &mut Proof<'_>,
    setting: &Setting<'_>,
    plan: &Plan,
    psimps: &[Line],
    pinducts: &[Line],
    theorems: &mut Items<(Name, Thm)>,
) -> Result<(), FunFault>
    requires ready { AreReady proof.old theorems.old }
    ensures same { OnOk result (proof.new ≡ proof.old) }
    ensures ready { OnOk result (AreReady proof.old theorems.new) }
    ensures err { IfErr result IsShownFault }
{
    let name = termination_name(proof.alloc(), first)?;
    let total = match ended(proof, setting, plan, &name, theorems) {
        Ok(line) => line,
        Err(stop) => return Err(unproved(at, stop, &name)),
    };
    add_simps(at, first, proof, setting, total, psimps, theorems)?;
    add_inducts(at, proof, setting, total, pinducts, theorems)
}
