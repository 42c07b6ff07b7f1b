//! The theorems of a group that is defined.
ghost use Rattle.std.specs.Prelude.{◌≡◌, IfOk, IfErr, OnOk};
ghost use Rattle.fp_kernel.specs.Theorems.{plain};
ghost use Rattle.fp_retrace.specs.Standing.{IsWithin};
ghost use Rattle.fp_outcome.specs.Shown.{IsShownFault};
ghost use Rattle.fp_fun.specs.Ready.{AreReady};

use crate::plan::Plan;
use crate::total::add_total;
use fp_admit::{pinduct_name, psimp_name};
use fp_complete::prove_complete;
use fp_det::prove_det;
use fp_group::Group;
use fp_kernel::Thm;
use fp_meaning::{Setting, setting};
use fp_outcome::FunFault;
use fp_partial::prove_psimp;
use fp_pinduct::{Inductions, prove_inductions};
use fp_proof::{Line, Proof, Stop};
use fp_spec::names_in;
use fp_term::{Items, Name, next};
use fp_theory::Theory;
use std::alloc::{AllocError, Global};

/// That the theorem of that name isn't proved, or want of memory.
pub(crate) fn unproved(at: u32, stop: Stop, name: &Name) -> FunFault
    ensures { IsShownFault result }
{
    match stop {
        Stop::NoMemory => FunFault::NoMemory,
        Stop::Stuck => match name.copy() {
            Ok(name) => FunFault::NotProved { at, name },
            Err(_) => FunFault::NoMemory,
        },
    }
}

/// Puts a theorem at the end, under its name.
pub(crate) fn add(
    proof: &Proof<'_>,
    theorems: &mut Items<(Name, Thm)>,
    name: Name,
    theorem: Thm,
) -> Result<(), AllocError>
    requires ready { AreReady proof.now theorems.old }
    requires within { IsWithin proof.now theorem }
    requires alone { theorem ≡ plain theorem.defs theorem.concl }
    ensures { OnOk result (AreReady proof.now theorems.new) }
{
    theorems.push((name, theorem))
}

// What is proved first: that the clauses are complete and determine one value.
#[derive(Clone, Copy)]
struct Premises {
    complete: Line,
    det: Line,
}

fn proved_premises(
    at: u32,
    name: &Name,
    proof: &mut Proof<'_>,
    setting: &Setting<'_>,
) -> Result<Premises, FunFault>
    ensures same { OnOk result (proof.new ≡ proof.old) }
    ensures err { IfErr result IsShownFault }
{
    let complete = match prove_complete(proof, setting) {
        Ok(line) => line,
        Err(stop) => return Err(unproved(at, stop, name)),
    };
    match prove_det(proof, setting) {
        Ok(det) => Ok(Premises { complete, det }),
        Err(stop) => Err(unproved(at, stop, name)),
    }
}

// The line of a theorem that is put at the end.
fn kept(
    at: u32,
    proof: &mut Proof<'_>,
    theorems: &mut Items<(Name, Thm)>,
    name: Name,
    theorem: Thm,
) -> Result<Line, FunFault>
    requires ready { AreReady proof.old theorems.old }
    requires within { IsWithin proof.old theorem }
    requires alone { theorem ≡ plain theorem.defs theorem.concl }
    ensures same { OnOk result (proof.new ≡ proof.old) }
    ensures ready { OnOk result (AreReady proof.old theorems.new) }
    ensures err { IfErr result IsShownFault }
{
    match proof.bring(&theorem) {
        Ok(line) => {
            add(proof, theorems, name, theorem)?;
            Ok(line)
        }
        Err(stop) => Err(unproved(at, stop, &name)),
    }
}

// The partial rule of the clause of that number, from 0.
fn add_psimp(
    at: u32,
    first: &Name,
    proof: &mut Proof<'_>,
    setting: &Setting<'_>,
    premises: Premises,
    number: u32,
    theorems: &mut Items<(Name, Thm)>,
) -> Result<Line, FunFault>
    requires ready { AreReady proof.old theorems.old }
    ensures same { OnOk result (proof.new ≡ proof.old) }
    ensures ready { OnOk result (AreReady proof.old theorems.new) }
    ensures err { IfErr result IsShownFault }
{
    let name = psimp_name(proof.alloc(), first, next(number)?)?;
    match prove_psimp(proof, setting, premises.complete, premises.det, number) {
        Ok(theorem) => kept(at, proof, theorems, name, theorem),
        Err(stop) => Err(unproved(at, stop, &name)),
    }
}

fn add_psimps(
    at: u32,
    first: &Name,
    proof: &mut Proof<'_>,
    setting: &Setting<'_>,
    premises: Premises,
    theorems: &mut Items<(Name, Thm)>,
) -> Result<Items<Line>, FunFault>
    requires ready { AreReady proof.old theorems.old }
    ensures same { OnOk result (proof.new ≡ proof.old) }
    ensures ready { OnOk result (AreReady proof.old theorems.new) }
    ensures err { IfErr result IsShownFault }
{
    let mut lines = Items::new(proof.alloc());
    for index in 0..setting.group.clauses.as_slice().len() {
        let Ok(number) = u32::try_from(index) else {
            return Err(FunFault::NoMemory);
        };
        lines.push(add_psimp(at, first, proof, setting, premises, number, theorems)?)?;
    }
    Ok(lines)
}

// The rule of induction of the function of that number and name.
fn add_pinduct(
    at: u32,
    proof: &mut Proof<'_>,
    setting: &Setting<'_>,
    inductions: &Inductions,
    index: u32,
    name: Name,
    theorems: &mut Items<(Name, Thm)>,
) -> Result<Line, FunFault>
    requires ready { AreReady proof.old theorems.old }
    ensures same { OnOk result (proof.new ≡ proof.old) }
    ensures ready { OnOk result (AreReady proof.old theorems.new) }
    ensures err { IfErr result IsShownFault }
{
    match inductions.theorem(proof, setting, index) {
        Ok(theorem) => kept(at, proof, theorems, name, theorem),
        Err(stop) => Err(unproved(at, stop, &name)),
    }
}

fn add_pinducts(
    at: u32,
    first: &Name,
    proof: &mut Proof<'_>,
    setting: &Setting<'_>,
    premises: Premises,
    theorems: &mut Items<(Name, Thm)>,
) -> Result<Items<Line>, FunFault>
    requires ready { AreReady proof.old theorems.old }
    ensures same { OnOk result (proof.new ≡ proof.old) }
    ensures ready { OnOk result (AreReady proof.old theorems.new) }
    ensures err { IfErr result IsShownFault }
{
    let inductions = match prove_inductions(proof, setting, premises.complete) {
        Ok(inductions) => inductions,
        Err(stop) => return Err(unproved(at, stop, first)),
    };
    let mut lines = Items::new(proof.alloc());
    let mut index = 0u32;
    for head in setting.group.heads.as_slice() {
        let name = pinduct_name(proof.alloc(), &head.name)?;
        lines.push(add_pinduct(at, proof, setting, &inductions, index, name, theorems)?)?;
        index = next(index)?;
    }
    Ok(lines)
}

// The partial rules, and those of the total functions where there is an order.
fn add_all(
    at: u32,
    first: &Name,
    proof: &mut Proof<'_>,
    group: &Group,
    plan: Option<&Plan>,
    theorems: &mut Items<(Name, Thm)>,
) -> Result<(), FunFault>
    requires ready { AreReady proof.old theorems.old }
    ensures same { OnOk result (proof.new ≡ proof.old) }
    ensures ready { OnOk result (AreReady proof.old theorems.new) }
    ensures err { IfErr result IsShownFault }
{
    let setting = match setting(proof, group) {
        Ok(setting) => setting,
        Err(stop) => return Err(unproved(at, stop, first)),
    };
    let premises = proved_premises(at, first, proof, &setting)?;
    let psimps = add_psimps(at, first, proof, &setting, premises, theorems)?;
    let pinducts = add_pinducts(at, first, proof, &setting, premises, theorems)?;
    match plan {
        Some(plan) => add_total(
            at,
            first,
            proof,
            &setting,
            plan,
            psimps.as_slice(),
            pinducts.as_slice(),
            theorems,
        ),
        None => Ok(()),
    }
}

/// The theorems of a group that is defined in the theory, under their names: the partial rules, and those of the total functions
/// where there is an order.
pub(crate) fn proved(
    alloc: Global,
    at: u32,
    theory: &Theory,
    group: &Group,
    plan: Option<&Plan>,
) -> Result<Items<(Name, Thm)>, FunFault>
    ensures ready { IfOk result (AreReady theory.now.defs) }
    ensures err { IfErr result IsShownFault }
{
    let known = names_in(alloc, group)?;
    let mut proof = Proof::new(alloc, theory, known);
    let mut theorems = Items::new(alloc);
    match group.heads.as_slice() {
        [first, ..] => add_all(at, &first.name, &mut proof, group, plan, &mut theorems)?,
        [] => return Err(FunFault::NoMemory),
    }
    Ok(theorems)
}
