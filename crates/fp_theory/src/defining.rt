//! Definitions whose theorems are named.
ghost use Rattle.std.specs.Prelude.{◌≡◌, ◌++◌, [], ◌∷◌, IfOk, IfErr, OnOk, OnErr};
ghost use Rattle.fp_kernel.specs.Definitions.{Within};
ghost use Rattle.fp_kernel.specs.Defining.{FaultIs, defining, Defines, defining_type, DefinesType};
ghost use Rattle.fp_theory.specs.Defining.{def_name, abs_rep_name, rep_abs_name};

use crate::named::Named;
use fp_kernel::{DefFault, Defs, Thm};
use fp_term::{Name, Term};
use std::alloc::{AllocError, Global};

// The name with an ending. Where it would be longer than names are, want of memory is answered.
fn extended(alloc: Global, name: &Name, ending: &[u8]) -> Result<Name, AllocError>
    ensures { IfOk result (λ n. n ≡ name.now ++ ending.now) }
{
    let mut bytes = Vec::from_slice(alloc, name.as_slice())?;
    bytes.extend_from_slice(ending)?;
    match Name::new(alloc, bytes.as_slice())? {
        Some(name) => Ok(name),
        None => Err(AllocError),
    }
}

/// The name of a constant's defining theorem.
pub fn def_name(alloc: Global, name: &Name) -> Result<Name, AllocError>
    ensures { IfOk result (λ n. n ≡ def_name name.now) }
{
    extended(alloc, name, b"_def")
}

/// The names of the theorems of a new type.
pub fn abs_rep_name(alloc: Global, name: &Name) -> Result<Name, AllocError>
    ensures { IfOk result (λ n. n ≡ abs_rep_name name.now) }
{
    extended(alloc, name, b"_abs_rep")
}

pub fn rep_abs_name(alloc: Global, name: &Name) -> Result<Name, AllocError>
    ensures { IfOk result (λ n. n ≡ rep_abs_name name.now) }
{
    extended(alloc, name, b"_rep_abs")
}

// Names a copy of the theorem.
fn name_copy(alloc: Global, named: &mut Named, name: &Name, theorem: &Thm) -> Result<(), AllocError>
    ensures ok { OnOk result (named.new ≡ named.old ++ (name.now, theorem.now) ∷ []) }
    ensures err { OnErr result (named.new ≡ named.old) }
{
    named.push(name, theorem.copy(alloc)?)
}

/// The names of a new type, of its constants and of its theorems.
#[derive(Drop)]
pub struct TypeNames<'a> {
    pub name: &'a Name,
    pub abs: &'a Name,
    pub rep: &'a Name,
    pub abs_rep: &'a Name,
    pub rep_abs: &'a Name,
}

// Names copies of both theorems, or none.
#[tactic(auto, using(crate::proofs::Returning::cut_back))]
fn name_copies(
    alloc: Global,
    named: &mut Named,
    names: &TypeNames,
    theorems: &(Thm, Thm),
) -> Result<(), AllocError>
    ensures ok { OnOk result (named.new ≡ named.old ++ (names.now.abs_rep.now, theorems.now.0) ∷ (names.now.rep_abs.now, theorems.now.1) ∷ []) }
    ensures err { OnErr result (named.new ≡ named.old) }
{
    let number = named.len();
    name_copy(alloc, named, names.abs_rep, &theorems.0)?;
    if name_copy(alloc, named, names.rep_abs, &theorems.1).is_err() {
        named.cut(number);
        return Err(AllocError);
    }
    Ok(())
}

/// Defines a constant and names its theorem so. After a refusal, and after want of memory, all is as before.
pub fn define_named(
    alloc: Global,
    defs: &mut Defs,
    named: &mut Named,
    name: &Name,
    label: &Name,
    body: &Term,
) -> Result<Thm, DefFault>
    ensures defines { IfOk result (Defines defs.old defs.new name.now body.now) }
    ensures names { IfOk result (λ th. named.new ≡ named.old ++ (label.now, th) ∷ []) }
    ensures refused { IfErr result (λ fault. FaultIs fault (defining defs.old name.now body.now)) }
    ensures err_defs { OnErr result (defs.new ≡ defs.old) }
    ensures err_named { OnErr result (named.new ≡ named.old) }
{
    let level = defs.level();
    let theorem = defs.define(alloc, name, body)?;
    if name_copy(alloc, named, label, &theorem).is_err() {
        defs.back_to(level);
        return Err(DefFault::NoMemory);
    }
    Ok(theorem)
}

/// Defines a type and names its theorems so. After a refusal, and after want of memory, all is as before.
pub fn define_type_named(
    alloc: Global,
    defs: &mut Defs,
    named: &mut Named,
    names: &TypeNames,
    inhabited: &Thm,
) -> Result<(Thm, Thm), DefFault>
    requires { Within inhabited.now.defs defs.old }
    ensures defines { IfOk result (λ p. DefinesType defs.old defs.new names.now.name.now names.now.abs.now names.now.rep.now inhabited.now p.0 p.1) }
    ensures names { IfOk result (λ p. named.new ≡ named.old ++ (names.now.abs_rep.now, p.0) ∷ (names.now.rep_abs.now, p.1) ∷ []) }
    ensures refused { IfErr result (λ fault. FaultIs fault (defining_type defs.old names.now.name.now names.now.abs.now names.now.rep.now inhabited.now)) }
    ensures err_defs { OnErr result (defs.new ≡ defs.old) }
    ensures err_named { OnErr result (named.new ≡ named.old) }
{
    let level = defs.level();
    let theorems = defs.define_type(alloc, names.name, names.abs, names.rep, inhabited)?;
    if name_copies(alloc, named, names, &theorems).is_err() {
        defs.back_to(level);
        return Err(DefFault::NoMemory);
    }
    Ok(theorems)
}
