//! Theorems after later definitions, and copies.
ghost use Rattle.std.specs.Prelude.{IfOk, OnOk, List};
ghost use Rattle.fp_kernel.specs.Definitions.{Def, Within};

use fp_kernel::{DefFault, Defs, RuleFault, Thm};
use fp_texts::{Premise, has_text, made, name, sure, term};
use std::alloc::{AllocError, Global};
use std::test::Fail;

// `c = (%x. x)`
fn define(alloc: Global, defs: &mut Defs) -> Result<Thm, DefFault>
    ensures theorem { IfOk result (λ th. Within th.defs defs.new) }
    ensures longer { OnOk result ((older : List Def) → Within older defs.old → Within older defs.new) }
{
    let constant = name(alloc, "c")?;
    let body = term(alloc, "(l 'a (b 0))")?;
    defs.define(alloc, &constant, &body)
}

fn defined(alloc: Global, defs: &mut Defs) -> Result<Thm, AllocError>
    ensures theorem { IfOk result (λ th. Within th.defs defs.new) }
    ensures longer { OnOk result ((older : List Def) → Within older defs.old → Within older defs.new) }
{
    define(alloc, defs).map_err(|_| AllocError)
}

fn joined_after(alloc: Global, defs: &mut Defs, before: &Thm) -> Result<Thm, RuleFault>
    requires { Within before.now.defs defs.old }
{
    let after = defined(alloc, defs)?;
    defs.trans(alloc, &after, before)
}

// `c = (%x. x)` by a theorem from before the definition.
fn joined_later(alloc: Global, defs: &mut Defs) -> Result<Thm, RuleFault> {
    let before = made(alloc, defs, Premise::Same("(l 'a (b 0))"))?;
    joined_after(alloc, defs, &before)
}

const JOINED_LATER: &str =
    "(s (h) (a (a (c eq (fun (fun 'a 'a) (fun (fun 'a 'a) ?))) (c c (fun 'a 'a))) (l 'a (b 0))))";

// Is it over so many definitions, without promises, and has its statement that text?
fn is_over(alloc: Global, theorem: &Thm, level: u32, text: &str) -> Result<bool, AllocError> {
    if theorem.level() != level || !theorem.promises().is_empty() {
        return Ok(false);
    }
    has_text(alloc, theorem, text)
}

fn states_later(alloc: Global, defs: &mut Defs) -> Result<bool, AllocError> {
    let theorem = sure(joined_later(alloc, defs))?;
    is_over(alloc, &theorem, 1, JOINED_LATER)
}

fn stays_usable(alloc: Global) -> Result<bool, AllocError> {
    let mut defs = Defs::new(alloc)?;
    states_later(alloc, &mut defs)
}

#[test]
fn a_theorem_stays_usable(rt: HostRuntime) -> Result<(), Fail> {
    assert!(rt; stays_usable(rt.alloc())?);
    Ok(())
}

const COPIED: Premise<'static> = Premise::Joined(
    "(a (a = (v u 'a)) (v v 'a))",
    "(a (a = (v v 'a)) (v w 'a))",
);

const COPIED_TEXT: &str =
    "(s (h (a (a = (v u 'a)) (v v 'a)) (a (a = (v v 'a)) (v w 'a))) (a (a = (v u 'a)) (v w 'a)))";

fn copy_of(alloc: Global, theorem: &Thm) -> Result<Thm, RuleFault> {
    Ok(theorem.copy(alloc)?)
}

fn copied_over(alloc: Global, defs: &Defs) -> Result<Thm, RuleFault> {
    let theorem = made(alloc, defs, COPIED)?;
    copy_of(alloc, &theorem)
}

fn copied(alloc: Global) -> Result<Thm, RuleFault> {
    let defs = Defs::new(alloc)?;
    copied_over(alloc, &defs)
}

fn copy_states(alloc: Global) -> Result<bool, AllocError> {
    let theorem = sure(copied(alloc))?;
    is_over(alloc, &theorem, 0, COPIED_TEXT)
}

#[test]
fn a_copy_states_the_same(rt: HostRuntime) -> Result<(), Fail> {
    assert!(rt; copy_states(rt.alloc())?);
    Ok(())
}

// The list has one definition, of `c`, and three types.
fn has_constant(alloc: Global, defs: &Defs) -> Result<bool, AllocError> {
    let constant = name(alloc, "c")?;
    let signature = defs.signature();
    let counts = defs.level() == 1 && signature.types.len() == 3;
    Ok(counts && signature.const_type(&constant).is_some())
}

fn copy_has_constant(alloc: Global, defs: &Defs) -> Result<bool, AllocError> {
    let copy = defs.copy()?;
    has_constant(alloc, &copy)
}

fn is_defined(alloc: Global, defs: &mut Defs) -> bool {
    define(alloc, defs).is_ok()
}

fn copied_list(alloc: Global) -> Result<bool, AllocError> {
    let mut defs = Defs::new(alloc)?;
    let defined = is_defined(alloc, &mut defs);
    Ok(defined && copy_has_constant(alloc, &defs)?)
}

#[test]
fn a_copied_list_is_equal(rt: HostRuntime) -> Result<(), Fail> {
    assert!(rt; copied_list(rt.alloc())?);
    Ok(())
}
