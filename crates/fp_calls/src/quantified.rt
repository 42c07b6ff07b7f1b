//! Derived forms of quantifiers, called on texts.
ghost use Rattle.fp_kernel.specs.Definitions.{Within};

use fp_kernel::{Defs, RuleFault, Thm};
use fp_term::{Node, Term};
use fp_texts::{Premise, made, term};
use std::alloc::Global;

fn gen_all_over(alloc: Global, defs: &Defs, variable: &Term, a: &Thm) -> Result<Thm, RuleFault>
    requires { Within a.now.defs defs.now }
{
    match variable.node() {
        Node::Free { name, ty } => fp_quant::gen_all(alloc, defs, name, ty, a),
        _ => Err(RuleFault::NoMemory),
    }
}

fn gen_all_by(alloc: Global, defs: &Defs, text: &str, a: &Thm) -> Result<Thm, RuleFault>
    requires { Within a.now.defs defs.now }
{
    let variable = term(alloc, text)?;
    gen_all_over(alloc, defs, &variable, a)
}

pub fn gen_all(alloc: Global, defs: &Defs, text: &str, a: Premise<'_>) -> Result<Thm, RuleFault> {
    let a = made(alloc, defs, a)?;
    gen_all_by(alloc, defs, text, &a)
}

fn spec_by(alloc: Global, defs: &Defs, text: &str, a: &Thm) -> Result<Thm, RuleFault>
    requires { Within a.now.defs defs.now }
{
    let term = term(alloc, text)?;
    fp_quant::spec(alloc, defs, a, &term)
}

pub fn spec(alloc: Global, defs: &Defs, a: Premise<'_>, text: &str) -> Result<Thm, RuleFault> {
    let a = made(alloc, defs, a)?;
    spec_by(alloc, defs, text, &a)
}

fn exists_of(
    alloc: Global,
    defs: &Defs,
    formula: &Term,
    witness: &str,
    a: &Thm,
) -> Result<Thm, RuleFault>
    requires { Within a.now.defs defs.now }
{
    let witness = term(alloc, witness)?;
    fp_quant::exists(alloc, defs, formula, &witness, a)
}

fn exists_by(
    alloc: Global,
    defs: &Defs,
    text: &str,
    witness: &str,
    a: &Thm,
) -> Result<Thm, RuleFault>
    requires { Within a.now.defs defs.now }
{
    let formula = term(alloc, text)?;
    exists_of(alloc, defs, &formula, witness, a)
}

pub fn exists(
    alloc: Global,
    defs: &Defs,
    text: &str,
    witness: &str,
    a: Premise<'_>,
) -> Result<Thm, RuleFault> {
    let a = made(alloc, defs, a)?;
    exists_by(alloc, defs, text, witness, &a)
}

fn choose_over(
    alloc: Global,
    defs: &Defs,
    variable: &Term,
    a: &Thm,
    b: &Thm,
) -> Result<Thm, RuleFault>
    requires first { Within a.now.defs defs.now }
    requires second { Within b.now.defs defs.now }
{
    match variable.node() {
        Node::Free { name, ty } => fp_quant::choose(alloc, defs, name, ty, a, b),
        _ => Err(RuleFault::NoMemory),
    }
}

fn choose_by(alloc: Global, defs: &Defs, text: &str, a: &Thm, b: &Thm) -> Result<Thm, RuleFault>
    requires first { Within a.now.defs defs.now }
    requires second { Within b.now.defs defs.now }
{
    let variable = term(alloc, text)?;
    choose_over(alloc, defs, &variable, a, b)
}

fn choose_with(
    alloc: Global,
    defs: &Defs,
    text: &str,
    a: &Thm,
    b: Premise<'_>,
) -> Result<Thm, RuleFault>
    requires { Within a.now.defs defs.now }
{
    let b = made(alloc, defs, b)?;
    choose_by(alloc, defs, text, a, &b)
}

pub fn choose(
    alloc: Global,
    defs: &Defs,
    text: &str,
    a: Premise<'_>,
    b: Premise<'_>,
) -> Result<Thm, RuleFault> {
    let a = made(alloc, defs, a)?;
    choose_with(alloc, defs, text, &a, b)
}

fn ext_over(alloc: Global, defs: &Defs, variable: &Term, a: &Thm) -> Result<Thm, RuleFault>
    requires { Within a.now.defs defs.now }
{
    match variable.node() {
        Node::Free { name, ty } => fp_quant::ext(alloc, defs, name, ty, a),
        _ => Err(RuleFault::NoMemory),
    }
}

fn ext_by(alloc: Global, defs: &Defs, text: &str, a: &Thm) -> Result<Thm, RuleFault>
    requires { Within a.now.defs defs.now }
{
    let variable = term(alloc, text)?;
    ext_over(alloc, defs, &variable, a)
}

pub fn ext(alloc: Global, defs: &Defs, text: &str, a: Premise<'_>) -> Result<Thm, RuleFault> {
    let a = made(alloc, defs, a)?;
    ext_by(alloc, defs, text, &a)
}

pub fn select(alloc: Global, defs: &Defs, a: Premise<'_>) -> Result<Thm, RuleFault> {
    let a = made(alloc, defs, a)?;
    fp_quant::select(alloc, defs, &a)
}
