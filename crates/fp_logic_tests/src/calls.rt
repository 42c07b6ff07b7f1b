//! Rules called on texts, and what comes of them as texts.
ghost use Rattle.std.specs.Prelude.{IfOk};
ghost use Rattle.fp_kernel.specs.Definitions.{Within};

use fp_kernel::{Defs, RuleFault, Thm};
use fp_term::{Name, Node, Term, Ty};
use fp_texts::{Premise, given, made, name, same, same_text, term, text_of};
use std::alloc::{AllocError, Global};
use std::process::Abort;

/// A rule, and what it is called on.
#[derive(Clone, Copy)]
pub enum Call<'a> {
    Refl(&'a str),
    Trans(Premise<'a>, Premise<'a>),
    MkComb(Premise<'a>, Premise<'a>),
    Lam(&'a str, Premise<'a>),
    Beta(&'a str),
    Assume(&'a str),
    EqMp(Premise<'a>, Premise<'a>),
    Antisym(Premise<'a>, Premise<'a>),
    Inst(Premise<'a>, &'a [(&'a str, &'a str)]),
    InstTy(Premise<'a>, &'a [(&'a str, &'a str)]),
    Axiom(u32),
    Connective(u32),
}

fn trans_with(
    alloc: Global,
    defs: &Defs,
    first: &Thm,
    second: Premise<'_>,
) -> Result<Thm, RuleFault>
    requires { Within first.now.defs defs.now }
{
    let second = made(alloc, defs, second)?;
    defs.trans(alloc, first, &second)
}

fn trans(
    alloc: Global,
    defs: &Defs,
    first: Premise<'_>,
    second: Premise<'_>,
) -> Result<Thm, RuleFault> {
    let first = made(alloc, defs, first)?;
    trans_with(alloc, defs, &first, second)
}

fn mk_comb_with(
    alloc: Global,
    defs: &Defs,
    first: &Thm,
    second: Premise<'_>,
) -> Result<Thm, RuleFault>
    requires { Within first.now.defs defs.now }
{
    let second = made(alloc, defs, second)?;
    defs.mk_comb(alloc, first, &second)
}

fn mk_comb(
    alloc: Global,
    defs: &Defs,
    first: Premise<'_>,
    second: Premise<'_>,
) -> Result<Thm, RuleFault> {
    let first = made(alloc, defs, first)?;
    mk_comb_with(alloc, defs, &first, second)
}

fn eq_mp_with(
    alloc: Global,
    defs: &Defs,
    first: &Thm,
    second: Premise<'_>,
) -> Result<Thm, RuleFault>
    requires { Within first.now.defs defs.now }
{
    let second = made(alloc, defs, second)?;
    defs.eq_mp(alloc, first, &second)
}

fn eq_mp(
    alloc: Global,
    defs: &Defs,
    first: Premise<'_>,
    second: Premise<'_>,
) -> Result<Thm, RuleFault> {
    let first = made(alloc, defs, first)?;
    eq_mp_with(alloc, defs, &first, second)
}

fn antisym_with(
    alloc: Global,
    defs: &Defs,
    first: &Thm,
    second: Premise<'_>,
) -> Result<Thm, RuleFault>
    requires { Within first.now.defs defs.now }
{
    let second = made(alloc, defs, second)?;
    defs.antisym(alloc, first, &second)
}

fn antisym(
    alloc: Global,
    defs: &Defs,
    first: Premise<'_>,
    second: Premise<'_>,
) -> Result<Thm, RuleFault> {
    let first = made(alloc, defs, first)?;
    antisym_with(alloc, defs, &first, second)
}

fn lam_over(alloc: Global, defs: &Defs, variable: &Term, premise: &Thm) -> Result<Thm, RuleFault>
    requires { Within premise.now.defs defs.now }
{
    match variable.node() {
        Node::Free { name, ty } => defs.lam(alloc, name, ty, premise),
        _ => Err(RuleFault::NoMemory),
    }
}

fn lam_by(alloc: Global, defs: &Defs, text: &str, premise: &Thm) -> Result<Thm, RuleFault>
    requires { Within premise.now.defs defs.now }
{
    let variable = term(alloc, text)?;
    lam_over(alloc, defs, &variable, premise)
}

fn lam(alloc: Global, defs: &Defs, text: &str, premise: Premise<'_>) -> Result<Thm, RuleFault> {
    let premise = made(alloc, defs, premise)?;
    lam_by(alloc, defs, text, &premise)
}

fn beta(alloc: Global, defs: &Defs, text: &str) -> Result<Thm, RuleFault> {
    let redex = term(alloc, text)?;
    defs.beta(alloc, &redex)
}

// The name and the type of a variable, and the term for it.
fn pair_of(variable: &Term, by: Term) -> Result<(Name, Ty, Term), AllocError> {
    match variable.node() {
        Node::Free { name, ty } => Ok((name.copy()?, ty.copy()?, by)),
        _ => Err(AllocError),
    }
}

fn term_for(alloc: Global, text: &str, by: &str) -> Result<(Name, Ty, Term), AllocError> {
    let variable = term(alloc, text)?;
    pair_of(&variable, term(alloc, by)?)
}

fn terms_for(alloc: Global, texts: &[(&str, &str)]) -> Result<Vec<(Name, Ty, Term)>, AllocError> {
    let mut pairs = Vec::new(alloc);
    for (text, by) in texts {
        pairs.push(term_for(alloc, text, by)?)?;
    }
    Ok(pairs)
}

fn type_in(variable: &Term) -> Result<Ty, AllocError> {
    match variable.node() {
        Node::Free { ty, .. } => ty.copy(),
        _ => Err(AllocError),
    }
}

// The type of the variable of the second text for the type variable of the first.
fn type_for(alloc: Global, text: &str, by: &str) -> Result<(Name, Ty), AllocError> {
    let ty = type_in(&term(alloc, by)?)?;
    Ok((name(alloc, text)?, ty))
}

fn types_for(alloc: Global, texts: &[(&str, &str)]) -> Result<Vec<(Name, Ty)>, AllocError> {
    let mut pairs = Vec::new(alloc);
    for (text, by) in texts {
        pairs.push(type_for(alloc, text, by)?)?;
    }
    Ok(pairs)
}

fn inst_by(
    alloc: Global,
    defs: &Defs,
    premise: &Thm,
    texts: &[(&str, &str)],
) -> Result<Thm, RuleFault>
    requires { Within premise.now.defs defs.now }
{
    let pairs = terms_for(alloc, texts)?;
    defs.inst(alloc, premise, &pairs)
}

fn inst(
    alloc: Global,
    defs: &Defs,
    premise: Premise<'_>,
    texts: &[(&str, &str)],
) -> Result<Thm, RuleFault> {
    let premise = made(alloc, defs, premise)?;
    inst_by(alloc, defs, &premise, texts)
}

fn inst_ty_by(
    alloc: Global,
    defs: &Defs,
    premise: &Thm,
    texts: &[(&str, &str)],
) -> Result<Thm, RuleFault>
    requires { Within premise.now.defs defs.now }
{
    let pairs = types_for(alloc, texts)?;
    defs.inst_ty(alloc, premise, &pairs)
}

fn inst_ty(
    alloc: Global,
    defs: &Defs,
    premise: Premise<'_>,
    texts: &[(&str, &str)],
) -> Result<Thm, RuleFault> {
    let premise = made(alloc, defs, premise)?;
    inst_ty_by(alloc, defs, &premise, texts)
}

fn axiom(alloc: Global, defs: &Defs, number: u32) -> Result<Thm, RuleFault> {
    if number < 1 || number > 3 {
        return Err(RuleFault::NoMemory);
    }
    defs.axiom(alloc, number)
}

fn connective(alloc: Global, defs: &Defs, number: u32) -> Result<Thm, RuleFault> {
    if number < 1 || number > 8 {
        return Err(RuleFault::NoMemory);
    }
    defs.connective(alloc, number)
}

fn called(alloc: Global, defs: &Defs, call: Call<'_>) -> Result<Thm, RuleFault> {
    match call {
        Call::Refl(text) => same(alloc, defs, text),
        Call::Trans(first, second) => trans(alloc, defs, first, second),
        Call::MkComb(first, second) => mk_comb(alloc, defs, first, second),
        Call::Lam(text, premise) => lam(alloc, defs, text, premise),
        Call::Beta(text) => beta(alloc, defs, text),
        Call::Assume(text) => given(alloc, defs, text),
        Call::EqMp(first, second) => eq_mp(alloc, defs, first, second),
        Call::Antisym(first, second) => antisym(alloc, defs, first, second),
        Call::Inst(premise, texts) => inst(alloc, defs, premise, texts),
        Call::InstTy(premise, texts) => inst_ty(alloc, defs, premise, texts),
        Call::Axiom(number) => axiom(alloc, defs, number),
        Call::Connective(number) => connective(alloc, defs, number),
    }
}

fn gives(alloc: Global, defs: &Defs, call: Call<'_>, text: &str) -> Result<bool, AllocError> {
    let found = text_of(alloc, called(alloc, defs, call))?;
    same_text(alloc, found.as_slice(), text)
}

// How many rows there are before the first whose call gives something else than its text says.
fn rows_right(alloc: Global, defs: &Defs, rows: &[(Call<'_>, &str)]) -> Result<usize, AllocError> {
    for (index, (call, text)) in rows.iter().enumerate() {
        if !gives(alloc, defs, *call, text)? {
            return Ok(index);
        }
    }
    Ok(rows.len())
}

fn all_right(alloc: Global, rows: &[(Call<'_>, &str)]) -> Result<usize, AllocError> {
    let defs = Defs::new(alloc)?;
    rows_right(alloc, &defs, rows)
}

/// Each call gives what its text says.
pub fn try_all(
    rt: &impl Abort,
    alloc: Global,
    rows: &[(Call<'_>, &str)],
) -> Result<(), AllocError> {
    let right = all_right(alloc, rows)?;
    assert_eq!(rt; right, rows.len());
    Ok(())
}
