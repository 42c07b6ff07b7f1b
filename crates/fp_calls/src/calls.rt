//! Derived forms called on texts.
ghost use Rattle.fp_kernel.specs.Definitions.{Within};

use crate::quantified::{choose, exists, ext, gen_all, select, spec};
use fp_conclude::typed_over;
use fp_kernel::{Defs, RuleFault, Thm};
use fp_term::{Place, Term};
use fp_texts::{Premise, made, same_text, term, text_of};
use std::alloc::{AllocError, Global};

/// A derived form or a conversion, and what it is called on.
#[derive(Clone, Copy)]
pub enum Call<'a> {
    Sym(Premise<'a>),
    Ap(&'a str, Premise<'a>),
    ApArg(Premise<'a>, &'a str),
    Truth,
    Eqt(Premise<'a>),
    EqtElim(Premise<'a>),
    Eqf(Premise<'a>),
    Conj(Premise<'a>, Premise<'a>),
    Conj1(Premise<'a>),
    Conj2(Premise<'a>),
    Mp(Premise<'a>, Premise<'a>),
    Disch(&'a str, Premise<'a>),
    Undisch(Premise<'a>),
    Disj1(Premise<'a>, &'a str),
    Disj2(&'a str, Premise<'a>),
    Cases(Premise<'a>, Premise<'a>, Premise<'a>),
    NotIntro(Premise<'a>),
    NotElim(Premise<'a>),
    FalseElim(&'a str, Premise<'a>),
    Norm(Premise<'a>),
    BetaNorm(&'a str),
    /// The steps of the place, the equation and the term.
    RewriteAt(&'a [u8], Premise<'a>, &'a str),
    Rewrite(Premise<'a>, Premise<'a>),
    GenAll(&'a str, Premise<'a>),
    Spec(Premise<'a>, &'a str),
    /// The formula, the witness and the theorem of it.
    Exists(&'a str, &'a str, Premise<'a>),
    Choose(&'a str, Premise<'a>, Premise<'a>),
    Ext(&'a str, Premise<'a>),
    Select(Premise<'a>),
}

fn sym(alloc: Global, defs: &Defs, a: Premise<'_>) -> Result<Thm, RuleFault> {
    let a = made(alloc, defs, a)?;
    fp_logic::sym(alloc, defs, &a)
}

fn ap_by(alloc: Global, defs: &Defs, text: &str, a: &Thm) -> Result<Thm, RuleFault>
    requires { Within a.now.defs defs.now }
{
    let term = term(alloc, text)?;
    fp_logic::ap(alloc, defs, &term, a)
}

fn ap(alloc: Global, defs: &Defs, text: &str, a: Premise<'_>) -> Result<Thm, RuleFault> {
    let a = made(alloc, defs, a)?;
    ap_by(alloc, defs, text, &a)
}

fn ap_arg_by(alloc: Global, defs: &Defs, text: &str, a: &Thm) -> Result<Thm, RuleFault>
    requires { Within a.now.defs defs.now }
{
    let term = term(alloc, text)?;
    fp_logic::ap_arg(alloc, defs, a, &term)
}

fn ap_arg(alloc: Global, defs: &Defs, a: Premise<'_>, text: &str) -> Result<Thm, RuleFault> {
    let a = made(alloc, defs, a)?;
    ap_arg_by(alloc, defs, text, &a)
}

fn eqt(alloc: Global, defs: &Defs, a: Premise<'_>) -> Result<Thm, RuleFault> {
    let a = made(alloc, defs, a)?;
    fp_logic::eqt(alloc, defs, &a)
}

fn eqt_elim(alloc: Global, defs: &Defs, a: Premise<'_>) -> Result<Thm, RuleFault> {
    let a = made(alloc, defs, a)?;
    fp_logic::eqt_elim(alloc, defs, &a)
}

fn conj_with(alloc: Global, defs: &Defs, a: &Thm, b: Premise<'_>) -> Result<Thm, RuleFault>
    requires { Within a.now.defs defs.now }
{
    let b = made(alloc, defs, b)?;
    fp_logic::conj(alloc, defs, a, &b)
}

fn conj(alloc: Global, defs: &Defs, a: Premise<'_>, b: Premise<'_>) -> Result<Thm, RuleFault> {
    let a = made(alloc, defs, a)?;
    conj_with(alloc, defs, &a, b)
}

fn conj1(alloc: Global, defs: &Defs, a: Premise<'_>) -> Result<Thm, RuleFault> {
    let a = made(alloc, defs, a)?;
    fp_logic::conj1(alloc, defs, &a)
}

fn conj2(alloc: Global, defs: &Defs, a: Premise<'_>) -> Result<Thm, RuleFault> {
    let a = made(alloc, defs, a)?;
    fp_logic::conj2(alloc, defs, &a)
}

fn mp_with(alloc: Global, defs: &Defs, a: &Thm, b: Premise<'_>) -> Result<Thm, RuleFault>
    requires { Within a.now.defs defs.now }
{
    let b = made(alloc, defs, b)?;
    fp_logic::mp(alloc, defs, a, &b)
}

fn mp(alloc: Global, defs: &Defs, a: Premise<'_>, b: Premise<'_>) -> Result<Thm, RuleFault> {
    let a = made(alloc, defs, a)?;
    mp_with(alloc, defs, &a, b)
}

fn disch_by(alloc: Global, defs: &Defs, text: &str, a: &Thm) -> Result<Thm, RuleFault>
    requires { Within a.now.defs defs.now }
{
    let term = term(alloc, text)?;
    fp_logic::disch(alloc, defs, &term, a)
}

fn disch(alloc: Global, defs: &Defs, text: &str, a: Premise<'_>) -> Result<Thm, RuleFault> {
    let a = made(alloc, defs, a)?;
    disch_by(alloc, defs, text, &a)
}

fn undisch(alloc: Global, defs: &Defs, a: Premise<'_>) -> Result<Thm, RuleFault> {
    let a = made(alloc, defs, a)?;
    fp_logic::undisch(alloc, defs, &a)
}

fn disj1_by(alloc: Global, defs: &Defs, text: &str, a: &Thm) -> Result<Thm, RuleFault>
    requires { Within a.now.defs defs.now }
{
    let term = term(alloc, text)?;
    fp_disjunction::disj1(alloc, defs, a, &term)
}

fn disj1(alloc: Global, defs: &Defs, a: Premise<'_>, text: &str) -> Result<Thm, RuleFault> {
    let a = made(alloc, defs, a)?;
    disj1_by(alloc, defs, text, &a)
}

fn disj2_by(alloc: Global, defs: &Defs, text: &str, a: &Thm) -> Result<Thm, RuleFault>
    requires { Within a.now.defs defs.now }
{
    let term = term(alloc, text)?;
    fp_disjunction::disj2(alloc, defs, &term, a)
}

fn disj2(alloc: Global, defs: &Defs, text: &str, a: Premise<'_>) -> Result<Thm, RuleFault> {
    let a = made(alloc, defs, a)?;
    disj2_by(alloc, defs, text, &a)
}

fn cases_last(
    alloc: Global,
    defs: &Defs,
    a: &Thm,
    b: &Thm,
    c: Premise<'_>,
) -> Result<Thm, RuleFault>
    requires first { Within a.now.defs defs.now }
    requires second { Within b.now.defs defs.now }
{
    let c = made(alloc, defs, c)?;
    fp_disjunction::cases(alloc, defs, a, b, &c)
}

fn cases_with(
    alloc: Global,
    defs: &Defs,
    a: &Thm,
    b: Premise<'_>,
    c: Premise<'_>,
) -> Result<Thm, RuleFault>
    requires { Within a.now.defs defs.now }
{
    let b = made(alloc, defs, b)?;
    cases_last(alloc, defs, a, &b, c)
}

fn cases(
    alloc: Global,
    defs: &Defs,
    a: Premise<'_>,
    b: Premise<'_>,
    c: Premise<'_>,
) -> Result<Thm, RuleFault> {
    let a = made(alloc, defs, a)?;
    cases_with(alloc, defs, &a, b, c)
}

fn eqf(alloc: Global, defs: &Defs, a: Premise<'_>) -> Result<Thm, RuleFault> {
    let a = made(alloc, defs, a)?;
    fp_disjunction::eqf(alloc, defs, &a)
}

fn not_intro(alloc: Global, defs: &Defs, a: Premise<'_>) -> Result<Thm, RuleFault> {
    let a = made(alloc, defs, a)?;
    fp_disjunction::not_intro(alloc, defs, &a)
}

fn not_elim(alloc: Global, defs: &Defs, a: Premise<'_>) -> Result<Thm, RuleFault> {
    let a = made(alloc, defs, a)?;
    fp_disjunction::not_elim(alloc, defs, &a)
}

fn false_elim_by(alloc: Global, defs: &Defs, text: &str, a: &Thm) -> Result<Thm, RuleFault>
    requires { Within a.now.defs defs.now }
{
    let term = term(alloc, text)?;
    fp_disjunction::false_elim(alloc, defs, &term, a)
}

fn false_elim(alloc: Global, defs: &Defs, text: &str, a: Premise<'_>) -> Result<Thm, RuleFault> {
    let a = made(alloc, defs, a)?;
    false_elim_by(alloc, defs, text, &a)
}

fn norm(alloc: Global, defs: &Defs, a: Premise<'_>) -> Result<Thm, RuleFault> {
    let a = made(alloc, defs, a)?;
    fp_conv::norm(alloc, defs, &a)
}

fn beta_norm_of(alloc: Global, defs: &Defs, term: &Term) -> Result<Thm, RuleFault> {
    typed_over(alloc, defs.signature(), term)?;
    Ok(fp_conv::beta_norm(alloc, defs, term)?)
}

fn beta_norm(alloc: Global, defs: &Defs, text: &str) -> Result<Thm, RuleFault> {
    let term = term(alloc, text)?;
    beta_norm_of(alloc, defs, &term)
}

fn place(alloc: Global, steps: &[u8]) -> Result<Place, AllocError> {
    let mut place = Place::here(alloc);
    for step in steps.iter().rev() {
        place = place.after(*step)?;
    }
    Ok(place)
}

fn rewrite_at_place(
    alloc: Global,
    defs: &Defs,
    steps: &[u8],
    a: &Thm,
    term: &Term,
) -> Result<Thm, RuleFault>
    requires { Within a.now.defs defs.now }
{
    let place = place(alloc, steps)?;
    fp_conv::rewrite_at(alloc, defs, &place, a, term)
}

fn rewrite_at_by(
    alloc: Global,
    defs: &Defs,
    steps: &[u8],
    a: &Thm,
    text: &str,
) -> Result<Thm, RuleFault>
    requires { Within a.now.defs defs.now }
{
    let term = term(alloc, text)?;
    rewrite_at_place(alloc, defs, steps, a, &term)
}

fn rewrite_at(
    alloc: Global,
    defs: &Defs,
    steps: &[u8],
    a: Premise<'_>,
    text: &str,
) -> Result<Thm, RuleFault> {
    let a = made(alloc, defs, a)?;
    rewrite_at_by(alloc, defs, steps, &a, text)
}

fn rewrite_with(alloc: Global, defs: &Defs, a: &Thm, b: Premise<'_>) -> Result<Thm, RuleFault>
    requires { Within a.now.defs defs.now }
{
    let b = made(alloc, defs, b)?;
    fp_conv::rewrite(alloc, defs, a, &b)
}

fn rewrite(alloc: Global, defs: &Defs, a: Premise<'_>, b: Premise<'_>) -> Result<Thm, RuleFault> {
    let a = made(alloc, defs, a)?;
    rewrite_with(alloc, defs, &a, b)
}

fn quantifier_called(alloc: Global, defs: &Defs, call: Call<'_>) -> Result<Thm, RuleFault> {
    match call {
        Call::GenAll(text, a) => gen_all(alloc, defs, text, a),
        Call::Spec(a, text) => spec(alloc, defs, a, text),
        Call::Exists(text, witness, a) => exists(alloc, defs, text, witness, a),
        Call::Choose(text, a, b) => choose(alloc, defs, text, a, b),
        Call::Ext(text, a) => ext(alloc, defs, text, a),
        Call::Select(a) => select(alloc, defs, a),
        _ => Err(RuleFault::NoMemory),
    }
}

fn choice_called(alloc: Global, defs: &Defs, call: Call<'_>) -> Result<Thm, RuleFault> {
    match call {
        Call::Disj1(a, text) => disj1(alloc, defs, a, text),
        Call::Disj2(text, a) => disj2(alloc, defs, text, a),
        Call::Cases(a, b, c) => cases(alloc, defs, a, b, c),
        Call::Eqf(a) => eqf(alloc, defs, a),
        Call::NotIntro(a) => not_intro(alloc, defs, a),
        Call::NotElim(a) => not_elim(alloc, defs, a),
        Call::FalseElim(text, a) => false_elim(alloc, defs, text, a),
        _ => quantifier_called(alloc, defs, call),
    }
}

fn connective_called(alloc: Global, defs: &Defs, call: Call<'_>) -> Result<Thm, RuleFault> {
    match call {
        Call::Conj(a, b) => conj(alloc, defs, a, b),
        Call::Conj1(a) => conj1(alloc, defs, a),
        Call::Conj2(a) => conj2(alloc, defs, a),
        Call::Mp(a, b) => mp(alloc, defs, a, b),
        Call::Disch(text, a) => disch(alloc, defs, text, a),
        Call::Undisch(a) => undisch(alloc, defs, a),
        _ => choice_called(alloc, defs, call),
    }
}

fn called(alloc: Global, defs: &Defs, call: Call<'_>) -> Result<Thm, RuleFault> {
    match call {
        Call::Sym(a) => sym(alloc, defs, a),
        Call::Ap(text, a) => ap(alloc, defs, text, a),
        Call::ApArg(a, text) => ap_arg(alloc, defs, a, text),
        Call::Truth => fp_logic::truth(alloc, defs),
        Call::Eqt(a) => eqt(alloc, defs, a),
        Call::EqtElim(a) => eqt_elim(alloc, defs, a),
        Call::Norm(a) => norm(alloc, defs, a),
        Call::BetaNorm(text) => beta_norm(alloc, defs, text),
        Call::RewriteAt(steps, a, text) => rewrite_at(alloc, defs, steps, a, text),
        Call::Rewrite(a, b) => rewrite(alloc, defs, a, b),
        _ => connective_called(alloc, defs, call),
    }
}

fn gives(alloc: Global, defs: &Defs, call: Call<'_>, text: &str) -> Result<bool, AllocError> {
    let found = text_of(alloc, called(alloc, defs, call))?;
    same_text(alloc, found.as_slice(), text)
}

// The same over a list of definitions.
fn right_over(alloc: Global, defs: &Defs, rows: &[(Call<'_>, &str)]) -> Result<usize, AllocError> {
    for (index, (call, text)) in rows.iter().enumerate() {
        if !gives(alloc, defs, *call, text)? {
            return Ok(index);
        }
    }
    Ok(rows.len())
}

/// How many rows there are before the first whose call gives something else than its text says.
pub fn rows_right(alloc: Global, rows: &[(Call<'_>, &str)]) -> Result<usize, AllocError> {
    let defs = Defs::new(alloc)?;
    right_over(alloc, &defs, rows)
}
