//! A subterm with either function in place of its calls.
ghost use Rattle.std.specs.Prelude.{◌≡◌, OnOk};

use crate::around::Around;
use crate::call::call_equal;
use crate::form::{Callee, Form, Found, form_of};
use crate::instance::{Instance, instance_at};
use crate::premise::{
    Known, Proved, add_known, around_argument, index_of, opened_along, opened_premise,
    premise_from, term_at,
};
use crate::walk::{Walk, as_term};
use fp_proof::{Line, Proof, Stop};
use fp_term::{Items, Node, Term, Ty, arguments, head, open_with};
use std::slice;

// `(%v. b)[h] = (%v. b)[k]`
#[cycle(alike)]
fn alike_body(
    proof: &mut Proof<'_>,
    walk: &Walk<'_, '_>,
    around: &Around,
    met: &mut usize,
    levels: u32,
    ty: &Ty,
    body: &Term,
) -> Result<Line, Stop>
    ensures { OnOk result (proof.new ≡ proof.old) }
{
    let var = proof.fresh(ty)?;
    let alloc = proof.alloc();
    let opened = open_with(alloc, body, &as_term(alloc, &var)?)?;
    let inner = around.with(alloc, slice::from_ref(&var), &[], &[])?;
    let made = alike(proof, walk, &inner, met, levels, &opened)?;
    proof.lam(&var, made)
}

#[cycle(alike)]
fn alike_each(
    proof: &mut Proof<'_>,
    walk: &Walk<'_, '_>,
    around: &Around,
    met: &mut usize,
    levels: u32,
    terms: &[Term],
) -> Result<Items<Line>, Stop>
    ensures { OnOk result (proof.new ≡ proof.old) }
{
    let mut lines = Items::new(proof.alloc());
    for term in terms {
        let line = alike(proof, walk, around, met, levels, term)?;
        lines.push(line)?;
    }
    Ok(lines)
}

#[cycle(alike)]
fn alike_call(
    proof: &mut Proof<'_>,
    walk: &Walk<'_, '_>,
    around: &Around,
    met: &mut usize,
    levels: u32,
    callee: Callee,
    args: &[Term],
) -> Result<Line, Stop>
    ensures { OnOk result (proof.new ≡ proof.old) }
{
    if args.len() < callee.arity {
        return Err(Stop::Stuck);
    }
    let equations = alike_each(proof, walk, around, met, levels, &args[..callee.arity])?;
    let site = walk.next_site(met)?;
    let made = call_equal(
        proof,
        walk,
        around,
        site,
        callee.index,
        equations.as_slice(),
    )?;
    let more = alike_each(proof, walk, around, met, levels, &args[callee.arity..])?;
    proof.combined_all(made, more.as_slice())
}

// The premise of that number.
#[cycle(alike)]
fn alike_premise(
    proof: &mut Proof<'_>,
    walk: &Walk<'_, '_>,
    around: &Around,
    met: &mut usize,
    levels: u32,
    instance: &Instance<'_, '_>,
    known: &mut Items<Known>,
    number: usize,
) -> Result<Line, Stop>
    ensures { OnOk result (proof.new ≡ proof.old) }
{
    let Some(premise) = instance.rule.premises.as_slice().get(number) else {
        return Err(Stop::Stuck);
    };
    let index = index_of(premise)?;
    let entered = opened_premise(proof, instance, known.as_slice(), number, premise)?;
    let inner = around_argument(proof, around, &entered)?;
    let argument = term_at(instance.args, index)?;
    let (opened, left) = opened_along(proof.alloc(), entered.vars.as_slice(), argument)?;
    let line = alike(proof, walk, &inner, met, levels, &opened)?;
    let proved = premise_from(proof, instance, index, &entered, left, line)?;
    add_known(known, index, proved.equation)?;
    Ok(proved.premise)
}

#[cycle(alike)]
fn alike_by_rule(
    proof: &mut Proof<'_>,
    walk: &Walk<'_, '_>,
    around: &Around,
    met: &mut usize,
    levels: u32,
    found: &Found<'_>,
    args: &[Term],
) -> Result<Line, Stop>
    ensures { OnOk result (proof.new ≡ proof.old) }
{
    let count = found.rule.premises.as_slice().len();
    if args.len() < count {
        return Err(Stop::Stuck);
    }
    let instance = instance_at(proof, walk, found, &args[..count])?;
    let mut known = Items::new(proof.alloc());
    let mut made = instance.line;
    for number in 0..count {
        let premise = alike_premise(
            proof, walk, around, met, levels, &instance, &mut known, number,
        )?;
        made = proof.mp(made, premise)?;
    }
    let more = alike_each(proof, walk, around, met, levels, &args[count..])?;
    proof.combined_all(made, more.as_slice())
}

#[cycle(alike)]
fn alike_plain(
    proof: &mut Proof<'_>,
    walk: &Walk<'_, '_>,
    around: &Around,
    met: &mut usize,
    levels: u32,
    function: &Term,
    args: &[Term],
) -> Result<Line, Stop>
    ensures { OnOk result (proof.new ≡ proof.old) }
{
    let made = alike(proof, walk, around, met, levels, function)?;
    let more = alike_each(proof, walk, around, met, levels, args)?;
    proof.combined_all(made, more.as_slice())
}

#[cycle(alike)]
fn alike_application(
    proof: &mut Proof<'_>,
    walk: &Walk<'_, '_>,
    around: &Around,
    met: &mut usize,
    levels: u32,
    term: &Term,
) -> Result<Line, Stop>
    ensures { OnOk result (proof.new ≡ proof.old) }
{
    let alloc = proof.alloc();
    let all = arguments(alloc, term)?;
    let args = all.as_slice();
    let function = head(term);
    match form_of(alloc, walk.setting, function, args.len())? {
        Form::Call(callee) => alike_call(proof, walk, around, met, levels, callee, args),
        Form::ByRule(found) => alike_by_rule(proof, walk, around, met, levels, &found, args),
        Form::Plain => alike_plain(proof, walk, around, met, levels, function, args),
    }
}

/// `t[h] = t[k]`, from what the walk assumes and from the guards around. A term of more levels is stuck.
#[cycle(alike)]
pub(crate) fn alike(
    proof: &mut Proof<'_>,
    walk: &Walk<'_, '_>,
    around: &Around,
    met: &mut usize,
    levels: u32,
    term: &Term,
) -> Result<Line, Stop>
    ensures { OnOk result (proof.new ≡ proof.old) }
{
    if levels == 0 {
        return Err(Stop::Stuck);
    }
    let mark = proof.mark();
    let made = match term.node() {
        Node::Abs { ty, body } => { alike_body(proof, walk, around, met, levels - 1, ty, body)? }
        Node::App { .. } => alike_application(proof, walk, around, met, levels - 1, term)?,
        _ => proof.refl(term)?,
    };
    proof.keep(mark, made)
}
