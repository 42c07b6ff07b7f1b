//! The congruence rule that a conclusion states.
ghost use Rattle.std.specs.Prelude.{◌≡◌, ◌++◌, map, IfOk, OnOk};
ghost use Rattle.fp_term.specs.Terms.{head_of, arguments_of};
ghost use Rattle.fp_cong_rule.specs.Reading.{place_from, premise_read, variable_in, variables_among, rule_read, rule_by_head, cong_rule_of};

use crate::form::{is_rule_at, subject_of};
use crate::parts::{Premise, all_parts, take_premises};
use fp_conclude::{Equation, sides};
use fp_group::{CongPremise, CongRule, copy_types};
use fp_term::{Items, Name, Node, Term, Ty, arguments, copy_all, head, next, same};
use std::alloc::{AllocError, Global};

// The term's first place in the list, from 1; 0 where it is none of them.
fn place(terms: &[Term], term: &Term) -> Result<u32, AllocError>
    ensures { IfOk result (λ n. n ≡ place_from 1 terms.now term.now) }
{
    let mut number = 1u32;
    for other in terms {
        if same(other, term) {
            return Ok(number);
        }
        number = next(number)?;
    }
    Ok(0)
}

fn premise_read(alloc: Global, xs: &[Term], premise: &Premise) -> Result<CongPremise, AllocError>
    ensures { IfOk result (λ p. p ≡ premise_read xs.now premise.now) }
{
    Ok(CongPremise {
        position: place(xs, subject_of(premise))?,
        vars: copy_types(alloc, premise.vars.as_slice())?,
        guards: copy_all(alloc, premise.guards.as_slice())?,
    })
}

fn premises_read(
    alloc: Global,
    xs: &[Term],
    premises: &[Premise],
) -> Result<Items<CongPremise>, AllocError>
    ensures { IfOk result (λ ps. ps ≡ map (premise_read xs.now) premises.now) }
{
    let mut read = Items::new(alloc);
    for premise in premises {
        read.push(premise_read(alloc, xs, premise)?)?;
    }
    Ok(read)
}

fn add_variable(vars: &mut Items<(Name, Ty)>, term: &Term) -> Result<(), AllocError>
    ensures { OnOk result (vars.new ≡ vars.old ++ variable_in term.now) }
{
    match term.node() {
        Node::Free { name, ty } => vars.push((name.copy()?, ty.copy()?)),
        _ => Ok(()),
    }
}

// The variables of the list.
fn variables_among(alloc: Global, terms: &[Term]) -> Result<Items<(Name, Ty)>, AllocError>
    ensures { IfOk result (λ vars. vars ≡ variables_among terms.now) }
{
    let mut vars = Items::new(alloc);
    for term in terms {
        add_variable(&mut vars, term)?;
    }
    Ok(vars)
}

fn rule_read(
    alloc: Global,
    name: &Name,
    constant: &Name,
    ty: &Ty,
    sides: &Equation<'_>,
    premises: &[Premise],
) -> Result<CongRule, AllocError>
    ensures { IfOk result (λ r. r ≡ rule_read name.now constant.now ty.now (arguments_of sides.now.left.now) (arguments_of sides.now.right.now) premises.now) }
{
    let xs = arguments(alloc, sides.left)?;
    let premises = premises_read(alloc, xs.as_slice(), premises)?;
    let ys = arguments(alloc, sides.right)?;
    Ok(CongRule {
        name: name.copy()?,
        constant: constant.copy()?,
        ty: ty.copy()?,
        ys: variables_among(alloc, ys.as_slice())?,
        premises,
    })
}

fn rule_by_head(
    alloc: Global,
    name: &Name,
    concl: &Term,
    premises: &[Premise],
    sides: &Equation<'_>,
) -> Result<Option<CongRule>, AllocError>
    ensures { IfOk result (λ o. o ≡ rule_by_head name.now concl.now premises.now (head_of sides.now.left.now) sides.now.left.now sides.now.right.now) }
{
    let Node::Const { name: constant, ty } = head(sides.left).node() else {
        return Ok(None);
    };
    if !is_rule_at(alloc, concl, ty, sides, premises)? {
        return Ok(None);
    }
    Ok(Some(rule_read(alloc, name, constant, ty, sides, premises)?))
}

/// The congruence rule of that name that a theorem's conclusion states; none exactly where the conclusion isn't of the form
/// `A1 --> .. --> Am --> c x1 .. xm = c y1 .. ym`. There the `2m` variables are distinct, `m` is at least 1, and there is one
/// premise for each argument, in some order, of the form `!v1 .. vk. G1 --> .. --> Gr --> xi v1 .. vk = yi v1 .. vk`. A guard
/// mentions only its `v`s and the `y`s of earlier premises that have no guard. All type variables occur in the type of `c`.
pub fn cong_rule(alloc: Global, name: &Name, concl: &Term) -> Result<Option<CongRule>, AllocError>
    ensures { IfOk result (λ o. o ≡ cong_rule_of name.now concl.now) }
{
    let mut premises = Items::new(alloc);
    let rest = take_premises(alloc, &mut premises, concl)?;
    let Some(equation) = sides(rest) else {
        return Ok(None);
    };
    let parts = all_parts(alloc, premises.as_slice())?;
    rule_by_head(alloc, name, concl, parts.as_slice(), &equation)
}
