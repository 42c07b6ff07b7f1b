//! The theorems by which constants are the constructors of a type.
ghost use Rattle.std.specs.Prelude.{◌≡◌, ◌++◌, ◌∷◌, [], map, None, IfOk, OnOk, MatchOption};
ghost use Rattle.std.specs.Option.{option_copied};
ghost use Rattle.fp_term.specs.Terms.{Tm};
ghost use Rattle.fp_constructors.specs.Naming.{renamed};
ghost use Rattle.fp_constructors.specs.Needed.{exhaustion, injection, difference, own_injection, injections, own_difference, differences_from, differences, needed, exhaust_name, inject_name, apart_name};
ghost use Rattle.fp_constructors.specs.Shapes.{seen_shape};
ghost use Rattle.fp_constructors.specs.Answers.{named, first_unknown, unknown_of, other_of, Needs};

use crate::fault::{self, ConFault};
use crate::forms::{constructor_parameters, is_among};
use crate::names::{apart_name, exhaust_name, inject_name};
use crate::naming::renamed;
use crate::shape::{Shape, shapes_of, whole_of};
use crate::statements::{difference, exhaustion, injection};
use fp_group::ConType;
use fp_term::{Items, Name, Signature, Term, Ty};
use std::alloc::{AllocError, Global};

/// A theorem that is asked for: its name and what it states.
#[derive(Drop)]
pub struct Needed {
    pub name: Name,
    pub statement: Term,
}

// The theorem of the name that states the term with its type variables named in order of first occurrence.
fn named(alloc: Global, name: Name, term: &Term) -> Result<Needed, AllocError>
    ensures { IfOk result (λ n. named n ≡ (name, renamed term.now)) }
{
    let statement = renamed(alloc, term)?;
    Ok(Needed { name, statement })
}

fn exhaustion_of(
    alloc: Global,
    name: &Name,
    whole: &Ty,
    shapes: &[Shape],
) -> Result<Needed, AllocError>
    ensures { IfOk result (λ n. named n ≡ (exhaust_name name.now, renamed (exhaustion whole.now (map seen_shape shapes.now)))) }
{
    let statement = exhaustion(alloc, whole, shapes)?;
    named(alloc, exhaust_name(alloc, name)?, &statement)
}

fn injection_of(alloc: Global, whole: &Ty, shape: &Shape) -> Result<Needed, AllocError>
    ensures { IfOk result (λ n. named n ≡ (inject_name shape.now.con, renamed (injection whole.now (seen_shape shape.now)))) }
{
    let statement = injection(alloc, whole, shape)?;
    named(alloc, inject_name(alloc, &shape.con)?, &statement)
}

fn difference_of(
    alloc: Global,
    whole: &Ty,
    shape: &Shape,
    other: &Shape,
) -> Result<Needed, AllocError>
    ensures { IfOk result (λ n. named n ≡ (apart_name shape.now.con other.now.con, renamed (difference whole.now (seen_shape shape.now) (seen_shape other.now)))) }
{
    let statement = difference(alloc, whole, shape, other)?;
    named(
        alloc,
        apart_name(alloc, &shape.con, &other.con)?,
        &statement,
    )
}

fn add(needs: &mut Items<Needed>, needed: Needed) -> Result<(), AllocError>
    ensures { OnOk result (map named needs.new ≡ map named needs.old ++ named needed ∷ []) }
{
    needs.push(needed)
}

// What is asked of a constructor alone: nothing, where it has no arguments.
fn add_injection(
    alloc: Global,
    needs: &mut Items<Needed>,
    whole: &Ty,
    shape: &Shape,
) -> Result<(), AllocError>
    ensures { OnOk result (map named needs.new ≡ map named needs.old ++ own_injection whole.now (seen_shape shape.now)) }
{
    if shape.args.as_slice().is_empty() {
        return Ok(());
    }
    add(needs, injection_of(alloc, whole, shape)?)
}

fn add_injections(
    alloc: Global,
    needs: &mut Items<Needed>,
    whole: &Ty,
    shapes: &[Shape],
) -> Result<(), AllocError>
    ensures { OnOk result (map named needs.new ≡ map named needs.old ++ injections whole.now (map seen_shape shapes.now)) }
{
    let mut rest = shapes;
    while let Some((shape, later)) = rest.split_first() {
        add_injection(alloc, needs, whole, shape)?;
        rest = later;
    }
    Ok(())
}

fn add_difference(
    alloc: Global,
    needs: &mut Items<Needed>,
    whole: &Ty,
    shape: &Shape,
    other: &Shape,
) -> Result<(), AllocError>
    ensures { OnOk result (map named needs.new ≡ map named needs.old ++ own_difference whole.now (seen_shape shape.now) (seen_shape other.now)) }
{
    add(needs, difference_of(alloc, whole, shape, other)?)
}

fn add_differences_from(
    alloc: Global,
    needs: &mut Items<Needed>,
    whole: &Ty,
    shape: &Shape,
    others: &[Shape],
) -> Result<(), AllocError>
    ensures { OnOk result (map named needs.new ≡ map named needs.old ++ differences_from whole.now (seen_shape shape.now) (map seen_shape others.now)) }
{
    let mut rest = others;
    while let Some((other, later)) = rest.split_first() {
        add_difference(alloc, needs, whole, shape, other)?;
        rest = later;
    }
    Ok(())
}

fn add_differences(
    alloc: Global,
    needs: &mut Items<Needed>,
    whole: &Ty,
    shapes: &[Shape],
) -> Result<(), AllocError>
    ensures { OnOk result (map named needs.new ≡ map named needs.old ++ differences whole.now (map seen_shape shapes.now)) }
{
    let mut rest = shapes;
    while let Some((shape, others)) = rest.split_first() {
        add_differences_from(alloc, needs, whole, shape, others)?;
        rest = others;
    }
    Ok(())
}

fn all_needed(
    alloc: Global,
    signature: &Signature,
    ty: &ConType,
) -> Result<Items<Needed>, AllocError>
    ensures { IfOk result (λ needs. map named needs ≡ needed signature.now ty.now) }
{
    let whole = whole_of(alloc, signature, &ty.name, ty.cons.as_slice())?;
    let shapes = shapes_of(alloc, signature, &ty.name, ty.cons.as_slice())?;
    let mut needs = Items::new(alloc);
    let exhaustion = exhaustion_of(alloc, &ty.name, &whole, shapes.as_slice())?;
    add(&mut needs, exhaustion)?;
    add_injections(alloc, &mut needs, &whole, shapes.as_slice())?;
    add_differences(alloc, &mut needs, &whole, shapes.as_slice())?;
    Ok(needs)
}

// The first that isn't a constant.
fn first_unknown<'a>(signature: &Signature, cons: &'a [Name]) -> Option<&'a Name>
    ensures { option_copied result ≡ first_unknown signature.now cons.now }
{
    for con in cons {
        if signature.const_type(con).is_none() {
            return Some(con);
        }
    }
    None
}

// The type or the first constant that isn't there.
fn unknown_of<'a>(signature: &Signature, ty: &'a ConType) -> Option<&'a Name>
    ensures { option_copied result ≡ unknown_of signature.now ty.now }
{
    if signature.arity(&ty.name).is_none() {
        return Some(&ty.name);
    }
    first_unknown(signature, ty.cons.as_slice())
}

// The first constant that is there a second time or isn't a constructor of the type.
fn other_of<'a>(
    alloc: Global,
    signature: &Signature,
    ty: &'a ConType,
) -> Result<Option<&'a Name>, AllocError>
    ensures { IfOk result (λ o. option_copied o ≡ other_of signature.now ty.now) }
{
    let cons = ty.cons.as_slice();
    for at in 0..cons.len() {
        let con = &cons[at];
        if is_among(&cons[..at], con)
            || constructor_parameters(alloc, signature, &ty.name, con)?.is_none()
        {
            return Ok(Some(con));
        }
    }
    Ok(None)
}

/// The theorems that make the constants the constructors of the type, in their order: that each value is one of them, that
/// each with arguments is injective, and that no two give one value. Type variables are named in order of first
/// occurrence.
pub fn constructor_needs(
    alloc: Global,
    signature: &Signature,
    ty: &ConType,
) -> Result<Items<Needed>, ConFault>
    ensures { Needs signature.now ty.now result }
{
    if let Some(name) = unknown_of(signature, ty) {
        return Err(fault::unknown_name(name));
    }
    if let Some(name) = other_of(alloc, signature, ty)? {
        return Err(fault::not_constructor(name));
    }
    Ok(all_needed(alloc, signature, ty)?)
}
