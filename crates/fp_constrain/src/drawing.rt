//! Equations for written terms.

ghost use Rattle.std.specs.Prelude.{◌≡◌, ℕ, ◌<◌, ◌+◌, ◌++◌, [], ◌∷◌, length, List, IfOk};
ghost use Rattle.std.specs.Option.{option_map};
ghost use Rattle.std.specs.List.{slice_get};
ghost use Rattle.fp_term.specs.Names.{function};
ghost use Rattle.fp_constrain.specs.Declarations.{Declarations};
ghost use Rattle.fp_unify.specs.declared.fact.Fact.TheVariants.{IsCon};
ghost use Rattle.fp_unify.specs.Facts.{AreAbout};
ghost use Rattle.fp_raw.specs.Raws.{raw_name, raw_bound, raw_free, raw_constant, raw_app, raw_abs, raw_typed, raw_size};
ghost use Rattle.fp_constrain.specs.Subterms.{plain, plain_option};
ghost use Rattle.fp_constrain.specs.Rules.{innermost, NameHas, ConstantHas, IsWritten};
ghost use Rattle.fp_constrain.specs.Drafts.{Leaf, Finds, IsKnownDeclared, IsKnownOption, Lays, WithWritten};
ghost use Rattle.fp_constrain.specs.Draws.{number_among, innermost_number, scope_types, types_of, Binders, BindersBelow, Draws, Binds};
ghost use Rattle.fp_constrain.specs.Binding.{binders_in, declared_in};

use crate::constants::Constants;
use crate::draft::{Draft, lay};
use crate::instance::{exactly, instance_of, same_as};
use crate::plain::plain_type;
use fp_raw::{Raw, RawNode, RawType};
use fp_term::{Items, Name, function_name};
use fp_unify::Fact;
use std::alloc::{AllocError, Global};

/// The bound variables around a term.
#[derive(Drop)]
pub(crate) enum Around<'a> {
    Outermost,
    Under {
        name: &'a Option<Name>,
        at: u32,
        outer: &'a Around<'a>,
    },
}

pub(crate) fn number_among(name: &Name, names: &[Name]) -> u32
    requires { length names.now < 4294967296 }
    ensures { result ≡ number_among names.now name.now }
{
    let mut number = 0;
    for known in names {
        if known.equals(name) {
            return number;
        }
        number += 1;
    }
    number
}

fn innermost<'a>(around: &Around<'a>, name: &Name) -> Option<u32>
    ensures { result ≡ innermost_number name.now (binders_in around.now) }
{
    match around {
        Around::Outermost => None,
        Around::Under {
            name: bound,
            at,
            outer,
        } => match bound {
            Some(bound) => if bound.equals(name) {
                Some(*at)
            } else {
                innermost(outer, name)
            },
            None => innermost(outer, name),
        },
    }
}

// Says that the one type is that of functions from the second type to the third.
fn add_function(
    alloc: Global,
    draft: &mut Draft,
    at: u32,
    from: u32,
    to: u32,
) -> Result<(), AllocError>
    ensures next { IfOk result (λ _. draft.new.next ≡ draft.old.next) }
    ensures step { IfOk result (λ _. draft.new.step ≡ draft.old.step) }
    ensures facts { IfOk result (λ _. draft.new.facts.items ≡ draft.old.facts.items ++ (draft.old.step, IsCon at function (from ∷ to ∷ [])) ∷ []) }
{
    let mut args = Items::new(alloc);
    args.push(from)?;
    args.push(to)?;
    let name = function_name(alloc)?;
    draft.add(Fact::IsCon { at, name, args })?;
    Ok(())
}

fn get(around: &Around<'_>, number: u32) -> Option<u32>
    ensures { result ≡ option_map (λ b. b.1) (slice_get (binders_in around.now) number) }
{
    match around {
        Around::Outermost => None,
        Around::Under { at, outer, .. } => if number == 0 {
            Some(*at)
        } else {
            get(outer, number - 1)
        },
    }
}

// A further type that nothing can be.
fn never(draft: &mut Draft) -> Result<u32, AllocError>
    requires { AreAbout draft.old.next draft.old.facts.items }
    ensures step { IfOk result (λ _. draft.new.step ≡ draft.old.step) }
    ensures leaf { IfOk result (λ at. Leaf (λ v t. ⊥) (λ g written. Unit {0}) draft.old.step draft.old.next draft.old.facts.items draft.new.next draft.new.facts.items at) }
{
    let at = draft.fresh()?;
    draft.add(Fact::Never)?;
    Ok(at)
}

// A further type that is the same as a known one.
fn known(draft: &mut Draft, at: u32) -> Result<u32, AllocError>
    requires about { AreAbout draft.old.next draft.old.facts.items }
    requires inside { at < draft.old.next }
    ensures step { IfOk result (λ _. draft.new.step ≡ draft.old.step) }
    ensures leaf { IfOk result (λ new. Leaf (λ v t. t ≡ v at) (λ g written. Unit {0}) draft.old.step draft.old.next draft.old.facts.items draft.new.next draft.new.facts.items new) }
{
    let new = same_as(draft, at)?;
    Ok(new)
}

// A further type as the constant has it, if the name is one of a constant.
fn declared_type(
    alloc: Global,
    constants: &Constants<'_>,
    draft: &mut Draft,
    name: &Name,
) -> Result<Option<u32>, AllocError>
    requires { AreAbout draft.old.next draft.old.facts.items }
    ensures step { IfOk result (λ _. draft.new.step ≡ draft.old.step) }
    ensures finds { IfOk result (λ o. Finds (declared_in constants.now name.now) draft.old.step draft.old.next draft.old.facts.items draft.new.next draft.new.facts.items o) }
{
    if let Some(exact) = constants.exact_type(name) {
        let new = exactly(alloc, draft, exact)?;
        return Ok(Some(new));
    }
    match constants.signature.const_type(name) {
        Some(generic) => {
            let new = instance_of(alloc, draft, generic)?;
            Ok(Some(new))
        }
        None => Ok(None),
    }
}

fn name_type(
    alloc: Global,
    constants: &Constants<'_>,
    names: &[Name],
    around: &Around<'_>,
    draft: &mut Draft,
    name: &Name,
) -> Result<u32, AllocError>
    requires about { AreAbout draft.old.next draft.old.facts.items }
    requires binders { BindersBelow draft.old.next (binders_in around.now) }
    requires names { length names.now < draft.old.next }
    requires few { length names.now < 4294967296 }
    ensures step { IfOk result (λ _. draft.new.step ≡ draft.old.step) }
    ensures leaf { IfOk result (λ at. Leaf (λ v t. NameHas (innermost name.now (scope_types v (binders_in around.now))) (declared_in constants.now name.now) (types_of v names.now name.now) t) (λ g written. IsKnownDeclared g written (declared_in constants.now name.now)) draft.old.step draft.old.next draft.old.facts.items draft.new.next draft.new.facts.items at) }
{
    match innermost(around, name) {
        Some(at) => {
            let new = known(draft, at)?;
            Ok(new)
        }
        None => match declared_type(alloc, constants, draft, name)? {
            Some(new) => Ok(new),
            None => {
                let number = number_among(name, names);
                let new = known(draft, number)?;
                Ok(new)
            }
        },
    }
}

fn constant_type(
    alloc: Global,
    constants: &Constants<'_>,
    draft: &mut Draft,
    name: &Name,
) -> Result<u32, AllocError>
    requires { AreAbout draft.old.next draft.old.facts.items }
    ensures step { IfOk result (λ _. draft.new.step ≡ draft.old.step) }
    ensures leaf { IfOk result (λ at. Leaf (λ v t. ConstantHas (declared_in constants.now name.now) t) (λ g written. IsKnownDeclared g written (declared_in constants.now name.now)) draft.old.step draft.old.next draft.old.facts.items draft.new.next draft.new.facts.items at) }
{
    match declared_type(alloc, constants, draft, name)? {
        Some(new) => Ok(new),
        None => {
            let new = never(draft)?;
            Ok(new)
        }
    }
}

// A further type that is the written one.
fn written(alloc: Global, draft: &mut Draft, ty: &RawType) -> Result<u32, AllocError>
    requires { AreAbout draft.old.next draft.old.facts.items }
    ensures step { IfOk result (λ _. draft.new.step ≡ draft.old.step) }
    ensures lays { IfOk result (λ at. Lays 0 [] (plain ty.now) draft.old.next draft.old.facts.items draft.new.next draft.new.facts.items at) }
{
    let ty = plain_type(alloc, ty)?;
    let at = lay(alloc, draft, &[], &ty)?;
    Ok(at)
}

// Says that the type is the written one too.
fn also_written(alloc: Global, draft: &mut Draft, at: u32, ty: &RawType) -> Result<u32, AllocError>
    requires { AreAbout draft.old.next draft.old.facts.items }
    ensures step { IfOk result (λ _. draft.new.step ≡ draft.old.step) }
    ensures lays { IfOk result (λ node. WithWritten draft.old.step at (plain ty.now) draft.old.next draft.old.facts.items draft.new.next draft.new.facts.items node) }
{
    let node = written(alloc, draft, ty)?;
    draft.add(Fact::Same {
        left: at,
        right: node,
    })?;
    Ok(node)
}

// The type of a bound variable.
fn binder_type(alloc: Global, draft: &mut Draft, ty: &Option<RawType>) -> Result<u32, AllocError>
    requires { AreAbout draft.old.next draft.old.facts.items }
    ensures step { IfOk result (λ _. draft.new.step ≡ draft.old.step) }
    ensures binds { IfOk result (λ at. Binds (plain_option ty.now) draft.old.next draft.old.facts.items draft.new.next draft.new.facts.items at) }
{
    match ty {
        None => {
            let at = draft.fresh()?;
            Ok(at)
        }
        Some(ty) => {
            let at = written(alloc, draft, ty)?;
            Ok(at)
        }
    }
}

// The next subterm's rule. The type of this one has the number.
fn advance(draft: &mut Draft, seen: &mut Vec<u32>, at: u32) -> Result<(), AllocError>
    ensures next { IfOk result (λ _. draft.new.next ≡ draft.old.next) }
    ensures step { IfOk result (λ _. draft.new.step ≡ draft.old.step + 1) }
    ensures facts { IfOk result (λ _. draft.new.facts.items ≡ draft.old.facts.items) }
    ensures seen { IfOk result (λ _. seen.new.items ≡ seen.old.items ++ at ∷ []) }
{
    if draft.step == u32::MAX {
        return Err(AllocError);
    }
    draft.step += 1;
    seen.push(at)?;
    Ok(())
}

fn draw_name(
    alloc: Global,
    constants: &Constants<'_>,
    names: &[Name],
    around: &Around<'_>,
    draft: &mut Draft,
    seen: &mut Vec<u32>,
    written: &Name,
) -> Result<u32, AllocError>
    requires about { AreAbout draft.old.next draft.old.facts.items }
    requires binders { BindersBelow draft.old.next (binders_in around.now) }
    requires names { length names.now < draft.old.next }
    requires few { length names.now < 4294967296 }
    requires counted { length seen.old.items ≡ draft.old.step }
    ensures step { IfOk result (λ _. draft.new.step ≡ draft.old.step + 1) }
    ensures draws { IfOk result (λ at. (p : ℕ) → Draws (declared_in constants.now) names.now (binders_in around.now) (raw_name written.now p) draft.old.step draft.old.next draft.old.facts.items draft.new.next draft.new.facts.items seen.old.items seen.new.items at) }
{
    let at = name_type(alloc, constants, names, around, draft, written)?;
    advance(draft, seen, at)?;
    Ok(at)
}

#[cycle(draw)]
fn draw_app(
    alloc: Global,
    constants: &Constants<'_>,
    names: &[Name],
    around: &Around<'_>,
    draft: &mut Draft,
    seen: &mut Vec<u32>,
    fun: &Raw,
    arg: &Raw,
) -> Result<u32, AllocError>
    requires about { AreAbout draft.old.next draft.old.facts.items }
    requires binders { BindersBelow draft.old.next (binders_in around.now) }
    requires names { length names.now < draft.old.next }
    requires few { length names.now < 4294967296 }
    requires counted { length seen.old.items ≡ draft.old.step }
    ensures step { IfOk result (λ _. draft.new.step ≡ draft.old.step + raw_size fun.now + raw_size arg.now + 1) }
    ensures draws { IfOk result (λ at. (p : ℕ) → Draws (declared_in constants.now) names.now (binders_in around.now) (raw_app fun.now arg.now p) draft.old.step draft.old.next draft.old.facts.items draft.new.next draft.new.facts.items seen.old.items seen.new.items at) }
{
    let of_fun = draw(alloc, constants, names, around, draft, seen, fun)?;
    let of_arg = draw(alloc, constants, names, around, draft, seen, arg)?;
    let at = draft.fresh()?;
    add_function(alloc, draft, of_fun, of_arg, at)?;
    advance(draft, seen, at)?;
    Ok(at)
}

#[cycle(draw)]
fn draw_abs(
    alloc: Global,
    constants: &Constants<'_>,
    names: &[Name],
    around: &Around<'_>,
    draft: &mut Draft,
    seen: &mut Vec<u32>,
    name: &Option<Name>,
    ty: &Option<RawType>,
    body: &Raw,
) -> Result<u32, AllocError>
    requires about { AreAbout draft.old.next draft.old.facts.items }
    requires binders { BindersBelow draft.old.next (binders_in around.now) }
    requires names { length names.now < draft.old.next }
    requires few { length names.now < 4294967296 }
    requires counted { length seen.old.items ≡ draft.old.step }
    ensures step { IfOk result (λ _. draft.new.step ≡ draft.old.step + raw_size body.now + 1) }
    ensures draws { IfOk result (λ at. (p : ℕ) → Draws (declared_in constants.now) names.now (binders_in around.now) (raw_abs name.now ty.now body.now p) draft.old.step draft.old.next draft.old.facts.items draft.new.next draft.new.facts.items seen.old.items seen.new.items at) }
{
    let bound = binder_type(alloc, draft, ty)?;
    let inner = Around::Under {
        name: &*name,
        at: bound,
        outer: &*around,
    };
    let of_body = draw(alloc, constants, names, &inner, draft, seen, body)?;
    let at = draft.fresh()?;
    add_function(alloc, draft, at, bound, of_body)?;
    advance(draft, seen, at)?;
    Ok(at)
}

fn draw_bound(
    draft: &mut Draft,
    seen: &mut Vec<u32>,
    around: &Around<'_>,
    number: u32,
) -> Result<u32, AllocError>
    requires about { AreAbout draft.old.next draft.old.facts.items }
    requires binders { BindersBelow draft.old.next (binders_in around.now) }
    requires counted { length seen.old.items ≡ draft.old.step }
    ensures step { IfOk result (λ _. draft.new.step ≡ draft.old.step + 1) }
    ensures draws { IfOk result (λ at. (g : Declarations) (names : List (List ℕ)) (p : ℕ) → Draws g names (binders_in around.now) (raw_bound number p) draft.old.step draft.old.next draft.old.facts.items draft.new.next draft.new.facts.items seen.old.items seen.new.items at) }
{
    match get(around, number) {
        Some(outer) => {
            let at = known(draft, outer)?;
            advance(draft, seen, at)?;
            Ok(at)
        }
        None => {
            let at = never(draft)?;
            advance(draft, seen, at)?;
            Ok(at)
        }
    }
}

fn draw_free(
    alloc: Global,
    names: &[Name],
    draft: &mut Draft,
    seen: &mut Vec<u32>,
    name: &Name,
    ty: &RawType,
) -> Result<u32, AllocError>
    requires about { AreAbout draft.old.next draft.old.facts.items }
    requires names { length names.now < draft.old.next }
    requires few { length names.now < 4294967296 }
    requires counted { length seen.old.items ≡ draft.old.step }
    ensures step { IfOk result (λ _. draft.new.step ≡ draft.old.step + 1) }
    ensures draws { IfOk result (λ at. (g : Declarations) (binders : Binders) (p : ℕ) → Draws g names.now binders (raw_free name.now ty.now p) draft.old.step draft.old.next draft.old.facts.items draft.new.next draft.new.facts.items seen.old.items seen.new.items at) }
{
    let number = number_among(name, names);
    let at = known(draft, number)?;
    also_written(alloc, draft, at, ty)?;
    advance(draft, seen, at)?;
    Ok(at)
}

// A constant's type, which is the written one too.
fn constant_leaf(
    alloc: Global,
    constants: &Constants<'_>,
    draft: &mut Draft,
    name: &Name,
    ty: &Option<RawType>,
) -> Result<u32, AllocError>
    requires { AreAbout draft.old.next draft.old.facts.items }
    ensures step { IfOk result (λ _. draft.new.step ≡ draft.old.step) }
    ensures leaf { IfOk result (λ at. Leaf (λ v t. ConstantHas (declared_in constants.now name.now) t × IsWritten (plain_option ty.now) t) (λ g written. IsKnownDeclared g written (declared_in constants.now name.now) × IsKnownOption g written (plain_option ty.now)) draft.old.step draft.old.next draft.old.facts.items draft.new.next draft.new.facts.items at) }
{
    let at = constant_type(alloc, constants, draft, name)?;
    match ty {
        None => Ok(at),
        Some(ty) => {
            also_written(alloc, draft, at, ty)?;
            Ok(at)
        }
    }
}

fn draw_constant(
    alloc: Global,
    constants: &Constants<'_>,
    draft: &mut Draft,
    seen: &mut Vec<u32>,
    name: &Name,
    ty: &Option<RawType>,
) -> Result<u32, AllocError>
    requires about { AreAbout draft.old.next draft.old.facts.items }
    requires counted { length seen.old.items ≡ draft.old.step }
    ensures step { IfOk result (λ _. draft.new.step ≡ draft.old.step + 1) }
    ensures draws { IfOk result (λ at. (names : List (List ℕ)) (binders : Binders) (p : ℕ) → Draws (declared_in constants.now) names binders (raw_constant name.now ty.now p) draft.old.step draft.old.next draft.old.facts.items draft.new.next draft.new.facts.items seen.old.items seen.new.items at) }
{
    let at = constant_leaf(alloc, constants, draft, name, ty)?;
    advance(draft, seen, at)?;
    Ok(at)
}

#[cycle(draw)]
fn draw_typed(
    alloc: Global,
    constants: &Constants<'_>,
    names: &[Name],
    around: &Around<'_>,
    draft: &mut Draft,
    seen: &mut Vec<u32>,
    term: &Raw,
    ty: &RawType,
) -> Result<u32, AllocError>
    requires about { AreAbout draft.old.next draft.old.facts.items }
    requires binders { BindersBelow draft.old.next (binders_in around.now) }
    requires names { length names.now < draft.old.next }
    requires few { length names.now < 4294967296 }
    requires counted { length seen.old.items ≡ draft.old.step }
    ensures step { IfOk result (λ _. draft.new.step ≡ draft.old.step + raw_size term.now + 1) }
    ensures draws { IfOk result (λ at. (p : ℕ) → Draws (declared_in constants.now) names.now (binders_in around.now) (raw_typed term.now ty.now p) draft.old.step draft.old.next draft.old.facts.items draft.new.next draft.new.facts.items seen.old.items seen.new.items at) }
{
    let of_term = draw(alloc, constants, names, around, draft, seen, term)?;
    let node = also_written(alloc, draft, of_term, ty)?;
    let at = same_as(draft, node)?;
    advance(draft, seen, at)?;
    Ok(at)
}

/// Adds the equations for the term, and answers the number of its type.
#[cycle(draw)]
pub(crate) fn draw(
    alloc: Global,
    constants: &Constants<'_>,
    names: &[Name],
    around: &Around<'_>,
    draft: &mut Draft,
    seen: &mut Vec<u32>,
    raw: &Raw,
) -> Result<u32, AllocError>
    requires about { AreAbout draft.old.next draft.old.facts.items }
    requires binders { BindersBelow draft.old.next (binders_in around.now) }
    requires names { length names.now < draft.old.next }
    requires few { length names.now < 4294967296 }
    requires counted { length seen.old.items ≡ draft.old.step }
    ensures step { IfOk result (λ _. draft.new.step ≡ draft.old.step + raw_size raw.now) }
    ensures draws { IfOk result (λ at. Draws (declared_in constants.now) names.now (binders_in around.now) raw.now draft.old.step draft.old.next draft.old.facts.items draft.new.next draft.new.facts.items seen.old.items seen.new.items at) }
{
    match raw.node() {
        RawNode::Name(name) => {
            let at = draw_name(alloc, constants, names, around, draft, seen, name)?;
            Ok(at)
        }
        RawNode::App { fun, arg } => {
            let at = draw_app(alloc, constants, names, around, draft, seen, fun, arg)?;
            Ok(at)
        }
        RawNode::Abs { name, ty, body } => {
            let at = draw_abs(alloc, constants, names, around, draft, seen, name, ty, body)?;
            Ok(at)
        }
        RawNode::Bound(number) => {
            let at = draw_bound(draft, seen, around, *number)?;
            Ok(at)
        }
        RawNode::Free { name, ty } => {
            let at = draw_free(alloc, names, draft, seen, name, ty)?;
            Ok(at)
        }
        RawNode::Const { name, ty } => {
            let at = draw_constant(alloc, constants, draft, seen, name, ty)?;
            Ok(at)
        }
        RawNode::Typed { term, ty } => {
            let at = draw_typed(alloc, constants, names, around, draft, seen, term, ty)?;
            Ok(at)
        }
    }
}
