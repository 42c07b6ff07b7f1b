//! The names of a written term that its signature doesn't know, and the type variables that it writes.

ghost use Rattle.std.specs.Prelude.{◌≡◌, ℕ, None, is_some, IfOk};
ghost use Rattle.fp_raw.specs.Raws.{arguments};
ghost use Rattle.fp_constrain.specs.Binding.{declared_in};
ghost use Rattle.fp_infer.specs.Names.{is_wrong, lacks_constant, wrong_in_type, wrong_in_types, wrong_in_option, wrong_in, sooner, earliest, found_if, raw_count};
ghost use Rattle.fp_infer.specs.declared.names.Search.TheVariants.{Unknown, Arity};

use fp_constrain::Constants;
use fp_raw::{Raw, RawNode, RawType, RawTypeNode};
use fp_term::{Name, Signature};
use std::alloc::AllocError;

/// What is looked for: names that the signature lacks, or type constructors with another number of arguments.
#[derive(Clone, Copy, Drop)]
pub enum Search {
    Unknown,
    Arity,
}

// Keeps the name if its place is the least so far.
fn keep_sooner(best: &mut Option<(u32, Name)>, at: u32, name: &Name) -> Result<(), AllocError>
    ensures { IfOk result (λ _. best.new ≡ sooner best.old (at, name.now)) }
{
    let is_sooner = match &*best {
        None => true,
        Some(known) => at < known.0,
    };
    if is_sooner {
        *best = Some((at, name.copy()?));
    }
    Ok(())
}

// Keeps the name if it is wrong and its place is the least so far.
fn keep_if(
    wrong: bool,
    best: &mut Option<(u32, Name)>,
    at: u32,
    name: &Name,
) -> Result<(), AllocError>
    ensures { IfOk result (λ _. best.new ≡ earliest best.old (found_if wrong at name.now)) }
{
    if wrong {
        keep_sooner(best, at, name)?;
    }
    Ok(())
}

fn is_wrong(search: Search, signature: &Signature, name: &Name, count: usize) -> bool
    ensures { result ≡ is_wrong search signature.now name.now count }
{
    let arity = signature.arity(name);
    match search {
        Search::Unknown => arity.is_none(),
        Search::Arity => match arity {
            Some(arity) => count != arity as usize,
            None => false,
        },
    }
}

// Looks at the constructors of a type.
#[cycle(look)]
fn look_at_type(
    search: Search,
    signature: &Signature,
    best: &mut Option<(u32, Name)>,
    ty: &RawType,
) -> Result<(), AllocError>
    ensures { IfOk result (λ _. best.new ≡ earliest best.old (wrong_in_type search signature.now ty.now)) }
{
    match ty.node() {
        RawTypeNode::Var(_) => Ok(()),
        RawTypeNode::Con { name, args } => {
            let args = args.as_slice();
            keep_if(
                is_wrong(search, signature, name, args.len()),
                best,
                ty.place(),
                name,
            )?;
            look_at_types(search, signature, best, args)?;
            Ok(())
        }
    }
}

#[cycle(look)]
fn look_at_types(
    search: Search,
    signature: &Signature,
    best: &mut Option<(u32, Name)>,
    types: &[RawType],
) -> Result<(), AllocError>
    ensures { IfOk result (λ _. best.new ≡ earliest best.old (wrong_in_types search signature.now (arguments types.now))) }
{
    match types {
        [] => Ok(()),
        [first, rest @ ..] => {
            look_at_type(search, signature, best, first)?;
            look_at_types(search, signature, best, rest)?;
            Ok(())
        }
    }
}

fn look_at_option(
    search: Search,
    signature: &Signature,
    best: &mut Option<(u32, Name)>,
    ty: &Option<RawType>,
) -> Result<(), AllocError>
    ensures { IfOk result (λ _. best.new ≡ earliest best.old (wrong_in_option search signature.now ty.now)) }
{
    match ty {
        None => Ok(()),
        Some(ty) => {
            look_at_type(search, signature, best, ty)?;
            Ok(())
        }
    }
}

fn lacks_constant(search: Search, constants: &Constants<'_>, name: &Name) -> bool
    ensures { result ≡ lacks_constant search (is_some (declared_in constants.now name.now)) }
{
    match search {
        Search::Unknown => !constants.has(name),
        Search::Arity => false,
    }
}

// Looks at the types and constants of a term.
#[cycle(look_at)]
fn look_at(
    search: Search,
    constants: &Constants<'_>,
    best: &mut Option<(u32, Name)>,
    raw: &Raw,
) -> Result<(), AllocError>
    ensures { IfOk result (λ _. best.new ≡ earliest best.old (wrong_in search constants.now.signature.now (declared_in constants.now) raw.now)) }
{
    match raw.node() {
        RawNode::Name(_) => Ok(()),
        RawNode::Bound(_) => Ok(()),
        RawNode::Free { ty, .. } => {
            look_at_type(search, constants.signature, best, ty)?;
            Ok(())
        }
        RawNode::Const { name, ty } => {
            keep_if(
                lacks_constant(search, constants, name),
                best,
                raw.place(),
                name,
            )?;
            look_at_option(search, constants.signature, best, ty)?;
            Ok(())
        }
        RawNode::App { fun, arg } => {
            look_at(search, constants, best, fun)?;
            look_at(search, constants, best, arg)?;
            Ok(())
        }
        RawNode::Abs { ty, body, .. } => {
            look_at_option(search, constants.signature, best, ty)?;
            look_at(search, constants, best, body)?;
            Ok(())
        }
        RawNode::Typed { term, ty } => {
            look_at(search, constants, best, term)?;
            look_at_type(search, constants.signature, best, ty)?;
            Ok(())
        }
    }
}

/// The first wrong name of the term by its place, and of equal places the first in the text's order.
pub fn first_wrong(
    search: Search,
    constants: &Constants<'_>,
    raw: &Raw,
) -> Result<Option<(u32, Name)>, AllocError>
    ensures { IfOk result (λ o. o ≡ earliest None (wrong_in search constants.now.signature.now (declared_in constants.now) raw.now)) }
{
    let mut best = None;
    look_at(search, constants, &mut best, raw)?;
    Ok(best)
}

/// The first wrong name of a written type.
pub fn first_wrong_in_type(
    search: Search,
    signature: &Signature,
    ty: &RawType,
) -> Result<Option<(u32, Name)>, AllocError>
    ensures { IfOk result (λ o. o ≡ earliest None (wrong_in_type search signature.now ty.now)) }
{
    let mut best = None;
    look_at_type(search, signature, &mut best, ty)?;
    Ok(best)
}
