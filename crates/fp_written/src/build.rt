//! What each symbol makes of the terms and types that were made before.
ghost use Rattle.std.specs.Prelude.{◌≡◌, ◌∷◌, suc, max, IfOk, codes, None, Some, IsTrue, List, ℕ};
ghost use Rattle.std.specs.Option.{option_map};
ghost use Rattle.fp_term.specs.Names.{is_name};
ghost use Rattle.fp_raw.specs.Raws.{raw_name, raw_variable, raw_applied, raw_none};
ghost use Rattle.fp_written.specs.Machine.{does, makes_so, made, sized, sized_ty, one_term, two_terms, three_terms, term_and_type, one_type, two_types, apply_made, infix_made, not_made, if_made, pair_made, typed_made, abs_made, typed_abs_made, deeper, deeper_ty, post_made, ty_infix_made, arg_made};
ghost use Rattle.fp_written.specs.Trees.{applied_to, with_two, with_three, plain, numeral_of, binds, binding, operator};
ghost use Rattle.fp_written.specs.TypeViews.{head_of, sized_type_of};
ghost use Rattle.fp_written.specs.Views.{sized_of, terms_of, types_so, made_of, symbol_of};

use crate::moves::plus;
use crate::symbol::Symbol;
use crate::types::{self, TypePart};
use fp_raw::{Raw, RawType};
use fp_term::Name;
use fp_words::{Binder, Infix};
use std::alloc::{AllocError, Global};

/// A term that was made, and its depth as written.
#[derive(Drop)]
pub(crate) struct Part {
    pub(crate) raw: Raw,
    pub(crate) depth: u32,
}

/// The terms and types that were made, and aren't yet parts of others.
#[derive(Drop)]
pub(crate) struct Parts {
    pub(crate) terms: Vec<Part>,
    pub(crate) types: Vec<TypePart>,
}

fn app(alloc: Global, fun: Raw, arg: Raw) -> Result<Raw, AllocError>
    ensures { IfOk result (λ t. t ≡ applied_to fun arg) }
{
    let at = fun.place();
    Raw::app(alloc, fun, arg, at)
}

fn constant(alloc: Global, name: &[u8], at: u32) -> Result<Raw, AllocError>
    requires { IsTrue (is_name name.now) }
    ensures { IfOk result (λ t. t ≡ plain name.now at) }
{
    Raw::constant(alloc, Name::of(alloc, name)?, None, at)
}

fn app_2(alloc: Global, f: Raw, a: Raw, b: Raw) -> Result<Raw, AllocError>
    ensures { IfOk result (λ t. t ≡ applied_to (applied_to f a) b) }
{
    let first = app(alloc, f, a)?;
    app(alloc, first, b)
}

#[tactic(auto, unfolding(fp_term::specs::Names::is_name))]
fn operator_name(o: Infix) -> &'static [u8]
    ensures is { result.now ≡ operator o }
    ensures form { IsTrue (is_name result.now) }
{
    match o {
        Infix::Implies => b"imp",
        Infix::Disj => b"or",
        Infix::Conj => b"and",
        Infix::Equal => b"eq",
        Infix::Less => b"less",
        Infix::Leq => b"leq",
        Infix::Plus => b"plus",
        Infix::Minus => b"minus",
        Infix::Times => b"times",
        Infix::Arrow => b"fun",
    }
}

#[tactic(auto, unfolding(fp_term::specs::Names::is_name))]
fn numeral(alloc: Global, number: u32, at: u32) -> Result<Raw, AllocError>
    ensures { IfOk result (λ t. t ≡ numeral_of number at) }
{
    let successor = constant(alloc, b"Suc", at)?;
    let mut term = constant(alloc, b"Zero", at)?;
    for count in 0..number {
        let _ = count;
        term = app(alloc, successor.copy()?, term)?;
    }
    Ok(term)
}

fn infix(alloc: Global, o: Infix, at: u32, a: Part, b: Part) -> Result<Part, AllocError>
    ensures { IfOk result (λ p. sized_of p ≡ infix_made o at (sized_of a) (sized_of b)) }
{
    let depth = plus(a.depth.max(b.depth), 1)?;
    let f = constant(alloc, operator_name(o), at)?;
    Ok(Part {
        raw: app_2(alloc, f, a.raw, b.raw)?,
        depth,
    })
}

#[tactic(auto, unfolding(fp_term::specs::Names::is_name))]
fn pair(alloc: Global, at: u32, a: Part, b: Part) -> Result<Part, AllocError>
    ensures { IfOk result (λ p. sized_of p ≡ pair_made at (sized_of a) (sized_of b)) }
{
    let depth = a.depth.max(b.depth);
    let f = constant(alloc, b"Pair", at)?;
    Ok(Part {
        raw: app_2(alloc, f, a.raw, b.raw)?,
        depth,
    })
}

fn application(alloc: Global, a: Part, b: Part) -> Result<Part, AllocError>
    ensures { IfOk result (λ p. sized_of p ≡ apply_made (sized_of a) (sized_of b)) }
{
    let depth = plus(a.depth.max(b.depth), 1)?;
    Ok(Part {
        raw: app(alloc, a.raw, b.raw)?,
        depth,
    })
}

#[tactic(auto, unfolding(fp_term::specs::Names::is_name))]
fn negation(alloc: Global, at: u32, a: Part) -> Result<Part, AllocError>
    ensures { IfOk result (λ p. sized_of p ≡ not_made at (sized_of a)) }
{
    let depth = plus(a.depth, 1)?;
    let f = constant(alloc, b"not", at)?;
    Ok(Part {
        raw: app(alloc, f, a.raw)?,
        depth,
    })
}

#[tactic(auto, unfolding(fp_term::specs::Names::is_name))]
fn choice(alloc: Global, at: u32, a: Part, b: Part, c: Part) -> Result<Part, AllocError>
    ensures { IfOk result (λ p. sized_of p ≡ if_made at (sized_of a) (sized_of b) (sized_of c)) }
{
    let depth = plus(a.depth.max(b.depth.max(c.depth)), 1)?;
    let f = constant(alloc, b"If", at)?;
    let first = app_2(alloc, f, a.raw, b.raw)?;
    Ok(Part {
        raw: app(alloc, first, c.raw)?,
        depth,
    })
}

#[tactic(auto, unfolding(fp_term::specs::Names::is_name))]
fn with_binder(alloc: Global, b: Binder, at: u32, term: Raw) -> Result<Raw, AllocError>
    ensures { IfOk result (λ t. t ≡ binds b term at) }
{
    let f = match b {
        Binder::Lambda => return Ok(term),
        Binder::All => constant(alloc, b"all", at)?,
        Binder::Some => constant(alloc, b"ex", at)?,
        Binder::Select => constant(alloc, b"select", at)?,
    };
    app(alloc, f, term)
}

fn abstraction(
    alloc: Global,
    b: Binder,
    name: &Name,
    at: u32,
    ty: Option<RawType>,
    body: Raw,
) -> Result<Raw, AllocError>
    ensures { IfOk result (λ t. t ≡ binding b name.now at ty body) }
{
    let name = name.copy()?;
    let term = Raw::abs(alloc, Some(name), ty, body, at)?;
    with_binder(alloc, b, at, term)
}

fn bound(alloc: Global, b: Binder, name: &Name, at: u32, a: Part) -> Result<Part, AllocError>
    ensures { IfOk result (λ p. sized_of p ≡ abs_made b name.now at (sized_of a)) }
{
    let depth = a.depth.max(1);
    Ok(Part {
        raw: abstraction(alloc, b, name, at, None, a.raw)?,
        depth,
    })
}

fn bound_typed(
    alloc: Global,
    b: Binder,
    name: &Name,
    at: u32,
    a: Part,
    u: TypePart,
) -> Result<Part, AllocError>
    ensures { IfOk result (λ p. sized_of p ≡ typed_abs_made b name.now at (sized_of a) (sized_type_of u)) }
{
    let depth = plus(u.depth, 1)?.max(a.depth);
    let ty = types::whole_type(alloc, u)?;
    Ok(Part {
        raw: abstraction(alloc, b, name, at, Some(ty), a.raw)?,
        depth,
    })
}

fn annotated(alloc: Global, at: u32, a: Part, u: TypePart) -> Result<Part, AllocError>
    ensures { IfOk result (λ p. sized_of p ≡ typed_made at (sized_of a) (sized_type_of u)) }
{
    let depth = plus(a.depth.max(u.depth), 1)?;
    let ty = types::whole_type(alloc, u)?;
    Ok(Part {
        raw: Raw::typed(alloc, a.raw, ty, at)?,
        depth,
    })
}

fn with_term(part: Part, parts: Parts) -> Result<Parts, AllocError>
    ensures { IfOk result (λ p. made_of p ≡ made (sized_of part ∷ terms_of parts.terms.items) (types_so parts.types.items)) }
{
    let Parts { mut terms, types } = parts;
    terms.push(part)?;
    Ok(Parts { terms, types })
}

fn with_type(part: TypePart, parts: Parts) -> Result<Parts, AllocError>
    ensures { IfOk result (λ p. made_of p ≡ made (terms_of parts.terms.items) (sized_type_of part ∷ types_so parts.types.items)) }
{
    let Parts { terms, mut types } = parts;
    types.push(part)?;
    Ok(Parts { terms, types })
}

// What takes one term.
fn negate(alloc: Global, at: u32, mut parts: Parts) -> Result<Option<Parts>, AllocError>
    ensures { IfOk result (λ m. option_map made_of m ≡ one_term (not_made at) (terms_of parts.terms.items) (types_so parts.types.items)) }
{
    let Some(a) = parts.terms.pop() else {
        return Ok(None);
    };
    let part = negation(alloc, at, a)?;
    Ok(Some(with_term(part, parts)?))
}

fn bind(
    alloc: Global,
    b: Binder,
    name: &Name,
    at: u32,
    mut parts: Parts,
) -> Result<Option<Parts>, AllocError>
    ensures { IfOk result (λ m. option_map made_of m ≡ one_term (abs_made b name.now at) (terms_of parts.terms.items) (types_so parts.types.items)) }
{
    let Some(a) = parts.terms.pop() else {
        return Ok(None);
    };
    let part = bound(alloc, b, name, at, a)?;
    Ok(Some(with_term(part, parts)?))
}

fn deepen(mut parts: Parts) -> Result<Option<Parts>, AllocError>
    ensures { IfOk result (λ m. option_map made_of m ≡ one_term deeper (terms_of parts.terms.items) (types_so parts.types.items)) }
{
    let Some(a) = parts.terms.pop() else {
        return Ok(None);
    };
    let depth = plus(a.depth, 1)?;
    Ok(Some(with_term(Part { raw: a.raw, depth }, parts)?))
}

fn apply(alloc: Global, mut parts: Parts) -> Result<Option<Parts>, AllocError>
    ensures { IfOk result (λ m. option_map made_of m ≡ two_terms apply_made (terms_of parts.terms.items) (types_so parts.types.items)) }
{
    let Some(b) = parts.terms.pop() else {
        return Ok(None);
    };
    let Some(a) = parts.terms.pop() else {
        return Ok(None);
    };
    let part = application(alloc, a, b)?;
    Ok(Some(with_term(part, parts)?))
}

fn join(alloc: Global, o: Infix, at: u32, mut parts: Parts) -> Result<Option<Parts>, AllocError>
    ensures { IfOk result (λ m. option_map made_of m ≡ two_terms (infix_made o at) (terms_of parts.terms.items) (types_so parts.types.items)) }
{
    let Some(b) = parts.terms.pop() else {
        return Ok(None);
    };
    let Some(a) = parts.terms.pop() else {
        return Ok(None);
    };
    let part = infix(alloc, o, at, a, b)?;
    Ok(Some(with_term(part, parts)?))
}

fn make_pair(alloc: Global, at: u32, mut parts: Parts) -> Result<Option<Parts>, AllocError>
    ensures { IfOk result (λ m. option_map made_of m ≡ two_terms (pair_made at) (terms_of parts.terms.items) (types_so parts.types.items)) }
{
    let Some(b) = parts.terms.pop() else {
        return Ok(None);
    };
    let Some(a) = parts.terms.pop() else {
        return Ok(None);
    };
    let part = pair(alloc, at, a, b)?;
    Ok(Some(with_term(part, parts)?))
}

fn choose(alloc: Global, at: u32, mut parts: Parts) -> Result<Option<Parts>, AllocError>
    ensures { IfOk result (λ m. option_map made_of m ≡ three_terms (if_made at) (terms_of parts.terms.items) (types_so parts.types.items)) }
{
    let Some(c) = parts.terms.pop() else {
        return Ok(None);
    };
    let Some(b) = parts.terms.pop() else {
        return Ok(None);
    };
    let Some(a) = parts.terms.pop() else {
        return Ok(None);
    };
    let part = choice(alloc, at, a, b, c)?;
    Ok(Some(with_term(part, parts)?))
}

fn bind_typed(
    alloc: Global,
    b: Binder,
    name: &Name,
    at: u32,
    mut parts: Parts,
) -> Result<Option<Parts>, AllocError>
    ensures { IfOk result (λ m. option_map made_of m ≡ term_and_type (typed_abs_made b name.now at) (terms_of parts.terms.items) (types_so parts.types.items)) }
{
    let Some(a) = parts.terms.pop() else {
        return Ok(None);
    };
    let Some(u) = parts.types.pop() else {
        return Ok(None);
    };
    let part = bound_typed(alloc, b, name, at, a, u)?;
    Ok(Some(with_term(part, parts)?))
}

fn annotate(alloc: Global, at: u32, mut parts: Parts) -> Result<Option<Parts>, AllocError>
    ensures { IfOk result (λ m. option_map made_of m ≡ term_and_type (typed_made at) (terms_of parts.terms.items) (types_so parts.types.items)) }
{
    let Some(a) = parts.terms.pop() else {
        return Ok(None);
    };
    let Some(u) = parts.types.pop() else {
        return Ok(None);
    };
    let part = annotated(alloc, at, a, u)?;
    Ok(Some(with_term(part, parts)?))
}

fn put_behind(
    alloc: Global,
    name: &Name,
    at: u32,
    mut parts: Parts,
) -> Result<Option<Parts>, AllocError>
    ensures { IfOk result (λ m. option_map made_of m ≡ one_type (post_made name.now at) (terms_of parts.terms.items) (types_so parts.types.items)) }
{
    let Some(u) = parts.types.pop() else {
        return Ok(None);
    };
    let part = types::postfix(alloc, name, at, u)?;
    Ok(Some(with_type(part, parts)?))
}

fn deepen_type(mut parts: Parts) -> Result<Option<Parts>, AllocError>
    ensures { IfOk result (λ m. option_map made_of m ≡ one_type deeper_ty (terms_of parts.terms.items) (types_so parts.types.items)) }
{
    let Some(u) = parts.types.pop() else {
        return Ok(None);
    };
    let part = types::deeper(u)?;
    Ok(Some(with_type(part, parts)?))
}

fn join_last(
    alloc: Global,
    o: Infix,
    at: u32,
    mut parts: Parts,
) -> Result<Option<Parts>, AllocError>
    ensures { IfOk result (λ m. option_map made_of m ≡ two_types (ty_infix_made o at) (terms_of parts.terms.items) (types_so parts.types.items)) }
{
    let Some(b) = parts.types.pop() else {
        return Ok(None);
    };
    let Some(a) = parts.types.pop() else {
        return Ok(None);
    };
    let part = types::joined(alloc, o, at, a, b)?;
    Ok(Some(with_type(part, parts)?))
}

fn argue(alloc: Global, mut parts: Parts) -> Result<Option<Parts>, AllocError>
    ensures { IfOk result (λ m. option_map made_of m ≡ two_types arg_made (terms_of parts.terms.items) (types_so parts.types.items)) }
{
    let Some(b) = parts.types.pop() else {
        return Ok(None);
    };
    let Some(a) = parts.types.pop() else {
        return Ok(None);
    };
    let part = types::argued(alloc, a, b)?;
    Ok(Some(with_type(part, parts)?))
}

fn make_name(alloc: Global, name: &Name, at: u32, parts: Parts) -> Result<Parts, AllocError>
    ensures { IfOk result (λ p. made_of p ≡ made (sized (raw_name name.now at) 1 ∷ terms_of parts.terms.items) (types_so parts.types.items)) }
{
    let raw = Raw::name(alloc, name.copy()?, at)?;
    with_term(Part { raw, depth: 1 }, parts)
}

fn make_number(alloc: Global, number: u32, at: u32, parts: Parts) -> Result<Parts, AllocError>
    ensures { IfOk result (λ p. made_of p ≡ made (sized (numeral_of number at) 1 ∷ terms_of parts.terms.items) (types_so parts.types.items)) }
{
    let raw = numeral(alloc, number, at)?;
    with_term(Part { raw, depth: 1 }, parts)
}

fn make_variable(name: &Name, at: u32, parts: Parts) -> Result<Parts, AllocError>
    ensures { IfOk result (λ p. made_of p ≡ made (terms_of parts.terms.items) (sized_ty (raw_variable name.now at) 1 ∷ types_so parts.types.items)) }
{
    let part = types::variable(name, at)?;
    with_type(part, parts)
}

fn make_constructor(alloc: Global, name: &Name, at: u32, parts: Parts) -> Result<Parts, AllocError>
    ensures { IfOk result (λ p. made_of p ≡ made (terms_of parts.terms.items) (sized_ty (raw_applied name.now raw_none at) 1 ∷ types_so parts.types.items)) }
{
    let part = types::constructor(alloc, name, at)?;
    with_type(part, parts)
}

/// What the symbol makes of the parts, or nothing where it reads or lacks a part.
pub(crate) fn make(
    alloc: Global,
    symbol: Symbol<'_>,
    parts: Parts,
) -> Result<Option<Parts>, AllocError>
    ensures { IfOk result (λ m. option_map made_of m ≡ makes_so (does (symbol_of symbol.entry)) (terms_of parts.terms.items) (types_so parts.types.items)) }
{
    match symbol {
        Symbol::MakeName(name, at) => Ok(Some(make_name(alloc, name, at, parts)?)),
        Symbol::MakeNumber(number, at) => Ok(Some(make_number(alloc, number, at, parts)?)),
        Symbol::MakeApp => apply(alloc, parts),
        Symbol::MakeInfix(o, at) => join(alloc, o, at, parts),
        Symbol::MakeNot(at) => negate(alloc, at, parts),
        Symbol::MakeIf(at) => choose(alloc, at, parts),
        Symbol::MakePair(at) => make_pair(alloc, at, parts),
        Symbol::MakeTyped(at) => annotate(alloc, at, parts),
        Symbol::MakeAbs(b, name, at) => bind(alloc, b, name, at, parts),
        Symbol::MakeTypedAbs(b, name, at) => bind_typed(alloc, b, name, at, parts),
        Symbol::Deepen => deepen(parts),
        Symbol::MakeTyVar(name, at) => Ok(Some(make_variable(name, at, parts)?)),
        Symbol::MakeCon(name, at) => Ok(Some(make_constructor(alloc, name, at, parts)?)),
        Symbol::MakePost(name, at) => put_behind(alloc, name, at, parts),
        Symbol::MakeTyInfix(o, at) => join_last(alloc, o, at, parts),
        Symbol::MakeArg => argue(alloc, parts),
        Symbol::DeepenTy => deepen_type(parts),
        Symbol::Term(..) => Ok(None),
        Symbol::MoreTerm(..) => Ok(None),
        Symbol::AfterWhole => Ok(None),
        Symbol::AfterTerm(_) => Ok(None),
        Symbol::AfterPart(_) => Ok(None),
        Symbol::Vars(..) => Ok(None),
        Symbol::MoreVars(..) => Ok(None),
        Symbol::VarName(..) => Ok(None),
        Symbol::Ty(..) => Ok(None),
        Symbol::MoreTy(..) => Ok(None),
        Symbol::AfterTy(_) => Ok(None),
        Symbol::AfterArg(_) => Ok(None),
        Symbol::ConName => Ok(None),
        Symbol::WantColons => Ok(None),
        Symbol::WantThen => Ok(None),
        Symbol::WantElse => Ok(None),
        Symbol::WantClose => Ok(None),
    }
}
