//! The term that a written term stands for, from the types of its subterms.

ghost use Rattle.std.specs.Prelude.{◌≡◌, ℕ, ◌<◌, ◌≤◌, ◌+◌, length, slice_index_or, Option, IfOk};
ghost use Rattle.fp_term.specs.Types.{Typ};
ghost use Rattle.fp_raw.specs.Raws.{RawTyp, raw_size, raw_name, raw_app, raw_abs};
ghost use Rattle.fp_constrain.specs.Binding.{declared_in};
ghost use Rattle.fp_constrain.specs.Rules.{is_named};
ghost use Rattle.fp_unify.specs.Cells.{Fits, AreFine};
ghost use Rattle.fp_unify.specs.Settled.{Determines};
ghost use Rattle.fp_infer.specs.Built.{bound_number, domain};
ghost use Rattle.fp_infer.specs.Builds.{around_of, IsReady, IsArrow, AreArrows, Builds};
ghost use Rattle.fp_unify.specs.Naming.{IsNamer, Within, Shows};

use fp_constrain::Constants;
use fp_raw::{Raw, RawNode};
use fp_term::{Name, Term, Ty};
use fp_unify::{Namer, Shape, root, show};
use std::alloc::{AllocError, Global};

/// The bound variables around a term.
#[derive(Drop)]
pub(crate) enum Binders<'a> {
    Outermost,
    Under {
        name: &'a Option<Name>,
        outer: &'a Binders<'a>,
    },
}

fn is_named(bound: &Option<Name>, name: &Name) -> bool
    ensures { result ≡ is_named bound.now name.now }
{
    match bound {
        Some(bound) => bound.equals(name),
        None => false,
    }
}

// The number of the innermost bound variable of that name, where there is one.
fn number_of(binders: &Binders<'_>, name: &Name) -> Result<Option<u32>, AllocError>
    ensures { IfOk result (λ o. o ≡ bound_number name.now (around_of binders.now)) }
{
    match binders {
        Binders::Outermost => Ok(None),
        Binders::Under { name: bound, outer } => {
            if is_named(bound, name) {
                return Ok(Some(0));
            }
            match number_of(outer, name)? {
                Some(number) => {
                    if number == u32::MAX {
                        return Err(AllocError);
                    }
                    Ok(Some(number + 1))
                }
                None => Ok(None),
            }
        }
    }
}

// The type from which the functions of the type go.
fn domain_of(cells: &[Shape], at: u32) -> u32
    requires fine { AreFine cells.now }
    requires determines { Determines cells.now }
    requires inside { at < length cells.now }
    requires arrow { IsArrow cells.now at }
    ensures inside { result < length cells.now }
    ensures is { (v : ℕ → Typ) → Fits v cells.now → v result ≡ domain (v at) }
    ensures small { (room : ℕ) → Within cells.now at room → Within cells.now result room }
{
    let root = root(cells, at);
    match &cells[root as usize] {
        Shape::Con { args, .. } => {
            let args = args.as_slice();
            if args.is_empty() { at } else { args[0] }
        }
        Shape::Open => at,
        Shape::Var(_) => at,
        Shape::Link(_) => at,
    }
}

// The type of the subterm of that number.
fn show_type(
    alloc: Global,
    cells: &[Shape],
    seen: &[u32],
    written: &[Name],
    namer: &mut Namer,
    number: usize,
) -> Result<Ty, AllocError>
    requires ready { IsReady cells.now seen.now written.now 200 }
    requires within { number < length seen.now }
    requires namer { IsNamer cells.now written.now namer.old.next namer.old.pairs.items }
    ensures namer { IfOk result (λ _. IsNamer cells.now written.now namer.new.next namer.new.pairs.items) }
    ensures shows { IfOk result (λ t. Shows cells.now written.now (slice_index_or seen.now number 0) namer.old.pairs.items namer.new.pairs.items t) }
{
    let ty = show(alloc, cells, written, namer, seen[number], 200)?;
    Ok(ty)
}

// The type of the bound variable of the abstraction of that number.
fn show_domain(
    alloc: Global,
    cells: &[Shape],
    seen: &[u32],
    written: &[Name],
    namer: &mut Namer,
    number: usize,
) -> Result<Ty, AllocError>
    requires ready { IsReady cells.now seen.now written.now 200 }
    requires within { number < length seen.now }
    requires arrow { IsArrow cells.now (slice_index_or seen.now number 0) }
    requires namer { IsNamer cells.now written.now namer.old.next namer.old.pairs.items }
    ensures namer { IfOk result (λ _. IsNamer cells.now written.now namer.new.next namer.new.pairs.items) }
    ensures shows { IfOk result (λ t. (at : ℕ) × ((v : ℕ → Typ) → Fits v cells.now → v at ≡ domain (v (slice_index_or seen.now number 0))) × Shows cells.now written.now at namer.old.pairs.items namer.new.pairs.items t) }
{
    let at = domain_of(cells, seen[number]);
    let ty = show(alloc, cells, written, namer, at, 200)?;
    Ok(ty)
}

#[cycle(build)]
fn build_app(
    alloc: Global,
    constants: &Constants<'_>,
    cells: &[Shape],
    seen: &[u32],
    written: &[Name],
    namer: &mut Namer,
    binders: &Binders<'_>,
    step: usize,
    fun: &Raw,
    arg: &Raw,
) -> Result<Term, AllocError>
    requires ready { IsReady cells.now seen.now written.now 200 }
    requires within { step + raw_size fun.now + raw_size arg.now < length seen.now }
    requires fun_arrows { AreArrows cells.now seen.now step fun.now }
    requires arg_arrows { AreArrows cells.now seen.now (step + raw_size fun.now) arg.now }
    requires namer { IsNamer cells.now written.now namer.old.next namer.old.pairs.items }
    ensures namer { IfOk result (λ _. IsNamer cells.now written.now namer.new.next namer.new.pairs.items) }
    ensures builds { IfOk result (λ t. (p : ℕ) → Builds (declared_in constants.now) cells.now written.now seen.now (around_of binders.now) step (raw_app fun.now arg.now p) namer.old.pairs.items namer.new.pairs.items t) }
{
    let first = build(
        alloc, constants, cells, seen, written, namer, binders, step, fun,
    )?;
    let after = step + fun.size() as usize;
    let second = build(
        alloc, constants, cells, seen, written, namer, binders, after, arg,
    )?;
    let term = Term::app(alloc, first, second)?;
    Ok(term)
}

#[cycle(build)]
fn build_abs(
    alloc: Global,
    constants: &Constants<'_>,
    cells: &[Shape],
    seen: &[u32],
    written: &[Name],
    namer: &mut Namer,
    binders: &Binders<'_>,
    step: usize,
    name: &Option<Name>,
    body: &Raw,
) -> Result<Term, AllocError>
    requires ready { IsReady cells.now seen.now written.now 200 }
    requires within { step + raw_size body.now < length seen.now }
    requires arrows { AreArrows cells.now seen.now step body.now }
    requires arrow { IsArrow cells.now (slice_index_or seen.now (step + raw_size body.now) 0) }
    requires namer { IsNamer cells.now written.now namer.old.next namer.old.pairs.items }
    ensures namer { IfOk result (λ _. IsNamer cells.now written.now namer.new.next namer.new.pairs.items) }
    ensures builds { IfOk result (λ t. (w : Option RawTyp) (p : ℕ) → Builds (declared_in constants.now) cells.now written.now seen.now (around_of binders.now) step (raw_abs name.now w body.now p) namer.old.pairs.items namer.new.pairs.items t) }
{
    let number = step + body.size() as usize;
    let ty = show_domain(alloc, cells, seen, written, namer, number)?;
    let inner = Binders::Under {
        name: &*name,
        outer: &*binders,
    };
    let inside = build(
        alloc, constants, cells, seen, written, namer, &inner, step, body,
    )?;
    let term = Term::abs(alloc, ty, inside)?;
    Ok(term)
}

fn build_name(
    alloc: Global,
    constants: &Constants<'_>,
    cells: &[Shape],
    seen: &[u32],
    written: &[Name],
    namer: &mut Namer,
    binders: &Binders<'_>,
    step: usize,
    word: &Name,
) -> Result<Term, AllocError>
    requires ready { IsReady cells.now seen.now written.now 200 }
    requires within { step < length seen.now }
    requires namer { IsNamer cells.now written.now namer.old.next namer.old.pairs.items }
    ensures namer { IfOk result (λ _. IsNamer cells.now written.now namer.new.next namer.new.pairs.items) }
    ensures builds { IfOk result (λ t. (p : ℕ) → Builds (declared_in constants.now) cells.now written.now seen.now (around_of binders.now) step (raw_name word.now p) namer.old.pairs.items namer.new.pairs.items t) }
{
    if let Some(number) = number_of(binders, word)? {
        let term = Term::bound(alloc, number)?;
        return Ok(term);
    }
    let ty = show_type(alloc, cells, seen, written, namer, step)?;
    let word_copy = word.copy()?;
    if constants.has(word) {
        let term = Term::constant(alloc, word_copy, ty)?;
        return Ok(term);
    }
    let term = Term::free(alloc, word_copy, ty)?;
    Ok(term)
}

/// The term that the written one stands for, with the types of the table.
#[cycle(build)]
pub(crate) fn build(
    alloc: Global,
    constants: &Constants<'_>,
    cells: &[Shape],
    seen: &[u32],
    written: &[Name],
    namer: &mut Namer,
    binders: &Binders<'_>,
    step: usize,
    raw: &Raw,
) -> Result<Term, AllocError>
    requires ready { IsReady cells.now seen.now written.now 200 }
    requires within { step + raw_size raw.now ≤ length seen.now }
    requires arrows { AreArrows cells.now seen.now step raw.now }
    requires namer { IsNamer cells.now written.now namer.old.next namer.old.pairs.items }
    ensures namer { IfOk result (λ _. IsNamer cells.now written.now namer.new.next namer.new.pairs.items) }
    ensures builds { IfOk result (λ t. Builds (declared_in constants.now) cells.now written.now seen.now (around_of binders.now) step raw.now namer.old.pairs.items namer.new.pairs.items t) }
{
    match raw.node() {
        RawNode::Name(word) => {
            let term = build_name(
                alloc, constants, cells, seen, written, namer, binders, step, word,
            )?;
            Ok(term)
        }
        RawNode::Bound(number) => {
            let term = Term::bound(alloc, *number)?;
            Ok(term)
        }
        RawNode::Free { name, .. } => {
            let ty = show_type(alloc, cells, seen, written, namer, step)?;
            let term = Term::free(alloc, name.copy()?, ty)?;
            Ok(term)
        }
        RawNode::Const { name, .. } => {
            let ty = show_type(alloc, cells, seen, written, namer, step)?;
            let term = Term::constant(alloc, name.copy()?, ty)?;
            Ok(term)
        }
        RawNode::App { fun, arg } => {
            let term = build_app(
                alloc, constants, cells, seen, written, namer, binders, step, fun, arg,
            )?;
            Ok(term)
        }
        RawNode::Abs { name, body, .. } => {
            let term = build_abs(
                alloc, constants, cells, seen, written, namer, binders, step, name, body,
            )?;
            Ok(term)
        }
        RawNode::Typed { term, .. } => {
            let term = build(
                alloc, constants, cells, seen, written, namer, binders, step, term,
            )?;
            Ok(term)
        }
    }
}
