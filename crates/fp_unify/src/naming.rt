//! The types of a table, with names for those of which nothing is known, in order of first occurrence.

ghost use Rattle.std.specs.Prelude.{◌≡◌, ◌<◌, ◌+◌, ◌++◌, [], ◌∷◌, false, length, IfOk};
ghost use Rattle.std.specs.Option.{option_copied};
ghost use Rattle.fp_term.specs.Types.{none, variable};
ghost use Rattle.fp_term.specs.Variables.{is_among};
ghost use Rattle.fp_unify.specs.Facts.{AllBelow};
ghost use Rattle.fp_unify.specs.Cells.{AreFine, cell};
ghost use Rattle.fp_unify.specs.Settled.{Determines};
ghost use Rattle.fp_unify.specs.Candidates.{candidate, fresh_before};
ghost use Rattle.fp_unify.specs.Naming.{name_of, IsNamer, AreWritten, Within, AreWithin, Shows, ShowsAll, listed};
ghost use Rattle.fp_unify.specs.declared.table.Shape.TheVariants.{Open};

use crate::table::{Shape, root};
use fp_term::{Name, Ty, Tys};
use std::alloc::{AllocError, Global};

/// The names given so far to types of which nothing is known; `next` is the place of the next candidate.
#[derive(Drop)]
pub struct Namer {
    pub pairs: Vec<(u32, Name)>,
    pub next: u32,
}

fn is_among(names: &[Name], name: &Name) -> bool
    ensures { result ≡ is_among names.now name.now }
{
    for known in names {
        if known.equals(name) {
            return true;
        }
    }
    false
}

// The name at that place of `a`, .., `z`, `a1`, .., `z1`, `a2` and so on.
fn candidate_bytes(alloc: Global, place: u32) -> Result<Vec<u8>, AllocError>
    ensures { IfOk result (λ name. name.items ≡ candidate place) }
{
    let mut name = Vec::new(alloc);
    name.push(b'a' + (place % 26) as u8)?;
    let round = place / 26;
    if round != 0 {
        let digits = round.to_string(alloc)?;
        name.extend_from_slice(digits.as_bytes())?;
    }
    Ok(name)
}

fn candidate(alloc: Global, place: u32) -> Result<Name, AllocError>
    ensures { IfOk result (λ name. name ≡ candidate place) }
{
    let bytes = candidate_bytes(alloc, place)?;
    let name = Name::of(alloc, bytes.as_slice())?;
    Ok(name)
}

// The next candidate that isn't written.
fn next_name(alloc: Global, written: &[Name], next: &mut u32) -> Result<Name, AllocError>
    ensures names { IfOk result (λ name. fresh_before written.now next.new ≡ fresh_before written.now next.old ++ name ∷ []) }
    ensures unwritten { IfOk result (λ name. is_among written.now name ≡ false) }
    ensures unused { IfOk result (λ name. is_among (fresh_before written.now next.old) name ≡ false) }
{
    for place in *next..u32::MAX {
        let name = candidate(alloc, place)?;
        if !is_among(written, &name) {
            *next = place + 1;
            return Ok(name);
        }
    }
    Err(AllocError)
}

fn find<'a>(pairs: &'a [(u32, Name)], number: u32) -> Option<&'a Name>
    ensures { option_copied result ≡ name_of number pairs.now }
{
    for pair in pairs {
        if pair.0 == number {
            return Some(&pair.1);
        }
    }
    None
}

// The variable of the type's name, and a further name where it has none.
fn show_open(
    alloc: Global,
    cells: &[Shape],
    written: &[Name],
    namer: &mut Namer,
    at: u32,
) -> Result<Ty, AllocError>
    requires unknown { cell cells.now at ≡ Open }
    requires namer { IsNamer cells.now written.now namer.old.next namer.old.pairs.items }
    ensures namer { IfOk result (λ _. IsNamer cells.now written.now namer.new.next namer.new.pairs.items) }
    ensures shows { IfOk result (λ t. Shows cells.now written.now at namer.old.pairs.items namer.new.pairs.items t) }
{
    if let Some(name) = find(namer.pairs.as_slice(), at) {
        let name = name.copy()?;
        let ty = Ty::var(alloc, name)?;
        return Ok(ty);
    }
    let name = next_name(alloc, written, &mut namer.next)?;
    namer.pairs.push((at, name.copy()?))?;
    let ty = Ty::var(alloc, name)?;
    Ok(ty)
}

fn types_of(alloc: Global, mut types: Vec<Ty>) -> Result<Tys, AllocError>
    ensures { IfOk result (λ tys. tys ≡ listed types.items none) }
{
    let mut all = Tys::end(alloc)?;
    while let Some(ty) = types.pop() {
        all = Tys::more(alloc, ty, all)?;
    }
    Ok(all)
}

/// The type of the number, with names for the types of which nothing is known.
#[cycle(show)]
pub fn show(
    alloc: Global,
    cells: &[Shape],
    written: &[Name],
    namer: &mut Namer,
    at: u32,
    room: u32,
) -> Result<Ty, AllocError>
    requires fine { AreFine cells.now }
    requires determines { Determines cells.now }
    requires inside { at < length cells.now }
    requires written { AreWritten cells.now written.now }
    requires small { Within cells.now at room }
    requires namer { IsNamer cells.now written.now namer.old.next namer.old.pairs.items }
    ensures namer { IfOk result (λ _. IsNamer cells.now written.now namer.new.next namer.new.pairs.items) }
    ensures shows { IfOk result (λ t. Shows cells.now written.now at namer.old.pairs.items namer.new.pairs.items t) }
{
    let root = root(cells, at);
    match &cells[root as usize] {
        Shape::Var(name) => {
            let name = name.copy()?;
            let ty = Ty::var(alloc, name)?;
            Ok(ty)
        }
        Shape::Con { name, args } => {
            let args = show_all(alloc, cells, written, namer, args.as_slice(), room - 1)?;
            let name = name.copy()?;
            let ty = Ty::con(alloc, name, args)?;
            Ok(ty)
        }
        _ => {
            let ty = show_open(alloc, cells, written, namer, root)?;
            Ok(ty)
        }
    }
}

#[cycle(show)]
fn show_all(
    alloc: Global,
    cells: &[Shape],
    written: &[Name],
    namer: &mut Namer,
    all: &[u32],
    room: u32,
) -> Result<Tys, AllocError>
    requires fine { AreFine cells.now }
    requires determines { Determines cells.now }
    requires inside { AllBelow (length cells.now) all.now }
    requires written { AreWritten cells.now written.now }
    requires small { AreWithin cells.now all.now room }
    requires namer { IsNamer cells.now written.now namer.old.next namer.old.pairs.items }
    ensures namer { IfOk result (λ _. IsNamer cells.now written.now namer.new.next namer.new.pairs.items) }
    ensures shows { IfOk result (λ ts. ShowsAll cells.now written.now all.now namer.old.pairs.items namer.new.pairs.items ts) }
{
    let mut shown = Vec::new(alloc);
    for at in all {
        let ty = show(alloc, cells, written, namer, *at, room)?;
        shown.push(ty)?;
    }
    let types = types_of(alloc, shown)?;
    Ok(types)
}
