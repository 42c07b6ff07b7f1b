//! The commands `size` and `measure`.
ghost use Rattle.std.specs.Prelude.{◌≡◌, [], ◌∷◌, map, true, Ok, IfOk, IfErr};
ghost use Rattle.fp_term.specs.Typing.{type_under, function_type};
ghost use Rattle.fp_constrain.specs.Subterms.{plain};
ghost use Rattle.fp_measure.specs.Sources.{natural, IsMeasure};
ghost use Rattle.fp_sources.specs.Sources.{source, told_each};
ghost use Rattle.fp_report.specs.Items.{AreShown, IsShown};
ghost use Rattle.fp_command.specs.Outcome.{session, wrong_type_name, wrong_name, AreNamed, Measures, FailsMeasure, is_fit, Misnames, Declares, measure_item, AcceptsMeasure, RefusesMeasure, AreProved};
ghost use Rattle.fp_command.specs.Answers.{Leaves, Shows, At};

use crate::fault::{CommandFault, of_term, refused, refused_of};
use crate::stated::one;
use fp_constrain::{Constants, plain_type};
use fp_infer::{Search, elaborate, first_wrong, first_wrong_in_type};
use fp_measure::{Decl, DeclKind, MeasureSource, natural};
use fp_raw::{Raw, RawType};
use fp_report::{Item, Kind, Naming};
use fp_sources::tell_each;
use fp_term::{Items, Name, Term, Ty, function_of, hidden_type};
use fp_theory::Theory;
use std::alloc::{AllocError, Global};

// The earliest wrong name of a written type.
fn wrong_type_name(
    search: Search,
    theory: &Theory,
    ty: &RawType,
) -> Result<Option<(u32, Name)>, AllocError>
    ensures { IfOk result (λ o. o ≡ wrong_type_name search theory.now ty.now) }
{
    first_wrong_in_type(search, theory.signature(), ty)
}

// The earliest wrong name of a written term.
fn wrong_name(
    search: Search,
    theory: &Theory,
    term: &Raw,
) -> Result<Option<(u32, Name)>, AllocError>
    ensures { IfOk result (λ o. o ≡ wrong_name search theory.now term.now) }
{
    let constants = Constants {
        signature: theory.signature(),
        exact: &[],
    };
    first_wrong(search, &constants, term)
}

// Are the names those of the theory's signature?
#[tactic(auto, using(crate::proofs::Measuring::type_name_refused, crate::proofs::Measuring::name_refused, crate::proofs::Measuring::arity_refused))]
fn check_names(theory: &Theory, ty: &RawType, term: &Raw) -> Result<(), CommandFault>
    ensures named { IfOk result (λ _. AreNamed theory.now ty.now term.now) }
    ensures refused { IfErr result (Shows (Misnames theory.now ty.now term.now)) }
{
    if let Some((at, name)) = wrong_type_name(Search::Unknown, theory, ty)? {
        return Err(refused_of(at, Naming::UnknownName, name));
    }
    if let Some((at, name)) = wrong_name(Search::Unknown, theory, term)? {
        return Err(refused_of(at, Naming::UnknownName, name));
    }
    if let Some((at, name)) = wrong_type_name(Search::Arity, theory, ty)? {
        return Err(refused_of(at, Naming::BadArity, name));
    }
    Ok(())
}

// The term that the written one stands for as a function from the type into the natural numbers.
fn elaborated(
    alloc: Global,
    theory: &Theory,
    wanted: &Ty,
    ty: &Ty,
    term: &Raw,
) -> Result<Term, CommandFault>
    requires { wanted.now ≡ function_type ty.now natural }
    ensures typed { IfOk result (λ t. Measures theory.now ty.now term.now (Ok t)) }
    ensures refused { IfErr result (Shows (FailsMeasure theory.now ty.now term.now)) }
{
    match elaborate(alloc, term, theory.signature(), &[], Some(wanted)) {
        Ok(term) => Ok(term),
        Err(fault) => Err(of_term(fault)),
    }
}

// Has the term no variables, and no type variables that the type lacks?
fn is_fit(ty: &Ty, term: &Term) -> bool
    ensures { result ≡ is_fit ty.now term.now }
{
    !term.is_open() && hidden_type(term, ty).is_none()
}

// The term of a declaration, or why there is none.
#[tactic(auto, using(crate::proofs::Measuring::untyped_refused, crate::proofs::Measuring::unfit_refused))]
fn measured(
    alloc: Global,
    at: u32,
    theory: &Theory,
    written: &RawType,
    ty: &Ty,
    term: &Raw,
) -> Result<Term, CommandFault>
    requires names { AreNamed theory.now written.now term.now }
    requires type_is { ty.now ≡ plain written.now }
    ensures typed { IfOk result (λ t. Measures theory.now ty.now term.now (Ok t)) }
    ensures fit { IfOk result (λ t. is_fit ty.now t ≡ true) }
    ensures refused { IfErr result (Shows (RefusesMeasure theory.now at written.now term.now)) }
{
    let wanted = function_of(alloc, ty.copy()?, natural(alloc)?)?;
    match elaborated(alloc, theory, &wanted, ty, term) {
        Ok(term) => if is_fit(ty, &term) {
            Ok(term)
        } else {
            Err(refused(at, Kind::NotMeasure))
        },
        Err(fault) => Err(fault),
    }
}

// What is declared, where the names are those of the theory's signature.
#[tactic(auto, using(crate::proofs::Measuring::declares))]
fn named_declaration(
    alloc: Global,
    at: u32,
    kind: DeclKind,
    ty: &RawType,
    term: &Raw,
    theory: &Theory,
) -> Result<Decl, CommandFault>
    requires { AreNamed theory.now ty.now term.now }
    ensures declares { IfOk result (Declares kind theory.now ty.now term.now) }
    ensures refused { IfErr result (Shows (RefusesMeasure theory.now at ty.now term.now)) }
{
    let plain = plain_type(alloc, ty)?;
    match measured(alloc, at, theory, ty, &plain, term) {
        Ok(term) => Ok(Decl {
            kind,
            ty: plain,
            term,
        }),
        Err(fault) => Err(fault),
    }
}

// What is declared.
#[tactic(auto, using(crate::proofs::Measuring::misnamed_refused))]
fn declaration(
    alloc: Global,
    at: u32,
    kind: DeclKind,
    ty: &RawType,
    term: &Raw,
    theory: &Theory,
) -> Result<Decl, CommandFault>
    ensures declares { IfOk result (Declares kind theory.now ty.now term.now) }
    ensures refused { IfErr result (Shows (RefusesMeasure theory.now at ty.now term.now)) }
{
    match check_names(theory, ty, term) {
        Ok(()) => named_declaration(alloc, at, kind, ty, term, theory),
        Err(fault) => Err(fault),
    }
}

// What is shown of a measure that is declared as one of that kind.
fn measure_item(kind: DeclKind, ty: Ty, term: Term) -> Item
    ensures { result ≡ measure_item kind ty term }
{
    match kind {
        DeclKind::Size => Item::Size(ty, term),
        DeclKind::Measure => Item::Measure(ty, term),
    }
}

// What is shown of a declaration.
#[tactic(auto, using(crate::proofs::Measuring::measure_shown))]
fn measure_items(alloc: Global, decl: &Decl) -> Result<Items<Item>, AllocError>
    requires { IsMeasure decl.now.ty decl.now.term }
    ensures items { IfOk result (λ items. items ≡ measure_item decl.now.kind decl.now.ty decl.now.term ∷ []) }
    ensures shown { IfOk result AreShown }
{
    let item = measure_item(decl.kind, decl.ty.copy()?, decl.term.copy()?);
    one(alloc, item)
}

// Tells each source the declaration, and shows it.
fn declared(
    alloc: Global,
    decl: &Decl,
    sources: &mut [Box<dyn MeasureSource + Send + Sync>],
) -> Result<Items<Item>, AllocError>
    requires { IsMeasure decl.now.ty decl.now.term }
    ensures items { IfOk result (λ items. items ≡ measure_item decl.now.kind decl.now.ty decl.now.term ∷ []) }
    ensures shown { IfOk result AreShown }
    ensures told { IfOk result (λ _. map (λ s. source (habits s) (entries s)) sources.new ≡ told_each decl.now.kind decl.now.ty decl.now.term (map (λ s. source (habits s) (entries s)) sources.old)) }
{
    let items = measure_items(alloc, decl)?;
    tell_each(sources, decl)?;
    Ok(items)
}

/// Declares a measure of a type, tells each source of it and shows it.
#[tactic(auto, using(crate::proofs::Measuring::measure_accepted, crate::proofs::Measuring::measure_proved, crate::proofs::Telling::leaves_same))]
pub(crate) fn measure(
    alloc: Global,
    at: u32,
    kind: DeclKind,
    ty: &RawType,
    term: &Raw,
    theory: &Theory,
    sources: &mut [Box<dyn MeasureSource + Send + Sync>],
) -> Result<Items<Item>, CommandFault>
    ensures accepted { IfOk result (λ items. AcceptsMeasure kind (session theory.now (map (λ s. source (habits s) (entries s)) sources.old)) ty.now term.now items (session theory.now (map (λ s. source (habits s) (entries s)) sources.new))) }
    ensures proved { IfOk result (AreProved theory.now) }
    ensures shown { IfOk result AreShown }
    ensures refused { IfErr result (Leaves (map (λ s. source (habits s) (entries s)) sources.old) (map (λ s. source (habits s) (entries s)) sources.new) (RefusesMeasure theory.now at ty.now term.now)) }
{
    match declaration(alloc, at, kind, ty, term, theory) {
        Ok(decl) => Ok(declared(alloc, &decl, sources)?),
        Err(fault) => Err(fault),
    }
}
