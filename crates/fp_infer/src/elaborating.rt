//! Elaboration, in steps: the types of a term, their sizes, and the term with names for the type variables.

ghost use Rattle.std.specs.Prelude.{◌≡◌, ℕ, ◌<◌, ◌+◌, [], length, slice_index_or, None, IfOk, MatchOption};
ghost use Rattle.std.specs.Option.{option_copied};
ghost use Rattle.fp_constrain.specs.Binding.{declared_in};
ghost use Rattle.fp_unify.specs.Cells.{AreFine};
ghost use Rattle.fp_infer.specs.Built.{place_of};
ghost use Rattle.fp_infer.specs.Elaborated.{FirstBeyond, Answers};
ghost use Rattle.fp_infer.specs.Held.{AreTypes, FindsTypes, AreSmall, IsTooLargeAt, Elaborates, IsRight, IsSoundFor};
ghost use Rattle.fp_infer.specs.Elaborated.{IsSound, ChecksNames, with_exact, IsTermOf};

use crate::building::{Binders, build};
use crate::fault::InferFault;
use crate::names::{Search, first_wrong};
use crate::written::written_names;
use fp_constrain::{Constants, Equations, Question, equations_of, first_unsolvable};
use fp_raw::{Raw, RawNode};
use fp_term::{Name, Signature, Term, Ty};
use fp_unify::{Namer, Shape, nodes_within, solve};
use std::alloc::{AllocError, Global};

/// The most general types of a term's subterms.
#[derive(Drop)]
pub struct Types {
    pub equations: Equations,
    pub cells: Vec<Shape>,
}

/// What comes of a term whose names are right.
#[derive(Drop)]
pub enum Typed {
    Found(Types),
    /// The place of the first subterm in post-order whose constraint can't hold together with those before it.
    ClashAt(u32),
}

// The place of the subterm of that number in post-order.
fn place_of(raw: &Raw, number: usize) -> u32
    ensures { result ≡ place_of number raw.now }
{
    match raw.node() {
        RawNode::App { fun, arg } => {
            let before = fun.size() as usize;
            if number < before {
                return place_of(fun, number);
            }
            if number < before + arg.size() as usize {
                return place_of(arg, number - before);
            }
            raw.place()
        }
        RawNode::Abs { body, .. } => if number < body.size() as usize {
            place_of(body, number)
        } else {
            raw.place()
        },
        RawNode::Typed { term, .. } => if number < term.size() as usize {
            place_of(term, number)
        } else {
            raw.place()
        },
        _ => raw.place(),
    }
}

/// The most general types of the term.
pub fn find_types(alloc: Global, question: &Question<'_>) -> Result<Typed, AllocError>
    ensures { IfOk result (λ typed. FindsTypes question.now typed) }
{
    let equations = equations_of(alloc, question)?;
    let steps = question.raw.size() + 1;
    match solve(alloc, equations.count, equations.facts.as_slice(), steps)? {
        Some(cells) => Ok(Typed::Found(Types { equations, cells })),
        None => {
            let number = first_unsolvable(
                alloc,
                equations.count,
                equations.facts.as_slice(),
                steps,
            )?;
            Ok(Typed::ClashAt(place_of(question.raw, number as usize)))
        }
    }
}

// The first subterm whose type has more nodes than the room, if there is one.
fn first_beyond(cells: &[Shape], seen: &[u32], room: u32) -> Option<usize>
    requires fine { AreFine cells.now }
    requires inside { (k : ℕ) → k < length seen.now → slice_index_or seen.now k 0 < length cells.now }
    ensures { FirstBeyond cells.now seen.now room result }
{
    for number in 0..seen.len() {
        if nodes_within(cells, seen[number], room).is_none() {
            return Some(number);
        }
    }
    None
}

/// The place of the first subterm whose type has more than 200 nodes, if there is one.
pub fn first_large(question: &Question<'_>, types: &Types) -> Option<u32>
    requires types { AreTypes question.now types.now }
    requires right { IsRight question.now }
    requires sound { IsSoundFor question.now }
    ensures { MatchOption result (AreSmall types.now) (λ at. IsTooLargeAt question.now at) }
{
    match first_beyond(types.cells.as_slice(), types.equations.seen.as_slice(), 200) {
        Some(number) => Some(place_of(question.raw, number)),
        None => None,
    }
}

// The place of the next candidate for a name, which has the bound of its type.
fn next_place(namer: &Namer) -> u32
    ensures { result ≡ namer.now.next }
{
    namer.next
}

/// The term, once its types are found and small.
pub fn term_of(alloc: Global, question: &Question<'_>, types: &Types) -> Result<Term, AllocError>
    requires types { AreTypes question.now types.now }
    requires small { AreSmall types.now }
    requires right { IsRight question.now }
    requires sound { IsSoundFor question.now }
    ensures { IfOk result (λ t. Elaborates question.now t) }
{
    let written = written_names(alloc, question)?;
    let mut namer = Namer {
        pairs: Vec::new(alloc),
        next: 0,
    };
    let term = build(
        alloc,
        question.constants,
        types.cells.as_slice(),
        types.equations.seen.as_slice(),
        written.as_slice(),
        &mut namer,
        &Binders::Outermost,
        0,
        question.raw,
    )?;
    let _next = next_place(&namer);
    Ok(term)
}

// The term of a question whose names are right.
#[tactic(auto, using(crate::proofs::ClashOver::clash_known))]
fn elaborate_right(alloc: Global, question: &Question<'_>) -> Result<Term, InferFault>
    requires right { IsRight question.now }
    requires sound { IsSoundFor question.now }
    ensures { Answers question.now.constants.now.signature.now question.now.constants.now.exact.now question.now.given.now (option_copied question.now.want) question.now.raw.now result }
{
    match find_types(alloc, question)? {
        Typed::Found(types) => {
            if let Some(at) = first_large(question, &types) {
                return Err(InferFault::TypeTooLarge(at));
            }
            let term = term_of(alloc, question, &types)?;
            Ok(term)
        }
        Typed::ClashAt(at) => Err(InferFault::Clash(at)),
    }
}

// The first fault of the term's names.
fn check_names(constants: &Constants<'_>, raw: &Raw) -> Result<(), InferFault>
    ensures { ChecksNames constants.now.signature.now (declared_in constants.now) raw.now result }
{
    if let Some(wrong) = first_wrong(Search::Unknown, constants, raw)? {
        return Err(InferFault::UnknownName(wrong.1, wrong.0));
    }
    if let Some(wrong) = first_wrong(Search::Arity, constants, raw)? {
        return Err(InferFault::BadArity(wrong.1, wrong.0));
    }
    Ok(())
}

#[tactic(auto, using(crate::proofs::Over::answered_term))]
/// The most general term that the written one stands for, where the constants of exact types have just these. Its type
/// is the wanted one, and the given variables have their types. Written type variables stand for themselves; the others
/// are named `'a`, .., `'z`, `'a1` and so on in order of first occurrence.
pub fn elaborate_with(
    alloc: Global,
    raw: &Raw,
    constants: &Constants<'_>,
    given: &[(Name, Ty)],
    want: Option<&Ty>,
) -> Result<Term, InferFault>
    requires { IsSound constants.now.signature.now constants.now.exact.now given.now }
    ensures answers { Answers constants.now.signature.now constants.now.exact.now given.now (option_copied want.entry) raw.now result }

    // The term is well typed over the signature, in which these constants have exactly these types.
    ensures well_typed { IfOk result (λ t. IsTermOf (with_exact constants.now.signature.now constants.now.exact.now) (option_copied want.entry) t) }
{
    check_names(constants, raw)?;
    let question = Question {
        constants,
        given,
        want,
        raw,
    };
    elaborate_right(alloc, &question)
}

#[tactic(auto, using(crate::proofs::Over::answered_alone))]
/// The most general term that the written one stands for.
pub fn elaborate(
    alloc: Global,
    raw: &Raw,
    signature: &Signature,
    given: &[(Name, Ty)],
    want: Option<&Ty>,
) -> Result<Term, InferFault>
    requires { IsSound signature.now [] given.now }
    ensures answers { Answers signature.now [] given.now (option_copied want.entry) raw.now result }

    // The term is well typed over the signature.
    ensures well_typed { IfOk result (λ t. IsTermOf signature.now (option_copied want.entry) t) }
{
    let constants = Constants {
        signature,
        exact: &[],
    };
    elaborate_with(alloc, raw, &constants, given, want)
}
