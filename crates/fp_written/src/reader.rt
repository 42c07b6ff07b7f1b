//! Reads a term or type word by word, with what is still to be read on a stack.
ghost use Rattle.std.specs.Prelude.{◌≡◌, ◌+◌, ◌∷◌, ◌++◌, [], ◌<◌, ◌≤◌, ◌^◌, reverse, length, map, IfOk, OnOk, Some, None};
ghost use Rattle.std.specs.Option.{option_map, option_and_then};
ghost use Rattle.fp_written.specs.Machine.{step, state, moved, takes, refused, on, ended, run, start, may_end, whole, owed, least, top_depth, top_ty_depth, keeps, judged, number_in};
ghost use Rattle.fp_written.specs.Written.{Tree, Reads, Keeps};
ghost use Rattle.fp_written.specs.Views.{FaultIs, IsReadAs, Ran, tree_seen, terms_of, types_so, symbol_of, stack_of, state_of, verdict_of, Counted};

use crate::build::{Part, Parts, make};
use crate::kinds::{Found, Kind, Limits, ReadFault};
use crate::moves::{Move, on_word, plus};
use crate::symbol::Symbol;
use crate::types::{TypePart, whole_type};
use fp_words::{Placed, Word};
use std::alloc::{AllocError, Global};

// What is still to be read, the fewest words that it needs, and what was made.
#[derive(Drop)]
pub(crate) struct Reader<'a> {
    todo: Vec<Symbol<'a>>,
    owed: u32,
    parts: Parts,
}

/// What becomes of a word.
#[derive(Drop)]
pub(crate) enum Stepped<'a> {
    On(Reader<'a>),
    Refused,
    TooDeep,
    TooLarge,
    NumberTooLarge,
}

// The stack with these on top, the first topmost.
fn expect<'a>(
    todo: Vec<Symbol<'a>>,
    symbols: Vec<Symbol<'a>>,
) -> Result<Vec<Symbol<'a>>, AllocError>
    ensures { IfOk result (λ all. stack_of all.items ≡ map symbol_of symbols.entry.items ++ stack_of todo.entry.items) }
{
    let mut todo = todo;
    let mut symbols = symbols;
    while let Some(symbol) = symbols.pop() {
        todo.push(symbol)?;
    }
    Ok(todo)
}

fn is_within(limit: Option<u32>, count: u32) -> bool
    ensures { result ≡ keeps limit count }
{
    match limit {
        None => true,
        Some(most) => count <= most,
    }
}

// The fewest words that the symbol still reads.
fn fewest(symbol: Symbol<'_>) -> u32
    ensures { result ≡ least (symbol_of symbol.entry) }
{
    match symbol {
        Symbol::Term(..) | Symbol::AfterTerm(_) | Symbol::AfterPart(_) => 1,
        Symbol::Vars(..) => 3,
        Symbol::MoreVars(..) => 2,
        Symbol::VarName(..) => 6,
        Symbol::Ty(..) | Symbol::AfterTy(_) => 1,
        Symbol::AfterArg(_) => 2,
        Symbol::ConName | Symbol::WantColons => 1,
        Symbol::WantThen | Symbol::WantElse | Symbol::WantClose => 1,
        _ => 0,
    }
}

// So many words, and the fewest that the symbols need.
#[tactic(auto, using(crate::proofs::Owed::owed_append))]
fn count_with(words: u32, symbols: &[Symbol<'_>]) -> Result<u32, AllocError>
    ensures { IfOk result (λ n. n ≡ words + owed (map symbol_of symbols.now)) }
{
    let mut count = words;
    for symbol in symbols {
        count = plus(count, fewest(*symbol))?;
    }
    Ok(count)
}

fn last_depth(terms: &[Part]) -> u32
    ensures { result ≡ top_depth (terms_of terms.now) }
{
    match terms.last() {
        Some(part) => part.depth,
        None => 0,
    }
}

fn last_type_depth(types: &[TypePart]) -> u32
    ensures { result ≡ top_ty_depth (types_so types.now) }
{
    match types.last() {
        Some(part) => part.depth,
        None => 0,
    }
}

fn number_of(token: &Placed) -> u32
    ensures { result ≡ number_in token.now.word }
{
    match &token.word {
        Word::Number(number) => *number,
        _ => 0,
    }
}

// What becomes of a word that leaves this to be read.
fn judge<'a>(
    limits: Limits,
    words: u32,
    reader: Reader<'a>,
    token: &Placed,
) -> Result<Stepped<'a>, AllocError>
    requires { reader.owed ≡ owed (stack_of reader.todo.items) }
    ensures verdict { IfOk result (λ next. verdict_of next ≡ judged limits words token.now (on (state_of reader.entry))) }
    ensures counted { IfOk result (λ next. Counted next) }
{
    let count = plus(plus(words, 1)?, reader.owed)?;
    if !is_within(limits.size, count) {
        return Ok(Stepped::TooLarge);
    }
    if !is_within(limits.number, number_of(token)) {
        return Ok(Stepped::NumberTooLarge);
    }
    Ok(Stepped::On(reader))
}

// The reader with these symbols on its stack, the first topmost.
#[tactic(auto, using(crate::proofs::Owed::owed_append))]
fn expecting<'a>(reader: Reader<'a>, symbols: Vec<Symbol<'a>>) -> Result<Reader<'a>, AllocError>
    requires { reader.owed ≡ owed (stack_of reader.todo.items) }
    ensures stands { IfOk result (λ r. state_of r ≡ state (map symbol_of symbols.entry.items ++ stack_of reader.entry.todo.items) (terms_of reader.entry.parts.terms.items) (types_so reader.entry.parts.types.items)) }
    ensures counted { IfOk result (λ r. r.owed ≡ owed (stack_of r.todo.items)) }
{
    let Reader { todo, owed, parts } = reader;
    let owed = count_with(owed, &symbols)?;
    let todo = expect(todo, symbols)?;
    Ok(Reader { todo, owed, parts })
}

// A word that is taken, at that depth, within the limits.
fn taken<'a>(
    limits: Limits,
    words: u32,
    depth: u32,
    symbols: Vec<Symbol<'a>>,
    reader: Reader<'a>,
    token: &Placed,
) -> Result<Stepped<'a>, AllocError>
    requires { reader.owed ≡ owed (stack_of reader.todo.items) }
    ensures verdict { IfOk result (λ next. verdict_of next ≡ judged limits words token.now (moved limits.depth (takes depth (map symbol_of symbols.entry.items)) refused (stack_of reader.entry.todo.items) (terms_of reader.entry.parts.terms.items) (types_so reader.entry.parts.types.items))) }
    ensures counted { IfOk result (λ next. Counted next) }
{
    if !is_within(limits.depth, depth) {
        return Ok(Stepped::TooDeep);
    }
    let reader = expecting(reader, symbols)?;
    judge(limits, words, reader, token)
}

// What becomes of one more word.
fn after_word<'a>(
    alloc: Global,
    limits: Limits,
    words: u32,
    reader: Reader<'a>,
    token: &'a Placed,
) -> Result<Stepped<'a>, AllocError>
    requires { reader.owed ≡ owed (stack_of reader.todo.items) }
    ensures verdict { IfOk result (λ next. verdict_of next ≡ judged limits words token.now (step limits.depth token.now (stack_of reader.entry.todo.items) (terms_of reader.entry.parts.terms.items) (types_so reader.entry.parts.types.items))) }
    ensures counted { IfOk result (λ next. Counted next) }
{
    let Reader {
        mut todo,
        mut owed,
        mut parts,
    } = reader;
    while let Some(symbol) = todo.pop() {
        owed -= fewest(symbol);
        let depth = last_depth(&parts.terms);
        let type_depth = last_type_depth(&parts.types);
        match on_word(alloc, symbol, depth, type_depth, token)? {
            Some(Move::Takes(depth, symbols)) => {
                return taken(
                    limits,
                    words,
                    depth,
                    symbols,
                    Reader { todo, owed, parts },
                    token,
                );
            }
            Some(Move::Stops) => return Ok(Stepped::Refused),
            Some(Move::Passes) => {}
            None => match make(alloc, symbol, parts)? {
                Some(made) => parts = made,
                None => return Ok(Stepped::Refused),
            },
        }
    }
    Ok(Stepped::Refused)
}

// Whether the words may end before the symbol.
fn is_optional(symbol: Symbol<'_>) -> bool
    ensures { result ≡ may_end (symbol_of symbol.entry) }
{
    matches!(
        symbol,
        Symbol::MoreTerm(..) | Symbol::MoreTy(..) | Symbol::AfterWhole
    )
}

// The term or type, where the words may end.
fn finish(alloc: Global, reader: Reader<'_>) -> Result<Option<Found>, AllocError>
    ensures { IfOk result (λ t. option_map tree_seen t ≡ ended (state_of reader.entry)) }
{
    let Reader {
        mut todo,
        mut parts,
        ..
    } = reader;
    while let Some(symbol) = todo.pop() {
        if is_optional(symbol) {
            continue;
        }
        match make(alloc, symbol, parts)? {
            Some(made) => parts = made,
            None => return Ok(None),
        }
    }
    sole(alloc, parts)
}

fn sole_term(terms: Vec<Part>) -> Option<Found>
    ensures { option_map tree_seen result ≡ whole (terms_of terms.items) [] }
{
    let mut terms = terms;
    let first = terms.pop();
    match (first, terms.pop()) {
        (Some(term), None) => Some(Found::Term(term.raw)),
        _ => None,
    }
}

fn sole_type(alloc: Global, types: Vec<TypePart>) -> Result<Option<Found>, AllocError>
    ensures { IfOk result (λ t. option_map tree_seen t ≡ whole [] (types_so types.items)) }
{
    let mut types = types;
    let first = types.pop();
    match (first, types.pop()) {
        (Some(part), None) => Ok(Some(Found::Ty(whole_type(alloc, part)?))),
        _ => Ok(None),
    }
}

// The term or type, where it is the only part.
fn sole(alloc: Global, parts: Parts) -> Result<Option<Found>, AllocError>
    ensures { IfOk result (λ t. option_map tree_seen t ≡ whole (terms_of parts.terms.items) (types_so parts.types.items)) }
{
    let Parts { terms, types } = parts;
    if types.is_empty() {
        Ok(sole_term(terms))
    } else if terms.is_empty() {
        sole_type(alloc, types)
    } else {
        Ok(None)
    }
}

fn begin<'a>(alloc: Global, kind: Kind) -> Result<Reader<'a>, AllocError>
    ensures starts { IfOk result (λ r. state_of r ≡ start kind) }
    ensures counted { IfOk result (λ r. r.owed ≡ owed (stack_of r.todo.items)) }
{
    let parts = Parts {
        terms: Vec::new(alloc),
        types: Vec::new(alloc),
    };
    let todo = match kind {
        Kind::Term => vec![in alloc; Symbol::AfterWhole, Symbol::Term(0, 0)]?,
        Kind::Ty => vec![in alloc; Symbol::Ty(1, 0)]?,
    };
    let owed = 1;
    Ok(Reader { todo, owed, parts })
}

fn read(alloc: Global, limits: Limits, kind: Kind, tokens: &[Placed]) -> Result<Found, ReadFault>
    requires few { length tokens.now < 2 ^ 32 }
    requires long { Keeps limits.size 1 }
    ensures { Ran limits kind tokens.now result }
{
    let mut reader = begin(alloc, kind)?;
    for (at, token) in tokens.iter().enumerate() {
        match after_word(alloc, limits, at as u32, reader, token)? {
            Stepped::On(next) => reader = next,
            Stepped::Refused => return Err(ReadFault::Refused(at)),
            Stepped::TooDeep => return Err(ReadFault::TooDeep(at)),
            Stepped::TooLarge => return Err(ReadFault::TooLarge(at)),
            Stepped::NumberTooLarge => return Err(ReadFault::NumberTooLarge(at)),
        }
    }
    match finish(alloc, reader)? {
        Some(found) => Ok(found),
        None => Err(ReadFault::Refused(tokens.len())),
    }
}

/// The term or type that the words are.
pub fn read_words(
    alloc: Global,
    limits: Limits,
    kind: Kind,
    tokens: &[Placed],
) -> Result<Found, ReadFault>
    requires few { length tokens.now < 2 ^ 32 }

    // The limits leave room for a name.
    requires deep { Keeps limits.depth 1 }
    requires long { Keeps limits.size 1 }

    // What is read is a term or type of the grammar within the limits, of all the words.
    ensures found { IfOk result (λ x. Reads limits kind tokens.now (tree_seen x)) }

    // Each such is read as its tree, unless memory runs out.
    ensures only { (tree : Tree) → Reads limits kind tokens.now tree → IsReadAs tree result }

    // Each fault is at its first place.
    ensures fault { FaultIs limits kind tokens.now result }
{
    read(alloc, limits, kind, tokens)
}
