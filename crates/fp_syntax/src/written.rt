//! Written terms and types in a file: terms in quotes or in braces, types in quotes or in brackets.
ghost use Rattle.std.specs.Prelude.{◌≡◌, ◌≤◌, ◌<◌, ◌^◌, length, OnOk, IfOk, IfSome};
ghost use Rattle.fp_words.specs.declared.word.Word.TheVariants.{OpenBracket, CloseBracket, Quote, Braces as braces_word};
ghost use Rattle.fp_words.specs.declared.word.Braces.TheVariants.{Full};
ghost use Rattle.fp_written.specs.Written.{Keeps};
ghost use Rattle.fp_written.specs.Views.{tree_seen};
ghost use Rattle.fp_written.specs.declared.kinds.Kind.TheVariants.{Ty as of_type};
ghost use Rattle.fp_written.specs.Written.{a_type};
ghost use Rattle.fp_commands.specs.Grammar.{WrittenBefore, TermAt, TypeAt, file_limits};
ghost use Rattle.fp_syntax.specs.Signs.{sign_word};

use crate::cursor::{Cursor, Sign, SyntaxFault, place_of, position, refused, take_sign};
use fp_raw::{Raw, RawType};
use fp_words::{Braces, Placed, Word};
use fp_written::{Found, Kind, Limits, ReadFault, read_words};
use std::alloc::Global;

const TERMS: Limits = Limits {
    depth: Some(200),
    size: Some(10000),
    number: Some(255),
};

const TYPES: Limits = Limits {
    depth: Some(200),
    size: None,
    number: None,
};

// The fault of a written term or type whose words begin where the cursor stands.
fn fault_at(cursor: &Cursor<'_>, fault: ReadFault) -> SyntaxFault {
    match fault {
        ReadFault::Refused(ahead) => SyntaxFault::Refused(place_of(cursor.rest, ahead, cursor.end)),
        ReadFault::TooDeep(ahead) => SyntaxFault::TooDeep(place_of(cursor.rest, ahead, cursor.end)),
        ReadFault::TooLarge(ahead) => SyntaxFault::TooLarge(place_of(
            cursor.rest,
            ahead,
            cursor.end,
        )),
        ReadFault::NumberTooLarge(ahead) => SyntaxFault::NumberTooLarge(place_of(
            cursor.rest,
            ahead,
            cursor.end,
        )),
        ReadFault::NoMemory => SyntaxFault::NoMemory,
    }
}

// What is written before the next sign.
fn read_before(
    alloc: Global,
    cursor: &mut Cursor<'_>,
    limits: Limits,
    kind: Kind,
    closes: Sign,
) -> Result<Found, SyntaxFault>
    requires deep { Keeps limits.depth 1 }
    requires long { Keeps limits.size 1 }
    ensures reads { IfOk result (λ x. WrittenBefore (sign_word closes) limits kind cursor.old.rest.now (tree_seen x) cursor.new.rest.now) }
    ensures shorter { OnOk result (length cursor.new.rest.now < length cursor.old.rest.now) }
{
    let words = cursor.rest;
    let count = position(words, closes);
    if count >= 4294967296 {
        return Err(SyntaxFault::NoMemory);
    }
    let found = match read_words(alloc, limits, kind, &words[..count]) {
        Ok(found) => found,
        Err(fault) => return Err(fault_at(cursor, fault)),
    };
    cursor.rest = &words[count..];
    take_sign(cursor, closes)?;
    Ok(found)
}

fn quoted_term(alloc: Global, cursor: &mut Cursor<'_>) -> Result<Raw, SyntaxFault>
    ensures reads { IfOk result (λ x. TermAt file_limits cursor.old.rest.now x cursor.new.rest.now) }
    ensures shorter { OnOk result (length cursor.new.rest.now < length cursor.old.rest.now) }
{
    take_sign(cursor, Sign::Quote)?;
    match read_before(alloc, cursor, TERMS, Kind::Term, Sign::Quote)? {
        Found::Term(term) => Ok(term),
        Found::Ty(_) => Err(refused(cursor)),
    }
}

fn type_before(alloc: Global, cursor: &mut Cursor<'_>, closes: Sign) -> Result<RawType, SyntaxFault>
    ensures reads { IfOk result (λ x. WrittenBefore (sign_word closes) file_limits.types of_type cursor.old.rest.now (a_type x) cursor.new.rest.now) }
    ensures shorter { OnOk result (length cursor.new.rest.now < length cursor.old.rest.now) }
{
    match read_before(alloc, cursor, TYPES, Kind::Ty, closes)? {
        Found::Ty(ty) => Ok(ty),
        Found::Term(_) => Err(refused(cursor)),
    }
}

// The term in the braces that begin at the place, or its fault.
fn braced_term(braces: &Braces, at: u32) -> Result<Raw, SyntaxFault>
    ensures { IfOk result (λ t. braces.now ≡ Full t) }
{
    match braces {
        Braces::Full(term) => Ok(term.copy()?),
        Braces::Malformed => Err(SyntaxFault::Refused(at)),
        Braces::TooDeep(at) => Err(SyntaxFault::TooDeep(*at)),
        Braces::NameTooLong(at) => Err(SyntaxFault::NameTooLong(*at)),
    }
}

fn as_braces(word: &Word) -> Option<&Braces>
    ensures { IfSome result (λ braces. word.now ≡ braces_word braces.now) }
{
    match word {
        Word::Braces(braces) => Some(braces),
        _ => None,
    }
}

/// The term that stands there, in quotes or in braces.
#[tactic(auto, using(fp_commands::proofs::Steps::braces_front))]
pub(crate) fn take_term(alloc: Global, cursor: &mut Cursor<'_>) -> Result<Raw, SyntaxFault>
    ensures reads { IfOk result (λ x. TermAt file_limits cursor.old.rest.now x cursor.new.rest.now) }
    ensures shorter { OnOk result (length cursor.new.rest.now < length cursor.old.rest.now) }
{
    if let Some((placed, rest)) = cursor.rest.split_first() {
        if let Some(braces) = as_braces(&placed.word) {
            let term = braced_term(braces, placed.at)?;
            cursor.rest = rest;
            return Ok(term);
        }
    }
    quoted_term(alloc, cursor)
}

/// The type in quotes that stands there.
pub(crate) fn take_quoted_type(
    alloc: Global,
    cursor: &mut Cursor<'_>,
) -> Result<RawType, SyntaxFault>
    ensures reads { IfOk result (λ x. TypeAt Quote Quote file_limits cursor.old.rest.now x cursor.new.rest.now) }
    ensures shorter { OnOk result (length cursor.new.rest.now < length cursor.old.rest.now) }
{
    take_sign(cursor, Sign::Quote)?;
    type_before(alloc, cursor, Sign::Quote)
}

/// The type in brackets that stands there.
pub(crate) fn take_bracketed_type(
    alloc: Global,
    cursor: &mut Cursor<'_>,
) -> Result<RawType, SyntaxFault>
    ensures reads { IfOk result (λ x. TypeAt OpenBracket CloseBracket file_limits cursor.old.rest.now x cursor.new.rest.now) }
    ensures shorter { OnOk result (length cursor.new.rest.now < length cursor.old.rest.now) }
{
    take_sign(cursor, Sign::OpenBracket)?;
    type_before(alloc, cursor, Sign::CloseBracket)
}
