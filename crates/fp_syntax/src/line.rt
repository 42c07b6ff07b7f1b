//! Proof lines.
ghost use Rattle.std.specs.Prelude.{◌≡◌, ◌≤◌, ◌<◌, length, false, OnOk, IfOk, IfSome};
ghost use Rattle.fp_written.specs.Written.{Keeps};
ghost use Rattle.fp_commands.specs.Grammar.{Many, IsWordArg, ArgAt, LineAt, file_limits};
ghost use Rattle.fp_commands.specs.declared.command.Arg.TheVariants.{Number};

use crate::cursor::{
    Cursor, Sign, SyntaxFault, is_at, is_at_name, place_of, refused, take_name, take_sign,
};
use crate::written::{take_bracketed_type, take_term};
use fp_commands::{Arg, Line};
use fp_term::Items;
use fp_words::{Placed, Word};
use std::alloc::Global;

// The greatest number of lines, and the greatest number of one.
const MOST_LINES: u32 = 4000;

fn line_number(number: u32, at: u32) -> Result<Arg, SyntaxFault>
    ensures { IfOk result (λ x. (x ≡ Number number) × Keeps file_limits.number number) }
{
    if number > MOST_LINES {
        Err(SyntaxFault::TooLarge(at))
    } else {
        Ok(Arg::Number(number))
    }
}

// The argument that is one word and stands there, if it is one.
fn word_argument(placed: &Placed) -> Result<Option<Arg>, SyntaxFault>
    ensures { IfOk result (λ o. IfSome o (λ x. IsWordArg file_limits placed.now.word x)) }
{
    match &placed.word {
        Word::Number(number) => Ok(Some(line_number(*number, placed.at)?)),
        Word::Name(name) => Ok(Some(Arg::Name(name.copy()?))),
        Word::TyVar(name) => Ok(Some(Arg::TyVar(name.copy()?))),
        _ => Ok(None),
    }
}

#[tactic(auto, using(fp_commands::proofs::Steps::word_front))]
fn take_argument(alloc: Global, cursor: &mut Cursor<'_>) -> Result<Arg, SyntaxFault>
    ensures reads { IfOk result (λ x. ArgAt file_limits cursor.old.rest.now x cursor.new.rest.now) }
    ensures shorter { OnOk result (length cursor.new.rest.now < length cursor.old.rest.now) }
{
    if let Some((placed, rest)) = cursor.rest.split_first() {
        if let Some(argument) = word_argument(placed)? {
            cursor.rest = rest;
            return Ok(argument);
        }
    }
    if is_at(cursor, Sign::OpenBracket) {
        Ok(Arg::Ty(take_bracketed_type(alloc, cursor)?))
    } else {
        Ok(Arg::Term(take_term(alloc, cursor)?))
    }
}

fn take_line(alloc: Global, cursor: &mut Cursor<'_>) -> Result<Line, SyntaxFault>
    ensures reads { IfOk result (λ x. LineAt file_limits cursor.old.rest.now x cursor.new.rest.now) }
    ensures shorter { OnOk result (length cursor.new.rest.now < length cursor.old.rest.now) }
{
    let name = take_name(cursor)?;
    let mut args = Items::new(alloc);
    while !is_at(cursor, Sign::Semicolon) {
        args.push(take_argument(alloc, cursor)?)?;
    }
    take_sign(cursor, Sign::Semicolon)?;
    Ok(Line { name, args })
}

// Whether there are as many lines as there may be.
fn is_full(lines: &Items<Line>) -> bool
    ensures { result ≡ false → length lines.now < 4000 }
{
    lines.as_slice().len() >= MOST_LINES as usize
}

// One line more than there may be.
fn past_lines(cursor: &Cursor<'_>) -> SyntaxFault {
    if is_at_name(cursor) {
        SyntaxFault::TooLarge(place_of(cursor.rest, 0, cursor.end))
    } else {
        refused(cursor)
    }
}

/// The lines up to the word that ends a proof.
pub(crate) fn take_lines(alloc: Global, cursor: &mut Cursor<'_>) -> Result<Items<Line>, SyntaxFault>
    ensures reads { IfOk result (λ xs. Many (LineAt file_limits) cursor.old.rest.now xs cursor.new.rest.now) }
    ensures few { IfOk result (λ xs. Keeps file_limits.lines (length xs)) }
    ensures no_longer { OnOk result (length cursor.new.rest.now ≤ length cursor.old.rest.now) }
{
    let mut lines = Items::new(alloc);
    while !is_at(cursor, Sign::End) {
        if is_full(&lines) {
            return Err(past_lines(cursor));
        }
        lines.push(take_line(alloc, cursor)?)?;
    }
    Ok(lines)
}
