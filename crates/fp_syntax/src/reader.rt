//! The commands of a file.
ghost use Rattle.std.specs.Prelude.{◌≡◌, ◌≤◌, ◌<◌, length, List, ℕ, OnOk, IfOk, IfSome, false};
ghost use Rattle.fp_commands.specs.declared.command.Command.{Command as CommandRead};
ghost use Rattle.fp_words.specs.declared.word.Keyword.TheVariants.{Definition, Typedef, Lemma, Constructors, Size, Measure, Fun, Function, And};
ghost use Rattle.fp_words.specs.declared.word.Word.TheVariants.{Comma, Bar, Reserved};
ghost use Rattle.fp_commands.specs.Grammar.{Parted, NameAt, HeadAt, TermAt, BodyAt, CommandAt, IsFile, file_limits};
ghost use Rattle.fp_syntax.specs.Files.{Reads};
ghost use Rattle.fp_commands.specs.Names.{HaveShortNames};
ghost use Rattle.fp_lex.specs.Lexes.{Lexes, all};

use crate::classify::words;
use crate::cursor::{Cursor, Sign, SyntaxFault, is_at, refused, take_name, take_sign};
use crate::line::take_lines;
use crate::written::{take_bracketed_type, take_quoted_type, take_term};
use fp_commands::{Body, Command, Head};
use fp_lex::Token;
use fp_raw::Raw;
use fp_term::{Items, Name};
use fp_words::{Keyword, Placed, Word};
use std::alloc::Global;

fn definition(alloc: Global, cursor: &mut Cursor<'_>) -> Result<Body, SyntaxFault>
    ensures reads { IfOk result (λ x. BodyAt file_limits Definition cursor.old.rest.now x cursor.new.rest.now) }
    ensures shorter { OnOk result (length cursor.new.rest.now < length cursor.old.rest.now) }
{
    let name = take_name(cursor)?;
    take_sign(cursor, Sign::Equals)?;
    let term = take_term(alloc, cursor)?;
    Ok(Body::Definition { name, term })
}

fn typedef(cursor: &mut Cursor<'_>) -> Result<Body, SyntaxFault>
    ensures reads { IfOk result (λ x. BodyAt file_limits Typedef cursor.old.rest.now x cursor.new.rest.now) }
    ensures shorter { OnOk result (length cursor.new.rest.now < length cursor.old.rest.now) }
{
    let name = take_name(cursor)?;
    take_sign(cursor, Sign::Abs)?;
    let abs = take_name(cursor)?;
    take_sign(cursor, Sign::Rep)?;
    let rep = take_name(cursor)?;
    take_sign(cursor, Sign::By)?;
    let fact = take_name(cursor)?;
    Ok(Body::Typedef {
        name,
        abs,
        rep,
        fact,
    })
}

fn lemma(alloc: Global, cursor: &mut Cursor<'_>) -> Result<Body, SyntaxFault>
    ensures reads { IfOk result (λ x. BodyAt file_limits Lemma cursor.old.rest.now x cursor.new.rest.now) }
    ensures shorter { OnOk result (length cursor.new.rest.now < length cursor.old.rest.now) }
{
    let name = take_name(cursor)?;
    take_sign(cursor, Sign::Colon)?;
    let statement = take_term(alloc, cursor)?;
    take_sign(cursor, Sign::Proof)?;
    let lines = take_lines(alloc, cursor)?;
    take_sign(cursor, Sign::End)?;
    Ok(Body::Lemma {
        name,
        statement,
        lines,
    })
}

// One name or more, with commas between them.
fn take_names(alloc: Global, cursor: &mut Cursor<'_>) -> Result<Items<Name>, SyntaxFault>
    ensures reads { IfOk result (λ x. Parted Comma NameAt cursor.old.rest.now x cursor.new.rest.now) }
    ensures shorter { OnOk result (length cursor.new.rest.now < length cursor.old.rest.now) }
{
    let mut names = Items::new(alloc);
    names.push(take_name(cursor)?)?;
    while is_at(cursor, Sign::Comma) {
        take_sign(cursor, Sign::Comma)?;
        names.push(take_name(cursor)?)?;
    }
    Ok(names)
}

fn constructors(alloc: Global, cursor: &mut Cursor<'_>) -> Result<Body, SyntaxFault>
    ensures reads { IfOk result (λ x. BodyAt file_limits Constructors cursor.old.rest.now x cursor.new.rest.now) }
    ensures shorter { OnOk result (length cursor.new.rest.now < length cursor.old.rest.now) }
{
    let ty = take_name(cursor)?;
    take_sign(cursor, Sign::Equals)?;
    let cons = take_names(alloc, cursor)?;
    Ok(Body::Constructors { ty, cons })
}

fn size(alloc: Global, cursor: &mut Cursor<'_>) -> Result<Body, SyntaxFault>
    ensures reads { IfOk result (λ x. BodyAt file_limits Size cursor.old.rest.now x cursor.new.rest.now) }
    ensures shorter { OnOk result (length cursor.new.rest.now < length cursor.old.rest.now) }
{
    let ty = take_bracketed_type(alloc, cursor)?;
    let term = take_term(alloc, cursor)?;
    Ok(Body::Size { ty, term })
}

fn measure(alloc: Global, cursor: &mut Cursor<'_>) -> Result<Body, SyntaxFault>
    ensures reads { IfOk result (λ x. BodyAt file_limits Measure cursor.old.rest.now x cursor.new.rest.now) }
    ensures shorter { OnOk result (length cursor.new.rest.now < length cursor.old.rest.now) }
{
    let ty = take_bracketed_type(alloc, cursor)?;
    let term = take_term(alloc, cursor)?;
    Ok(Body::Measure { ty, term })
}

fn take_head(alloc: Global, cursor: &mut Cursor<'_>) -> Result<Head, SyntaxFault>
    ensures reads { IfOk result (λ x. HeadAt file_limits cursor.old.rest.now x cursor.new.rest.now) }
    ensures shorter { OnOk result (length cursor.new.rest.now < length cursor.old.rest.now) }
{
    let name = take_name(cursor)?;
    take_sign(cursor, Sign::Colons)?;
    let ty = take_quoted_type(alloc, cursor)?;
    Ok(Head { name, ty })
}

fn take_heads(alloc: Global, cursor: &mut Cursor<'_>) -> Result<Items<Head>, SyntaxFault>
    ensures reads { IfOk result (λ x. Parted (Reserved And) (HeadAt file_limits) cursor.old.rest.now x cursor.new.rest.now) }
    ensures shorter { OnOk result (length cursor.new.rest.now < length cursor.old.rest.now) }
{
    let mut heads = Items::new(alloc);
    heads.push(take_head(alloc, cursor)?)?;
    while is_at(cursor, Sign::And) {
        take_sign(cursor, Sign::And)?;
        heads.push(take_head(alloc, cursor)?)?;
    }
    Ok(heads)
}

fn take_clauses(alloc: Global, cursor: &mut Cursor<'_>) -> Result<Items<Raw>, SyntaxFault>
    ensures reads { IfOk result (λ x. Parted Bar (TermAt file_limits) cursor.old.rest.now x cursor.new.rest.now) }
    ensures shorter { OnOk result (length cursor.new.rest.now < length cursor.old.rest.now) }
{
    let mut clauses = Items::new(alloc);
    clauses.push(take_term(alloc, cursor)?)?;
    while is_at(cursor, Sign::Bar) {
        take_sign(cursor, Sign::Bar)?;
        clauses.push(take_term(alloc, cursor)?)?;
    }
    Ok(clauses)
}

fn fun(alloc: Global, cursor: &mut Cursor<'_>) -> Result<Body, SyntaxFault>
    ensures reads { IfOk result (λ x. BodyAt file_limits Fun cursor.old.rest.now x cursor.new.rest.now) }
    ensures shorter { OnOk result (length cursor.new.rest.now < length cursor.old.rest.now) }
{
    let heads = take_heads(alloc, cursor)?;
    take_sign(cursor, Sign::Where)?;
    let clauses = take_clauses(alloc, cursor)?;
    Ok(Body::Fun { heads, clauses })
}

fn function(alloc: Global, cursor: &mut Cursor<'_>) -> Result<Body, SyntaxFault>
    ensures reads { IfOk result (λ x. BodyAt file_limits Function cursor.old.rest.now x cursor.new.rest.now) }
    ensures shorter { OnOk result (length cursor.new.rest.now < length cursor.old.rest.now) }
{
    let heads = take_heads(alloc, cursor)?;
    take_sign(cursor, Sign::Where)?;
    let clauses = take_clauses(alloc, cursor)?;
    Ok(Body::Function { heads, clauses })
}

// Behind a command's word, which is none of those that stand inside commands.
fn take_body(alloc: Global, keyword: Keyword, cursor: &mut Cursor<'_>) -> Result<Body, SyntaxFault>
    ensures reads { IfOk result (λ x. BodyAt file_limits keyword cursor.old.rest.now x cursor.new.rest.now) }
    ensures shorter { OnOk result (length cursor.new.rest.now < length cursor.old.rest.now) }
{
    match keyword {
        Keyword::Definition => definition(alloc, cursor),
        Keyword::Typedef => typedef(cursor),
        Keyword::Lemma => lemma(alloc, cursor),
        Keyword::Simp => Ok(Body::Simp(take_name(cursor)?)),
        Keyword::Cong => Ok(Body::Cong(take_name(cursor)?)),
        Keyword::Constructors => constructors(alloc, cursor),
        Keyword::Size => size(alloc, cursor),
        Keyword::Measure => measure(alloc, cursor),
        Keyword::Fun => fun(alloc, cursor),
        Keyword::Function => function(alloc, cursor),
        Keyword::And
        | Keyword::Where
        | Keyword::Proof
        | Keyword::End
        | Keyword::Abs
        | Keyword::Rep
        | Keyword::By => Err(refused(cursor)),
    }
}

// The word of a command.
fn as_command(word: &Word) -> Option<Keyword>
    ensures { IfSome result (λ keyword. word.now ≡ Reserved keyword) }
{
    match word {
        Word::Reserved(
            Keyword::And
            | Keyword::Where
            | Keyword::Proof
            | Keyword::End
            | Keyword::Abs
            | Keyword::Rep
            | Keyword::By,
        ) => None,
        Word::Reserved(keyword) => Some(*keyword),
        _ => None,
    }
}

#[tactic(auto, using(fp_commands::proofs::Steps::command_front))]
fn take_command(alloc: Global, cursor: &mut Cursor<'_>) -> Result<Command, SyntaxFault>
    ensures reads { IfOk result (λ x. CommandAt file_limits cursor.old.rest.now x cursor.new.rest.now) }
    ensures shorter { OnOk result (length cursor.new.rest.now < length cursor.old.rest.now) }
{
    if let Some((placed, rest)) = cursor.rest.split_first() {
        if let Some(keyword) = as_command(&placed.word) {
            let at = placed.at;
            cursor.rest = rest;
            let body = take_body(alloc, keyword, cursor)?;
            return Ok(Command { at, body });
        }
    }
    Err(refused(cursor))
}

fn read_commands(alloc: Global, words: &[Placed], end: u32) -> Result<Items<Command>, SyntaxFault>
    ensures { IfOk result (λ commands. IsFile file_limits words.now commands) }
{
    let mut cursor = Cursor { rest: words, end };
    let mut commands = Items::new(alloc);
    while !cursor.rest.is_empty() {
        commands.push(take_command(alloc, &mut cursor)?)?;
    }
    Ok(commands)
}

/// The commands of a file, from its bytes and the tokens that they are.
pub fn read_file(
    alloc: Global,
    bytes: &[u8],
    tokens: &[Token],
) -> Result<Items<Command>, SyntaxFault>
    requires lexed { Lexes false 0 bytes.now (all tokens.now) }

    // The bytes are these commands, within the limits.
    ensures reads { IfOk result (λ commands. Reads bytes.now commands) }

    // The names that they say themselves have at most 64 bytes.
    ensures short { IfOk result (λ commands. HaveShortNames commands) }
{
    if bytes.len() >= 4294967296 {
        return Err(SyntaxFault::NoMemory);
    }
    let words = words(alloc, bytes, tokens)?;
    read_commands(alloc, &words, bytes.len() as u32)
}

/// The bytes of a file are one list of commands at most.
pub fn file_is_one_list()
    ensures { (bytes : List ℕ) (xs ys : List CommandRead) → Reads bytes xs → Reads bytes ys → xs ≡ ys }
{}
