//! What is printed of a file: the tokens' end, and a line for each command and each proof line; or the fault.
ghost use Rattle.std.specs.Prelude.{false};
ghost use Rattle.fp_lex.specs.Lexes.{Lexes, all};

use crate::text::Text;
use crate::trees::{put_term, put_type};
use fp_commands::{Arg, Body, Command, Head, Line};
use fp_lex::{LexFault, Token, tokens};
use fp_raw::{Raw, RawType};
use fp_syntax::{SyntaxFault, read_file};
use fp_term::Name;
use std::alloc::{AllocError, Global};

fn put_argument(text: &mut Text, argument: &Arg) -> Result<(), AllocError> {
    match argument {
        Arg::Number(number) => text.put_number(" number ", *number),
        Arg::Name(name) => {
            text.put(" name")?;
            text.put_name(name)
        }
        Arg::TyVar(name) => {
            text.put(" tyvar")?;
            text.put_name(name)
        }
        Arg::Term(term) => {
            text.put(" term ")?;
            put_term(text, term)
        }
        Arg::Ty(ty) => {
            text.put(" type ")?;
            put_type(text, ty)
        }
    }
}

fn put_line(text: &mut Text, line: &Line) -> Result<(), AllocError> {
    text.put("\n ")?;
    text.put_name(&line.name)?;
    for argument in line.args.as_slice() {
        put_argument(text, argument)?;
    }
    Ok(())
}

fn put_names(text: &mut Text, names: &[Name]) -> Result<(), AllocError> {
    for name in names {
        text.put_name(name)?;
    }
    Ok(())
}

fn put_function(text: &mut Text, head: &Head) -> Result<(), AllocError> {
    text.put("\n ")?;
    text.put_name(&head.name)?;
    text.put(" ")?;
    put_type(text, &head.ty)
}

fn put_group(text: &mut Text, heads: &[Head], clauses: &[Raw]) -> Result<(), AllocError> {
    for head in heads {
        put_function(text, head)?;
    }
    for clause in clauses {
        text.put("\n  ")?;
        put_term(text, clause)?;
    }
    Ok(())
}

fn put_definition(text: &mut Text, name: &Name, term: &Raw) -> Result<(), AllocError> {
    text.put(" definition")?;
    text.put_name(name)?;
    text.put(" ")?;
    put_term(text, term)
}

fn put_lemma(
    text: &mut Text,
    name: &Name,
    statement: &Raw,
    lines: &[Line],
) -> Result<(), AllocError> {
    text.put(" lemma")?;
    text.put_name(name)?;
    text.put(" ")?;
    put_term(text, statement)?;
    for line in lines {
        put_line(text, line)?;
    }
    Ok(())
}

// A size or a measure.
fn put_measure(text: &mut Text, ty: &RawType, term: &Raw) -> Result<(), AllocError> {
    put_type(text, ty)?;
    text.put(" ")?;
    put_term(text, term)
}

fn put_body(text: &mut Text, body: &Body) -> Result<(), AllocError> {
    match body {
        Body::Definition { name, term } => put_definition(text, name, term),
        Body::Typedef {
            name,
            abs,
            rep,
            fact,
        } => {
            text.put(" typedef")?;
            text.put_name(name)?;
            text.put_name(abs)?;
            text.put_name(rep)?;
            text.put_name(fact)
        }
        Body::Lemma {
            name,
            statement,
            lines,
        } => put_lemma(text, name, statement, lines.as_slice()),
        Body::Simp(name) => {
            text.put(" simp")?;
            text.put_name(name)
        }
        Body::Cong(name) => {
            text.put(" cong")?;
            text.put_name(name)
        }
        Body::Constructors { ty, cons } => {
            text.put(" constructors")?;
            text.put_name(ty)?;
            put_names(text, cons.as_slice())
        }
        Body::Size { ty, term } => {
            text.put(" size ")?;
            put_measure(text, ty, term)
        }
        Body::Measure { ty, term } => {
            text.put(" measure ")?;
            put_measure(text, ty, term)
        }
        Body::Fun { heads, clauses } => {
            text.put(" fun")?;
            put_group(text, heads.as_slice(), clauses.as_slice())
        }
        Body::Function { heads, clauses } => {
            text.put(" function")?;
            put_group(text, heads.as_slice(), clauses.as_slice())
        }
    }
}

// A refusal's kind and place.
fn put_fault(text: &mut Text, kind: &str, at: u32) -> Result<(), AllocError> {
    text.put(kind)?;
    text.put_number(" ", at)?;
    text.put("\n")
}

fn put_syntax_fault(text: &mut Text, fault: SyntaxFault) -> Result<(), AllocError> {
    match fault {
        SyntaxFault::Refused(at) => put_fault(text, "Refused", at),
        SyntaxFault::NameTooLong(at) => put_fault(text, "NameTooLong", at),
        SyntaxFault::TooDeep(at) => put_fault(text, "TooDeep", at),
        SyntaxFault::TooLarge(at) => put_fault(text, "TooLarge", at),
        SyntaxFault::NumberTooLarge(at) => put_fault(text, "NumberTooLarge", at),
        SyntaxFault::NoMemory => Err(AllocError),
    }
}

fn put_commands(text: &mut Text, commands: &[Command]) -> Result<(), AllocError> {
    for command in commands {
        text.put_number("", command.at)?;
        put_body(text, &command.body)?;
        text.put("\n")?;
    }
    Ok(())
}

// How many tokens there are, and where the last one ends.
fn put_tokens(text: &mut Text, tokens: &[Token]) -> Result<(), AllocError> {
    let end = match tokens.last() {
        Some(token) => token.to,
        None => 0,
    };
    let count = u32::try_from(tokens.len()).map_err(|_| AllocError)?;
    text.put_number("tokens ", count)?;
    text.put_number(" up to ", end)?;
    text.put("\n")
}

fn put_file(
    alloc: Global,
    text: &mut Text,
    bytes: &[u8],
    tokens: &[Token],
) -> Result<(), AllocError>
    requires { Lexes false 0 bytes.now (all tokens.now) }
{
    put_tokens(text, tokens)?;
    match read_file(alloc, bytes, tokens) {
        Ok(commands) => put_commands(text, commands.as_slice()),
        Err(fault) => put_syntax_fault(text, fault),
    }
}

/// The commands of the file with all places, or its first fault.
pub fn of_file(alloc: Global, bytes: &[u8]) -> Result<Vec<u8>, AllocError> {
    let mut text = Text::new(alloc);
    match tokens(alloc, bytes) {
        Ok(tokens) => put_file(alloc, &mut text, bytes, tokens.as_slice())?,
        Err(LexFault::BadByte(at)) => put_fault(&mut text, "BadByte", at)?,
        Err(LexFault::OpenQuote(at)) => put_fault(&mut text, "OpenQuote", at)?,
        Err(LexFault::NameTooLong(at)) => put_fault(&mut text, "NameTooLong", at)?,
        Err(LexFault::NoMemory) => return Err(AllocError),
    }
    Ok(text.into_bytes())
}
