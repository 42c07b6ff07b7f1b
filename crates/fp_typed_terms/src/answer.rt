//! What is printed of a line: of each term of its commands the full form, or its first fault.
ghost use Rattle.std.specs.Prelude.{false};
ghost use Rattle.fp_lex.specs.Lexes.{Lexes, all};
ghost use Rattle.fp_infer.specs.Elaborated.{AreTypesIn};
ghost use Rattle.fp_typed_terms.specs.SmallSignature.{IsSmall};

use crate::signature::{are_types, given, truth_type};
use fp_commands::{Arg, Body, Command, Head, Line};
use fp_constrain::{Constants, plain_type};
use fp_full::print_full_term_onto;
use fp_infer::{InferFault, elaborate_with};
use fp_lex::{LexFault, Token, tokens};
use fp_raw::{Raw, RawType};
use fp_syntax::read_file;
use fp_term::{Name, Signature, Term, Ty};
use std::alloc::{AllocError, Global};

// What a term is asked, beside its signature.
#[derive(Drop)]
struct Asked<'a> {
    exact: &'a [(Name, Ty)],
    given: &'a [(Name, Ty)],
    want: Option<&'a Ty>,
}

fn put_fault(
    alloc: Global,
    text: &mut Vec<u8>,
    kind: &str,
    name: &[u8],
    at: u32,
) -> Result<(), AllocError> {
    text.extend_from_slice(kind.as_bytes())?;
    text.extend_from_slice(name)?;
    let place = format!(in alloc; " {at}\n")?;
    text.extend_from_slice(place.as_str().as_bytes())
}

// The term's full form, or its fault.
fn put_result(
    alloc: Global,
    text: &mut Vec<u8>,
    found: Result<Term, InferFault>,
) -> Result<(), AllocError> {
    match found {
        Ok(term) => {
            print_full_term_onto(text, &term)?;
            text.extend_from_slice(b"\n")
        }
        Err(InferFault::UnknownName(name, at)) => {
            put_fault(alloc, text, "UnknownName ", name.as_slice(), at)
        }
        Err(InferFault::BadArity(name, at)) => {
            put_fault(alloc, text, "BadArity ", name.as_slice(), at)
        }
        Err(InferFault::Clash(at)) => put_fault(alloc, text, "Clash", b"", at),
        Err(InferFault::TypeTooLarge(at)) => put_fault(alloc, text, "TypeTooLarge", b"", at),
        Err(InferFault::NoMemory) => text.extend_from_slice(b"NoMemory\n"),
    }
}

#[tactic(auto, using(crate::proofs::Sound::small_sound))]
fn put_term(
    alloc: Global,
    text: &mut Vec<u8>,
    signature: &Signature,
    asked: &Asked<'_>,
    raw: &Raw,
) -> Result<(), AllocError>
    requires { IsSmall signature.now }
{
    if !are_types(signature, asked.exact) || !are_types(signature, asked.given) {
        return text.extend_from_slice(b"types\n");
    }
    let constants = Constants {
        signature,
        exact: asked.exact,
    };
    let found = elaborate_with(alloc, raw, &constants, asked.given, asked.want);
    put_result(alloc, text, found)
}

fn put_alone(
    alloc: Global,
    text: &mut Vec<u8>,
    signature: &Signature,
    raw: &Raw,
) -> Result<(), AllocError>
    requires { IsSmall signature.now }
{
    let asked = Asked {
        exact: &[],
        given: &[],
        want: None,
    };
    put_term(alloc, text, signature, &asked, raw)
}

// A term of which a type is wanted.
fn put_wanted(
    alloc: Global,
    text: &mut Vec<u8>,
    signature: &Signature,
    want: &Ty,
    raw: &Raw,
) -> Result<(), AllocError>
    requires { IsSmall signature.now }
{
    let asked = Asked {
        exact: &[],
        given: &[],
        want: Some(want),
    };
    put_term(alloc, text, signature, &asked, raw)
}

fn put_argument(
    alloc: Global,
    text: &mut Vec<u8>,
    signature: &Signature,
    argument: &Arg,
) -> Result<(), AllocError>
    requires { IsSmall signature.now }
{
    let Arg::Term(raw) = argument else {
        return Ok(());
    };
    let pairs = given(alloc)?;
    let asked = Asked {
        exact: &[],
        given: pairs.as_slice(),
        want: None,
    };
    put_term(alloc, text, signature, &asked, raw)
}

fn put_line(
    alloc: Global,
    text: &mut Vec<u8>,
    signature: &Signature,
    line: &Line,
) -> Result<(), AllocError>
    requires { IsSmall signature.now }
{
    for argument in line.args.as_slice() {
        put_argument(alloc, text, signature, argument)?;
    }
    Ok(())
}

fn put_lemma(
    alloc: Global,
    text: &mut Vec<u8>,
    signature: &Signature,
    statement: &Raw,
    lines: &[Line],
) -> Result<(), AllocError>
    requires { IsSmall signature.now }
{
    put_wanted(alloc, text, signature, &truth_type(alloc)?, statement)?;
    for line in lines {
        put_line(alloc, text, signature, line)?;
    }
    Ok(())
}

fn put_measure(
    alloc: Global,
    text: &mut Vec<u8>,
    signature: &Signature,
    ty: &RawType,
    term: &Raw,
) -> Result<(), AllocError>
    requires { IsSmall signature.now }
{
    put_wanted(alloc, text, signature, &plain_type(alloc, ty)?, term)
}

fn exact_types(alloc: Global, heads: &[Head]) -> Result<Vec<(Name, Ty)>, AllocError> {
    let mut pairs = Vec::new(alloc);
    for head in heads {
        pairs.push((head.name.copy()?, plain_type(alloc, &head.ty)?))?;
    }
    Ok(pairs)
}

// Clauses, in which the functions have exactly their types.
fn put_group(
    alloc: Global,
    text: &mut Vec<u8>,
    signature: &Signature,
    heads: &[Head],
    clauses: &[Raw],
) -> Result<(), AllocError>
    requires { IsSmall signature.now }
{
    let pairs = exact_types(alloc, heads)?;
    let asked = Asked {
        exact: pairs.as_slice(),
        given: &[],
        want: None,
    };
    for clause in clauses {
        put_term(alloc, text, signature, &asked, clause)?;
    }
    Ok(())
}

fn put_body(
    alloc: Global,
    text: &mut Vec<u8>,
    signature: &Signature,
    body: &Body,
) -> Result<(), AllocError>
    requires { IsSmall signature.now }
{
    match body {
        Body::Definition { term, .. } => put_alone(alloc, text, signature, term),
        Body::Lemma {
            statement,
            lines,
            ..
        } => put_lemma(alloc, text, signature, statement, lines.as_slice()),
        Body::Size { ty, term } => put_measure(alloc, text, signature, ty, term),
        Body::Measure { ty, term } => put_measure(alloc, text, signature, ty, term),
        Body::Fun { heads, clauses } => {
            put_group(alloc, text, signature, heads.as_slice(), clauses.as_slice())
        }
        Body::Function { heads, clauses } => {
            put_group(alloc, text, signature, heads.as_slice(), clauses.as_slice())
        }
        _ => Ok(()),
    }
}

fn put_commands(
    alloc: Global,
    text: &mut Vec<u8>,
    signature: &Signature,
    commands: &[Command],
) -> Result<(), AllocError>
    requires { IsSmall signature.now }
{
    for command in commands {
        put_body(alloc, text, signature, &command.body)?;
    }
    Ok(())
}

fn put_file(
    alloc: Global,
    text: &mut Vec<u8>,
    signature: &Signature,
    bytes: &[u8],
    tokens: &[Token],
) -> Result<(), AllocError>
    requires small { IsSmall signature.now }
    requires lexed { Lexes false 0 bytes.now (all tokens.now) }
{
    match read_file(alloc, bytes, tokens) {
        Ok(commands) => put_commands(alloc, text, signature, commands.as_slice()),
        Err(_) => text.extend_from_slice(b"unread\n"),
    }
}

/// The terms of the line's commands, typed, or `unread`.
pub fn of_line(alloc: Global, signature: &Signature, bytes: &[u8]) -> Result<Vec<u8>, AllocError>
    requires { IsSmall signature.now }
{
    let mut text = Vec::new(alloc);
    match tokens(alloc, bytes) {
        Ok(tokens) => put_file(alloc, &mut text, signature, bytes, tokens.as_slice())?,
        Err(LexFault::NoMemory) => return Err(AllocError),
        Err(_) => text.extend_from_slice(b"unread\n")?,
    }
    Ok(text)
}
