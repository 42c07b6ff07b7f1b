//! What stands at the front of the bytes: a separator, a token or a fault.
ghost use Rattle.std.specs.Prelude.{◌≡◌, ◌≤◌, ◌<◌, ◌+◌, length};
ghost use Rattle.fp_lex.specs.Pieces.{Piece as Front, piece, name, variable, quote, after_comment, braces, symbol, Fits};
ghost use Rattle.fp_lex.specs.Views.{piece_of};

use crate::bytes::{Class, is_allowed_byte, is_space_byte, is_start_byte, run, symbol_bytes};
use crate::token::TokenKind;

/// A separator or a token of so many bytes, or a fault, behind so many bytes.
#[derive(Clone, Copy)]
pub(crate) enum Piece {
    Between(usize),
    Token(TokenKind, usize),
    Bad(usize),
    Open,
    Long,
}

// A name's first byte and so many more.
fn name_of(more: usize) -> Piece
    requires { more < 1000000000000 }
    ensures { piece_of result ≡ name more }
{
    if more < 64 {
        Piece::Token(TokenKind::Name, more + 1)
    } else {
        Piece::Long
    }
}

// Behind an apostrophe.
fn variable_of(rest: &[u8]) -> Piece
    ensures { piece_of result ≡ variable rest.now }
{
    match rest.split_first() {
        None => Piece::Bad(0),
        Some((first, rest)) => {
            if !is_start_byte(*first) {
                return Piece::Bad(0);
            }
            let more = run(rest, Class::Part);
            if more < 64 {
                Piece::Token(TokenKind::TyVar, more + 2)
            } else {
                Piece::Long
            }
        }
    }
}

// Behind a quote.
fn quote_of(quoted: bool, rest: &[u8]) -> Piece
    ensures { piece_of result ≡ quote quoted rest.now }
{
    if !quoted && run(rest, Class::NoQuote) == rest.len() {
        Piece::Open
    } else {
        Piece::Token(TokenKind::Quote, 1)
    }
}

// Behind the sign of a comment.
fn comment(rest: &[u8]) -> Piece
    requires { length rest.now < 4294967296 }
    ensures { piece_of result ≡ after_comment rest.now 1 }
{
    for (at, byte) in rest.iter().enumerate() {
        if *byte == b'\n' {
            return Piece::Between(at + 1);
        }
        if !is_allowed_byte(*byte) {
            return Piece::Bad(at + 1);
        }
    }
    Piece::Between(rest.len() + 1)
}

// Behind a brace. No byte behind the one that closes it is looked at.
fn braces_of(rest: &[u8]) -> Piece
    requires { length rest.now < 4294967296 }
    ensures { piece_of result ≡ braces rest.now }
{
    let inside = run(rest, Class::NoBrace);
    if inside == rest.len() {
        return Piece::Open;
    }
    let allowed = run(&rest[..inside], Class::Allowed);
    if allowed < inside {
        Piece::Bad(allowed + 1)
    } else {
        Piece::Token(TokenKind::Braces, inside + 2)
    }
}

fn symbol_of(size: usize) -> Piece
    ensures { piece_of result ≡ symbol size }
{
    if size == 0 {
        Piece::Bad(0)
    } else {
        Piece::Token(TokenKind::Symbol, size)
    }
}

fn by_first(quoted: bool, bytes: &[u8]) -> Piece
    requires some { 0 < length bytes.now }
    requires few { length bytes.now < 4294967296 }
    ensures { piece_of result ≡ piece quoted bytes.now }
{
    let first = bytes[0];
    let rest = &bytes[1..];
    if is_space_byte(first) {
        Piece::Between(1)
    } else if is_start_byte(first) {
        name_of(run(rest, Class::Part))
    } else if first == b'\'' {
        variable_of(rest)
    } else if first.is_ascii_digit() {
        Piece::Token(TokenKind::Number, run(rest, Class::Digit) + 1)
    } else if first == b'"' {
        quote_of(quoted, rest)
    } else if first == b'#' && !quoted {
        comment(rest)
    } else if first == b'{' && !quoted {
        braces_of(rest)
    } else {
        symbol_of(symbol_bytes(bytes))
    }
}

/// What stands at the front of the bytes.
pub(crate) fn front(quoted: bool, bytes: &[u8]) -> Piece
    requires some { 0 < length bytes.now }
    requires few { length bytes.now < 4294967296 }
    ensures stands { piece_of result ≡ piece quoted bytes.now }
    ensures fits { Fits (length bytes.now) (piece_of result) }
{
    by_first(quoted, bytes)
}
