//! What stands in braces: a term of the full form within its limits, or why it is none.
ghost use Rattle.std.specs.Prelude.{◌≡◌, ◌≤◌, length, IfSome, IfOk};
ghost use Rattle.fp_syntax.specs.Words.{IsNoTerm, IsInside};

use fp_full::{FullFault, read_full_term};
use fp_raw::full;
use fp_words::Braces;
use std::alloc::{AllocError, Global};

// What is due next in a term of the full form.
#[derive(Clone, Copy)]
enum Due {
    Term,
    Form,
    Number,
    Name,
    Type,
    Arguments,
    Close,
}

// A parenthesis, or a word.
#[derive(Clone, Copy)]
enum Piece<'a> {
    Left,
    Right,
    Word(&'a [u8]),
}

fn is_space(byte: u8) -> bool {
    matches!(byte, b' ' | b'\t' | b'\n' | b'\r')
}

fn is_part(byte: u8) -> bool {
    byte.is_ascii_alphanumeric() || byte == b'_' || byte == b'\''
}

// Whether the word is a name, however long.
fn is_name(word: &[u8]) -> bool {
    match word {
        [first, ..] => first.is_ascii_alphabetic() || *first == b'_',
        [] => false,
    }
}

fn is_type_variable(word: &[u8]) -> bool {
    match word {
        [b'\'', name @ ..] => is_name(name),
        _ => false,
    }
}

// Whether the word is a number below 2^32 without leading zeros.
fn is_number(word: &[u8]) -> bool {
    if word.is_empty() || word.len() > 1 && word[0] == b'0' {
        return false;
    }
    let mut value = 0u64;
    for byte in word {
        if !byte.is_ascii_digit() || value > 4294967295 {
            return false;
        }
        value = 10 * value + u64::from(byte.saturating_sub(b'0'));
    }
    value < 4294967296
}

fn expect(stack: Vec<Due>, due: &[Due]) -> Result<Vec<Due>, AllocError> {
    let mut stack = stack;
    for next in due {
        stack.push(*next)?;
    }
    Ok(stack)
}

// What is due after the word of a form, the last first.
fn form_parts(word: &[u8]) -> Option<&'static [Due]> {
    match word {
        b"b" => Some(&[Due::Close, Due::Number]),
        b"v" | b"c" => Some(&[Due::Close, Due::Type, Due::Name]),
        b"a" => Some(&[Due::Close, Due::Term, Due::Term]),
        b"l" => Some(&[Due::Close, Due::Term, Due::Type]),
        _ => None,
    }
}

// What is due in place of what was, the last first, if the piece fits there.
fn after(due: Due, piece: Piece<'_>) -> Option<&'static [Due]> {
    match (due, piece) {
        (Due::Term, Piece::Left) => Some(&[Due::Form]),
        (Due::Form, Piece::Word(word)) => form_parts(word),
        (Due::Number, Piece::Word(word)) if is_number(word) => Some(&[]),
        (Due::Name, Piece::Word(word)) if is_name(word) => Some(&[]),
        (Due::Type, Piece::Word(word)) if is_type_variable(word) => Some(&[]),
        (Due::Type, Piece::Left) => Some(&[Due::Arguments, Due::Name]),
        (Due::Arguments, Piece::Right) => Some(&[]),
        (Due::Arguments, Piece::Word(word)) if is_type_variable(word) => Some(&[Due::Arguments]),
        (Due::Arguments, Piece::Left) => Some(&[Due::Arguments, Due::Arguments, Due::Name]),
        (Due::Close, Piece::Right) => Some(&[]),
        _ => None,
    }
}

// The stack after the piece, if it fits.
fn step(stack: Vec<Due>, piece: Piece<'_>) -> Result<Option<Vec<Due>>, AllocError> {
    let mut stack = stack;
    match stack.pop() {
        None => Ok(None),
        Some(due) => match after(due, piece) {
            None => Ok(None),
            Some(next) => Ok(Some(expect(stack, next)?)),
        },
    }
}

fn word_length(bytes: &[u8]) -> usize
    ensures { result ≤ length bytes.now }
{
    for (at, byte) in bytes.iter().enumerate() {
        if !is_part(*byte) {
            return at;
        }
    }
    bytes.len()
}

// The piece at the front of the bytes, and how long it is; no piece at a space.
fn front(bytes: &[u8]) -> Option<(Option<Piece<'_>>, usize)>
    ensures { IfSome result (λ found. (1 ≤ found.1) × (found.1 ≤ length bytes.now)) }
{
    match bytes {
        [] => None,
        [b'(', ..] => Some((Some(Piece::Left), 1)),
        [b')', ..] => Some((Some(Piece::Right), 1)),
        [first, ..] => {
            if is_space(*first) {
                return Some((None, 1));
            }
            match word_length(bytes) {
                0 => None,
                length => Some((Some(Piece::Word(&bytes[..length])), length)),
            }
        }
    }
}

// Whether the bytes are a term of the full form, however deep and however long its names.
fn is_full_form(alloc: Global, bytes: &[u8]) -> Result<bool, AllocError> {
    let mut stack = vec![in alloc; Due::Term]?;
    let mut at = 0;
    while at < bytes.len() {
        match front(&bytes[at..]) {
            None => return Ok(false),
            Some((None, length)) => at += length,
            Some((Some(piece), length)) => {
                match step(stack, piece)? {
                    None => return Ok(false),
                    Some(next) => stack = next,
                }
                at += length;
            }
        }
    }
    Ok(stack.is_empty())
}

// A limit that is passed at the place inside, where the bytes are a term at all.
fn past_limit(alloc: Global, bytes: &[u8], limit: Result<u32, u32>) -> Result<Braces, AllocError>
    requires { IsNoTerm bytes.now }
    ensures { IfOk result (λ b. IsInside 0 bytes.now b) }
{
    if !is_full_form(alloc, bytes)? {
        return Ok(Braces::Malformed);
    }
    match limit {
        Ok(at) => Ok(Braces::TooDeep(at)),
        Err(at) => Ok(Braces::NameTooLong(at)),
    }
}

fn place_inside(at: u32, inside: u32) -> Result<u32, AllocError> {
    at.checked_add(1)
        .and_then(|first| first.checked_add(inside))
        .ok_or(AllocError)
}

/// What the bytes between braces are, of which the first stands at the place.
pub(crate) fn in_braces(alloc: Global, bytes: &[u8], at: u32) -> Result<Braces, AllocError>
    ensures { IfOk result (λ b. IsInside at bytes.now b) }
{
    if bytes.len() >= 4294967296 {
        return Err(AllocError);
    }
    match read_full_term(alloc, bytes) {
        Ok(term) => Ok(Braces::Full(full(alloc, &term, at)?)),
        Err(FullFault::Refused(_)) => Ok(Braces::Malformed),
        Err(FullFault::TooDeep(inside)) => past_limit(alloc, bytes, Ok(place_inside(at, inside)?)),
        Err(FullFault::NameTooLong(inside)) => past_limit(
            alloc,
            bytes,
            Err(place_inside(at, inside)?),
        ),
        Err(FullFault::NoMemory) => Err(AllocError),
    }
}
