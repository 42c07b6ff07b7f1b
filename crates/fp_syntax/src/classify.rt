//! Each token's word.
ghost use Rattle.std.specs.Prelude.{◌≡◌, ◌-◌, cond, take, drop, length, IfOk, IfSome, Some, false};
ghost use Rattle.std.specs.Str.{bytes_eq};
ghost use Rattle.fp_syntax.specs.Words.{always, keyword, symbol, number, name_word, IsWord, AreWords, text_of};
ghost use Rattle.fp_lex.specs.Lexes.{quoted_after};

use crate::braces::in_braces;
use fp_lex::{Token, TokenKind};
use fp_term::Name;
use fp_words::{Binder, Infix, Keyword, Placed, Word};
use std::alloc::{AllocError, Global};

// A word that is reserved everywhere.
fn always_reserved(text: &[u8]) -> Option<Word>
    ensures { result ≡ always text.now }
{
    if text == b"if".as_slice() {
        Some(Word::If)
    } else if text == b"then".as_slice() {
        Some(Word::Then)
    } else if text == b"else".as_slice() {
        Some(Word::Else)
    } else {
        None
    }
}

// The keyword where the text spells it, and otherwise what was found.
fn spelled_or(
    text: &[u8],
    spelling: &[u8],
    keyword: Keyword,
    found: Option<Keyword>,
) -> Option<Keyword>
    ensures { result ≡ cond (bytes_eq text.now spelling.now) (Some keyword) found }
{
    if text == spelling {
        Some(keyword)
    } else {
        found
    }
}

// A word that is reserved outside quotes.
fn reserved(text: &[u8]) -> Option<Keyword>
    ensures { result ≡ keyword text.now }
{
    let found = None;
    let found = spelled_or(text, b"by", Keyword::By, found);
    let found = spelled_or(text, b"rep", Keyword::Rep, found);
    let found = spelled_or(text, b"abs", Keyword::Abs, found);
    let found = spelled_or(text, b"end", Keyword::End, found);
    let found = spelled_or(text, b"proof", Keyword::Proof, found);
    let found = spelled_or(text, b"where", Keyword::Where, found);
    let found = spelled_or(text, b"and", Keyword::And, found);
    let found = spelled_or(text, b"function", Keyword::Function, found);
    let found = spelled_or(text, b"fun", Keyword::Fun, found);
    let found = spelled_or(text, b"measure", Keyword::Measure, found);
    let found = spelled_or(text, b"size", Keyword::Size, found);
    let found = spelled_or(text, b"constructors", Keyword::Constructors, found);
    let found = spelled_or(text, b"cong", Keyword::Cong, found);
    let found = spelled_or(text, b"simp", Keyword::Simp, found);
    let found = spelled_or(text, b"lemma", Keyword::Lemma, found);
    let found = spelled_or(text, b"typedef", Keyword::Typedef, found);
    let found = spelled_or(text, b"definition", Keyword::Definition, found);
    found
}

fn symbol_of(text: &[u8]) -> Option<Word>
    ensures { result ≡ symbol text.now }
{
    match text {
        b"-->" => Some(Word::Between(Infix::Implies)),
        b"\\/" => Some(Word::Between(Infix::Disj)),
        b"/\\" => Some(Word::Between(Infix::Conj)),
        b"::" => Some(Word::Colons),
        b"=>" => Some(Word::Between(Infix::Arrow)),
        b"<=" => Some(Word::Between(Infix::Leq)),
        b"<" => Some(Word::Between(Infix::Less)),
        b"=" => Some(Word::Between(Infix::Equal)),
        b"+" => Some(Word::Between(Infix::Plus)),
        b"-" => Some(Word::Between(Infix::Minus)),
        b"*" => Some(Word::Between(Infix::Times)),
        b"~" => Some(Word::Negation),
        b"!" => Some(Word::Binds(Binder::All)),
        b"?" => Some(Word::Binds(Binder::Some)),
        b"@" => Some(Word::Binds(Binder::Select)),
        b"%" => Some(Word::Binds(Binder::Lambda)),
        b"." => Some(Word::Dot),
        b"," => Some(Word::Comma),
        b"(" => Some(Word::Open),
        b")" => Some(Word::Close),
        b"|" => Some(Word::Bar),
        b";" => Some(Word::Semicolon),
        b":" => Some(Word::Colon),
        b"[" => Some(Word::OpenBracket),
        b"]" => Some(Word::CloseBracket),
        _ => None,
    }
}

// The number of the digits, or the greatest there is.
fn number_of(digits: &[u8]) -> u32
    ensures { result ≡ number digits.now }
{
    let mut value = 0u64;
    for byte in digits {
        value = 10 * value + u64::from(byte.saturating_sub(b'0'));
        if value > 4294967295 {
            return 4294967295;
        }
    }
    value as u32
}

fn name_of(alloc: Global, text: &[u8]) -> Result<Name, AllocError>
    ensures { IfOk result (λ n. n ≡ text.now) }
{
    match Name::new(alloc, text)? {
        Some(name) => Ok(name),
        None => Err(AllocError),
    }
}

fn name_word(alloc: Global, text: &[u8], quoted: bool) -> Result<Word, AllocError>
    ensures { IfOk result (λ w. w ≡ name_word quoted text.now) }
{
    if let Some(word) = always_reserved(text) {
        return Ok(word);
    }
    if !quoted {
        if let Some(word) = reserved(text) {
            return Ok(Word::Reserved(word));
        }
    }
    Ok(Word::Name(name_of(alloc, text)?))
}

// The text without its first and last bytes.
fn inside(text: &[u8]) -> Option<&[u8]>
    ensures { IfSome result (λ inner. inner.now ≡ take (length text.now - 1 - 1) (drop 1 text.now)) }
{
    if text.len() < 2 {
        return None;
    }
    Some(&text[1..text.len() - 1])
}

// What the bytes of a token are.
fn word_of(
    alloc: Global,
    kind: TokenKind,
    text: &[u8],
    at: u32,
    is_quoted: bool,
) -> Result<Word, AllocError>
    ensures { IfOk result (λ w. IsWord kind is_quoted text.now at w) }
{
    match kind {
        TokenKind::Name => name_word(alloc, text, is_quoted),
        TokenKind::TyVar => match text {
            [_, rest @ ..] => Ok(Word::TyVar(name_of(alloc, rest)?)),
            [] => Err(AllocError),
        },
        TokenKind::Number => Ok(Word::Number(number_of(text))),
        TokenKind::Quote => Ok(Word::Quote),
        TokenKind::Braces => match inside(text) {
            Some(inside) => Ok(Word::Braces(in_braces(alloc, inside, at)?)),
            None => Err(AllocError),
        },
        TokenKind::Symbol => symbol_of(text).ok_or(AllocError),
    }
}

fn is_quoted_after(kind: TokenKind, is_quoted: bool) -> bool
    ensures { result ≡ quoted_after kind is_quoted }
{
    match kind {
        TokenKind::Quote => !is_quoted,
        _ => is_quoted,
    }
}

fn text_of(bytes: &[u8], token: Token) -> Result<&[u8], AllocError>
    ensures { IfOk result (λ text. text.now ≡ text_of bytes.now token) }
{
    let from = token.from as usize;
    let to = token.to as usize;
    if from <= to && to <= bytes.len() {
        Ok(&bytes[from..to])
    } else {
        Err(AllocError)
    }
}

/// The words of the tokens of a file.
pub(crate) fn words(
    alloc: Global,
    bytes: &[u8],
    tokens: &[Token],
) -> Result<Vec<Placed>, AllocError>
    ensures { IfOk result (λ words. AreWords bytes.now false tokens.now words.items) }
{
    let mut words = Vec::new(alloc);
    let mut is_quoted = false;
    for token in tokens {
        let text = text_of(bytes, *token)?;
        let word = word_of(alloc, token.kind, text, token.from, is_quoted)?;
        is_quoted = is_quoted_after(token.kind, is_quoted);
        let at = token.from;
        words.push(Placed { word, at })?;
    }
    Ok(words)
}
