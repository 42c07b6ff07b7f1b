//! Classes of bytes, and how many bytes at the front are of a class.
ghost use Rattle.std.specs.Prelude.{◌≡◌, ◌≤◌, length};
ghost use Rattle.std.specs.Char.{is_ascii_digit};
ghost use Rattle.fp_lex.specs.Bytes.{is_space, is_allowed, is_start, is_part, is_no_quote, is_no_brace, is_symbol, is_symbol_2, is_symbol_3, symbol_length, shortest, short, leading};
ghost use Rattle.fp_lex.specs.Views.{holds};

/// What the bytes of a run have in common.
#[derive(Clone, Copy)]
pub(crate) enum Class {
    Part,
    Digit,
    Allowed,
    NoQuote,
    NoBrace,
}

pub(crate) fn is_space_byte(byte: u8) -> bool
    ensures { result ≡ is_space byte }
{
    byte == b' ' || byte == b'\t' || byte == b'\n' || byte == b'\r'
}

pub(crate) fn is_allowed_byte(byte: u8) -> bool
    ensures { result ≡ is_allowed byte }
{
    32 <= byte && byte <= 126 || byte == b'\t' || byte == b'\n' || byte == b'\r'
}

pub(crate) fn is_start_byte(byte: u8) -> bool
    ensures { result ≡ is_start byte }
{
    byte.is_ascii_alphabetic() || byte == b'_'
}

fn is_part_byte(byte: u8) -> bool
    ensures { result ≡ is_part byte }
{
    byte.is_ascii_alphanumeric() || byte == b'_' || byte == b'\''
}

fn has(class: Class, byte: u8) -> bool
    ensures { result ≡ holds class byte }
{
    match class {
        Class::Part => is_part_byte(byte),
        Class::Digit => byte.is_ascii_digit(),
        Class::Allowed => is_allowed_byte(byte),
        Class::NoQuote => byte != b'"',
        Class::NoBrace => byte != b'}',
    }
}

// How many bytes at the front are of the class.
pub(crate) fn run(bytes: &[u8], class: Class) -> usize
    ensures counts { result ≡ leading (holds class) bytes.now }
    ensures within { result ≤ length bytes.now }
{
    for (at, byte) in bytes.iter().enumerate() {
        if !has(class, *byte) {
            return at;
        }
    }
    bytes.len()
}

fn is_short_symbol(a: u8) -> bool
    ensures { result ≡ is_symbol a }
{
    matches!(
        a,
        b'<' | b'='
            | b'+'
            | b'-'
            | b'*'
            | b'~'
            | b'!'
            | b'?'
            | b'@'
            | b'%'
            | b'.'
            | b','
            | b'('
            | b')'
            | b'|'
            | b';'
            | b':'
            | b'['
            | b']'
    )
}

fn is_double(a: u8, b: u8) -> bool
    ensures { result ≡ is_symbol_2 a b }
{
    a == b':' && b == b':'
        || a == b'=' && b == b'>'
        || a == b'\\' && b == b'/'
        || a == b'/' && b == b'\\'
        || a == b'<' && b == b'='
}

fn single(a: u8) -> usize
    ensures { result ≡ shortest a }
{
    if is_short_symbol(a) { 1 } else { 0 }
}

fn double(a: u8, b: u8) -> usize
    ensures { result ≡ short a b }
{
    if is_double(a, b) { 2 } else { single(a) }
}

// The bytes of the longest symbol at the front, or 0.
pub(crate) fn symbol_bytes(bytes: &[u8]) -> usize
    ensures { result ≡ symbol_length bytes.now }
{
    match bytes {
        [] => 0,
        [a] => single(*a),
        [a, b] => double(*a, *b),
        [a, b, c, ..] => {
            if *a == b'-' && *b == b'-' && *c == b'>' {
                3
            } else {
                double(*a, *b)
            }
        }
    }
}
