//! Bytes, marks and words.
ghost use Rattle.std.specs.Prelude.{◌≡◌, ◌^◌, ◌&&◌, nat_lt, Some, None, cond, codes};
ghost use Rattle.std.specs.List.{list_all};
ghost use Rattle.std.specs.Option.{option_map};
ghost use Rattle.std.specs.Str.{all_ascii_digits};
ghost use Rattle.fp_term.specs.Names.{is_part_byte, is_start_byte, is_name};
ghost use Rattle.fp_full.specs.Tokens.{is_space};
ghost use Rattle.fp_full.specs.Texts.{letters};
ghost use Rattle.fp_full.specs.Grammar.{is_reserved};
ghost use Rattle.fp_full.specs.Machine.{is_plain, is_numeral, read_on, is_form, is_variable_front};
ghost use Rattle.fp_full.specs.Views.{state_of, token_of};

use crate::state::State;

// The tokens that are no words.
#[derive(Clone, Copy)]
pub(crate) enum Mark {
    Left,
    Right,
    Equals,
    BraceLeft,
    BraceRight,
}

pub(crate) fn mark_of(byte: u8) -> Option<Mark>
    ensures { option_map token_of result ≡ Rattle.fp_full.specs.Machine.mark_of byte }
{
    match byte {
        b'(' => Some(Mark::Left),
        b')' => Some(Mark::Right),
        b'=' => Some(Mark::Equals),
        b'{' => Some(Mark::BraceLeft),
        b'}' => Some(Mark::BraceRight),
        _ => None,
    }
}

pub(crate) fn is_space_byte(byte: u8) -> bool
    ensures { result ≡ is_space byte }
{
    byte == b' ' || byte == b'\t' || byte == b'\n' || byte == b'\r'
}

// A letter, a digit, `_` or `'`.
pub(crate) fn is_word_byte(byte: u8) -> bool
    ensures { result ≡ is_part_byte byte }
{
    byte.is_ascii_alphanumeric() || byte == b'_' || byte == b'\''
}

fn is_first_byte(byte: u8) -> bool
    ensures { result ≡ is_start_byte byte }
{
    byte.is_ascii_alphabetic() || byte == b'_'
}

fn all_word_bytes(word: &[u8]) -> bool
    ensures { result ≡ list_all is_part_byte word.now }
{
    word.iter().all(|byte| is_word_byte(*byte))
}

#[tactic(auto, unfolding(fp_term::specs::Names::is_name))]
pub(crate) fn has_name_form(word: &[u8]) -> bool
    ensures { result ≡ is_name word.now }
{
    !word.is_empty() && word.len() < 161 && is_first_byte(word[0]) && all_word_bytes(word)
}

// The words that name no constant.
const KEYWORDS: [&[u8]; 20] = [
    b"definition",
    b"typedef",
    b"lemma",
    b"simp",
    b"cong",
    b"constructors",
    b"size",
    b"measure",
    b"fun",
    b"function",
    b"and",
    b"where",
    b"proof",
    b"end",
    b"abs",
    b"rep",
    b"by",
    b"if",
    b"then",
    b"else",
];

pub(crate) fn is_keyword(word: &[u8]) -> bool
    ensures { result ≡ is_reserved word.now }
{
    KEYWORDS.contains(&word)
}

// Whether the digits are not none and begin with no 0 before others.
fn is_plain_start(word: &[u8]) -> bool
    ensures { result ≡ is_plain word.now }
{
    match word {
        [] => false,
        [_] => true,
        [first, ..] => *first != b'0',
    }
}

// The number below 2^32 that the digits stand for.
fn value_of(digits: &[u8]) -> Option<u32>
    ensures { result ≡ cond (all_ascii_digits digits.now && nat_lt (read_on 0 digits.now) (2 ^ 32)) (Some (read_on 0 digits.now)) None }
{
    let mut value = 0u64;
    for byte in digits {
        if !byte.is_ascii_digit() {
            return None;
        }
        value = 10 * value + u64::from(*byte - b'0');
        if value > u64::from(u32::MAX) {
            return None;
        }
    }
    Some(value as u32)
}

// The number below 2^32 that a numeral stands for.
pub(crate) fn number_of(word: &[u8]) -> Option<u32>
    ensures { result ≡ cond (is_numeral word.now) (Some (read_on 0 word.now)) None }
{
    if is_plain_start(word) {
        value_of(word)
    } else {
        None
    }
}

fn is_form_word(word: &[u8]) -> bool
    ensures { result ≡ is_form word.now }
{
    match word {
        [byte] => {
            *byte == b'b' || *byte == b'v' || *byte == b'c' || *byte == b'a' || *byte == b'l'
        }
        _ => false,
    }
}

// Whether a type variable's word may begin so.
fn begins_variable(word: &[u8]) -> bool
    ensures { result ≡ is_variable_front word.now }
{
    match word.split_first() {
        None => false,
        Some((first, name)) => *first == b'\'' && (name.is_empty() || has_name_form(name)),
    }
}

// Whether a word that may come there begins so.
#[tactic(auto, unfolding(crate::specs::Machine::could))]
pub(crate) fn may_begin(state: &State, word: &[u8]) -> bool
    ensures { result ≡ Rattle.fp_full.specs.Machine.could (state_of state.now) word.now }
{
    match state {
        State::FormDue(_) => is_form_word(word),
        State::NumberDue(_) => number_of(word).is_some(),
        State::FreeNameDue(_) => has_name_form(word),
        State::ConstantNameDue(_) => has_name_form(word),
        State::TypeDue(..) => begins_variable(word),
        State::TypeNameDue(..) => has_name_form(word),
        State::SDue => word == b"s".as_slice(),
        State::HDue => word == b"h".as_slice(),
        State::EntryDue(_) => b"definition".as_slice().starts_with(word),
        State::EntryNameDue(..) => has_name_form(word),
        _ => false,
    }
}

// The bytes of a word, an apostrophe at its front aside.
pub(crate) fn letter_count(word: &[u8]) -> usize
    ensures { result ≡ letters word.now }
{
    match word.split_first() {
        None => 0,
        Some((first, rest)) => {
            if *first == b'\'' {
                rest.len()
            } else {
                word.len()
            }
        }
    }
}
