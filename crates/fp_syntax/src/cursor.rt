//! A place between two words of a file, and what may stand there.
ghost use Rattle.std.specs.Prelude.{◌≡◌, ◌≤◌, ◌<◌, length, true, OnOk, IfOk, IfSome};
ghost use Rattle.fp_words.specs.declared.word.Word.TheVariants.{Name as name_word};
ghost use Rattle.fp_commands.specs.Grammar.{WordAt, NameAt};
ghost use Rattle.fp_syntax.specs.Signs.{sign_word};
ghost use Rattle.fp_syntax.specs.declared.cursor.SyntaxFault.TheVariants.{NoMemory};

use fp_term::Name;
use fp_words::{Infix, Keyword, Placed, Word};
use std::alloc::AllocError;

/// Why tokens are no commands: the first place at fault.
#[derive(Clone, Copy, Debug, PartialEq, Eq)]
pub enum SyntaxFault {
    /// No list of commands begins with the tokens up to this one, or they end early.
    Refused(u32),
    /// A name in braces that begins there has more than 64 bytes.
    NameTooLong(u32),
    /// A written term or type has more than 200 levels.
    TooDeep(u32),
    /// A written term has more than 10,000 tokens, a lemma more than 4,000 lines, or a line's number is greater.
    TooLarge(u32),
    /// A numeral is greater than 255.
    NumberTooLarge(u32),
    /// Memory ran out.
    NoMemory,
}

impl From<AllocError> for SyntaxFault {
    ghost from_gives = { λ _ fault. fault ≡ NoMemory };

    fn from(_: AllocError) -> SyntaxFault {
        SyntaxFault::NoMemory
    }
}

/// The words that are left, and the length of the file.
#[derive(Clone, Copy)]
pub(crate) struct Cursor<'a> {
    pub(crate) rest: &'a [Placed],
    pub(crate) end: u32,
}

/// A word that stands between others.
#[derive(Clone, Copy)]
pub(crate) enum Sign {
    Equals,
    Colon,
    Colons,
    Comma,
    Bar,
    Semicolon,
    Quote,
    OpenBracket,
    CloseBracket,
    And,
    Where,
    Proof,
    End,
    Abs,
    Rep,
    By,
}

fn is_sign(word: &Word, sign: Sign) -> bool
    ensures { result ≡ true → word.now ≡ sign_word sign }
{
    match sign {
        Sign::Equals => matches!(word, Word::Between(Infix::Equal)),
        Sign::Colon => matches!(word, Word::Colon),
        Sign::Colons => matches!(word, Word::Colons),
        Sign::Comma => matches!(word, Word::Comma),
        Sign::Bar => matches!(word, Word::Bar),
        Sign::Semicolon => matches!(word, Word::Semicolon),
        Sign::Quote => matches!(word, Word::Quote),
        Sign::OpenBracket => matches!(word, Word::OpenBracket),
        Sign::CloseBracket => matches!(word, Word::CloseBracket),
        Sign::And => matches!(word, Word::Reserved(Keyword::And)),
        Sign::Where => matches!(word, Word::Reserved(Keyword::Where)),
        Sign::Proof => matches!(word, Word::Reserved(Keyword::Proof)),
        Sign::End => matches!(word, Word::Reserved(Keyword::End)),
        Sign::Abs => matches!(word, Word::Reserved(Keyword::Abs)),
        Sign::Rep => matches!(word, Word::Reserved(Keyword::Rep)),
        Sign::By => matches!(word, Word::Reserved(Keyword::By)),
    }
}

fn as_name(word: &Word) -> Option<&Name>
    ensures { IfSome result (λ name. word.now ≡ name_word name.now) }
{
    match word {
        Word::Name(name) => Some(name),
        _ => None,
    }
}

/// Where the word begins that stands so many words on, or where the file ends.
pub(crate) fn place_of(words: &[Placed], ahead: usize, end: u32) -> u32 {
    match words.get(ahead) {
        Some(word) => word.at,
        None => end,
    }
}

/// The first of the words that is this sign, or how many they are.
pub(crate) fn position(words: &[Placed], sign: Sign) -> usize
    ensures { result ≤ length words.now }
{
    for (at, placed) in words.iter().enumerate() {
        if is_sign(&placed.word, sign) {
            return at;
        }
    }
    words.len()
}

/// That no list of commands has what stands there.
pub(crate) fn refused(cursor: &Cursor<'_>) -> SyntaxFault {
    SyntaxFault::Refused(place_of(cursor.rest, 0, cursor.end))
}

pub(crate) fn is_at(cursor: &Cursor<'_>, sign: Sign) -> bool {
    match cursor.rest.first() {
        Some(placed) => is_sign(&placed.word, sign),
        None => false,
    }
}

pub(crate) fn is_at_name(cursor: &Cursor<'_>) -> bool {
    match cursor.rest.first() {
        Some(placed) => as_name(&placed.word).is_some(),
        None => false,
    }
}

/// Goes on behind the sign.
#[tactic(auto, using(fp_commands::proofs::Steps::at_front))]
pub(crate) fn take_sign(cursor: &mut Cursor<'_>, sign: Sign) -> Result<(), SyntaxFault>
    ensures reads { OnOk result (WordAt (sign_word sign) cursor.old.rest.now cursor.new.rest.now) }
    ensures shorter { OnOk result (length cursor.new.rest.now < length cursor.old.rest.now) }
{
    if let Some((placed, rest)) = cursor.rest.split_first() {
        if is_sign(&placed.word, sign) {
            cursor.rest = rest;
            return Ok(());
        }
    }
    Err(refused(cursor))
}

/// The name that stands there; goes on behind it.
#[tactic(auto, using(fp_commands::proofs::Steps::name_front))]
pub(crate) fn take_name(cursor: &mut Cursor<'_>) -> Result<Name, SyntaxFault>
    ensures reads { IfOk result (λ x. NameAt cursor.old.rest.now x cursor.new.rest.now) }
    ensures shorter { OnOk result (length cursor.new.rest.now < length cursor.old.rest.now) }
{
    if let Some((placed, rest)) = cursor.rest.split_first() {
        if let Some(name) = as_name(&placed.word) {
            let name = name.copy()?;
            cursor.rest = rest;
            return Ok(name);
        }
    }
    Err(refused(cursor))
}
