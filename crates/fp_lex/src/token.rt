//! Tokens, and why bytes are none.
ghost use Rattle.std.specs.Prelude.{◌≡◌};
ghost use Rattle.fp_lex.specs.declared.token.LexFault.TheVariants.{NoMemory};

use std::alloc::AllocError;

/// The kinds of tokens. A quote is a token, and those inside quotes are tokens too; braces are one token up to
/// the brace that closes them.
#[derive(Clone, Copy, Debug, PartialEq, Eq)]
pub enum TokenKind {
    Name,
    TyVar,
    Number,
    Quote,
    Braces,
    Symbol,
}

/// A token: the bytes from `from` up to `to`.
#[derive(Clone, Copy, Debug, PartialEq, Eq)]
pub struct Token {
    pub kind: TokenKind,
    pub from: u32,
    pub to: u32,
}

/// Why bytes are no tokens: the first place at fault.
#[derive(Clone, Copy, Debug, PartialEq, Eq)]
pub enum LexFault {
    /// No token or separator has this byte there.
    BadByte(u32),
    /// The quote or brace that begins there isn't closed.
    OpenQuote(u32),
    /// The name that begins there has more than 64 bytes.
    NameTooLong(u32),
    /// Memory ran out.
    NoMemory,
}

impl From<AllocError> for LexFault {
    ghost from_gives = { λ _ fault. fault ≡ NoMemory };

    fn from(_: AllocError) -> LexFault {
        LexFault::NoMemory
    }
}
