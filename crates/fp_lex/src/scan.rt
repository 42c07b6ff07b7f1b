//! The walk over the bytes.
ghost use Rattle.std.specs.Prelude.{◌≡◌, ◌<◌, ◌^◌, ◌++◌, ◌∷◌, [], length, IfOk, false};
ghost use Rattle.fp_lex.specs.Lexes.{Outcome, Lexes, Lexed, Is, quoted_after};

use crate::piece::{Piece, front};
use crate::token::{LexFault, Token, TokenKind};
use std::alloc::{AllocError, Global};

// Whether what follows the token is inside quotes.
fn is_quoted_after(kind: TokenKind, quoted: bool) -> bool
    ensures { result ≡ quoted_after kind quoted }
{
    match kind {
        TokenKind::Quote => !quoted,
        _ => quoted,
    }
}

fn with(mut tokens: Vec<Token>, token: Token) -> Result<Vec<Token>, AllocError>
    ensures { IfOk result (λ v. v.items ≡ tokens.items ++ token ∷ []) }
{
    tokens.push(token)?;
    Ok(tokens)
}

fn scan_all(alloc: Global, bytes: &[u8]) -> Result<Vec<Token>, LexFault>
    requires { length bytes.now < 2 ^ 32 }
    ensures { Lexed bytes.now result }
{
    let mut tokens = Vec::new(alloc);
    let mut quoted = false;
    let mut at = 0usize;
    while at < bytes.len() {
        match front(quoted, &bytes[at..]) {
            Piece::Between(size) => at += size,
            Piece::Token(kind, size) => {
                let token = Token {
                    kind,
                    from: at as u32,
                    to: (at + size) as u32,
                };
                tokens = with(tokens, token)?;
                quoted = is_quoted_after(kind, quoted);
                at += size;
            }
            Piece::Bad(behind) => return Err(LexFault::BadByte((at + behind) as u32)),
            Piece::Open => return Err(LexFault::OpenQuote(at as u32)),
            Piece::Long => return Err(LexFault::NameTooLong(at as u32)),
        }
    }
    Ok(tokens)
}

/// The tokens of the bytes, or their first fault. Places are below 2^32: more bytes answer want of memory.
pub fn tokens(alloc: Global, bytes: &[u8]) -> Result<Vec<Token>, LexFault>
    // The tokens of the file, or its first fault.
    ensures found { Lexed bytes.now result }

    // There is no other outcome.
    ensures only { (out : Outcome) → Lexes false 0 bytes.now out → Is out result }
{
    if bytes.len() >= 4294967296 {
        return Err(LexFault::NoMemory);
    }
    scan_all(alloc, bytes)
}
