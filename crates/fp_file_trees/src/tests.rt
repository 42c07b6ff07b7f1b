//! Files at the limits of the reader, and one that is of another language.
ghost use Rattle.std.specs.Prelude.{false};

use fp_commands::{Body, Command};
use fp_lex::tokens;
use fp_syntax::{SyntaxFault, read_file};
use fp_term::Items;
use std::alloc::{AllocError, Global};
use std::test::Fail;

fn read(alloc: Global, bytes: &[u8]) -> Result<Items<Command>, SyntaxFault> {
    match tokens(alloc, bytes) {
        Ok(tokens) => read_file(alloc, bytes, tokens.as_slice()),
        Err(_) => Err(SyntaxFault::NoMemory),
    }
}

fn fault(alloc: Global, bytes: &[u8]) -> Option<SyntaxFault> {
    match read(alloc, bytes) {
        Ok(_) => None,
        Err(fault) => Some(fault),
    }
}

// A definition with so many negations.
fn negations(alloc: Global, count: u32) -> Result<Vec<u8>, AllocError> {
    let mut bytes = Vec::new(alloc);
    bytes.extend_from_slice(b"definition deep = \"")?;
    for _ in 0..count {
        bytes.extend_from_slice(b"~ ")?;
    }
    bytes.extend_from_slice(b"T\"")?;
    Ok(bytes)
}

// The levels of the first definition's term, or 0.
fn levels(commands: &[Command]) -> u32 {
    match commands {
        [first, ..] => match &first.body {
            Body::Definition { term, .. } => term.height(),
            _ => 0,
        },
        [] => 0,
    }
}

#[test]
fn deep_not(rt: HostRuntime) -> Result<(), Fail> {
    let alloc = rt.alloc();
    let found = match read(alloc, &negations(alloc, 199)?) {
        Ok(commands) => levels(commands.as_slice()),
        Err(_) => 0,
    };
    assert_eq!(rt; found, 200);
    let refused = fault(alloc, &negations(alloc, 200)?);
    assert!(rt; refused == Some(SyntaxFault::TooDeep(417)));
    Ok(())
}

#[test]
fn foreign_file(rt: HostRuntime) -> Result<(), Fail> {
    let refused = fault(rt.alloc(), b"theory Foo imports Main begin");
    assert!(rt; refused == Some(SyntaxFault::Refused(0)));
    Ok(())
}
