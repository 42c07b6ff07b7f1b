//! The full form, read and printed.
use crate::terms::{has_text, term};
use fp_full::{
    Definition, FullFault, print_full, read_definitions, read_definitions_at, read_full,
    read_full_term,
};
use fp_term::Statement;
use std::alloc::{AllocError, Global};

// A text, and what is printed of what it says.
type Row = (&'static str, &'static str);

const TERMS: &[Row] = &[
    ("(b 0)", "(b 0)"),
    (" ( b\t4294967295 )\r\n", "(b 4294967295)"),
    ("(v b 'b)", "(v b 'b)"),
    ("(l(fun(bool)'a)(b 0))", "(l (fun (bool) 'a) (b 0))"),
    ("(a(c s(s))(c h(h)))", "(a (c s (s)) (c h (h)))"),
];

fn is_printed(alloc: Global, row: &Row) -> Result<bool, AllocError> {
    has_text(alloc, &term(alloc, row.0)?, row.1)
}

#[test]
fn terms_read_and_printed(rt: HostRuntime) {
    for row in TERMS {
        assert!(rt; is_printed(rt.alloc(), row) == Ok(true), "{row:?}");
    }
}

const STATEMENTS: &[Row] = &[
    ("(s(h)(c T(bool)))", "(s (h) (c T (bool)))"),
    (
        "(s (h (b 0)(v x 'a)) (b 1))",
        "(s (h (b 0) (v x 'a)) (b 1))",
    ),
];

fn statement(alloc: Global, text: &str) -> Result<Statement, FullFault> {
    if text.len() > 1000 {
        return Err(FullFault::NoMemory);
    }
    read_full(alloc, text.as_bytes())
}

fn states(alloc: Global, statement: &Statement, text: &str) -> Result<bool, AllocError> {
    Ok(print_full(alloc, statement)?.as_slice() == text.as_bytes())
}

fn is_stated(alloc: Global, row: &Row) -> Result<bool, AllocError> {
    match statement(alloc, row.0) {
        Ok(statement) => states(alloc, &statement, row.1),
        Err(_) => Err(AllocError),
    }
}

fn is_no_statement(alloc: Global, text: &str, at: u32) -> bool {
    statement(alloc, text).err() == Some(FullFault::Refused(at))
}

#[test]
fn statements_read_and_printed(rt: HostRuntime) {
    for row in STATEMENTS {
        assert!(rt; is_stated(rt.alloc(), row) == Ok(true), "{row:?}");
    }
    assert!(rt; is_no_statement(rt.alloc(), "(s (b 0))", 4));
}

fn fault_of(alloc: Global, text: &[u8]) -> Option<FullFault> {
    if text.len() > 100000 {
        return Some(FullFault::NoMemory);
    }
    read_full_term(alloc, text).err()
}

// A text, and the first byte with which no text begins.
const BAD_PLACES: &[(&str, u32)] = &[
    ("", 0),
    ("b", 0),
    ("(bb 0)", 2),
    ("(b0)", 2),
    ("(b 00)", 4),
    ("(b 01)", 4),
    ("(b 4294967296)", 12),
    ("(b 0", 4),
    ("(b 0))", 5),
    ("(v 0 'a)", 3),
    ("(v x 'a'b ')", 10),
    ("(l 'a (b 0) (b 0))", 12),
];

fn is_bad_at(alloc: Global, text: &str, at: u32) -> bool {
    fault_of(alloc, text.as_bytes()) == Some(FullFault::Refused(at))
}

#[test]
fn bad_places(rt: HostRuntime) {
    for (text, at) in BAD_PLACES {
        assert!(rt; is_bad_at(rt.alloc(), text, *at), "{text}");
    }
}

fn repeat(text: &mut Vec<u8>, piece: &[u8], count: usize) -> Result<(), AllocError> {
    for _ in 0..count {
        text.extend_from_slice(piece)?;
    }
    Ok(())
}

// A variable of so many letters, below so many abstractions.
fn push_long(text: &mut Vec<u8>, abstractions: usize, letters: usize) -> Result<(), AllocError> {
    repeat(text, b"(l 'a ", abstractions)?;
    text.extend_from_slice(b"(v ")?;
    repeat(text, b"n", letters)?;
    text.extend_from_slice(b" '")?;
    repeat(text, b"t", letters)?;
    repeat(text, b")", abstractions)?;
    text.extend_from_slice(b")")
}

// The abstractions, the letters, and the fault.
type Long = (usize, usize, Option<FullFault>);

const LIMITS: &[Long] = &[
    (199, 64, None),
    (200, 1, Some(FullFault::TooDeep(1200))),
    (0, 65, Some(FullFault::NameTooLong(3))),
];

fn is_limited(alloc: Global, row: &Long) -> Result<bool, AllocError> {
    let mut text = Vec::new(alloc);
    push_long(&mut text, row.0, row.1)?;
    Ok(fault_of(alloc, &text) == row.2)
}

#[test]
fn limits(rt: HostRuntime) {
    for row in LIMITS {
        assert!(rt;
            is_limited(rt.alloc(), row) == Ok(true),
            "{} {}",
            row.0,
            row.1
        );
    }
}

const FILE: &str = " definition a={(b 0)}definition b = {(b 1)}\n";

fn is_definition(definition: &Definition, at: u32, brace: u32, name: &str) -> bool {
    definition.at == at
        && definition.brace == brace
        && definition.name.as_slice() == name.as_bytes()
}

fn are_found(definitions: &[Definition]) -> bool {
    match definitions {
        [first, second] => is_definition(first, 1, 14, "a") && is_definition(second, 21, 36, "b"),
        _ => false,
    }
}

fn file_is_read(alloc: Global, text: &[u8]) -> Result<bool, FullFault> {
    if text.len() > 1000 {
        return Ok(false);
    }
    Ok(are_found(&read_definitions_at(alloc, text)?))
}

fn count_read(alloc: Global, text: &[u8]) -> Result<usize, FullFault> {
    if text.len() > 1000 {
        return Ok(0);
    }
    Ok(read_definitions(alloc, text)?.len())
}

#[test]
fn files_of_definitions(rt: HostRuntime) {
    let alloc = rt.alloc();
    assert!(rt; file_is_read(alloc, FILE.as_bytes()) == Ok(true));
    assert!(rt; count_read(alloc, FILE.as_bytes()) == Ok(2));
    assert!(rt; count_read(alloc, b"definition a = {(b 0)") == Err(FullFault::Refused(21)));
}

// The words that name no constant in a file.
const RESERVED: &[&str] = &[
    "definition",
    "typedef",
    "lemma",
    "simp",
    "cong",
    "constructors",
    "size",
    "measure",
    "fun",
    "function",
    "and",
    "where",
    "proof",
    "end",
    "abs",
    "rep",
    "by",
    "if",
    "then",
    "else",
];

fn defining(alloc: Global, name: &str, after: &str) -> Result<Vec<u8>, AllocError> {
    let mut text = Vec::new(alloc);
    text.extend_from_slice(b"definition ")?;
    text.extend_from_slice(name.as_bytes())?;
    text.extend_from_slice(after.as_bytes())?;
    text.extend_from_slice(b" = {(b 0)}")?;
    Ok(text)
}

// Is a definition of the word with that after it read?
fn is_definable(alloc: Global, word: &str, after: &str) -> Result<bool, AllocError> {
    let text = defining(alloc, word, after)?;
    if text.len() > 1000 {
        return Err(AllocError);
    }
    match read_definitions(alloc, text.as_slice()) {
        Ok(_definitions) => Ok(true),
        Err(FullFault::NoMemory) => Err(AllocError),
        Err(_fault) => Ok(false),
    }
}

#[test]
fn reserved_words(rt: HostRuntime) {
    for word in RESERVED {
        assert!(rt; is_definable(rt.alloc(), word, "") == Ok(false), "{word}");
        assert!(rt; is_definable(rt.alloc(), word, "_") == Ok(true), "{word}");
    }
}
