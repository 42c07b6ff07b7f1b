//! Terms of texts with marks, and texts of what comes of a call.
use fp_full::{print_full, print_full_term, read_full_term};
use fp_kernel::{RuleFault, Thm};
use fp_term::{Name, Place, Term};
use std::alloc::{AllocError, Global};

// What a mark stands for.
fn spelled(mark: u8) -> Option<&'static [u8]> {
    match mark {
        b'?' => Some(b"(bool)"),
        b'=' => Some(b"(c eq (fun 'a (fun 'a (bool))))"),
        b'~' => Some(b"(c eq (fun (bool) (fun (bool) (bool))))"),
        b'&' => Some(b"(c and (fun (bool) (fun (bool) (bool))))"),
        b'>' => Some(b"(c imp (fun (bool) (fun (bool) (bool))))"),
        b'|' => Some(b"(c or (fun (bool) (fun (bool) (bool))))"),
        b'!' => Some(b"(c not (fun (bool) (bool)))"),
        b'^' => Some(b"(c all (fun (fun 'a (bool)) (bool)))"),
        b'%' => Some(b"(c ex (fun (fun 'a (bool)) (bool)))"),
        _ => None,
    }
}

// The full form of a text with marks.
fn full(alloc: Global, text: &str) -> Result<Vec<u8>, AllocError> {
    let mut bytes = Vec::new(alloc);
    for byte in text.as_bytes() {
        match spelled(*byte) {
            Some(meaning) => bytes.extend_from_slice(meaning)?,
            None => bytes.push(*byte)?,
        }
    }
    Ok(bytes)
}

/// The term of a text.
pub fn term(alloc: Global, text: &str) -> Result<Term, AllocError> {
    let bytes = full(alloc, text)?;
    if bytes.len() > 10000 {
        return Err(AllocError);
    }
    match read_full_term(alloc, bytes.as_slice()) {
        Ok(term) => Ok(term),
        Err(_fault) => Err(AllocError),
    }
}

/// The theorem of a rule that has to give one.
pub fn sure(answer: Result<Thm, RuleFault>) -> Result<Thm, AllocError> {
    match answer {
        Ok(theorem) => Ok(theorem),
        Err(_fault) => Err(AllocError),
    }
}

/// The name of a text.
pub fn name(alloc: Global, text: &str) -> Result<Name, AllocError> {
    Name::new(alloc, text.as_bytes())?.ok_or(AllocError)
}

fn named(alloc: Global, word: &[u8], name: &Name) -> Result<Vec<u8>, AllocError> {
    let mut text = Vec::from_slice(alloc, word)?;
    text.extend_from_slice(name.as_slice())?;
    Ok(text)
}

fn digit(step: u8) -> u8 {
    match step {
        0 => b'0',
        1 => b'1',
        _ => b'2',
    }
}

fn put_steps(text: &mut Vec<u8>, steps: &[u8]) -> Result<(), AllocError> {
    for step in steps {
        text.push(b' ')?;
        text.push(digit(*step))?;
    }
    Ok(())
}

fn ill_typed(alloc: Global, place: &Place) -> Result<Vec<u8>, AllocError> {
    let steps = place.steps(alloc)?;
    let mut text = Vec::from_slice(alloc, b"IllTyped")?;
    put_steps(&mut text, steps.as_slice())?;
    Ok(text)
}

fn put_term(alloc: Global, text: &mut Vec<u8>, term: &Term) -> Result<(), AllocError> {
    let printed = print_full_term(alloc, term)?;
    text.push(b' ')?;
    text.extend_from_slice(printed.as_slice())
}

fn differing(alloc: Global, first: &Term, second: &Term) -> Result<Vec<u8>, AllocError> {
    let mut text = Vec::from_slice(alloc, b"Differ")?;
    put_term(alloc, &mut text, first)?;
    put_term(alloc, &mut text, second)?;
    Ok(text)
}

// The fault with its arguments.
fn fault_text(alloc: Global, fault: &RuleFault) -> Result<Vec<u8>, AllocError> {
    match fault {
        RuleFault::UnknownName(name) => named(alloc, b"UnknownName ", name),
        RuleFault::IllTyped(place) => ill_typed(alloc, place),
        RuleFault::NotEquation => Vec::from_slice(alloc, b"NotEquation"),
        RuleFault::NotRedex => Vec::from_slice(alloc, b"NotRedex"),
        RuleFault::NotBool => Vec::from_slice(alloc, b"NotBool"),
        RuleFault::Shape => Vec::from_slice(alloc, b"Shape"),
        RuleFault::Differ(first, second) => differing(alloc, first, second),
        RuleFault::FreeInHyps(name) => named(alloc, b"FreeInHyps ", name),
        _ => Err(AllocError),
    }
}

fn statement_text(alloc: Global, theorem: &Thm) -> Result<Vec<u8>, AllocError> {
    let statement = theorem.statement(alloc)?;
    print_full(alloc, &statement)
}

/// The statement, or the fault.
pub fn text_of(alloc: Global, answer: Result<Thm, RuleFault>) -> Result<Vec<u8>, AllocError> {
    match answer {
        Ok(theorem) => statement_text(alloc, &theorem),
        Err(fault) => fault_text(alloc, &fault),
    }
}

/// Is that the full form of the text?
pub fn same_text(alloc: Global, found: &[u8], text: &str) -> Result<bool, AllocError> {
    let expected = full(alloc, text)?;
    Ok(found == expected.as_slice())
}

/// Is that the full form of what the theorem states?
pub fn has_text(alloc: Global, theorem: &Thm, text: &str) -> Result<bool, AllocError> {
    let found = statement_text(alloc, theorem)?;
    same_text(alloc, found.as_slice(), text)
}
