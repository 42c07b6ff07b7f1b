//! The measures of a pair, by those of its parts and its own.
use crate::written::{ITSELF, NAT, PAIR, SUM, have_texts, tell, ty};
use fp_measure::{DeclKind, DeclaredSource, MeasureSource, SizeSource, generate};
use std::alloc::{AllocError, Global};
use std::test::Fail;

/// `%a. fst a` and `%a. snd a`
const LEFT: &str = "(l (prod (nat) (nat)) (a (c fst (fun (prod (nat) (nat)) (nat))) (b 0)))";

const RIGHT: &str = "(l (prod (nat) (nat)) (a (c snd (fun (prod (nat) (nat)) (nat))) (b 0)))";

// The size of a number, and the sum of a pair.
fn sources(alloc: Global) -> Result<Vec<Box<dyn MeasureSource + Send + Sync>>, AllocError> {
    let mut sizes = SizeSource::new(alloc);
    tell(alloc, &mut sizes, DeclKind::Size, NAT, ITSELF)?;
    let mut declared = DeclaredSource::new(alloc);
    tell(alloc, &mut declared, DeclKind::Measure, PAIR, SUM)?;
    let mut sources: Vec<Box<dyn MeasureSource + Send + Sync>> = Vec::new(alloc);
    sources.push(Box::new(alloc, sizes)?)?;
    sources.push(Box::new(alloc, declared)?)?;
    Ok(sources)
}

#[test]
fn measures_of_a_pair(rt: HostRuntime) -> Result<(), Fail> {
    let alloc = rt.alloc();
    let sources = sources(alloc)?;
    let pair = ty(alloc, PAIR)?;
    let all = generate(alloc, sources.as_slice(), &pair, 6)?;
    have_texts(&rt, alloc, all.as_slice(), &[LEFT, RIGHT, SUM])?;
    let first = generate(alloc, sources.as_slice(), &pair, 2)?;
    have_texts(&rt, alloc, first.as_slice(), &[LEFT, RIGHT])?;
    Ok(())
}

#[test]
fn measures_of_a_number(rt: HostRuntime) -> Result<(), Fail> {
    let alloc = rt.alloc();
    let sources = sources(alloc)?;
    let nat = ty(alloc, NAT)?;
    let all = generate(alloc, sources.as_slice(), &nat, 6)?;
    have_texts(&rt, alloc, all.as_slice(), &[ITSELF])?;
    Ok(())
}
