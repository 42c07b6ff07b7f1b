//! What the two sources keep of what they are told.
use crate::written::{ITSELF, NAT, NEXT, PAIR, have_texts, tell, ty};
use fp_measure::{DeclKind, DeclaredSource, MeasureSource, SizeSource};
use std::test::Fail;

#[test]
fn last_size_of_a_type(rt: HostRuntime) -> Result<(), Fail> {
    let alloc = rt.alloc();
    let nat = ty(alloc, NAT)?;
    let mut source = SizeSource::new(alloc);
    tell(alloc, &mut source, DeclKind::Size, NAT, ITSELF)?;
    have_texts(&rt, alloc, source.measures(&nat)?.as_slice(), &[ITSELF])?;
    tell(alloc, &mut source, DeclKind::Size, NAT, NEXT)?;
    have_texts(&rt, alloc, source.measures(&nat)?.as_slice(), &[NEXT])?;
    tell(alloc, &mut source, DeclKind::Measure, NAT, ITSELF)?;
    have_texts(&rt, alloc, source.measures(&nat)?.as_slice(), &[NEXT])?;
    let pair = ty(alloc, PAIR)?;
    have_texts(&rt, alloc, source.measures(&pair)?.as_slice(), &[])?;
    Ok(())
}

#[test]
fn each_measure_once(rt: HostRuntime) -> Result<(), Fail> {
    let alloc = rt.alloc();
    let nat = ty(alloc, NAT)?;
    let mut source = DeclaredSource::new(alloc);
    tell(alloc, &mut source, DeclKind::Measure, NAT, ITSELF)?;
    tell(alloc, &mut source, DeclKind::Measure, NAT, ITSELF)?;
    have_texts(&rt, alloc, source.measures(&nat)?.as_slice(), &[ITSELF])?;
    tell(alloc, &mut source, DeclKind::Size, NAT, NEXT)?;
    have_texts(&rt, alloc, source.measures(&nat)?.as_slice(), &[ITSELF])?;
    tell(alloc, &mut source, DeclKind::Measure, NAT, NEXT)?;
    have_texts(
        &rt,
        alloc,
        source.measures(&nat)?.as_slice(),
        &[ITSELF, NEXT],
    )?;
    Ok(())
}
