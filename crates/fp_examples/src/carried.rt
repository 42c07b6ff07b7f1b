//! A run carried out, on real files and a sink in memory.
ghost use Rattle.std.specs.Prelude.{◌<◌, ◌-◌, ◌^◌};

use crate::wanted::{Wanted, wanted_of};
use fp_measure::{DeclaredSource, MeasureSource, SizeSource};
use fp_outside::{MemSink, RealFiles};
use fp_run::run;
use fp_theory::Theory;
use std::alloc::AllocError;

// How many bytes more than are wanted may be written, so that a longer text is seen.
const MORE: usize = 1;

// Runs the words on a new theory, with sizes and then declared measures.
fn status_of(rt: &HostRuntime, words: &[String], sink: &mut MemSink) -> Result<u8, AllocError>
    requires { sink.old.failures < 2 ^ 64 - 1 }
{
    let alloc = rt.alloc();
    let mut files = RealFiles::new(rt);
    let mut theory = Theory::new(alloc)?;
    let mut sources: Vec<Box<dyn MeasureSource + Send + Sync>> = Vec::new(alloc);
    sources.push(Box::new(alloc, SizeSource::new(alloc))?)?;
    sources.push(Box::new(alloc, DeclaredSource::new(alloc))?)?;
    Ok(run(alloc, words, &mut files, sink, &mut theory, sources))
}

fn is_as_wanted(rt: &HostRuntime, wanted: &Wanted) -> Result<bool, AllocError> {
    let room = wanted.text.len().saturating_add(MORE);
    let mut sink = MemSink::with_room(rt.alloc(), room)?;
    let status = status_of(rt, &wanted.words, &mut sink)?;
    Ok(status == wanted.status && sink.written() == wanted.text.as_slice())
}

/// Whether the run of a line has the status and the text that are wanted.
pub(crate) fn comes_out(rt: &HostRuntime, line: &str) -> bool {
    match wanted_of(rt, line) {
        Some(wanted) => is_as_wanted(rt, &wanted).unwrap_or(false),
        None => false,
    }
}
