//! Reads the full form byte by byte, with the open forms on stacks of its own.
ghost use Rattle.std.specs.Prelude.{◌≡◌, ◌≤◌, ◌<◌, ◌+◌, ◌^◌, length, MatchResult, MatchOption};
ghost use Rattle.fp_full.specs.Texts.{opened_by, letters};
ghost use Rattle.fp_full.specs.Machine.{open_word};
ghost use Rattle.fp_full.specs.Views.{asked, phase_of};
ghost use Rattle.fp_full.specs.Reads.{Advances, StopsBy, KeepsOn, EndsAs, Answers};
ghost use Rattle.fp_full.specs.Views.{parsed_of};

use crate::fault::FullFault;
use crate::lexicon;
use crate::parsed::{Kind, Parsed};
use crate::phase::{self, Phase};
use std::alloc::Global;

// What is known between two bytes: the phase, and how many parentheses are open.
#[derive(Drop)]
struct Progress {
    phase: Phase,
    depth: u32,
}

// One more parenthesis, or one less.
fn depth_with(depth: u32, byte: u8) -> u32
    requires { depth ≤ 200 }
    ensures { result ≡ opened_by depth byte }
{
    match byte {
        b'(' => depth + 1,
        b')' => depth.saturating_sub(1),
        _ => depth,
    }
}

// Where the open word begins, if it has more than 64 bytes after the byte at the place.
fn overlong(phase: &Phase, at: u32) -> Option<u32>
    requires { length (open_word (phase_of phase.now)) ≤ at + 1 }
    ensures { MatchOption result (letters (open_word (phase_of phase.now)) ≤ 64) (λ first. (64 < letters (open_word (phase_of phase.now))) × (first + length (open_word (phase_of phase.now)) ≡ at + 1)) }
{
    match phase {
        Phase::Between(_) => None,
        Phase::InWord { word, .. } => {
            if lexicon::letter_count(word) > 64 {
                Some((at as usize + 1 - word.len()) as u32)
            } else {
                None
            }
        }
    }
}

// Within the limits, or why not, after the byte at the place.
fn within_limits(phase: Phase, depth: u32, at: u32) -> Result<Progress, FullFault>
    requires { length (open_word (phase_of phase)) ≤ at + 1 }
    ensures { KeepsOn (phase_of phase) depth at result }
{
    if depth > 200 {
        return Err(FullFault::TooDeep(at));
    }
    match overlong(&phase, at) {
        Some(first) => Err(FullFault::NameTooLong(first)),
        None => Ok(Progress { phase, depth }),
    }
}

// Reads on by the byte at the place.
fn advance(alloc: Global, progress: Progress, byte: u8, at: u32) -> Result<Progress, FullFault>
    requires shallow { progress.depth ≤ 200 }
    requires open { length (open_word (phase_of progress.phase)) ≤ at }
    ensures { MatchResult result (λ next. Advances (phase_of progress.phase) progress.depth byte at (phase_of next.phase) next.depth) (StopsBy (phase_of progress.phase) progress.depth byte at) }
{
    let depth = depth_with(progress.depth, byte);
    match progress.phase.after(alloc, byte, at) {
        Ok(Some(next)) => within_limits(next, depth, at),
        Ok(None) => Err(FullFault::Refused(at)),
        Err(_) => Err(FullFault::NoMemory),
    }
}

// What the whole text is, or that it ends early.
fn finish(alloc: Global, phase: Phase, length: u32) -> Result<Parsed, FullFault>
    ensures { EndsAs (phase_of phase) length result }
{
    match phase.end(alloc, length) {
        Ok(Some(parsed)) => Ok(parsed),
        Ok(None) => Err(FullFault::Refused(length)),
        Err(_) => Err(FullFault::NoMemory),
    }
}

// What the bytes are a text of, or the first place at fault.
pub(crate) fn read(alloc: Global, bytes: &[u8], kind: Kind) -> Result<Parsed, FullFault>
    requires { length bytes.now < 2 ^ 32 }
    ensures { Answers (asked kind) bytes.now result }
{
    let mut progress = Progress {
        phase: phase::start(alloc, kind),
        depth: 0,
    };
    for (at, byte) in bytes.iter().enumerate() {
        match advance(alloc, progress, *byte, at as u32) {
            Ok(next) => progress = next,
            Err(fault) => return Err(fault),
        }
    }
    finish(alloc, progress.phase, bytes.len() as u32)
}
