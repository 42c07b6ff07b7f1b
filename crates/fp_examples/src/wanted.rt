//! What is wanted of a run: its status, its words and its text.

use fp_outside::{RealFiles, read_all};
use std::alloc::{AllocError, Global};

// The most bytes of a text.
const ROOM: usize = 4194304;

/// A run that is wanted.
#[derive(Drop)]
pub(crate) struct Wanted {
    pub(crate) status: u8,
    pub(crate) words: Vec<String>,
    pub(crate) text: Vec<u8>,
}

fn words_of(alloc: Global, line: &str) -> Result<Vec<String>, AllocError> {
    let mut words = Vec::new(alloc);
    for word in line.split(' ') {
        words.push(String::from_str(alloc, word)?)?;
    }
    Ok(words)
}

// The ending of the files whose texts are wanted.
fn ending_of(words: &[String]) -> &'static str {
    for word in words {
        if word.as_str() == "--full" {
            return ".full";
        }
    }
    ".out"
}

// Puts the text that stands beside the theory file at the end.
fn push_text(rt: &HostRuntime, text: &mut Vec<u8>, stem: &str, ending: &str) -> Option<()> {
    let name = format!(in rt.alloc(); "{stem}{ending}").ok()?;
    let mut files = RealFiles::new(rt);
    let bytes = read_all(rt.alloc(), &mut files, name.as_str(), ROOM).ok()?;
    text.extend_from_slice(&bytes).ok()
}

/// What a line asks for, and nothing where it is malformed or a text isn't there.
pub(crate) fn wanted_of(rt: &HostRuntime, line: &str) -> Option<Wanted> {
    let (status, words) = line.split_once(' ')?;
    let status = status.parse::<u8>().ok()?;
    let words = words_of(rt.alloc(), words).ok()?;
    let ending = ending_of(&words);
    let mut text = Vec::new(rt.alloc());
    for word in &words {
        if let Some(stem) = word.as_str().strip_suffix(".hol") {
            push_text(rt, &mut text, stem, ending)?;
        }
    }
    Some(Wanted {
        status,
        words,
        text,
    })
}
