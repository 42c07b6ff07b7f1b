//! Reads a theory file from the standard input, and prints its commands with the places of all parts, or why there are
//! none.
#![tactic(auto)]

mod answer;
#[cfg(test)]
mod tests;
mod text;
mod trees;

use std::io;
use std::io::{Read, Write};

fn main(rt: HostRuntime) -> io::Result<()> {
    let mut bytes = Vec::new(rt.alloc());
    rt.stdin().read_to_end(&mut bytes)?;
    let text = answer::of_file(rt.alloc(), bytes.as_slice())?;
    io::writer(&rt).write_all(text.as_slice())?;
    Ok(())
}
