//! Reads theory files from the standard input, one a line, and prints each of their terms as it is typed over a small
//! signature, in the full form, or why it has no type.
#![tactic(auto)]

mod answer;
mod signature;

use std::io;
use std::io::{BufRead, BufReader, Write};

fn main(rt: HostRuntime) -> io::Result<()> {
    let signature = signature::small(rt.alloc())?;
    for line in BufReader::new(rt.alloc(), rt.reader())?.lines(rt.alloc()) {
        let line = line?;
        let text = answer::of_line(rt.alloc(), &signature, line.as_str().as_bytes())?;
        io::writer(&rt).write_all(text.as_slice())?;
    }
    Ok(())
}
