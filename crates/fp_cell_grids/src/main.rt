//! Reads groups with measures and rules, one part a line, and prints the verdicts of their cells, a line for each call.
#![tactic(auto)]

mod grid;
mod written;

use std::io;
use written::{Written, taken};

fn main(rt: HostRuntime) -> io::Result<()> {
    let mut written = Written::new(rt.alloc());
    for line in rt.lines(rt.alloc()) {
        let line = line?;
        if let Some(text) = taken(rt.alloc(), &mut written, line.as_str())? {
            print!(rt; "{text}")?;
        }
    }
    Ok(())
}
