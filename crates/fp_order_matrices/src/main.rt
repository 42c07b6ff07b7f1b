//! Reads grids with the entries of their cells, one a line, and prints what the search finds.
#![tactic(auto)]

mod read;
mod show;

use std::io;

fn main(rt: HostRuntime) -> io::Result<()> {
    for line in rt.lines(rt.alloc()) {
        let line = line?;
        let text = show::answer(rt.alloc(), line.as_str().as_bytes())?;
        println!(rt; "{text}")?;
    }
    Ok(())
}
