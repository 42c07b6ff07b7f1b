//! Reads rules, guards and goals, one a line, and prints what each goal becomes.
#![tactic(auto)]

mod answer;
mod asked;

use asked::{Asked, taken};
use std::io;

fn main(rt: HostRuntime) -> io::Result<()> {
    let mut asked = Asked::new(rt.alloc());
    for line in rt.lines(rt.alloc()) {
        let line = line?;
        if let Some(text) = taken(rt.alloc(), &mut asked, line.as_str())? {
            println!(rt; "{text}")?;
        }
    }
    Ok(())
}
