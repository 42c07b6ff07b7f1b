//! The examples: runs theory files, and compares what is written with the texts that stand beside them.
//!
//! A line of the input is the status that is wanted and the words of a run. The text that is wanted is what stands
//! beside its files, one after the other: in `NAME.out` for `NAME.hol`, or in `NAME.full` where the words ask for the full form.
#![tactic(auto)]

mod carried;
mod wanted;

use carried::comes_out;
use std::io;

fn main(rt: HostRuntime) -> io::Result<()> {
    let mut count: u64 = 0;
    for line in rt.lines(rt.alloc()) {
        let line = line?;
        if !comes_out(&rt, line.as_str()) {
            println!(rt; "differs: {line}")?;
        }
        count = count.saturating_add(1);
    }
    println!(rt; "{count} runs")
}
