//! Files to read from and places to write to, as traits that count their faults.
//!
//! A fault is told only where the count of its object rose, so a caller that knows the counts before
//! and after knows whether a call to the outside failed.
#![tactic(auto)]

mod counting;
mod files;
mod memory;
mod reading;
mod real;
mod sink;
mod sink_memory;

pub use files::{Failed, Files};
pub use memory::MemFiles;
pub use reading::{ReadFault, read_all};
pub use real::{RealFiles, StdSink};
pub use sink::{Sink, write_all};
pub use sink_memory::MemSink;
