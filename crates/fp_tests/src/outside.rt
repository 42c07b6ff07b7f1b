//! Files and sinks in memory, and real ones.
ghost use Rattle.std.specs.Prelude.{◌≡◌, IfOk};

use fp_outside::{
    Files, MemFiles, MemSink, ReadFault, RealFiles, Sink, StdSink, read_all, write_all,
};
use std::alloc::{AllocError, Global};

fn add_files(files: &mut MemFiles) -> Result<(), AllocError>
    ensures { files.new.failures ≡ files.old.failures }
{
    files.add("a", b"other")?;
    files.add("b", b"bytes")?;
    files.add("b", b"later")
}

// Three files, of which one call fails.
fn three_files(alloc: Global, fails: u64) -> Result<MemFiles, AllocError>
    ensures { IfOk result (λ files. files.failures ≡ 0) }
{
    let mut files = MemFiles::new(alloc);
    add_files(&mut files)?;
    files.fail_at(fails);
    Ok(files)
}

// The file that is read with that room while one call fails, and why it isn't.
struct Reading {
    name: &'static str,
    room: usize,
    fails: u64,
    fault: Option<ReadFault>,
}

fn read(alloc: Global, row: &Reading) -> Result<Vec<u8>, ReadFault> {
    let mut files = three_files(alloc, row.fails)?;
    read_all(alloc, &mut files, row.name, row.room)
}

// Where there is no fault, five bytes are read.
fn is_read(alloc: Global, row: &Reading) -> bool {
    match read(alloc, row) {
        Ok(bytes) => row.fault.is_none() && bytes.as_slice() == b"bytes".as_slice(),
        Err(fault) => row.fault == Some(fault),
    }
}

const WHOLE_FILES: &[Reading] = &[
    Reading {
        name: "b",
        room: 5,
        fails: 0,
        fault: None,
    },
    Reading {
        name: "b",
        room: 100,
        fails: 4,
        fault: None,
    },
    Reading {
        name: "b",
        room: 4,
        fails: 0,
        fault: Some(ReadFault::TooLong),
    },
];

#[test]
fn whole_files(rt: HostRuntime) {
    for row in WHOLE_FILES {
        assert!(rt; is_read(rt.alloc(), row), "{}", row.room);
    }
}

// Each call fails in turn: the opening, the reading of the bytes, and the reading at the end.
const FAILING_READS: &[Reading] = &[
    Reading {
        name: "b",
        room: 5,
        fails: 1,
        fault: Some(ReadFault::Failed),
    },
    Reading {
        name: "b",
        room: 5,
        fails: 2,
        fault: Some(ReadFault::Failed),
    },
    Reading {
        name: "b",
        room: 5,
        fails: 3,
        fault: Some(ReadFault::Failed),
    },
    Reading {
        name: "c",
        room: 5,
        fails: 0,
        fault: Some(ReadFault::Failed),
    },
];

#[test]
fn failing_reads(rt: HostRuntime) {
    for row in FAILING_READS {
        assert!(rt; is_read(rt.alloc(), row), "{} {}", row.name, row.fails);
    }
}

// The sink's room, the call that fails, and what is written of five bytes.
type Writing = (usize, u64, &'static str);

const WRITINGS: &[Writing] = &[(5, 0, "bytes"), (5, 2, "bytes"), (3, 0, "byt"), (3, 1, "")];

fn has_written(sink: &MemSink, whole: bool, written: &[u8]) -> bool {
    sink.written() == written
        && whole == (written.len() == 5)
        && sink.faults() == if whole { 0 } else { 1 }
}

fn is_written(alloc: Global, row: &Writing) -> Result<bool, AllocError> {
    let mut sink = MemSink::with_room(alloc, row.0)?;
    sink.fail_at(row.1);
    let whole = write_all(&mut sink, b"bytes").is_ok();
    Ok(has_written(&sink, whole, row.2.as_bytes()))
}

#[test]
fn failing_writes(rt: HostRuntime) {
    for row in WRITINGS {
        assert!(rt; is_written(rt.alloc(), row) == Ok(true), "{row:?}");
    }
}

#[test]
fn real_files(rt: HostRuntime) {
    let mut files = RealFiles::new(&rt);
    assert!(rt; files.open("no such file").is_err());
    assert!(rt; files.faults() == 1);
}

#[test]
fn real_sink(rt: HostRuntime) {
    let mut sink = StdSink::new(&rt);
    assert!(rt; write_all(&mut sink, b"a line of a test\n").is_ok());
    assert!(rt; sink.faults() == 0);
}
