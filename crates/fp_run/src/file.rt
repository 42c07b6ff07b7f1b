//! One file: read, carried out, and its text written.
ghost use Rattle.std.specs.Prelude.{◌≡◌, ◌<◌, ◌≤◌, ◌-◌, ◌^◌, ◌↔◌, ◌⊎◌, map, IfOk, IsTrue, if◌then◌else◌};
ghost use Rattle.std.specs.Result.{IsErrOf};
ghost use Rattle.std.specs.Io.KnownBytes.{IsAtEnd};
ghost use Rattle.fp_outside.specs.Held.{IsNamed, IsLonger};
ghost use Rattle.fp_outside.specs.Opened.{one_more};
ghost use Rattle.fp_sources.specs.Sources.{source};
ghost use Rattle.fp_command.specs.Outcome.{session};
ghost use Rattle.fp_run.specs.Report.{Reports};
ghost use Rattle.fp_run.specs.Files.{WritesFile, WritesReport, LeavesOpen};
ghost use Rattle.fp_run.specs.declared.file.FileFault.TheVariants as fault;

use fp_command::{Text, report_on, unread};
use fp_measure::MeasureSource;
use fp_outside::{Failed, Files, ReadFault, Sink, read_all, write_all};
use fp_report::{Kind, Reason};
use fp_theory::Theory;
use std::alloc::{AllocError, Global};

/// A file whose text is written: whether it was refused, and how many bytes the later files may have.
#[derive(Clone, Copy)]
pub(crate) struct Written {
    pub(crate) refused: bool,
    pub(crate) left: u32,
}

/// Why the text of a file wasn't written.
#[derive(Clone, Copy)]
pub(crate) enum FileFault {
    Files,
    Sink,
    NoMemory,
}

impl From<AllocError> for FileFault {
    ghost from_gives = { λ _ e. e ≡ fault.NoMemory };

    fn from(_: AllocError) -> FileFault {
        FileFault::NoMemory
    }
}

// The text of a file, and how many bytes the later files may have.
#[derive(Drop)]
struct Report {
    text: Text,
    left: u32,
}

// The text of the named file. It is read whole, and then its commands are carried out.
fn report_file<F: Files>(
    alloc: Global,
    full: bool,
    name: &str,
    room: u32,
    files: &mut F,
    theory: &mut Theory,
    sources: &mut [Box<dyn MeasureSource + Send + Sync>],
) -> Result<Report, FileFault>
    requires { F.faults files.old < 2 ^ 64 - 1 }
    ensures reports { IfOk result (λ r. Reports full (F.held files.old) name.now room (session theory.old (map (λ s. source (habits s) (entries s)) sources.old)) r.text.bytes.items r.text.refused (session theory.new (map (λ s. source (habits s) (entries s)) sources.new)) r.left) }
    ensures failed { IsErrOf result FileFault.Files ↔ (F.faults files.old < F.faults files.new) }
    ensures made { IsErrOf result FileFault.Sink → ⊥ }
    ensures counts { F.faults files.old ≤ F.faults files.new }
    ensures held { F.held files.new ≡ F.held files.old }
    ensures named { IsTrue (F.current files.new) → IsNamed (F.named files.new) name.now }
    ensures read { IfOk result (λ _. IsAtEnd (F.left files.new) ⊎ IsLonger (F.held files.old) name.now room) }
    ensures opened { F.opened files.new ≡ (if F.current files.new then one_more (F.opened files.old) else F.opened files.old) }
    ensures current { LeavesOpen result (F.current files.new) }
{
    match read_all(alloc, files, name, room as usize) {
        Ok(bytes) => {
            let text = report_on(alloc, full, name, &bytes, theory, sources)?;
            let left = room - bytes.len() as u32;
            Ok(Report { text, left })
        }
        Err(ReadFault::TooLong) => {
            let text = unread(alloc, full, name, room, Reason::Plain(Kind::TooLong))?;
            Ok(Report { text, left: room })
        }
        Err(ReadFault::Failed) => Err(FileFault::Files),
        Err(ReadFault::NoMemory) => Err(FileFault::NoMemory),
    }
}

// Writes the text of a report.
fn write_report<K: Sink>(sink: &mut K, report: &Report) -> Result<Written, FileFault>
    requires { K.faults sink.old < 2 ^ 64 - 1 }
    ensures writes { WritesReport (K.written sink.old) (K.written sink.new) report.now.text.bytes.items report.now.text.refused report.now.left result }
    ensures failed { IsErrOf result FileFault.Sink ↔ (K.faults sink.old < K.faults sink.new) }
    ensures counts { K.faults sink.old ≤ K.faults sink.new }
{
    match write_all(sink, report.text.bytes.as_slice()) {
        Ok(()) => Ok(Written {
            refused: report.text.refused,
            left: report.left,
        }),
        Err(Failed) => Err(FileFault::Sink),
    }
}

/// Writes the text of the named file, once it is read whole and carried out.
pub(crate) fn write_file<F: Files, K: Sink>(
    alloc: Global,
    full: bool,
    name: &str,
    room: u32,
    files: &mut F,
    sink: &mut K,
    theory: &mut Theory,
    sources: &mut [Box<dyn MeasureSource + Send + Sync>],
) -> Result<Written, FileFault>
    requires files { F.faults files.old < 2 ^ 64 - 1 }
    requires sink { K.faults sink.old < 2 ^ 64 - 1 }
    ensures writes { WritesFile full (F.held files.old) name.now room (session theory.old (map (λ s. source (habits s) (entries s)) sources.old)) (K.written sink.old) (K.written sink.new) (F.opened files.old) (F.opened files.new) (F.current files.new) result (session theory.new (map (λ s. source (habits s) (entries s)) sources.new)) }
    ensures held { F.held files.new ≡ F.held files.old }
    ensures named { IsTrue (F.current files.new) → IsNamed (F.named files.new) name.now }
    ensures current { IfOk result (λ _. IsTrue (F.current files.new)) }
    ensures read { IfOk result (λ _. IsAtEnd (F.left files.new) ⊎ IsLonger (F.held files.old) name.now room) }
    ensures quiet { IfOk result (λ _. (F.faults files.new ≡ F.faults files.old) × (K.faults sink.new ≡ K.faults sink.old)) }
    ensures files_fault { IsErrOf result FileFault.Files ↔ (F.faults files.old < F.faults files.new) }
    ensures sink_fault { IsErrOf result FileFault.Sink ↔ (K.faults sink.old < K.faults sink.new) }
    ensures files_count { F.faults files.old ≤ F.faults files.new }
    ensures sink_count { K.faults sink.old ≤ K.faults sink.new }
{
    match report_file(alloc, full, name, room, files, theory, sources) {
        Ok(report) => write_report(sink, &report),
        Err(fault) => Err(fault),
    }
}
