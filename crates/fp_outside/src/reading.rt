//! The reading of a whole file.
ghost use Rattle.std.specs.Prelude.{◌≡◌, ◌≤◌, ◌<◌, ◌-◌, ◌^◌, ◌↔◌, [], length, vec_len, if◌then◌else◌, IfOk, OnOk, IsTrue};
ghost use Rattle.std.specs.Result.{IsErrOf};
ghost use Rattle.std.specs.Io.KnownBytes.{Consumes, IsAtEnd};
ghost use Rattle.fp_outside.specs.Held.{Has, IsNamed, IsLonger, HasMore};
ghost use Rattle.fp_outside.specs.Opened.{one_more};
ghost use Rattle.fp_outside.specs.Reading.{LeavesCurrent};
ghost use Rattle.fp_outside.specs.declared.reading.ReadFault.TheVariants as fault;

use crate::{Failed, Files};
use std::alloc::{AllocError, Global};

/// Why a file wasn't read whole.
#[derive(Clone, Copy, Debug, PartialEq, Eq)]
pub enum ReadFault {
    /// A call of `open` or `read` failed.
    Failed,
    /// The file has more bytes than there is room for.
    TooLong,
    /// Memory ran out.
    NoMemory,
}

impl From<Failed> for ReadFault {
    ghost from_gives = { λ _ e. e ≡ fault.Failed };

    fn from(_: Failed) -> Self {
        ReadFault::Failed
    }
}

impl From<AllocError> for ReadFault {
    ghost from_gives = { λ _ e. e ≡ fault.NoMemory };

    fn from(_: AllocError) -> Self {
        ReadFault::NoMemory
    }
}

// How many bytes a read takes at most.
const PIECE: usize = 4096;

/// All bytes of the named file, at most `room` of them. The file stays current, unless it could not
/// be opened.
///
/// `Failed` comes exactly where the count of the files rose. Want of memory apart, `TooLong` comes
/// exactly where no call failed and the file has more than `room` bytes.
pub fn read_all<F: Files>(
    alloc: Global,
    files: &mut F,
    name: &str,
    room: usize,
) -> Result<Vec<u8>, ReadFault>
    requires { F.faults files.old < 2 ^ 64 - 1 }
    ensures whole { IfOk result (λ bytes. Has (F.held files.old) name.now bytes.items) }
    ensures fits { IfOk result (λ bytes. length bytes.items ≤ room) }
    ensures end { IfOk result (λ _. IsAtEnd (F.left files.new)) }
    ensures too_long { IsErrOf result ReadFault.TooLong
        → IsLonger (F.held files.old) name.now room }
    ensures failed { IsErrOf result ReadFault.Failed
        ↔ (F.faults files.old < F.faults files.new) }
    ensures counts { F.faults files.old ≤ F.faults files.new }
    ensures held { F.held files.new ≡ F.held files.old }

    // No other file is opened. It is current exactly where it was opened, and it was opened unless a
    // call failed.
    ensures named { IsTrue (F.current files.new) → IsNamed (F.named files.new) name.now }
    ensures opened { F.opened files.new
        ≡ (if F.current files.new then one_more (F.opened files.old) else F.opened files.old) }
    ensures current { LeavesCurrent result (F.current files.new) }
{
    files.open(name)?;
    let mut bytes = Vec::new(alloc);
    read_rest(files, &mut bytes, room)?;
    Ok(bytes)
}

// Reads what is left of the current file. Each turn of the loop takes one byte at least.
fn read_rest<F: Files>(files: &mut F, bytes: &mut Vec<u8>, room: usize) -> Result<(), ReadFault>
    requires current { IsTrue (F.current files.old) }
    requires counts { F.faults files.old < 2 ^ 64 - 1 }
    requires empty { bytes.old.items ≡ [] }
    ensures whole { OnOk result (Consumes (F.left files.old) (F.left files.new) bytes.new.items) }
    ensures end { OnOk result (IsAtEnd (F.left files.new)) }
    ensures fits { OnOk result (vec_len bytes.new ≤ room) }
    ensures too_long { IsErrOf result ReadFault.TooLong → HasMore (F.left files.old) room }
    ensures failed { IsErrOf result ReadFault.Failed
        ↔ (F.faults files.old < F.faults files.new) }
    ensures counts { F.faults files.old ≤ F.faults files.new }
    ensures held { F.held files.new ≡ F.held files.old }
    ensures named { F.named files.new ≡ F.named files.old }
    ensures opened { F.opened files.new ≡ F.opened files.old }
    ensures current { IsTrue (F.current files.new) }
{
    let mut piece = [0u8; PIECE];
    loop {
        let count = files.read(&mut piece)?;
        if count == 0 {
            return Ok(());
        }
        if count > room - bytes.len() {
            return Err(ReadFault::TooLong);
        }
        bytes.extend_from_slice(&piece[..count])?;
    }
}
