//! A place to write to, and the writing of a whole text.
ghost use Rattle.std.specs.Prelude.{◌≡◌, ◌≤◌, ◌<◌, ◌-◌, ◌^◌, ◌↔◌, ℕ, List, Option, length, OnOk, IsErr};
ghost use Rattle.std.specs.Io.KnownBytes.{WriteAppends, Appends};
ghost use Rattle.fp_outside.specs.Causes.{HasCause};
ghost use Rattle.fp_outside.specs.Sink.{TakesSome, AppendsPrefix};

use crate::Failed;

/// A place that takes bytes.
pub trait Sink {
    /// The bytes that were written, where it is told.
    ghost written: { Self → Option (List ℕ) };

    /// How many calls failed. The count stops at its greatest number.
    ghost faults: { Self → ℕ };

    /// Takes bytes from the front of `piece` and answers how many: one at least, and at most all. A
    /// call that fails takes none.
    fn write(&mut self, piece: &[u8]) -> Result<usize, Failed>
        requires { 0 < length piece.now }
        ensures taken { TakesSome result (length piece.now) }
        ensures bytes { WriteAppends (written self.old) (written self.new) result piece.now }
        ensures cause { HasCause (faults self.old) (faults self.new) result };

    /// How many calls of `write` failed. The count stops at `u64::MAX`.
    fn faults(&self) -> u64
        ensures { result ≡ faults self.now };
}

/// Writes all the bytes. After a failure, which comes exactly where the count of the sink rose, a
/// prefix of them is written. It takes no memory.
pub fn write_all<K: Sink>(sink: &mut K, bytes: &[u8]) -> Result<(), Failed>
    requires { K.faults sink.old < 2 ^ 64 - 1 }
    ensures whole { OnOk result (Appends (K.written sink.old) (K.written sink.new) bytes.now) }
    ensures prefix { AppendsPrefix (K.written sink.old) (K.written sink.new) bytes.now }
    ensures failed { IsErr result ↔ (K.faults sink.old < K.faults sink.new) }
    ensures counts { K.faults sink.old ≤ K.faults sink.new }
{
    let mut done = 0;
    while done < bytes.len() {
        done += sink.write(&bytes[done..])?;
    }
    Ok(())
}
