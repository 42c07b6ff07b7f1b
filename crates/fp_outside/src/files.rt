//! Files as the program sees them.
ghost use Rattle.std.specs.Prelude.{◌≡◌, ◌<◌, ◌↔◌, ℕ, List, Bool, Option, length, OnOk, IsOk, IsTrue};
ghost use Rattle.std.specs.Io.{ReadsAtMost};
ghost use Rattle.std.specs.Io.KnownBytes.{ReadConsumes};
ghost use Rattle.fp_outside.specs.Causes.{HasCause};
ghost use Rattle.fp_outside.specs.Held.{Opens, IsNamed};
ghost use Rattle.fp_outside.specs.Opened.{CountsOpen};

/// A call to the outside failed. It comes only where the count of its object rose in that call, or
/// stood at its greatest number before.
#[derive(Clone, Copy, Debug, PartialEq, Eq)]
pub struct Failed;

/// Files by name, of which one at a time is current.
pub trait Files {
    /// The names with their bytes, where it is told what the files hold. Of several files of one
    /// name the first counts.
    ghost held: { Self → Option (List (List ℕ × List ℕ)) };

    /// The bytes that are left of the current file, where it is told.
    ghost left: { Self → Option (List ℕ) };

    /// Whether a file is current.
    ghost current: { Self → Bool };

    /// The name of the current file, where it is told.
    ghost named: { Self → Option (List ℕ) };

    /// How many calls of `open` succeeded, where it is told.
    ghost opened: { Self → Option ℕ };

    /// How many calls failed. The count stops at its greatest number.
    ghost faults: { Self → ℕ };

    /// Makes the named file current, from its start. After a failure no file is current.
    fn open(&mut self, name: &str) -> Result<(), Failed>
        ensures opens { OnOk result (Opens (held self.old) name.now (left self.new)) }
        ensures named { OnOk result (IsNamed (named self.new) name.now) }
        ensures held { held self.new ≡ held self.old }
        ensures current { IsTrue (current self.new) ↔ IsOk result }
        ensures opened { CountsOpen (opened self.old) (opened self.new) result }
        ensures cause { HasCause (faults self.old) (faults self.new) result };

    /// The next bytes of the current file, to the front of `buf`. It answers how many they are, and
    /// 0 exactly at the end. The file stays current, and a call that fails takes no byte of it.
    fn read(&mut self, buf: &mut [u8]) -> Result<usize, Failed>
        requires current { IsTrue (current self.old) }
        requires room { 0 < length buf.old }
        ensures bound { ReadsAtMost result buf.new }
        ensures bytes { ReadConsumes (left self.old) (left self.new) result buf.new }
        ensures named { named self.new ≡ named self.old }
        ensures held { held self.new ≡ held self.old }
        ensures current { IsTrue (current self.new) }
        ensures opened { opened self.new ≡ opened self.old }
        ensures cause { HasCause (faults self.old) (faults self.new) result };

    /// How many calls of `open` and `read` failed. The count stops at `u64::MAX`.
    fn faults(&self) -> u64
        ensures { result ≡ faults self.now };
}
