//! Counts of calls and of failures, which stop at `u64::MAX`.
ghost use Rattle.std.specs.Prelude.{◌≡◌, ◌≤◌, None};
ghost use Rattle.fp_outside.specs.Causes.{next_count};
ghost use Rattle.fp_outside.specs.Memory.{is_due};

use crate::Failed;

// Counts a failure.
pub(crate) fn count_failure(failures: &mut u64) -> Failed
    ensures counted { failures.new ≡ next_count failures.old }
    ensures later { failures.old ≤ failures.new }
{
    *failures = failures.saturating_add(1);
    Failed
}

// The calls of an object in memory: how many there were, the number of the one that is to fail, and
// how many failed.
#[derive(Clone, Copy)]
pub(crate) struct Calls {
    pub(crate) made: u64,
    pub(crate) fails: Option<u64>,
    pub(crate) failures: u64,
}

impl Calls {
    pub(crate) fn new() -> Self
        ensures { result ≡ record { made = 0; fails = None; failures = 0 } }
    {
        Calls {
            made: 0,
            fails: None,
            failures: 0,
        }
    }

    // Counts a call, and says whether it is to fail.
    pub(crate) fn next_fails(&mut self) -> bool
        ensures due { result ≡ is_due self.old.made self.old.fails }
        ensures counted { self.new ≡ record self.old { made = next_count self.old.made } }
    {
        self.made = self.made.saturating_add(1);
        self.fails == Some(self.made)
    }
}
