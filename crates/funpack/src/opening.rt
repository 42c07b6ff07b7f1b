//! Files, and how many of them were to be opened.
ghost use Rattle.std.specs.Prelude.{◌≡◌};

use fp_outside::{Failed, Files};

/// Files that count the calls of `open`, up to the greatest number.
#[derive(Drop)]
pub(crate) struct Opening<F> {
    files: F,
    count: usize,
}

impl<F: Files> Opening<F> {
    /// No call was made yet.
    pub(crate) fn new(files: F) -> Self
        ensures { ⟦<Opening<F> as Files>⟧.faults result ≡ F.faults files }
    {
        Opening { files, count: 0 }
    }

    /// How many calls of `open` there were.
    pub(crate) fn count(&self) -> usize {
        self.count
    }
}

impl<F: Files> Files for Opening<F> {
    ghost held = { λ opening. F.held opening.files };

    ghost left = { λ opening. F.left opening.files };

    ghost current = { λ opening. F.current opening.files };

    ghost named = { λ opening. F.named opening.files };

    ghost opened = { λ opening. F.opened opening.files };

    ghost faults = { λ opening. F.faults opening.files };

    fn open(&mut self, name: &str) -> Result<(), Failed> {
        self.count = self.count.saturating_add(1);
        self.files.open(name)
    }

    fn read(&mut self, buf: &mut [u8]) -> Result<usize, Failed> {
        self.files.read(buf)
    }

    fn faults(&self) -> u64 {
        self.files.faults()
    }
}
