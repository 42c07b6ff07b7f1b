//! Real files and the standard output: the edge that tells nothing of contents.
ghost use Rattle.std.specs.Prelude.{◌≡◌, None, is_some, false};

use crate::counting::count_failure;
use crate::{Failed, Files, Sink};
use std::io::Read;
use std::{fs, rt};

/// The files of the system, by their paths. What they hold isn't told.
#[derive(Drop)]
pub struct RealFiles<'a, R: rt::Files> {
    rt: &'a R,
    file: Option<R::File>,
    failures: u64,
}

impl<'a, R: rt::Files> RealFiles<'a, R> {
    /// No file is current, and no call has failed.
    pub fn new(rt: &'a R) -> Self
        ensures faults { ⟦<RealFiles<'a, R> as Files>⟧.faults result ≡ 0 }
        ensures current { ⟦<RealFiles<'a, R> as Files>⟧.current result ≡ false }
    {
        RealFiles {
            rt,
            file: None,
            failures: 0,
        }
    }
}

impl<'a, R: rt::Files> Files for RealFiles<'a, R> {
    ghost held = { λ _. None };

    ghost left = { λ _. None };

    ghost named = { λ _. None };

    ghost current = { λ files. is_some files.file };

    ghost opened = { λ _. None };

    ghost faults = { λ files. files.failures };

    fn open(&mut self, name: &str) -> Result<(), Failed> {
        match fs::open(self.rt, name) {
            Ok(file) => {
                self.file = Some(file);
                Ok(())
            }
            Err(_) => {
                self.file = None;
                Err(count_failure(&mut self.failures))
            }
        }
    }

    fn read(&mut self, buf: &mut [u8]) -> Result<usize, Failed> {
        let Some(file) = &mut self.file else {
            unreachable!();
        };
        match file.read(buf) {
            Ok(count) => Ok(count),
            Err(_) => Err(count_failure(&mut self.failures)),
        }
    }

    fn faults(&self) -> u64 {
        self.failures
    }
}

/// The standard output. What was written isn't told.
#[derive(Drop)]
pub struct StdSink<'a, R: Print> {
    rt: &'a R,
    failures: u64,
}

impl<'a, R: Print> StdSink<'a, R> {
    /// No call has failed.
    pub fn new(rt: &'a R) -> Self
        ensures { ⟦<StdSink<'a, R> as Sink>⟧.faults result ≡ 0 }
    {
        StdSink { rt, failures: 0 }
    }
}

impl<'a, R: Print> Sink for StdSink<'a, R> {
    ghost written = { λ _. None };

    ghost faults = { λ sink. sink.failures };

    fn write(&mut self, piece: &[u8]) -> Result<usize, Failed> {
        match self.rt.write_some(piece) {
            Ok(count) if count > 0 => Ok(count),
            _ => Err(count_failure(&mut self.failures)),
        }
    }

    fn faults(&self) -> u64 {
        self.failures
    }
}
