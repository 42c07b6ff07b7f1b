//! The words that the program is called with.
use std::alloc::{Alloc, Global};
use std::env::FillError;
use std::rt::Env;
use std::{env, io};

// The environment without the program's own name, which isn't looked at.
#[derive(Drop)]
struct WithoutName<'a, R> {
    rt: &'a R,
}

impl<'a, R: Env> Env for WithoutName<'a, R> {
    fn arg(&self, i: usize, buf: &mut [u8]) -> Result<usize, FillError> {
        match i.checked_add(1) {
            Some(next) => self.rt.arg(next, buf),
            None => Err(FillError::NotPresent),
        }
    }

    fn var(&self, name: &str, buf: &mut [u8]) -> Result<usize, FillError> {
        self.rt.var(name, buf)
    }

    fn var_at(&self, i: usize, buf: &mut [u8]) -> Result<usize, FillError> {
        self.rt.var_at(i, buf)
    }
}

impl<'a, R: AllocGlobal> Alloc for WithoutName<'a, R> {
    type A = Global;

    fn alloc(&self) -> Global {
        self.rt.alloc()
    }
}

/// The words after the program's name. Words that aren't text count as none, which are malformed.
pub(crate) fn words_of(rt: &(impl Env + AllocGlobal)) -> io::Result<Vec<String>> {
    match env::args(&WithoutName { rt }) {
        Ok(words) => Ok(words.collect(rt.alloc())?),
        Err(fault) if fault.kind() == io::ErrorKind::InvalidData => Ok(Vec::new(rt.alloc())),
        Err(fault) => Err(fault),
    }
}
