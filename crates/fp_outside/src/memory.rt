//! Files in memory, whose calls can be made to fail.
ghost use Rattle.std.specs.Prelude.{◌≡◌, ◌≤◌, ◌<◌, ◌+◌, ◌^◌, ◌++◌, ◌↔◌, [], ◌∷◌, min, take, length, Option, Some, None, is_some, IsTrue, IsOk, IsErr, OnOk, OnErr, IfOk, IfSome, IfNone};
ghost use Rattle.std.specs.String.{string_bytes};
ghost use Rattle.std.specs.Io.{ReadsAtMost};
ghost use Rattle.std.specs.Io.KnownBytes.{Consumes, IsAtEnd, ReadConsumes};
ghost use Rattle.fp_outside.specs.Causes.{HasCause};
ghost use Rattle.fp_outside.specs.Held.{file_in, Opens, IsNamed};
ghost use Rattle.fp_outside.specs.Opened.{CountsOpen};
ghost use Rattle.fp_outside.specs.Memory.{CountsCall, is_due, open_fails};
ghost use Rattle.fp_outside.specs.View.{entries_of, left_of, name_of, PlaceIn, moved};

use crate::counting::{Calls, count_failure};
use crate::{Failed, Files};
use std::alloc::{AllocError, Global};
use std::marker::Model;

#[derive(Drop)]
struct MemFile {
    name: String,
    bytes: Vec<u8>,
}

impl MemFile {
    fn new(alloc: Global, name: &str, bytes: &[u8]) -> Result<Self, AllocError>
        ensures name { IfOk result (λ file. string_bytes file.name ≡ name.now) }
        ensures bytes { IfOk result (λ file. file.bytes.items ≡ bytes.now) }
    {
        Ok(MemFile {
            name: String::from_str(alloc, name)?,
            bytes: bytes.to_vec(alloc)?,
        })
    }
}

#[derive(Clone, Copy)]
struct Place {
    file: usize,
    at: usize,
}

/// Files in memory. Of several files of one name the first counts.
///
/// A call fails where its number was given to `fail_at`, where `open` finds no file of the name, and
/// where `u64::MAX` calls of `open` succeeded already.
#[derive(Drop)]
pub struct MemFiles {
    alloc: Global,
    entries: Vec<MemFile>,
    current: Option<Place>,
    opened: u64,
    calls: Calls,
}

impl Model for MemFiles {
    ghost use Rattle.fp_outside.specs.Memory.{Kept};
    ghost use Rattle.fp_outside.specs.View.{entries_of, left_of, name_of, PlaceIn};

    ghost Value = { Kept };

    ghost view = { λ m. record { files = entries_of m.entries.items; name = name_of m.entries.items m.current; left = left_of m.entries.items m.current; opened = m.opened; calls = m.calls.made; fails = m.calls.fails; failures = m.calls.failures } };

    ghost invariant = { λ m. PlaceIn m.entries.items m.current };
}

impl MemFiles {
    /// No files, none current, no call yet and none that is to fail.
    pub fn new(alloc: Global) -> Self
        ensures { result
            ≡ record { files = []; name = None; left = None; opened = 0; calls = 0; fails = None; failures = 0 } }
    {
        MemFiles {
            alloc,
            entries: Vec::new(alloc),
            current: None,
            opened: 0,
            calls: Calls::new(),
        }
    }

    /// Adds a file behind those that are there. Without memory for it nothing changes.
    pub fn add(&mut self, name: &str, bytes: &[u8]) -> Result<(), AllocError>
        ensures ok { OnOk result
            (self.new ≡ record self.old { files = self.old.files ++ (name.now, bytes.now) ∷ [] }) }
        ensures err { OnErr result (self.new ≡ self.old) }
    {
        let file = MemFile::new(self.alloc, name, bytes)?;
        self.entries.push(file)?;
        Ok(())
    }

    /// Makes the call of that number fail, where the calls of `open` and `read` are counted from 1.
    /// It takes the place of an earlier such number.
    pub fn fail_at(&mut self, call: u64)
        ensures { self.new ≡ record self.old { fails = Some call } }
    {
        self.calls.fails = Some(call);
    }
}

// The start of the first file of that name.
fn place_of(entries: &[MemFile], name: &str) -> Option<Place>
    ensures none { IfNone result (file_in (entries_of entries.now) name.now ≡ None) }
    ensures opens { IfSome result (λ place.
        Opens (Some (entries_of entries.now)) name.now (left_of entries.now (Some place))) }
    ensures named { IfSome result (λ place. name_of entries.now (Some place) ≡ Some name.now) }
    ensures place { IfSome result (λ place. PlaceIn entries.now (Some place)) }
{
    for (file, entry) in entries.iter().enumerate() {
        if entry.name.as_str() == name {
            return Some(Place { file, at: 0 });
        }
    }
    None
}

// Copies what comes at a place, as much as fits.
fn read_at(entries: &[MemFile], place: Place, buf: &mut [u8]) -> usize
    requires { PlaceIn entries.now (Some place) }
    ensures place { PlaceIn entries.now (Some (moved place result)) }
    ensures fits { place.at + result < 2 ^ 64 }
    ensures bound { result ≤ length buf.new }
    ensures bytes { Consumes (left_of entries.now (Some place))
        (left_of entries.now (Some (moved place result))) (take result buf.new) }
    ensures end { result ≡ 0
        → 0 < length buf.new
        → IsAtEnd (left_of entries.now (Some (moved place result))) }
{
    copy_front(&entries[place.file].bytes[place.at..], buf)
}

// Copies as much of `rest` as fits.
fn copy_front(rest: &[u8], buf: &mut [u8]) -> usize
    ensures count { result ≡ min (length rest.now) (length buf.old) }
    ensures bytes { take result buf.new ≡ take result rest.now }
{
    let count = rest.len().min(buf.len());
    buf[..count].copy_from_slice(&rest[..count]);
    count
}

impl Files for MemFiles {
    ghost held = { λ m. Some m.files };

    ghost left = { λ m. m.left };

    ghost named = { λ m. m.name };

    ghost current = { λ m. is_some m.left };

    ghost opened = { λ m. Some m.opened };

    ghost faults = { λ m. m.failures };

    fn open(&mut self, name: &str) -> Result<(), Failed>
        ensures opens { OnOk result (Opens (Some self.old.files) name.now self.new.left) }
        ensures named { OnOk result (IsNamed self.new.name name.now) }
        ensures held { Some self.new.files ≡ Some self.old.files }
        ensures current { IsTrue (is_some self.new.left) ↔ IsOk result }
        ensures opened { CountsOpen (Some self.old.opened) (Some self.new.opened) result }
        ensures cause { HasCause self.old.failures self.new.failures result }

        // It fails exactly where it is to, and each call is counted.
        ensures fails { IsErr result ↔ IsTrue (open_fails self.old name.now) }
        ensures counted { CountsCall self.old self.new }
    {
        self.current = None;
        if self.calls.next_fails() || self.opened == u64::MAX {
            return Err(count_failure(&mut self.calls.failures));
        }
        let Some(place) = place_of(&self.entries, name) else {
            return Err(count_failure(&mut self.calls.failures));
        };
        self.current = Some(place);
        self.opened += 1;
        Ok(())
    }

    fn read(&mut self, buf: &mut [u8]) -> Result<usize, Failed>
        requires current { IsTrue (is_some self.old.left) }
        requires room { 0 < length buf.old }
        ensures bound { ReadsAtMost result buf.new }
        ensures bytes { ReadConsumes self.old.left self.new.left result buf.new }
        ensures named { self.new.name ≡ self.old.name }
        ensures held { Some self.new.files ≡ Some self.old.files }
        ensures current { IsTrue (is_some self.new.left) }
        ensures opened { Some self.new.opened ≡ Some self.old.opened }
        ensures cause { HasCause self.old.failures self.new.failures result }

        // It fails exactly where it is to, and each call is counted.
        ensures fails { IsErr result ↔ IsTrue (is_due self.old.calls self.old.fails) }
        ensures counted { CountsCall self.old self.new }
    {
        if self.calls.next_fails() {
            return Err(count_failure(&mut self.calls.failures));
        }
        let Some(place) = self.current else {
            unreachable!();
        };
        let count = read_at(&self.entries, place, buf);
        self.current = Some(Place {
            file: place.file,
            at: place.at + count,
        });
        Ok(count)
    }

    fn faults(&self) -> u64 {
        self.calls.failures
    }
}
