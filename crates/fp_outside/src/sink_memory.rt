//! A sink in memory, with room for so many bytes.
ghost use Rattle.std.specs.Prelude.{◌≡◌, ◌≤◌, ◌<◌, ◌-◌, ◌↔◌, min, [], Some, None, length, IfOk, IsErr, IsTrue};
ghost use Rattle.std.specs.Io.KnownBytes.{WriteAppends};
ghost use Rattle.fp_outside.specs.Causes.{HasCause};
ghost use Rattle.fp_outside.specs.Sink.{TakesSome};
ghost use Rattle.fp_outside.specs.Memory.{CountsWrite, write_fails};

use crate::counting::{Calls, count_failure};
use crate::{Failed, Sink};
use std::alloc::{AllocError, Global};
use std::marker::Model;

/// A sink in memory, with room for so many bytes.
///
/// A call of `write` fails where its number was given to `fail_at`, and where no room is left.
#[derive(Drop)]
pub struct MemSink {
    bytes: Vec<u8>,
    room: usize,
    calls: Calls,
}

impl Model for MemSink {
    ghost use Rattle.std.specs.Prelude.{◌≤◌};
    ghost use Rattle.std.specs.Vec.{vec_len, vec_capacity};
    ghost use Rattle.fp_outside.specs.Memory.{Taken};

    ghost Value = { Taken };

    ghost view = { λ s. record { bytes = s.bytes.items; room = s.room; calls = s.calls.made; fails = s.calls.fails; failures = s.calls.failures } };

    ghost invariant = { λ s. (vec_len s.bytes ≤ s.room) × (s.room ≤ vec_capacity s.bytes) };
}

impl MemSink {
    /// A sink with room for `room` bytes, for which it takes the memory at once.
    pub fn with_room(alloc: Global, room: usize) -> Result<Self, AllocError>
        ensures { IfOk result (λ sink.
            sink ≡ record { bytes = []; room = room; calls = 0; fails = None; failures = 0 }) }
    {
        Ok(MemSink {
            bytes: Vec::with_capacity(alloc, room)?,
            room,
            calls: Calls::new(),
        })
    }

    /// Makes the call of that number fail, where the calls of `write` are counted from 1. It takes
    /// the place of an earlier such number.
    pub fn fail_at(&mut self, call: u64)
        ensures { self.new ≡ record self.old { fails = Some call } }
    {
        self.calls.fails = Some(call);
    }

    /// The bytes that were written.
    pub fn written(&self) -> &[u8]
        ensures { result.now ≡ self.now.bytes }
    {
        &self.bytes
    }
}

impl Sink for MemSink {
    ghost written = { λ s. Some s.bytes };

    ghost faults = { λ s. s.failures };

    fn write(&mut self, piece: &[u8]) -> Result<usize, Failed>
        requires { 0 < length piece.now }
        ensures taken { TakesSome result (length piece.now) }
        ensures bytes { WriteAppends (Some self.old.bytes) (Some self.new.bytes) result piece.now }
        ensures count { IfOk result (λ count.
            count ≡ min (length piece.now) (self.old.room - length self.old.bytes)) }
        ensures cause { HasCause self.old.failures self.new.failures result }

        // It fails exactly where it is to, and each call is counted.
        ensures fails { IsErr result ↔ IsTrue (write_fails self.old) }
        ensures counted { CountsWrite self.old self.new }
    {
        let count = piece.len().min(self.room - self.bytes.len());
        if self.calls.next_fails() || count == 0 {
            return Err(count_failure(&mut self.calls.failures));
        }
        self.bytes.extend_from_slice(&piece[..count]).unwrap();
        Ok(count)
    }

    fn faults(&self) -> u64 {
        self.calls.failures
    }
}
