//! A buffer in memory as a sink, with interruptions and failures on request.
ghost use Rattle.std.specs.Prelude.{◌≡◌, ◌+◌, false, length, [], IsTrue, Some, IfOk};
ghost use Rattle.std.specs.Io.KnownBytes.{Appends, Keeps};
ghost use Rattle.up_wire.specs.Device.{device_of, taken, is_failed_write, interrupted_writes, TakesSome};
ghost use Rattle.up_wire.specs.InMemory.{slip_answer, slip_device};

use crate::device::{Sink, WriteSome};
use std::alloc::{AllocError, Global};
use std::marker::Model;

/// A buffer in memory as a sink, for testing code that writes to a sink. It first returns `Interrupted` a number of
/// times, then takes bytes until its room is used up, and then returns `Failed` for more.
#[derive(Drop)]
pub struct Slip {
    bytes: Vec<u8>,
    room: usize,
    interruptions: u64,
    waits: u64,
    has_failed: bool,
}

impl Model for Slip {
    ghost use Rattle.std.specs.Prelude.{◌+◌, ◌-◌, ◌≤◌, vec_len, vec_capacity};
    ghost use Rattle.up_wire.specs.InMemory.{Written};

    ghost Value = { Written };

    ghost view = { λ s. record {
      bytes = s.bytes.items;
      room = s.room;
      waits = s.waits;
      interruptions = s.interruptions - s.waits;
      has_failed = s.has_failed;
    } };

    ghost invariant = { λ s. (s.waits ≤ s.interruptions)
        × (vec_len s.bytes + s.room ≤ vec_capacity s.bytes) };
}

impl Slip {
    /// A sink with room for `room` bytes, which is interrupted `interruptions` times before it takes the first. All its
    /// memory is allocated here; `AllocError` if memory runs out.
    pub fn new(alloc: Global, room: usize, interruptions: u64) -> Result<Slip, AllocError>
        ensures device { IfOk result (λ slip. slip_device slip ≡ device_of (Some []) false 0) }
        ensures room { IfOk result (λ slip. slip.room ≡ room) }
        ensures waits { IfOk result (λ slip. slip.waits ≡ interruptions) }
    {
        Ok(Slip {
            bytes: Vec::with_capacity(alloc, room)?,
            room,
            interruptions,
            waits: interruptions,
            has_failed: false,
        })
    }

    /// The bytes that were written.
    pub fn bytes(&self) -> &[u8]
        ensures { result.now ≡ self.now.bytes }
    {
        self.bytes.as_slice()
    }
}

impl Sink for Slip {
    ghost device = { slip_device };

    fn write_some(&mut self, bytes: &[u8]) -> WriteSome
        ensures bytes { Appends (Some self.old.bytes) (Some self.new.bytes)
            (taken result bytes.now) }
        ensures some { TakesSome result bytes.now }
        ensures failed { self.new.has_failed ≡ is_failed_write result }
        ensures stays_failed { IsTrue self.old.has_failed → IsTrue self.new.has_failed }
        ensures interrupted { self.new.interruptions
            ≡ self.old.interruptions + interrupted_writes result }
        ensures answer { result ≡ slip_answer
            self.old.has_failed self.old.waits self.old.room (length bytes.now) }
        ensures waits { self.new.waits + interrupted_writes result ≡ self.old.waits }
        ensures room { self.new.room + length (taken result bytes.now) ≡ self.old.room }
    {
        if self.has_failed {
            return WriteSome::Failed;
        }
        if self.waits > 0 {
            self.waits -= 1;
            return WriteSome::Interrupted;
        }
        let count = bytes.len().min(self.room);
        if count == 0 && !bytes.is_empty() {
            self.has_failed = true;
            return WriteSome::Failed;
        }
        if self.bytes.extend_from_slice(&bytes[..count]).is_err() {
            unreachable!();
        }
        self.room -= count;
        WriteSome::Took(count)
    }

    fn flush(&mut self) -> WriteSome
        ensures bytes { Keeps (Some self.old.bytes) (Some self.new.bytes) }
        ensures failed { self.new.has_failed ≡ is_failed_write result }
        ensures stays_failed { IsTrue self.old.has_failed → IsTrue self.new.has_failed }
        ensures interrupted { self.new.interruptions
            ≡ self.old.interruptions + interrupted_writes result }
        ensures answer { result
            ≡ slip_answer self.old.has_failed self.old.waits self.old.room 0 }
        ensures waits { self.new.waits + interrupted_writes result ≡ self.old.waits }
        ensures room { self.new.room ≡ self.old.room }
    {
        if self.has_failed {
            return WriteSome::Failed;
        }
        if self.waits > 0 {
            self.waits -= 1;
            return WriteSome::Interrupted;
        }
        WriteSome::Took(0)
    }
}
