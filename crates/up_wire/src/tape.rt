//! Bytes in memory as a source, with interruptions and failures on request.
ghost use Rattle.std.specs.Prelude.{◌≡◌, ◌+◌, false, IsTrue, Some};
ghost use Rattle.std.specs.Io.KnownBytes.{Consumes};
ghost use Rattle.up_wire.specs.Device.{device_of, given, is_failed_read, interrupted_reads, EndsAt};
ghost use Rattle.up_wire.specs.InMemory.{tape_answer, tape_device};

use crate::device::{NextByte, Source};
use std::marker::Model;

/// Bytes in memory as a source, for testing code that reads from a source. It first returns `Interrupted` a number of
/// times, then its bytes one at a time, and after the last one `Failed` if it is to fail, and otherwise `End`.
#[derive(Drop)]
pub struct Tape<'a> {
    bytes: &'a [u8],
    fails: bool,
    interruptions: u64,
    waits: u64,
    has_failed: bool,
}

impl<'a> Model for Tape<'a> {
    ghost use Rattle.std.specs.Prelude.{◌-◌, ◌≤◌};
    ghost use Rattle.up_wire.specs.InMemory.{Recorded};

    ghost Value = { Recorded };

    ghost view = { λ t. record {
      bytes = t.bytes.now;
      fails = t.fails;
      waits = t.waits;
      interruptions = t.interruptions - t.waits;
      has_failed = t.has_failed;
    } };

    ghost invariant = { λ t. t.waits ≤ t.interruptions };
}

impl<'a> Tape<'a> {
    /// A source of these bytes, which is interrupted `interruptions` times before the first. After the last it fails if
    /// `fails`, and otherwise ends.
    pub fn new(bytes: &'a [u8], interruptions: u64, fails: bool) -> Tape<'a>
        ensures device { tape_device result ≡ device_of (Some bytes.now) false 0 }
        ensures waits { result.waits ≡ interruptions }
        ensures fails { result.fails ≡ fails }
    {
        Tape {
            bytes,
            fails,
            interruptions,
            waits: interruptions,
            has_failed: false,
        }
    }

    /// The bytes that are left.
    pub fn rest(&self) -> &'a [u8]
        ensures { result.now ≡ self.now.bytes }
    {
        self.bytes
    }
}

impl<'a> Source for Tape<'a> {
    ghost device = { tape_device };

    fn next_byte(&mut self) -> NextByte
        ensures bytes { Consumes (Some self.old.bytes) (Some self.new.bytes) (given result) }
        ensures end { EndsAt result (Some self.new.bytes) }
        ensures failed { self.new.has_failed ≡ is_failed_read result }
        ensures stays_failed { IsTrue self.old.has_failed → IsTrue self.new.has_failed }
        ensures interrupted { self.new.interruptions
            ≡ self.old.interruptions + interrupted_reads result }
        ensures answer { result
            ≡ tape_answer self.old.has_failed self.old.waits self.old.bytes self.old.fails }
        ensures waits { self.new.waits + interrupted_reads result ≡ self.old.waits }
        ensures fails { self.new.fails ≡ self.old.fails }
    {
        if self.has_failed {
            return NextByte::Failed;
        }
        if self.waits > 0 {
            self.waits -= 1;
            return NextByte::Interrupted;
        }
        if let [first, rest @ ..] = self.bytes {
            self.bytes = rest;
            return NextByte::Byte(*first);
        }
        if self.fails {
            self.has_failed = true;
            return NextByte::Failed;
        }
        NextByte::End
    }
}
