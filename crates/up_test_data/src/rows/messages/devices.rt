//! Devices in memory, with interruptions and failures on request.
ghost use Rattle.up_wire.specs.Device.{device_of};
ghost use Rattle.std.specs.Prelude.{None};

use std::alloc::Global;
use std::cell::Cell;
use std::io::{self, Read};
use up_wire::{NextByte, Sink, Source, WriteSome};

/// How often a device is interrupted before its first byte, and before each byte after it.
#[derive(Clone, Copy, PartialEq, Eq)]
pub struct Waits {
    pub before: u64,
    pub each: u64,
}

impl Waits {
    pub const NONE: Waits = Waits { before: 0, each: 0 };
}

/// A source that returns its bytes one at a time, and then ends or fails.
#[derive(Drop)]
pub struct WaitingSource<'a> {
    pub bytes: &'a [u8],
    fails: bool,
    waits: Waits,
    /// How often it was asked for a byte, without interruptions.
    asks: &'a Cell<u64>,
    interruptions: u64,
    has_failed: bool,
}

impl<'a> WaitingSource<'a> {
    pub fn new(
        bytes: &'a [u8],
        fails: bool,
        waits: Waits,
        asks: &'a Cell<u64>,
    ) -> WaitingSource<'a> {
        WaitingSource {
            bytes,
            fails,
            waits,
            asks,
            interruptions: 0,
            has_failed: false,
        }
    }
}

impl<'a> Source for WaitingSource<'a> {
    ghost device = { λ s. device_of None s.has_failed s.interruptions };

    fn next_byte(&mut self) -> NextByte {
        if self.has_failed {
            return NextByte::Failed;
        }
        if self.waits.before > 0 && self.interruptions < u64::MAX {
            self.waits.before -= 1;
            self.interruptions += 1;
            return NextByte::Interrupted;
        }
        self.asks.set(self.asks.get().saturating_add(1));
        if let [first, rest @ ..] = self.bytes {
            self.bytes = rest;
            self.waits.before = self.waits.each;
            return NextByte::Byte(*first);
        }
        if self.fails {
            self.has_failed = true;
            return NextByte::Failed;
        }
        NextByte::End
    }
}

/// A reader that returns one byte per call.
#[derive(Drop)]
pub struct Drops<'a> {
    pub bytes: &'a [u8],
}

impl<'a> Read for Drops<'a> {
    fn read(&mut self, buf: &mut [u8]) -> io::Result<usize> {
        let ([first, rest @ ..], Some(place)) = (self.bytes, buf.first_mut()) else {
            return Ok(0);
        };
        *place = *first;
        self.bytes = rest;
        Ok(1)
    }
}

/// A sink that takes a number of bytes, one at a time, and then fails.
#[derive(Drop)]
pub struct WaitingSink<'a> {
    pub taken: Vec<u8>,
    room: usize,
    waits: Waits,
    asks: &'a Cell<u64>,
    /// How often the source had been asked when everything was sent, if it was.
    pub sent: Option<u64>,
    interruptions: u64,
    has_failed: bool,
}

impl<'a> WaitingSink<'a> {
    pub fn new(alloc: Global, room: usize, waits: Waits, asks: &'a Cell<u64>) -> WaitingSink<'a> {
        WaitingSink {
            taken: Vec::new(alloc),
            room,
            waits,
            asks,
            sent: None,
            interruptions: 0,
            has_failed: false,
        }
    }
}

impl<'a> Sink for WaitingSink<'a> {
    ghost device = { λ s. device_of None s.has_failed s.interruptions };

    fn write_some(&mut self, bytes: &[u8]) -> WriteSome {
        if self.has_failed {
            return WriteSome::Failed;
        }
        if self.waits.before > 0 && self.interruptions < u64::MAX {
            self.waits.before -= 1;
            self.interruptions += 1;
            return WriteSome::Interrupted;
        }
        if bytes.is_empty() {
            return WriteSome::Took(0);
        }
        if self.room == 0 || self.taken.push(bytes[0]).is_err() {
            self.has_failed = true;
            return WriteSome::Failed;
        }
        self.room -= 1;
        self.sent = None;
        self.waits.before = self.waits.each;
        WriteSome::Took(1)
    }

    fn flush(&mut self) -> WriteSome {
        if self.has_failed {
            return WriteSome::Failed;
        }
        self.sent = Some(self.asks.get());
        WriteSome::Took(0)
    }
}
