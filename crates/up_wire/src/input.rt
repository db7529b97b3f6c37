//! A reader of std as a source.
ghost use Rattle.std.specs.Prelude.{◌≡◌, ◌<◌, ◌≤◌, ◌⊎◌, ◌↔◌, ◌+◌, ◌++◌, [], ℕ, false, not, IsTrue, List};
ghost use Rattle.std.specs.Prelude.{Some, IfOk, OnErr, length, take, vec_len, vec_capacity, if◌then◌else◌};
ghost use Rattle.std.specs.Io.KnownBytes.{Consumes, Keeps, IsAtEnd};
ghost use Rattle.up_wire.specs.Device.{device_of, maybe_byte, IsNoneAtEnd, IsInLine, IsInterruption};

use crate::device::{NextByte, ReadSome, Source};
use memchr::memchr;
use std::io::{self, BufRead, ErrorKind, Read};

/// A reader of std as a source. Once the reader has been at its end, the source stays at its end.
#[derive(Drop)]
pub struct Input<R> {
    reader: R,
    has_ended: bool,
    has_failed: bool,
    interruptions: u64,
}

impl<R> Input<R> {
    /// Whether an error of the reader was an interruption. If it was not, the source has failed for good.
    fn is_interrupted(&mut self, error: &io::Error) -> bool
        ensures reader { self.new.reader ≡ self.old.reader }
        ensures ended { self.new.has_ended ≡ self.old.has_ended }
        ensures failed { self.new.has_failed ≡ not result }
        ensures kind { IsTrue result ↔ IsInterruption error.now self.old.interruptions }
        ensures interrupted { self.new.interruptions
            ≡ if result then self.old.interruptions + 1 else self.old.interruptions }
    {
        if error.kind() == ErrorKind::Interrupted && self.interruptions < u64::MAX {
            self.interruptions += 1;
            self.has_failed = false;
            return true;
        }
        self.has_failed = true;
        false
    }
}

impl<R: BufRead> Input<R> {
    /// A source that reads from this reader.
    pub fn new(reader: R) -> Input<R>
        ensures { ⟦<Input<R> as Source>⟧.device result
            ≡ device_of (R.remaining reader) false 0 }
    {
        Input {
            reader,
            has_ended: false,
            has_failed: false,
            interruptions: 0,
        }
    }

    /// The reader. The source holds no byte back.
    pub fn into_inner(self) -> R
        ensures { IsAtEnd (⟦<Input<R> as Source>⟧.device self).bytes
            ⊎ (R.remaining result ≡ (⟦<Input<R> as Source>⟧.device self).bytes) }
    {
        self.reader
    }
}

impl<R: BufRead> Source for Input<R> {
    ghost device = { λ s. device_of
        (if s.has_ended then Some [] else R.remaining s.reader) s.has_failed s.interruptions };

    fn next_byte(&mut self) -> NextByte {
        if self.has_failed {
            return NextByte::Failed;
        }
        if self.has_ended {
            return NextByte::End;
        }
        match take_shown(&mut self.reader) {
            Ok(Some(byte)) => NextByte::Byte(byte),
            Ok(None) => {
                self.has_ended = true;
                NextByte::End
            }
            Err(error) if self.is_interrupted(&error) => NextByte::Interrupted,
            Err(_) => NextByte::Failed,
        }
    }

    fn take_into(&mut self, into: &mut [u8]) -> ReadSome {
        if self.has_failed {
            return ReadSome::Failed;
        }
        if self.has_ended {
            return ReadSome::End;
        }
        match self.reader.read(into) {
            Ok(0) => {
                self.has_ended = true;
                ReadSome::End
            }
            Ok(count) => ReadSome::Moved(count),
            Err(error) if self.is_interrupted(&error) => ReadSome::Interrupted,
            Err(_) => ReadSome::Failed,
        }
    }

    fn take_in_line(&mut self, into: &mut Vec<u8>, most: usize) -> ReadSome {
        if self.has_failed {
            return ReadSome::Failed;
        }
        if self.has_ended {
            return ReadSome::End;
        }
        match move_in_line(&mut self.reader, into, most) {
            Ok(0) => {
                self.has_ended = true;
                ReadSome::End
            }
            Ok(count) => ReadSome::Moved(count),
            Err(error) if self.is_interrupted(&error) => ReadSome::Interrupted,
            Err(_) => ReadSome::Failed,
        }
    }
}

/// The next byte of the reader, or `None` at its end.
fn take_shown<R: BufRead>(reader: &mut R) -> io::Result<Option<u8>>
    ensures bytes { IfOk result (λ found.
        Consumes (R.remaining reader.old) (R.remaining reader.new) (maybe_byte found)) }
    ensures end { IfOk result (λ found. IsNoneAtEnd found (R.remaining reader.old)) }
    ensures err { OnErr result (Keeps (R.remaining reader.old) (R.remaining reader.new)) }
{
    let available = match reader.fill_buf() {
        Ok(available) => available,
        Err(error) => return Err(error),
    };
    if available.is_empty() {
        return Ok(None);
    }
    let byte = available[0];
    reader.consume(1);
    Ok(Some(byte))
}

/// The length of the bytes up to and with the first line feed, or of all bytes if there is none.
fn line_length(bytes: &[u8]) -> usize
    ensures within { result ≤ length bytes.now }
    ensures in_line { IsInLine (take result bytes.now) }
    ensures some { result ≡ 0 → length bytes.now ≡ 0 }
{
    match memchr(b'\n', bytes) {
        Some(at) => at + 1,
        None => bytes.len(),
    }
}

/// Moves the bytes that the reader has available, or waits for some: at most `most`, and none after a line feed. Moves
/// none only at the end.
fn move_in_line<R: BufRead>(reader: &mut R, into: &mut Vec<u8>, most: usize) -> io::Result<usize>
    requires some { 0 < most }
    requires room { vec_len into.old + most ≤ vec_capacity into.old }
    ensures bytes { IfOk result (λ count. (run : List ℕ)
        × Consumes (R.remaining reader.old) (R.remaining reader.new) run
        × (into.new.items ≡ into.old.items ++ run)
        × (length run ≡ count) × (count ≤ most) × IsInLine run) }
    ensures end { IfOk result (λ count. count ≡ 0 → IsAtEnd (R.remaining reader.old)) }
    ensures err { OnErr result (Keeps (R.remaining reader.old) (R.remaining reader.new)) }
    ensures unchanged { OnErr result (into.new.items ≡ into.old.items) }
    ensures room { vec_capacity into.old ≤ vec_capacity into.new }
    ensures kept { OnErr result (vec_capacity into.new ≡ vec_capacity into.old) }
    ensures none { IfOk result (λ count.
        count ≡ 0 → vec_capacity into.new ≡ vec_capacity into.old) }
{
    let available = match reader.fill_buf() {
        Ok(available) => available,
        Err(error) => return Err(error),
    };
    if available.is_empty() {
        return Ok(0);
    }
    let shown = &available[..available.len().min(most)];
    let run = line_length(shown);
    if into.extend_from_slice(&shown[..run]).is_err() {
        unreachable!();
    }
    reader.consume(run);
    Ok(run)
}
