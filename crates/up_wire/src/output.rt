//! A writer of std as a sink.
ghost use Rattle.std.specs.Prelude.{◌≡◌, ◌+◌, ◌↔◌, false, IsFalse};
ghost use Rattle.up_wire.specs.Device.{device_of, IsNothing, is_failed_write};
ghost use Rattle.up_wire.specs.Device.{interrupted_writes, IsInterruption, IsWriteAnswer};

use crate::device::{Sink, WriteSome};
use std::io::{self, ErrorKind, Write};

/// A writer of std as a sink. A write that takes nothing of a slice that is not empty counts as failed.
#[derive(Drop)]
pub struct Output<W> {
    writer: W,
    has_failed: bool,
    interruptions: u64,
}

impl<W> Output<W> {
    /// Records an error of the writer: it was interrupted, or has failed for good.
    fn note(&mut self, error: &io::Error) -> WriteSome
        ensures writer { self.new.writer ≡ self.old.writer }
        ensures nothing { IsNothing result }
        ensures kind { (result ≡ WriteSome.Interrupted)
            ↔ IsInterruption error.now self.old.interruptions }
        ensures failed { self.new.has_failed ≡ is_failed_write result }
        ensures interrupted { self.new.interruptions
            ≡ self.old.interruptions + interrupted_writes result }
    {
        if error.kind() == ErrorKind::Interrupted && self.interruptions < u64::MAX {
            self.interruptions += 1;
            self.has_failed = false;
            return WriteSome::Interrupted;
        }
        self.has_failed = true;
        WriteSome::Failed
    }

    /// What the sink returns for this result of the writer, which was given `most` bytes.
    fn answer(&mut self, written: io::Result<usize>, most: usize) -> WriteSome
        requires { IsFalse self.old.has_failed }
        ensures answer { IsWriteAnswer written most self.old.interruptions result }
        ensures writer { self.new.writer ≡ self.old.writer }
        ensures failed { self.new.has_failed ≡ is_failed_write result }
        ensures interrupted { self.new.interruptions
            ≡ self.old.interruptions + interrupted_writes result }
    {
        match written {
            Ok(count) if count > 0 || most == 0 => WriteSome::Took(count),
            Ok(_) => {
                self.has_failed = true;
                WriteSome::Failed
            }
            Err(error) => self.note(&error),
        }
    }
}

impl<W: Write> Output<W> {
    /// A sink that writes to this writer.
    pub fn new(writer: W) -> Output<W>
        ensures { ⟦<Output<W> as Sink>⟧.device result
            ≡ device_of (W.contents writer) false 0 }
    {
        Output {
            writer,
            has_failed: false,
            interruptions: 0,
        }
    }

    /// The writer.
    pub fn into_inner(self) -> W
        ensures { W.contents result ≡ (⟦<Output<W> as Sink>⟧.device self).bytes }
    {
        self.writer
    }
}

impl<W: Write> Sink for Output<W> {
    ghost device = { λ s. device_of (W.contents s.writer) s.has_failed s.interruptions };

    fn write_some(&mut self, bytes: &[u8]) -> WriteSome {
        if self.has_failed {
            return WriteSome::Failed;
        }
        let written = self.writer.write(bytes);
        self.answer(written, bytes.len())
    }

    fn flush(&mut self) -> WriteSome {
        if self.has_failed {
            return WriteSome::Failed;
        }
        match self.writer.flush() {
            Ok(()) => WriteSome::Took(0),
            Err(error) => self.note(&error),
        }
    }
}
