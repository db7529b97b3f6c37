//! Events as lines, written while the server runs.
ghost use Rattle.std.specs.Prelude.{◌≡◌, IfOk, IfSome, IsTrue, None};
ghost use Rattle.std.specs.Io.KnownBytes.{Appends};
ghost use Rattle.up_hooks.specs.Recorded.{has_code};
ghost use Rattle.up_hooks.specs.declared.post_hook.Outcome.TheVariants.{Done};
ghost use Rattle.up_wire.specs.Device.{GaveUp};
ghost use Rattle.up_server.specs.ReportText.{event_line};
ghost use Rattle.up_server.specs.Written.{written_of};

use crate::report::write_event_line;
use std::alloc::Global;
use std::io::{self, BufWriter, ErrorKind, Write};
use std::snapshot::Snapshot;
use std::sync::atomic::{AtomicBool, Ordering};
use std::sync::{Mutex, Wait};
use up_events::Event;
use up_hooks::Outcome;
use up_wire::{Output, Sink};

/// That the line of an event was written. It is made in one place alone, after that line.
#[derive(Drop)]
pub struct Written {
    event: Snapshot<Event>,
}

/// Writes the event as a line, in the form of the report, and makes the sink send it on. `None` if that fails.
fn write_line<W: Sink>(sink: &mut W, event: &Event) -> Option<Written>
    ensures event { IfSome result (λ written. written_of written ≡ event.now) }
    ensures written { IfSome result (λ _. Appends (W.device sink.old).bytes
        (W.device sink.new).bytes (event_line (event.now, Done))) }
    ensures failed { result ≡ None
        → GaveUp (W.device sink.new) (W.device sink.new).interruptions }
{
    match write_event_line(sink, &(*event, Outcome::Done)) {
        Ok(()) => Some(Written {
            event: Snapshot::of(event),
        }),
        Err(_) => None,
    }
}

/// A writer that keeps the error of the last write that failed.
#[derive(Drop)]
struct Recalling<W> {
    writer: W,
    error: Option<io::Error>,
}

impl<W: Write> Write for Recalling<W> {
    fn write(&mut self, buf: &[u8]) -> io::Result<usize> {
        let written = self.writer.write(buf);
        if let Err(error) = &written {
            self.error = Some(*error);
        }
        written
    }

    fn flush(&mut self) -> io::Result<()> {
        self.writer.flush()
    }
}

/// Where a line is put together, and then sent on whole.
type Lines<W> = Output<BufWriter<Recalling<W>>>;

/// Why a line could not be written. What is left of it is dropped.
fn reason_of<W: Write + Drop>(lines: Lines<W>) -> io::Error {
    let (writer, _rest) = lines.into_inner().into_parts();
    match writer.error {
        Some(error) => error,
        None => io::Error::from(ErrorKind::WriteZero),
    }
}

/// Where the post-hooks of all lanes write their events, each as a line of its own.
#[derive(Drop)]
pub struct EventLines<W: Write + Drop> {
    /// `None` once a line could not be written.
    lines: Mutex<Option<Lines<W>>>,
    have_failed: AtomicBool,
}

impl<W: Write + Drop> EventLines<W> {
    /// Writes lines to this writer. None was written yet. The error is that memory ran out.
    pub fn new(alloc: Global, writer: W) -> io::Result<Self> {
        let recalling = Recalling {
            writer,
            error: None,
        };
        let lines = Output::new(BufWriter::new(alloc, recalling)?);
        Ok(EventLines {
            lines: Mutex::new(Some(lines)),
            have_failed: AtomicBool::new(false),
        })
    }

    /// Whether a line could not be written. Then nothing more is written: neither what was left of the line, nor what
    /// `AfterLines` is given.
    pub fn have_failed(&self) -> &AtomicBool {
        &self.have_failed
    }

    /// Writes the event as a line, and makes the sink send it on before any other line is written. If that fails,
    /// returns why. `None` if an earlier line failed.
    fn write<R: Wait>(&self, rt: &R, event: &Event) -> Option<io::Result<Written>>
        ensures { IfSome result (λ r. IfOk r (λ written. written_of written ≡ event.now)) }
    {
        let mut place = self.lines.lock(rt);
        if let Some(written) = write_line((*place).as_mut()?, event) {
            return Some(Ok(written));
        }
        self.have_failed.store(true, Ordering::SeqCst);
        let lines = place.take()?;
        Some(Err(reason_of(lines)))
    }

    /// Writes the event as a line, in the form of the report, and makes the sink send it on before any other line is
    /// written. `None` if that fails, and from then on. Standard error says once why.
    pub fn put<R: Eprint + Wait>(&self, rt: &R, event: &Event) -> Option<Written>
        ensures { IfSome result (λ written. written_of written ≡ event.now) }
    {
        match self.write(rt, event)? {
            Ok(written) => Some(written),
            Err(error) => {
                let _ = eprintln!(rt; "up_server: events can't be written: {error}");
                None
            }
        }
    }

    /// Does the same. `Failed` with the code 1 if it fails, and from then on.
    pub fn tell<R: Eprint + Wait>(&self, rt: &R, event: &Event) -> Outcome
        ensures { IsTrue (has_code result) }
    {
        match self.put(rt, event) {
            Some(_) => Outcome::Done,
            None => Outcome::Failed(1),
        }
    }
}

/// What is written after lines of events, to the same place. A write fails if a line could not be written.
#[derive(Drop)]
pub struct AfterLines<'a, W> {
    pub writer: W,
    /// Whether a line could not be written, if there are lines.
    pub have_failed: Option<&'a AtomicBool>,
}

impl<W: Write> Write for AfterLines<'_, W> {
    fn write(&mut self, buf: &[u8]) -> io::Result<usize> {
        match self.have_failed {
            Some(have_failed) if have_failed.load(Ordering::SeqCst) => {
                Err(io::Error::from(ErrorKind::BrokenPipe))
            }
            _ => self.writer.write(buf),
        }
    }

    fn flush(&mut self) -> io::Result<()> {
        self.writer.flush()
    }
}
