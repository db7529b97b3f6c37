//! How long a connection waits for its client.
ghost use Rattle.std.specs.Prelude.{◌↔◌, ◌*◌, ◌<◌, IsTrue};

use crate::ending::Ending;
use std::cell::Cell;
use std::io::{self, ErrorKind, Read, Write};
use std::net::TcpStream;
use std::os::fd::AsRawFd;
use std::time::Duration;

/// For how many milliseconds the bytes of a request or of an answer may move at any rate.
const GRACE: u64 = 10_000;

/// After how many milliseconds a write that waits for its client is tried again, if an answer has a least rate.
const RETRY: u64 = 1000;

/// How many bytes at most are read of a connection after the run has ended: more than its socket holds.
const MAX_LAST: u64 = 1 << 24;

/// How long the connections of a server wait for their clients.
#[derive(Clone, Copy, Default, PartialEq, Eq)]
pub struct Patience {
    /// How many seconds a read or a write may last without moving a byte, at least 1. `None` sets no limit.
    pub seconds: Option<u64>,
    /// The least rate at which a request must arrive and an answer must be taken, in bytes per second: its average from
    /// the first byte of the request or the first write of the answer on, after the first ten seconds. `None` sets no
    /// limit.
    pub least_rate: Option<u64>,
}

impl Patience {
    /// Makes the system send each answer at once, end a read or a write of this connection that moves nothing for too
    /// long, and detect a client that is gone without a word (`SO_KEEPALIVE`). The error is that the system refused one
    /// of the first two.
    pub(crate) fn set_on(self, stream: &TcpStream) -> io::Result<()> {
        stream.set_nodelay(true)?;
        keep_alive(stream);
        if let Some(seconds) = self.seconds {
            stream.set_read_timeout(Some(Duration::from_secs(seconds)))?;
        }
        if let Some(pause) = self.write_pause() {
            stream.set_write_timeout(Some(Duration::from_millis(pause)))?;
        }
        Ok(())
    }

    /// For how many milliseconds the system lets a write wait for its client, if it sets a limit.
    fn write_pause(self) -> Option<u64> {
        match self.least_rate {
            Some(_) => Some(RETRY),
            None => Some(self.seconds?.saturating_mul(1000)),
        }
    }

    /// Whether a write that has waited for its client since `begun` goes on waiting after this error.
    fn waits_on(self, error: &io::Error, begun: u64) -> bool {
        if self.least_rate.is_none() || error.kind() != ErrorKind::WouldBlock {
            return false;
        }
        let waited = milliseconds().saturating_sub(begun);
        match self.seconds {
            Some(seconds) => waited < seconds.saturating_mul(1000),
            None => true,
        }
    }
}

/// Makes the system check whether a client that was silent for hours is still there. If the system can't, the
/// connection is served without this.
fn keep_alive(stream: &TcpStream) {
    let mut on = [0; 16];
    on[0] = 1;
    let socket = stream.as_raw_fd();
    let _ = unsafe {
        libc::net::setsockopt(
            socket,
            libc::net::SOL_SOCKET,
            libc::net::SO_KEEPALIVE,
            &on,
            4,
        )
    };
}

/// The milliseconds of the system's clock that never goes back, or 0 if it can't be read.
pub fn milliseconds() -> u64 {
    let mut time = libc::types::timespec {
        tv_sec: 0,
        tv_nsec: 0,
    };
    let _ = libc::clock_gettime(libc::CLOCK_MONOTONIC, &mut time);
    let seconds = u64::try_from(time.tv_sec).unwrap_or(0);
    let nanoseconds = u64::try_from(time.tv_nsec).unwrap_or(0);
    seconds
        .saturating_mul(1000)
        .saturating_add(nanoseconds / 1_000_000)
}

/// Whether a request or an answer is too slow, of which `moved` bytes moved in `passed` milliseconds, if `least` bytes
/// per second are required. None is too slow in its first ten seconds.
fn is_too_slow(moved: u64, passed: u64, least: u64) -> bool
    ensures { IsTrue result ↔ ((10000 < passed) × (moved * 1000 < least * passed)) }
{
    passed > GRACE && u128::from(moved) * 1000 < u128::from(least) * u128::from(passed)
}

/// How fast the bytes of a request or of an answer move.
#[derive(Drop)]
struct Rate {
    /// When it began, in milliseconds. `None` if it hasn't.
    since: Cell<Option<u64>>,
    /// How many bytes have moved since then.
    moved: Cell<u64>,
}

impl Rate {
    /// Nothing has begun.
    fn new() -> Rate {
        Rate {
            since: Cell::new(None),
            moved: Cell::new(0),
        }
    }

    /// It begins, unless it has begun already.
    fn begin(&self) {
        if self.since.get().is_none() {
            self.since.set(Some(milliseconds()));
        }
    }

    /// This many bytes have moved.
    fn note(&self, count: usize) {
        self.moved
            .set(self.moved.get().saturating_add(count as u64));
    }

    /// It has ended.
    fn restart(&self) {
        self.since.set(None);
        self.moved.set(0);
    }

    /// Whether it is slower than `least` bytes per second.
    fn is_below(&self, least: u64) -> bool {
        match self.since.get() {
            Some(since) => {
                is_too_slow(
                    self.moved.get(),
                    milliseconds().saturating_sub(since),
                    least,
                )
            }
            None => false,
        }
    }
}

/// How fast the requests and the answers of a connection move, and what was read of it after the run had ended.
#[derive(Drop)]
pub(crate) struct Pace {
    patience: Patience,
    request: Rate,
    answer: Rate,
    /// How many bytes were read after the run had ended.
    last: Cell<u64>,
    /// Whether these were answered.
    is_answered: Cell<bool>,
}

impl Pace {
    /// No byte has moved.
    pub fn new(patience: Patience) -> Pace {
        Pace {
            patience,
            request: Rate::new(),
            answer: Rate::new(),
            last: Cell::new(0),
            is_answered: Cell::new(false),
        }
    }

    /// Whether one of the two is slower than the least rate.
    fn is_too_slow(&self, rate: &Rate) -> bool {
        match self.patience.least_rate {
            Some(least) => rate.is_below(least),
            None => false,
        }
    }

    /// This many bytes of the request have arrived.
    fn came(&self, count: usize) {
        if self.patience.least_rate.is_some() && count > 0 {
            self.request.begin();
            self.request.note(count);
        }
    }

    /// The request has arrived, and these bytes of the answer are going to be written. Only an interim answer begins
    /// with a status of 100 (RFC 9110, section 15.2).
    fn answers(&self, bytes: &[u8]) {
        self.request.restart();
        if self.patience.least_rate.is_some() {
            self.answer.begin();
        }
        if self.last.get() > 0 && !bytes.starts_with(b"HTTP/1.1 100 ") {
            self.is_answered.set(true);
        }
    }

    /// Notes a read of this many bytes after the run has ended. The error is that nothing has arrived.
    fn came_last(&self, count: usize) -> io::Result<()> {
        if count == 0 {
            return Err(end_of_run());
        }
        self.last.set(self.last.get().saturating_add(count as u64));
        Ok(())
    }

    /// Whether nothing more is read after the run has ended: one request was answered, or more came than could have
    /// arrived before.
    fn is_last_read(&self) -> bool {
        self.is_answered.get() || self.last.get() > MAX_LAST
    }
}

/// The error of a read after the run has ended.
fn end_of_run() -> io::Error {
    io::Error::from(ErrorKind::ConnectionAborted)
}

/// What the client of a connection sends. A read fails if the request arrives too slowly. After the run has ended, it
/// takes what had arrived by then of one request, and then fails.
#[derive(Drop)]
pub(crate) struct Reading<'a> {
    pub stream: &'a TcpStream,
    pub pace: &'a Pace,
    pub ending: Option<&'a Ending>,
}

impl Read for Reading<'_> {
    fn read(&mut self, buf: &mut [u8]) -> io::Result<usize> {
        if self.pace.is_last_read() {
            return Err(end_of_run());
        }
        if self.pace.is_too_slow(&self.pace.request) {
            return Err(io::Error::from(ErrorKind::TimedOut));
        }
        let mut stream = self.stream;
        let count = stream.read(buf)?;
        if let Some(ending) = self.ending
            && ending.is_over()
        {
            self.pace.came_last(count)?;
        }
        self.pace.came(count);
        Ok(count)
    }
}

/// What the client of a connection is sent. A write fails if the answer is taken too slowly.
#[derive(Drop)]
pub(crate) struct Writing<'a> {
    pub stream: &'a TcpStream,
    pub pace: &'a Pace,
}

impl Write for Writing<'_> {
    fn write(&mut self, buf: &[u8]) -> io::Result<usize> {
        self.pace.answers(buf);
        let mut stream = self.stream;
        let begun = milliseconds();
        for _ in 0..u64::MAX {
            if self.pace.is_too_slow(&self.pace.answer) {
                break;
            }
            match stream.write(buf) {
                Err(error) if self.pace.patience.waits_on(&error, begun) => {}
                Err(error) => return Err(error),
                Ok(count) => {
                    self.pace.answer.note(count);
                    return Ok(count);
                }
            }
        }
        Err(io::Error::from(ErrorKind::TimedOut))
    }

    fn flush(&mut self) -> io::Result<()> {
        self.pace.answer.restart();
        Ok(())
    }
}
