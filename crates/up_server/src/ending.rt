//! Ending a run in order after an input has ended.
use crate::patience::milliseconds;
use libc::net::{POLLIN, SHUT_RD, SHUT_RDWR};
use libc::types::pollfd;
use std::alloc::{AllocError, Global};
use std::sync::atomic::{AtomicBool, AtomicU64, Ordering};
use std::sync::{Mutex, Wait};
use up_dispatch::{Board, Naming};

/// How many milliseconds pass at most before the state of the run is checked again.
const PAUSE: i32 = 100;

/// How many milliseconds pass at most before that check, after the input has ended.
const LAST_PAUSE: i32 = 10;

/// How many bytes of the input are read and dropped at a time.
const DROPPED: usize = 4096;

/// No descriptor. `poll` ignores it.
pub(crate) const NOTHING: i32 = -1;

/// Ends a run in order after an input has ended. Then the board is closed: it refuses changes and goes on answering
/// reads, and the lanes hand over what is left. After that, or when the grace period is over, no connection is accepted
/// any more. Of those that are open, what has arrived by then of one request is still read, and then each of them ends.
/// If its client doesn't take the answer, it is closed when the patience is over too. An ending has no seat of the
/// board, so it can't change anything there.
#[derive(Drop)]
pub struct Ending {
    /// The descriptor of the input.
    input: i32,
    /// How many milliseconds the lanes have to hand over what is left.
    grace: u64,
    /// How many milliseconds after the end of the input every connection is closed. `None` sets no limit.
    most: Option<u64>,
    /// When the input ended, in milliseconds of the system's clock. 0 before that.
    since: AtomicU64,
    /// When the grace is over, in milliseconds of the system's clock. 0 before the input ended.
    until: AtomicU64,
    /// Whether only what has arrived is read from any connection.
    is_over: AtomicBool,
    /// Whether every connection is closed.
    is_cut: AtomicBool,
    /// The sockets of the connections that are being served.
    sockets: Mutex<Vec<i32>>,
}

/// Asks `poll` whether a descriptor has something to read.
fn awaited(fd: i32) -> pollfd {
    pollfd {
        fd,
        events: POLLIN,
        revents: 0,
    }
}

impl Ending {
    /// Waits for the end of the input with the descriptor `input`. The lanes have `grace` seconds after it, and the
    /// clients `patience` seconds more, if that is a number. There is room for `open` connections at a time. The error
    /// is that memory ran out.
    pub fn new(
        alloc: Global,
        input: i32,
        grace: u64,
        patience: Option<u64>,
        open: u64,
    ) -> Result<Ending, AllocError> {
        let most = patience.map(|patience| patience.saturating_add(grace).saturating_mul(1000));
        Ok(Ending {
            input,
            grace: grace.saturating_mul(1000),
            most,
            since: AtomicU64::new(0),
            until: AtomicU64::new(0),
            is_over: AtomicBool::new(false),
            is_cut: AtomicBool::new(false),
            sockets: Mutex::new(Vec::with_capacity(alloc, open as usize)?),
        })
    }

    /// When the lanes have no time left, in milliseconds of the system's clock that never goes back. 0 before the input
    /// has ended.
    pub fn until(&self) -> &AtomicU64 {
        &self.until
    }

    /// Whether the input has ended, and the lanes have time left.
    pub(crate) fn has_time(&self) -> bool {
        milliseconds() < self.until.load(Ordering::SeqCst)
    }

    /// Whether only what has arrived is read from any connection.
    pub(crate) fn is_over(&self) -> bool {
        self.is_over.load(Ordering::SeqCst)
    }

    /// The connection on this socket is going to be served.
    pub(crate) fn begin<R: Wait>(&self, rt: &R, socket: i32) {
        let mut sockets = self.sockets.lock(rt);
        let _there_is_room = sockets.push(socket);
        if self.is_over() {
            let _ = libc::net::shutdown(socket, SHUT_RD);
        }
        if self.is_cut.load(Ordering::SeqCst) {
            let _ = libc::net::shutdown(socket, SHUT_RDWR);
        }
    }

    /// The connection on this socket is no longer served, and the socket may be closed.
    pub(crate) fn end<R: Wait>(&self, rt: &R, socket: i32) {
        let mut sockets = self.sockets.lock(rt);
        if let Some(place) = sockets.iter().position(|it| *it == socket) {
            sockets.swap_remove(place);
        }
    }

    /// Reads from every connection only what has arrived, and wakes the threads that wait for bytes.
    pub(crate) fn shut<R: Wait>(&self, rt: &R) {
        let sockets = self.sockets.lock(rt);
        self.is_over.store(true, Ordering::SeqCst);
        for socket in &*sockets {
            let _ = libc::net::shutdown(*socket, SHUT_RD);
        }
    }

    /// Closes every connection, and wakes the threads that wait for its client.
    pub(crate) fn cut<R: Wait>(&self, rt: &R) {
        let sockets = self.sockets.lock(rt);
        self.is_cut.store(true, Ordering::SeqCst);
        for socket in &*sockets {
            let _ = libc::net::shutdown(*socket, SHUT_RDWR);
        }
    }

    /// Whether connections are closed at some time, although their clients don't take the answers.
    pub(crate) fn has_limit(&self) -> bool {
        self.most.is_some()
    }

    /// Whether that time has come.
    pub(crate) fn is_late(&self) -> bool {
        let since = self.since.load(Ordering::SeqCst);
        match self.most {
            Some(most) => since > 0 && milliseconds().saturating_sub(since) >= most,
            None => false,
        }
    }

    /// Waits until a connection arrives at the listener or the input has something, for some milliseconds at most.
    pub(crate) fn wait(&self, listener: i32) {
        match self.since.load(Ordering::SeqCst) {
            0 => self.poll(self.input, listener, PAUSE),
            _ => self.poll(NOTHING, listener, LAST_PAUSE),
        }
    }

    /// Checks whether the input has ended, without waiting for it.
    pub(crate) fn look(&self) {
        if self.since.load(Ordering::SeqCst) == 0 {
            self.poll(self.input, NOTHING, 0);
        }
    }

    /// Waits for one of the two for at most `pause` milliseconds, and reads the input if it has something.
    fn poll(&self, input: i32, listener: i32, pause: i32) {
        let mut awaited = [awaited(input), awaited(listener)];
        let _ = libc::net::poll(&mut awaited, pause);
        if awaited[0].revents != 0 {
            self.read();
        }
    }

    /// Reads and drops what the input has, and notes its end. A failed read counts as the end.
    fn read(&self) {
        let mut dropped = [0; DROPPED];
        if libc::read(self.input, &mut dropped) <= 0 {
            let since = milliseconds().max(1);
            let until = since.saturating_add(self.grace);
            self.until.store(until, Ordering::SeqCst);
            self.since.store(since, Ordering::SeqCst);
        }
    }

    /// Whether connections are still accepted. Closes the board if the input has ended.
    pub(crate) fn goes_on<B: Naming, R: Wait>(&self, rt: &R, board: &Board<B>) -> bool {
        if self.since.load(Ordering::SeqCst) == 0 {
            return true;
        }
        board.close(rt);
        self.has_time() && board.counts(rt).waiting.iter().any(|count| *count > 0)
    }
}
