//! Accepting connections at a listener.
use crate::connection_context::ConnectionContext;
use crate::notices::{Entrance, Notices, Want};
use std::io;
use std::net::{TcpListener, TcpStream};
use std::os::fd::AsRawFd;
use std::sync::Wait;
use up_dispatch::Naming;

/// The system's code if all descriptors of the system are in use (Linux, `errno`).
const ENFILE: i32 = 23;

/// The system's code if it has no memory for the buffers of a socket.
const ENOBUFS: i32 = 105;

/// The system's codes for an accept that failed only because of its own connection, so that the next one may succeed
/// (Linux, `accept(2)`): EPERM, EINTR, ENONET, EPROTO, ENOPROTOOPT, EPROTONOSUPPORT, ESOCKTNOSUPPORT, EOPNOTSUPP,
/// ENETDOWN, ENETUNREACH, ECONNABORTED, ECONNRESET, ETIMEDOUT, EHOSTDOWN and EHOSTUNREACH.
const PASSING: [i32; 15] = [
    1, 4, 64, 71, 92, 93, 94, 95, 100, 101, 103, 104, 110, 112, 113,
];

/// Why a connection was not accepted.
#[derive(Clone, Copy)]
pub enum Failed {
    /// Only this one failed.
    Passing,
    /// The next ones fail too, until this changes.
    Lasting(Entrance),
    /// The run ends, and no more are accepted.
    Over,
}

/// What the error of an accept means.
fn why(error: &io::Error) -> Failed {
    match error.raw_os_error() {
        Some(code) if matches!(code, libc::EMFILE | ENFILE) => {
            Failed::Lasting(Entrance::Wanting(Want::Descriptors(code)))
        }
        Some(code) if matches!(code, libc::ENOMEM | ENOBUFS) => {
            Failed::Lasting(Entrance::Wanting(Want::Memory(code)))
        }
        Some(code) if !PASSING.contains(&code) => Failed::Lasting(Entrance::Gone(code)),
        _ => Failed::Passing,
    }
}

/// A listener, and who is told whether connections can be accepted.
#[derive(Drop)]
pub struct Gate<'a, N> {
    listener: &'a TcpListener,
    notices: &'a N,
    /// Whether something is left to be told. Then the listener does not block, so that it can be told even if no
    /// connection arrives.
    is_unsettled: bool,
    /// Whether something else is waited for too. Then the listener never blocks.
    is_shared: bool,
}

impl<'a, N: Notices> Gate<'a, N> {
    /// Accepts at this listener. Nothing is left to be told. `is_shared` says whether something else is waited for too.
    pub fn new(listener: &'a TcpListener, notices: &'a N, is_shared: bool) -> Gate<'a, N> {
        if is_shared {
            let _ = listener.set_nonblocking(true);
        }
        Gate {
            listener,
            notices,
            is_unsettled: false,
            is_shared,
        }
    }

    /// Tells whether connections can be accepted. Returns whether nothing is left to be told.
    pub fn tell(&mut self, entrance: Entrance) -> bool {
        let is_settled = self.notices.tell(entrance);
        if is_settled == self.is_unsettled {
            self.is_unsettled = !is_settled;
            let _ = self
                .listener
                .set_nonblocking(self.is_unsettled || self.is_shared);
        }
        is_settled
    }

    /// Tells that connections are accepted, if that may be news.
    pub fn open(&mut self) {
        if self.is_unsettled {
            self.tell(Entrance::Open);
        }
    }

    /// If anything but the listener is waited for, waits until one of them has news. Returns whether the run goes on.
    fn goes_on<B: Naming, I, R: Wait>(
        &self,
        rt: &R,
        context: &ConnectionContext<'_, B, I>,
    ) -> bool {
        let Some(ending) = context.ending else {
            return true;
        };
        ending.wait(self.listener.as_raw_fd());
        ending.goes_on(rt, context.board)
    }

    /// Accepts a connection. `None` if the listener does not block, and none has arrived.
    fn accept_one(&self) -> Option<Result<TcpStream, Failed>> {
        match self.listener.accept() {
            Ok((stream, _)) => Some(Ok(stream)),
            Err(error) if error.kind() == io::ErrorKind::WouldBlock => None,
            Err(error) => Some(Err(why(&error))),
        }
    }

    /// Waits for the next connection, as long as the run goes on. The error says why there is none.
    pub fn accept<B: Naming, I, R: Wait>(
        &mut self,
        rt: &R,
        context: &ConnectionContext<'_, B, I>,
    ) -> Result<TcpStream, Failed> {
        for _ in rt.forever() {
            if !self.goes_on(rt, context) {
                return Err(Failed::Over);
            }
            if let Some(came) = self.accept_one() {
                return came;
            }
            self.open();
            if !self.is_shared {
                context.limit.back_off(rt, 0);
            }
        }
        unreachable!()
    }

    /// Makes the system refuse the connections that arrive, and those that wait to be accepted.
    pub fn shut(&self) {
        let _ = libc::net::shutdown(self.listener.as_raw_fd(), libc::net::SHUT_RD);
    }

    /// Makes the listener block again, as it did at first.
    pub fn leave(&mut self) {
        if self.is_unsettled || self.is_shared {
            let _ = self.listener.set_nonblocking(false);
        }
    }
}
