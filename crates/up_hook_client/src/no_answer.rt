//! Why a hook server gave no answer.
use http1::{ReadError, WriteError};
use std::alloc::{AllocError, AllocFailed};
use std::io::{self, ErrorKind};
use thiserror::Error;

/// The most bytes of the body of an answer.
pub const MAX_ANSWER: usize = 65_536;

/// Why a hook server gave no answer.
#[derive(Debug, Drop, Error)]
pub enum NoAnswer {
    /// The server can't be reached, or the connection failed.
    #[error("{0}")]
    Failed(io::Error),
    /// The answer was not there in time.
    #[error("no answer in time")]
    Late,
    /// The connection was closed before the answer was whole.
    #[error("the connection was closed before the answer was whole")]
    Cut,
    /// What came is no answer of HTTP/1.1 (RFC 9112).
    #[error("{0}")]
    Malformed(ReadError),
    /// The body has too many bytes.
    #[error("the answer has more than {max} bytes", max = MAX_ANSWER)]
    TooLong,
    #[error("out of memory")]
    Memory,
}

/// A call that a signal has interrupted is made again while there is time, as one is that has waited long enough.
impl From<io::Error> for NoAnswer {
    fn from(error: io::Error) -> Self {
        match error.kind() {
            ErrorKind::WouldBlock | ErrorKind::TimedOut | ErrorKind::Interrupted => NoAnswer::Late,
            ErrorKind::OutOfMemory => NoAnswer::Memory,
            _ => NoAnswer::Failed(error),
        }
    }
}

impl From<ReadError> for NoAnswer {
    fn from(error: ReadError) -> Self {
        NoAnswer::Malformed(error)
    }
}

/// A request that is made of a server's URL and a text in JSON can always be written, unless memory runs out.
impl From<WriteError> for NoAnswer {
    fn from(_: WriteError) -> Self {
        NoAnswer::Memory
    }
}

impl From<AllocError> for NoAnswer {
    fn from(_: AllocError) -> Self {
        NoAnswer::Memory
    }
}

impl<T: Drop> From<AllocFailed<T>> for NoAnswer {
    fn from(_: AllocFailed<T>) -> Self {
        NoAnswer::Memory
    }
}
