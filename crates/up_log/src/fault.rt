//! Why a log cannot be read or written.
ghost use Rattle.std.specs.Prelude.{◌≡◌};
ghost use Rattle.up_log.specs.declared.fault.Unread.TheVariants.{Memory};
ghost use Rattle.up_log.specs.declared.fault.LogFault.TheVariants as log_fault;

use std::alloc::{AllocError, AllocFailed};
use std::io;
use thiserror::Error;
use up_places::Position;

/// Why a field cannot be read from bytes.
#[derive(Clone, Copy, Debug, PartialEq, Eq, Error)]
pub enum Unread {
    #[error("out of memory")]
    Memory,
    /// The bytes do not begin with such a field.
    #[error("no such field")]
    Damaged,
    /// The bytes name bytes of data files, from here on, which are not there.
    #[error("no such bytes in data file {} from byte {} on", .0.file, .0.at)]
    NotThere(Position),
}

impl From<AllocError> for Unread {
    ghost from_gives = { λ _ e. e ≡ Memory };

    fn from(_: AllocError) -> Self {
        Unread::Memory
    }
}

impl<T: Drop> From<AllocFailed<T>> for Unread {
    ghost from_gives = { λ _ e. e ≡ Memory };

    fn from(_: AllocFailed<T>) -> Self {
        Unread::Memory
    }
}

/// Why a call of a log failed.
#[derive(Clone, Copy, Debug, Error)]
pub enum LogFault {
    /// Memory ran out. The call can be retried.
    #[error("out of memory")]
    Memory,
    /// The file is not a log. It is unchanged.
    #[error("the file is no log of up")]
    Foreign,
    /// The log has a version that this program does not support. It is unchanged.
    #[error("the log has version {0}, and this program reads version 1")]
    Version(u64),
    /// The log belongs to a server with another number of lanes. It is unchanged.
    #[error("the log was made with {made} lanes, and is opened with {asked}")]
    Lanes { made: u64, asked: u64 },
    /// The log belongs to a server with another maximum size of an upload, in bytes. It is unchanged.
    #[error("the log was made for uploads of at most {made} bytes, and is opened for {asked}")]
    MaxSize { made: u64, asked: u64 },
    /// A block after an open gate does not contain a batch: something else changed the file, or the medium is failing.
    /// The place is that of the gate, in bytes from the beginning of the file.
    #[error("the log is damaged at byte {place}")]
    Damaged { place: u64 },
    /// A batch names bytes of a data file, from this byte on, which are not there.
    #[error("the log names bytes of data file {file} from byte {at} on, which are not there")]
    NotThere { file: u64, at: u64 },
    /// The file has fewer bytes than were written to it, so it is another file, or something else changed it.
    #[error("the log has {len} bytes, and {written} were written to it")]
    Short { len: u64, written: u64 },
    /// A batch of a log of heads is no head.
    #[error("the log has a batch that is no head")]
    NoHead,
    /// The log has more entries than can be counted.
    #[error("the log has too many entries")]
    TooMany,
    /// Some batches were not read.
    #[error("the log was not read to its end")]
    NotRead,
    /// Another server has the file open.
    #[error("another server has the log open")]
    Busy,
    /// The disk failed, or is full.
    #[error("the disk failed: {0}")]
    Disk(io::Error),
    /// An earlier call failed, so that the file must be opened again.
    #[error("an earlier write of the log failed")]
    Broken,
}

impl From<AllocError> for LogFault {
    ghost from_gives = { λ _ e. e ≡ log_fault.Memory };

    fn from(_: AllocError) -> Self {
        LogFault::Memory
    }
}

impl<T: Drop> From<AllocFailed<T>> for LogFault {
    ghost from_gives = { λ _ e. e ≡ log_fault.Memory };

    fn from(_: AllocFailed<T>) -> Self {
        LogFault::Memory
    }
}

impl From<io::Error> for LogFault {
    ghost from_gives = { λ error e. e ≡ log_fault.Disk error };

    fn from(error: io::Error) -> Self {
        LogFault::Disk(error)
    }
}
