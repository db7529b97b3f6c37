//! Why a count cannot be opened, or does not grow.
ghost use Rattle.std.specs.Prelude.{◌≡◌};
ghost use Rattle.up_handed.specs.declared.fault.HandedFault.TheVariants.{Disk};

use std::io;
use thiserror::Error;

/// Why a call of a count failed.
#[derive(Clone, Copy, Debug, Error)]
pub enum HandedFault {
    /// Memory ran out. The call can be retried.
    #[error("out of memory")]
    Memory,
    /// Another server has the file open.
    #[error("another server has the count open")]
    Busy,
    /// The file is part of a database, and is not a count.
    #[error("the file is no count of up")]
    Foreign,
    /// The disk failed, or is full. The call can be retried.
    #[error("the disk failed: {0}")]
    Disk(io::Error),
    /// A sync has failed, so that the file must be opened again.
    #[error("an earlier sync of the count failed")]
    Broken,
    /// The number is the maximum, 2^64 - 1.
    #[error("the count is full")]
    Full,
}

impl From<io::Error> for HandedFault {
    ghost from_gives = { λ error e. e ≡ Disk error };

    fn from(error: io::Error) -> Self {
        HandedFault::Disk(error)
    }
}
