//! Why a file of bodies is not opened, and a block not written or read.
ghost use Rattle.std.specs.Prelude.{◌≡◌};
ghost use Rattle.up_bodies.specs.declared.fault.BlockFault.TheVariants as block_fault;
ghost use Rattle.up_bodies.specs.declared.fault.OpenFault.TheVariants as open_fault;

use std::alloc::AllocError;
use std::io;
use thiserror::Error;

/// Why a file of bodies is not opened.
#[derive(Clone, Copy, Debug, Error)]
pub enum OpenFault {
    /// It is not a file of bodies.
    #[error("the file is no file of bodies of up")]
    Foreign,
    /// It has a version that this program does not support.
    #[error("the file has version {0}, and this program reads version 2")]
    Version(u64),
    /// The checksum of its head is wrong.
    #[error("the head of the file is damaged")]
    Damaged,
    /// It belongs to another store.
    #[error("the file is of another store")]
    OtherStore,
    /// It is another file of this store.
    #[error("the file is that of number {0}")]
    OtherNumber(u64),
    /// It was made after the log was.
    #[error("the file is of generation {file}, and the log of generation {log}")]
    Later { file: u64, log: u64 },
    /// A sync has failed before, so that the file must be opened again.
    #[error("an earlier write of the file failed")]
    Broken,
    /// The disk failed, is full, or has no whole head.
    #[error("the disk failed: {0}")]
    Disk(io::Error),
    /// Memory ran out.
    #[error("out of memory")]
    NoMemory,
}

impl From<AllocError> for OpenFault {
    ghost from_gives = { λ _ fault. fault ≡ open_fault.NoMemory };

    fn from(_: AllocError) -> Self {
        OpenFault::NoMemory
    }
}

impl From<io::Error> for OpenFault {
    ghost from_gives = { λ error fault. fault ≡ open_fault.Disk error };

    fn from(error: io::Error) -> Self {
        OpenFault::Disk(error)
    }
}

/// Why a block is not written or read.
#[derive(Clone, Copy, Debug, Error)]
pub enum BlockFault {
    /// The checksum of the block is wrong.
    #[error("the block is damaged")]
    Damaged,
    /// The place of the block, or the end of the file, is 2^64 or more.
    #[error("the file is too large")]
    TooLarge,
    /// A sync has failed before, so that the file must be opened again.
    #[error("an earlier write of the file failed")]
    Broken,
    /// The disk failed, is full, or has no such block.
    #[error("the disk failed: {0}")]
    Disk(io::Error),
    /// Memory ran out.
    #[error("out of memory")]
    NoMemory,
}

impl From<AllocError> for BlockFault {
    ghost from_gives = { λ _ fault. fault ≡ block_fault.NoMemory };

    fn from(_: AllocError) -> Self {
        BlockFault::NoMemory
    }
}

impl From<io::Error> for BlockFault {
    ghost from_gives = { λ error fault. fault ≡ block_fault.Disk error };

    fn from(error: io::Error) -> Self {
        BlockFault::Disk(error)
    }
}
