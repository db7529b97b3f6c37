//! Where the data files of a store are.
ghost use Rattle.std.specs.Prelude.{◌≡◌};

use crate::fault::{BlockFault, OpenFault};
use crate::head::Head;
use sqlite_disk::Disk;
use std::io;
use thiserror::Error;

/// Why a body was not written, or a block of it not read.
#[derive(Clone, Copy, Debug, Error)]
pub enum BodyFault {
    /// There is no new file for it.
    #[error("no new file can be made: {0}")]
    Made(OpenFault),
    /// The file with its bytes could not be opened.
    #[error("file {number}: {fault}")]
    Opened {
        number: u64,
        fault: OpenFault,
    },
    /// A block of the place that begins at byte `at` of the file could not be read.
    #[error("file {number}, from byte {at} on, block {index}: {fault}")]
    Read {
        number: u64,
        at: u64,
        index: usize,
        fault: BlockFault,
    },
    /// The file could not be written, or not synced.
    #[error("file {number}: {fault}")]
    Written {
        number: u64,
        fault: BlockFault,
    },
}

/// Where the data files of a store are made and opened.
pub trait BodyFiles<D: Disk> {
    /// Makes a file that no other has written to, with a number that no file of the store has had. Its name is on the disk.
    /// Returns the number too.
    fn make(&self) -> io::Result<(u64, D)>;

    /// Opens the file of this number to be read.
    fn open(&self, number: u64) -> io::Result<D>;

    /// The head of the file of this number, if it were made now.
    fn head(&self, number: u64) -> Head
        ensures { result.number ≡ number };

    /// Is told why a body was not written or read.
    fn tell(&self, fault: &BodyFault);
}
