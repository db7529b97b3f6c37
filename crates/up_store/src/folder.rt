//! Where the logs of a store are.
use sqlite_disk::Disk;
use up_log::{LogFault, LogReader};

/// Where the logs of a store are made and removed. Each switch to a shorter log makes the logs of the next generation.
pub trait Folder<D: Disk> {
    /// Makes the logs of this generation, one for the changes and one for the voids. Files of this generation that a
    /// failed switch left are removed first. The error says why a log can't be made.
    fn make(&self, generation: u64) -> Result<(LogReader<D>, LogReader<D>), LogFault>;

    /// Removes the logs of this generation, if they are there.
    fn remove(&self, generation: u64);
}
