//! A file that was not opened.
use crate::fault::OpenFault;
use sqlite_disk::Disk;

/// Why a file was not opened or made, and the file.
#[derive(Drop)]
pub struct Refused<D: Disk> {
    pub fault: OpenFault,
    pub device: D,
}
