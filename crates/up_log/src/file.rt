//! A log in a file of the system.
ghost use Rattle.std.specs.IoError.{error_kind};
ghost use Rattle.std.specs.Prelude.{◌≡◌, ◌≢◌};
ghost use Rattle.std.specs.declared.io.ErrorKind.TheVariants.{OutOfMemory};

use crate::fault::LogFault;
use crate::reader::LogReader;
use crate::setup::Setup;
use sqlite_disk::{Files, Start};
use sqlite_std_file::{FileFrom, OpenError, open};
use std::io;

/// The fault of a call of the system on a file. Such a call asks for memory too.
fn fault_of(error: io::Error) -> LogFault
    ensures memory { error_kind error ≡ OutOfMemory → result ≡ LogFault.Memory }
    ensures disk { error_kind error ≢ OutOfMemory → result ≡ LogFault.Disk error }
{
    match error.kind() {
        io::ErrorKind::OutOfMemory => LogFault::Memory,
        _ => LogFault::Disk(error),
    }
}

/// Opens the file at this path, and creates it if there is none. Until it is dropped, nobody else can open the file
/// (`Busy`). An empty file with the same name and `-wal` at its end stays next to it. `Disk` if the system reports an
/// error, `Foreign` if the file is part of a database, `Memory` if memory runs out.
pub fn open_device<S: Start>(
    rt: &HostRuntime,
    path: &str,
    start: S,
) -> Result<FileFrom<S>, LogFault> {
    match open(rt, path, start) {
        Ok(Files { log: _wal, db }) => Ok(db),
        Err(OpenError::Io(error)) => Err(fault_of(error)),
        Err(OpenError::OutOfMemory) => Err(LogFault::Memory),
        Err(OpenError::Busy) => Err(LogFault::Busy),
        Err(OpenError::HotJournal) => Err(LogFault::Foreign),
    }
}

/// Starts to open the log of a server with this setup in the file at this path. The errors are those of `open_device`
/// and of `LogReader::open`.
pub fn open_file<S: Start>(
    rt: &HostRuntime,
    path: &str,
    start: S,
    setup: Setup,
) -> Result<LogReader<FileFrom<S>>, LogFault> {
    let device = open_device(rt, path, start)?;
    match LogReader::open(rt.alloc(), device, setup) {
        Ok(reader) => Ok(reader),
        Err(refused) => Err(refused.fault),
    }
}
