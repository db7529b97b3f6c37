//! The count of a lane in a file of the system.
ghost use Rattle.std.specs.IoError.{error_kind};
ghost use Rattle.std.specs.Prelude.{◌≡◌, ◌≢◌, IfOk};
ghost use Rattle.std.specs.declared.io.ErrorKind.TheVariants.{OutOfMemory};
ghost use Rattle.up_handed.specs.Counts.{count_of, device_of};
ghost use Rattle.up_handed.specs.OnDisk.{IsOnDisk};

use crate::fault::HandedFault;
use crate::handed::Handed;
use sqlite_disk::{Disk, Files, Start};
use sqlite_std_file::{FileFrom, OpenError, open};
use std::io;

/// The fault of a call of the system on a file. Such a call asks for memory too.
fn fault_of(error: io::Error) -> HandedFault
    ensures memory { error_kind error ≡ OutOfMemory → result ≡ HandedFault.Memory }
    ensures disk { error_kind error ≢ OutOfMemory → result ≡ HandedFault.Disk error }
{
    match error.kind() {
        io::ErrorKind::OutOfMemory => HandedFault::Memory,
        _ => HandedFault::Disk(error),
    }
}

/// Opens the count of a lane in the file at this path, and creates the file with the count 0 if there is none. Each
/// lane has a file of its own, such as `handed.0` and `handed.1`. Until the count is dropped, nobody else can open the
/// file (`Busy`). An empty file with the same name and `-wal` at its end stays next to it. `Disk` if the disk fails,
/// `Foreign` if the file is part of a database, `Memory` if memory runs out, and the errors of `Handed::open`.
pub fn open_handed<S: Start>(
    rt: &HostRuntime,
    path: &str,
    start: S,
) -> Result<Handed<FileFrom<S>>, HandedFault>
    ensures { IfOk result (λ handed.
        IsOnDisk ⟦<FileFrom<S> as Disk>⟧ (device_of handed) (count_of handed)) }
{
    match open(rt, path, start) {
        Ok(Files { log: _wal, db }) => match Handed::open(db) {
            Ok(handed) => Ok(handed),
            Err(refused) => Err(refused.fault),
        },
        Err(OpenError::Io(error)) => Err(fault_of(error)),
        Err(OpenError::OutOfMemory) => Err(HandedFault::Memory),
        Err(OpenError::Busy) => Err(HandedFault::Busy),
        Err(OpenError::HotJournal) => Err(HandedFault::Foreign),
    }
}
