//! Data files of the operating system.
ghost use Rattle.std.specs.Prelude.{◌≡◌, ◌<◌, ◌≤◌, ◌^◌, [], ◌∷◌, length, IfOk};
ghost use Rattle.sqlite_disk.specs.Events.{settled};
ghost use Rattle.sqlite_disk.specs.Modelled.{calls_of};

use crate::record::Record;
use sqlite_disk::{Calls, Modelled, Wary, is_no_room};
use std::fs::OpenOptions;
use std::os::fd::AsRawFd;
use std::os::unix::fs::{FileExt, OpenOptionsExt};
use std::{fs, io};

// How a call is noted.
const SETTLED: u64 = 0;

const MEASURED: u64 = 1;

const READ: u64 = 2;

const WRITTEN: u64 = 3;

const CUT: u64 = 4;

const FLUSHED: u64 = 5;

const TESTED: u64 = 6;

/// The last byte that the system can be asked for.
const MAX_OFFSET: usize = (1 << 63) - 1;

/// An open file of the operating system.
#[derive(Drop)]
pub struct HostFile {
    file: fs::File,
    log: Record,
}

/// A data file of the operating system. A torn write may leave any bytes of it.
pub type BodyFile = Modelled<HostFile, Wary>;

/// A file that is open. Its descriptor is none of the standard streams, also if one of these is closed.
fn opened(file: fs::File) -> io::Result<BodyFile>
    ensures { IfOk result (λ file. (calls_of file).log.events ≡ settled 0 ∷ []) }
{
    let file = if file.as_raw_fd() <= 2 {
        file.try_clone()?
    } else {
        file
    };
    let mut log = Record::new();
    log.note(&[SETTLED, 0, 0, 1], &[]);
    Ok(Modelled::new(HostFile { file, log }, false, 0))
}

/// Makes an empty file at this path, which only its owner may look into, and has it and its name in this folder on the
/// disk. An error of the kind `AlreadyExists` if there is a file at the path.
pub fn make_body_file(rt: &HostRuntime, folder: &str, path: &str) -> io::Result<BodyFile>
    ensures { IfOk result (λ file. (calls_of file).log.events ≡ settled 0 ∷ []) }
{
    let file = OpenOptions::new()
        .read(true)
        .write(true)
        .create_new(true)
        .mode(0o600)
        .open(rt, path)?;
    file.sync_all()?;
    fs::File::open(rt, folder)?.sync_all()?;
    opened(file)
}

/// Opens the file at this path to be read. It may be open elsewhere and be written, so a crash need not leave it as it is
/// now: only what was settled there stays.
pub fn open_body_file(rt: &HostRuntime, path: &str) -> io::Result<BodyFile>
    ensures { IfOk result (λ file. (calls_of file).log.events ≡ settled 0 ∷ []) }
{
    opened(OpenOptions::new().read(true).open(rt, path)?)
}

/// The number of bytes of a file.
fn measure(file: &fs::File) -> io::Result<usize> {
    Ok(file.metadata()?.len() as usize)
}

/// Reads some of the bytes from this one on, at least one. `UnexpectedEof` if there are none.
fn read(file: &fs::File, at: usize, buf: &mut [u8]) -> io::Result<usize>
    ensures { IfOk result (λ n. (0 < n) × (n ≤ length buf.old) × (at < 2 ^ 63)) }
{
    if at > MAX_OFFSET {
        return Err(io::ErrorKind::InvalidInput.into());
    }
    let count = file.read_at(buf, at as u64)?;
    if count == 0 {
        Err(io::ErrorKind::UnexpectedEof.into())
    } else {
        Ok(count)
    }
}

/// Writes some of the bytes from this one on, at least one. `WriteZero` if the system takes none.
fn write(file: &fs::File, at: usize, bytes: &[u8]) -> io::Result<usize>
    ensures { IfOk result (λ n. (0 < n) × (n ≤ length bytes.now) × (at < 2 ^ 63)) }
{
    if at > MAX_OFFSET {
        return Err(io::ErrorKind::InvalidInput.into());
    }
    let count = file.write_at(bytes, at as u64)?;
    if count == 0 {
        Err(io::ErrorKind::WriteZero.into())
    } else {
        Ok(count)
    }
}

impl Calls for HostFile {
    ghost history = { λ f. f.log.events };

    fn len(&mut self) -> io::Result<usize> {
        let answer = measure(&self.file);
        match answer {
            Ok(n) => self.log.note(&[MEASURED, n as u64, 0, 1], &[]),
            Err(_) => self.log.note(&[MEASURED, 0, 0, 0], &[]),
        }
        answer
    }

    fn read_some(&mut self, at: usize, buf: &mut [u8]) -> io::Result<usize> {
        let (place, len) = (at as u64, buf.len() as u64);
        let answer = read(&self.file, at, buf);
        match answer {
            Ok(n) => self.log.note(&[READ, place, len, 1], &buf[..n]),
            Err(_) => self.log.note(&[READ, place, len, 0], &[]),
        }
        answer
    }

    fn read_under(&mut self, key: u64, want: u64, at: usize, buf: &mut [u8]) -> io::Result<usize> {
        let (place, len) = (at as u64, buf.len() as u64);
        let answer = read(&self.file, at, buf);
        match answer {
            Ok(n) => self
                .log
                .note(&[TESTED, place, len, 1, key, want], &buf[..n]),
            Err(_) => self.log.note(&[TESTED, place, len, 0, key, want], &[]),
        }
        answer
    }

    fn write_some(&mut self, at: usize, bytes: &[u8]) -> io::Result<usize> {
        let answer = write(&self.file, at, bytes);
        match answer {
            Ok(n) => self.log.note(&[WRITTEN, at as u64, n as u64, 1], bytes),
            Err(error) => self.log.note(
                &[WRITTEN, at as u64, u64::from(is_no_room(&error)), 0],
                bytes,
            ),
        }
        answer
    }

    fn resize(&mut self, len: usize) -> io::Result<()> {
        let answer = self.file.set_len(len as u64);
        match answer {
            Ok(()) => self.log.note(&[CUT, len as u64, 0, 1], &[]),
            Err(error) => self
                .log
                .note(&[CUT, len as u64, u64::from(is_no_room(&error)), 0], &[]),
        }
        answer
    }

    fn sync(&mut self) -> io::Result<()> {
        let answer = self.file.sync_data();
        match answer {
            Ok(()) => self.log.note(&[FLUSHED, 0, 0, 1], &[]),
            Err(error) => self
                .log
                .note(&[FLUSHED, 0, u64::from(is_no_room(&error)), 0], &[]),
        }
        answer
    }
}
