//! Logs in files in memory.
use sqlite_disk::{Disk, Memory};
use std::alloc::{AllocError, Global};
use std::io;
use up_compact::{Head, Heads};
use up_events::{Id, Kind};
use up_headers::{NewUpload, Patch, Request};
use up_log::{Consent, Entry, Log, LogFault, LogReader, Setup, Spelled};
use up_message::{Piece, Sequence};
use up_places::NoFiles;

pub const SETUP: Setup = Setup {
    lanes: 2,
    max_size: 1000,
};

/// What an entry asks for. A row also has an id and a number.
#[derive(Clone, Copy)]
pub enum What {
    /// Creates a plain upload of this length.
    Make,
    /// Puts this number of bytes at the start of an upload.
    Put,
    /// Removes an upload.
    Remove,
}

pub type Row = (What, u128, u64);

/// Two entries.
pub const PAIR: [Row; 2] = [(What::Remove, 7, 0), (What::Put, 8, 5)];

fn request_of(alloc: Global, row: Row) -> Result<Request, AllocError> {
    let (what, id, number) = row;
    let id = Id::new(id);
    match what {
        What::Make => Ok(Request::Create(NewUpload {
            kind: Kind::Plain,
            length: Some(number),
            parts: Sequence::new(alloc),
            pairs: Sequence::new(alloc),
            metadata: None,
            concat: None,
        })),
        What::Put => Ok(Request::Patch(Patch {
            id,
            media: true,
            offset: Some(0),
            length: None,
            bytes: Piece::from_sequence(Sequence::from_vec(vec![in alloc; 120; number as usize]?))?,
        })),
        What::Remove => Ok(Request::Delete(id)),
    }
}

/// The entries of these rows, which every closure allows.
pub fn entries_of(alloc: Global, rows: &[Row]) -> Result<Vec<Entry>, AllocError> {
    let mut entries = Vec::new(alloc);
    for row in rows {
        let consent = match row.0 {
            What::Put => Consent::AllowedFinish,
            What::Make | What::Remove => Consent::Allowed,
        };
        entries.push(Entry {
            id: Id::new(row.1),
            consent,
            place: None,
            request: request_of(alloc, *row)?,
        })?;
    }
    Ok(entries)
}

/// The same entries, encoded.
pub fn spelled_of(alloc: Global, rows: &[Row]) -> Result<Vec<Spelled>, AllocError> {
    let mut spelled = Vec::new(alloc);
    for entry in &entries_of(alloc, rows)? {
        spelled.push(Spelled::new(alloc, entry)?)?;
    }
    Ok(spelled)
}

/// A file with these bytes.
pub fn disk_of(alloc: Global, bytes: &[u8]) -> io::Result<Memory> {
    let mut disk = Memory::new(alloc);
    if disk.may_be_used() {
        disk.write_at(0, bytes)?;
    }
    if disk.may_be_used() {
        disk.sync()?;
    }
    Ok(disk)
}

/// The number of batches that are left to be read.
pub fn batches_of<D: Disk>(alloc: Global, reader: &mut LogReader<D>) -> Result<u64, LogFault> {
    for count in 0..10 {
        if reader.next_batch(alloc, &NoFiles)?.is_none() {
            return Ok(count);
        }
    }
    Ok(10)
}

/// Starts to open a log.
pub fn reader_of<D: Disk>(alloc: Global, disk: D) -> Result<LogReader<D>, LogFault>
where
    D: Drop,
{
    match LogReader::open(alloc, disk, SETUP) {
        Ok(reader) => Ok(reader),
        Err(refused) => Err(refused.fault),
    }
}

/// The heads in a file, and the last of them.
pub fn heads_of<D: Disk>(alloc: Global, disk: D) -> Result<(Heads<D>, Head), LogFault>
where
    D: Drop,
{
    Heads::read(alloc, reader_of(alloc, disk)?)
}

/// The log in a file, and the number of its batches.
pub fn read<D: Disk>(alloc: Global, disk: D) -> Result<(Log<D>, u64), LogFault>
where
    D: Drop,
{
    let mut reader = reader_of(alloc, disk)?;
    let count = batches_of(alloc, &mut reader)?;
    match reader.finish() {
        Ok(log) => Ok((log, count)),
        Err(refused) => Err(refused.fault),
    }
}

/// The file of a log with these batches.
pub fn file_of(alloc: Global, batches: &[&[Row]]) -> Result<Memory, LogFault> {
    let (mut log, _) = read(alloc, Memory::new(alloc))?;
    for rows in batches {
        log.append(&mut Vec::new(alloc), &spelled_of(alloc, rows)?)?;
    }
    Ok(log.into_device())
}

/// The bytes of a log with this number of batches.
pub fn log_of(alloc: Global, batches: u64) -> Result<Vec<u8>, LogFault> {
    let entries = spelled_of(alloc, &PAIR)?;
    let (mut log, _) = read(alloc, Memory::new(alloc))?;
    for _ in 0..batches {
        log.append(&mut Vec::new(alloc), &entries)?;
    }
    Ok(Vec::from_slice(alloc, log.into_device().bytes())?)
}
