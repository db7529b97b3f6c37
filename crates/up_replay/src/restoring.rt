//! Restoring a book from a log on a disk.
ghost use Rattle.std.specs.Prelude.{◌≡◌, [], List, IfOk};
ghost use Rattle.up_log.specs.Held.{AreHeld};
ghost use Rattle.up_log.specs.Logs.{IsCleanLog, IsReaderAt, IsSettled};
ghost use Rattle.up_log.specs.declared.entry.Entry.{Entry as Logged};
ghost use Rattle.up_log.specs.declared.setup.Setup.{Setup};
ghost use Rattle.up_replay.specs.Replay.{entries_of, replayed};

use crate::replaying::{Unreplayed, replay};
use sqlite_disk::Disk;
use std::alloc::Global;
use thiserror::Error;
use up_log::{Log, LogFault, LogReader};
use up_machine::Book;
use up_places::Contents;

/// Why a book cannot be restored.
#[derive(Clone, Copy, Debug, Error)]
pub enum Unrestored {
    /// The log cannot be read.
    #[error("{0}")]
    Log(LogFault),
    /// An entry cannot be committed again.
    #[error("{0}")]
    Entry(Unreplayed),
}

impl From<LogFault> for Unrestored {
    fn from(fault: LogFault) -> Self {
        Unrestored::Log(fault)
    }
}

impl From<Unreplayed> for Unrestored {
    fn from(fault: Unreplayed) -> Self {
        Unrestored::Entry(fault)
    }
}

/// Reads a log to its end and commits each batch again, one after another. Apart from the book, only one batch is in
/// memory. These data files have the bytes of which the log names the places. The book is then the one that the log
/// defines, and batches can be appended to the log.
pub fn restore<D: Disk, C: Contents>(
    alloc: Global,
    reader: LogReader<D>,
    files: &C,
    book: &mut Book,
) -> Result<Log<D>, Unrestored>
where
    D: Drop,
    ensures { (setup : Setup) (batches : List (List Logged))
        → IsReaderAt D.Disk reader setup [] batches → AreHeld (C.content files.now) batches
        → IfOk result (λ log. IsCleanLog D.Disk log → IsSettled D.Disk log setup batches
        × (book.new ≡ replayed book.old (entries_of batches))) }
{
    let mut reader = reader;
    while let Some(entries) = reader.next_batch(alloc, files)? {
        replay(alloc, book, entries)?;
    }
    match reader.finish() {
        Ok(log) => Ok(log),
        Err(refused) => Err(Unrestored::Log(refused.fault)),
    }
}
