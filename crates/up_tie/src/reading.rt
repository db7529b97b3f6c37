//! A log that is being read.
ghost use Rattle.std.specs.Prelude.{◌≡◌, ◌++◌, ◌<◌, [], List, true, IfOk, IfSome, IfNone};
ghost use Rattle.up_log.specs.Held.{AreHeld};
ghost use Rattle.up_log.specs.Logs.{IsReaderAt, unread};
ghost use Rattle.up_log.specs.declared.entry.Entry.{Entry as Logged};

use crate::log_history::LogHistory;
use crate::site::Site;
use crate::written::Written;
use sqlite_disk::Disk;
use std::alloc::Global;
use std::marker::Model;
use up_history::{Front, History};
use up_log::{Entry, LogFault, LogReader};
use up_message::Sequence;
use up_places::Contents;

/// A log that is being read, with the data files that have the bytes of which it names the places, and the history of
/// what was read. Contracts describe it as the entries that were read, and how many bytes of the file were not.
#[derive(Drop)]
pub struct Reading<D: Disk, C: Contents, J: Site> {
    reader: LogReader<D>,
    files: C,
    history: History<Entry, J>,
    front: Front<Entry, J>,
}

impl<D: Disk, C: Contents, J: Site> Model for Reading<D, C, J> {
    ghost use Rattle.up_log.specs.Logs.{unread};
    ghost use Rattle.up_tie.specs.Ties.{ReadSoFar, HasRead};

    ghost Value = { ReadSoFar };

    ghost view = { λ r. record { entries = r.front; unread = unread r.reader } };

    ghost invariant = { λ r. HasRead D.Disk (C.content r.files) r.reader J.setup J.premise r.front };
}

impl<D: Disk, C: Contents, J: Site> Reading<D, C, J> {
    /// A log of which no batch was read, and a history to which nothing was added.
    pub fn new(reader: LogReader<D>, files: C, history: LogHistory<J>) -> Reading<D, C, J>
        requires reader { J.premise
            → (batches : List (List Logged)) × IsReaderAt D.Disk reader J.setup [] batches
            × AreHeld (C.content files) batches }
        requires new { history ≡ [] }
        ensures { result ≡ record { entries = []; unread = unread reader } }
    {
        let LogHistory { history, front } = history;
        Reading {
            reader,
            files,
            history,
            front,
        }
    }

    /// Reads the next batch and adds it to the history; `None` at the end. `Broken` if the history has entries that
    /// were not seen, or accepts no more; otherwise the errors of `LogReader::next_batch`.
    pub fn next_batch(
        self,
        alloc: Global,
    ) -> Result<(Reading<D, C, J>, Option<Sequence<Entry>>), LogFault>
    where
        D: Drop,
        C: Drop,
        ensures some { IfOk result (λ r. IfSome r.1 (λ entries.
            r.0.entries ≡ self.entries ++ entries)) }
        ensures further { IfOk result (λ r. IfSome r.1 (λ _. r.0.unread < self.unread)) }
        ensures end { IfOk result (λ r. IfNone r.1 (r.0.entries ≡ self.entries)) }
    {
        let Reading {
            reader,
            files,
            history,
            front,
        } = self;
        let mut reader = reader;
        let mut front = front;
        let found = reader.next_batch(alloc, &files)?;
        if let Some(entries) = &found {
            if !front.add_all(&history, entries.as_slice()) {
                return Err(LogFault::Broken);
            }
        }
        Ok((
            Reading {
                reader,
                files,
                history,
                front,
            },
            found,
        ))
    }

    /// The entries that were read.
    pub fn front(&self) -> Front<Entry, J>
        ensures { result ≡ self.now.entries }
    {
        self.front.again()
    }

    /// The log, if all of its batches were read. `NotRead` if some were not.
    pub fn finish(self) -> Result<Written<D, J>, LogFault>
    where
        D: Drop,
        C: Drop,
        ensures { IfOk result (λ w. (w.entries ≡ self.entries) × (w.is_tied ≡ true)) }
    {
        let Reading {
            reader,
            history,
            front,
            ..
        } = self;
        match reader.finish() {
            Ok(log) => Ok(Written::tied(log, history, front)),
            Err(refused) => Err(refused.fault),
        }
    }
}
