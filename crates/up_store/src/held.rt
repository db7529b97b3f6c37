//! The log of the changes, and whether it is open.
ghost use Rattle.std.specs.Prelude.{◌≡◌, IfOk, OnOk, IsTrue, length};
ghost use Rattle.up_store.specs.Failures.{is_failed};

use sqlite_disk::Disk;
use std::mem;
use std::sync::Wait;
use up_history::Chronicle;
use up_log::{Log, LogFault};
use up_tie::{Batch, LogHistory, OnDisk, Site, Written};

/// Who opens the file of the changes.
pub trait LogFile<D> {
    ghost use Rattle.std.specs.Prelude.{◌≡◌, ℕ, IfOk};

    /// Whether this is the file of this generation.
    ghost is_file: { ℕ → D → Type 0 };

    /// Opens the file of this generation again, after a call on it failed. `failed` is the file if it is still open; it
    /// is closed first. The error says why it can't be opened.
    fn open_again(&self, generation: u64, failed: Option<D>) -> Result<D, LogFault>
        ensures { IfOk result (λ device. is_file generation device) };

    /// Whether the file of this generation is still where it was. If that can't be told, it counts as there.
    fn is_there<R: Wait>(&self, rt: &R, generation: u64) -> bool;
}

/// Whether a log is open.
#[derive(Drop)]
enum State<D: Disk, J: Site> {
    /// It was not read yet.
    Unread,
    Open(Written<D, J>),
    /// A call failed, and the file could not be opened again. This was written to it, and the next block begins at this
    /// place.
    Closed(LogHistory<J>, usize),
}

/// The log of the changes, and the history of what is written to it. If a call fails in such a way that the log accepts
/// no more batches, the next call opens the file again.
#[derive(Drop)]
pub(crate) struct Held<D: Disk, J: Site> {
    state: State<D, J>,
    /// How many times a shorter log replaced the log, which says what its file is.
    generation: u64,
}

impl<D: Disk, J: Site> Held<D, J> {
    /// A log that was not read yet.
    pub(crate) fn unread() -> Held<D, J> {
        Held {
            state: State::Unread,
            generation: 0,
        }
    }

    /// Uses this log, which is of this generation, from now on.
    pub(crate) fn open(&mut self, written: Written<D, J>, generation: u64)
    where
        D: Drop,
        ensures { self.new.generation ≡ generation }
    {
        self.generation = generation;
        self.state = State::Open(written);
    }

    /// Uses this log, which is of this generation, from now on, in place of the log that was used so far.
    pub(crate) fn switch(&mut self, log: Log<D>, generation: u64)
    where
        D: Drop,
        ensures { self.new.generation ≡ generation }
    {
        self.generation = generation;
        let history = match mem::replace(&mut self.state, State::Unread) {
            State::Unread => return,
            State::Open(written) => written.into_parts().1,
            State::Closed(history, _) => history,
        };
        self.state = State::Open(Written::over(log, history));
    }

    /// The log, if it is open.
    pub(crate) fn into_written(self) -> Option<Written<D, J>>
    where
        D: Drop,
    {
        let Held { state, .. } = self;
        match state {
            State::Open(written) => Some(written),
            _ => None,
        }
    }

    /// The log, if it is open.
    pub(crate) fn written(&self) -> Option<&Written<D, J>> {
        match &self.state {
            State::Open(written) => Some(written),
            _ => None,
        }
    }

    /// The log to read and write, if it is open.
    pub(crate) fn written_mut(&mut self) -> Option<&mut Written<D, J>> {
        match &mut self.state {
            State::Open(written) => Some(written),
            _ => None,
        }
    }

    /// The generation of the log, once it was read to its end.
    pub(crate) fn generation(&self) -> Option<u64> {
        match &self.state {
            State::Unread => None,
            _ => Some(self.generation),
        }
    }

    /// Whether a call on it failed, so that the file has to be opened again.
    pub(crate) fn is_failed(&self) -> bool
        ensures { result ≡ is_failed self.now.state }
    {
        match &self.state {
            State::Unread => false,
            State::Open(written) => written.is_broken(),
            State::Closed(..) => true,
        }
    }

    /// Opens the file again if a call on it failed: that of the generation with which the log was opened or switched.
    /// The error says why it can't be opened.
    pub(crate) fn open_again<F: LogFile<D>>(&mut self, file: &F) -> Result<(), LogFault>
    where
        D: Drop,
        ensures opened { OnOk result (IsTrue (is_failed self.old.state)
            → (device : D) × F.is_file self.old.generation device) }
        ensures same { self.new.generation ≡ self.old.generation }
    {
        let (history, place, failed) = match mem::replace(&mut self.state, State::Unread) {
            State::Open(written) if written.is_broken() => {
                let place = written.end_place();
                let (log, history) = written.into_parts();
                (history, place, Some(log.into_device()))
            }
            State::Closed(history, place) => (history, place, None),
            other => {
                self.state = other;
                return Ok(());
            }
        };
        let device = match file.open_again(self.generation, failed) {
            Ok(device) => device,
            Err(fault) => {
                self.state = State::Closed(history, place);
                return Err(fault);
            }
        };
        let (written, resumed) = Written::resume(device, place, history);
        self.state = State::Open(written);
        resumed
    }

    /// Appends a batch, and returns once it is on the disk. After an error, the batch may be appended again. `NotRead`
    /// if the log was not read yet.
    pub(crate) fn append<F: LogFile<D>, K: Chronicle>(
        &mut self,
        room: &mut Vec<u8>,
        file: &F,
        batch: &Batch<K>,
    ) -> Result<OnDisk<J, K>, LogFault>
    where
        D: Drop,
        ensures written { IfOk result (λ on_disk. (on_disk.number ≡ batch.now.first)
            × (on_disk.count ≡ length batch.now.entries)) }
        ensures opened { OnOk result (IsTrue (is_failed self.old.state)
            → (device : D) × F.is_file self.old.generation device) }
        ensures same { self.new.generation ≡ self.old.generation }
    {
        self.open_again(file)?;
        match &mut self.state {
            State::Open(written) => written.append(room, batch),
            _ => Err(LogFault::NotRead),
        }
    }
}
