//! A log that is written.
ghost use Rattle.std.specs.Prelude.{◌≡◌, ◌++◌, ◌∷◌, [], List, ℕ, length, true, false, IfOk, OnOk, OnErr};
ghost use Rattle.std.specs.Prelude.{◌<◌, ◌⊎◌, Err, IfSome, IsErr};
ghost use Rattle.std.specs.Prelude.{IsTrue};
ghost use Rattle.up_log.specs.Blocks.{written, IsBeforeOrAfter};
ghost use Rattle.up_log.specs.Logs.{IsCleanLog, IsSettled, ReadsAt};
ghost use Rattle.up_log.specs.declared.entry.Entry.{Entry as Logged};
ghost use Rattle.up_log.specs.declared.setup.Setup.{Setup as Numbers};
ghost use Rattle.up_tie.specs.Ties.{LogContains, untied};

use crate::batch::Batch;
use crate::log_history::LogHistory;
use crate::on_disk::OnDisk;
use crate::site::Site;
use logbook::Plain;
use sqlite_disk::Disk;
use std::alloc::Global;
use std::marker::Model;
use up_history::{Chronicle, Front, History};
use up_log::{Entry, Log, LogFault, Spelled};
use up_message::Sequence;
use up_places::Contents;

/// Entries are added to a history by what is encoded of them.
struct OfSpelled;

impl Plain<Spelled, Option<Entry>, u64> for OfSpelled {
    ghost use Rattle.std.specs.Prelude.{Some, None};

    ghost ask = { λ spelled. Some spelled };

    ghost state = { λ spelled. None };
}

/// A log, and the history of what was written to it. Contracts describe it as the log, the entries that were written,
/// and whether it is tied: whether the log is known to contain exactly these entries. It is not after its file was
/// opened again, or after another log took its place, since no contract says that the file is still the same.
#[derive(Drop)]
pub struct Written<D: Disk, J: Site> {
    log: Log<D>,
    history: History<Entry, J>,
    front: Front<Entry, J>,
    is_tied: bool,
}

impl<D: Disk, J: Site> Model for Written<D, J> {
    ghost use Rattle.std.specs.Prelude.{◌≡◌, true};
    ghost use Rattle.up_tie.specs.Ties.{TiedLog, LogContains};

    ghost Value = { TiedLog D };

    ghost view = { λ w. record { log = w.log; entries = w.front; is_tied = w.is_tied } };

    ghost invariant = { λ w. w.is_tied ≡ true → LogContains D.Disk w.log J.setup J.premise w.front };
}

/// Adds changes after everything that the front has seen, and returns whether it did. If it did not, the history is
/// longer, or accepts no more entries; the first of the changes may then have been added.
fn add_changes<J: Site>(
    front: &mut Front<Entry, J>,
    history: &History<Entry, J>,
    changes: &[Spelled],
) -> bool
    ensures { IsTrue result → front.new ≡ front.old ++ changes.now }
{
    for change in changes {
        if front.len() == u64::MAX || !front.add_by::<Spelled, OfSpelled>(history, change) {
            return false;
        }
    }
    true
}

impl<D: Disk, J: Site> Written<D, J> {
    /// A log that was read to its end: it contains the entries that the front has seen.
    pub(crate) fn tied(
        log: Log<D>,
        history: History<Entry, J>,
        front: Front<Entry, J>,
    ) -> Written<D, J>
        requires { LogContains D.Disk log J.setup J.premise front }
        ensures { result ≡ record { log = log; entries = front; is_tied = true } }
    {
        Written {
            log,
            history,
            front,
            is_tied: true,
        }
    }

    /// A log that takes the place of the one with these entries.
    pub fn over(log: Log<D>, history: LogHistory<J>) -> Written<D, J>
        ensures { result ≡ untied log history }
    {
        let LogHistory { history, front } = history;
        Written {
            log,
            history,
            front,
            is_tied: false,
        }
    }

    /// Continues with the log with these entries after a call that failed, as `Log::resume` does. `device` is its file,
    /// which was opened again, and `place` is where the next batch begins (`end_place`). After an error, the log still
    /// accepts no more batches.
    pub fn resume(
        device: D,
        place: usize,
        history: LogHistory<J>,
    ) -> (Written<D, J>, Result<(), LogFault>)
        ensures untied { result.0 ≡ untied result.0.log history }
        ensures place { result.0.log.gate ≡ place }
        ensures settled { (setup : Numbers) (batches : List (List Logged)) (more : List Logged)
            → ((c : List ℕ) → D.may_leave device c → IsBeforeOrAfter setup batches more c)
            → place ≡ length (written setup batches)
            → OnOk result.1 (IsCleanLog D.Disk result.0.log
            → IsSettled D.Disk result.0.log setup batches
            × (result.0.log.is_broken ≡ false)) }
        ensures crash { (setup : Numbers) (batches : List (List Logged)) (more : List Logged)
            → ((c : List ℕ) → D.may_leave device c → IsBeforeOrAfter setup batches more c)
            → place ≡ length (written setup batches)
            → IsCleanLog D.Disk result.0.log → (c : List ℕ) → D.may_leave result.0.log.device c
            → IsBeforeOrAfter setup batches more c }
        ensures broken { OnErr result.1 (IsTrue result.0.log.is_broken) }
    {
        let (log, result) = Log::resume(device, place);
        (Written::over(log, history), result)
    }

    /// The number of entries that were written.
    pub fn len(&self) -> u64
        ensures { result ≡ length self.now.entries }
    {
        self.front.len()
    }

    /// The entries that were written.
    pub fn front(&self) -> Front<Entry, J>
        ensures { result ≡ self.now.entries }
    {
        self.front.again()
    }

    /// The number of bytes of the log, which is the place of the next batch.
    pub fn end_place(&self) -> usize
        ensures { result ≡ self.now.log.gate }
    {
        self.log.end_place()
    }

    /// Whether a call failed in such a way that the log accepts no more batches until it is opened again.
    pub fn is_broken(&self) -> bool
        ensures { result ≡ self.now.log.is_broken }
    {
        self.log.is_broken()
    }

    /// The batch at a place of the file, and the place after it; `None` at the end. These data files have the bytes of
    /// which it names the place. The log is unchanged, also after an error.
    pub fn batch_at<C: Contents>(
        &mut self,
        alloc: Global,
        place: usize,
        files: &C,
    ) -> Result<Option<(Sequence<Entry>, usize)>, LogFault>
        ensures reads { (setup : Numbers) (read left : List (List Logged))
            → IsSettled D.Disk self.old.log setup (read ++ left)
            → place ≡ length (written setup read)
            → IsCleanLog D.Disk self.new.log
            → ReadsAt (C.content files.now) setup read left result }
        ensures kept { (setup : Numbers) (batches : List (List Logged))
            → IsSettled D.Disk self.old.log setup batches
            → IsSettled D.Disk self.new.log setup batches }
        ensures further { IfOk result (λ found. IfSome found (λ block.
            (place < self.old.log.gate) × (place < block.1))) }
        ensures gate { self.new.log.gate ≡ self.old.log.gate }
        ensures broken { self.new.log.is_broken ≡ self.old.log.is_broken }
        ensures clean { IsCleanLog D.Disk self.new.log → IsCleanLog D.Disk self.old.log }
        ensures crash { (c : List ℕ) → D.may_leave self.new.log.device c
            → D.may_leave self.old.log.device c }
        ensures same { (self.new.entries ≡ self.old.entries)
            × (self.new.is_tied ≡ self.old.is_tied) }
    {
        self.log.batch_at(alloc, place, files)
    }

    /// Appends changes to the log as one batch, and returns once the batch is on the disk. Then adds them to the
    /// history. `Broken` before anything is written if the history has no room for them. After an error of
    /// `Log::append` the log is as that leaves it. `room` is what it is there.
    pub fn append<K: Chronicle>(
        &mut self,
        room: &mut Vec<u8>,
        batch: &Batch<K>,
    ) -> Result<OnDisk<J, K>, LogFault>
        ensures ok { IfOk result (λ _.
            (self.new.entries ≡ self.old.entries ++ batch.now.entries)
            × (self.new.is_tied ≡ self.old.is_tied)) }
        ensures durable { (setup : Numbers) (batches : List (List Logged))
            → IsSettled D.Disk self.old.log setup batches → IfOk result (λ _.
            IsSettled D.Disk self.new.log setup (batches ++ batch.now.entries ∷ [])) }
        ensures on_disk { IfOk result (λ r. r ≡ record {
          place = length self.old.entries;
          number = batch.now.first;
          count = length batch.now.entries;
        }) }
        ensures err { OnErr result (self.new.entries ≡ self.old.entries) }
        ensures crash { (setup : Numbers) (batches : List (List Logged))
            → IsSettled D.Disk self.old.log setup batches
            → (c : List ℕ) → D.may_leave self.new.log.device c
            → IsBeforeOrAfter setup batches batch.now.entries c }
        ensures kept { (setup : Numbers) (batches : List (List Logged))
            → IsSettled D.Disk self.old.log setup batches → OnErr result
            (IsSettled D.Disk self.new.log setup batches ⊎ IsTrue self.new.log.is_broken) }
        ensures open { IfOk result (λ _. self.new.log.is_broken ≡ false) }
        ensures gate { IsTrue self.new.log.is_broken → self.new.log.gate ≡ self.old.log.gate }
        ensures memory { result ≡ Err LogFault.Memory → self.new.log ≡ self.old.log }
        ensures broken { IsTrue self.old.log.is_broken → IsErr result × (self.new ≡ self.old) }
        ensures calm { IsCleanLog D.Disk self.new.log → IsCleanLog D.Disk self.old.log }
    {
        let place = self.front.len();
        if place.checked_add(batch.len() as u64).is_none() {
            return Err(LogFault::Broken);
        }
        let gate = self.log.end_place();
        self.log.append(room, batch.changes())?;
        let mut front = self.front.again();
        if !add_changes(&mut front, &self.history, batch.changes()) {
            // Nobody else adds to this history, so this does not happen. The batch is written over.
            self.log.give_up(gate);
            return Err(LogFault::Broken);
        }
        self.front = front.again();
        Ok(batch.on_disk(place, front))
    }

    /// The log. If it is tied, it contains the entries that were written.
    pub fn into_log(self) -> Log<D>
        ensures log { result ≡ self.log }
        ensures tied { self.is_tied ≡ true
            → LogContains D.Disk result J.setup J.premise self.entries }
    {
        self.log
    }

    /// The log, and the history of what was written to it.
    pub fn into_parts(self) -> (Log<D>, LogHistory<J>)
        ensures { (result.0 ≡ self.log) × (result.1 ≡ self.entries) }
    {
        let Written {
            log,
            history,
            front,
            ..
        } = self;
        (log, LogHistory { history, front })
    }
}
