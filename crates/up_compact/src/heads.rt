//! The log of heads. Switching to a shorter log appends one batch to it.
ghost use Rattle.std.specs.Prelude.{◌≡◌, ◌⊎◌, ◌++◌, ◌∷◌, [], List, ℕ, IfOk, OnOk, OnErr, IsTrue};
ghost use Rattle.up_compact.specs.Heads.{LastHeadHolds, batch_of, first_head, head_after};
ghost use Rattle.up_log.specs.Blocks.{IsBeforeOrAfter};
ghost use Rattle.up_log.specs.Logs.{IsCleanLog, IsReaderAt, IsSettled};
ghost use Rattle.up_log.specs.declared.entry.Entry.{Entry as Logged};
ghost use Rattle.up_log.specs.declared.setup.Setup.{Setup as Numbers};

use crate::head::Head;
use sqlite_disk::Disk;
use std::alloc::Global;
use up_log::{Log, LogFault, LogReader};
use up_places::NoFiles;

/// The heads of all logs but the first, in a log of their own. The last one is the current one.
#[derive(Drop)]
pub struct Heads<D: Disk> {
    log: Log<D>,
}

/// After a head was added, it is the current one.
pub fn last_head_holds()
    ensures { LastHeadHolds }
{}

impl<D: Disk> Heads<D> {
    /// Reads all heads, and returns the current one. `NoHead` if a batch is not a head; otherwise the errors of
    /// reading and finishing the log.
    pub fn read(alloc: Global, reader: LogReader<D>) -> Result<(Heads<D>, Head), LogFault>
    where
        D: Drop,
        ensures { (setup : Numbers) (batches : List (List Logged))
            → IsReaderAt D.Disk reader setup [] batches
            → IfOk result (λ r. IsCleanLog D.Disk r.0.log
            → IsSettled D.Disk r.0.log setup batches × (head_after first_head batches ≡ Some r.1)) }
    {
        let mut reader = reader;
        let mut head = Head::first(alloc);
        while let Some(batch) = reader.next_batch(alloc, &NoFiles)? {
            head = Head::read(alloc, batch.as_slice())?;
        }
        match reader.finish() {
            Ok(log) => Ok((Heads { log }, head)),
            Err(refused) => Err(refused.fault),
        }
    }

    /// Adds a head. After `Ok` it is the current one, whatever crash follows. A crash during the call, or after an
    /// error, leaves either this head or the one before as the current one.
    pub fn add(&mut self, alloc: Global, head: &Head) -> Result<(), LogFault>
        ensures durable { (setup : Numbers) (batches : List (List Logged))
            → IsSettled D.Disk self.old.log setup batches
            → OnOk result (IsSettled D.Disk self.new.log setup
            (batches ++ batch_of head.now ∷ [])) }
        ensures crash { (setup : Numbers) (batches : List (List Logged))
            → IsSettled D.Disk self.old.log setup batches
            → (c : List ℕ) → D.may_leave self.new.log.device c
            → IsBeforeOrAfter setup batches (batch_of head.now) c }
        ensures kept { (setup : Numbers) (batches : List (List Logged))
            → IsSettled D.Disk self.old.log setup batches
            → OnErr result (IsSettled D.Disk self.new.log setup batches
            ⊎ IsTrue self.new.log.is_broken) }
    {
        let batch = head.spelled(alloc)?;
        self.log.append(&mut Vec::new(alloc), &batch)
    }

    /// Whether a call failed in such a way that the heads accept no more until their file is opened again. It is not
    /// known then what a crash leaves of the last one.
    pub fn is_broken(&self) -> bool
        ensures { result ≡ self.now.log.is_broken }
    {
        self.log.is_broken()
    }

    /// The file. The heads are then used up.
    pub fn into_device(self) -> D
        ensures { result ≡ self.log.device }
    {
        self.log.into_device()
    }
}
