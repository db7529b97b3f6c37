//! Appending batches of entries to a log.
ghost use Rattle.std.specs.Prelude.{◌≡◌, ◌⊎◌, ◌++◌, ◌∷◌, [], List, ℕ, false};
ghost use Rattle.std.specs.Prelude.{IfErr, OnOk, IsErr, OnErr, IsTrue, Err};
ghost use Rattle.up_log.specs.Blocks.{IsBeforeOrAfter};
ghost use Rattle.up_log.specs.Logs.{IsCleanLog, IsSettled, IsUnusableLog};
ghost use Rattle.up_log.specs.declared.entry.Entry.{Entry as Logged};
ghost use Rattle.up_log.specs.declared.setup.Setup.{Setup as Numbers};

use crate::device::write_synced;
use crate::fault::LogFault;
use crate::spelled::Spelled;
use crate::staging::{begin_body, stage};
use sqlite_disk::Disk;

/// A log to which batches can be appended. Each batch is in a block after a gate. The gate is a byte, which a separate
/// write opens once the block is on the disk.
#[derive(Drop)]
pub struct Log<D: Disk> {
    pub(crate) device: D,
    /// The place of the next block.
    pub(crate) gate: usize,
    /// Whether a call failed in such a way that it is not known what a crash leaves of the file.
    pub(crate) is_broken: bool,
}

impl<D: Disk> Log<D> {
    /// The file. This log is then used up.
    pub fn into_device(self) -> D
        ensures { result ≡ self.device }
    {
        self.device
    }

    /// Appends a batch of entries, and returns once it is on the disk: after `Ok`, every crash leaves a log with the
    /// batch. A crash during the call, or after an error, leaves the log with the whole batch or without it. After
    /// `Memory` the log is unchanged. After any other error, either the log has the batches that it had, as on a full
    /// disk, and the call may be retried; or the log accepts no more batches (`Broken`) and must be opened again.
    /// `room` is working memory, and its old content is gone then. Bodies of 16 KiB or more are not copied there. A
    /// caller who keeps it saves memory from being allocated anew for each batch.
    pub fn append(&mut self, room: &mut Vec<u8>, entries: &[Spelled]) -> Result<(), LogFault>
        ensures durable { (setup : Numbers) (batches : List (List Logged))
            → IsSettled D.Disk self.old setup batches
            → OnOk result (IsSettled D.Disk self.new setup (batches ++ entries.now ∷ [])) }
        ensures crash { (setup : Numbers) (batches : List (List Logged))
            → IsSettled D.Disk self.old setup batches
            → (c : List ℕ) → D.may_leave self.new.device c
            → IsBeforeOrAfter setup batches entries.now c }
        ensures kept { (setup : Numbers) (batches : List (List Logged))
            → IsSettled D.Disk self.old setup batches
            → OnErr result (IsSettled D.Disk self.new setup batches ⊎ IsTrue self.new.is_broken) }
        ensures open { OnOk result (self.new.is_broken ≡ false) }
        ensures gate { OnErr result (self.new.gate ≡ self.old.gate) }
        ensures memory { result ≡ Err LogFault.Memory → self.new ≡ self.old }
        ensures broken { IsTrue self.old.is_broken → IsErr result × (self.new ≡ self.old) }
        ensures fault { IfErr result (λ fault. IsUnusableLog fault → ⊥) }
        ensures calm { IsCleanLog D.Disk self.new → IsCleanLog D.Disk self.old }
    {
        if self.is_broken {
            return Err(LogFault::Broken);
        }
        let size = begin_body(room, entries)?;
        let Some(end) = self.gate.checked_add(size) else {
            return Err(LogFault::Broken);
        };
        let (staged, is_settled) = stage(&mut self.device, self.gate, room, entries);
        self.is_broken = !is_settled;
        staged?;
        self.is_broken = true;
        write_synced(&mut self.device, self.gate, &[1])?;
        self.gate = end;
        self.is_broken = false;
        Ok(())
    }
}
