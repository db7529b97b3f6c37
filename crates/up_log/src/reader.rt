//! Opening a log: reading its batches one after another, and then repairing its end.
ghost use Rattle.std.specs.Prelude.{◌≡◌, ◌<◌, ◌++◌, [], List, ℕ, length, drop, IfOk, IfSome, IfNone, IfErr, OnOk, IsTrue};
ghost use Rattle.sqlite_disk.specs.Disk.{Only};
ghost use Rattle.up_log.specs.Blocks.{written, IsAtRest, IsClosed, IsFileOf, IsLog, IsOurs};
ghost use Rattle.up_log.specs.Logs.{IsCleanLog, IsCleanReader, IsReaderAt, IsUnusableLog, IsFileReadUpTo};
ghost use Rattle.up_log.specs.Logs.{IsDamagedAt, IsSettled, ReadsNext, reader_leaves, log_leaves, unread};
ghost use Rattle.up_log.specs.declared.entry.Entry.{Entry as Logged};
ghost use Rattle.up_log.specs.declared.setup.Setup.{Setup as Numbers};

use crate::appending::Log;
use crate::block::{begins_at, block_at};
use crate::device::write_synced;
use crate::entry::Entry;
use crate::fault::LogFault;
use crate::heading::{BEGINNING, begin};
use crate::setup::Setup;
use sqlite_disk::Disk;
use std::alloc::Global;
use up_message::Sequence;
use up_places::Contents;

/// A log that is being opened. Its batches are read one after another, so that at most one of them is in memory.
#[derive(Drop)]
pub struct LogReader<D: Disk> {
    pub(crate) device: D,
    /// The number of bytes of the file.
    pub(crate) len: usize,
    /// The place of the next block.
    pub(crate) gate: usize,
}

/// Why a log was not opened, and the file.
#[derive(Drop)]
pub struct Refused<D: Disk> {
    pub fault: LogFault,
    pub device: D,
}

/// Writes a closed gate after the blocks if a crash left no gate, or a gate with nothing after it. Anything else is
/// already closed.
pub(crate) fn mend<D: Disk>(disk: &mut D, len: usize, gate: usize) -> Result<(), LogFault>
    ensures mended { (setup : Numbers) (batches : List (List Logged))
        → IsLog setup (D.seen disk.old) batches
        → gate ≡ length (written setup batches) → len ≡ length (D.seen disk.old)
        → Only (D.seen disk.old) (D.may_leave disk.old)
        → OnOk result (IsAtRest setup (D.seen disk.new) batches
        × Only (D.seen disk.new) (D.may_leave disk.new)) }
    ensures crash { (setup : Numbers) (batches : List (List Logged))
        → IsLog setup (D.seen disk.old) batches
        → gate ≡ length (written setup batches) → len ≡ length (D.seen disk.old)
        → Only (D.seen disk.old) (D.may_leave disk.old)
        → (c : List ℕ) → D.may_leave disk.new c → IsLog setup c batches }
    ensures usable { OnOk result (IsTrue (D.is_usable disk.new)) }
    ensures calm { D.is_clean disk.new ≡ D.is_clean disk.old }
{
    if len > gate.saturating_add(1) {
        if !disk.may_be_used() {
            return Err(LogFault::Broken);
        }
        return Ok(());
    }
    write_synced(disk, gate, &[0])?;
    Ok(())
}

/// Checks that all blocks were read, and repairs the end after them.
fn end<D: Disk>(disk: &mut D, len: usize, gate: usize) -> Result<(), LogFault>
    ensures settled { (setup : Numbers) (read left : List (List Logged))
        → IsFileReadUpTo setup (D.seen disk.old) gate len read left
        → Only (D.seen disk.old) (D.may_leave disk.old)
        → OnOk result (IsTrue (D.is_clean disk.new) → (left ≡ [])
        × IsAtRest setup (D.seen disk.new) read
        × Only (D.seen disk.new) (D.may_leave disk.new)) }
    ensures crash { (setup : Numbers) (read left : List (List Logged))
        → IsFileReadUpTo setup (D.seen disk.old) gate len read left
        → Only (D.seen disk.old) (D.may_leave disk.old)
        → IsTrue (D.is_clean disk.new) → (c : List ℕ) → D.may_leave disk.new c
        → IsLog setup c (read ++ left) }
    ensures usable { OnOk result (IsTrue (D.is_usable disk.new)) }
    ensures clean { IsTrue (D.is_clean disk.new) → IsTrue (D.is_clean disk.old) }
{
    if begins_at(disk, len, gate)? {
        return Err(LogFault::NotRead);
    }
    mend(disk, len, gate)?;
    Ok(())
}

impl<D: Disk> LogReader<D> {
    /// Starts to open the log of a server with this setup. If the file has no heading yet, like an empty one, the
    /// heading is written. `Foreign`, `Version`, `Lanes` or `MaxSize` if the file is not the log of such a server;
    /// `Disk` or `Broken` if the disk fails or has failed; `Memory` if memory runs out.
    pub fn open(alloc: Global, device: D, setup: Setup) -> Result<LogReader<D>, Refused<D>>
        // A file that is not the log of such a server is not opened,
        ensures ours { IfOk result (λ reader. IsCleanReader D.Disk reader
            → IsOurs setup (D.seen device)) }
        // and stays unchanged.
        ensures unchanged { IfErr result (λ refused. IsUnusableLog refused.fault
            → (D.seen refused.device ≡ D.seen device)
            × ((c : List ℕ) → D.may_leave refused.device c → D.may_leave device c)) }
        ensures reads { (batches : List (List Logged)) → IsFileOf setup batches (D.seen device)
            → Only (D.seen device) (D.may_leave device)
            → IfOk result (λ reader. IsCleanReader D.Disk reader
            → IsReaderAt D.Disk reader setup [] batches) }
        ensures crash { (batches : List (List Logged)) → IsFileOf setup batches (D.seen device)
            → Only (D.seen device) (D.may_leave device)
            → (c : List ℕ) → reader_leaves D.Disk result c → IsFileOf setup batches c }
    {
        let mut device = device;
        match begin(alloc, &mut device, setup) {
            Ok(len) => Ok(LogReader {
                device,
                len,
                gate: BEGINNING,
            }),
            Err(fault) => Err(Refused { fault, device }),
        }
    }

    /// The next batch, `None` at the end. These data files have the bytes of which it names the place. `Damaged` names
    /// the place of the block that can't be read, and `NotThere` bytes that the data files don't have.
    pub fn next_batch<C: Contents>(
        &mut self,
        alloc: Global,
        files: &C,
    ) -> Result<Option<Sequence<Entry>>, LogFault>
        ensures reads { (setup : Numbers) (read left : List (List Logged))
            → IsReaderAt D.Disk self.old setup read left
            → IsCleanReader D.Disk self.new
            → ReadsNext D.Disk (C.content files.now) self.new setup read left result }
        ensures end { IfOk result (λ found. IfNone found
            (self.old.len ≡ length (D.seen self.old.device) → IsCleanReader D.Disk self.new
            → IsClosed (drop self.old.gate (D.seen self.old.device)))) }
        ensures further { IfOk result (λ found. IfSome found (λ _.
            unread self.new < unread self.old)) }
        ensures place { IfErr result (IsDamagedAt self.old.gate) }
        ensures seen { D.seen self.new.device ≡ D.seen self.old.device }
        ensures clean { IsCleanReader D.Disk self.new → IsCleanReader D.Disk self.old }
        ensures crash { (c : List ℕ) → D.may_leave self.new.device c
            → D.may_leave self.old.device c }
    {
        if !begins_at(&mut self.device, self.len, self.gate)? {
            return Ok(None);
        }
        let (entries, gate) = block_at(alloc, &mut self.device, files, self.len, self.gate)?;
        self.gate = gate;
        Ok(Some(entries))
    }

    /// The log, if all of its batches were read. `NotRead` if some were not.
    pub fn finish(self) -> Result<Log<D>, Refused<D>>
        ensures settled { (setup : Numbers) (read left : List (List Logged))
            → IsReaderAt D.Disk self setup read left
            → IfOk result (λ log. IsCleanLog D.Disk log → (left ≡ [])
            × IsSettled D.Disk log setup read) }
        ensures clean { IfOk result (λ log. IsCleanLog D.Disk log → IsCleanReader D.Disk self) }
        ensures crash { (setup : Numbers) (read left : List (List Logged))
            → IsReaderAt D.Disk self setup read left
            → (c : List ℕ) → log_leaves D.Disk result c → IsLog setup c (read ++ left) }
    {
        let LogReader { device, len, gate } = self;
        let mut device = device;
        match end(&mut device, len, gate) {
            Ok(()) => Ok(Log {
                device,
                gate,
                is_broken: false,
            }),
            Err(fault) => Err(Refused { fault, device }),
        }
    }
}
