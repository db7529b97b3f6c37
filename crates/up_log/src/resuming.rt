//! Continuing with a log after a call that failed.
ghost use Rattle.std.specs.Prelude.{◌≡◌, ◌≤◌, List, ℕ, length, OnErr, OnOk, IsTrue, false, true};
ghost use Rattle.sqlite_disk.specs.Disk.{Only};
ghost use Rattle.up_log.specs.Blocks.{written, IsAtRest, IsBeforeOrAfter};
ghost use Rattle.up_log.specs.Logs.{IsCleanLog, IsSettled};
ghost use Rattle.up_log.specs.declared.entry.Entry.{Entry as Logged};
ghost use Rattle.up_log.specs.declared.setup.Setup.{Setup as Numbers};

use crate::appending::Log;
use crate::block::begins_at;
use crate::device::{len_of, settle, write_synced};
use crate::fault::LogFault;
use crate::reader::mend;
use sqlite_disk::Disk;

/// Closes the gate after the batches that end at this place, if a crash left it open.
fn close<D: Disk>(disk: &mut D, len: usize, gate: usize) -> Result<(), LogFault>
    ensures closed { (setup : Numbers) (batches : List (List Logged)) (more : List Logged)
        → IsBeforeOrAfter setup batches more (D.seen disk.old)
        → gate ≡ length (written setup batches) → len ≡ length (D.seen disk.old)
        → Only (D.seen disk.old) (D.may_leave disk.old)
        → OnOk result (IsTrue (D.is_clean disk.new) → IsAtRest setup (D.seen disk.new) batches
        × Only (D.seen disk.new) (D.may_leave disk.new)) }
    ensures crash { (setup : Numbers) (batches : List (List Logged)) (more : List Logged)
        → IsBeforeOrAfter setup batches more (D.seen disk.old)
        → gate ≡ length (written setup batches) → len ≡ length (D.seen disk.old)
        → Only (D.seen disk.old) (D.may_leave disk.old)
        → IsTrue (D.is_clean disk.new) → (c : List ℕ) → D.may_leave disk.new c
        → IsBeforeOrAfter setup batches more c }
    ensures usable { OnOk result (IsTrue (D.is_usable disk.new)) }
    ensures clean { IsTrue (D.is_clean disk.new) → IsTrue (D.is_clean disk.old) }
{
    if begins_at(disk, len, gate)? {
        write_synced(disk, gate, &[0])?;
        return Ok(());
    }
    mend(disk, len, gate)
}

/// The same, for a file of which it is not known what is on the disk. `Short` if it ends before this place.
fn close_again<D: Disk>(disk: &mut D, gate: usize) -> Result<(), LogFault>
    ensures closed { (setup : Numbers) (batches : List (List Logged)) (more : List Logged)
        → ((c : List ℕ) → D.may_leave disk.old c → IsBeforeOrAfter setup batches more c)
        → gate ≡ length (written setup batches)
        → OnOk result (IsTrue (D.is_clean disk.new) → IsAtRest setup (D.seen disk.new) batches
        × Only (D.seen disk.new) (D.may_leave disk.new)) }
    ensures crash { (setup : Numbers) (batches : List (List Logged)) (more : List Logged)
        → ((c : List ℕ) → D.may_leave disk.old c → IsBeforeOrAfter setup batches more c)
        → gate ≡ length (written setup batches)
        → IsTrue (D.is_clean disk.new) → (c : List ℕ) → D.may_leave disk.new c
        → IsBeforeOrAfter setup batches more c }
    ensures usable { OnOk result (IsTrue (D.is_usable disk.new)) }
    ensures long { OnOk result (IsTrue (D.is_clean disk.new) → gate ≤ length (D.seen disk.old)) }
{
    settle(disk)?;
    let len = len_of(disk)?;
    if len < gate {
        return Err(LogFault::Short {
            len: len as u64,
            written: gate as u64,
        });
    }
    close(disk, len, gate)
}

impl<D: Disk> Log<D> {
    /// Accepts no more batches, as after a call that failed at this place. The file is unchanged.
    pub fn give_up(&mut self, place: usize)
        ensures { self.new ≡ record self.old { gate = place; is_broken = true } }
    {
        self.gate = place;
        self.is_broken = true;
    }

    /// Continues with a log after a call that failed. `device` is its file, which was opened again, and `place` is the
    /// place of the next block (`end_place`). If the call left a batch there, the log no longer contains it. After an
    /// error, the log accepts no more batches, as before. `Short` if the file ends before this place, so that it is not
    /// the file that was written.
    pub fn resume(device: D, place: usize) -> (Log<D>, Result<(), LogFault>)
        ensures settled { (setup : Numbers) (batches : List (List Logged)) (more : List Logged)
            → ((c : List ℕ) → D.may_leave device c → IsBeforeOrAfter setup batches more c)
            → place ≡ length (written setup batches)
            → OnOk result.1 (IsCleanLog D.Disk result.0
            → IsSettled D.Disk result.0 setup batches × (result.0.is_broken ≡ false)) }
        ensures crash { (setup : Numbers) (batches : List (List Logged)) (more : List Logged)
            → ((c : List ℕ) → D.may_leave device c → IsBeforeOrAfter setup batches more c)
            → place ≡ length (written setup batches)
            → IsCleanLog D.Disk result.0 → (c : List ℕ) → D.may_leave result.0.device c
            → IsBeforeOrAfter setup batches more c }
        ensures place { result.0.gate ≡ place }
        ensures long { OnOk result.1 (IsCleanLog D.Disk result.0 → place ≤ length (D.seen device)) }
        ensures broken { OnErr result.1 (IsTrue result.0.is_broken) }
    {
        let mut device = device;
        let gate = place;
        match close_again(&mut device, gate) {
            Ok(()) => (
                Log {
                    device,
                    gate,
                    is_broken: false,
                },
                Ok(()),
            ),
            Err(fault) => (
                Log {
                    device,
                    gate,
                    is_broken: true,
                },
                Err(fault),
            ),
        }
    }

    /// Whether a call failed in such a way that the log accepts no more batches until it is opened again.
    pub fn is_broken(&self) -> bool
        ensures { result ≡ self.now.is_broken }
    {
        self.is_broken
    }
}
