//! Reading a log that is open, while batches may be appended to it.
ghost use Rattle.std.specs.Prelude.{◌≡◌, ◌++◌, ◌<◌, ℕ, [], List, length, IfOk, IfSome, IsTrue};
ghost use Rattle.up_log.specs.Blocks.{written};
ghost use Rattle.up_log.specs.Logs.{IsCleanLog, IsSettled, ReadsAt};
ghost use Rattle.up_log.specs.declared.entry.Entry.{Entry as Logged};
ghost use Rattle.up_log.specs.declared.setup.Setup.{Setup as Numbers};

use crate::appending::Log;
use crate::block::block_at;
use crate::device::len_of;
use crate::entry::Entry;
use crate::fault::LogFault;
use crate::heading::BEGINNING;
use sqlite_disk::Disk;
use std::alloc::Global;
use up_message::Sequence;
use up_places::Contents;

impl<D: Disk> Log<D> {
    /// The place of the first batch.
    pub fn first_place() -> usize
        ensures { (setup : Numbers) → result ≡ length (written setup []) }
    {
        BEGINNING
    }

    /// The number of bytes of the heading and the batches, which is the place of the next batch.
    pub fn end_place(&self) -> usize
        ensures { result ≡ self.now.gate }
    {
        self.gate
    }

    /// The batch at a place, and the place after it; `None` at the end. These data files have the bytes of which it
    /// names the place. The log is unchanged, also after an error.
    pub fn batch_at<C: Contents>(
        &mut self,
        alloc: Global,
        place: usize,
        files: &C,
    ) -> Result<Option<(Sequence<Entry>, usize)>, LogFault>
        ensures reads { (setup : Numbers) (read left : List (List Logged))
            → IsSettled D.Disk self.old setup (read ++ left) → place ≡ length (written setup read)
            → IsCleanLog D.Disk self.new → ReadsAt (C.content files.now) setup read left result }
        ensures further { IfOk result (λ found. IfSome found (λ block.
            (place < self.old.gate) × (place < block.1))) }
        ensures kept { (setup : Numbers) (batches : List (List Logged))
            → IsSettled D.Disk self.old setup batches → IsSettled D.Disk self.new setup batches }
        ensures gate { self.new.gate ≡ self.old.gate }
        ensures broken { self.new.is_broken ≡ self.old.is_broken }
        ensures clean { IsCleanLog D.Disk self.new → IsCleanLog D.Disk self.old }
        ensures crash { (c : List ℕ) → D.may_leave self.new.device c
            → D.may_leave self.old.device c }
    {
        if place >= self.gate {
            return Ok(None);
        }
        let len = len_of(&mut self.device)?;
        let (entries, next) = block_at(alloc, &mut self.device, files, len, place)?;
        Ok(Some((entries, next)))
    }
}
