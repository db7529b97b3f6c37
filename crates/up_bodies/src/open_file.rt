//! A data file from which bodies are read.
ghost use Rattle.std.specs.Prelude.{◌≡◌, ◌+◌, ◌*◌, ◌<◌, ◌≤◌, [], List, ℕ, length, IfErr, IfOk, IsTrue, OnOk};
ghost use Rattle.sqlite_disk.specs.Disk.{Holds};
ghost use Rattle.up_bodies.specs.Blocks.{IsUntouched, block_len};
ghost use Rattle.up_bodies.specs.Failures.{IsUnopenedFor, IsUnreadFor};
ghost use Rattle.up_bodies.specs.Heads.{IsHeadOf};
ghost use Rattle.up_bodies.specs.Shelves.{IsTrueFile};
ghost use Rattle.up_bodies.specs.declared.fault.BlockFault.TheVariants.{Damaged};
ghost use Rattle.up_places.specs.Places.{BeginsWith, part_at};

use crate::block::block_len;
use crate::fault::BlockFault;
use crate::head::Head;
use crate::reader::BlockReader;
use crate::refused::Refused;
use sqlite_disk::Disk;
use std::alloc::Global;
use up_events::Trace;
use up_places::{BLOCK, Place};

/// A data file from which bodies are read.
#[derive(Drop)]
pub struct OpenFile<D: Disk> {
    number: u64,
    file: BlockReader<D>,
    /// The places that were asked for.
    asked: Trace<Place>,
}

/// How many bytes the block of this number of a place takes.
fn block_len_of(place: &Place, index: usize) -> usize
    requires within { 65_536 * index < length place.now.bytes }
    ensures len { result ≡ block_len (length (part_at index place.now.bytes)) }
    ensures few { result ≤ 65_544 }
{
    block_len((place.len() - BLOCK * index).min(BLOCK))
}

impl<D: Disk> OpenFile<D> {
    /// Opens a file, from which nothing was read. It must be the one with this head, but for a generation that may be an
    /// earlier one. The errors are those of [`BlockReader::open`].
    pub fn open(alloc: Global, device: D, head: &Head) -> Result<OpenFile<D>, Refused<D>>
        ensures ok { IfOk result (λ made. IsTrue (D.is_clean made.file.device)
            → (text : List ℕ) × Holds (D.seen device) 0 text × IsHeadOf head.now text made.file.seed) }
        ensures number { IfOk result (λ made. made.number ≡ head.now.number) }
        ensures new { IfOk result (λ made. made.asked.items ≡ []) }
        ensures cause { IfErr result (λ refused.
            IsUnopenedFor D.Disk head.now device refused.device refused.fault) }
    {
        Ok(OpenFile {
            number: head.number,
            file: BlockReader::open(alloc, device, head)?,
            asked: Trace::new(),
        })
    }

    /// The number of the file.
    pub fn number(&self) -> u64
        ensures { result ≡ self.now.number }
    {
        self.number
    }

    /// Reads the block of this number, from 0 on, of a place of this file: the buffer then begins with the 65,536 bytes of
    /// the place from byte 65,536 * `index` on, or with all that are left. `Damaged` if the checksum is wrong, `TooLarge`
    /// if the block would be at byte 2^64 or after it, `Broken` if a sync has failed before, and `Disk` if the disk fails
    /// or the file has no such block.
    pub fn read(&mut self, place: &Place, index: usize, room: &mut [u8]) -> Result<(), BlockFault>
        requires same { place.now.file ≡ self.old.number }
        requires room { 65_544 ≤ length room.old }
        requires within { 65_536 * index < length place.now.bytes }
        ensures bytes { OnOk result (IsTrueFile D.Disk self.new
            → BeginsWith (part_at index place.now.bytes) room.new) }
        ensures damaged { IfErr result (λ fault. fault ≡ Damaged
            → IsTrueFile D.Disk self.new → ⊥) }
        ensures cause { IfErr result (IsUnreadFor D.Disk (place.now.at + 65_544 * index)
            (block_len (length (part_at index place.now.bytes)))
            self.old.file.device self.new.file.device) }
        ensures untouched { IsUntouched D.Disk self.old.file.device self.new.file.device }
        ensures stays { IsTrueFile D.Disk self.new → IsTrueFile D.Disk self.old }
        ensures number { self.new.number ≡ self.old.number }
    {
        self.asked.push(place);
        let len = block_len_of(place, index);
        self.file.read(place.at() as usize, index, &mut room[..len])
    }
}
