//! A file of blocks that is read.
ghost use Rattle.std.specs.Prelude.{◌≡◌, ◌+◌, ◌*◌, ◌^◌, ◌<◌, ◌≤◌, List, ℕ, length, IsTrue, IfErr, IfNone, IfOk, IfSome, OnOk};
ghost use Rattle.sqlite_disk.specs.Disk.{Holds};
ghost use Rattle.up_bodies.specs.Blocks.{HoldsBlocks, IsSound, IsUntouched, block, block_len};
ghost use Rattle.up_bodies.specs.Failures.{IsUnopenedFor, IsUnreadFor};
ghost use Rattle.up_bodies.specs.Heads.{IsHeadOf};
ghost use Rattle.up_places.specs.Places.{part_at};
ghost use Rattle.up_bodies.specs.declared.fault.BlockFault.TheVariants.{Damaged};

use crate::block::{ROOM, Seed, is_sound};
use crate::fault::{BlockFault, OpenFault};
use crate::head::{HEAD, Head};
use crate::refused::Refused;
use sqlite_disk::Disk;
use std::alloc::Global;

/// A file of blocks that is read.
#[derive(Drop)]
pub struct BlockReader<D: Disk> {
    device: D,
    /// What the checksums of the file begin with.
    seed: Seed,
}

/// Reads the first bytes of a file, and returns what its checksums begin with.
fn seed_in<D: Disk>(alloc: Global, device: &mut D, head: &Head) -> Result<Seed, OpenFault>
    ensures ok { IfOk result (λ seed. IsTrue (D.is_clean device.new)
        → (text : List ℕ) × Holds (D.seen device.old) 0 text × IsHeadOf head.now text seed) }
    ensures cause { IfErr result (IsUnopenedFor D.Disk head.now device.old device.new) }
    ensures untouched { IsUntouched D.Disk device.old device.new }
{
    if !device.may_be_used() {
        return Err(OpenFault::Broken);
    }
    let mut text = [0; HEAD];
    device.read_at(0, &mut text)?;
    head.seed_in(alloc, &text)
}

/// Where the block of this number is. `None` if the place is no `usize`.
fn place_of(at: usize, index: usize) -> Option<usize>
    ensures place { IfSome result (λ place. place ≡ at + 65_544 * index) }
    ensures none { IfNone result (2 ^ 64 ≤ at + 65_544 * index) }
{
    at.checked_add(index.checked_mul(ROOM)?)
}

impl<D: Disk> BlockReader<D> {
    /// Opens a file. It must be the one with this head, but for a generation that may be an earlier one. A file that is
    /// refused stays as it is. The errors are those of a file that is another one; `Broken`, if a sync has failed
    /// before; `Disk`, if the disk fails or the file has no whole head; and `NoMemory`, if memory runs out.
    pub fn open(alloc: Global, mut device: D, head: &Head) -> Result<BlockReader<D>, Refused<D>>
        ensures ok { IfOk result (λ file. IsTrue (D.is_clean file.device)
            → (text : List ℕ) × Holds (D.seen device) 0 text × IsHeadOf head.now text file.seed) }
        ensures untouched { IfOk result (λ file. IsUntouched D.Disk device file.device) }
        ensures unchanged { IfErr result (λ refused. IsUntouched D.Disk device refused.device) }
        ensures cause { IfErr result (λ refused.
            IsUnopenedFor D.Disk head.now device refused.device refused.fault) }
    {
        match seed_in(alloc, &mut device, head) {
            Ok(seed) => Ok(BlockReader { device, seed }),
            Err(fault) => Err(Refused { fault, device }),
        }
    }

    /// Fills a buffer with the block of this number, from 0 on, of the bytes whose blocks begin at this place. The buffer
    /// has the size of the block (`block_len`). `Damaged` if the checksum is wrong, `TooLarge` if the place is 2^64 or
    /// more, `Broken` if a sync has failed before, and `Disk` if the disk fails or the file has no such block.
    pub fn read(&mut self, at: usize, index: usize, room: &mut [u8]) -> Result<(), BlockFault>
        requires some { 8 ≤ length room.old }
        ensures sound { OnOk result (IsSound self.old.seed (at + 65_544 * index) room.new) }
        ensures there { OnOk result (IsTrue (D.is_clean self.new.device)
            → Holds (D.seen self.old.device) (at + 65_544 * index) room.new) }
        ensures bytes { OnOk result (IsTrue (D.is_clean self.new.device) → (bytes : List ℕ)
            → HoldsBlocks (D.seen self.old.device) self.old.seed at bytes
            → 65_536 * index < length bytes
            → length room.old ≡ block_len (length (part_at index bytes))
            → room.new ≡ block self.old.seed (at + 65_544 * index) (part_at index bytes)) }
        ensures damaged { IfErr result (λ fault. fault ≡ Damaged
            → IsTrue (D.is_clean self.new.device) → (bytes : List ℕ)
            → HoldsBlocks (D.seen self.old.device) self.old.seed at bytes
            → 65_536 * index < length bytes
            → length room.old ≡ block_len (length (part_at index bytes)) → ⊥) }
        ensures cause { IfErr result (IsUnreadFor D.Disk (at + 65_544 * index) (length room.old)
            self.old.device self.new.device) }
        ensures untouched { IsUntouched D.Disk self.old.device self.new.device }
        ensures same { self.new.seed ≡ self.old.seed }
    {
        if !self.device.may_be_used() {
            return Err(BlockFault::Broken);
        }
        let Some(place) = place_of(at, index) else {
            return Err(BlockFault::TooLarge);
        };
        self.device.read_at(place, room)?;
        if is_sound(self.seed, place as u64, room) {
            Ok(())
        } else {
            Err(BlockFault::Damaged)
        }
    }
}
