//! A file of blocks that is written.
ghost use Rattle.std.specs.Prelude.{◌≡◌, ◌+◌, ◌^◌, ◌<◌, ◌≤◌, ◌++◌, List, ℕ, length, IfErr, IfOk, OnErr, OnOk};
ghost use Rattle.sqlite_disk.specs.Disk.{Holds, Only};
ghost use Rattle.up_bodies.specs.Blocks.{AreWhole, HoldsBlocks, IsUntouched, block, block_len};
ghost use Rattle.up_bodies.specs.Failures.{IsUnmadeFor, IsUnsettledFor, IsUnwrittenFor};
ghost use Rattle.up_bodies.specs.Heads.{head_text, seed_of};

use crate::block::{Seed, close_block};
use crate::fault::{BlockFault, OpenFault};
use crate::head::{HEAD, Head, Written};
use crate::refused::Refused;
use sqlite_disk::Disk;
use std::alloc::Global;

/// A file of blocks that is written. Blocks are added at its end, and bytes before the end are never written again.
#[derive(Drop)]
pub struct BlockWriter<D: Disk> {
    device: D,
    /// What the checksums of the file begin with.
    seed: Seed,
    /// Where the next block goes.
    end: usize,
}

/// Writes this head to the beginning of a file, and returns what the checksums of the file begin with.
fn put_head<D: Disk>(alloc: Global, device: &mut D, head: &Head) -> Result<Seed, OpenFault>
    ensures held { OnOk result (Holds (D.seen device.new) 0 (head_text head.now)) }
    ensures seed { IfOk result (λ seed. seed ≡ seed_of head.now) }
    ensures cause { IfErr result (IsUnmadeFor D.Disk device.old device.new) }
{
    let Written { text, seed } = head.written(alloc)?;
    if !device.may_be_used() {
        return Err(OpenFault::Broken);
    }
    device.write_at(0, &text)?;
    Ok(seed)
}

impl<D: Disk> BlockWriter<D> {
    /// Writes this head to a new file. It is on the disk after `settle`. `Broken` if a sync has failed before, `Disk` if
    /// the disk fails or is full, and `NoMemory` if memory runs out.
    pub fn create(alloc: Global, mut device: D, head: &Head) -> Result<BlockWriter<D>, Refused<D>>
        ensures held { IfOk result (λ file. Holds (D.seen file.device) 0 (head_text head.now)) }
        ensures begun { IfOk result (λ file. (file.seed ≡ seed_of head.now) × (file.end ≡ 56)) }
        ensures cause { IfErr result (λ refused.
            IsUnmadeFor D.Disk device refused.device refused.fault) }
    {
        match put_head(alloc, &mut device, head) {
            Ok(seed) => Ok(BlockWriter {
                device,
                seed,
                end: HEAD,
            }),
            Err(fault) => Err(Refused { fault, device }),
        }
    }

    /// Where the next block goes, in bytes from the beginning of the file.
    pub fn end(&self) -> usize
        ensures { result ≡ self.now.end }
    {
        self.end
    }

    /// Adds a block of these bytes, at most 65,536, of which the vector has the whole block afterwards. It is on the disk
    /// after `settle`. After an error the file ends where it ended. `Broken` if a sync has failed before, `TooLarge` if the
    /// file would have 2^64 bytes or more, `Disk` if the disk fails or is full, and `NoMemory` if memory runs out.
    #[tactic(auto, using(crate::proofs::Held::stays_held, crate::proofs::Held::held_left, crate::proofs::Held::length_block))]
    pub fn put(&mut self, bytes: &mut Vec<u8>) -> Result<(), BlockFault>
        requires few { length bytes.old.items ≤ 65_536 }
        ensures made { OnOk result
            (bytes.new.items ≡ block self.old.seed self.old.end bytes.old.items) }
        ensures held { OnOk result (Holds (D.seen self.new.device) self.old.end
            (block self.old.seed self.old.end bytes.old.items)) }
        ensures end { OnOk result (self.new.end ≡ self.old.end + block_len (length bytes.old.items)) }
        ensures small { OnOk result (self.new.end < 2 ^ 64) }
        ensures grows { OnOk result ((at : ℕ) (before : List ℕ)
            → HoldsBlocks (D.seen self.old.device) self.old.seed at before
            → AreWhole at before self.old.end
            → HoldsBlocks (D.seen self.new.device) self.old.seed at (before ++ bytes.old.items)) }
        ensures others { (place : ℕ) (before : List ℕ) → place + length before ≤ self.old.end
            → Holds (D.seen self.old.device) place before
            → Holds (D.seen self.new.device) place before }
        ensures crash { (place : ℕ) (before : List ℕ) → place + length before ≤ self.old.end
            → ((c : List ℕ) → D.may_leave self.old.device c → Holds c place before)
            → (c : List ℕ) → D.may_leave self.new.device c → Holds c place before }
        ensures same { OnErr result (self.new.end ≡ self.old.end) }
        ensures seed { self.new.seed ≡ self.old.seed }
        ensures calm { D.is_clean self.new.device ≡ D.is_clean self.old.device }
        ensures cause { IfErr result (IsUnwrittenFor D.Disk
            (self.old.end + block_len (length bytes.old.items)) self.old.device self.new.device) }
    {
        if !self.device.may_be_used() {
            return Err(BlockFault::Broken);
        }
        close_block(self.seed, self.end as u64, bytes)?;
        let Some(end) = self.end.checked_add(bytes.len()) else {
            return Err(BlockFault::TooLarge);
        };
        self.device.write_at(self.end, bytes)?;
        self.end = end;
        Ok(())
    }

    /// Has all of the file written through to the disk: every crash then leaves it. `Broken` if a sync has failed before,
    /// and `Disk` if this one fails.
    pub fn settle(&mut self) -> Result<(), BlockFault>
        ensures durable { OnOk result (Only (D.seen self.new.device) (D.may_leave self.new.device)) }
        ensures untouched { IsUntouched D.Disk self.old.device self.new.device }
        ensures same { (self.new.seed ≡ self.old.seed) × (self.new.end ≡ self.old.end) }
        ensures cause { IfErr result
            (IsUnsettledFor D.Disk self.old.device self.new.device) }
    {
        if !self.device.may_be_used() {
            return Err(BlockFault::Broken);
        }
        self.device.sync()?;
        Ok(())
    }

    /// The file. Nothing more is written to it.
    pub fn into_device(self) -> D
        ensures { result ≡ self.device }
    {
        self.device
    }
}
