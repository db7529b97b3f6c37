//! A data file to which bodies are written.
ghost use Rattle.std.specs.Prelude.{◌≡◌, ◌+◌, ◌%◌, ◌≤◌, ◌++◌, [], List, ℕ, length, IfErr, IfOk, OnErr, OnOk};
ghost use Rattle.sqlite_disk.specs.Disk.{Holds, Only};
ghost use Rattle.up_bodies.specs.Blocks.{EndAfterWhole, EndBy, HoldsSpot, IsUntouched, block_len};
ghost use Rattle.up_bodies.specs.Failures.{IsUnmadeFor, IsUnsettledFor, IsUnwrittenFor};
ghost use Rattle.up_bodies.specs.Heads.{head_text, seed_of};
ghost use Rattle.up_places.specs.Places.{Spot};

use crate::fault::BlockFault;
use crate::head::Head;
use crate::refused::Refused;
use crate::writer::BlockWriter;
use sqlite_disk::Disk;
use std::alloc::Global;
use std::mem;
use up_places::{Place, Position};

/// A data file to which one connection writes bodies, one after another. Bytes that were written to it are never
/// changed.
#[derive(Drop)]
pub struct DataFile<D: Disk> {
    file: BlockWriter<D>,
    /// Where the body is that is being put.
    place: Place,
    ghost whole: { EndAfterWhole place.at place.bytes file.end },
    ghost before: { EndBy place.at place.bytes file.end },
    pub ghost held: { HoldsSpot (D.seen file.device) file.seed place },
}

impl<D: Disk> DataFile<D> {
    /// Makes a file with this head, to which no body was written.
    pub fn create(alloc: Global, device: D, head: &Head) -> Result<DataFile<D>, Refused<D>>
        ensures head { IfOk result (λ made.
            Holds (D.seen made.file.device) 0 (head_text head.now)) }
        ensures seed { IfOk result (λ made. made.file.seed ≡ seed_of head.now) }
        ensures place { IfOk result (λ made.
            made.place ≡ record { file = head.now.number; at = 56; bytes = [] }) }
        ensures cause { IfErr result (λ refused.
            IsUnmadeFor D.Disk device refused.device refused.fault) }
    {
        let file = BlockWriter::create(alloc, device, head)?;
        let place = Place::empty(Position {
            file: head.number,
            at: file.end() as u64,
        });
        Ok(DataFile { file, place })
    }

    /// The number of the file.
    pub fn number(&self) -> u64
        ensures { result ≡ self.now.place.file }
    {
        self.place.file()
    }

    /// The number of bytes of the file.
    pub fn len(&self) -> usize
        ensures { result ≡ self.now.file.end }
    {
        self.file.end()
    }

    /// Begins a body, and returns where the one before it is.
    pub fn begin(&mut self) -> Place
        ensures last { result ≡ self.old.place }
        ensures held { HoldsSpot (D.seen self.new.file.device) self.new.file.seed result }
        ensures next { self.new.place
            ≡ record self.old.place { at = self.old.file.end; bytes = [] } }
        ensures same { self.new.file ≡ self.old.file }
    {
        let next = Place::empty(Position {
            file: self.place.file(),
            at: self.file.end() as u64,
        });
        mem::replace(&mut self.place, next)
    }

    /// The file. Nothing more is written to it.
    pub fn into_device(self) -> D
        ensures { result ≡ self.file.device }
    {
        let DataFile { file, .. } = self;
        file.into_device()
    }

    /// Puts the next bytes of the body: 65,536, or fewer if they are its last ones. They are on the disk after `settle`.
    /// After an error the body is as it was, and the vector may have bytes beyond its own. `Broken` if a sync has failed
    /// before, `TooLarge` if the file would have 2^64 bytes or more, `Disk` if the disk fails or is full, and `NoMemory` if
    /// memory runs out.
    pub fn put(&mut self, bytes: &mut Vec<u8>) -> Result<(), BlockFault>
        requires few { length bytes.old.items ≤ 65_536 }
        requires whole { length self.old.place.bytes % 65_536 ≡ 0 }
        ensures put { OnOk result (self.new.place
            ≡ record self.old.place { bytes = self.old.place.bytes ++ bytes.old.items }) }
        ensures kept { OnOk result (bytes.new.items ≡ bytes.old.items) }
        ensures others { (spot : Spot) → EndBy spot.at spot.bytes self.old.file.end
            → HoldsSpot (D.seen self.old.file.device) self.old.file.seed spot
            → HoldsSpot (D.seen self.new.file.device) self.old.file.seed spot }
        ensures crash { (spot : Spot) → EndBy spot.at spot.bytes self.old.file.end
            → ((c : List ℕ) → D.may_leave self.old.file.device c
            → HoldsSpot c self.old.file.seed spot)
            → (c : List ℕ) → D.may_leave self.new.file.device c
            → HoldsSpot c self.old.file.seed spot }
        ensures same { OnErr result (self.new.place ≡ self.old.place) }
        ensures seed { self.new.file.seed ≡ self.old.file.seed }
        ensures cause { IfErr result (IsUnwrittenFor D.Disk
            (self.old.file.end + block_len (length bytes.old.items))
            self.old.file.device self.new.file.device) }
    {
        if bytes.is_empty() {
            return Ok(());
        }
        let len = bytes.len();
        self.file.put(bytes)?;
        bytes.truncate(len);
        self.place.extend(bytes.as_slice());
        Ok(())
    }

    /// Has all of the file written through to the disk: every crash then leaves it. `Broken` if a sync has failed before,
    /// and `Disk` if this one fails.
    pub fn settle(&mut self) -> Result<(), BlockFault>
        ensures durable { OnOk result
            (Only (D.seen self.new.file.device) (D.may_leave self.new.file.device)) }
        ensures untouched { IsUntouched D.Disk self.old.file.device self.new.file.device }
        ensures same { (self.new.place ≡ self.old.place) × (self.new.file.seed ≡ self.old.file.seed)
            × (self.new.file.end ≡ self.old.file.end) }
        ensures cause { IfErr result
            (IsUnsettledFor D.Disk self.old.file.device self.new.file.device) }
    {
        self.file.settle()
    }
}
