//! Bodies that are read from data files.
ghost use Rattle.std.specs.Prelude.{◌≡◌, ◌*◌, ◌<◌, [], None, false, length, IfOk, IfSome, OnOk};
ghost use Rattle.std.specs.Result.{result_ok};
ghost use Rattle.up_bodies.specs.Shelves.{AreTrueFiles, IsTrueFile};
ghost use Rattle.up_places.specs.Places.{part_at};

use crate::block::ROOM;
use crate::fault::{BlockFault, OpenFault};
use crate::files::{BodyFault, BodyFiles};
use crate::open_file::OpenFile;
use sqlite_disk::Disk;
use std::alloc::Global;
use up_events::Trace;
use up_places::{BLOCK, Place, ReadFailed, Shelf};

/// Reads bodies from the data files of a store. The file that was read last stays open.
#[derive(Drop)]
pub struct BodyShelf<'a, D: Disk, B> {
    alloc: Global,
    files: &'a B,
    current: Option<OpenFile<D>>,
    /// The files that were closed.
    closed: Trace<OpenFile<D>>,
    /// The block that was read last, without its zeros and its checksum.
    block: Vec<u8>,
    has_failed: bool,
}

/// Reads the block of this number of a place from its file, and leaves its zeros and its checksum out.
fn read_into<D: Disk>(
    block: &mut Vec<u8>,
    file: &mut OpenFile<D>,
    place: &Place,
    index: usize,
) -> Result<(), BlockFault>
    requires same { place.now.file ≡ file.old.number }
    requires within { 65_536 * index < length place.now.bytes }
    ensures len { OnOk result (length block.new.items ≡ length (part_at index place.now.bytes)) }
    ensures bytes { OnOk result (IsTrueFile D.Disk file.new
        → block.new.items ≡ part_at index place.now.bytes) }
    ensures stays { IsTrueFile D.Disk file.new → IsTrueFile D.Disk file.old }
    ensures number { file.new.number ≡ file.old.number }
{
    block.resize(ROOM, 0)?;
    let read = file.read(place, index, block.as_mut_slice());
    block.truncate((place.len() - BLOCK * index).min(BLOCK));
    read
}

impl<'a, D: Disk + Drop, B: BodyFiles<D>> BodyShelf<'a, D, B> {
    /// Reads from these files. None is open yet.
    pub fn new(alloc: Global, files: &'a B) -> BodyShelf<'a, D, B>
        ensures none { (result.closed.items ≡ []) × (result.current ≡ None) }
        ensures calm { result.has_failed ≡ false }
    {
        BodyShelf {
            alloc,
            files,
            current: None,
            closed: Trace::new(),
            block: Vec::new(alloc),
            has_failed: false,
        }
    }

    /// Opens the file of this number.
    fn opened(&self, number: u64) -> Result<OpenFile<D>, OpenFault>
        ensures number { IfOk result (λ file. file.number ≡ number) }
    {
        let device = self.files.open(number)?;
        match OpenFile::open(self.alloc, device, &self.files.head(number)) {
            Ok(file) => Ok(file),
            Err(refused) => Err(refused.fault),
        }
    }

    /// Takes the file of this number, if it is open. Another one that is open is closed.
    fn take_open(&mut self, number: u64) -> Option<OpenFile<D>>
        ensures stays { AreTrueFiles D.Disk self.new.closed.items result
            → AreTrueFiles D.Disk self.old.closed.items self.old.current }
        ensures number { IfSome result (λ file. file.number ≡ number) }
        ensures closed { self.new.current ≡ None }
        ensures same { self.new.has_failed ≡ self.old.has_failed }
    {
        let file = self.current.take()?;
        if file.number() == number {
            return Some(file);
        }
        self.closed.push(&file);
        None
    }

    /// Takes the file of this number, which is opened if it isn't open. Another one that is open is closed.
    fn take_file(&mut self, number: u64) -> Result<OpenFile<D>, BodyFault>
        ensures stays { AreTrueFiles D.Disk self.new.closed.items (result_ok result)
            → AreTrueFiles D.Disk self.old.closed.items self.old.current }
        ensures number { IfOk result (λ file. file.number ≡ number) }
        ensures closed { self.new.current ≡ None }
        ensures same { self.new.has_failed ≡ self.old.has_failed }
    {
        if let Some(file) = self.take_open(number) {
            return Ok(file);
        }
        match self.opened(number) {
            Ok(file) => Ok(file),
            Err(fault) => Err(BodyFault::Opened { number, fault }),
        }
    }

    /// Reads the block of this number of a place.
    fn read_block(&mut self, place: &Place, index: usize) -> Result<(), BodyFault>
        requires within { 65_536 * index < length place.now.bytes }
        ensures len { OnOk result (length self.new.block.items
            ≡ length (part_at index place.now.bytes)) }
        ensures bytes { OnOk result (AreTrueFiles D.Disk self.new.closed.items self.new.current
            → self.new.block.items ≡ part_at index place.now.bytes) }
        ensures stays { AreTrueFiles D.Disk self.new.closed.items self.new.current
            → AreTrueFiles D.Disk self.old.closed.items self.old.current }
        ensures same { self.new.has_failed ≡ self.old.has_failed }
    {
        let mut file = self.take_file(place.file())?;
        let read = read_into(&mut self.block, &mut file, place, index);
        self.current = Some(file);
        match read {
            Ok(()) => Ok(()),
            Err(fault) => Err(BodyFault::Read {
                number: place.file(),
                at: place.at(),
                index,
                fault,
            }),
        }
    }
}

impl<D: Disk + Drop, B: BodyFiles<D>> Shelf for BodyShelf<'_, D, B> {
    ghost use Rattle.up_bodies.specs.Shelves.{AreTrueFiles};

    // Each read of a file returned what the file holds, and it holds each place that was asked for.
    ghost is_true = { λ s. AreTrueFiles D.Disk s.closed.items s.current };

    ghost has_failed = { λ s. s.has_failed };

    ghost block = { λ s. s.block.items };

    fn read(&mut self, place: &Place, index: usize) -> Result<(), ReadFailed> {
        match self.read_block(place, index) {
            Ok(()) => Ok(()),
            Err(fault) => {
                self.files.tell(&fault);
                self.has_failed = true;
                Err(ReadFailed)
            }
        }
    }

    fn block(&self) -> &[u8] {
        self.block.as_slice()
    }
}
