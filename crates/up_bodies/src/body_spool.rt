//! Bodies that are put into data files as they arrive.
ghost use Rattle.std.specs.Prelude.{◌≡◌, [], IfOk, None, OnOk};
ghost use Rattle.std.specs.Option.{option_map_or};

use crate::data_file::DataFile;
use crate::fault::OpenFault;
use crate::files::{BodyFault, BodyFiles};
use sqlite_disk::Disk;
use std::alloc::Global;
use up_places::{Place, PutFailed, Spool};

/// Puts the bodies of one connection into data files of a store.
#[derive(Drop)]
pub struct BodySpool<'a, D: Disk, B> {
    alloc: Global,
    files: &'a B,
    /// A body that is known to have fewer bytes stays in memory.
    least: u64,
    /// A file that has so many bytes takes no further body.
    most: usize,
    /// The file of the last body.
    file: Option<DataFile<D>>,
}

impl<'a, D: Disk + Drop, B: BodyFiles<D>> BodySpool<'a, D, B> {
    /// Puts bodies into files like these. A body that is known to have fewer than `least` bytes stays in memory, and a file
    /// of `most` bytes or more takes no further body.
    pub fn new(alloc: Global, files: &'a B, least: u64, most: usize) -> BodySpool<'a, D, B>
        ensures file { result.file ≡ None }
        ensures bounds { (result.least ≡ least) × (result.most ≡ most) }
    {
        BodySpool {
            alloc,
            files,
            least,
            most,
            file: None,
        }
    }

    /// Makes a file, to which nothing was put.
    fn made(&self) -> Result<DataFile<D>, OpenFault>
        ensures { IfOk result (λ file. file.place.bytes ≡ []) }
    {
        let (number, device) = self.files.make()?;
        match DataFile::create(self.alloc, device, &self.files.head(number)) {
            Ok(file) => Ok(file),
            Err(refused) => Err(refused.fault),
        }
    }

    /// Begins a body in the file of the last one, or in a new one.
    fn begin_body(&mut self) -> Result<(), PutFailed>
        ensures { OnOk result (option_map_or (λ f. f.place.bytes) self.new.file [] ≡ []) }
    {
        if let Some(file) = &mut self.file
            && file.len() < self.most
        {
            file.begin();
            return Ok(());
        }
        self.file = None;
        match self.made() {
            Ok(file) => {
                self.file = Some(file);
                Ok(())
            }
            Err(fault) => {
                self.files.tell(&BodyFault::Made(fault));
                Err(PutFailed)
            }
        }
    }
}

impl<D: Disk + Drop, B: BodyFiles<D>> Spool for BodySpool<'_, D, B> {
    ghost use Rattle.std.specs.Prelude.{[]};
    ghost use Rattle.std.specs.Option.{option_map_or};
    ghost use Rattle.up_bodies.specs.Shelves.{IsSettledPut, takes_from};

    ghost takes = { λ s. takes_from s.least };

    ghost body = { λ s. option_map_or (λ f. f.place.bytes) s.file [] };

    ghost is_settled = { λ s. IsSettledPut D.Disk s.file };

    fn begin(&mut self, size: Option<u64>) -> Result<bool, PutFailed> {
        if let Some(size) = size
            && size < self.least
        {
            return Ok(false);
        }
        self.begin_body()?;
        Ok(true)
    }

    fn put(&mut self, bytes: &mut Vec<u8>) -> Result<(), PutFailed> {
        let Some(file) = &mut self.file else {
            return Err(PutFailed);
        };
        let number = file.number();
        match file.put(bytes) {
            Ok(()) => Ok(()),
            Err(fault) => {
                self.files.tell(&BodyFault::Written { number, fault });
                Err(PutFailed)
            }
        }
    }

    // If that fails, the next body is put into another file.
    fn finish(&mut self) -> Result<Place, PutFailed> {
        let Some(file) = &mut self.file else {
            return Err(PutFailed);
        };
        let number = file.number();
        match file.settle() {
            Ok(()) => Ok(file.begin()),
            Err(fault) => {
                self.file = None;
                self.files.tell(&BodyFault::Written { number, fault });
                Err(PutFailed)
            }
        }
    }
}
