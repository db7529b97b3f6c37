//! The number of events of a lane that were handed over.
ghost use Rattle.std.specs.Prelude.{◌≡◌, ◌+◌, ◌<◌, List, ℕ, length, IfOk, IfErr, OnOk, OnErr, IsTrue};
ghost use Rattle.up_handed.specs.Faults.{IsOfDisk, StopsAt};
ghost use Rattle.up_handed.specs.OnDisk.{IsOnDisk, IsOnDiskOrNext};

use crate::device::{put_byte, settled_len};
use crate::fault::HandedFault;
use crate::handed_to::HandedTo;
use sqlite_disk::Disk;

/// The number of events of a lane that all runs handed over, as the length of a file: one byte for each. Nothing else
/// writes the file.
#[derive(Drop)]
pub struct Handed<D: Disk> {
    pub(crate) device: D,
    pub(crate) count: usize,
    pub ghost nearly: { IsOnDiskOrNext D.Disk device count },
}

/// Why a count was not opened, and the file.
#[derive(Drop)]
pub struct Refused<D: Disk> {
    pub fault: HandedFault,
    pub device: D,
}

impl<D: Disk> Handed<D> {
    ghost use Rattle.up_handed.specs.Counts.{count_of, device_of, file_of};

    /// The number that a file contains: its length, so 0 for an empty file. It is on the disk. `Disk` if the disk
    /// fails, and `Broken` if a sync has failed before.
    pub fn open(device: D) -> Result<Handed<D>, Refused<D>>
        ensures count { IfOk result (λ handed. IsTrue (D.is_clean (device_of handed))
            → count_of handed ≡ length (D.seen device)) }
        ensures on_disk { IfOk result (λ handed.
            IsOnDisk D.Disk (device_of handed) (count_of handed)) }
        ensures seen { D.seen (file_of result) ≡ D.seen device }
        ensures crash { (c : List ℕ) → D.may_leave (file_of result) c → D.may_leave device c }
        ensures clean { IsTrue (D.is_clean (file_of result)) → IsTrue (D.is_clean device) }
        ensures cause { IfErr result (λ refused.
            IsOfDisk D.Disk device refused.device refused.fault) }
    {
        let mut device = device;
        match settled_len(&mut device) {
            Ok(count) => Ok(Handed { device, count }),
            Err(fault) => Err(Refused { fault, device }),
        }
    }

    /// The number of events that were handed over.
    pub fn count(&self) -> u64
        ensures { result ≡ count_of self.now }
    {
        self.count as u64
    }

    /// Adds one for an event that this post-hook has been handed, in a run that continued after `before` events.
    /// Returns once the new number is on the disk. A crash during the call, or after an error, leaves the old number or
    /// the new one. After an error the number is the old one, and the call may be made again: `Disk` if the disk failed
    /// or is full; `Broken` if a sync has failed before, until the file is opened again; `Full` if the number is 2^64 -
    /// 1.
    pub fn add<T: HandedTo>(&mut self, hook: &T, before: u64) -> Result<(), HandedFault>
        requires handed_over { count_of self.old < before + length (T.events hook.now) }
        ensures count { OnOk result (count_of self.new ≡ count_of self.old + 1) }
        ensures on_disk { OnOk result (IsOnDisk D.Disk (device_of self.new) (count_of self.new)) }
        ensures same { OnErr result (count_of self.new ≡ count_of self.old) }
        ensures crash { IsOnDiskOrNext D.Disk (device_of self.new) (count_of self.old) }
        ensures calm { D.is_clean (device_of self.new) ≡ D.is_clean (device_of self.old) }
        ensures cause { IfErr result
            (StopsAt D.Disk (count_of self.old) (device_of self.old) (device_of self.new)) }
    {
        let Some(next) = self.count.checked_add(1) else {
            return Err(HandedFault::Full);
        };
        put_byte(&mut self.device, self.count)?;
        self.count = next;
        Ok(())
    }

    /// The file. The count is then used up.
    pub fn into_device(self) -> D
        ensures { result ≡ device_of self }
    {
        self.device
    }
}
