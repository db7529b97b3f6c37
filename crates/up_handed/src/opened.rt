//! A count that a post-hook continues after.
ghost use Rattle.std.specs.Prelude.{◌≡◌, ◌≤◌, ◌<◌, IfSome, IfNone};
ghost use Rattle.up_handed.specs.Counts.{count_of, device_of};
ghost use Rattle.up_handed.specs.OnDisk.{IsOnDisk};

use crate::handed::Handed;
use sqlite_disk::Disk;

/// A count whose number is on the disk, as it is after the count was opened.
#[derive(Drop)]
pub struct Opened<D: Disk> {
    pub(crate) handed: Handed<D>,
    /// The number of counted events that a shorter log leaves out.
    pub(crate) left_out: u64,
    ghost on_disk: { IsOnDisk D.Disk (device_of handed) (count_of handed) },
    ghost fits: { left_out ≤ count_of handed },
}

impl<D: Disk> Opened<D> {
    /// A count whose number is on the disk. A shorter log leaves out `left_out` of its events; `None` if it counts
    /// fewer.
    pub fn new(handed: Handed<D>, left_out: u64) -> Option<Opened<D>>
    where
        D: Drop,
        requires on_disk { IsOnDisk D.Disk (device_of handed) (count_of handed) }
        ensures opened { IfSome result (λ o. (o.handed ≡ handed) × (o.left_out ≡ left_out)) }
        ensures none { IfNone result (count_of handed < left_out) }
    {
        if left_out > handed.count() {
            return None;
        }
        Some(Opened { handed, left_out })
    }
}
