//! The count that a run finds after a run that crashed.
ghost use Rattle.std.specs.Prelude.{◌+◌, length, IfOk, IsTrue};
ghost use Rattle.up_handed.specs.Continues.{before_of, handed_events, left_out_of};
ghost use Rattle.up_handed.specs.Counts.{count_of, device_of};
ghost use Rattle.up_handed.specs.OnDisk.{IsAllButOne, IsOnDisk};

use crate::continued::Continued;
use crate::handed::{Handed, Refused};
use sqlite_disk::Crash;

/// Makes the machine crash, and opens the count again, as the next run does. It then includes all events that were
/// handed over, or all but the last, and at least those of earlier runs. For tests, and for statements about two runs.
/// The errors are those of `Handed::open`.
pub fn restart<H: Drop, D: Crash>(earlier: Continued<H, D>) -> Result<Handed<D>, Refused<D>>
    ensures count { IfOk result (λ handed. IsTrue (D.Disk.is_clean (device_of handed))
        → IsAllButOne (left_out_of earlier + before_of earlier)
        (left_out_of earlier + length (handed_events earlier)) (count_of handed)) }
    ensures on_disk { IfOk result (λ handed.
        IsOnDisk D.Disk (device_of handed) (count_of handed)) }
{
    let (_, handed) = earlier.into_parts();
    let mut device = handed.into_device();
    device.crash();
    Handed::open(device)
}
