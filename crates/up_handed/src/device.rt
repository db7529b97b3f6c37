//! The length of a file, and adding one to it on the disk.
ghost use Rattle.std.specs.Prelude.{◌≡◌, ◌+◌, List, ℕ, length, IfOk, IfErr, OnOk, IsTrue};
ghost use Rattle.sqlite_disk.specs.Disk.{Only};
ghost use Rattle.up_handed.specs.Faults.{IsOfDisk};
ghost use Rattle.up_handed.specs.OnDisk.{IsOnDisk, IsOnDiskOrNext};

use crate::fault::HandedFault;
use sqlite_disk::Disk;

/// The number of bytes of the file. After `Ok` they are all on the disk.
pub(crate) fn settled_len<D: Disk>(disk: &mut D) -> Result<usize, HandedFault>
    ensures len { IfOk result (λ n. IsTrue (D.is_clean disk.new)
        → n ≡ length (D.seen disk.old)) }
    ensures durable { OnOk result (Only (D.seen disk.new) (D.may_leave disk.new)) }
    ensures seen { D.seen disk.new ≡ D.seen disk.old }
    ensures crash { (c : List ℕ) → D.may_leave disk.new c → D.may_leave disk.old c }
    ensures clean { IsTrue (D.is_clean disk.new) → IsTrue (D.is_clean disk.old) }
    ensures cause { IfErr result (IsOfDisk D.Disk disk.old disk.new) }
{
    if !disk.may_be_used() {
        return Err(HandedFault::Broken);
    }
    let len = disk.len()?;
    disk.sync()?;
    Ok(len)
}

/// Writes a byte after the first `count` bytes, or overwrites the one there. After `Ok` it is on the disk.
pub(crate) fn put_byte<D: Disk>(disk: &mut D, count: usize) -> Result<(), HandedFault>
    requires nearly { IsOnDiskOrNext D.Disk disk.old count }
    ensures added { OnOk result (IsOnDisk D.Disk disk.new (count + 1)) }
    ensures nearly { IsOnDiskOrNext D.Disk disk.new count }
    ensures calm { D.is_clean disk.new ≡ D.is_clean disk.old }
    ensures cause { IfErr result (IsOfDisk D.Disk disk.old disk.new) }
{
    if !disk.may_be_used() {
        return Err(HandedFault::Broken);
    }
    disk.write_at(count, &[1])?;
    disk.sync()?;
    Ok(())
}
