//! Reading and writing a part of a file.
ghost use Rattle.std.specs.Prelude.{◌≡◌, ◌≢◌, ◌+◌, ◌<◌, List, ℕ, length, take, drop, IfOk, IfErr, OnOk, IsTrue};
ghost use Rattle.sqlite_disk.specs.Disk.{Holds, Torn, Only};
ghost use Rattle.up_log.specs.Logs.{IsDamaged, IsUnusableLog};

use crate::fault::LogFault;
use sqlite_disk::Disk;
use std::alloc::Global;

/// Fills a buffer with the bytes from this place on.
pub(crate) fn read_from<D: Disk>(disk: &mut D, at: usize, buf: &mut [u8]) -> Result<(), LogFault>
    requires some { 0 < length buf.old }
    ensures bytes { OnOk result (IsTrue (D.is_clean disk.new)
        → buf.new ≡ take (length buf.old) (drop at (D.seen disk.old))) }
    ensures fault { IfErr result (λ fault. IsDamaged fault → ⊥) }
    ensures seen { D.seen disk.new ≡ D.seen disk.old }
    ensures usable { IsTrue (D.is_usable disk.old) → IsTrue (D.is_usable disk.new) }
    ensures clean { IsTrue (D.is_clean disk.new) → IsTrue (D.is_clean disk.old) }
    ensures crash { (c : List ℕ) → D.may_leave disk.new c → D.may_leave disk.old c }
{
    if !disk.may_be_used() {
        return Err(LogFault::Broken);
    }
    disk.read_at(at, buf)?;
    Ok(())
}

/// The `size` bytes from this place on.
pub(crate) fn read_vec<D: Disk>(
    alloc: Global,
    disk: &mut D,
    at: usize,
    size: usize,
) -> Result<Vec<u8>, LogFault>
    requires some { 0 < size }
    ensures bytes { IfOk result (λ bytes. IsTrue (D.is_clean disk.new)
        → bytes.items ≡ take size (drop at (D.seen disk.old))) }
    ensures fault { IfErr result (λ fault. IsDamaged fault → ⊥) }
    ensures seen { D.seen disk.new ≡ D.seen disk.old }
    ensures usable { IsTrue (D.is_usable disk.old) → IsTrue (D.is_usable disk.new) }
    ensures clean { IsTrue (D.is_clean disk.new) → IsTrue (D.is_clean disk.old) }
    ensures crash { (c : List ℕ) → D.may_leave disk.new c → D.may_leave disk.old c }
{
    let mut bytes = vec![in alloc; 0; size]?;
    read_from(disk, at, &mut bytes)?;
    Ok(bytes)
}

/// The number of bytes of the file.
pub(crate) fn len_of<D: Disk>(disk: &mut D) -> Result<usize, LogFault>
    ensures len { IfOk result (λ n. IsTrue (D.is_clean disk.new) → n ≡ length (D.seen disk.old)) }
    ensures fault { IfErr result (λ fault. IsDamaged fault → ⊥) }
    ensures seen { D.seen disk.new ≡ D.seen disk.old }
    ensures usable { IsTrue (D.is_usable disk.old) → IsTrue (D.is_usable disk.new) }
    ensures clean { IsTrue (D.is_clean disk.new) → IsTrue (D.is_clean disk.old) }
    ensures crash { (c : List ℕ) → D.may_leave disk.new c → D.may_leave disk.old c }
{
    if !disk.may_be_used() {
        return Err(LogFault::Broken);
    }
    Ok(disk.len()?)
}

/// Writes everything in the file through to the disk.
pub(crate) fn settle<D: Disk>(disk: &mut D) -> Result<(), LogFault>
    ensures synced { OnOk result (Only (D.seen disk.new) (D.may_leave disk.new)
        × IsTrue (D.is_usable disk.new)) }
    ensures fault { IfErr result (λ fault. IsUnusableLog fault → ⊥) }
    ensures memory { IfErr result (λ fault. fault ≢ LogFault.Memory) }
    ensures seen { D.seen disk.new ≡ D.seen disk.old }
    ensures calm { D.is_clean disk.new ≡ D.is_clean disk.old }
    ensures crash { (c : List ℕ) → D.may_leave disk.new c → D.may_leave disk.old c }
{
    if !disk.may_be_used() {
        return Err(LogFault::Broken);
    }
    disk.sync()?;
    Ok(())
}

/// Writes bytes at this place. After `Ok` they are on the disk.
pub(crate) fn write_synced<D: Disk>(disk: &mut D, at: usize, bytes: &[u8]) -> Result<(), LogFault>
    requires some { 0 < length bytes.now }
    ensures written { OnOk result (Holds (D.seen disk.new) at bytes.now) }
    ensures others { Torn at (length bytes.now) (D.seen disk.old) (D.seen disk.new) }
    ensures synced { OnOk result (Only (D.seen disk.new) (D.may_leave disk.new)) }
    ensures usable { OnOk result (IsTrue (D.is_usable disk.new)) }
    ensures fault { IfErr result (λ fault. IsUnusableLog fault → ⊥) }
    ensures memory { IfErr result (λ fault. fault ≢ LogFault.Memory) }
    ensures calm { D.is_clean disk.new ≡ D.is_clean disk.old }
    ensures crash { (c : List ℕ) → D.may_leave disk.new c
        → (before : List ℕ) × D.may_leave disk.old before × Torn at (length bytes.now) before c }
{
    if !disk.may_be_used() {
        return Err(LogFault::Broken);
    }
    disk.write_at(at, bytes)?;
    settle(disk)
}

/// Writes bytes at this place, and returns the place after them. They are on the disk once the file is synced.
pub(crate) fn write_on<D: Disk>(disk: &mut D, at: usize, bytes: &[u8]) -> Result<usize, LogFault>
    ensures next { IfOk result (λ next. next ≡ at + length bytes.now) }
    ensures written { OnOk result (0 < length bytes.now → Holds (D.seen disk.new) at bytes.now) }
    ensures others { Torn at (length bytes.now) (D.seen disk.old) (D.seen disk.new) }
    ensures fault { IfErr result (λ fault. IsUnusableLog fault → ⊥) }
    ensures memory { IfErr result (λ fault. fault ≢ LogFault.Memory) }
    ensures calm { D.is_clean disk.new ≡ D.is_clean disk.old }
    ensures crash { (c : List ℕ) → D.may_leave disk.new c
        → (before : List ℕ) × D.may_leave disk.old before × Torn at (length bytes.now) before c }
{
    let Some(next) = at.checked_add(bytes.len()) else {
        return Err(LogFault::Broken);
    };
    if !disk.may_be_used() {
        return Err(LogFault::Broken);
    }
    disk.write_at(at, bytes)?;
    Ok(next)
}

/// Whether all of the file is on the disk. This is tried after a write that failed.
pub(crate) fn settles<D: Disk>(disk: &mut D) -> bool
    ensures synced { IsTrue result → Only (D.seen disk.new) (D.may_leave disk.new)
        × IsTrue (D.is_usable disk.new) }
    ensures seen { D.seen disk.new ≡ D.seen disk.old }
    ensures calm { D.is_clean disk.new ≡ D.is_clean disk.old }
    ensures crash { (c : List ℕ) → D.may_leave disk.new c → D.may_leave disk.old c }
{
    settle(disk).is_ok()
}
