//! Reading a block of a log at its place.
ghost use Rattle.std.specs.Prelude.{◌≡◌, ◌+◌, ◌<◌, ◌≤◌, ◌++◌, ◌∷◌, List, ℕ, length, take, drop, false, IfOk, IfErr, IsTrue};
ghost use Rattle.up_log.specs.Blocks.{blocks, IsClosed};
ghost use Rattle.up_log.specs.Logs.{NextIs, HasSize, IsBatchRead, BlockIs, IsDamaged, IsDamagedAt};
ghost use Rattle.up_log.specs.Spelling.{batch};
ghost use Rattle.up_log.specs.declared.fault.Unread.TheVariants.{Damaged};
ghost use Rattle.up_log.specs.declared.entry.Entry.{Entry as Logged};

use crate::device::{read_from, read_vec};
use crate::entries::whole_batch;
use crate::entry::Entry;
use crate::fault::{LogFault, Unread};
use crate::reading::word_of;
use sqlite_disk::Disk;
use std::alloc::Global;
use up_message::Sequence;
use up_places::Contents;

/// The log's fault for a block at the place `gate` whose bytes were not read as a batch.
fn log_fault(fault: Unread, gate: usize) -> LogFault
    ensures damage { IsDamaged result → fault ≡ Damaged }
    ensures place { IsDamagedAt gate result }
{
    match fault {
        Unread::Memory => LogFault::Memory,
        Unread::Damaged => damaged_at(gate),
        Unread::NotThere(start) => LogFault::NotThere {
            file: start.file,
            at: start.at,
        },
    }
}

/// The fault that the block at this place is damaged.
fn damaged_at(gate: usize) -> LogFault
    ensures { result ≡ LogFault.Damaged gate }
{
    LogFault::Damaged { place: gate as u64 }
}

/// Whether a block begins at this place.
pub(crate) fn begins_at<D: Disk>(disk: &mut D, len: usize, gate: usize) -> Result<bool, LogFault>
    ensures next { (left : List (List Logged)) (back : List ℕ)
        → drop gate (D.seen disk.old) ≡ blocks left ++ back → IsClosed back
        → len ≡ length (D.seen disk.old)
        → IfOk result (λ begins. IsTrue (D.is_clean disk.new) → NextIs left begins) }
    ensures closed { IfOk result (λ begins. begins ≡ false
        → len ≡ length (D.seen disk.old) → IsTrue (D.is_clean disk.new)
        → IsClosed (drop gate (D.seen disk.old))) }
    ensures fault { IfErr result (λ fault. IsDamaged fault → ⊥) }
    ensures seen { D.seen disk.new ≡ D.seen disk.old }
    ensures clean { IsTrue (D.is_clean disk.new) → IsTrue (D.is_clean disk.old) }
    ensures crash { (c : List ℕ) → D.may_leave disk.new c → D.may_leave disk.old c }
{
    if len.saturating_sub(gate) < 2 {
        return Ok(false);
    }
    let mut byte = [0; 1];
    read_from(disk, gate, &mut byte)?;
    if byte[0] != 1 {
        return Ok(false);
    }
    Ok(true)
}

/// The number of bytes of the batch in the block at this place.
fn size_at<D: Disk>(disk: &mut D, len: usize, gate: usize) -> Result<usize, LogFault>
    ensures size { (first : List Logged) (others : List (List Logged)) (back : List ℕ)
        → drop gate (D.seen disk.old) ≡ blocks (first ∷ others) ++ back
        → len ≡ length (D.seen disk.old)
        → IsTrue (D.is_clean disk.new) → HasSize first result }
    ensures fits { IfOk result (λ n. gate + 9 + n ≤ len) }
    ensures place { IfErr result (IsDamagedAt gate) }
    ensures seen { D.seen disk.new ≡ D.seen disk.old }
    ensures usable { IsTrue (D.is_usable disk.old) → IsTrue (D.is_usable disk.new) }
    ensures clean { IsTrue (D.is_clean disk.new) → IsTrue (D.is_clean disk.old) }
    ensures crash { (c : List ℕ) → D.may_leave disk.new c → D.may_leave disk.old c }
{
    let rest = len.saturating_sub(gate);
    if rest < 9 {
        return Err(damaged_at(gate));
    }
    let mut bytes = [0; 8];
    read_from(disk, gate + 1, &mut bytes)?;
    let size = match word_of(&bytes) {
        Ok((size, _)) => size as usize,
        Err(fault) => return Err(log_fault(fault, gate)),
    };
    if rest - 9 < size {
        return Err(damaged_at(gate));
    }
    Ok(size)
}

/// The batch that is encoded in the `size` bytes at the place `at`. Its block begins at the place `gate`.
fn batch_from<D: Disk, C: Contents>(
    alloc: Global,
    disk: &mut D,
    files: &C,
    gate: usize,
    at: usize,
    size: usize,
) -> Result<Sequence<Entry>, LogFault>
    ensures entries { (first : List Logged) → take size (drop at (D.seen disk.old)) ≡ batch first
        → IsTrue (D.is_clean disk.new) → IsBatchRead (C.content files.now) first result }
    ensures place { IfErr result (IsDamagedAt gate) }
    ensures seen { D.seen disk.new ≡ D.seen disk.old }
    ensures usable { IsTrue (D.is_usable disk.old) → IsTrue (D.is_usable disk.new) }
    ensures clean { IsTrue (D.is_clean disk.new) → IsTrue (D.is_clean disk.old) }
    ensures crash { (c : List ℕ) → D.may_leave disk.new c → D.may_leave disk.old c }
{
    if size == 0 {
        return Err(damaged_at(gate));
    }
    let bytes = read_vec(alloc, disk, at, size)?;
    match whole_batch(alloc, files, &bytes) {
        Ok(entries) => Ok(entries),
        Err(fault) => Err(log_fault(fault, gate)),
    }
}

/// The batch of the block at this place, and the place after the block.
pub(crate) fn block_at<D: Disk, C: Contents>(
    alloc: Global,
    disk: &mut D,
    files: &C,
    len: usize,
    gate: usize,
) -> Result<(Sequence<Entry>, usize), LogFault>
    ensures block { (first : List Logged) (others : List (List Logged)) (back : List ℕ)
        → drop gate (D.seen disk.old) ≡ blocks (first ∷ others) ++ back
        → len ≡ length (D.seen disk.old)
        → IsTrue (D.is_clean disk.new)
        → BlockIs (C.content files.now) first (gate + 9 + length (batch first)) result }
    ensures fits { IfOk result (λ block. (gate < block.1) × (block.1 ≤ len)) }
    ensures place { IfErr result (IsDamagedAt gate) }
    ensures seen { D.seen disk.new ≡ D.seen disk.old }
    ensures usable { IsTrue (D.is_usable disk.old) → IsTrue (D.is_usable disk.new) }
    ensures clean { IsTrue (D.is_clean disk.new) → IsTrue (D.is_clean disk.old) }
    ensures crash { (c : List ℕ) → D.may_leave disk.new c → D.may_leave disk.old c }
{
    let size = size_at(disk, len, gate)?;
    let at = gate + 9;
    let entries = batch_from(alloc, disk, files, gate, at, size)?;
    Ok((entries, at + size))
}
