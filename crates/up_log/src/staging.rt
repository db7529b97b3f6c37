//! Writing the body of a block.
ghost use Rattle.std.specs.Prelude.{◌≡◌, ◌≢◌, ◌+◌, ◌≤◌, ◌++◌, [], List, ℕ, length};
ghost use Rattle.std.specs.Prelude.{IfOk, IfErr, IfSome, OnOk, IsTrue};
ghost use Rattle.sqlite_disk.specs.Disk.{Only};
ghost use Rattle.up_log.specs.Spelling.{batch, entry};
ghost use Rattle.up_log.specs.Logs.{IsUnusableLog};
ghost use Rattle.up_log.specs.Staging.{body_front, closed_body, IsStagedTo, IsTouched, WritesBody};

use crate::device::{settle, settles, write_on};
use crate::fault::LogFault;
use crate::spelled::Spelled;
use crate::writing::put_word;
use sqlite_disk::Disk;
use std::alloc::AllocError;

/// The number of bytes of a batch. `None` if it is more than a `usize` holds.
fn size_of(entries: &[Spelled]) -> Option<usize>
    ensures { IfSome result (λ size. size ≡ length (batch entries.now)) }
{
    let mut size: usize = 8;
    for logged in entries {
        let (front, back) = logged.parts();
        size = size.checked_add(front.len())?.checked_add(back.len())?;
    }
    Some(size)
}

/// Empties `room`, and makes it large enough for all of a block but the shared bodies.
fn reserve(room: &mut Vec<u8>, entries: &[Spelled]) -> Result<(), AllocError>
    ensures { OnOk result (room.new.items ≡ []) }
{
    let mut size: usize = 17;
    for logged in entries {
        size = size.saturating_add(logged.parts().0.len());
    }
    room.clear();
    room.reserve(size)
}

/// Begins the body of a block in `room` with its two numbers. Returns how many bytes the body and the next gate have.
/// `AllocError` if memory runs out, or if no `usize` holds that number.
pub(crate) fn begin_body(room: &mut Vec<u8>, entries: &[Spelled]) -> Result<usize, AllocError>
    ensures size { IfOk result (λ size. size ≡ length (closed_body entries.now)) }
    ensures front { OnOk result (room.new.items ≡ body_front entries.now) }
{
    let Some(size) = size_of(entries) else {
        return Err(AllocError);
    };
    let Some(whole) = size.checked_add(9) else {
        return Err(AllocError);
    };
    reserve(room, entries)?;
    put_word(room, size as u64)?;
    put_word(room, entries.len() as u64)?;
    Ok(whole)
}

/// Puts bytes at the end of `room`, where `begin_body` has reserved what they take. The error, which does not come,
/// isn't `Memory`, since the file may have changed.
fn put(room: &mut Vec<u8>, bytes: &[u8]) -> Result<(), LogFault>
    ensures ok { OnOk result (room.new.items ≡ room.old.items ++ bytes.now) }
    ensures fault { IfErr result (λ fault. IsUnusableLog fault → ⊥) }
    ensures memory { IfErr result (λ fault. fault ≢ LogFault.Memory) }
{
    match room.extend_from_slice(bytes) {
        Ok(()) => Ok(()),
        Err(_) => Err(LogFault::Broken),
    }
}

/// Puts an entry at the end of `room`, whose bytes belong at the place `at`. If it has a shared body, writes `room` and
/// then that body. Returns the place of what is in `room` then.
fn stage_entry<D: Disk>(
    disk: &mut D,
    at: usize,
    room: &mut Vec<u8>,
    logged: &Spelled,
) -> Result<usize, LogFault>
    ensures staged { (start size : ℕ) (done : List ℕ) (first : D)
        → IsStagedTo D.Disk start size done first disk.old at room.old.items
        → length done + length (entry logged.now) ≤ size
        → IsTouched D.Disk start size first disk.new
        × IfOk result (λ next. IsStagedTo D.Disk start size
        (done ++ entry logged.now) first disk.new next room.new.items) }
    ensures fault { IfErr result (λ fault. IsUnusableLog fault → ⊥) }
    ensures memory { IfErr result (λ fault. fault ≢ LogFault.Memory) }
{
    let (front, back) = logged.parts();
    put(room, front)?;
    if back.is_empty() {
        return Ok(at);
    }
    let next = write_on(disk, at, room)?;
    room.clear();
    write_on(disk, next, back)
}

/// Writes the body of a block after its gate, and then the next gate, closed. `room` has the beginning of the body.
fn write_body<D: Disk>(
    disk: &mut D,
    gate: usize,
    room: &mut Vec<u8>,
    entries: &[Spelled],
) -> Result<(), LogFault>
    requires front { room.old.items ≡ body_front entries.now }
    ensures whole { WritesBody D.Disk gate entries.now disk.old disk.new result }
    ensures fault { IfErr result (λ fault. IsUnusableLog fault → ⊥) }
    ensures memory { IfErr result (λ fault. fault ≢ LogFault.Memory) }
{
    let Some(mut at) = gate.checked_add(1) else {
        return Err(LogFault::Broken);
    };
    for logged in entries {
        at = stage_entry(disk, at, room, logged)?;
    }
    put(room, &[0])?;
    write_on(disk, at, room)?;
    Ok(())
}

/// Does what `write_body` does, and syncs. Also returns whether all of the file is on the disk, even after an error.
pub(crate) fn stage<D: Disk>(
    disk: &mut D,
    gate: usize,
    room: &mut Vec<u8>,
    entries: &[Spelled],
) -> (Result<(), LogFault>, bool)
    requires front { room.old.items ≡ body_front entries.now }
    ensures whole { WritesBody D.Disk gate entries.now disk.old disk.new result.0 }
    ensures synced { OnOk result.0 (IsTrue result.1) }
    ensures settled { IsTrue result.1 → Only (D.seen disk.new) (D.may_leave disk.new)
        × IsTrue (D.is_usable disk.new) }
    ensures fault { IfErr result.0 (λ fault. IsUnusableLog fault → ⊥) }
    ensures memory { IfErr result.0 (λ fault. fault ≢ LogFault.Memory) }
{
    let staged = match write_body(disk, gate, room, entries) {
        Ok(()) => settle(disk),
        Err(fault) => Err(fault),
    };
    let is_settled = staged.is_ok() || settles(disk);
    (staged, is_settled)
}
