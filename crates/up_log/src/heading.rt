//! The heading of a log file: reading it, and writing it to a file that has none.
ghost use Rattle.std.specs.Prelude.{◌≡◌, ◌≤◌, ◌++◌, ◌∷◌, []};
ghost use Rattle.std.specs.Prelude.{List, ℕ, length, take, slice_index_or, vec_len, IfOk, OnOk, IfErr, IsTrue};
ghost use Rattle.sqlite_disk.specs.Disk.{Only};
ghost use Rattle.up_log.specs.Blocks.{heading, beginning, IsFileOf, IsLog, IsOurs, IsShut, IsUnfinished};
ghost use Rattle.up_log.specs.Logs.{IsUnusableLog};
ghost use Rattle.up_log.specs.declared.entry.Entry.{Entry as Logged};
ghost use Rattle.up_log.specs.declared.setup.Setup.{Setup as Numbers};

use crate::device::{len_of, read_vec, write_synced};
use crate::fault::LogFault;
use crate::reading::word_of as read_word;
use crate::setup::Setup;
use crate::writing::word_of;
use sqlite_disk::Disk;
use std::alloc::{AllocError, Global};

/// The number of bytes of a gate and a heading.
pub(crate) const BEGINNING: usize = 33;

/// The start of a log file, followed by the first gate, which is closed.
#[tactic(auto, unfolding(crate::specs::Blocks::heading, crate::specs::Blocks::beginning))]
fn whole_heading(alloc: Global, setup: Setup) -> Result<Vec<u8>, AllocError>
    ensures bytes { IfOk result (λ bytes. bytes.items ≡ beginning setup ++ 0 ∷ []) }
    ensures len { IfOk result (λ bytes. vec_len bytes ≡ 34) }
{
    let mut bytes = Vec::with_capacity(alloc, BEGINNING + 1)?;
    bytes.extend_from_slice(&[1, 117, 112, 32, 108, 111, 103, 13, 10])?;
    bytes.extend_from_slice(&word_of(1))?;
    bytes.extend_from_slice(&word_of(setup.lanes))?;
    bytes.extend_from_slice(&word_of(setup.max_size))?;
    bytes.push(0)?;
    Ok(bytes)
}

/// Whether the bytes are the same.
fn are_same(bytes: &[u8], others: &[u8]) -> bool
    ensures { IsTrue result → bytes.now ≡ others.now }
{
    bytes == others
}

/// Whether the bytes begin with `front`.
fn begins_with(bytes: &[u8], front: &[u8]) -> bool
    ensures { IsTrue result → take (length front.now) bytes.now ≡ front.now }
{
    if bytes.len() < front.len() {
        return false;
    }
    let (first, _) = bytes.split_at(front.len());
    are_same(first, front)
}

/// Whether a file has no complete heading yet. `front` is the start of the file, or all of it. `closed` is the heading
/// that belongs after the gate, with the next gate.
#[tactic(auto, using(crate::proofs::Headings::unfinished_is))]
fn is_unfinished(front: &[u8], closed: &[u8]) -> bool
    ensures { (setup : Numbers) → closed.now ≡ heading setup ++ 0 ∷ [] → IsTrue result
        → IsUnfinished setup front.now × (length front.now ≤ 34) }
{
    if front.len() < 2 {
        return true;
    }
    if front[0] == 0 {
        return front.len() <= 34;
    }
    let (_, behind) = front.split_at(1);
    if front[0] == 1 {
        return false;
    }
    are_same(behind, closed)
}

/// The first byte, 1 if there is none.
fn first_of(bytes: &[u8]) -> u8
    ensures { result ≡ slice_index_or bytes.now 0 1 }
{
    if bytes.is_empty() {
        return 1;
    }
    bytes[0]
}

/// Why a file with this start is not the log of a server with this setup.
fn refusal(front: &[u8], setup: Setup) -> LogFault
    ensures { IsUnusableLog result }
{
    let [1, 117, 112, 32, 108, 111, 103, 13, 10, rest @ ..] = front else {
        return LogFault::Foreign;
    };
    let Ok((version, rest)) = read_word(rest) else {
        return LogFault::Foreign;
    };
    let Ok((lanes, rest)) = read_word(rest) else {
        return LogFault::Foreign;
    };
    let Ok((max_size, _)) = read_word(rest) else {
        return LogFault::Foreign;
    };
    difference(version, lanes, max_size, setup)
}

/// The first way in which the numbers of a heading differ from those of the setup: its version, its lanes or its
/// maximum size.
fn difference(version: u64, lanes: u64, max_size: u64, setup: Setup) -> LogFault
    ensures { IsUnusableLog result }
{
    if version != 1 {
        LogFault::Version(version)
    } else if lanes != setup.lanes {
        LogFault::Lanes {
            made: lanes,
            asked: setup.lanes,
        }
    } else {
        LogFault::MaxSize {
            made: max_size,
            asked: setup.max_size,
        }
    }
}

/// Closes the gate of a file without a complete heading, whose first byte is `first`.
fn shut<D: Disk>(disk: &mut D, first: u8) -> Result<(), LogFault>
    ensures shut { (setup : Numbers) → IsUnfinished setup (D.seen disk.old)
        → first ≡ slice_index_or (D.seen disk.old) 0 1
        → Only (D.seen disk.old) (D.may_leave disk.old)
        → OnOk result (IsShut (D.seen disk.new) × Only (D.seen disk.new) (D.may_leave disk.new)) }
    ensures crash { (setup : Numbers) → IsUnfinished setup (D.seen disk.old)
        → first ≡ slice_index_or (D.seen disk.old) 0 1
        → Only (D.seen disk.old) (D.may_leave disk.old)
        → (c : List ℕ) → D.may_leave disk.new c → IsFileOf setup [] c }
    ensures fault { IfErr result (λ fault. IsUnusableLog fault → ⊥) }
    ensures calm { D.is_clean disk.new ≡ D.is_clean disk.old }
{
    if first == 0 {
        return Ok(());
    }
    write_synced(disk, 0, &[0])?;
    Ok(())
}

/// Writes a heading after a closed gate, and then opens the gate.
fn write_heading<D: Disk>(disk: &mut D, closed: &[u8]) -> Result<(), LogFault>
    ensures opened { (setup : Numbers) → closed.now ≡ heading setup ++ 0 ∷ []
        → IsShut (D.seen disk.old)
        → OnOk result ((D.seen disk.new ≡ beginning setup ++ 0 ∷ [])
        × Only (D.seen disk.new) (D.may_leave disk.new)) }
    ensures crash { (setup : Numbers) → closed.now ≡ heading setup ++ 0 ∷ []
        → IsShut (D.seen disk.old)
        → Only (D.seen disk.old) (D.may_leave disk.old)
        → (c : List ℕ) → D.may_leave disk.new c → IsFileOf setup [] c }
    ensures fault { IfErr result (λ fault. IsUnusableLog fault → ⊥) }
    ensures calm { D.is_clean disk.new ≡ D.is_clean disk.old }
{
    if closed.is_empty() {
        return Err(LogFault::Broken);
    }
    write_synced(disk, 1, closed)?;
    write_synced(disk, 0, &[1])?;
    Ok(())
}

/// The first bytes of a file, if it has them: those of the gate and the heading, the next gate, and one more byte.
fn front_of<D: Disk>(alloc: Global, disk: &mut D, len: usize) -> Result<Vec<u8>, LogFault>
    ensures bytes { IfOk result (λ front. IsTrue (D.is_clean disk.new)
        → len ≡ length (D.seen disk.old)
        → front.items ≡ take 35 (D.seen disk.old)) }
    ensures seen { D.seen disk.new ≡ D.seen disk.old }
    ensures clean { IsTrue (D.is_clean disk.new) → IsTrue (D.is_clean disk.old) }
    ensures crash { (c : List ℕ) → D.may_leave disk.new c → D.may_leave disk.old c }
{
    let count = (BEGINNING + 2).min(len);
    if count == 0 {
        return Ok(Vec::new(alloc));
    }
    let front = read_vec(alloc, disk, 0, count)?;
    Ok(front)
}

/// Writes the heading of a file that has none yet, and whose first byte is `first`.
fn begin_anew<D: Disk>(disk: &mut D, first: u8, closed: &[u8]) -> Result<(), LogFault>
    ensures opened { (setup : Numbers) → closed.now ≡ heading setup ++ 0 ∷ []
        → IsUnfinished setup (D.seen disk.old) → first ≡ slice_index_or (D.seen disk.old) 0 1
        → Only (D.seen disk.old) (D.may_leave disk.old)
        → OnOk result ((D.seen disk.new ≡ beginning setup ++ 0 ∷ [])
        × Only (D.seen disk.new) (D.may_leave disk.new)) }
    ensures crash { (setup : Numbers) → closed.now ≡ heading setup ++ 0 ∷ []
        → IsUnfinished setup (D.seen disk.old) → first ≡ slice_index_or (D.seen disk.old) 0 1
        → Only (D.seen disk.old) (D.may_leave disk.old)
        → (c : List ℕ) → D.may_leave disk.new c → IsFileOf setup [] c }
    ensures fault { IfErr result (λ fault. IsUnusableLog fault → ⊥) }
    ensures calm { D.is_clean disk.new ≡ D.is_clean disk.old }
{
    shut(disk, first)?;
    write_heading(disk, closed)?;
    Ok(())
}

/// Makes sure that a file is the log of a server with this setup, and starts a log in a file that has no heading yet.
/// Returns the length of the file.
pub(crate) fn begin<D: Disk>(alloc: Global, disk: &mut D, setup: Setup) -> Result<usize, LogFault>
    ensures ours { OnOk result (IsTrue (D.is_clean disk.new) → IsOurs setup (D.seen disk.old)) }
    ensures unchanged { IfErr result
        (λ fault. IsUnusableLog fault → (D.seen disk.new ≡ D.seen disk.old)
        × ((c : List ℕ) → D.may_leave disk.new c → D.may_leave disk.old c)) }
    ensures reads { (batches : List (List Logged)) → IsFileOf setup batches (D.seen disk.old)
        → Only (D.seen disk.old) (D.may_leave disk.old)
        → IfOk result (λ len. IsTrue (D.is_clean disk.new) → IsLog setup (D.seen disk.new) batches
        × (len ≡ length (D.seen disk.new)) × Only (D.seen disk.new) (D.may_leave disk.new)) }
    ensures crash { (batches : List (List Logged)) → IsFileOf setup batches (D.seen disk.old)
        → Only (D.seen disk.old) (D.may_leave disk.old) → IsTrue (D.is_clean disk.new)
        → (c : List ℕ) → D.may_leave disk.new c → IsFileOf setup batches c }
    ensures clean { IsTrue (D.is_clean disk.new) → IsTrue (D.is_clean disk.old) }
{
    let whole = whole_heading(alloc, setup)?;
    let (opened, _) = whole.split_at(BEGINNING);
    let (_, closed) = whole.split_at(1);
    let len = len_of(disk)?;
    let front = front_of(alloc, disk, len)?;
    if !is_unfinished(&front, closed) {
        if begins_with(&front, opened) {
            return Ok(len);
        }
        return Err(refusal(&front, setup));
    }
    begin_anew(disk, first_of(&front), closed)?;
    Ok(whole.len())
}
