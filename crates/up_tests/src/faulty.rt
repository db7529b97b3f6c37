//! A file in memory of which calls fail.
ghost use Rattle.std.specs.Prelude.{◌≡◌, ◌+◌, ◌&&◌, not, false};
ghost use Rattle.std.proofs.Common.{inl, refl};
ghost use Rattle.sqlite_disk.specs.Disk.{CountsFault};
ghost use Rattle.sqlite_disk.specs.Refusal.{finds_no_room};

use sqlite_disk::{Disk, Memory, Tally};
use std::io;
use std::sync::atomic::{AtomicU64, Ordering};

/// A call of a file.
#[derive(Clone, Copy, PartialEq)]
enum Call {
    Write,
    Other,
}

/// Which calls of a file fail.
#[derive(Drop)]
enum Faults<'a> {
    /// Two calls, each by its number, counted from 1. The second number doesn't count the first of them. 0 is none.
    Twice(u64, u64),
    /// The writes for which there is no room left. The largest number is room for all.
    Full(&'a AtomicU64),
}

/// Counts a call, and says whether it is the one that fails.
fn is_last(calls: &mut u64) -> bool {
    let fails = *calls == 1;
    *calls = calls.saturating_sub(1);
    fails
}

/// Takes the room of a write, if there is any.
fn takes_room(room: &AtomicU64) -> bool {
    let left = room.load(Ordering::SeqCst);
    if left > 0 && left < u64::MAX {
        room.store(left - 1, Ordering::SeqCst);
    }
    left > 0
}

impl Faults<'_> {
    /// Whether the next call, which is of this kind, succeeds.
    fn allow(&mut self, call: Call) -> bool {
        match self {
            Faults::Twice(first, second) => !is_last(first) && !is_last(second),
            Faults::Full(room) => call != Call::Write || takes_room(room),
        }
    }
}

/// A file in memory of which calls fail. After a sync that failed it can be used only once it is opened again.
///
/// It has no type parameter: a call of a trait's function at a type with one takes the prover a second.
#[derive(Drop)]
pub struct FaultyFile<'a> {
    inner: Memory,
    faults: Faults<'a>,
    refused: u64,
    sync_refused: bool,
}

impl<'a> FaultyFile<'a> {
    fn new(inner: Memory, faults: Faults<'a>) -> FaultyFile<'a> {
        FaultyFile {
            inner,
            faults,
            refused: 0,
            sync_refused: false,
        }
    }

    /// The call of this number fails, counted from 1. None does if it is 0.
    pub fn failing_at(inner: Memory, call: u64) -> FaultyFile<'a> {
        FaultyFile::failing_twice(inner, (call, 0))
    }

    /// The calls of these numbers fail, counted from 1. The second number doesn't count the first of them. 0 is none.
    pub fn failing_twice(inner: Memory, calls: (u64, u64)) -> FaultyFile<'a> {
        FaultyFile::new(inner, Faults::Twice(calls.0, calls.1))
    }

    /// There is room for this number of writes, which a test may change. The largest number is room for all.
    pub fn with_room(inner: Memory, room: &'a AtomicU64) -> FaultyFile<'a> {
        FaultyFile::new(inner, Faults::Full(room))
    }

    pub fn into_inner(self) -> Memory {
        self.inner
    }

    /// The same file, opened again.
    pub fn reopened(self) -> FaultyFile<'a> {
        FaultyFile::new(self.inner, self.faults)
    }
}

/// Asks whether a call succeeds, and counts it if it doesn't.
fn ask(faults: &mut Faults<'_>, refused: &mut u64, call: Call) -> io::Result<()>
    ensures faults { CountsFault result refused.old refused.new }
    ensures kind { finds_no_room result ≡ false }
{
    if faults.allow(call) {
        return Ok(());
    }
    *refused = refused.saturating_add(1);
    Err(io::Error::other("no room"))
}

impl Disk for FaultyFile<'_> {
    ghost seen = { λ f. ⟦<Memory as Disk>⟧.seen f.inner };

    ghost may_leave = { λ f. ⟦<Memory as Disk>⟧.may_leave f.inner };

    ghost is_usable = { λ f. ⟦<Memory as Disk>⟧.is_usable f.inner && not f.sync_refused };

    ghost faults = { λ f. ⟦<Memory as Disk>⟧.faults f.inner + f.refused };

    ghost tally_of = { λ f. ⟦<Memory as Disk>⟧.tally_of f.inner };

    ghost is_rotten = { λ f. ⟦<Memory as Disk>⟧.is_rotten f.inner };

    ghost key_of = { λ f. ⟦<Memory as Disk>⟧.key_of f.inner };

    ghost is_clean = { λ f. ⟦<Memory as Disk>⟧.is_clean f.inner };

    ghost is_fair = { λ f. ⟦<Memory as Disk>⟧.is_fair f.inner };

    ghost fair_if_clean = { λ _ _ _. refl };

    ghost seen_may_stay = { λ _. inl refl };

    ghost is_mixing = { λ f. ⟦<Memory as Disk>⟧.is_mixing f.inner };

    fn mixes(&self) -> bool {
        self.inner.mixes()
    }

    fn key(&self) -> u64 {
        self.inner.key()
    }

    fn tally(&self) -> Tally {
        self.inner.tally()
    }

    fn may_be_used(&self) -> bool {
        self.inner.may_be_used() && !self.sync_refused
    }

    fn len(&mut self) -> io::Result<usize> {
        ask(&mut self.faults, &mut self.refused, Call::Other)?;
        self.inner.len()
    }

    fn read_at(&mut self, at: usize, buf: &mut [u8]) -> io::Result<()> {
        ask(&mut self.faults, &mut self.refused, Call::Other)?;
        self.inner.read_at(at, buf)
    }

    fn read_checked(&mut self, key: u64, want: u64, at: usize, buf: &mut [u8]) -> io::Result<()> {
        ask(&mut self.faults, &mut self.refused, Call::Other)?;
        self.inner.read_checked(key, want, at, buf)
    }

    fn write_at(&mut self, at: usize, bytes: &[u8]) -> io::Result<()> {
        ask(&mut self.faults, &mut self.refused, Call::Write)?;
        self.inner.write_at(at, bytes)
    }

    fn set_len(&mut self, len: usize) -> io::Result<()> {
        ask(&mut self.faults, &mut self.refused, Call::Other)?;
        self.inner.set_len(len)
    }

    fn sync(&mut self) -> io::Result<()> {
        if let Err(error) = ask(&mut self.faults, &mut self.refused, Call::Other) {
            self.sync_refused = true;
            return Err(error);
        }
        self.inner.sync()
    }
}
