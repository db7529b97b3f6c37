//! What a store reports, and disks whose files can be opened again.
ghost use Rattle.std.specs.Prelude.{IfOk, ⊤};

use crate::faulty::FaultyFile;
use sqlite_disk::{Disk, Fuse, Memory};
use std::alloc::{AllocError, Global};
use std::io;
use std::sync::Wait;
use std::sync::atomic::{AtomicBool, AtomicU64, Ordering};
use up_history::Chronicle;
use up_log::LogFault;
use up_store::{LogFile, StoreNotices, Unrestored};
use up_tie::Batch;

/// How often the store reported that changes cannot be written, that they can be again, and that none is made any more;
/// and that a log was made shorter, and that it could not be. And which files it asked for, and the room of a disk, as
/// a number of writes.
#[derive(Drop)]
struct Counts {
    /// The generation of the log with which the store begins.
    first: u64,
    fails: AtomicU64,
    works: AtomicU64,
    stops: AtomicU64,
    shorter: AtomicU64,
    not_shorter: AtomicU64,
    gone: AtomicU64,
    /// Whether the file of the log is away.
    is_away: AtomicBool,
    /// The least and the greatest generation whose file was to be opened again.
    least: AtomicU64,
    greatest: AtomicU64,
    /// The room that a disk has.
    room: AtomicU64,
    /// The room that is kept for removals.
    spare: AtomicU64,
    /// Whether room can be kept for removals.
    keeps: AtomicBool,
}

/// What is counted of a store, in a box, as the files of a store are.
#[derive(Drop)]
pub struct Tally {
    counts: Box<Counts, Global>,
}

impl Tally {
    /// The store begins with its first log.
    pub fn new(alloc: Global) -> Result<Tally, AllocError> {
        Tally::at(alloc, 0)
    }

    /// The store begins with the log of this generation.
    pub fn at(alloc: Global, first: u64) -> Result<Tally, AllocError> {
        let counts = Counts {
            first,
            fails: AtomicU64::new(0),
            works: AtomicU64::new(0),
            stops: AtomicU64::new(0),
            shorter: AtomicU64::new(0),
            not_shorter: AtomicU64::new(0),
            gone: AtomicU64::new(0),
            is_away: AtomicBool::new(false),
            least: AtomicU64::new(u64::MAX),
            greatest: AtomicU64::new(0),
            room: AtomicU64::new(u64::MAX),
            spare: AtomicU64::new(0),
            keeps: AtomicBool::new(true),
        };
        Ok(Tally {
            counts: Box::new(alloc, counts)?,
        })
    }

    /// The generation of the log with which the store begins.
    pub fn first(&self) -> u64 {
        self.counts.first
    }

    /// Takes the file of the log away.
    pub fn take_away(&self) {
        self.counts.is_away.store(true, Ordering::SeqCst);
    }

    /// How often the store reported that its file is gone.
    pub fn gone(&self) -> u64 {
        self.counts.gone.load(Ordering::SeqCst)
    }

    /// The least and the greatest generation whose file was to be opened again. `None` if no file was.
    pub fn generations(&self) -> Option<(u64, u64)> {
        let least = self.counts.least.load(Ordering::SeqCst);
        let greatest = self.counts.greatest.load(Ordering::SeqCst);
        if least > greatest {
            return None;
        }
        Some((least, greatest))
    }

    /// The room that a disk has.
    pub fn room(&self) -> &AtomicU64 {
        &self.counts.room
    }

    /// The disk has this room left, and what is kept for removals.
    pub fn fill(&self, room: u64, spare: u64) {
        self.counts.room.store(room, Ordering::SeqCst);
        self.counts.spare.store(spare, Ordering::SeqCst);
        self.counts.keeps.store(false, Ordering::SeqCst);
    }

    /// The disk has room again.
    pub fn enlarge(&self) {
        self.counts.room.store(u64::MAX, Ordering::SeqCst);
        self.counts.keeps.store(true, Ordering::SeqCst);
    }

    /// How often a log was made shorter, and how often it could not be.
    pub fn switches(&self) -> [u64; 2] {
        [
            self.counts.shorter.load(Ordering::SeqCst),
            self.counts.not_shorter.load(Ordering::SeqCst),
        ]
    }

    pub fn counts(&self) -> [u64; 3] {
        [
            self.counts.fails.load(Ordering::SeqCst),
            self.counts.works.load(Ordering::SeqCst),
            self.counts.stops.load(Ordering::SeqCst),
        ]
    }
}

impl StoreNotices for &Tally {
    fn fails(&self, _fault: LogFault) {
        self.counts.fails.fetch_add(1, Ordering::SeqCst);
    }

    fn works(&self) {
        self.counts.works.fetch_add(1, Ordering::SeqCst);
    }

    fn is_restored(&self, _entries: u64) {}

    fn is_not_restored(&self, _generation: u64, _why: Unrestored) {}

    fn stops(&self, _fault: LogFault) {
        self.counts.stops.fetch_add(1, Ordering::SeqCst);
    }

    fn is_gone(&self) {
        self.counts.gone.fetch_add(1, Ordering::SeqCst);
    }

    fn is_shorter(&self, _before: u64, _now: u64) {
        self.counts.shorter.fetch_add(1, Ordering::SeqCst);
    }

    fn is_not_shorter(&self, _fault: LogFault) {
        self.counts.not_shorter.fetch_add(1, Ordering::SeqCst);
    }

    fn is_later(&self) {}

    fn keeps_room(&self, _for_others: bool) -> Result<(), LogFault> {
        if self.counts.keeps.load(Ordering::SeqCst) {
            return Ok(());
        }
        Err(LogFault::Disk(io::Error::other("no room to keep")))
    }

    fn makes_room<K: Chronicle>(&self, _batch: &Batch<K>) -> bool {
        let spare = self.counts.spare.swap(0, Ordering::SeqCst);
        if spare == 0 {
            return false;
        }
        self.counts.room.store(spare, Ordering::SeqCst);
        true
    }
}

/// A disk whose file can be opened again.
pub trait Again: Disk {
    /// The same file, opened again.
    fn again(self) -> Self;
}

impl Again for Memory {
    fn again(self) -> Memory {
        self
    }
}

impl<D: Disk> Again for Fuse<D> {
    fn again(self) -> Fuse<D> {
        self
    }
}

impl<'a> Again for FaultyFile<'a> {
    fn again(self) -> FaultyFile<'a> {
        self.reopened()
    }
}

impl<D: Again> LogFile<D> for &Tally {
    ghost is_file = { λ _ _. ⊤ };

    fn open_again(&self, generation: u64, failed: Option<D>) -> Result<D, LogFault>
        ensures { IfOk result (λ _. ⊤) }
    {
        self.counts.least.fetch_min(generation, Ordering::SeqCst);
        self.counts.greatest.fetch_max(generation, Ordering::SeqCst);
        match failed {
            Some(disk) => Ok(disk.again()),
            None => Err(LogFault::Busy),
        }
    }

    fn is_there<R: Wait>(&self, _rt: &R, _generation: u64) -> bool {
        !self.counts.is_away.load(Ordering::SeqCst)
    }
}
