//! Logs that a switch to a shorter one has left, when a server starts again.
use super::beginning::begun;
use crate::logs::{PAIR, disk_of, file_of, heads_of};
use crate::same::expect_same;
use sqlite_disk::Memory;
use std::alloc::Global;
use std::process::Abort;
use std::sync::Wait;
use std::sync::atomic::{AtomicU64, Ordering};
use up_compact::Head;
use up_log::{LogFault, LogReader};
use up_message::Sequence;
use up_store::{Current, EndedUploads, Folder, Shortening};

/// The generation of the log with which the server starts.
const GENERATION: u64 = 3;

/// How many logs were removed, and the sum of their generations.
#[derive(Drop)]
struct Removed {
    count: AtomicU64,
    sum: AtomicU64,
}

impl Folder<Memory> for &Removed {
    fn make(&self, _generation: u64) -> Result<(LogReader<Memory>, LogReader<Memory>), LogFault> {
        Err(LogFault::NotRead)
    }

    fn remove(&self, generation: u64) {
        self.count.fetch_add(1, Ordering::SeqCst);
        self.sum.fetch_add(generation, Ordering::SeqCst);
    }
}

/// Heads of which the last says that its log has this many entries.
fn current(alloc: Global, entries: u64) -> Result<Current<Memory>, LogFault> {
    let (heads, _) = heads_of(alloc, Memory::new(alloc))?;
    let head = Head {
        generation: GENERATION,
        entries,
        left_out: Sequence::new(alloc),
    };
    Ok(Current { heads, head })
}

/// Starts a server on this log, whose head says that it has this many entries. Returns whether the log was read, how
/// many logs were removed, and the sum of their generations.
fn start<R: Wait + Abort>(rt: &R, alloc: Global, log: Memory, entries: u64) -> (bool, u64, u64) {
    let removed = Removed {
        count: AtomicU64::new(0),
        sum: AtomicU64::new(0),
    };
    let current = current(alloc, entries).expect(rt, "heads");
    let shortening = Shortening::new(current, EndedUploads::new(alloc), &removed, 2, 0);
    let disks = (log, Memory::new(alloc));
    let (_, is_read, _) = begun(rt, alloc, disks, shortening, Vec::new(alloc));
    (
        is_read,
        removed.count.load(Ordering::SeqCst),
        removed.sum.load(Ordering::SeqCst),
    )
}

/// A log of two entries, of which this byte is changed to 9.
fn changed_log(alloc: Global, place: usize) -> Result<Memory, LogFault> {
    let mut bytes = Vec::from_slice(alloc, file_of(alloc, &[&PAIR])?.bytes())?;
    if place < bytes.len() {
        bytes[place] = 9;
    }
    Ok(disk_of(alloc, &bytes)?)
}

#[test]
fn other_logs_stay_until_the_log_was_read(rt: HostRuntime) {
    let alloc = rt.alloc();
    let whole = file_of(alloc, &[&PAIR]).expect(&rt, "a log");
    expect_same(&rt, &start(&rt, alloc, whole, 2), &(true, 2, 4 + 2));
    let fewer = file_of(alloc, &[&PAIR]).expect(&rt, "a log");
    expect_same(&rt, &start(&rt, alloc, fewer, 3), &(false, 0, 0));
    // What the closures answered to the first entry is after a heading of 33 bytes, a gate, two numbers and an id.
    let damaged = changed_log(alloc, 33 + 1 + 8 + 8 + 16).expect(&rt, "a log");
    expect_same(&rt, &start(&rt, alloc, damaged, 2), &(false, 0, 0));
}
