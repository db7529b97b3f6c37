//! Disks that fail, and crash.
use crate::logs::{PAIR, read, spelled_of};
use crate::same::expect_same;
use sqlite_disk::{Crash, Fuse, Memory};
use std::alloc::Global;
use up_log::{Log, LogFault, Spelled};

/// A log on a disk that fails from some call on; `None` if it fails before the log is open.
fn opened(alloc: Global, calls: u64) -> Option<Log<Fuse<Memory>>> {
    match read(alloc, Fuse::new(Memory::new(alloc), calls)) {
        Ok((log, _)) => Some(log),
        Err(_) => None,
    }
}

/// Whether a batch is appended. After it failed, the log must accept no more batches; otherwise `None`.
fn is_added(alloc: Global, log: &mut Log<Fuse<Memory>>, entries: &[Spelled]) -> Option<bool> {
    if log.append(&mut Vec::new(alloc), entries).is_ok() {
        return Some(true);
    }
    match log.append(&mut Vec::new(alloc), entries) {
        Err(LogFault::Broken) => Some(false),
        _ => None,
    }
}

/// The number of batches that a crash leaves.
fn left(alloc: Global, log: Log<Fuse<Memory>>) -> Result<u64, LogFault> {
    let mut disk = log.into_device();
    disk.crash();
    let (_, count) = read(alloc, disk)?;
    Ok(count)
}

#[test]
fn a_batch_is_whole_or_not_there(rt: HostRuntime) {
    let alloc = rt.alloc();
    let entries = spelled_of(alloc, &PAIR).expect(&rt, "memory");
    let mut is_any = false;
    for calls in 0..30 {
        let Some(mut log) = opened(alloc, calls) else {
            continue;
        };
        let added = is_added(alloc, &mut log, &entries);
        let count = left(alloc, log).expect(&rt, "the log again");
        expect_same(&rt, &(calls, Some(count > 0)), &(calls, added));
        is_any = is_any || count > 0;
    }
    assert!(rt; is_any);
}
