//! Stores whose log is made shorter.
use super::course::{Course, kept};
use super::disks::Files;
use super::running::{CommitResult, change, restored, seen};
use super::tally::Tally;
use crate::logs::{Row, What, heads_of, reader_of};
use crate::same::expect_same;
use sqlite_disk::{Crash, Fuse, Memory};
use std::alloc::Global;
use std::process::Abort;
use std::sync::Wait;
use up_compact::{Head, Heads};
use up_dispatch::{Board, Keeper, Naming};
use up_events::Id;
use up_handed::EndedUpload;
use up_history::Chronicle;
use up_log::{LogFault, LogReader};
use up_store::{Current, EndedUploads, Folder, Shortening, Store};
use up_tie::Site;

type File = Fuse<Memory>;

/// Three uploads, of which two are removed.
const FIRST: [Row; 9] = [
    (What::Make, 1, 4),
    (What::Put, 1, 4),
    (What::Make, 2, 5),
    (What::Make, 4, 200),
    (What::Put, 4, 200),
    (What::Put, 4, 200),
    (What::Remove, 1, 0),
    (What::Put, 2, 2),
    (What::Remove, 4, 0),
];

/// The changes after these.
const SECOND: [Row; 3] = [(What::Make, 3, 5), (What::Put, 3, 5), (What::Remove, 2, 0)];

/// The number of calls after which each disk fails: that of the heads, and those of a shorter log.
#[derive(Clone, Copy)]
struct Calls {
    heads: u64,
    shorter: u64,
}

/// Makes logs on disks in memory.
#[derive(Drop)]
struct Disks {
    alloc: Global,
    calls: u64,
}

fn disk(alloc: Global, calls: u64) -> File {
    Fuse::new(Memory::new(alloc), calls)
}

impl Folder<File> for Disks {
    fn make(&self, _generation: u64) -> Result<(LogReader<File>, LogReader<File>), LogFault> {
        let changes = reader_of(self.alloc, disk(self.alloc, self.calls))?;
        let voids = reader_of(self.alloc, disk(self.alloc, self.calls))?;
        Ok((changes, voids))
    }

    fn remove(&self, _generation: u64) {}
}

/// The state after a log was made shorter, or could not be.
#[derive(Drop)]
struct After {
    /// The results of the changes after that.
    told: Vec<CommitResult>,
    /// The responses of the board about each upload.
    seen: Vec<u8>,
    logs: Files<File>,
    current: Box<Current<File>, Global>,
}

/// The uploads 1 and 4, which have ended.
fn ended<R: Wait>(rt: &R, alloc: Global) -> EndedUploads {
    let ended = EndedUploads::new(alloc);
    for (id, events) in [(1u128, 4u64), (4, 4)] {
        ended.note(
            rt,
            EndedUpload {
                id: Id::new(id),
                events,
                bytes: 1000,
            },
        );
    }
    ended
}

fn current(alloc: Global, calls: u64) -> Result<Current<File>, LogFault> {
    let (heads, head) = heads_of(alloc, disk(alloc, calls))?;
    Ok(Current { heads, head })
}

/// What makes a log of the first generation shorter.
type Shortens = Box<Shortening<File, Disks>, Global>;

fn shortening_of<R: Wait>(rt: &R, alloc: Global, calls: Calls) -> Result<Shortens, LogFault> {
    let folder = Disks {
        alloc,
        calls: calls.shorter,
    };
    let current = current(alloc, calls.heads)?;
    let shortening = Shortening::new(current, ended(rt, alloc), folder, 2, 0);
    Ok(Box::new(alloc, shortening)?)
}

/// The results of the last changes, and the responses of the board about each upload after them.
fn second<B: Naming, K: Keeper, R: Wait + Abort>(
    rt: &R,
    alloc: Global,
    board: &Board<B>,
    keeper: &mut K,
) -> (Vec<CommitResult>, Vec<u8>) {
    let told = change(rt, alloc, keeper, &SECOND);
    (told, seen(rt, alloc, board, keeper).1)
}

/// Changes are made, the log is made shorter, and more changes follow.
#[derive(Drop)]
struct MadeShorter {
    calls: Calls,
}

impl Course<File> for MadeShorter {
    /// The results of the changes after that, the responses of the board about each upload, and what knows which log is
    /// the current one.
    type Found = (Vec<CommitResult>, Vec<u8>, Shortens);

    fn take<B: Naming, J: Site, K: Chronicle, P: Keeper, R: Wait + Abort>(
        &self,
        rt: &R,
        alloc: Global,
        board: &Board<B>,
        store: &Store<File, &Tally, J, K>,
        keeper: &mut P,
    ) -> Self::Found {
        let shortening = shortening_of(rt, alloc, self.calls).expect(rt, "heads");
        change(rt, alloc, keeper, &FIRST);
        shortening.shorten(rt, alloc, store);
        let (told, seen) = second(rt, alloc, board, keeper);
        (told, seen, shortening)
    }
}

/// The state after the log of a new store was made shorter, or could not be.
fn shorten<R: Wait + Abort>(rt: &R, alloc: Global, calls: Calls, tally: &Tally) -> After {
    let disks = (disk(alloc, u64::MAX), disk(alloc, u64::MAX));
    let (found, logs) = kept(rt, alloc, disks, tally, &MadeShorter { calls });
    let (told, seen, shortening) = found;
    let current = Box::into_inner(shortening)
        .into_current()
        .expect(rt, "which log is the current one");
    After {
        told,
        seen,
        logs,
        current: Box::new(alloc, current).expect(rt, "memory"),
    }
}

/// The head that a crash leaves.
fn head_left(alloc: Global, heads: Heads<File>) -> Result<Head, LogFault> {
    let mut device = heads.into_device();
    device.crash();
    Ok(heads_of(alloc, device)?.1)
}

/// Checks that a crash leaves logs from which the responses about each upload come back, and returns their number of
/// entries.
fn hold_left<R: Wait + Abort>(rt: &R, alloc: Global, logs: Files<File>, before: &[u8]) -> u64 {
    let (mut changes, mut voids) = logs.into_disks();
    changes.crash();
    voids.crash();
    let (seen, logs) = restored(rt, alloc, (changes, voids));
    assert!(rt; seen.1.as_slice() == before);
    logs.count()
}

#[test]
fn a_shorter_log_takes_the_place(rt: HostRuntime) {
    let alloc = rt.alloc();
    let tally = Tally::new(alloc).expect(&rt, "memory");
    let calls = Calls {
        heads: u64::MAX,
        shorter: u64::MAX,
    };
    let after = shorten(&rt, alloc, calls, &tally);
    expect_same(&rt, &(tally.switches(), tally.counts()), &([1, 0], [0; 3]));
    for told in after.told.iter() {
        assert!(rt; told.is_ok());
    }
    // Two of the entries stayed, and three were appended after them.
    expect_same(&rt, &after.logs.count(), &5);
    let After {
        seen,
        logs,
        current,
        ..
    } = after;
    let head = head_left(alloc, Box::into_inner(current).heads).expect(&rt, "a head");
    expect_same(&rt, &(head.generation, head.entries), &(1, 2));
    let left_out = [4u64, 4];
    expect_same(&rt, &head.left_out.as_slice(), &left_out.as_slice());
    expect_same(&rt, &hold_left(&rt, alloc, logs, &seen), &5);
}

/// Checks that the current log is of this generation, and that a crash leaves its head if changes are still made.
/// Returns how many entries it has at least.
fn hold_head<R: Abort>(
    rt: &R,
    alloc: Global,
    current: Box<Current<File>, Global>,
    generation: u64,
    goes_on: bool,
) -> u64 {
    let Current { heads, head: held } = Box::into_inner(current);
    let head = head_left(alloc, heads).expect(rt, "a head");
    expect_same(rt, &held.generation, &generation);
    if goes_on {
        expect_same(rt, &head.generation, &generation);
    }
    held.entries
}

/// Checks that, whether the log was made shorter or not, changes are then made in the log that a crash leaves, or none
/// is made. Returns whether the log was made shorter, and whether changes are made. `None` if the heads cannot be read.
fn hold<R: Wait + Abort>(rt: &R, alloc: Global, calls: Calls) -> Option<(bool, bool)> {
    if current(alloc, calls.heads).is_err() {
        return None;
    }
    let tally = Tally::new(alloc).expect(rt, "memory");
    let after = shorten(rt, alloc, calls, &tally);
    let [shorter, _] = tally.switches();
    let goes_on = tally.counts()[2] == 0;
    expect_same(rt, &after.told.len(), &3);
    for told in after.told.iter() {
        expect_same(rt, &told.is_ok(), &goes_on);
    }
    let After {
        seen,
        logs,
        current,
        ..
    } = after;
    let entries = hold_head(rt, alloc, current, shorter, goes_on);
    assert!(rt; hold_left(rt, alloc, logs, &seen) >= entries);
    Some((shorter == 1, goes_on))
}

#[test]
fn a_switch_is_made_or_not(rt: HostRuntime) {
    let mut counts = [0u64; 3];
    for heads in 0..40 {
        let calls = Calls {
            heads,
            shorter: u64::MAX,
        };
        let place = match hold(&rt, rt.alloc(), calls) {
            None => continue,
            Some((_, false)) => 0,
            Some((false, true)) => 1,
            Some((true, _)) => 2,
        };
        counts[place] = counts[place].saturating_add(1);
    }
    // A disk that fails for good accepts no second head, so that it is not known which head is the current one.
    assert!(rt; counts[0] > 0 && counts[2] > 0, "{counts:?}");
}

#[test]
fn a_store_goes_on_without_a_shorter_log(rt: HostRuntime) {
    for shorter in 0..7 {
        let calls = Calls {
            heads: u64::MAX,
            shorter,
        };
        let found = hold(&rt, rt.alloc(), calls);
        expect_same(&rt, &found, &Some((false, true)));
    }
}
