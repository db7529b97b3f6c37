//! Stores whose log is made shorter while changes are made, on disks of which a call fails.
ghost use Rattle.std.specs.Prelude.{◌≡◌};

use super::course::change_in;
use super::running::{Boxed, store_on};
use super::tally::Tally;
use super::tasks::{Task, run};
use crate::faulty::FaultyFile;
use crate::logs::{Row, What, heads_of, reader_of};
use crate::same::expect_same;
use sqlite_disk::Memory;
use std::alloc::Global;
use std::marker::Send;
use std::process::Abort;
use std::sync::Wait;
use std::sync::atomic::{AtomicU64, Ordering};
use up_compact::Head;
use up_dispatch::{Board, Naming, Seat};
use up_events::Id;
use up_handed::EndedUpload;
use up_history::Chronicle;
use up_log::{LogFault, LogReader};
use up_message::Sequence;
use up_store::{Current, EndedUploads, Folder, Histories, Shortening, Store, Unrestored};
use up_tie::Site;

/// A file of which two calls can fail.
type File = FaultyFile<'static>;

/// The generation of the log with which the store begins.
const FIRST: u64 = 3;

/// What is made before the log is made shorter, and removed.
const BEFORE: [Row; 3] = [
    (What::Make, 1, 700),
    (What::Put, 1, 700),
    (What::Remove, 1, 0),
];

/// What is made while the first shorter log is made. The log is then more than a quarter longer, so that another try is
/// due at once.
const MEANWHILE: [Row; 2] = [(What::Make, 2, 200), (What::Put, 2, 200)];

/// What is made after that.
const AFTER: [Row; 3] = [(What::Make, 5, 4), (What::Make, 6, 4), (What::Make, 7, 4)];

/// Which calls fail, counted from 1: of the log, of the shorter log, and two of the heads. 0 is none.
#[derive(Clone, Copy)]
struct Calls {
    log: u64,
    shorter: u64,
    heads: (u64, u64),
}

const NONE: Calls = Calls {
    log: 0,
    shorter: 0,
    heads: (0, 0),
};

fn disk(alloc: Global, calls: (u64, u64)) -> File {
    FaultyFile::failing_twice(Memory::new(alloc), calls)
}

/// Makes logs on disks in memory. While it makes the first ones, changes are made through the store.
#[derive(Drop)]
struct Meanwhile<'a, B: Naming, J: Site, K: Chronicle, R> {
    rt: &'a R,
    alloc: Global,
    board: &'a Board<B>,
    store: &'a Store<File, &'a Tally, J, K>,
    /// Which call of a shorter log fails.
    calls: u64,
    /// How often logs were made or removed.
    count: &'a AtomicU64,
    ghost same: { J.history ≡ B.history },
}

impl<B: Naming, J: Site, K: Chronicle, R: Wait + Abort> Meanwhile<'_, B, J, K, R> {
    /// Makes the changes.
    fn change(&self) {
        let mut seat = self.board.seat(self.rt).expect(self.rt, "a seat");
        change_in(
            self.rt, self.alloc, self.board, self.store, &mut seat, &MEANWHILE,
        );
    }
}

impl<B: Naming, J: Site, K: Chronicle, R: Wait + Abort> Folder<File> for Meanwhile<'_, B, J, K, R> {
    fn make(&self, _generation: u64) -> Result<(LogReader<File>, LogReader<File>), LogFault> {
        if self.count.fetch_add(1, Ordering::SeqCst) == 0 {
            self.change();
        }
        let changes = reader_of(self.alloc, disk(self.alloc, (self.calls, 0)))?;
        let voids = reader_of(self.alloc, disk(self.alloc, (0, 0)))?;
        Ok((changes, voids))
    }

    fn remove(&self, _generation: u64) {
        self.count.fetch_add(1, Ordering::SeqCst);
    }
}

/// The heads of a store whose log is of the first generation here.
fn current(alloc: Global, calls: (u64, u64)) -> Result<Current<File>, LogFault> {
    let (mut heads, _) = heads_of(alloc, disk(alloc, calls))?;
    let head = Head {
        generation: FIRST,
        entries: 0,
        left_out: Sequence::new(alloc),
    };
    heads.add(alloc, &head)?;
    Ok(Current { heads, head })
}

/// How often logs were made or removed by the end of each of two tries to make a log shorter.
type Counts = (u64, u64);

/// Makes changes in a store, tries to make its log shorter, makes more changes, and tries it again. This call of a
/// shorter log fails.
fn try_twice<'x, B: Naming, J: Site, K: Chronicle, R: Wait + Abort>(
    rt: &'x R,
    alloc: Global,
    board: &'x Board<B>,
    seat: &'x mut Seat<B>,
    store: &'x Store<File, &'x Tally, J, K>,
    current: Current<File>,
    calls: u64,
) -> Counts
    requires same { J.history ≡ B.history }
{
    change_in(rt, alloc, board, store, seat, &BEFORE);
    let count = AtomicU64::new(0);
    let folder = Meanwhile {
        rt,
        alloc,
        board,
        store,
        calls,
        count: &count,
    };
    let shortening = Box::new(
        alloc,
        Shortening::new(current, ended(rt, alloc), folder, 2, 0),
    )
    .expect(rt, "memory");
    shortening.shorten(rt, alloc, store);
    let first = count.load(Ordering::SeqCst);
    change_in(rt, alloc, board, store, seat, &AFTER);
    shortening.shorten(rt, alloc, store);
    (first, count.load(Ordering::SeqCst))
}

/// Two tries to make the log of a new store shorter, on these disks and with these heads. This call of a shorter log
/// fails.
#[derive(Drop)]
struct TwoTries<'a> {
    disks: (File, File),
    current: Current<File>,
    shorter: u64,
    tally: &'a Tally,
}

impl<R: Wait + Abort> Task<R> for TwoTries<'_> {
    type Found = Option<Counts>;

    fn run<B: Naming, J: Site + Send, K: Chronicle + Send>(
        self,
        rt: &R,
        alloc: Global,
        board: &Board<B>,
        seat: Seat<B>,
        histories: Histories,
    ) -> Option<Counts> {
        let TwoTries {
            disks,
            current,
            shorter,
            tally,
        } = self;
        let mut seat = seat;
        let opened: Result<Boxed<'_, File, J, K>, Unrestored> = store_on(
            rt, alloc, board, &mut seat, disks, tally, histories,
        );
        let Ok(store) = opened else {
            return None;
        };
        let counts = try_twice(rt, alloc, board, &mut seat, &store, current, shorter);
        Some(counts)
    }
}

/// The upload 1, which has ended.
fn ended<R: Wait>(rt: &R, alloc: Global) -> EndedUploads {
    let ended = EndedUploads::new(alloc);
    ended.note(
        rt,
        EndedUpload {
            id: Id::new(1),
            events: 2,
            bytes: 1000,
        },
    );
    ended
}

/// Tries twice to make the log of a new store shorter. `None` if the heads or the log can't be opened.
fn tried<R: Wait + Abort>(rt: &R, alloc: Global, calls: Calls, tally: &Tally) -> Option<Counts> {
    let Ok(current) = current(alloc, calls.heads) else {
        return None;
    };
    let two_tries = TwoTries {
        disks: (disk(alloc, (calls.log, 0)), disk(alloc, (0, 0))),
        current,
        shorter: calls.shorter,
        tally,
    };
    run(rt, alloc, two_tries)
}

/// The generations whose files are asked for when calls of one log fail, one call in each run.
fn asked<R: Wait + Abort>(rt: &R, alloc: Global, is_shorter: bool) -> Vec<(u64, u64)> {
    let mut asked = Vec::new(alloc);
    for call in 1..60 {
        let tally = Tally::at(alloc, FIRST).expect(rt, "memory");
        let calls = if is_shorter {
            Calls {
                shorter: call,
                ..NONE
            }
        } else {
            Calls { log: call, ..NONE }
        };
        tried(rt, alloc, calls, &tally);
        if let Some(generations) = tally.generations() {
            asked.push(generations).expect(rt, "memory");
        }
    }
    asked
}

#[test]
fn the_file_of_the_same_generation_is_opened_again(rt: HostRuntime) {
    for (is_shorter, want) in [(false, FIRST), (true, FIRST + 1)] {
        let asked = asked(&rt, rt.alloc(), is_shorter);
        assert!(rt; asked.len() > 0);
        for generations in asked.iter() {
            expect_same(&rt, generations, &(want, want));
        }
    }
}

/// How often no change is made any more, how often a log was made shorter, and could not be, and how often logs were
/// made or removed.
type Ending = (u64, [u64; 2], Counts);

/// What happens if these calls of the heads fail. `None` if the heads can't be opened.
fn ending<R: Wait + Abort>(rt: &R, alloc: Global, heads: (u64, u64)) -> Option<Ending> {
    let tally = Tally::at(alloc, FIRST).expect(rt, "memory");
    let counts = tried(rt, alloc, Calls { heads, ..NONE }, &tally)?;
    Some((tally.counts()[2], tally.switches(), counts))
}

#[test]
fn logs_stay_once_the_current_one_is_unknown(rt: HostRuntime) {
    let alloc = rt.alloc();
    let mut endings = Vec::new(alloc);
    for call in 1..20 {
        if let Some(ending) = ending(&rt, alloc, (call, 0)) {
            endings.push(ending).expect(&rt, "memory");
        }
    }
    // A head takes two writes and two syncs. If the first write fails, there is still the head before. A log was made
    // and removed, and another try replaces the old log.
    let kept = (0, [1, 1], (2, 4));
    // If the others fail, nobody knows. A log was made. It stays, and so does the old one.
    let unknown = (1, [0, 0], (1, 1));
    // If none fails, a log was made, and the old one was removed.
    let shorter = (0, [1, 0], (2, 2));
    let want = [kept, unknown, unknown, unknown, shorter, shorter];
    expect_same(&rt, &endings.as_slice(), &want.as_slice());
}

#[test]
fn changes_go_on_while_the_heads_have_no_room(rt: HostRuntime) {
    let alloc = rt.alloc();
    let mut endings = Vec::new(alloc);
    for call in 1..15 {
        if let Some(ending) = ending(&rt, alloc, (call, call + 1)) {
            endings.push(ending).expect(&rt, "memory");
        }
    }
    // The first write of a head fails, and so does the next write that is tried, whichever it is: that of the second
    // try. Each try has made a log and removed it.
    let full = (0, [0, 2], (2, 4));
    expect_same(&rt, &endings.as_slice(), &[full].as_slice());
}
