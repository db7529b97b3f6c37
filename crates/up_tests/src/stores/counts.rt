//! Stores whose log has fewer events than earlier runs counted.
ghost use Rattle.std.specs.Prelude.{◌≡◌};

use super::beginning::{Begun, begun};
use super::running::{NOTHING, Unread, unread_on};
use super::tally::Tally;
use super::tasks::{Task, run};
use crate::logs::{Row, What, disk_of, file_of, heads_of};
use crate::same::expect_same;
use sqlite_disk::{Disk, Memory};
use std::alloc::Global;
use std::marker::Send;
use std::process::Abort;
use std::sync::Wait;
use up_dispatch::{Board, Naming, Seat};
use up_handed::Counted;
use up_history::Chronicle;
use up_log::{LogFault, LogReader};
use up_store::{Current, EndedUploads, Folder, Histories, Least, Logs, Shortening, Unrestored};
use up_tie::Site;

/// Three entries in two batches. Of the two lanes the first has one event, and the second has three.
const FIRST: [Row; 2] = [(What::Make, 1, 4), (What::Put, 1, 4)];

const SECOND: [Row; 1] = [(What::Make, 2, 4)];

/// No shorter log is made.
#[derive(Drop)]
struct NoFolder;

impl Folder<Memory> for NoFolder {
    fn make(&self, _generation: u64) -> Result<(LogReader<Memory>, LogReader<Memory>), LogFault> {
        Err(LogFault::Busy)
    }

    fn remove(&self, _generation: u64) {}
}

/// What earlier runs counted of a lane, with the events that a shorter log leaves out.
fn counted(count: u64, left_out: u64) -> Counted {
    Counted { count, left_out }
}

/// The files of the changes and of the voids.
fn files(alloc: Global) -> Result<(Memory, Memory), LogFault> {
    Ok((file_of(alloc, &[&FIRST, &SECOND])?, Memory::new(alloc)))
}

/// How many entries are carried out again from a log.
fn count_in<D: Disk + Drop, J: Site>(
    logs: Result<Logs<D, J>, Unrestored>,
) -> Result<u64, Unrestored> {
    Ok(logs?.count)
}

/// A store on these files, which are to have so much.
#[derive(Drop)]
struct Restoring<'a> {
    files: (Memory, Memory),
    least: &'a Least<'a>,
}

impl<R: Wait + Abort> Task<R> for Restoring<'_> {
    type Found = Result<u64, Unrestored>;

    fn run<B: Naming, J: Site + Send, K: Chronicle + Send>(
        self,
        rt: &R,
        alloc: Global,
        board: &Board<B>,
        seat: Seat<B>,
        histories: Histories,
    ) -> Result<u64, Unrestored> {
        let Restoring { files, least } = self;
        let mut seat = seat;
        let tally = Tally::new(alloc).expect(rt, "memory");
        let (store, readers): Unread<'_, Memory, J, K> = unread_on(
            alloc, files, &tally, histories,
        ).expect(rt, "logs");
        count_in(store.restore(rt, alloc, board, &mut seat, readers, least))
    }
}

/// How many entries are carried out again from these files, or why they are not.
fn restored<R: Wait + Abort>(
    rt: &R,
    alloc: Global,
    files: (Memory, Memory),
    least: &Least<'_>,
) -> Result<u64, Unrestored> {
    run(rt, alloc, Restoring { files, least })
}

/// What was counted of each of two lanes: how many events, and how many of these a shorter log leaves out.
type Counts = [(u64, u64); 2];

/// Why these files are refused if a head counts so many entries; an empty text if they aren't.
fn refusal<R: Wait + Abort>(rt: &R, alloc: Global, entries: u64, counts: Counts) -> String {
    let events = [
        counted(counts[0].0, counts[0].1),
        counted(counts[1].0, counts[1].1),
    ];
    let least = Least {
        entries,
        events: &events,
    };
    let files = files(alloc).expect(rt, "logs");
    match restored(rt, alloc, files, &least) {
        Ok(_) => String::new(alloc),
        Err(why) => format!(in alloc; "{why}").expect(rt, "memory"),
    }
}

#[test]
fn a_log_has_what_was_counted(rt: HostRuntime) {
    let alloc = rt.alloc();
    let no_entries = "the log has 3 entries, and heads counts 4";
    let no_events = "handed.0 counts 2 events, and the log has 1 of lane 0";
    let fewer_events = "handed.1 counts 30 events, and the log has 3 of lane 1";
    let fewer_left_out = "handed.1 counts 11 events, and the log has 10 of lane 1";
    // What a head counts, what was counted of each lane, and why the log is refused.
    for (entries, counts, want) in [
        (0, [(0, 0), (0, 0)], ""),
        (3, [(1, 0), (3, 0)], ""),
        (3, [(0, 0), (10, 7)], ""),
        (3, [(0, 0), (u64::MAX, u64::MAX)], ""),
        (4, [(0, 0), (0, 0)], no_entries),
        (0, [(2, 0), (3, 0)], no_events),
        (0, [(1, 0), (30, 0)], fewer_events),
        (0, [(1, 0), (11, 7)], fewer_left_out),
    ] {
        let found = refusal(&rt, alloc, entries, counts);
        expect_same(
            &rt,
            &(entries, counts, found.as_str()),
            &(entries, counts, want),
        );
    }
}

/// A log whose first batch is cut, though its gate is open.
fn cut_log(alloc: Global) -> Result<Memory, LogFault> {
    let (changes, _) = files(alloc)?;
    let mut bytes = Vec::from_slice(alloc, changes.bytes())?;
    bytes.truncate(60);
    Ok(disk_of(alloc, &bytes)?)
}

#[test]
fn the_reason_says_which_log_is_damaged(rt: HostRuntime) {
    let alloc = rt.alloc();
    let (_, voids) = files(alloc).expect(&rt, "logs");
    let cut = cut_log(alloc).expect(&rt, "a log");
    let found = restored(&rt, alloc, (cut, voids), &NOTHING);
    assert!(&rt; matches!(found, Err(Unrestored::Changes(_))));
    let (changes, _) = files(alloc).expect(&rt, "logs");
    let cut = cut_log(alloc).expect(&rt, "a log");
    let found = restored(&rt, alloc, (changes, cut), &NOTHING);
    assert!(&rt; matches!(found, Err(Unrestored::Voids(_))));
}

/// Begins over these files, of which so many events of the second lane were counted.
fn begun_after<R: Wait + Abort>(rt: &R, alloc: Global, count: u64) -> Begun {
    let counts = [counted(1, 0), counted(count, 0)];
    let counts = Vec::from_slice(alloc, &counts).expect(rt, "memory");
    let (heads, head) = heads_of(alloc, Memory::new(alloc)).expect(rt, "heads");
    let current = Current { heads, head };
    let shortening = Shortening::new(current, EndedUploads::new(alloc), NoFolder, 2, 0);
    let files = files(alloc).expect(rt, "logs");
    begun(rt, alloc, files, shortening, counts)
}

#[test]
fn events_are_handed_over_if_the_log_has_what_was_counted(rt: HostRuntime) {
    for (count, fits) in [(2, true), (3, true), (4, false)] {
        let found = begun_after(&rt, rt.alloc(), count);
        expect_same(&rt, &(count, found), &(count, (false, fits, fits)));
    }
}
