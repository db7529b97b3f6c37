//! Stores on disks that fail, for good or for one call.
use super::at_once::{Ran, ran_on, run_on};
use super::disks::Files;
use super::running::{CommitResult, Outcome, Seen, hold_again, job_of, restored, standing};
use super::tally::{Again, Tally};
use super::together::{jobs_of, jobs_that_keep, shared_file, told_plainly};
use crate::faulty::FaultyFile;
use crate::logs::{Row, What};
use crate::same::expect_same;
use sqlite_disk::{Crash, Fuse, Memory};
use std::alloc::Global;
use std::marker::Send;
use std::process::Abort;
use std::sync::Wait;
use std::thread::Threads;
use up_machine::Refusal;

/// Changes each of which is accepted after those before it.
const ROWS: [Row; 6] = [
    (What::Make, 1, 4),
    (What::Put, 1, 3),
    (What::Make, 2, 2),
    (What::Put, 2, 2),
    (What::Make, 3, 5),
    (What::Remove, 1, 0),
];

/// The number of results before the first `NoMemory`, and of all results without `NoMemory`.
fn made(told: &[CommitResult]) -> (usize, usize) {
    let mut first: usize = 0;
    let mut all: usize = 0;
    let mut has_failed = false;
    for told in told {
        if *told == Err(Refusal::NoMemory) {
            has_failed = true;
            continue;
        }
        all = all.saturating_add(1);
        if !has_failed {
            first = first.saturating_add(1);
        }
    }
    (first, all)
}

/// The state of a plain board after the first `count` rows.
fn after<R: Wait + Abort>(rt: &R, alloc: Global, count: usize) -> Seen {
    standing(rt, alloc, &ROWS[..count.min(6)])
}

/// The state of a board that is restored from logs.
fn seen_again<D: Again + Drop, R: Wait + Abort>(rt: &R, alloc: Global, disks: (D, D)) -> Seen {
    restored(rt, alloc, disks).0
}

/// The results of these rows in a store on these disks, and its logs. `None` if the logs are not opened.
fn made_on<D: Again + Send + Drop, R: Threads + Wait + Abort + Sync>(
    rt: &R,
    alloc: Global,
    disks: (D, D),
    tally: &Tally,
    rows: &[Row],
) -> Option<(Vec<CommitResult>, Files<D>)> {
    let job = job_of(alloc, rows).expect(rt, "memory");
    let mut jobs = Vec::new(alloc);
    jobs.push(job).expect(rt, "memory");
    let Ran { outcomes, logs, .. } = run_on(rt, alloc, disks, tally, jobs)?;
    let mut outcomes = outcomes;
    let (told, _) = outcomes.pop().expect(rt, "one job");
    Some((told, logs))
}

/// Checks that a crash leaves this many rows, or one more.
fn hold_left<R: Wait + Abort>(
    rt: &R,
    alloc: Global,
    disks: (Fuse<Memory>, Fuse<Memory>),
    all: usize,
) {
    let (mut changes, voids) = disks;
    changes.crash();
    let seen = seen_again(rt, alloc, (changes, voids));
    let is_next = seen == after(rt, alloc, all.saturating_add(1));
    assert!(rt;
        is_next || seen == after(rt, alloc, all),
        "after {all} rows"
    );
}

/// The number of rows that succeed in a store whose disk fails from some call on. Checks that a crash leaves these, and
/// perhaps the next one. `None` if the logs are not opened.
fn left<R: Threads + Wait + Abort + Sync>(rt: &R, alloc: Global, calls: u64) -> Option<usize> {
    let tally = Tally::new(alloc).expect(rt, "memory");
    let disks = (
        Fuse::new(Memory::new(alloc), calls),
        Fuse::new(Memory::new(alloc), u64::MAX),
    );
    let (told, logs) = made_on(rt, alloc, disks, &tally, &ROWS)?;
    let (first, all) = made(&told);
    expect_same(rt, &(first, told.len()), &(all, 6));
    expect_same(rt, &tally.counts(), &[u64::from(all < 6), 0, 0]);
    hold_left(rt, alloc, logs.into_disks(), all);
    Some(all)
}

#[test]
fn a_crash_leaves_what_was_answered(rt: HostRuntime) {
    let alloc = rt.alloc();
    let mut counts = [0u64; 7];
    for calls in 0..40 {
        if let Some(count) = left(&rt, alloc, calls) {
            let place = &mut counts[count.min(6)];
            *place = place.saturating_add(1);
        }
    }
    // A change takes four calls. So in each change, four of the disks fail.
    for count in 1..6usize {
        expect_same(&rt, &counts[count], &4);
    }
    assert!(rt; counts[6] > 0);
}

/// Whether the results are the expected ones up to the first `NoMemory`, and all `NoMemory` from there on.
fn is_cut_off(told: &[CommitResult], want: &[CommitResult]) -> bool {
    let (first, all) = made(told);
    let first = first.min(told.len()).min(want.len());
    first == all && told.len() == want.len() && told[..first] == want[..first]
}

/// Checks that the results of three seats are those of a plain board, up to where no more was written.
fn hold_cut_off<R: Wait + Abort>(rt: &R, alloc: Global, outcomes: &[Outcome], calls: u64) {
    let plain = told_plainly(rt, alloc);
    for ((told, _), (want, _)) in outcomes.iter().zip(&plain) {
        assert!(rt; is_cut_off(told, want), "after {calls} calls");
    }
}

/// Checks that a crash of the disk of the changes leaves this state. The disk failed at this call.
fn hold_crash<D: Again + Crash + Drop, R: Wait + Abort>(
    rt: &R,
    alloc: Global,
    disks: (D, D),
    seen: &Seen,
    calls: u64,
) {
    let (mut changes, voids) = disks;
    changes.crash();
    let again = seen_again(rt, alloc, (changes, voids));
    assert!(rt; again == *seen, "at the call {calls}");
}

/// Checks that three seats of a board whose disk fails from some call on get true results: a crash leaves what
/// succeeded, in the same order.
fn hold_at_once<R: Threads + Wait + Abort + Sync>(rt: &R, alloc: Global, calls: u64) {
    let tally = Tally::new(alloc).expect(rt, "memory");
    let disks = (
        Fuse::new(shared_file(alloc).expect(rt, "a log"), calls),
        Fuse::new(Memory::new(alloc), u64::MAX),
    );
    let jobs = jobs_of(alloc).expect(rt, "memory");
    let ran = ran_on(rt, alloc, disks, &tally, jobs);
    expect_same(rt, &tally.counts(), &[1, 0, 0]);
    hold_cut_off(rt, alloc, &ran.outcomes, calls);
    let Ran { seen, logs, .. } = ran;
    hold_crash(rt, alloc, logs.into_disks(), &seen, calls);
}

#[test]
fn seats_at_once_are_told_what_a_crash_leaves(rt: HostRuntime) {
    for calls in [20, 21, 22, 23, 150, 151, 152, 153] {
        hold_at_once(&rt, rt.alloc(), calls);
    }
}

/// Creations, each of which is accepted whatever happens to the others.
const CREATIONS: [Row; 6] = [
    (What::Make, 1, 5),
    (What::Make, 2, 5),
    (What::Make, 3, 5),
    (What::Make, 4, 5),
    (What::Make, 5, 5),
    (What::Make, 6, 5),
];

/// Checks that a crash leaves exactly the creations that succeeded.
fn hold_taken<R: Wait + Abort>(rt: &R, alloc: Global, file: Memory, told: &[CommitResult]) {
    let mut file = file;
    file.crash();
    let mut rows = Vec::new(alloc);
    for (row, told) in CREATIONS.iter().zip(told) {
        if told.is_ok() {
            rows.push(*row).expect(rt, "memory");
        }
    }
    hold_again(rt, alloc, (file, Memory::new(alloc)), &rows);
}

/// The number of creations that succeed in a store with a disk of which one call fails: before that call, and in all.
/// `None` if the logs are not opened.
fn full_at<R: Threads + Wait + Abort + Sync>(
    rt: &R,
    alloc: Global,
    calls: u64,
) -> Option<(usize, usize)> {
    let tally = Tally::new(alloc).expect(rt, "memory");
    let disks = (
        FaultyFile::failing_at(Memory::new(alloc), calls),
        FaultyFile::failing_at(Memory::new(alloc), 0),
    );
    let (told, logs) = made_on(rt, alloc, disks, &tally, &CREATIONS)?;
    let (first, all) = made(&told);
    expect_same(
        rt,
        &tally.counts(),
        &[u64::from(all < 6), u64::from(first < all), 0],
    );
    expect_same(rt, &logs.count(), &(all as u64));
    let (file, _) = logs.into_disks();
    hold_taken(rt, alloc, file.into_inner(), &told);
    Some((first, all))
}

#[test]
fn a_store_goes_on_once_its_disk_works(rt: HostRuntime) {
    let alloc = rt.alloc();
    let mut places = Vec::new(alloc);
    for calls in 1..40 {
        match full_at(&rt, alloc, calls) {
            Some((first, all)) if first < all => places.push((first, all)).expect(&rt, "memory"),
            _ => {}
        }
    }
    // A change takes two writes and two syncs. Whichever fails, only that change is refused, and the log is opened
    // again if necessary. No change follows the last one.
    expect_same(&rt, &places.len(), &20);
    for (number, place) in places.iter().enumerate() {
        expect_same(&rt, place, &(number / 4, 5));
    }
}

/// The reports during a run with three seats of a board with a disk of which one call fails. Nothing is removed. Checks
/// that a crash leaves what succeeded, in the same order.
fn told_at_once<R: Threads + Wait + Abort + Sync>(rt: &R, alloc: Global, calls: u64) -> [u64; 3] {
    let tally = Tally::new(alloc).expect(rt, "memory");
    let disks = (
        FaultyFile::failing_at(shared_file(alloc).expect(rt, "a log"), calls),
        FaultyFile::failing_at(Memory::new(alloc), 0),
    );
    let jobs = jobs_that_keep(alloc).expect(rt, "memory");
    let ran = ran_on(rt, alloc, disks, &tally, jobs);
    let Ran { seen, logs, .. } = ran;
    let (file, _) = logs.into_disks();
    hold_crash(
        rt,
        alloc,
        (file.into_inner(), Memory::new(alloc)),
        &seen,
        calls,
    );
    tally.counts()
}

#[test]
fn seats_at_once_go_on_once_the_disk_works(rt: HostRuntime) {
    for first in [20, 60, 100] {
        let mut goes_on: u64 = 0;
        // A batch takes four calls.
        for calls in first..first + 4 {
            let [fails, works, stops] = told_at_once(&rt, rt.alloc(), calls);
            expect_same(&rt, &(fails, stops), &(1, 0));
            goes_on = goes_on.saturating_add(works);
        }
        expect_same(&rt, &goes_on, &4);
    }
}
