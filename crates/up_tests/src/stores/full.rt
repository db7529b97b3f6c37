//! Stores on a full disk, which has room for removals alone.
use super::at_once::{Ran, ran_on};
use super::course::{Course, kept};
use super::disks::Files;
use super::running::{CommitResult, Job, Outcome, Seen, change, hold_again, restored};
use super::tally::{Again, Tally};
use crate::faulty::FaultyFile;
use crate::logs::{Row, What, file_of};
use crate::same::expect_same;
use sqlite_disk::Memory;
use std::alloc::{AllocError, Global};
use std::marker::Sync;
use std::process::Abort;
use std::sync::Wait;
use std::sync::atomic::Ordering;
use std::thread::Threads;
use up_dispatch::{Board, Keeper, Naming};
use up_history::Chronicle;
use up_log::LogFault;
use up_machine::Refusal;
use up_store::Store;
use up_tie::Site;

/// The uploads that are created first.
const FIRST: [Row; 4] = [
    (What::Make, 1, 4),
    (What::Make, 2, 4),
    (What::Make, 3, 4),
    (What::Make, 4, 4),
];

/// Changes that are no removals.
const OTHERS: [Row; 2] = [(What::Make, 5, 4), (What::Put, 4, 3)];

/// What a store is asked to do, one after another.
#[derive(Clone, Copy)]
enum Step {
    /// Creates the first uploads.
    Begin,
    /// Makes the other changes.
    Others,
    /// Removes the upload with this id.
    Remove(u128),
    /// The disk is full, and this many writes of removals are kept.
    Fill(u64),
    /// The disk has room.
    Enlarge,
    /// Begins to serve, after four changes.
    Start,
    /// Looks whether there is room again.
    Look,
}

/// The rows of a step.
fn rows_of(alloc: Global, step: Step) -> Result<Vec<Row>, AllocError> {
    match step {
        Step::Begin => Vec::from_slice(alloc, &FIRST),
        Step::Others => Vec::from_slice(alloc, &OTHERS),
        Step::Remove(id) => Vec::from_slice(alloc, &[(What::Remove, id, 0)]),
        _ => Ok(Vec::new(alloc)),
    }
}

/// How many changes of a step were made, were refused without a decision, and how many writes the disk has room for
/// after it.
type Told = (usize, usize, u64);

fn told_of<K: Keeper, R: Abort>(
    rt: &R,
    alloc: Global,
    keeper: &mut K,
    tally: &Tally,
    step: Step,
) -> Told {
    let rows = rows_of(alloc, step).expect(rt, "memory");
    let (made, refused) = count(&change(rt, alloc, keeper, &rows));
    (made, refused, tally.room().load(Ordering::SeqCst))
}

/// How many of these changes were made, and how many were refused without a decision.
fn count(told: &[CommitResult]) -> (usize, usize) {
    let mut made: usize = 0;
    let mut refused: usize = 0;
    for told in told {
        match told {
            Ok(_) => made = made.saturating_add(1),
            Err(Refusal::NoMemory) => refused = refused.saturating_add(1),
            Err(_) => {}
        }
    }
    (made, refused)
}

/// What a step does to the disk and the store, beside its changes.
fn prepare<D: Again + Drop, J: Site, K: Chronicle, R: Wait>(
    rt: &R,
    tally: &Tally,
    store: &Store<D, &Tally, J, K>,
    step: Step,
) {
    match step {
        Step::Fill(spare) => tally.fill(0, spare),
        Step::Enlarge => tally.enlarge(),
        Step::Start => store.begin(rt, 4),
        Step::Look => {
            store.make_up_room(rt);
        }
        Step::Begin | Step::Others | Step::Remove(_) => {}
    }
}

/// These steps, of a store whose disks have the tally's room.
#[derive(Drop)]
struct Steps<'a> {
    tally: &'a Tally,
    steps: &'a [(Step, Told)],
}

impl Course<FaultyFile<'_>> for Steps<'_> {
    type Found = Vec<Told>;

    fn take<B: Naming, J: Site, K: Chronicle, P: Keeper, R: Wait + Abort>(
        &self,
        rt: &R,
        alloc: Global,
        _board: &Board<B>,
        store: &Store<FaultyFile<'_>, &Tally, J, K>,
        keeper: &mut P,
    ) -> Vec<Told> {
        let mut found = Vec::new(alloc);
        for (step, _) in self.steps {
            prepare(rt, self.tally, store, *step);
            let told = told_of(rt, alloc, keeper, self.tally, *step);
            found.push(told).expect(rt, "memory");
        }
        found
    }
}

/// The disks of these files, with room.
fn whole(files: Files<FaultyFile<'_>>) -> (Memory, Memory) {
    let (changes, voids) = files.into_disks();
    (changes.into_inner(), voids.into_inner())
}

/// What comes of these steps, and the disks of the logs.
fn stepped<R: Wait + Abort>(
    rt: &R,
    alloc: Global,
    tally: &Tally,
    steps: &[(Step, Told)],
) -> (Vec<Told>, (Memory, Memory)) {
    let room = tally.room();
    let disks = (
        FaultyFile::with_room(Memory::new(alloc), room),
        FaultyFile::with_room(Memory::new(alloc), room),
    );
    let (found, logs) = kept(rt, alloc, disks, tally, &Steps { tally, steps });
    (found, whole(logs))
}

/// Checks what comes of these steps, how often it is reported that changes are refused and are stored again, and that
/// these changes are there after a restart.
fn hold<R: Wait + Abort>(
    rt: &R,
    alloc: Global,
    steps: &[(Step, Told)],
    reports: u64,
    rows: &[Row],
) {
    let tally = Tally::new(alloc).expect(rt, "memory");
    let (found, disks) = stepped(rt, alloc, &tally, steps);
    for (place, (found, (_, want))) in found.iter().zip(steps).enumerate() {
        expect_same(rt, &(place, *found), &(place, *want));
    }
    expect_same(rt, &found.len(), &steps.len());
    expect_same(rt, &tally.counts(), &[reports, reports, 0]);
    hold_again(rt, alloc, disks, rows);
}

/// Room for all writes.
const ALL: u64 = u64::MAX;

#[test]
fn on_a_full_disk_removals_alone_get_the_room(rt: HostRuntime) {
    let [one, two, three, four] = FIRST;
    let [make, put] = OTHERS;
    // A change takes two writes.
    let steps = [
        (Step::Begin, (4, 0, ALL)),
        (Step::Fill(4), (0, 0, 0)),
        (Step::Others, (0, 2, 0)),
        (Step::Remove(1), (1, 0, 2)),
        (Step::Others, (0, 2, 2)),
        (Step::Look, (0, 0, 2)),
        (Step::Others, (0, 2, 2)),
        (Step::Remove(2), (1, 0, 0)),
        (Step::Remove(3), (0, 1, 0)),
        (Step::Enlarge, (0, 0, ALL)),
        (Step::Others, (0, 2, ALL)),
        (Step::Look, (0, 0, ALL)),
        (Step::Others, (2, 0, ALL)),
        (Step::Remove(3), (1, 0, ALL)),
    ];
    let rows = [
        one,
        two,
        three,
        four,
        (What::Remove, 1, 0),
        (What::Remove, 2, 0),
        make,
        put,
        (What::Remove, 3, 0),
    ];
    hold(&rt, rt.alloc(), &steps, 1, &rows);
}

#[test]
fn without_room_at_the_start_removals_alone_are_made(rt: HostRuntime) {
    let [one, two, three, four] = FIRST;
    let [make, put] = OTHERS;
    let steps = [
        (Step::Begin, (4, 0, ALL)),
        (Step::Start, (0, 0, ALL)),
        (Step::Fill(4), (0, 0, 0)),
        (Step::Start, (0, 0, 0)),
        (Step::Others, (0, 2, 0)),
        (Step::Remove(1), (1, 0, 2)),
        (Step::Others, (0, 2, 2)),
        (Step::Enlarge, (0, 0, ALL)),
        (Step::Look, (0, 0, ALL)),
        (Step::Others, (2, 0, ALL)),
    ];
    let rows = [one, two, three, four, (What::Remove, 1, 0), make, put];
    hold(&rt, rt.alloc(), &steps, 1, &rows);
}

/// How many uploads are removed from each of two seats, and are created from each of two others.
const EACH: u64 = 40;

/// The rows of this kind for the uploads from this one on.
fn rows_from(alloc: Global, what: What, first: u64) -> Result<Vec<Row>, AllocError> {
    let mut rows = Vec::new(alloc);
    for number in first..first.saturating_add(EACH) {
        rows.push((what, u128::from(number), 4))?;
    }
    Ok(rows)
}

/// Removes 80 uploads from two seats, and creates 80 others from two.
fn jobs_of(alloc: Global) -> Result<Vec<Job>, AllocError> {
    let mut jobs = Vec::new(alloc);
    for (what, first) in [
        (What::Remove, 0),
        (What::Make, 2 * EACH),
        (What::Remove, EACH),
        (What::Make, 3 * EACH),
    ] {
        jobs.push(Job {
            rows: rows_from(alloc, what, first)?,
            byte: 0,
            times: 0,
        })?;
    }
    Ok(jobs)
}

/// The files of a store with the uploads that these jobs remove, on disks that have the tally's room.
fn scarce_files(
    alloc: Global,
    tally: &Tally,
) -> Result<(FaultyFile<'_>, FaultyFile<'_>), LogFault> {
    let first = rows_from(alloc, What::Make, 0)?;
    let second = rows_from(alloc, What::Make, EACH)?;
    let changes = file_of(alloc, &[first.as_slice(), second.as_slice()])?;
    let voids = file_of(alloc, &[])?;
    let room = tally.room();
    Ok((
        FaultyFile::with_room(changes, room),
        FaultyFile::with_room(voids, room),
    ))
}

/// Checks that all removals were made, few creations, and that each of these was made or refused without a decision.
fn hold_outcomes<R: Abort>(rt: &R, outcomes: &[Outcome], room: u64) {
    let [(one, _), (two, _), (three, _), (four, _)] = outcomes else {
        rt.panic("four jobs")
    };
    for told in one.iter().chain(three.iter()) {
        assert!(rt; told.is_ok(), "with room for {room} writes");
    }
    let (made, refused) = count(two);
    let (more, others) = count(four);
    let (made, refused) = (made.saturating_add(more), refused.saturating_add(others));
    expect_same(rt, &(room, made.saturating_add(refused)), &(room, 80));
    assert!(rt; made < 10, "with room for {room} writes");
}

/// What comes of the jobs while a disk fills.
fn ran_while_filling<'a, R: Threads + Wait + Abort + Sync>(
    rt: &R,
    alloc: Global,
    tally: &'a Tally,
) -> Ran<FaultyFile<'a>> {
    let disks = scarce_files(alloc, tally).expect(rt, "logs");
    let jobs = jobs_of(alloc).expect(rt, "memory");
    ran_on(rt, alloc, disks, tally, jobs)
}

/// Checks that a restart from these logs brings what was seen.
fn hold_seen<R: Wait + Abort>(
    rt: &R,
    alloc: Global,
    logs: Files<FaultyFile<'_>>,
    seen: &Seen,
    room: u64,
) {
    let (again, _) = restored(rt, alloc, whole(logs));
    assert!(rt; again == *seen, "with room for {room} writes");
}

/// Checks that all removals are made while a disk with this much room fills, and that a restart brings what was made.
fn hold_at_once<R: Threads + Wait + Abort + Sync>(rt: &R, alloc: Global, room: u64) {
    let tally = Tally::new(alloc).expect(rt, "memory");
    tally.fill(room, 1000);
    let ran = ran_while_filling(rt, alloc, &tally);
    hold_outcomes(rt, &ran.outcomes, room);
    expect_same(rt, &tally.counts(), &[1, 0, 0]);
    let Ran { seen, logs, .. } = ran;
    hold_seen(rt, alloc, logs, &seen, room);
}

#[test]
fn removals_at_once_are_made_on_a_full_disk(rt: HostRuntime) {
    for room in 4..12 {
        hold_at_once(&rt, rt.alloc(), room);
    }
}
