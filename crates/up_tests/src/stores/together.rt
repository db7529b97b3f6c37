//! Changes from several seats at once.
use super::at_once::{Ran, ran_on};
use super::disks::count_in;
use super::running::{Job, Outcome, Seen, plainly, restored};
use super::tally::Tally;
use crate::logs::{Row, What, file_of};
use crate::same::expect_same;
use sqlite_disk::Memory;
use std::alloc::{AllocError, Global};
use std::process::Abort;
use std::sync::Wait;
use up_log::LogFault;

/// The number of uploads that are created from each seat.
const UPLOADS: u64 = 30;

/// The number of bytes that each seat appends to the upload 0.
const BYTES: u64 = 60;

/// Creates an upload, puts its bytes, puts them again, and removes every third upload twice.
fn rows_of(alloc: Global, first: u64) -> Result<Vec<Row>, AllocError> {
    let mut rows = Vec::new(alloc);
    for number in 0..UPLOADS {
        let id = u128::from(first.saturating_add(number));
        rows.push((What::Make, id, 2))?;
        rows.push((What::Put, id, 2))?;
        rows.push((What::Put, id, 2))?;
        if number % 3 == 0 {
            rows.push((What::Remove, id, 0))?;
            rows.push((What::Remove, id, 0))?;
        }
    }
    Ok(rows)
}

/// The work from the seat with this number.
fn job_of(alloc: Global, number: u8, times: u64) -> Result<Job, AllocError> {
    Ok(Job {
        rows: rows_of(alloc, u64::from(number).saturating_mul(100))?,
        byte: b"abcd"[usize::from(number % 4)],
        times,
    })
}

/// The jobs of three seats.
pub fn jobs_of(alloc: Global) -> Result<Vec<Job>, AllocError> {
    let mut jobs = Vec::new(alloc);
    for number in 1..4u8 {
        jobs.push(job_of(alloc, number, BYTES)?)?;
    }
    Ok(jobs)
}

/// The same jobs without their removals.
pub fn jobs_that_keep(alloc: Global) -> Result<Vec<Job>, AllocError> {
    let mut jobs = jobs_of(alloc)?;
    for job in jobs.iter_mut() {
        job.rows.retain(|row| !matches!(row.0, What::Remove));
    }
    Ok(jobs)
}

/// The results of the rows of these jobs on a plain board.
pub fn told_plainly<R: Wait + Abort>(rt: &R, alloc: Global) -> Vec<Outcome> {
    let mut outcomes = Vec::new(alloc);
    for number in 1..4u8 {
        let job = job_of(alloc, number, 0).expect(rt, "memory");
        let outcome = plainly(rt, alloc, &job).0;
        outcomes.push(outcome).expect(rt, "memory");
    }
    outcomes
}

/// The file of a log in which the upload 0 was created, for the bytes of three seats.
pub fn shared_file(alloc: Global) -> Result<Memory, LogFault> {
    file_of(alloc, &[&[(What::Make, 0, 3 * BYTES)]])
}

/// Checks that the rows have the same results as on a plain board, and returns the number of attempted changes.
fn count_of<R: Wait + Abort>(rt: &R, alloc: Global, outcomes: &[Outcome]) -> u64 {
    let mut count: u64 = 0;
    let plain = told_plainly(rt, alloc);
    expect_same(rt, &outcomes.len(), &plain.len());
    for ((told, tries), (want, _)) in outcomes.iter().zip(&plain) {
        expect_same(rt, &told.as_slice(), &want.as_slice());
        count = count
            .saturating_add(told.len() as u64)
            .saturating_add(*tries);
    }
    count
}

/// Checks that the log on these disks has so many entries, and brings back what was seen.
fn hold_seen<R: Wait + Abort>(
    rt: &R,
    alloc: Global,
    disks: (Memory, Memory),
    seen: &Seen,
    count: u64,
) {
    let (entries, file) = count_in(alloc, disks.0).expect(rt, "a log");
    expect_same(rt, &entries, &count);
    let (again, logs) = restored(rt, alloc, (file, disks.1));
    expect_same(rt, &(again.0, logs.count()), &(seen.0, count));
    expect_same(rt, &again.1.as_slice(), &seen.1.as_slice());
}

#[test]
fn changes_made_at_once_come_back(rt: HostRuntime) {
    let alloc = rt.alloc();
    let tally = Tally::new(alloc).expect(&rt, "memory");
    let disks = (shared_file(alloc).expect(&rt, "a log"), Memory::new(alloc));
    let jobs = jobs_of(alloc).expect(&rt, "memory");
    let ran = ran_on(&rt, alloc, disks, &tally, jobs);
    // The upload 0 was created before these. A third of the rows is refused, and half of the removals.
    let count = count_of(&rt, alloc, &ran.outcomes).saturating_add(1);
    let counts = ran.seen.0;
    let made = 1 + 3 * (30 + 30 + 10 + 60);
    expect_same(
        &rt,
        &(counts.changes, counts.uploads, counts.bytes),
        &(made, 61, 300),
    );
    expect_same(
        &rt,
        &(tally.counts(), ran.logs.count()),
        &([0, 0, 0], count),
    );
    let Ran { seen, logs, .. } = ran;
    hold_seen(&rt, alloc, logs.into_disks(), &seen, count);
}
