//! Entries that are on the disk and were not carried out.
use super::disks::Files;
use super::running::{restored, standing};
use crate::logs::{Row, SETUP, What, file_of, read};
use crate::same::expect_same;
use sqlite_disk::Memory;
use sqlite_std_file::{FileFrom, Unknown};
use std::alloc::{AllocError, Global};
use std::collections::BTreeSet;
use std::fs;
use std::process::Abort;
use std::sync::Wait;
use std::test::Fail;
use up_events::Id;
use up_log::{Entry, LogFault, Spelled, open_file};
use up_store::Voids;

/// The batch that says that a place is void.
fn void_of(alloc: Global, place: u128) -> Result<Vec<Spelled>, AllocError> {
    let entry = Entry::nothing(Id::new(place));
    let mut batch = Vec::new(alloc);
    batch.push(Spelled::new(alloc, &entry)?)?;
    Ok(batch)
}

/// The file of a log that says that each of these places is void.
fn void_file(alloc: Global, places: &[u128]) -> Result<Memory, LogFault> {
    let (mut log, _) = read(alloc, Memory::new(alloc))?;
    for place in places {
        log.append(&mut Vec::new(alloc), &void_of(alloc, *place)?)?;
    }
    Ok(log.into_device())
}

/// Two batches of two entries each.
const FIRST: [Row; 2] = [(What::Make, 5, 4), (What::Put, 5, 3)];

const SECOND: [Row; 2] = [(What::Put, 5, 2), (What::Make, 6, 1)];

/// Checks that a board which is restored from these disks has only these changes, and returns its logs.
fn hold_rows<R: Wait + Abort>(
    rt: &R,
    alloc: Global,
    disks: (Memory, Memory),
    rows: &[Row],
) -> Files<Memory> {
    let (seen, logs) = restored(rt, alloc, disks);
    assert!(rt;
        seen == standing(rt, alloc, rows),
        "{count} changes",
        count = rows.len()
    );
    logs
}

/// Checks that the board has only these changes if these places are void, and that one more place can then become void.
fn hold<R: Wait + Abort>(
    rt: &R,
    alloc: Global,
    places: &[u128],
    rows: &[Row],
    more: (u64, &[Row]),
) {
    let disks = (
        file_of(alloc, &[&FIRST, &SECOND]).expect(rt, "a log"),
        void_file(alloc, places).expect(rt, "voids"),
    );
    let mut logs = hold_rows(rt, alloc, disks, rows);
    expect_same(rt, &logs.count(), &4);
    logs.add_void(more.0).expect(rt, "a void");
    hold_rows(rt, alloc, logs.into_disks(), more.1);
}

#[test]
fn void_entries_are_passed_over(rt: HostRuntime) {
    let alloc = rt.alloc();
    let [make, three] = FIRST;
    let [two, other] = SECOND;
    // Two bytes at the start are refused for an upload that already has three.
    hold(
        &rt,
        alloc,
        &[],
        &[make, three, other],
        (1, &[make, two, other]),
    );
    hold(&rt, alloc, &[1], &[make, two, other], (3, &[make, two]));
    hold(&rt, alloc, &[3], &[make, three], (0, &[]));
    hold(&rt, alloc, &[2, 1], &[make, other], (1, &[make, other]));
    hold(&rt, alloc, &[4, 0], &[other], (3, &[]));
}

/// The voids in a file, and their places.
fn voids_in(
    rt: &HostRuntime,
    path: &str,
) -> Result<(Voids<FileFrom<Unknown>>, BTreeSet<u64>), LogFault> {
    Voids::read(rt.alloc(), open_file(rt, path, Unknown, SETUP)?)
}

// A void is added when memory has run out. So whichever request for memory is refused (`rt try --fail-alloc N`), the
// assertion in the loop holds.
#[test]
fn voids_of_a_file_come_back(rt: HostRuntime) -> Result<(), Fail> {
    let path = "up_store_tests_voids/void";
    let _ = fs::remove_dir_all(&rt, "up_store_tests_voids");
    fs::create_dir(&rt, "up_store_tests_voids")?;
    let (mut voids, places) = voids_in(&rt, path)?;
    assert!(rt; places.is_empty());
    for place in [7u64, 0, u64::MAX, 7] {
        assert!(rt; voids.add(place).is_ok());
    }
    drop(voids);
    let (_, places) = voids_in(&rt, path)?;
    expect_same(&rt, &places.len(), &3);
    for place in [0u64, 7, u64::MAX] {
        assert!(rt; places.contains(&place));
    }
    fs::remove_dir_all(&rt, "up_store_tests_voids")?;
    Ok(())
}
