//! Shorter logs: what may be left out, and what is written meanwhile.
use crate::logs::{Row, What, file_of, read, reader_of, spelled_of};
use crate::same::expect_same;
use sqlite_disk::Memory;
use std::alloc::{AllocError, Global};
use std::collections::BTreeSet;
use std::process::Abort;
use up_compact::{LeftOut, Progress, Survey, catch_up};
use up_events::{Id, Kind};
use up_headers::{NewUpload, Request};
use up_log::{Consent, Entry, Log};
use up_machine::Book;
use up_message::Sequence;
use up_places::NoFiles;
use up_replay::restore;

fn ids_of(alloc: Global, numbers: &[u128]) -> Result<BTreeSet<Id>, AllocError> {
    let mut ids = BTreeSet::new(alloc);
    for number in numbers {
        ids.insert(Id::new(*number))?;
    }
    Ok(ids)
}

/// An entry that creates a final upload of these parts.
fn joining(alloc: Global, id: u128, parts: &[u128]) -> Result<Entry, AllocError> {
    let mut list = Sequence::new(alloc);
    for part in parts {
        list.push(Id::new(*part))?;
    }
    Ok(Entry {
        id: Id::new(id),
        consent: Consent::AllowedFinish,
        place: None,
        request: Request::Create(NewUpload {
            kind: Kind::Final,
            length: Some(0),
            parts: list,
            pairs: Sequence::new(alloc),
            metadata: None,
            concat: None,
        }),
    })
}

/// A final upload of 1 and 2, one of 3, and one that was refused since it joins another final upload.
fn joinings(alloc: Global) -> Result<Vec<Entry>, AllocError> {
    let rows: [(u128, &[u128]); 3] = [(7, &[1, 2]), (8, &[3]), (9, &[7])];
    let mut entries = Vec::new(alloc);
    for (id, parts) in rows {
        entries.push(joining(alloc, id, parts)?)?;
    }
    Ok(entries)
}

#[test]
fn parts_of_what_stays_stay(rt: HostRuntime) {
    let alloc = rt.alloc();
    let mut survey = Survey::new(alloc);
    let entries = joinings(alloc).expect(&rt, "memory");
    survey.see(alloc, &entries).expect(&rt, "memory");
    let made = [Id::new(7), Id::new(8), Id::new(9)];
    expect_same(&rt, &survey.uploads(), &made.as_slice());
    // The uploads that were removed, and those of them that can be left out.
    let rows: [(&[u128], &[u128]); 5] = [
        (&[1, 2, 3, 4], &[4]),
        (&[1, 3, 8], &[3, 8]),
        (&[1, 2, 7], &[]),
        (&[1, 2, 7, 9], &[1, 2, 7, 9]),
        (&[1, 2, 3, 8, 9], &[3, 8, 9]),
    ];
    for (ended, want) in rows {
        let ended = ids_of(alloc, ended).expect(&rt, "memory");
        let want = ids_of(alloc, want).expect(&rt, "memory");
        expect_same(&rt, &survey.left_out(ended), &want);
    }
}

/// Appends a batch of these entries.
fn append<R: Abort>(rt: &R, alloc: Global, log: &mut Log<Memory>, rows: &[Row]) {
    let entries = spelled_of(alloc, rows).expect(rt, "memory");
    log.append(&mut Vec::new(alloc), &entries)
        .expect(rt, "another batch");
}

/// The log with these batches.
fn log_of<R: Abort>(rt: &R, alloc: Global, first: &[Row], second: &[Row]) -> Log<Memory> {
    let file = file_of(alloc, &[first, second]).expect(rt, "a log");
    let (log, _) = read(alloc, file).expect(rt, "the log again");
    log
}

/// The book that a log defines.
fn book_of<R: Abort>(rt: &R, alloc: Global, log: Log<Memory>) -> Book {
    let mut book = Book::new(alloc, 2, 1000).expect(rt, "memory");
    let reader = reader_of(alloc, log.into_device()).expect(rt, "a log");
    restore(alloc, reader, &NoFiles, &mut book).expect(rt, "a book");
    book
}

/// The number of bytes of an upload.
fn offset(book: &Book, id: u128) -> Option<u64> {
    match book.upload(Id::new(id)) {
        Some(view) => Some(view.offset),
        None => None,
    }
}

/// Leaves out the upload 6, and the entry at place 2, which is void.
fn left_out(alloc: Global) -> Result<LeftOut, AllocError> {
    let mut voids = BTreeSet::new(alloc);
    voids.insert(2)?;
    Ok(LeftOut {
        voids,
        uploads: ids_of(alloc, &[6])?,
    })
}

/// Writes to a shorter log what the log has after this place. Checks how many entries were read by then, and how many
/// of them stayed.
fn hold_reached<R: Abort>(
    rt: &R,
    alloc: Global,
    log: &mut Log<Memory>,
    shorter: &mut Log<Memory>,
    since: Progress,
    want: (u64, u64),
) -> Progress {
    let left_out = left_out(alloc).expect(rt, "memory");
    let reached = catch_up(alloc, log, &NoFiles, shorter, &left_out, since).expect(
        rt,
        "a shorter log",
    );
    expect_same(rt, &(reached.count, reached.stayed), &want);
    expect_same(rt, &reached.place, &log.end_place());
    reached
}

/// Checks the number of changes that a log defines, and the number of bytes of the uploads from 5 to 7.
fn hold_book<R: Abort>(
    rt: &R,
    alloc: Global,
    log: Log<Memory>,
    changes: u64,
    offsets: [Option<u64>; 3],
) {
    let book = book_of(rt, alloc, log);
    expect_same(rt, &book.journal().accepted_count(), &changes);
    let found = [offset(&book, 5), offset(&book, 6), offset(&book, 7)];
    expect_same(rt, &found, &offsets);
}

#[test]
fn a_shorter_log_has_what_stays(rt: HostRuntime) {
    let alloc = rt.alloc();
    let first = [(What::Make, 5, 4), (What::Make, 6, 5), (What::Remove, 5, 0)];
    let second = [(What::Put, 6, 5), (What::Remove, 6, 0)];
    let mut log = log_of(&rt, alloc, &first, &second);
    let (mut shorter, _) = read(alloc, Memory::new(alloc)).expect(&rt, "a log");
    let start = Progress::start::<Memory>();
    let reached = hold_reached(&rt, alloc, &mut log, &mut shorter, start, (5, 1));
    // Entries that are appended to the log meanwhile are then appended to the shorter log.
    let more = [(What::Put, 5, 3), (What::Make, 7, 2)];
    append(&rt, alloc, &mut log, &more);
    hold_reached(&rt, alloc, &mut log, &mut shorter, reached, (7, 3));
    assert!(rt; shorter.end_place() < log.end_place());
    hold_book(&rt, alloc, shorter, 3, [Some(3), None, Some(0)]);
}

/// Checks that a batch of this number of entries is at a place, and returns the place after it.
fn hold_batch<R: Abort>(
    rt: &R,
    alloc: Global,
    log: &mut Log<Memory>,
    place: usize,
    want: usize,
) -> usize {
    let found = log.batch_at(alloc, place, &NoFiles).expect(rt, "a log");
    let (entries, next) = found.expect(rt, "a batch");
    expect_same(rt, &entries.len(), &want);
    next
}

#[test]
fn an_open_log_is_read_from_its_places(rt: HostRuntime) {
    let alloc = rt.alloc();
    let first = [(What::Make, 5, 4)];
    let second = [(What::Make, 6, 5), (What::Remove, 6, 0)];
    let mut log = log_of(&rt, alloc, &first, &second);
    let place = hold_batch(&rt, alloc, &mut log, Log::<Memory>::first_place(), 1);
    let place = hold_batch(&rt, alloc, &mut log, place, 2);
    assert!(rt;
        log.batch_at(alloc, place, &NoFiles)
            .expect(&rt, "a log")
            .is_none()
    );
    // Another batch can still be appended, and is then at this place.
    append(&rt, alloc, &mut log, &first);
    hold_batch(&rt, alloc, &mut log, place, 1);
}
