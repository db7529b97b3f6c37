//! Books that are restored: from a log on a disk, and from entries that no server writes.
use crate::logs::{Row, What, entries_of, file_of, reader_of};
use crate::same::expect_same;
use std::alloc::Global;
use up_events::{Id, MAX_UPLOAD_BYTES};
use up_machine::Book;
use up_message::Sequence;
use up_places::NoFiles;
use up_replay::{Unreplayed, replay, restore};

/// The offset and the length of an upload.
fn standing(book: &Book, id: u128) -> Option<(u64, Option<u64>)> {
    match book.upload(Id::new(id)) {
        Some(view) => Some((view.offset, view.length)),
        None => None,
    }
}

fn replay_rows(alloc: Global, book: &mut Book, rows: &[Row]) -> Result<(), Unreplayed> {
    let Ok(entries) = entries_of(alloc, rows) else {
        return Err(Unreplayed::Memory);
    };
    replay(alloc, book, Sequence::from_vec(entries))
}

#[test]
fn what_was_refused_changes_nothing(rt: HostRuntime) {
    let alloc = rt.alloc();
    let mut book = Book::new(alloc, 2, 1000).expect(&rt, "memory");
    let rows = [
        (What::Make, 5, 3),
        // A second creation with the same id, a removal of an upload that does not exist, bytes for it, and too many
        // bytes.
        (What::Make, 5, 4),
        (What::Remove, 6, 0),
        (What::Put, 6, 3),
        (What::Put, 5, 4),
        (What::Put, 5, 3),
    ];
    expect_same(&rt, &replay_rows(alloc, &mut book, &rows), &Ok(()));
    expect_same(&rt, &book.journal().accepted_count(), &2);
    expect_same(&rt, &standing(&book, 5), &Some((3, Some(3))));
    expect_same(&rt, &standing(&book, 6), &None);
    // A creation that no server receives.
    let rows = [(What::Make, 7, MAX_UPLOAD_BYTES + 1), (What::Make, 8, 3)];
    expect_same(
        &rt,
        &replay_rows(alloc, &mut book, &rows),
        &Err(Unreplayed::TooLong),
    );
    expect_same(&rt, &book.journal().accepted_count(), &2);
}

#[test]
fn a_book_comes_back(rt: HostRuntime) {
    let alloc = rt.alloc();
    let first = [(What::Make, 5, 4), (What::Make, 6, 5)];
    let second = [(What::Put, 5, 3), (What::Remove, 6, 0)];
    let mut book = Book::new(alloc, 2, 1000).expect(&rt, "memory");
    let file = file_of(alloc, &[&first, &second]).expect(&rt, "a log");
    let reader = reader_of(alloc, file).expect(&rt, "the log again");
    restore(alloc, reader, &NoFiles, &mut book).expect(&rt, "a book");
    expect_same(&rt, &book.journal().accepted_count(), &4);
    expect_same(&rt, &standing(&book, 5), &Some((3, Some(4))));
    expect_same(&rt, &standing(&book, 6), &None);
}
