//! Many requests to a book. `bench/replay.py` times them to see how time and memory grow with their number.
ghost use Rattle.up_headers.specs.Table.{FitsWithin};

use crate::rows::row_fault::RowFault;
use std::alloc::Global;
use std::fmt::Write;
use up_events::{Id, Kind, MAX_UPLOAD_BYTES, NoMemory};
use up_headers::{NewUpload, Patch, Request};
use up_machine::{Asked, Book, Done, Refusal, Remains};
use up_message::{Piece, Sequence};

/// A book of two lanes, for uploads of 8 bytes.
fn new_book(alloc: Global) -> Result<Book, NoMemory> {
    Book::new(alloc, 2, 8)
}

fn commit(
    alloc: Global,
    book: &mut Book,
    request: Request,
    id: Id,
    asked: Asked,
) -> Result<Done, Refusal>
    requires { FitsWithin MAX_UPLOAD_BYTES request }
{
    book.commit(alloc, request, id, &asked, &mut Remains::new())
}

fn create(alloc: Global, book: &mut Book, id: Id) -> Result<Done, Refusal> {
    let new = NewUpload {
        kind: Kind::Plain,
        length: Some(8),
        parts: Sequence::new(alloc),
        pairs: Sequence::new(alloc),
        metadata: None,
        concat: None,
    };
    commit(alloc, book, Request::Create(new), id, Asked::Skipped)
}

fn append(alloc: Global, book: &mut Book, id: Id) -> Result<Done, Refusal> {
    let bytes = Piece::from_static(b"12345678");
    let patch = Patch {
        id,
        media: true,
        offset: Some(0),
        length: None,
        bytes,
    };
    commit(alloc, book, Request::Patch(patch), id, Asked::AllowedFinish)
}

fn remove(alloc: Global, book: &mut Book, id: Id) -> Result<Done, Refusal> {
    commit(alloc, book, Request::Delete(id), id, Asked::Allowed)
}

/// Creates `count` uploads.
fn create_all(alloc: Global, book: &mut Book, count: u64) -> Result<(), Refusal> {
    for n in 0..count {
        create(alloc, book, Id::new(u128::from(n)))?;
    }
    Ok(())
}

/// Appends eight bytes to each of `count` uploads.
fn append_to_all(alloc: Global, book: &mut Book, count: u64) -> Result<(), Refusal> {
    for n in 0..count {
        append(alloc, book, Id::new(u128::from(n)))?;
    }
    Ok(())
}

/// Creates `count` uploads, appends eight bytes to each, and asks for each.
fn fill(alloc: Global, book: &mut Book, count: u64) -> Result<(), Refusal> {
    create_all(alloc, book, count)?;
    append_to_all(alloc, book, count)?;
    for n in 0..count {
        book.plan(alloc, &Request::Head(Id::new(u128::from(n))))?;
    }
    Ok(())
}

/// Creates `count` uploads, and removes each before the next.
fn replace(alloc: Global, book: &mut Book, count: u64) -> Result<(), Refusal> {
    for n in 0..count {
        let id = Id::new(u128::from(n));
        create(alloc, book, id)?;
        remove(alloc, book, id)?;
    }
    Ok(())
}

/// Adds the number of changes that a book accepted.
fn push_count(words: &mut String, book: &Book) -> Result<(), RowFault> {
    let accepted = book.journal().accepted().len();
    Ok(write!(words, "{accepted}")?)
}

/// Adds the number of accepted changes if `count` uploads are created and filled.
pub fn push_filled(words: &mut String, alloc: Global, count: u64) -> Result<(), RowFault> {
    let mut book = new_book(alloc)?;
    fill(alloc, &mut book, count)?;
    push_count(words, &book)
}

/// Adds the number of accepted changes if `count` uploads are created, and each is removed before the next.
pub fn push_removed(words: &mut String, alloc: Global, count: u64) -> Result<(), RowFault> {
    let mut book = new_book(alloc)?;
    replace(alloc, &mut book, count)?;
    push_count(words, &book)
}
