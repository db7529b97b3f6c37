//! Entries that name bytes of data files.
use crate::logs::{read, reader_of};
use crate::same::expect_same;
use sqlite_disk::Memory;
use std::alloc::{AllocError, Global};
use std::process::Abort;
use up_events::Id;
use up_headers::{Patch, Request};
use up_log::{Consent, Entry, LogFault, Spelled, place_of};
use up_message::{Found, Piece};
use up_places::{Contents, NoFiles, NotThere, Place, Position};

/// Data files that are full of sevens, and give no place.
struct Full;

impl Contents for Full {
    ghost use Rattle.std.specs.Prelude.{replicate};
    ghost use Rattle.std.proofs.lemmas.List.{length-replicate};

    ghost content = { λ files file at count. replicate count 7 };

    ghost as_many = { λ files file at count. length-replicate count 7 };

    fn place(&self, _start: Position, _len: usize) -> Result<Place, NotThere> {
        Err(NotThere)
    }
}

/// Data files that are full of sevens.
struct Sevens;

impl Contents for Sevens {
    ghost use Rattle.std.specs.Prelude.{replicate};
    ghost use Rattle.std.proofs.lemmas.List.{length-replicate};

    ghost content = { λ files file at count. replicate count 7 };

    ghost as_many = { λ files file at count. length-replicate count 7 };

    fn place(&self, start: Position, len: usize) -> Result<Place, NotThere> {
        Ok(Place::named(&Full, start, len))
    }
}

/// Where the bytes of the entry begin.
const START: Position = Position { file: 258, at: 56 };

/// The entry: it puts five bytes, which are in a data file, at the start of the upload 8.
fn entry(alloc: Global) -> Result<Entry, AllocError> {
    let request = Request::Patch(Patch {
        id: Id::new(8),
        media: true,
        offset: Some(0),
        length: None,
        bytes: Piece::at(alloc, Place::named(&Sevens, START, 5))?,
    });
    Ok(Entry {
        id: Id::new(9),
        consent: Consent::AllowedFinish,
        place: place_of(&request),
        request,
    })
}

/// A batch with this entry: a count; of the entry an id, what the closures said, and the kind of request; of the request
/// an id, whether it has its media type, an offset, and no length; of its bytes a file, a byte of this, and their number.
static BATCH: [u8; 77] = [
    1, 0, 0, 0, 0, 0, 0, 0, //
    9, 0, 0, 0, 0, 0, 0, 0, 0, 0, 0, 0, 0, 0, 0, 0, 2, 6, //
    8, 0, 0, 0, 0, 0, 0, 0, 0, 0, 0, 0, 0, 0, 0, 0, 1, 1, 0, 0, 0, 0, 0, 0, 0, 0, 0, //
    2, 1, 0, 0, 0, 0, 0, 0, 56, 0, 0, 0, 0, 0, 0, 0, 5, 0, 0, 0, 0, 0, 0, 0, //
];

/// A log with the entry, after the bytes of its heading and the gate and the size of the batch.
const BEFORE: usize = 42;

/// The file of a log with the entry.
fn file(alloc: Global) -> Result<Memory, LogFault> {
    let mut batch = Vec::new(alloc);
    batch.push(Spelled::new(alloc, &entry(alloc)?)?)?;
    let (mut log, _) = read(alloc, Memory::new(alloc))?;
    log.append(&mut Vec::new(alloc), &batch)?;
    Ok(log.into_device())
}

/// The bytes of a batch in a file.
fn batch_in(file: &Memory) -> Option<&[u8]> {
    file.bytes().get(BEFORE..BEFORE + 77)
}

#[test]
fn an_entry_names_where_its_bytes_are(rt: HostRuntime) {
    let file = file(rt.alloc()).expect(&rt, "a log");
    expect_same(&rt, &batch_in(&file), &Some(BATCH.as_slice()));
}

/// What is read of the first entry of a file: its position, that of its bytes if they are in a data file, and their
/// number. `None` if there is no PATCH.
fn found<C: Contents>(
    alloc: Global,
    file: Memory,
    files: &C,
) -> Result<Option<(Option<Position>, Option<Position>, usize)>, LogFault> {
    let mut reader = reader_of(alloc, file)?;
    let Some(entries) = reader.next_batch(alloc, files)? else {
        return Ok(None);
    };
    let Some(entry) = entries.as_slice().first() else {
        return Ok(None);
    };
    let Request::Patch(patch) = &entry.request else {
        return Ok(None);
    };
    let at = match patch.bytes.found() {
        Found::InFile(place) => Some(place.start()),
        Found::InMemory(_) => None,
    };
    Ok(Some((entry.place, at, patch.bytes.len())))
}

#[test]
fn bytes_that_are_named_are_where_they_were(rt: HostRuntime) {
    let file = file(rt.alloc()).expect(&rt, "a log");
    let again = found(rt.alloc(), file, &Sevens).expect(&rt, "the log again");
    expect_same(&rt, &again, &Some((Some(START), Some(START), 5)));
}

#[test]
fn bytes_that_are_not_there_are_said(rt: HostRuntime) {
    let file = file(rt.alloc()).expect(&rt, "a log");
    match found(rt.alloc(), file, &NoFiles) {
        Ok(_) => rt.panic("bytes of no file"),
        Err(fault) => {
            let said = format!(in rt.alloc(); "{fault}").expect(&rt, "memory");
            let wanted =
                "the log names bytes of data file 258 from byte 56 on, which are not there";
            expect_same(&rt, &said.as_str(), &wanted);
        }
    }
}
