//! Bodies that a conversation puts into data files, and reads from them.
use super::folders::Untold;
use crate::conversations::talk_over;
use crate::same::expect_same;
use sqlite_disk::Disk;
use std::alloc::{AllocError, Global};
use std::process::Abort;
use std::{fs, io};
use up_bodies::{BodyFiles, BodyFolder, BodyShelf, BodySpool};
use up_dispatch::{Bodies, Counting, Ended, Lent};
use up_hooks::PreHooks;
use up_machine::Book;
use up_places::{Shelf, Spool};

/// Creates an upload of 200,000 bytes, and begins to append them.
static BEGIN: &str = "POST /files/ HTTP/1.1\r\nHost: a\r\nTus-Resumable: 1.0.0\r\n\
    Upload-Length: 200000\r\n\r\n\
    PATCH /files/00000000000000000000000000000001 HTTP/1.1\r\nHost: a\r\nTus-Resumable: 1.0.0\r\n\
    Content-Type: application/offset+octet-stream\r\nUpload-Offset: 0\r\n\
    Content-Length: 200000\r\n\r\n";

/// Appends the second half.
static GO_ON: &str = "PATCH /files/00000000000000000000000000000001 HTTP/1.1\r\nHost: a\r\n\
    Tus-Resumable: 1.0.0\r\nContent-Type: application/offset+octet-stream\r\n\
    Upload-Offset: 100000\r\nContent-Length: 100000\r\n\r\n";

static GET: &str = "GET /files/00000000000000000000000000000001 HTTP/1.1\r\nHost: a\r\n\
    Tus-Resumable: 1.0.0\r\n\r\n";

static CREATED: &str = "HTTP/1.1 201 Created\r\nTus-Resumable: 1.0.0\r\nCache-Control: no-store\r\n\
    Location: /files/00000000000000000000000000000001\r\nContent-Length: 0\r\n\r\n";

static APPENDED: &str =
    "HTTP/1.1 204 No Content\r\nTus-Resumable: 1.0.0\r\nCache-Control: no-store\r\n\
    Upload-Offset: 200000\r\n\r\n";

static FOUND: &str = "HTTP/1.1 200 OK\r\nTus-Resumable: 1.0.0\r\nCache-Control: no-store\r\n\
    Content-Type: application/octet-stream\r\nContent-Length: 200000\r\n\r\n";

/// The folder of the store, and its data file.
static STORE: &str = "up_tests_bodies";

static FILE: &str = "up_tests_bodies/bodies/0";

/// A byte of the second block of the second half: after the head of 56 bytes, the first half in two blocks with 8 bytes
/// more each, and a whole block.
const DAMAGED: usize = 56 + 100_016 + 65_544 + 5;

/// The bytes of the upload. No two blocks are alike.
fn content(alloc: Global) -> Result<Vec<u8>, AllocError> {
    let mut bytes = Vec::new(alloc);
    for index in 0..200_000u32 {
        bytes.push((index % 251) as u8)?;
    }
    Ok(bytes)
}

/// The parts, one after another.
fn joined(alloc: Global, parts: &[&[u8]]) -> Result<Vec<u8>, AllocError> {
    let mut all = Vec::new(alloc);
    for part in parts {
        all.extend_from_slice(part)?;
    }
    Ok(all)
}

/// Makes the folder of a store that has no bodies yet.
fn new_folder(rt: &HostRuntime) -> io::Result<BodyFolder<'_, Untold>> {
    let _ = fs::remove_dir_all(rt, STORE);
    fs::create_dir(rt, STORE)?;
    BodyFolder::open(rt, STORE, [7; 16], 1, Untold)
}

/// Bodies in these files.
fn bodies_in<D: Disk + Drop, B: BodyFiles<D>>(
    alloc: Global,
    files: &B,
) -> Bodies<BodyShelf<'_, D, B>, BodySpool<'_, D, B>> {
    Bodies {
        shelf: BodyShelf::new(alloc, files),
        spool: BodySpool::new(alloc, files, 4096, 1 << 26),
    }
}

/// Changes a byte of the data file.
fn damage(rt: &HostRuntime) -> io::Result<()> {
    let mut bytes = fs::read(rt, FILE)?;
    if let Some(byte) = bytes.get_mut(DAMAGED) {
        *byte ^= 1;
    }
    fs::write(rt, FILE, &bytes)
}

/// Holds a conversation over the book, and checks how it ends, and what it writes.
fn hold<S: Shelf, P: Spool, R: Abort>(
    rt: &R,
    alloc: Global,
    book: &mut Book,
    bodies: &mut Bodies<S, P>,
    asked: &[&[u8]],
    wanted: (Ended, &[&[u8]]),
) {
    let hooks = PreHooks::new(Vec::new(alloc));
    let asked = joined(alloc, asked).expect(rt, "memory");
    let written = joined(alloc, wanted.1).expect(rt, "memory");
    let mut keeper = Lent::new(book);
    let mut ids = Counting::new();
    let told = talk_over(alloc, &mut keeper, &hooks, &mut ids, &asked, bodies);
    expect_same(
        rt,
        &(told.0, told.1.as_slice()),
        &(wanted.0, written.as_slice()),
    );
}

/// Sends the first half, which breaks off there, and then the second, and gets both.
fn hold_halves<D: Disk + Drop, B: BodyFiles<D>, R: Abort>(
    rt: &R,
    alloc: Global,
    book: &mut Book,
    files: &B,
    content: &[u8],
) {
    let bodies = &mut bodies_in(alloc, files);
    let (first, second) = content.split_at(content.len() / 2);
    let asked = [BEGIN.as_bytes(), first];
    hold(
        rt,
        alloc,
        book,
        bodies,
        &asked,
        (Ended::Cut, &[CREATED.as_bytes()]),
    );
    let asked = [GO_ON.as_bytes(), second, GET.as_bytes()];
    let wanted = [APPENDED.as_bytes(), FOUND.as_bytes(), content];
    hold(rt, alloc, book, bodies, &asked, (Ended::Closed, &wanted));
}

/// Gets the upload, of which a block is damaged: what comes before that block.
fn hold_damaged<D: Disk + Drop, B: BodyFiles<D>, R: Abort>(
    rt: &R,
    alloc: Global,
    book: &mut Book,
    files: &B,
    content: &[u8],
) {
    let (front, _) = content.split_at(content.len().min(165_536));
    let wanted = [FOUND.as_bytes(), front];
    let bodies = &mut bodies_in(alloc, files);
    hold(
        rt,
        alloc,
        book,
        bodies,
        &[GET.as_bytes()],
        (Ended::WriteFailed, &wanted),
    );
}

#[test]
fn bodies_go_through_data_files(rt: HostRuntime) {
    let alloc = rt.alloc();
    let content = content(alloc).expect(&rt, "memory");
    let folder = new_folder(&rt).expect(&rt, "a folder");
    let mut book = Book::new(alloc, 2, 1 << 20).expect(&rt, "memory");
    hold_halves(&rt, alloc, &mut book, &folder, &content);
    damage(&rt).expect(&rt, "a byte");
    hold_damaged(&rt, alloc, &mut book, &folder, &content);
    fs::remove_dir_all(&rt, STORE).expect(&rt, "a removal");
}
