//! Conversations whose streams break off or are interrupted at any place: the responses, how they end, and what is
//! kept.
use crate::same::expect_same;
use std::alloc::Global;
use std::io::{self, BufReader, Read};
use std::process::Abort;
use std::sync::Wait;
use up_dispatch::{Counting, Ended, Exchange, converse_by_book};
use up_events::Id;
use up_hooks::PreHooks;
use up_machine::Book;
use up_wire::{Input, Slip, Source, Tape};

const MAX_SIZE: u64 = 1 << 20;

/// A creation of 75 bytes, and an append whose head ends after 249 bytes and whose body ends after 260.
static INPUT: &str =
    "POST /files/ HTTP/1.1\r\nHost: a\r\nTus-Resumable: 1.0.0\r\nUpload-Length: 11\r\n\r\n\
    PATCH /files/00000000000000000000000000000001 HTTP/1.1\r\nHost: a\r\nTus-Resumable: 1.0.0\r\n\
    Content-Type: application/offset+octet-stream\r\nUpload-Offset: 0\r\nContent-Length: 11\r\n\r\nhello world";

/// The response to the creation, of 141 bytes.
static CREATED: &str = "HTTP/1.1 201 Created\r\nTus-Resumable: 1.0.0\r\nCache-Control: no-store\r\n\
    Location: /files/00000000000000000000000000000001\r\nContent-Length: 0\r\n\r\n";

/// The response to the append, of 93 bytes.
static REACHED: &str =
    "HTTP/1.1 204 No Content\r\nTus-Resumable: 1.0.0\r\nCache-Control: no-store\r\n\
    Upload-Offset: 11\r\n\r\n";

/// The response to bytes that are no head.
static BAD_HEAD: &str =
    "HTTP/1.1 400 Bad Request\r\nTus-Resumable: 1.0.0\r\nCache-Control: no-store\r\n\
    Content-Type: text/plain\r\nContent-Length: 10\r\nConnection: close\r\n\r\n1 BadHead\n";

/// A creation, and an append in chunks with a trailer field.
static IN_CHUNKS: &str =
    "POST /files/ HTTP/1.1\r\nHost: a\r\nTus-Resumable: 1.0.0\r\nUpload-Length: 11\r\n\r\n\
    PATCH /files/00000000000000000000000000000001 HTTP/1.1\r\nHost: a\r\nTus-Resumable: 1.0.0\r\n\
    Content-Type: application/offset+octet-stream\r\nUpload-Offset: 0\r\nTransfer-Encoding: chunked\r\n\r\n\
    4\r\nhell\r\n7\r\no world\r\n0\r\nX-T: 1\r\n\r\n";

/// An append to an upload that does not exist, by a client that waits to continue.
static WAITING: &str =
    "PATCH /files/00000000000000000000000000000001 HTTP/1.1\r\nHost: a\r\nTus-Resumable: 1.0.0\r\n\
    Content-Type: application/offset+octet-stream\r\nUpload-Offset: 0\r\nContent-Length: 3\r\n\
    Expect: 100-continue\r\n\r\nabc";

static CONTINUE: &str = "HTTP/1.1 100 Continue\r\n\r\n";

static NOT_FOUND: &str =
    "HTTP/1.1 404 Not Found\r\nTus-Resumable: 1.0.0\r\nCache-Control: no-store\r\n\
    Content-Type: text/plain\r\nContent-Length: 12\r\n\r\n21 NotFound\n";

/// Room for two replies.
const ROOM: usize = 1024;

/// How a conversation ended, the number of changes that the book accepted, and the offset of the first upload, if it
/// was created.
type Left = (Ended, usize, Option<u64>);

/// The expected result of a conversation: at most two replies, and what it leaves.
type Wanted<'a> = ([&'a str; 2], Left);

/// All of the input was served.
const SERVED: Left = (Ended::Closed, 2, Some(11));

/// Serves a conversation with a new book.
fn serve<S: Source>(
    rt: &(impl Wait + Abort),
    alloc: Global,
    source: &mut S,
    sink: &mut Slip,
) -> Left {
    let mut book = Book::new(alloc, 2, MAX_SIZE).expect(rt, "memory");
    let hooks = PreHooks::new(Vec::new(alloc));
    let mut ids = Counting::new();
    let mut exchange = Exchange {
        ids: &mut ids,
        source,
        sink,
        client: None,
    };
    let ended = converse_by_book(rt, alloc, &mut book, &hooks, MAX_SIZE, &mut exchange);
    let offset = match book.upload(Id::new(1)) {
        Some(view) => Some(view.offset),
        None => None,
    };
    (ended, book.journal().accepted().len(), offset)
}

/// Serves a conversation, and checks the replies and what it leaves. If they differ, `at` is reported.
fn hold<S: Source, R: Wait + Abort>(
    rt: &R,
    alloc: Global,
    source: &mut S,
    writes: u64,
    ([first, second], wanted): Wanted,
    at: u64,
) {
    let mut sink = Slip::new(alloc, ROOM, writes).expect(rt, "memory");
    let left = serve(rt, alloc, source, &mut sink);
    let text = format!(in alloc; "{first}{second}").expect(rt, "memory");
    let written = str::from_utf8(sink.bytes()).expect(rt, "text");
    expect_same(rt, &(at, left, written), &(at, wanted, text.as_str()));
}

/// The expected result if the input ends after this number of bytes, or a read fails there.
fn wanted_after(count: u64, fails: bool) -> Wanted<'static> {
    match (count, fails) {
        (0, false) => (["", ""], (Ended::Closed, 0, None)),
        (1..=74, false) => ([BAD_HEAD, ""], (Ended::Closed, 0, None)),
        (75, false) => ([CREATED, ""], (Ended::Closed, 1, Some(0))),
        (76..=248, false) => ([CREATED, BAD_HEAD], (Ended::Closed, 1, Some(0))),
        (0..=74, true) => (["", ""], (Ended::ReadFailed, 0, None)),
        (75..=248, true) => ([CREATED, ""], (Ended::ReadFailed, 1, Some(0))),
        (249, _) => ([CREATED, ""], (Ended::Cut, 1, Some(0))),
        (250..=259, _) => ([CREATED, ""], (Ended::Cut, 2, Some(count - 249))),
        (_, false) => ([CREATED, REACHED], SERVED),
        (_, true) => ([CREATED, REACHED], (Ended::ReadFailed, 2, Some(11))),
    }
}

#[test]
fn serves_what_came_before_any_break(rt: HostRuntime) {
    expect_same(&rt, &INPUT.len(), &260);
    for fails in [false, true] {
        for count in 0..261usize {
            let mut source = Tape::new(&INPUT.as_bytes()[..count], 0, fails);
            let wanted = wanted_after(count as u64, fails);
            hold(&rt, rt.alloc(), &mut source, 0, wanted, count as u64);
        }
    }
    let wanted = (["", ""], (Ended::Closed, 0, None));
    hold(
        &rt,
        rt.alloc(),
        &mut Tape::new(b"\r\n", 0, false),
        0,
        wanted,
        2,
    );
}

/// What is left if a write fails once this number of bytes is written.
fn left_after(count: usize) -> Left {
    match count {
        0..=140 => (Ended::WriteFailed, 1, Some(0)),
        141..=233 => (Ended::WriteFailed, 2, Some(11)),
        _ => SERVED,
    }
}

/// Checks what is written, and what is left, if there is only room for these replies.
fn hold_room(rt: &(impl Wait + Abort), alloc: Global, replies: &[u8]) {
    let room = replies.len();
    let mut sink = Slip::new(alloc, room, 0).expect(rt, "memory");
    let left = serve(
        rt,
        alloc,
        &mut Tape::new(INPUT.as_bytes(), 0, false),
        &mut sink,
    );
    expect_same(
        rt,
        &(room, left, sink.bytes()),
        &(room, left_after(room), replies),
    );
}

#[test]
fn stops_at_any_write_that_fails(rt: HostRuntime) {
    let replies = format!(in rt.alloc(); "{CREATED}{REACHED}").expect(&rt, "memory");
    expect_same(&rt, &(CREATED.len(), replies.len()), &(141, 234));
    for room in 0..235usize {
        hold_room(&rt, rt.alloc(), &replies.as_bytes()[..room]);
    }
}

/// How often each read and each write is interrupted, whether the replies are written, and what is left.
type Row = (u64, u64, bool, Left);

static INTERRUPTED: [Row; 5] = [
    (999, 0, true, SERVED),
    (1_000, 0, false, (Ended::ReadFailed, 0, None)),
    (0, 999, true, SERVED),
    (0, 1_000, false, (Ended::WriteFailed, 1, Some(0))),
    (999, 999, true, SERVED),
];

static INTERRUPTED_WHILE_WAITING: [Row; 2] = [
    (500, 499, true, (Ended::Closed, 0, None)),
    (500, 500, false, (Ended::WriteFailed, 0, None)),
];

/// Serves the input once for each row, and checks the replies, or that there is none, and what is left.
fn hold_rows(
    rt: &(impl Wait + Abort),
    alloc: Global,
    input: &str,
    replies: [&str; 2],
    rows: &[Row],
) {
    for (reads, writes, are_written, left) in rows {
        let replies = if *are_written { replies } else { ["", ""] };
        let mut source = Tape::new(input.as_bytes(), *reads, false);
        hold(rt, alloc, &mut source, *writes, (replies, *left), *reads);
    }
}

#[test]
fn counts_the_interruptions_of_each_call(rt: HostRuntime) {
    let (both, told) = ([CREATED, REACHED], [CONTINUE, NOT_FOUND]);
    hold_rows(&rt, rt.alloc(), INPUT, both, &INTERRUPTED);
    hold_rows(&rt, rt.alloc(), WAITING, told, &INTERRUPTED_WHILE_WAITING);
}

/// A reader that returns one byte per call.
#[derive(Drop)]
struct Dripping<'a> {
    bytes: &'a [u8],
}

impl<'a> Read for Dripping<'a> {
    fn read(&mut self, buf: &mut [u8]) -> io::Result<usize> {
        let ([first, rest @ ..], Some(place)) = (self.bytes, buf.first_mut()) else {
            return Ok(0);
        };
        *place = *first;
        self.bytes = rest;
        Ok(1)
    }
}

/// Serves the input from three sources, of which the last returns one byte per call.
fn hold_each(rt: &(impl Wait + Abort), alloc: Global, input: &str, wanted: Wanted) {
    let bytes = input.as_bytes();
    hold(rt, alloc, &mut Tape::new(bytes, 0, false), 0, wanted, 1);
    hold(rt, alloc, &mut Input::new(bytes), 0, wanted, 2);
    let reader = BufReader::new(alloc, Dripping { bytes }).expect(rt, "memory");
    let mut drops = Input::new(reader);
    hold(rt, alloc, &mut drops, 0, wanted, 3);
}

#[test]
fn takes_one_byte_at_a_time_as_all_at_once(rt: HostRuntime) {
    let wanted = ([CREATED, REACHED], SERVED);
    hold_each(&rt, rt.alloc(), INPUT, wanted);
    hold_each(&rt, rt.alloc(), IN_CHUNKS, wanted);
}
