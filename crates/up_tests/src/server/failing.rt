//! Reads and writes that fail in mid-stream.
use crate::replaying::{done, replayed, run_with};
use crate::same::expect_same;
use std::alloc::{AllocError, Global};
use std::marker::Sync;
use std::process::Abort;
use std::sync::Wait;
use std::thread::Threads;
use up_hooks::PreHooks;
use up_server::ServerFault;
use up_wire::{Input, Slip, Source, Tape};

/// A creation of 75 bytes, and an append whose head ends after 249 bytes and whose body ends after 260.
static ASKED: &str =
    "POST /files/ HTTP/1.1\r\nHost: a\r\nTus-Resumable: 1.0.0\r\nUpload-Length: 11\r\n\r\n\
    PATCH /files/00000000000000000000000000000001 HTTP/1.1\r\nHost: a\r\nTus-Resumable: 1.0.0\r\n\
    Content-Type: application/offset+octet-stream\r\nUpload-Offset: 0\r\nContent-Length: 11\r\n\r\nhello world";

/// The same with a body in chunks, and a trailer field.
static IN_CHUNKS: &str =
    "POST /files/ HTTP/1.1\r\nHost: a\r\nTus-Resumable: 1.0.0\r\nUpload-Length: 11\r\n\r\n\
    PATCH /files/00000000000000000000000000000001 HTTP/1.1\r\nHost: a\r\nTus-Resumable: 1.0.0\r\n\
    Content-Type: application/offset+octet-stream\r\nUpload-Offset: 0\r\nTransfer-Encoding: chunked\r\n\r\n\
    4\r\nhell\r\n7\r\no world\r\n0\r\nX-T: 1\r\n\r\n";

/// The response to the creation.
static CREATED: &str = "HTTP/1.1 201 Created\r\nTus-Resumable: 1.0.0\r\nCache-Control: no-store\r\n\
    Location: /files/00000000000000000000000000000001\r\nContent-Length: 0\r\n\r\n";

/// The response to the append, and the report.
static REACHED: &str =
    "HTTP/1.1 204 No Content\r\nTus-Resumable: 1.0.0\r\nCache-Control: no-store\r\n\
    Upload-Offset: 11\r\n\r\n\
    \naccepted 2\nlane 0 drained 0\nlane 1 drained 3\n\
    00000000000000000000000000000001 1 post-create 0/11 done\n\
    00000000000000000000000000000001 2 post-receive 11/11 done\n\
    00000000000000000000000000000001 3 post-finish 11/11 done\n";

/// The report of a run that changed nothing.
const NOTHING: &str = "\naccepted 0\nlane 0 drained 0\nlane 1 drained 0\n";

/// The report if only the creation was served.
static MADE: &str = "\naccepted 1\nlane 0 drained 0\nlane 1 drained 1\n\
    00000000000000000000000000000001 1 post-create 0/11 done\n";

/// What is written if the reader fails after `count` bytes, fewer than 260.
fn written_after(alloc: Global, count: usize) -> Result<String, AllocError> {
    match count {
        0..=74 => String::from_str(alloc, NOTHING),
        75..=249 => format!(in alloc; "{CREATED}{MADE}"),
        _ => format!(in alloc;
            "{CREATED}\naccepted 2\nlane 0 drained 0\nlane 1 drained 2\n\
            00000000000000000000000000000001 1 post-create 0/11 done\n\
            00000000000000000000000000000001 2 post-receive {}/11 done\n",
            count - 249
        ),
    }
}

/// Serves this part of the conversation, after which a read fails, and checks the output.
fn hold_part(rt: &(impl Threads + Wait + Abort + Sync), alloc: Global, part: &[u8]) {
    let count = part.len();
    let mut source = Tape::new(part, 0, true);
    let (ended, written) = replayed(rt, alloc, done, &mut source);
    let end = if count < 249 {
        Err(ServerFault::Read)
    } else {
        Ok(())
    };
    let wanted = written_after(alloc, count).expect(rt, "memory");
    let text = str::from_utf8(&written).expect(rt, "text");
    expect_same(rt, &(count, ended, text), &(count, end, wanted.as_str()));
}

#[test]
fn keeps_what_came_before_any_read_that_fails(rt: HostRuntime) {
    for count in 0..ASKED.len() {
        hold_part(&rt, rt.alloc(), &ASKED.as_bytes()[..count]);
    }
}

/// Serves a conversation with a writer that fails after `room` bytes, and checks the output.
fn hold_room<R: Source>(
    rt: &(impl Threads + Wait + Abort + Sync),
    alloc: Global,
    source: &mut R,
    room: usize,
    wanted: &[u8],
) {
    let mut sink = Slip::new(alloc, room, 0).expect(rt, "memory");
    let hooks = PreHooks::new(Vec::new(alloc));
    let ended = run_with(rt, alloc, hooks, done, source, &mut sink);
    let (end, part) = match wanted.get(..room) {
        Some(part) if room < wanted.len() => (Err(ServerFault::Write), part),
        _ => (Ok(()), wanted),
    };
    expect_same(rt, &(room, ended, sink.bytes()), &(room, end, part));
}

/// Does so with messages that come in one piece, and with ones that come a byte at a time, with a body in chunks.
fn hold_both(rt: &(impl Threads + Wait + Abort + Sync), alloc: Global, room: usize, wanted: &[u8]) {
    let mut whole = Input::new(ASKED.as_bytes());
    hold_room(rt, alloc, &mut whole, room, wanted);
    let mut bytes = Tape::new(IN_CHUNKS.as_bytes(), 0, false);
    hold_room(rt, alloc, &mut bytes, room, wanted);
}

#[test]
fn stops_at_any_write_that_fails(rt: HostRuntime) {
    let wanted = format!(in rt.alloc(); "{CREATED}{REACHED}").expect(&rt, "memory");
    let wanted = wanted.as_bytes();
    for room in 0..wanted.len().saturating_add(1) {
        hold_both(&rt, rt.alloc(), room, wanted);
    }
}
