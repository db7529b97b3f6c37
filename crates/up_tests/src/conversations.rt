//! Conversations with a lent book and from the seats of a board, and the ids of their uploads.
ghost use Rattle.std.specs.Prelude.{◌≡◌, ◌<◌, ◌≤◌, length};
ghost use Rattle.up_dispatch.specs.Free.{no_history};
ghost use Rattle.up_dispatch.specs.Parts.{IsNamed};

use crate::same::expect_same;
use std::alloc::Global;
use std::marker::Brand;
use std::process::Abort;
use std::sync::{Mutex, Wait};
use up_dispatch::{
    Board, BoardParts, Bodies, Counting, Ended, Exchange, Ids, Keeper, Lent, Naming, Seat, Seated,
    SharedIds, converse,
};
use up_events::Id;
use up_hooks::PreHooks;
use up_machine::Book;
use up_places::{Shelf, Spool};
use up_wire::{Input, Output, Sink, Source};

const MAX_SIZE: u64 = 1 << 20;

/// A creation, and an append whose body breaks off.
static CUT: &str =
    "POST /files/ HTTP/1.1\r\nHost: a\r\nTus-Resumable: 1.0.0\r\nUpload-Length: 10\r\n\r\n\
    PATCH /files/00000000000000000000000000000001 HTTP/1.1\r\nHost: a\r\nTus-Resumable: 1.0.0\r\n\
    Content-Type: application/offset+octet-stream\r\nUpload-Offset: 0\r\nContent-Length: 10\r\n\r\nabcd";

/// Asks for the state of the upload.
static HEAD: &str = "HEAD /files/00000000000000000000000000000001 HTTP/1.1\r\nHost: a\r\n\r\n";

/// The response to the creation.
static CREATED: &str = "HTTP/1.1 201 Created\r\nTus-Resumable: 1.0.0\r\nCache-Control: no-store\r\n\
    Location: /files/00000000000000000000000000000001\r\nContent-Length: 0\r\n\r\n";

/// The state of an upload with four of ten bytes.
static FOUR: &str = "HTTP/1.1 200 OK\r\nTus-Resumable: 1.0.0\r\nCache-Control: no-store\r\n\
    Upload-Offset: 4\r\nUpload-Length: 10\r\n\r\n";

/// Two creations, a removal of the upload with the id 5, and another creation.
static CREATIONS: &str =
    "POST /files/ HTTP/1.1\r\nHost: a\r\nTus-Resumable: 1.0.0\r\nUpload-Length: 1\r\n\r\n\
    POST /files/ HTTP/1.1\r\nHost: a\r\nTus-Resumable: 1.0.0\r\nUpload-Length: 1\r\n\r\n\
    DELETE /files/00000000000000000000000000000005 HTTP/1.1\r\nHost: a\r\nTus-Resumable: 1.0.0\r\n\r\n\
    POST /files/ HTTP/1.1\r\nHost: a\r\nTus-Resumable: 1.0.0\r\nUpload-Length: 1\r\n\r\n";

/// An exchange over these.
fn exchange_of<'x, I: Ids, R: Source, W: Sink>(
    ids: &'x mut I,
    source: &'x mut R,
    sink: &'x mut W,
) -> Exchange<'x, I, R, W> {
    Exchange {
        ids,
        source,
        sink,
        client: None,
    }
}

/// How a conversation ends, and what it writes, if its bodies are there.
pub fn talk_over<K: Keeper, I: Ids, S: Shelf, P: Spool>(
    alloc: Global,
    keeper: &mut K,
    hooks: &PreHooks,
    ids: &mut I,
    asked: &[u8],
    bodies: &mut Bodies<S, P>,
) -> (Ended, Vec<u8>) {
    let mut source = Input::new(asked);
    let mut sink = Output::new(Vec::new(alloc));
    let mut exchange = exchange_of(ids, &mut source, &mut sink);
    let ended = converse(alloc, keeper, hooks, MAX_SIZE, &mut exchange, bodies);
    (ended, sink.into_inner())
}

/// How a conversation ends, and what it writes, if its bodies are in memory.
pub fn talk<K: Keeper, I: Ids, R: Wait>(
    rt: &R,
    alloc: Global,
    keeper: &mut K,
    hooks: &PreHooks,
    ids: &mut I,
    asked: &[u8],
) -> (Ended, Vec<u8>) {
    let mut bodies = Bodies::in_memory(rt);
    talk_over(alloc, keeper, hooks, ids, asked, &mut bodies)
}

/// Checks how a conversation ends, and what it writes.
fn hold<K: Keeper, I: Ids, R: Wait + Abort>(
    rt: &R,
    alloc: Global,
    keeper: &mut K,
    ids: &mut I,
    asked: &str,
    wanted: (Ended, &str),
) {
    let hooks = PreHooks::new(Vec::new(alloc));
    let (ended, written) = talk(rt, alloc, keeper, &hooks, ids, asked.as_bytes());
    let written = str::from_utf8(&written).expect(rt, "text");
    expect_same(rt, &(ended, written), &wanted);
}

/// The same from a seat of a board, with these ids.
fn hold_from<B: Naming, R: Wait + Abort>(
    rt: &R,
    alloc: Global,
    board: &Board<B>,
    seat: &mut Seat<B>,
    ids: &Mutex<Counting>,
    asked: &str,
    wanted: (Ended, &str),
)
    requires free { B.history ≡ no_history }
{
    let mut keeper = Seated::new(rt, board, seat);
    hold(
        rt,
        alloc,
        &mut keeper,
        &mut SharedIds { rt, ids },
        asked,
        wanted,
    );
}

/// The upload is created from one seat and requested from the other, with one source of ids. The append gets no
/// response, and the bytes that arrived before it broke off are there.
fn talk_from_two_seats<B: Naming, R: Wait + Abort>(rt: &R, alloc: Global, board: &Board<B>)
    requires free { B.history ≡ no_history }
{
    let mut first = board.seat(rt).expect(rt, "a seat");
    let mut second = board.seat(rt).expect(rt, "another seat");
    let ids = Mutex::new(Counting::new());
    hold_from(
        rt,
        alloc,
        board,
        &mut first,
        &ids,
        CUT,
        (Ended::Cut, CREATED),
    );
    hold_from(
        rt,
        alloc,
        board,
        &mut second,
        &ids,
        HEAD,
        (Ended::Closed, FOUR),
    );
    expect_same(rt, &(first.count(), second.count()), &(2, 0));
}

/// Two seats of a new board with these parts.
fn two_seats<B: Naming, R: Wait + Abort>(rt: &R, alloc: Global, parts: BoardParts)
    requires named { IsNamed B.name B.parts B.queue B.lanes parts }
    requires lanes { length parts.queues ≡ 2 }
    requires sized { B.max_size ≡ 1048576 }
    requires free { B.history ≡ no_history }
{
    let (board, _takes) = Board::<B>::new(alloc, parts, MAX_SIZE).expect(rt, "memory");
    talk_from_two_seats(rt, alloc, &board);
}

#[test]
fn shows_one_seat_what_another_did(rt: HostRuntime) {
    let parts = BoardParts::new(rt.alloc(), 2, 1).expect(&rt, "memory");
    two_seats::<Brand, _>(&rt, rt.alloc(), parts);
}

/// A source that has only one id.
#[derive(Drop)]
struct Five;

impl Ids for Five {
    ghost use Rattle.std.specs.Prelude.{◌≡◌};

    ghost draws = { λ _ id _. id ≡ 5 };

    fn next_id(&mut self) -> Id {
        Id::new(5)
    }
}

#[test]
fn never_gives_an_id_again(rt: HostRuntime) {
    let mut book = Book::new(rt.alloc(), 2, MAX_SIZE).expect(&rt, "memory");
    let replies = "HTTP/1.1 201 Created\r\nTus-Resumable: 1.0.0\r\nCache-Control: no-store\r\n\
        Location: /files/00000000000000000000000000000005\r\nContent-Length: 0\r\n\r\n\
        HTTP/1.1 500 Internal Server Error\r\nTus-Resumable: 1.0.0\r\nCache-Control: no-store\r\n\
        Content-Type: text/plain\r\nContent-Length: 11\r\n\r\n32 IdTaken\n\
        HTTP/1.1 204 No Content\r\nTus-Resumable: 1.0.0\r\nCache-Control: no-store\r\n\r\n\
        HTTP/1.1 500 Internal Server Error\r\nTus-Resumable: 1.0.0\r\nCache-Control: no-store\r\n\
        Content-Type: text/plain\r\nContent-Length: 11\r\n\r\n32 IdTaken\n";
    let mut keeper = Lent::new(&mut book);
    hold(
        &rt,
        rt.alloc(),
        &mut keeper,
        &mut Five,
        CREATIONS,
        (Ended::Closed, replies),
    );
}

#[test]
fn counts_from_one(rt: HostRuntime) {
    let mut ids = Counting::new();
    let given = [ids.next_id(), ids.next_id(), ids.next_id()];
    expect_same(&rt, &given, &[Id::new(1), Id::new(2), Id::new(3)]);
}
