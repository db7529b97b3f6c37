//! Conversations that are served by a book alone, and from a seat of a board whose lanes run meanwhile. One board keeps
//! its changes, and another counts them. The responses are the same, and the same changes are accepted. For the board
//! that counts its changes, the number is compared.
ghost use Rattle.std.specs.Prelude.{◌≡◌, All, IsTrue, [], length};
ghost use Rattle.up_dispatch.specs.Free.{no_history};
ghost use Rattle.up_dispatch.specs.Parts.{IsNamed};
ghost use Rattle.up_hooks.specs.Verdicts.{is_allowed_verdict};

use crate::beside::{finished_from, open_board, run_beside};
use crate::conversations::talk;
use crate::same::expect_same;
use std::alloc::Global;
use std::marker::{Brand, Send, Sync};
use std::process::Abort;
use std::sync::Wait;
use std::thread::Threads;
use up_dispatch::{Board, BoardParts, Counting, Ended, Lent, Naming, Report, Seat, Seated};
use up_events::{Accepted, Changes, Event};
use up_hooks::{Outcome, PostHook, PreHook, PreHooks, Recorder};
use up_lanes::{Lane, LaneEnd};
use up_machine::{Ask, Book, Point, Reason, Verdict};

/// A conversation of a server without closures: creations, appends in one piece, in chunks and at a wrong offset, two
/// parts and a final upload of them, reads, removals, requests that are refused, and an append that breaks off.
static TALK: &str =
    "POST /files/ HTTP/1.1\r\nHost: a\r\nTus-Resumable: 1.0.0\r\nUpload-Length: 11\r\n\r\n\
    POST /files/ HTTP/1.1\r\nHost: a\r\nTus-Resumable: 1.0.0\r\nUpload-Length: 0\r\n\r\n\
    POST /files/ HTTP/1.1\r\nHost: a\r\nTus-Resumable: 1.0.0\r\nUpload-Length: 3\r\n\
    Upload-Concat: partial\r\n\r\n\
    POST /files/ HTTP/1.1\r\nHost: a\r\nTus-Resumable: 1.0.0\r\nUpload-Length: 4\r\n\
    Upload-Concat: partial\r\n\r\n\
    POST /files/ HTTP/1.1\r\nHost: a\r\nTus-Resumable: 1.0.0\r\nUpload-Length: 7\r\n\
    Upload-Metadata: filename d29ybGQucGRm,is_confidential\r\n\r\n\
    POST /files/ HTTP/1.1\r\nHost: a\r\nTus-Resumable: 1.0.0\r\nUpload-Defer-Length: 1\r\n\r\n\
    PATCH /files/00000000000000000000000000000001 HTTP/1.1\r\nHost: a\r\nTus-Resumable: 1.0.0\r\n\
    Content-Type: application/offset+octet-stream\r\nUpload-Offset: 0\r\nContent-Length: 6\r\n\r\nhello \
    PATCH /files/00000000000000000000000000000001 HTTP/1.1\r\nHost: a\r\nTus-Resumable: 1.0.0\r\n\
    Content-Type: application/offset+octet-stream\r\nUpload-Offset: 5\r\nContent-Length: 5\r\n\r\nworld\
    PATCH /files/00000000000000000000000000000001 HTTP/1.1\r\nHost: a\r\nTus-Resumable: 1.0.0\r\n\
    Content-Type: application/offset+octet-stream\r\nUpload-Offset: 6\r\nContent-Length: 5\r\n\r\nworld\
    PATCH /files/00000000000000000000000000000003 HTTP/1.1\r\nHost: a\r\nTus-Resumable: 1.0.0\r\n\
    Content-Type: application/offset+octet-stream\r\nUpload-Offset: 0\r\nContent-Length: 3\r\n\r\nabc\
    PATCH /files/00000000000000000000000000000004 HTTP/1.1\r\nHost: a\r\nTus-Resumable: 1.0.0\r\n\
    Content-Type: application/offset+octet-stream\r\nUpload-Offset: 0\r\nContent-Length: 4\r\n\r\ndefg\
    POST /files/ HTTP/1.1\r\nHost: a\r\nTus-Resumable: 1.0.0\r\n\
    Upload-Concat: final;http://a/files/00000000000000000000000000000004 \
    /files/00000000000000000000000000000003 /files/00000000000000000000000000000004\r\n\r\n\
    HEAD /files/00000000000000000000000000000007 HTTP/1.1\r\nHost: a\r\n\r\n\
    GET /files/00000000000000000000000000000007 HTTP/1.1\r\nHost: a\r\n\r\n\
    PATCH /files/00000000000000000000000000000007 HTTP/1.1\r\nHost: a\r\nTus-Resumable: 1.0.0\r\n\
    Content-Type: application/offset+octet-stream\r\nUpload-Offset: 11\r\nContent-Length: 0\r\n\r\n\
    PATCH /files/00000000000000000000000000000005 HTTP/1.1\r\nHost: a\r\nTus-Resumable: 1.0.0\r\n\
    Content-Type: application/offset+octet-stream\r\nUpload-Offset: 0\r\n\
    Transfer-Encoding: chunked\r\n\r\n4\r\nabcd\r\n3\r\nefg\r\n0\r\nX-T: 1\r\n\r\n\
    DELETE /files/00000000000000000000000000000001 HTTP/1.1\r\nHost: a\r\nTus-Resumable: 1.0.0\r\n\r\n\
    DELETE /files/00000000000000000000000000000001 HTTP/1.1\r\nHost: a\r\nTus-Resumable: 1.0.0\r\n\r\n\
    HEAD /files/00000000000000000000000000000001 HTTP/1.1\r\nHost: a\r\n\r\n\
    POST /files/00000000000000000000000000000002 HTTP/1.1\r\nHost: a\r\nTus-Resumable: 1.0.0\r\n\
    X-HTTP-Method-Override: DELETE\r\n\r\n\
    POST /files/ HTTP/1.1\r\nHost: a\r\nTus-Resumable: 1.0.0\r\nUpload-Length: 1048577\r\n\r\n\
    POST /files/ HTTP/1.1\r\nHost: a\r\nTus-Resumable: 1.0.0\r\nUpload-Length: 5\r\n\
    Upload-Metadata: a YQ==,a Yg==\r\n\r\n\
    POST /files/ HTTP/1.1\r\nHost: a\r\nTus-Resumable: 1.0.0\r\nUpload-Concat: final;\r\n\r\n\
    PATCH /files/00000000000000000000000000000006 HTTP/1.1\r\nHost: a\r\nTus-Resumable: 0.2.2\r\n\r\n\
    OPTIONS /files/ HTTP/1.1\r\nTus-Resumable: 9.9.9\r\n\r\n\
    PATCH /files/00000000000000000000000000000006 HTTP/1.1\r\nHost: a\r\nTus-Resumable: 1.0.0\r\n\
    Content-Type: application/offset+octet-stream\r\nUpload-Offset: 0\r\nUpload-Length: 10\r\n\
    Content-Length: 10\r\n\r\nabcd";

/// The conversation of a server that requires a key and refuses removals.
static RULED: &str =
    "POST /files/ HTTP/1.1\r\nHost: a\r\nTus-Resumable: 1.0.0\r\nUpload-Length: 5\r\n\r\n\
    POST /files/ HTTP/1.1\r\nHost: a\r\nTus-Resumable: 1.0.0\r\nUpload-Length: 5\r\n\
    Upload-Metadata: filename d29ybGQucGRm\r\n\r\n\
    DELETE /files/00000000000000000000000000000001 HTTP/1.1\r\nHost: a\r\nTus-Resumable: 1.0.0\r\n\r\n\
    DELETE /files/00000000000000000000000000000002 HTTP/1.1\r\nHost: a\r\nTus-Resumable: 1.0.0\r\n\r\n\
    HEAD /files/00000000000000000000000000000002 HTTP/1.1\r\nHost: a\r\n\r\n\
    HEAD /files/00000000000000000000000000000001 HTTP/1.1\r\nHost: a\r\n\r\n";

/// How a conversation ended, and what was written.
type Told = (Ended, Vec<u8>);

/// Serves the conversation from a seat of the board.
fn told_from<B: Naming, R: Wait + Abort>(
    rt: &R,
    alloc: Global,
    board: &Board<B>,
    hooks: &PreHooks,
    asked: &[u8],
) -> (Seat<B>, Told)
    requires free { B.history ≡ no_history }
{
    let mut seat = board.seat(rt).expect(rt, "a seat");
    let mut keeper = Seated::new(rt, board, &mut seat);
    let told = talk(rt, alloc, &mut keeper, hooks, &mut Counting::new(), asked);
    (seat, told)
}

/// What is told from a seat of a board.
trait Telling {
    fn told<B: Naming, R: Wait + Abort>(
        &self,
        rt: &R,
        alloc: Global,
        board: &Board<B>,
    ) -> (Seat<B>, Told)
        requires free { B.history ≡ no_history };
}

/// A conversation, and the closures that are asked about its changes.
#[derive(Clone, Copy)]
struct Conversation<'a> {
    hooks: &'a PreHooks,
    asked: &'a [u8],
}

impl Telling for Conversation<'_> {
    fn told<B: Naming, R: Wait + Abort>(
        &self,
        rt: &R,
        alloc: Global,
        board: &Board<B>,
    ) -> (Seat<B>, Told) {
        told_from(rt, alloc, board, self.hooks, self.asked)
    }
}

/// What is told from a seat of a board while its lanes run, and how these end.
fn told_beside<
    B: Naming + Send + Sync,
    H: PostHook + Drop,
    R: Threads + Wait + Abort + Sync,
    W: Telling + Sync,
>(
    rt: &R,
    alloc: Global,
    board: &Board<B>,
    lanes: Vec<Lane<H>>,
    telling: &W,
) -> ((Seat<B>, Told), Vec<LaneEnd<H>>)
    requires free { B.history ≡ no_history }
    requires own { All (λ l. l.queue ≡ B.queue l.lane) lanes.items }
    ensures own { All (λ e. e.take_end.queue ≡ B.queue e.lane) result.1.items }
{
    run_beside(
        rt,
        board,
        board,
        lanes,
        || -> (Seat<B>, Told)
            requires { B.history ≡ no_history }
        { telling.told(rt, alloc, board) },
    )
}

/// Serves the conversation from a seat of a new board whose two lanes run meanwhile.
fn on_board<B: Naming + Send + Sync, H: PostHook + Drop, R: Threads + Wait + Abort + Sync>(
    rt: &R,
    alloc: Global,
    parts: BoardParts,
    recorders: (H, H),
    hooks: &PreHooks,
    asked: &[u8],
    keeps: bool,
) -> (Report<H>, Told)
    requires named { IsNamed B.name B.parts B.queue B.lanes parts }
    requires lanes { length parts.queues ≡ 2 }
    requires sized { B.max_size ≡ 1048576 }
    requires first { H.is_sound recorders.0 × (H.handed recorders.0 ≡ []) }
    requires second { H.is_sound recorders.1 × (H.handed recorders.1 ≡ []) }
    requires free { B.history ≡ no_history }
{
    let (board, lanes) = open_board::<B, _, _>(rt, alloc, parts, recorders, keeps);
    let telling = Conversation { hooks, asked };
    let ((seat, told), ends) = told_beside(rt, alloc, &board, lanes, &telling);
    (finished_from(rt, alloc, board, seat, ends), told)
}

/// Serves the conversation with a new board of two lanes, and returns its end and output, and the accepted changes.
fn reported<R: Threads + Wait + Abort + Sync>(
    rt: &R,
    alloc: Global,
    hooks: &PreHooks,
    asked: &[u8],
    keeps: bool,
) -> (Told, Changes) {
    let parts = BoardParts::new(alloc, 2, 1).expect(rt, "memory");
    let done = |_: &Event| Outcome::Done;
    let recorders = (Recorder::new(alloc, done), Recorder::new(alloc, done));
    let (report, told) = on_board::<Brand, _, _>(rt, alloc, parts, recorders, hooks, asked, keeps);
    (told, report.accepted)
}

/// Checks that a board gives the responses that the book gave to a conversation, and that it accepts this number of
/// changes. The board keeps its changes if a list of them is given, and otherwise counts them.
fn hold_board<R: Threads + Wait + Abort + Sync>(
    rt: &R,
    alloc: Global,
    hooks: &PreHooks,
    asked: &[u8],
    by_book: &Told,
    list: Option<&[Accepted]>,
    count: u64,
) {
    let (by_board, accepted) = reported(rt, alloc, hooks, asked, list.is_some());
    expect_same(rt, &by_board, by_book);
    expect_same(rt, &accepted.list(), &list);
    expect_same(rt, &accepted.len(), &count);
}

/// Checks that a book alone and boards of both kinds give the same responses to a conversation, and accept the same
/// changes, of which the number is given. The board that keeps its changes has the same list as the book. The other
/// board has no list, so only the number is compared.
fn hold<R: Threads + Wait + Abort + Sync>(
    rt: &R,
    alloc: Global,
    hooks: &PreHooks,
    asked: &str,
    count: u64,
) {
    let mut book = Book::new(alloc, 2, 1_048_576).expect(rt, "memory");
    let asked = asked.as_bytes();
    let by_book = talked(rt, alloc, &mut book, hooks, asked);
    let list = Some(book.journal().accepted());
    hold_board(rt, alloc, hooks, asked, &by_book, list, count);
    hold_board(rt, alloc, hooks, asked, &by_book, None, count);
}

/// Serves the conversation with the book alone.
fn talked<R: Wait>(rt: &R, alloc: Global, book: &mut Book, hooks: &PreHooks, asked: &[u8]) -> Told {
    let mut keeper = Lent::new(book);
    talk(rt, alloc, &mut keeper, hooks, &mut Counting::new(), asked)
}

#[test]
fn a_book_and_a_board_answer_and_accept_the_same(rt: HostRuntime) {
    let hooks = PreHooks::new(Vec::new(rt.alloc()));
    hold(&rt, rt.alloc(), &hooks, TALK, 15);
}

/// Refuses a new upload whose metadata does not have the key.
fn needs_a_key(ask: &Ask) -> Verdict
    ensures { IsTrue (is_allowed_verdict result) }
{
    if ask.value(b"filename").is_some() {
        return Verdict::Allow;
    }
    let reason = Reason::new(b"metadata key missing").unwrap();
    Verdict::Refuse {
        status: 422,
        reason,
    }
}

/// Refuses to remove an upload.
fn keeps() -> Verdict
    ensures { IsTrue (is_allowed_verdict result) }
{
    let reason = Reason::new(b"uploads are kept").unwrap();
    Verdict::Refuse {
        status: 403,
        reason,
    }
}

/// These two rules.
fn rules(rt: &impl Abort, alloc: Global) -> PreHooks {
    let key = |ask: &Ask| -> Verdict
        ensures { IsTrue (is_allowed_verdict result) }
    { needs_a_key(ask) };
    let keep = |_: &Ask| -> Verdict
        ensures { IsTrue (is_allowed_verdict result) }
    { keeps() };
    let mut hooks = Vec::new(alloc);
    let key = Box::new(alloc, key).expect(rt, "memory");
    hooks
        .push(PreHook::new(Point::Create, key))
        .expect(rt, "memory");
    let keep = Box::new(alloc, keep).expect(rt, "memory");
    hooks
        .push(PreHook::new(Point::Terminate, keep))
        .expect(rt, "memory");
    PreHooks::new(hooks)
}

#[test]
fn a_book_and_a_board_keep_the_same_rules(rt: HostRuntime) {
    let hooks = rules(&rt, rt.alloc());
    hold(&rt, rt.alloc(), &hooks, RULED, 1);
}
