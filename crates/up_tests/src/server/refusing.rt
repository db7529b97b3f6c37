//! Closures that refuse and post-hooks that fail, as seen in the replies and the report.
ghost use Rattle.std.specs.Prelude.{IsTrue};
ghost use Rattle.up_hooks.specs.Recorded.{has_code};
ghost use Rattle.up_hooks.specs.Verdicts.{is_allowed_verdict};

use super::hold;
use crate::replaying::{done, replayed, run_with};
use crate::same::expect_same;
use std::alloc::{AllocError, Global};
use std::marker::Sync;
use std::process::Abort;
use std::sync::atomic::{AtomicU64, Ordering};
use std::sync::{Arc, Wait};
use std::thread::Threads;
use up_events::{Event, Hook};
use up_hooks::{Links, Origin, Outcome, PreHook, PreHooks, RequestHook};
use up_machine::{Ask, Point, Reason, Verdict};
use up_message::same_name;
use up_wire::{Input, Output};

const EIGHTY: &str =
    "The quota of this account is used up until the end of the month (see the rules).";

/// Refuses an upload of n bytes, for n from 1 to 6, with the n-th status and a reason of one byte, and any other with
/// 429 and a reason of 80 bytes.
fn by_length(ask: &Ask) -> Verdict
    ensures { IsTrue (is_allowed_verdict result) }
{
    let (status, text) = match ask.length.unwrap_or(0) {
        1 => (400, "1"),
        2 => (403, "2"),
        3 => (409, "3"),
        4 => (413, "4"),
        5 => (422, "5"),
        6 => (429, "6"),
        _ => (429, EIGHTY),
    };
    match Reason::new(text.as_bytes()) {
        Some(reason) => Verdict::Refuse { status, reason },
        None => Verdict::Allow,
    }
}

/// Creations of uploads of one to seven bytes.
static ONE_TO_SEVEN: &str =
    "POST /files/ HTTP/1.1\r\nHost: a\r\nTus-Resumable: 1.0.0\r\nUpload-Length: 1\r\n\r\n\
    POST /files/ HTTP/1.1\r\nHost: a\r\nTus-Resumable: 1.0.0\r\nUpload-Length: 2\r\n\r\n\
    POST /files/ HTTP/1.1\r\nHost: a\r\nTus-Resumable: 1.0.0\r\nUpload-Length: 3\r\n\r\n\
    POST /files/ HTTP/1.1\r\nHost: a\r\nTus-Resumable: 1.0.0\r\nUpload-Length: 4\r\n\r\n\
    POST /files/ HTTP/1.1\r\nHost: a\r\nTus-Resumable: 1.0.0\r\nUpload-Length: 5\r\n\r\n\
    POST /files/ HTTP/1.1\r\nHost: a\r\nTus-Resumable: 1.0.0\r\nUpload-Length: 6\r\n\r\n\
    POST /files/ HTTP/1.1\r\nHost: a\r\nTus-Resumable: 1.0.0\r\nUpload-Length: 7\r\n\r\n";

/// Their responses, and the report.
static ALL_REFUSED: &str =
    "HTTP/1.1 400 Bad Request\r\nTus-Resumable: 1.0.0\r\nCache-Control: no-store\r\n\
    Content-Type: text/plain\r\nContent-Length: 2\r\n\r\n1\n\
    HTTP/1.1 403 Forbidden\r\nTus-Resumable: 1.0.0\r\nCache-Control: no-store\r\n\
    Content-Type: text/plain\r\nContent-Length: 2\r\n\r\n2\n\
    HTTP/1.1 409 Conflict\r\nTus-Resumable: 1.0.0\r\nCache-Control: no-store\r\n\
    Content-Type: text/plain\r\nContent-Length: 2\r\n\r\n3\n\
    HTTP/1.1 413 Payload Too Large\r\nTus-Resumable: 1.0.0\r\nCache-Control: no-store\r\n\
    Content-Type: text/plain\r\nContent-Length: 2\r\n\r\n4\n\
    HTTP/1.1 422 Unprocessable Entity\r\nTus-Resumable: 1.0.0\r\nCache-Control: no-store\r\n\
    Content-Type: text/plain\r\nContent-Length: 2\r\n\r\n5\n\
    HTTP/1.1 429 Too Many Requests\r\nTus-Resumable: 1.0.0\r\nCache-Control: no-store\r\n\
    Content-Type: text/plain\r\nContent-Length: 2\r\n\r\n6\n\
    HTTP/1.1 429 Too Many Requests\r\nTus-Resumable: 1.0.0\r\nCache-Control: no-store\r\n\
    Content-Type: text/plain\r\nContent-Length: 81\r\n\r\n\
    The quota of this account is used up until the end of the month (see the rules).\n\
    \naccepted 0\nlane 0 drained 0\nlane 1 drained 0\n";

/// Serves the requests with a server with these closures, and checks the output.
fn hold_with(
    rt: &(impl Threads + Wait + Abort + Sync),
    alloc: Global,
    hooks: PreHooks,
    asked: &str,
    wanted: &str,
) {
    let mut source = Input::new(asked.as_bytes());
    let mut sink = Output::new(Vec::new(alloc));
    let ended = run_with(rt, alloc, hooks, done, &mut source, &mut sink);
    hold(rt, ended, &sink.into_inner(), wanted);
}

/// One closure, which judges creations by the length.
fn judging_by_length(alloc: Global) -> Result<PreHooks, AllocError> {
    let judge = |ask: &Ask| -> Verdict
        ensures { IsTrue (is_allowed_verdict result) }
    { by_length(ask) };
    let mut hooks = Vec::new(alloc);
    hooks.push(PreHook::new(Point::Create, Box::new(alloc, judge)?))?;
    Ok(PreHooks::new(hooks))
}

#[test]
fn refuses_with_the_status_and_reason_of_a_closure(rt: HostRuntime) {
    let hooks = judging_by_length(rt.alloc()).expect(&rt, "memory");
    hold_with(&rt, rt.alloc(), hooks, ONE_TO_SEVEN, ALL_REFUSED);
}

/// Allows a request that has this token, and refuses any other.
fn by_token(origin: &Origin) -> Verdict
    ensures { IsTrue (is_allowed_verdict result) }
{
    for field in origin.fields.as_slice() {
        if same_name(field.0.as_slice(), b"authorization")
            && field.1.as_slice() == b"Bearer abc".as_slice()
        {
            return Verdict::Allow;
        }
    }
    match Reason::new(b"who are you?") {
        Some(reason) => Verdict::Refuse {
            status: 403,
            reason,
        },
        None => Verdict::Allow,
    }
}

/// Two creations, of which one has the token.
static ONE_TOKEN: &str =
    "POST /files/ HTTP/1.1\r\nHost: a\r\nTus-Resumable: 1.0.0\r\nUpload-Length: 1\r\n\r\n\
    POST /files/ HTTP/1.1\r\nHost: a\r\nTus-Resumable: 1.0.0\r\nUpload-Length: 1\r\n\
    AUTHORIZATION: Bearer abc\r\n\r\n";

/// Their responses, and the report.
static ONE_KNOWN: &str =
    "HTTP/1.1 403 Forbidden\r\nTus-Resumable: 1.0.0\r\nCache-Control: no-store\r\n\
    Content-Type: text/plain\r\nContent-Length: 13\r\n\r\nwho are you?\n\
    HTTP/1.1 201 Created\r\nTus-Resumable: 1.0.0\r\nCache-Control: no-store\r\n\
    Location: /files/00000000000000000000000000000002\r\nContent-Length: 0\r\n\r\n\
    \naccepted 1\nlane 0 drained 1\n\
    00000000000000000000000000000002 1 post-create 0/1 done\nlane 1 drained 0\n";

#[test]
fn a_closure_may_see_the_fields_of_the_request(rt: HostRuntime) {
    let alloc = rt.alloc();
    let judge = |_: &Ask, origin: &Origin| -> Verdict
        ensures { IsTrue (is_allowed_verdict result) }
    { by_token(origin) };
    let last = RequestHook::new(Box::new(alloc, judge).expect(&rt, "memory"));
    let hooks = PreHooks::ending_with(Vec::new(alloc), last, Links::none(alloc));
    hold_with(&rt, alloc, hooks, ONE_TOKEN, ONE_KNOWN);
}

/// Counts a call, and allows.
fn counted(calls: &AtomicU64) -> Verdict
    ensures { IsTrue (is_allowed_verdict result) }
{
    calls.fetch_add(1, Ordering::SeqCst);
    Verdict::Allow
}

/// Requests that are refused before any closure is asked, then an upload that is created, filled, shown and removed.
static REFUSED_AND_REMOVED: &str =
    "POST /files/ HTTP/1.1\r\nHost: a\r\nTus-Resumable: 1.0.0\r\nUpload-Length: 1048577\r\n\r\n\
    POST /files/ HTTP/1.1\r\nHost: a\r\nTus-Resumable: 1.0.0\r\n\
    Upload-Concat: final;/files/00000000000000000000000000000009\r\n\r\n\
    DELETE /files/00000000000000000000000000000002 HTTP/1.1\r\nHost: a\r\nTus-Resumable: 1.0.0\r\n\r\n\
    POST /files/ HTTP/1.1\r\nHost: a\r\nTus-Resumable: 1.0.0\r\nUpload-Length: 1\r\n\r\n\
    PATCH /files/00000000000000000000000000000002 HTTP/1.1\r\nHost: a\r\nTus-Resumable: 1.0.0\r\n\
    Content-Type: application/offset+octet-stream\r\nUpload-Offset: 0\r\nContent-Length: 1\r\n\r\na\
    HEAD /files/00000000000000000000000000000002 HTTP/1.1\r\nHost: a\r\nTus-Resumable: 1.0.0\r\n\r\n\
    GET /files/00000000000000000000000000000002 HTTP/1.1\r\nHost: a\r\nTus-Resumable: 1.0.0\r\n\r\n\
    DELETE /files/00000000000000000000000000000002 HTTP/1.1\r\nHost: a\r\nTus-Resumable: 1.0.0\r\n\r\n";

/// Their responses, and the report.
static ONE_REMOVED: &str =
    "HTTP/1.1 413 Payload Too Large\r\nTus-Resumable: 1.0.0\r\nCache-Control: no-store\r\n\
    Content-Type: text/plain\r\nContent-Length: 11\r\n\r\n15 TooLong\n\
    HTTP/1.1 400 Bad Request\r\nTus-Resumable: 1.0.0\r\nCache-Control: no-store\r\n\
    Content-Type: text/plain\r\nContent-Length: 15\r\n\r\n27 PartUnknown\n\
    HTTP/1.1 404 Not Found\r\nTus-Resumable: 1.0.0\r\nCache-Control: no-store\r\n\
    Content-Type: text/plain\r\nContent-Length: 12\r\n\r\n21 NotFound\n\
    HTTP/1.1 201 Created\r\nTus-Resumable: 1.0.0\r\nCache-Control: no-store\r\n\
    Location: /files/00000000000000000000000000000002\r\nContent-Length: 0\r\n\r\n\
    HTTP/1.1 204 No Content\r\nTus-Resumable: 1.0.0\r\nCache-Control: no-store\r\nUpload-Offset: 1\r\n\r\n\
    HTTP/1.1 200 OK\r\nTus-Resumable: 1.0.0\r\nCache-Control: no-store\r\n\
    Upload-Offset: 1\r\nUpload-Length: 1\r\n\r\n\
    HTTP/1.1 200 OK\r\nTus-Resumable: 1.0.0\r\nCache-Control: no-store\r\n\
    Content-Type: application/octet-stream\r\nContent-Length: 1\r\n\r\na\
    HTTP/1.1 204 No Content\r\nTus-Resumable: 1.0.0\r\nCache-Control: no-store\r\n\r\n\
    \naccepted 3\nlane 0 drained 4\n\
    00000000000000000000000000000002 1 post-create 0/1 done\n\
    00000000000000000000000000000002 2 post-receive 1/1 done\n\
    00000000000000000000000000000002 3 post-finish 1/1 done\n\
    00000000000000000000000000000002 4 post-terminate 1/1 done\nlane 1 drained 0\n";

/// Serves these requests with closures that count in `made` and in `removed`, and checks the output.
fn hold_counted(
    rt: &(impl Threads + Wait + Abort + Sync),
    alloc: Global,
    made: &Arc<AtomicU64>,
    removed: &Arc<AtomicU64>,
) {
    let mut hooks = Vec::new(alloc);
    for (point, calls) in [(Point::Create, made), (Point::Terminate, removed)] {
        let counter = Arc::try_clone(calls).expect(rt, "memory");
        let judge = move |_: &Ask| -> Verdict
            ensures { IsTrue (is_allowed_verdict result) }
        { counted(&counter) };
        let judge = Box::new(alloc, judge).expect(rt, "memory");
        hooks.push(PreHook::new(point, judge)).expect(rt, "memory");
    }
    let hooks = PreHooks::new(hooks);
    hold_with(rt, alloc, hooks, REFUSED_AND_REMOVED, ONE_REMOVED);
}

#[test]
fn asks_only_where_nothing_else_refuses(rt: HostRuntime) {
    let made = Arc::new(rt.alloc(), AtomicU64::new(0)).expect(&rt, "memory");
    let removed = Arc::new(rt.alloc(), AtomicU64::new(0)).expect(&rt, "memory");
    hold_counted(&rt, rt.alloc(), &made, &removed);
    let calls = [made.load(Ordering::SeqCst), removed.load(Ordering::SeqCst)];
    expect_same(&rt, &calls, &[1, 1]);
}

/// Two uploads that become complete.
static TWO: &str =
    "POST /files/ HTTP/1.1\r\nHost: a\r\nTus-Resumable: 1.0.0\r\nUpload-Length: 3\r\n\r\n\
    POST /files/ HTTP/1.1\r\nHost: a\r\nTus-Resumable: 1.0.0\r\nUpload-Length: 1\r\n\r\n\
    PATCH /files/00000000000000000000000000000001 HTTP/1.1\r\nHost: a\r\nTus-Resumable: 1.0.0\r\n\
    Content-Type: application/offset+octet-stream\r\nUpload-Offset: 0\r\nContent-Length: 2\r\n\r\nab\
    PATCH /files/00000000000000000000000000000001 HTTP/1.1\r\nHost: a\r\nTus-Resumable: 1.0.0\r\n\
    Content-Type: application/offset+octet-stream\r\nUpload-Offset: 2\r\nContent-Length: 1\r\n\r\nc\
    PATCH /files/00000000000000000000000000000002 HTTP/1.1\r\nHost: a\r\nTus-Resumable: 1.0.0\r\n\
    Content-Type: application/offset+octet-stream\r\nUpload-Offset: 0\r\nContent-Length: 1\r\n\r\nd";

/// Their responses, and a report in which the post-hook fails at each event but the first of each upload.
static TWO_THAT_FAIL: &str =
    "HTTP/1.1 201 Created\r\nTus-Resumable: 1.0.0\r\nCache-Control: no-store\r\n\
    Location: /files/00000000000000000000000000000001\r\nContent-Length: 0\r\n\r\n\
    HTTP/1.1 201 Created\r\nTus-Resumable: 1.0.0\r\nCache-Control: no-store\r\n\
    Location: /files/00000000000000000000000000000002\r\nContent-Length: 0\r\n\r\n\
    HTTP/1.1 204 No Content\r\nTus-Resumable: 1.0.0\r\nCache-Control: no-store\r\nUpload-Offset: 2\r\n\r\n\
    HTTP/1.1 204 No Content\r\nTus-Resumable: 1.0.0\r\nCache-Control: no-store\r\nUpload-Offset: 3\r\n\r\n\
    HTTP/1.1 204 No Content\r\nTus-Resumable: 1.0.0\r\nCache-Control: no-store\r\nUpload-Offset: 1\r\n\r\n\
    \naccepted 5\nlane 0 drained 3\n\
    00000000000000000000000000000002 1 post-create 0/1 done\n\
    00000000000000000000000000000002 2 post-receive 1/1 failed 7\n\
    00000000000000000000000000000002 3 post-finish 1/1 failed 99\nlane 1 drained 4\n\
    00000000000000000000000000000001 1 post-create 0/3 done\n\
    00000000000000000000000000000001 2 post-receive 2/3 failed 7\n\
    00000000000000000000000000000001 3 post-receive 3/3 failed 7\n\
    00000000000000000000000000000001 4 post-finish 3/3 failed 99\n";

#[test]
fn goes_on_after_a_post_hook_that_fails(rt: HostRuntime) {
    let answer = |event: &Event| -> Outcome
        ensures { IsTrue (has_code result) }
    {
        match event.hook {
            Hook::Create => Outcome::Done,
            Hook::Finish => Outcome::Failed(99),
            _ => Outcome::Failed(7),
        }
    };
    let (ended, written) = replayed(&rt, rt.alloc(), answer, &mut Input::new(TWO.as_bytes()));
    hold(&rt, ended, &written, TWO_THAT_FAIL);
}
