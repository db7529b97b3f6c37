//! Post-hooks of two lanes that wait for each other: one is handed its event before the other has returned.
ghost use Rattle.std.specs.Prelude.{IsTrue};
ghost use Rattle.up_hooks.specs.Recorded.{has_code};

use crate::clients::{hold_answers, listen};
use crate::gate::{POST, is_set_in_time};
use crate::replaying::replayed;
use crate::same::{expect_same, expect_text};
use crate::serving::{reported, visits};
use std::alloc::Global;
use std::marker::Sync;
use std::net::TcpListener;
use std::sync::Wait;
use std::sync::atomic::{AtomicBool, Ordering};
use std::thread::Threads;
use up_events::Event;
use up_hooks::{Outcome, PreHooks};
use up_server::{ServerFault, Silent};
use up_wire::Input;
use up_words::Settings;

/// Two uploads, the first of lane 1 and the second of lane 0.
static ASKED: &[u8] = b"POST /files/ HTTP/1.1\r\nHost: a\r\nTus-Resumable: 1.0.0\r\n\
    Upload-Length: 1\r\n\r\n\
    POST /files/ HTTP/1.1\r\nHost: a\r\nTus-Resumable: 1.0.0\r\nUpload-Length: 1\r\n\r\n";

/// The responses to them.
static ANSWERS: &str = "HTTP/1.1 201 Created\r\nTus-Resumable: 1.0.0\r\nCache-Control: no-store\r\n\
    Location: /files/00000000000000000000000000000001\r\nContent-Length: 0\r\n\r\n\
    HTTP/1.1 201 Created\r\nTus-Resumable: 1.0.0\r\nCache-Control: no-store\r\n\
    Location: /files/00000000000000000000000000000002\r\nContent-Length: 0\r\n\r\n";

/// The report after them.
static REPORT: &str = "\naccepted 2\nlane 0 drained 1\n\
    00000000000000000000000000000002 1 post-create 0/1 done\nlane 1 drained 1\n\
    00000000000000000000000000000001 1 post-create 0/1 done\n";

/// Notifies the other lane that this one's post-hook was called, and waits until the other's was.
fn meet(own: &AtomicBool, other: &AtomicBool) -> Outcome
    ensures { IsTrue (has_code result) }
{
    own.store(true, Ordering::SeqCst);
    if is_set_in_time(other) {
        Outcome::Done
    } else {
        Outcome::Failed(99)
    }
}

/// Which of the two lanes' post-hooks were called.
#[derive(Drop)]
struct Meeting {
    zero: AtomicBool,
    one: AtomicBool,
}

impl Meeting {
    fn new() -> Meeting {
        Meeting {
            zero: AtomicBool::new(false),
            one: AtomicBool::new(false),
        }
    }

    /// The outcome of a lane's post-hook: `Done` if the other lane's is called in time.
    fn answer(&self, event: &Event) -> Outcome
        ensures { IsTrue (has_code result) }
    {
        if event.id.lane(2) == 0 {
            meet(&self.zero, &self.one)
        } else {
            meet(&self.one, &self.zero)
        }
    }
}

#[test]
fn post_hooks_of_two_lanes_meet(rt: HostRuntime) {
    let meeting = Meeting::new();
    let shared = &meeting;
    let answer = move |event: &Event| -> Outcome
        ensures { IsTrue (has_code result) }
    { shared.answer(event) };
    let (ended, written) = replayed(&rt, rt.alloc(), answer, &mut Input::new(ASKED));
    expect_same(&rt, &ended, &Ok(()));
    let text = str::from_utf8(&written).expect(&rt, "text");
    expect_same(&rt, &text.strip_prefix(ANSWERS), &Some(REPORT));
}

/// The report of a server that serves two connections, one after the other, and whose post-hooks meet.
fn met<R: Threads + Wait + Eprint + Sync>(
    rt: &R,
    alloc: Global,
    listener: TcpListener,
) -> Result<Vec<u8>, ServerFault> {
    let meeting = Meeting::new();
    let shared = &meeting;
    let answer = move |event: &Event| -> Outcome
        ensures { IsTrue (has_code result) }
    { shared.answer(event) };
    let hooks = PreHooks::new(Vec::new(alloc));
    let visits = visits(Some(2), 1, &Silent);
    reported(
        rt,
        alloc,
        hooks,
        answer,
        &Settings::default(),
        listener,
        &visits,
    )
}

#[test]
fn post_hooks_meet_by_two_connections(rt: HostRuntime) {
    let (listener, mut clients) = listen(&rt, rt.alloc(), &[POST, POST]);
    let report = met(&rt, rt.alloc(), listener).expect(&rt, "a report");
    expect_text(&rt, &report, REPORT);
    hold_answers(&rt, rt.alloc(), &mut clients, b"HTTP/1.1 201 ", b"");
}
