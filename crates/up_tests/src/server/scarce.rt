//! Post-hooks that run out of memory while connections are served.
ghost use Rattle.std.specs.Prelude.{◌≡◌, ◌++◌, ◌∷◌, [], OnOk, true};

use crate::clients::{hold_answers, listen};
use crate::same::expect_same;
use crate::serving::visits;
use std::alloc::Global;
use std::marker::Sync;
use std::net::{Shutdown, TcpListener, TcpStream};
use std::process::Abort;
use std::sync::Wait;
use std::sync::atomic::{AtomicU64, Ordering};
use std::test::Fail;
use std::thread;
use std::thread::Threads;
use std::time::Duration;
use up_dispatch::{Counting, Report};
use up_events::{Event, Hook, Id, NoMemory};
use up_hooks::{Outcome, PostHook, PreHooks};
use up_lanes::How;
use up_server::{Connections, Hooks, Silent, serve_with};
use up_words::Settings;

/// A creation and an append, each of which closes its connection.
static ASKED: [&[u8]; 2] = [
    b"POST /files/ HTTP/1.1\r\nHost: a\r\nTus-Resumable: 1.0.0\r\n\
        Upload-Length: 3\r\nConnection: close\r\n\r\n",
    b"PATCH /files/00000000000000000000000000000001 HTTP/1.0\r\nTus-Resumable: 1.0.0\r\n\
        Content-Type: application/offset+octet-stream\r\nUpload-Offset: 0\r\n\
        Content-Length: 3\r\n\r\nabc",
];

/// The events of these requests: each hook with its offset.
const EVENTS: [(Hook, u64); 3] = [(Hook::Create, 0), (Hook::Receive, 3), (Hook::Finish, 3)];

/// How many calls a post-hook refuses, and whether it does so since it holds events back, or for want of memory.
#[derive(Clone, Copy)]
struct Refusals {
    count: u64,
    are_held: bool,
}

/// A post-hook that lists its events, and reports their number. It refuses its first calls.
#[derive(Drop)]
struct Scarce<'a> {
    events: Vec<Event>,
    refusals: Refusals,
    told: &'a AtomicU64,
}

impl<'a> PostHook for Scarce<'a> {
    ghost use Rattle.std.specs.Prelude.{◌≡◌, ⊤, nat_lt, vec_len, vec_capacity};
    ghost use Rattle.up_hooks.specs.declared.post_hook.Outcome.TheVariants.{Done};

    ghost is_sound = { λ _. ⊤ };

    ghost handed = { λ k. k.events.items };

    ghost has_room = { λ k. nat_lt (vec_len k.events) (vec_capacity k.events) };

    ghost is_settled = { λ _. true };

    ghost may_answer = { λ _ _ outcome. outcome ≡ Done };

    fn is_settled(&self) -> bool {
        true
    }

    fn ready(&mut self) -> Result<(), NoMemory>
        ensures same { self.new.events.items ≡ self.old.events.items }
        ensures room { OnOk result (⟦<Scarce<'a> as PostHook>⟧.has_room self.new ≡ true) }
        ensures settled { OnOk result (⟦<Scarce<'a> as PostHook>⟧.is_settled self.new ≡ true) }
        ensures stays_settled { ⟦<Scarce<'a> as PostHook>⟧.is_settled self.old ≡ true
            → ⟦<Scarce<'a> as PostHook>⟧.is_settled self.new ≡ true }
    {
        if self.refusals.count > 0 {
            self.refusals.count -= 1;
            return Err(NoMemory);
        }
        self.refusals.are_held = false;
        Ok(self.events.reserve(1)?)
    }

    fn holds_back(&self) -> bool {
        self.refusals.are_held
    }

    fn hand(&mut self, event: &Event) -> Outcome
        requires room { ⟦<Scarce<'a> as PostHook>⟧.has_room self.old ≡ true }
        ensures added { self.new.events.items ≡ self.old.events.items ++ event.now ∷ [] }
        ensures answer { ⟦<Scarce<'a> as PostHook>⟧.may_answer self.old event.now result }
    {
        self.events.push_reserved(*event);
        self.told.fetch_add(1, Ordering::SeqCst);
        self.told.wake_all();
        Outcome::Done
    }
}

impl<'a> Scarce<'a> {
    /// A post-hook that was handed nothing.
    fn new(alloc: Global, refusals: Refusals, told: &'a AtomicU64) -> Self
        ensures { result.events.items ≡ [] }
    {
        Scarce {
            events: Vec::new(alloc),
            refusals,
            told,
        }
    }
}

/// Serves connections with one lane that has this post-hook.
fn served<'a, T: Threads + Wait + Eprint + Sync>(
    rt: &T,
    alloc: Global,
    listener: TcpListener,
    connections: u64,
    post_hook: Scarce<'a>,
) -> Result<Report<Scarce<'a>>, NoMemory>
    requires { post_hook.events.items ≡ [] }
{
    let settings = Settings {
        lanes: 1,
        capacity: 4,
        max_size: 1024,
    };
    let mut post_hooks = Vec::new(alloc);
    post_hooks.push(post_hook)?;
    let hooks = Hooks {
        pre: PreHooks::new(Vec::new(alloc)),
        post: post_hooks,
    };
    let connections = Connections {
        listener,
        visits: &visits(Some(connections), 1, &Silent),
        ids: Counting::new(),
    };
    serve_with(rt, alloc, hooks, &settings, connections)
}

/// Waits until `count` events were reported, for at most a minute.
fn wait_for(rt: &impl Wait, told: &AtomicU64, count: u64) {
    for _ in 0..600u32 {
        let before = told.load(Ordering::SeqCst);
        if before >= count {
            break;
        }
        told.park_timeout(
            rt,
            (before & 0xffff_ffff) as u32,
            Duration::from_millis(100),
        );
    }
}

/// Checks how the lane ended, and that it was handed `count` of its events, each once and in order.
fn hold(
    rt: &impl Abort,
    report: &Report<Scarce<'_>>,
    how: How,
    count: usize,
    left: u64,
) -> Result<(), Fail> {
    let [lane] = report.lanes.as_slice() else {
        return Err("one lane".into());
    };
    expect_same(
        rt,
        &(report.accepted.len(), lane.how, lane.left),
        &(2, how, left),
    );
    expect_same(rt, &lane.hook.events.len(), &count);
    for (place, event) in lane.hook.events.iter().enumerate() {
        let (hook, offset) = EVENTS[place.min(2)];
        let wanted = Event {
            id: Id::new(1),
            number: place as u64 + 1,
            hook,
            offset,
            length: Some(3),
        };
        expect_same(rt, event, &wanted);
    }
    Ok(())
}

/// Serves three connections with a lane that has this post-hook. The third one is silent, and is shut down once the
/// post-hook has reported three events.
fn served_meanwhile<'a, T: Threads + Wait + Eprint + Sync>(
    rt: &T,
    alloc: Global,
    listener: TcpListener,
    silent: &TcpStream,
    post_hook: Scarce<'a>,
    told: &AtomicU64,
) -> Result<Report<Scarce<'a>>, NoMemory>
    requires { post_hook.events.items ≡ [] }
{
    let (report, _) = thread::join(
        rt,
        ||
            requires { post_hook.events.items ≡ [] }
        { served(rt, alloc, listener, 3, post_hook) },
        || {
            wait_for(rt, told, 3);
            silent.shutdown(Shutdown::Both)
        },
    );
    report
}

/// Serves three connections, as above, with a lane whose post-hook refuses three calls, and checks how it ended.
fn hold_meanwhile(
    rt: &(impl Threads + Wait + Eprint + Abort + Sync),
    alloc: Global,
    listener: TcpListener,
    silent: &TcpStream,
    are_held: bool,
) -> Result<(), Fail> {
    let told = AtomicU64::new(0);
    let refusals = Refusals { count: 3, are_held };
    let hook = Scarce::new(alloc, refusals, &told);
    let report = served_meanwhile(rt, alloc, listener, silent, hook, &told)?;
    hold(rt, &report, How::Drained, 3, 0)
}

#[test]
fn a_lane_goes_on_while_the_server_runs(rt: HostRuntime) -> Result<(), Fail> {
    for are_held in [false, true] {
        let (listener, mut clients) = listen(&rt, rt.alloc(), &ASKED);
        let silent = TcpStream::connect(&rt, listener.local_addr()?)?;
        hold_meanwhile(&rt, rt.alloc(), listener, &silent, are_held)?;
        hold_answers(&rt, rt.alloc(), &mut clients, b"HTTP/1.1 20", b"\r\n\r\n");
    }
    Ok(())
}

/// Serves two connections with a lane whose post-hook refuses these calls, and checks how it ended.
fn hold_end(
    rt: &(impl Threads + Wait + Eprint + Abort + Sync),
    alloc: Global,
    listener: TcpListener,
    refusals: Refusals,
    how: How,
    count: usize,
    left: u64,
) -> Result<(), Fail> {
    let told = AtomicU64::new(0);
    let hook = Scarce::new(alloc, refusals, &told);
    let report = served(rt, alloc, listener, 2, hook)?;
    hold(rt, &report, how, count, left)
}

#[test]
fn a_lane_is_tried_three_times_more_at_the_end(rt: HostRuntime) -> Result<(), Fail> {
    for (count, are_held, how, handed, left) in [
        (3, false, How::Drained, 3, 0),
        (u64::MAX, false, How::Stopped, 0, 3),
        (u64::MAX, true, How::Stopped, 0, 3),
    ] {
        let (listener, _clients) = listen(&rt, rt.alloc(), &ASKED);
        let refusals = Refusals { count, are_held };
        hold_end(&rt, rt.alloc(), listener, refusals, how, handed, left)?;
    }
    Ok(())
}
