//! A run of the server over connections.
ghost use Rattle.std.specs.Prelude.{◌≡◌, ◌⊎◌, [], All, Err, IfOk, length, vec_len};
ghost use Rattle.up_dispatch.specs.Lists.{EachAt};
ghost use Rattle.up_dispatch.specs.Parts.{IsNamed};
ghost use Rattle.up_dispatch.specs.declared.report.Report.{Report};
ghost use Rattle.up_hooks.specs.declared.recorder.Recorder.{Recorder};
ghost use Rattle.up_server.specs.ReportText.{report_by};
ghost use Rattle.up_server.specs.Reported.{AreSettled, IsReportOf, IsRunOutcome, IsOutcomeOfText};
ghost use Rattle.up_server.specs.Reported.{any_stopped};

use crate::accept::{Visits, serve_connections};
use crate::beside::run_beside;
use crate::boards;
use crate::hooks::Hooks;
use crate::lane_notices::OnStderr;
use crate::notices::Notices;
use crate::run_outcome::report_outcome;
use crate::runner::Runner;
use crate::server_fault::ServerFault;
use crate::shown::Shown;
use crate::status::say;
use std::alloc::{AllocError, Global};
use std::marker::{Brand, Send, Sync};
use std::net::TcpListener;
use std::sync::Wait;
use std::thread::Threads;
use up_dispatch::{Board, BoardParts, Ids, Naming, Report, Seat, Service};
use up_events::{Event, NoMemory};
use up_hooks::{Outcome, PostHook, PreHooks, Recorder};
use up_lanes::{Lane, LaneEnd};
use up_wire::Sink;
use up_words::Settings;

/// The connections of a server: where they are accepted, which are served, and where the ids of their uploads come
/// from.
#[derive(Drop)]
pub struct Connections<'a, I, N, S> {
    pub listener: TcpListener,
    pub visits: &'a Visits<'a, N, S>,
    pub ids: I,
}

/// Runs the lanes in threads of their own while connections are served, and then closes the board. A lane whose
/// post-hook is not ready waits for it. Returns the seats, unless memory ran out for the connections, and the ends of the
/// lanes.
fn attend<
    B: Naming + Send + Sync,
    H: PostHook + Drop,
    I: Ids + Send + Drop,
    N: Notices,
    S: Service + Sync,
    T: Threads + Wait + Eprint + Sync,
>(
    rt: &T,
    alloc: Global,
    board: &Board<B>,
    lanes: Vec<Lane<H>>,
    hooks: &PreHooks,
    connections: Connections<'_, I, N, S>,
) -> Result<(Result<Vec<Seat<B>>, AllocError>, Vec<LaneEnd<H>>), AllocError>
    requires same { B.history ≡ S.history }
    requires lanes { EachAt (λ k l. (l.lane ≡ k) × (l.queue ≡ B.queue k)) lanes.items }
    ensures count { IfOk result (λ r. vec_len r.1 ≡ vec_len lanes) }
    ensures ends { IfOk result (λ r. EachAt (λ k e. H.is_sound e.hook
        × (e.lane ≡ k) × (e.take_end.queue ≡ B.queue k)) r.1.items) }
{
    let Connections {
        listener,
        visits,
        ids,
    } = connections;
    let notices = &OnStderr::new(rt, alloc, lanes.len(), visits.watch, visits.ending)?;
    let runner = &Runner::lasting(board, notices);
    let ended = run_beside(
        rt,
        alloc,
        runner,
        lanes,
        || -> Result<Vec<Seat<B>>, AllocError>
            requires same { B.history ≡ S.history }
        { serve_connections(rt, alloc, board, hooks, ids, &listener, visits) },
    );
    say(rt, board, notices);
    ended
}

/// Serves connections on a new board of these parts, ends its lanes and reports.
fn run<
    B: Naming + Send + Sync,
    H: PostHook + Drop,
    I: Ids + Send + Drop,
    N: Notices,
    S: Service + Sync,
    T: Threads + Wait + Eprint + Sync,
>(
    rt: &T,
    alloc: Global,
    parts: BoardParts,
    pre_hooks: &PreHooks,
    post_hooks: Vec<H>,
    settings: &Settings,
    connections: Connections<'_, I, N, S>,
) -> Result<Report<H>, NoMemory>
    requires named { IsNamed B.name B.parts B.queue B.lanes parts }
    requires same { B.history ≡ S.history }
    requires lanes { settings.now.lanes ≡ B.lanes }
    requires sized { settings.now.max_size ≡ B.max_size }
    requires one_for_each { vec_len post_hooks ≡ settings.now.lanes }
    requires new { All (λ h. H.is_sound h × (H.handed h ≡ [])) post_hooks.items }
    ensures report { IfOk result (λ r. IsReportOf H.handed settings.now.lanes r) }
    ensures sound { IfOk result (λ r. All (λ x. H.is_sound x.hook) r.lanes.items) }
    ensures settled { IfOk result (λ r. AreSettled H.is_settled r.lanes.items) }
{
    let (board, lanes) = boards::open::<B, _>(alloc, parts, post_hooks, settings)?;
    let (seats, ends) = attend(rt, alloc, &board, lanes, pre_hooks, connections)?;
    boards::finish(alloc, board, seats?, ends)
}

/// Serves each connection that the listener accepts as a conversation of its own, in a thread of its own, on a new
/// board. Each lane hands its events to the post-hook at its place, in a thread of its own. After the last connection
/// has ended the lanes end, and the report says what they handed over. The closures of `hooks` are asked before an
/// upload is made, completed or removed. A fault on a connection ends only that connection. An error means that memory
/// ran out for what all connections share.
///
/// A lane whose post-hook is not ready for another event is tried again after 100 ms, and then after a pause that
/// doubles up to 10 s, until the post-hook is ready; the lane then continues where it stopped. After the last connection
/// has ended it is tried three times more, and then it is reported as stopped. Standard error says when a lane begins to
/// wait, and when it continues. The post-hook of a lane that is reported as drained has settled all of its events.
pub fn serve_with<
    H: PostHook + Drop,
    I: Ids + Send + Drop,
    N: Notices,
    S: Service + Sync,
    T: Threads + Wait + Eprint + Sync,
>(
    rt: &T,
    alloc: Global,
    hooks: Hooks<H>,
    settings: &Settings,
    connections: Connections<'_, I, N, S>,
) -> Result<Report<H>, NoMemory>
    requires one_for_each { vec_len hooks.post ≡ settings.now.lanes }
    requires new { All (λ h. H.is_sound h × (H.handed h ≡ [])) hooks.post.items }
    ensures report { IfOk result (λ r. IsReportOf H.handed settings.now.lanes r) }
    ensures sound { IfOk result (λ r. All (λ x. H.is_sound x.hook) r.lanes.items) }
    ensures settled { IfOk result (λ r. AreSettled H.is_settled r.lanes.items) }
{
    let parts = BoardParts::new(alloc, settings.lanes, settings.capacity)?;
    let Hooks { pre, post } = hooks;
    run::<Brand, _, _, _, _, _>(rt, alloc, parts, &pre, post, settings, connections)
}

/// Serves connections as `serve_with` does, with recorders, and writes the report to `sink`. Returns the first fault in
/// the order of `ServerFault`; after `Memory` and `Write` there may be no report.
pub fn serve<
    F: Fn(&Event) -> Outcome + Send + Drop,
    I: Ids + Send + Drop,
    N: Notices,
    S: Service + Sync,
    W: Sink,
    T: Threads + Wait + Eprint + Sync,
>(
    rt: &T,
    alloc: Global,
    hooks: Hooks<Recorder<F>>,
    settings: &Settings,
    connections: Connections<'_, I, N, S>,
    sink: &mut W,
) -> Result<(), ServerFault>
    requires one_for_each { length hooks.post.items ≡ settings.now.lanes }
    requires new { All (λ r. ⟦<Recorder<F> as PostHook>⟧.is_sound r
        × (⟦<Recorder<F> as PostHook>⟧.handed r ≡ [])) hooks.post.items }
    ensures { (result ≡ Err ServerFault.Memory) ⊎ ((report : Report (Recorder F))
        × IsReportOf ⟦<Recorder<F> as PostHook>⟧.handed settings.now.lanes report
        × All (λ lane. ⟦<Recorder<F> as PostHook>⟧.is_sound lane.hook) report.lanes.items
        × AreSettled ⟦<Recorder<F> as PostHook>⟧.is_settled report.lanes.items
        × IsRunOutcome report (W.device sink.old) (W.device sink.new) result) }
{
    keep_serving(rt, alloc, hooks, settings, connections, sink)
}

/// The same, with any post-hooks that a report can show. With tellers no change and no event is kept after it was
/// handed over, so it may run without an end. It then holds the uploads that there are, a few words for each id that
/// was ever given, and the events that wait for their lane.
pub fn keep_serving<
    H: Shown + Drop,
    I: Ids + Send + Drop,
    N: Notices,
    S: Service + Sync,
    W: Sink,
    T: Threads + Wait + Eprint + Sync,
>(
    rt: &T,
    alloc: Global,
    hooks: Hooks<H>,
    settings: &Settings,
    connections: Connections<'_, I, N, S>,
    sink: &mut W,
) -> Result<(), ServerFault>
    requires one_for_each { length hooks.post.items ≡ settings.now.lanes }
    requires new { All (λ h. H.is_sound h × (H.handed h ≡ [])) hooks.post.items }
    ensures { (result ≡ Err ServerFault.Memory) ⊎ ((report : Report H)
        × IsReportOf H.handed settings.now.lanes report
        × All (λ lane. H.is_sound lane.hook) report.lanes.items
        × AreSettled H.is_settled report.lanes.items
        × IsOutcomeOfText (report_by H.count H.text report) (any_stopped report.lanes.items)
        (W.device sink.old) (W.device sink.new) result) }
{
    match serve_with(rt, alloc, hooks, settings, connections) {
        Ok(counts) => report_outcome(sink, &counts),
        Err(_) => Err(ServerFault::Memory),
    }
}
