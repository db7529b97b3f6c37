//! A lane whose post-hook runs out of memory: only this lane stops, and it continues where it stopped.
ghost use Rattle.std.specs.Prelude.{◌≡◌, All, [], IfOk, length};
ghost use Rattle.up_dispatch.specs.Free.{no_history};
ghost use Rattle.up_dispatch.specs.Parts.{IsNamed};

use crate::beside::{finished_from, open_board, run_beside};
use crate::fifteen::{answered, events_of_lane_0};
use crate::lanes::parts::Listing;
use crate::same::expect_same;
use std::alloc::{AllocError, Global};
use std::marker::{Brand, Send, Sync};
use std::process::Abort;
use std::sync::Wait;
use std::test::Fail;
use std::thread;
use std::thread::Threads;
use up_dispatch::{Board, BoardParts, LaneReport, Naming, Report, Seat};
use up_hooks::PostHook;
use up_lanes::{How, Lane, LaneEnd};

/// Checks that lane 0 stopped after two events.
fn has_stopped(rt: &impl Abort, ends: &[LaneEnd<Listing>]) -> Result<(), Fail> {
    let Some(first) = ends.first() else {
        return Err("a lane".into());
    };
    expect_same(rt, &(first.lane, first.how), &(0, How::Stopped));
    expect_same(rt, &first.hook.events.len(), &2);
    Ok(())
}

/// Runs each lane again from where it stopped, in a thread of its own.
fn resume_each<B: Naming + Send + Sync, R: Threads + Wait + Sync>(
    rt: &R,
    board: &Board<B>,
    ends: Vec<LaneEnd<Listing>>,
) -> Result<Vec<LaneEnd<Listing>>, AllocError>
    requires own { All (λ e. e.take_end.queue ≡ B.queue e.lane) ends.items }
    ensures own { IfOk result (λ v. All (λ e. e.take_end.queue ≡ B.queue e.lane) v.items) }
{
    thread::map_vec(
        rt,
        ends,
        &|end: LaneEnd<Listing>| -> LaneEnd<Listing>
            requires { end.take_end.queue ≡ B.queue end.lane }
            ensures { result.take_end.queue ≡ B.queue result.lane }
        { Lane::resume(end).run(rt, board) },
    )
}

/// The lanes, the first of which stopped, as they ended, or, if `is_resumed`, as they end after they are resumed.
fn ends_of<B: Naming + Send + Sync, R: Threads + Wait + Abort + Sync>(
    rt: &R,
    board: &Board<B>,
    ends: Vec<LaneEnd<Listing>>,
    is_resumed: bool,
) -> Result<Vec<LaneEnd<Listing>>, Fail>
    requires own { All (λ e. e.take_end.queue ≡ B.queue e.lane) ends.items }
    ensures own { IfOk result (λ v. All (λ e. e.take_end.queue ≡ B.queue e.lane) v.items) }
{
    has_stopped(rt, &ends)?;
    if is_resumed {
        Ok(resume_each(rt, board, ends)?)
    } else {
        Ok(ends)
    }
}

/// The report of a board of two lanes that run during the requests and, if `is_resumed`, again afterwards.
fn stopped<B: Naming + Send + Sync, R: Threads + Wait + Abort + Sync>(
    rt: &R,
    alloc: Global,
    parts: BoardParts,
    hooks: (Listing, Listing),
    is_resumed: bool,
) -> Result<Report<Listing>, Fail>
    requires named { IsNamed B.name B.parts B.queue B.lanes parts }
    requires lanes { length parts.queues ≡ 2 }
    requires sized { B.max_size ≡ 1048576 }
    requires first { ⟦<Listing as PostHook>⟧.handed hooks.0 ≡ [] }
    requires second { ⟦<Listing as PostHook>⟧.handed hooks.1 ≡ [] }
    requires free { B.history ≡ no_history }
{
    let (board, lanes) = open_board::<B, _, _>(rt, alloc, parts, hooks, true);
    let shared = &board;
    let (seat, ends) = run_beside(
        rt,
        shared,
        shared,
        lanes,
        || -> Seat<B>
            requires { B.history ≡ no_history }
        { answered(rt, alloc, shared) },
    );
    let ends = ends_of(rt, &board, ends, is_resumed)?;
    Ok(finished_from(rt, alloc, board, seat, ends))
}

/// That report if the post-hook of lane 0 runs out of memory `refusals` times after two events.
fn reported<R: Threads + Wait + Abort + Sync>(
    rt: &R,
    alloc: Global,
    refusals: u64,
    is_resumed: bool,
) -> Result<Report<Listing>, Fail> {
    let parts = BoardParts::new(alloc, 2, 1)?;
    let hooks = (Listing::new(alloc, 2, refusals), Listing::new(alloc, 0, 0));
    stopped::<Brand, _>(rt, alloc, parts, hooks, is_resumed)
}

/// The lane, how it ended, the number of events left, and the number handed over.
fn told(lane: &LaneReport<Listing>) -> (u64, How, u64, usize) {
    (lane.lane, lane.how, lane.left, lane.hook.events.len())
}

/// Checks that lane 0 was handed `count` of its events, and lane 1 all of its own.
fn hold(
    rt: &impl Abort,
    report: &Report<Listing>,
    count: usize,
    how: How,
    left: u64,
) -> Result<(), Fail> {
    let [first, second] = report.lanes.as_slice() else {
        return Err("two lanes".into());
    };
    expect_same(rt, &report.accepted.len(), &15);
    expect_same(rt, &told(first), &(0, how, left, count));
    expect_same(rt, &told(second), &(1, How::Drained, 0, 12));
    expect_same(
        rt,
        &Some(first.hook.events.as_slice()),
        &events_of_lane_0().get(..count),
    );
    Ok(())
}

#[test]
fn a_lane_that_stops_holds_nobody_up(rt: HostRuntime) -> Result<(), Fail> {
    let report = reported(&rt, rt.alloc(), u64::MAX, false)?;
    hold(&rt, &report, 2, How::Stopped, 6)
}

#[test]
fn a_lane_that_stopped_is_resumed(rt: HostRuntime) -> Result<(), Fail> {
    let report = reported(&rt, rt.alloc(), 1, true)?;
    hold(&rt, &report, 8, How::Drained, 0)
}
