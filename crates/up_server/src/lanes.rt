//! Lanes over the queues of a board, in threads of their own.
ghost use Rattle.std.specs.Prelude.{◌≡◌, All, IfOk, vec_len, [], false, slice_index_or};
ghost use Rattle.up_lanes.specs.LaneViews.{lane_view};
ghost use Rattle.up_dispatch.specs.Lists.{EachAt};

use crate::lane_notices::LaneNotices;
use crate::runner::Runner;
use crate::status::start_saying;
use std::alloc::{AllocError, Global};
use std::marker::{Send, Sync};
use std::snapshot::Snapshot;
use std::sync::Wait;
use std::thread;
use std::thread::{Promise, PromisedHandle, Scope, Threads};
use up_dispatch::Naming;
use up_events::NoMemory;
use up_hooks::PostHook;
use up_lanes::{Lane, LaneEnd};
use up_queue::TakeEnd;

/// A lane over each take end, numbered from 0, with the post-hook at its place. `NoMemory` if memory runs out.
pub fn lanes_over<H: PostHook + Drop>(
    alloc: Global,
    takes: Vec<TakeEnd>,
    hooks: Vec<H>,
) -> Result<Vec<Lane<H>>, NoMemory>
    requires taken { All (λ e. e.taken ≡ []) takes.items }
    requires new { All (λ h. H.is_sound h × (H.handed h ≡ [])) hooks.items }
    requires one_each { vec_len takes ≡ vec_len hooks }
    ensures count { IfOk result (λ v. vec_len v ≡ vec_len takes) }
    ensures lanes { IfOk result (λ v. EachAt (λ k l. (e : _) (h : _)
        → l ≡ lane_view k (slice_index_or takes.items k e).queue [] false
        (slice_index_or hooks.items k h)) v.items) }
{
    let mut lanes = Vec::with_capacity(alloc, takes.len())?;
    for (take_end, hook) in takes.into_iter().zip(hooks) {
        lanes.push_reserved(Lane::new(lanes.len() as u64, take_end, hook));
    }
    Ok(lanes)
}

/// The promise that a thread returns the end of this lane.
#[derive(Drop)]
pub struct OfLane<H: PostHook>(Snapshot<Lane<H>>);

impl<H: PostHook> Promise<LaneEnd<H>> for OfLane<H> {
    ghost kept_by = { λ p e. H.is_sound e.hook × (e.lane ≡ p.0.value.lane)
        × (e.take_end.queue ≡ p.0.value.queue) };
}

/// Starts a thread for each lane, and one that reports the state of the server, if somebody watches it. `AllocError` if
/// one can't be started. Those that were started then run until the board is closed.
pub fn start_each<
    's,
    E,
    B: Naming + Send + Sync,
    N: LaneNotices,
    H: PostHook + Drop + 's,
    T: Threads + Wait + Sync,
>(
    scope: &Scope<'s, E>,
    rt: &'s T,
    alloc: Global,
    runner: &'s Runner<'s, B, N>,
    lanes: Vec<Lane<H>>,
) -> Result<Vec<PromisedHandle<LaneEnd<H>, OfLane<H>>>, AllocError>
    requires { EachAt (λ k l. (l.lane ≡ k) × (l.queue ≡ B.queue k)) lanes.items }
    ensures count { IfOk result (λ v. vec_len v ≡ vec_len lanes) }
    ensures lanes { IfOk result (λ v. EachAt (λ k h. (h.promise.0.value.lane ≡ k)
        × (h.promise.0.value.queue ≡ B.queue k)) v.items) }
{
    start_saying(scope, rt, runner)?;
    let mut running = Vec::with_capacity(alloc, lanes.len())?;
    for lane in lanes {
        let promise = OfLane(Snapshot::of(&lane));
        running.push_reserved(scope.spawn_with(promise, move || runner.run(rt, lane))?);
    }
    Ok(running)
}

/// Closes the board, and waits until each lane has ended. `AllocError` if memory runs out.
pub fn end_all<B: Naming + Send + Sync, N: LaneNotices, H: PostHook + Drop, T: Threads + Wait>(
    rt: &T,
    runner: &Runner<'_, B, N>,
    running: Vec<PromisedHandle<LaneEnd<H>, OfLane<H>>>,
) -> Result<Vec<LaneEnd<H>>, AllocError>
    requires { EachAt (λ k h. (h.promise.0.value.lane ≡ k)
        × (h.promise.0.value.queue ≡ B.queue k)) running.items }
    ensures count { IfOk result (λ v. vec_len v ≡ vec_len running) }
    ensures ends { IfOk result (λ v. EachAt (λ k e. H.is_sound e.hook
        × (e.lane ≡ k) × (e.take_end.queue ≡ B.queue k)) v.items) }
{
    runner.close(rt);
    Ok(thread::join_promised(rt, running)?)
}
