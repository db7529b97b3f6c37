//! Lanes that run while something else is done.
ghost use Rattle.std.specs.Prelude.{◌≡◌, IfOk, vec_len};
ghost use Rattle.up_dispatch.specs.Lists.{EachAt};

use crate::lane_notices::LaneNotices;
use crate::lanes::{end_all, start_each};
use crate::runner::Runner;
use std::alloc::{AllocError, Global};
use std::marker::{Send, Sync};
use std::sync::Wait;
use std::thread;
use std::thread::Threads;
use up_dispatch::Naming;
use up_hooks::PostHook;
use up_lanes::{Lane, LaneEnd};

/// Runs the lanes in threads of their own while the work is done, and a thread that reports the state of the server, if
/// somebody watches it. Then closes the board and waits for the lanes. The board is closed even if a lane can't be
/// started, and then nothing is done.
pub fn run_beside<
    'x,
    B: Naming + Send + Sync,
    H: PostHook + Drop,
    N: LaneNotices,
    T: Threads + Wait + Sync,
    F: FnOnce() -> X + Drop,
    X: Drop,
>(
    rt: &'x T,
    alloc: Global,
    runner: &'x Runner<'x, B, N>,
    lanes: Vec<Lane<H>>,
    work: F,
) -> Result<(X, Vec<LaneEnd<H>>), AllocError>
    requires callable { F.pre work }
    requires lanes { EachAt (λ k l. (l.lane ≡ k) × (l.queue ≡ B.queue k)) lanes.items }
    ensures done { IfOk result (λ r. F.post work r.0) }
    ensures count { IfOk result (λ r. vec_len r.1 ≡ vec_len lanes) }
    ensures ends { IfOk result (λ r. EachAt (λ k e. H.is_sound e.hook
        × (e.lane ≡ k) × (e.take_end.queue ≡ B.queue k)) r.1.items) }
{
    thread::scope(
        thread::scope_env(),
        rt,
        move |scope| -> Result<(X, Vec<LaneEnd<H>>), AllocError>
            requires callable { F.pre work }
            requires lanes { EachAt (λ k l. (l.lane ≡ k) × (l.queue ≡ B.queue k)) lanes.items }
            ensures done { IfOk result (λ r. F.post work r.0) }
            ensures count { IfOk result (λ r. vec_len r.1 ≡ vec_len lanes) }
            ensures ends { IfOk result (λ r. EachAt (λ k e. H.is_sound e.hook
                × (e.lane ≡ k) × (e.take_end.queue ≡ B.queue k)) r.1.items) }
        {
            let running = match start_each(scope, rt, alloc, runner, lanes) {
                Ok(running) => running,
                Err(error) => {
                    runner.close(rt);
                    return Err(error);
                }
            };
            let done = work();
            let ends = end_all(rt, runner, running)?;
            Ok((done, ends))
        },
    )
}
