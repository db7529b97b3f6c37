//! A board with its lanes: how it begins, and how it ends.
ghost use Rattle.std.specs.Prelude.{◌≡◌, All, IfOk, vec_len, [], length, sum};
ghost use Rattle.up_dispatch.specs.Lists.{EachAt};
ghost use Rattle.up_dispatch.specs.Parts.{IsNamed};
ghost use Rattle.up_server.specs.Reported.{IsReportOf, AreSettled};

use crate::lanes::lanes_over;
use std::alloc::Global;
use up_dispatch::{Board, BoardParts, Naming, Report, Seat};
use up_events::NoMemory;
use up_hooks::PostHook;
use up_lanes::{Lane, LaneEnd};
use up_words::Settings;

/// A new board of these parts, with these settings, which counts the changes but does not keep them, and a lane over
/// each of its queues, with the post-hook at the same place. `NoMemory` if memory runs out.
pub fn open<B: Naming, H: PostHook + Drop>(
    alloc: Global,
    parts: BoardParts,
    post_hooks: Vec<H>,
    settings: &Settings,
) -> Result<(Board<B>, Vec<Lane<H>>), NoMemory>
    requires named { IsNamed B.name B.parts B.queue B.lanes parts }
    requires lanes { settings.now.lanes ≡ B.lanes }
    requires sized { settings.now.max_size ≡ B.max_size }
    requires one_for_each { vec_len post_hooks ≡ settings.now.lanes }
    requires new { All (λ h. H.is_sound h × (H.handed h ≡ [])) post_hooks.items }
    ensures count { IfOk result (λ r. vec_len r.1 ≡ settings.now.lanes) }
    ensures lanes { IfOk result (λ r.
        EachAt (λ k l. (l.lane ≡ k) × (l.queue ≡ B.queue k)) r.1.items) }
{
    let (board, takes) = Board::<B>::forgetting(alloc, parts, settings.max_size)?;
    let describes = post_hooks.iter().any(|hook| hook.needs_details());
    let board = if describes {
        board.describing(alloc)?
    } else {
        board
    };
    let lanes = lanes_over(alloc, takes, post_hooks)?;
    Ok((board, lanes))
}

/// Ends the board, and reports. The error is that memory ran out, or that a seat is missing from which changes were
/// made.
pub fn finish<B: Naming, H: PostHook + Drop>(
    alloc: Global,
    board: Board<B>,
    seats: Vec<Seat<B>>,
    ends: Vec<LaneEnd<H>>,
) -> Result<Report<H>, NoMemory>
    requires ends { EachAt
        (λ k e. H.is_sound e.hook × (e.lane ≡ k) × (e.take_end.queue ≡ B.queue k)) ends.items }
    ensures counts { IfOk result (λ r. length r.accepted.items ≡ sum seats.items) }
    ensures report { IfOk result (λ r. IsReportOf H.handed (vec_len ends) r) }
    ensures sound { IfOk result (λ r. All (λ x. H.is_sound x.hook) r.lanes.items) }
    ensures settled { IfOk result (λ r. AreSettled H.is_settled r.lanes.items) }
{
    match board.finish(alloc, seats, ends) {
        Ok(report) => Ok(report),
        Err(_) => Err(NoMemory),
    }
}
