//! One conversation on a new board, with each lane in a thread of its own.
ghost use Rattle.std.specs.Prelude.{◌≡◌, ◌∷◌, IfOk, vec_len, [], length, sum, All};
ghost use Rattle.up_hooks.specs.MayAnswer.{ClosuresMayAnswer};
ghost use Rattle.up_dispatch.specs.Free.{no_history};
ghost use Rattle.up_dispatch.specs.Lists.{EachAt};
ghost use Rattle.up_dispatch.specs.Parts.{IsNamed};
ghost use Rattle.up_server.specs.Seats.{IsServedFrom};
ghost use Rattle.up_server.specs.Run.{IsServedRun};

use crate::beside::run_beside;
use crate::boards;
use crate::hooks::Hooks;
use crate::lane_notices::Nobody;
use crate::runner::Runner;
use crate::served::Served;
use std::alloc::{AllocError, Global};
use std::marker::{Send, Sync};
use std::sync::Wait;
use std::thread::Threads;
use up_dispatch::{Board, BoardParts, Counting, Ended, Exchange, Naming, Seat, converse_at};
use up_events::NoMemory;
use up_hooks::{PostHook, PreHooks};
use up_lanes::{Lane, LaneEnd};
use up_wire::{Sink, Source};
use up_words::Settings;

/// How a conversation ended, the only seat, from which it was served, and how each lane ended.
#[derive(Drop)]
struct Driven<B: Naming, H: PostHook> {
    ended: Ended,
    seats: Vec<Seat<B>>,
    lanes: Vec<LaneEnd<H>>,
}

/// An exchange over these.
fn exchange_of<'x, R: Source, W: Sink>(
    ids: &'x mut Counting,
    source: &'x mut R,
    sink: &'x mut W,
) -> Exchange<'x, Counting, R, W>
    ensures same_ids { result.ids.ghost_name ≡ ids.entry.ghost_name }
    ensures same_source { result.source.ghost_name ≡ source.entry.ghost_name }
    ensures same_sink { result.sink.ghost_name ≡ sink.entry.ghost_name }
    ensures ids { result.ids.now ≡ ids.old }
    ensures source { result.source.now ≡ source.old }
    ensures sink { result.sink.now ≡ sink.old }
{
    Exchange {
        ids,
        source,
        sink,
        client: None,
    }
}

/// Serves one conversation from a seat, its ids counted from 1.
fn converse_from<B: Naming, R: Source, W: Sink, T: Wait>(
    rt: &T,
    alloc: Global,
    board: &Board<B>,
    seat: &mut Seat<B>,
    hooks: &PreHooks,
    source: &mut R,
    sink: &mut W,
) -> Ended
    requires free { B.history ≡ no_history }
    ensures served { IsServedFrom
        B.queue B.lanes (ClosuresMayAnswer hooks.now) B.max_size seat.old seat.new
        (R.device source.old) (R.device source.new)
        (W.device sink.old) (W.device sink.new) result }
{
    let mut ids = Counting::new();
    let mut exchange = exchange_of(&mut ids, source, sink);
    converse_at(rt, alloc, board, seat, hooks, &mut exchange)
}

/// For the prover: what was lent to a closure and came out of it goes back unchanged.
fn give_back<X>(_lent: &mut X)
    ensures { _lent.new ≡ _lent.old }
{}

/// A vector of one item. `AllocError` if memory runs out.
fn only<X: Drop>(alloc: Global, item: X) -> Result<Vec<X>, AllocError>
    ensures { IfOk result (λ v. v.items ≡ item ∷ []) }
{
    let mut items = Vec::with_capacity(alloc, 1)?;
    items.push_reserved(item);
    Ok(items)
}

/// Serves one conversation from a seat of the board while the lanes run in threads of their own, and then closes the
/// board.
fn drive<B: Naming + Send + Sync, H: PostHook + Drop, R: Source, W: Sink, T: Threads + Wait + Sync>(
    rt: &T,
    alloc: Global,
    board: &Board<B>,
    lanes: Vec<Lane<H>>,
    hooks: &PreHooks,
    source: &mut R,
    sink: &mut W,
) -> Result<Driven<B, H>, NoMemory>
    requires free { B.history ≡ no_history }
    requires lanes { EachAt (λ k l. (l.lane ≡ k) × (l.queue ≡ B.queue k)) lanes.items }
    ensures count { IfOk result (λ d. vec_len d.lanes ≡ vec_len lanes) }
    ensures ends { IfOk result (λ d. EachAt (λ k e. H.is_sound e.hook
        × (e.lane ≡ k) × (e.take_end.queue ≡ B.queue k)) d.lanes.items) }
    ensures served { IfOk result (λ d. IsServedFrom
        B.queue B.lanes (ClosuresMayAnswer hooks.now) B.max_size 0 (sum d.seats.items)
        (R.device source.old) (R.device source.new)
        (W.device sink.old) (W.device sink.new) d.ended) }
{
    let Some(seat) = board.seat(rt) else {
        return Err(NoMemory);
    };
    let runner = Runner::<B, Nobody>::new(board);
    let ((ended, seat, source, sink), lanes) = run_beside(
        rt,
        alloc,
        &runner,
        lanes,
        move || -> (Ended, Seat<B>, &mut R, &mut W)
            requires free { B.history ≡ no_history }
            ensures same_source { result.2.ghost_name ≡ source.entry.ghost_name }
            ensures same_sink { result.3.ghost_name ≡ sink.entry.ghost_name }
            ensures served { IsServedFrom
                B.queue B.lanes (ClosuresMayAnswer hooks.entry.now) B.max_size seat result.1
                (R.device source.entry.now) (R.device result.2.now)
                (W.device sink.entry.now) (W.device result.3.now) result.0 }
        {
            let mut seat = seat;
            let ended = converse_from(rt, alloc, board, &mut seat, hooks, source, sink);
            (ended, seat, source, sink)
        },
    )?;
    give_back(source);
    give_back(sink);
    let seats = only(alloc, seat)?;
    Ok(Driven {
        ended,
        seats,
        lanes,
    })
}

/// Serves one conversation from the only seat of a new board of these parts, ends its lanes and reports.
pub fn run<
    B: Naming + Send + Sync,
    H: PostHook + Drop,
    R: Source,
    W: Sink,
    T: Threads + Wait + Sync,
>(
    rt: &T,
    alloc: Global,
    parts: BoardParts,
    hooks: Hooks<H>,
    settings: &Settings,
    source: &mut R,
    sink: &mut W,
) -> Result<Served<H>, NoMemory>
    requires named { IsNamed B.name B.parts B.queue B.lanes parts }
    requires free { B.history ≡ no_history }
    requires lanes { settings.now.lanes ≡ B.lanes }
    requires sized { settings.now.max_size ≡ B.max_size }
    requires one_for_each { vec_len hooks.post ≡ settings.now.lanes }
    requires new { All (λ h. H.is_sound h × (H.handed h ≡ [])) hooks.post.items }
    ensures run { IfOk result (λ served. IsServedRun
        H.handed B.queue (ClosuresMayAnswer hooks.pre) settings.now served
        (R.device source.old) (R.device source.new) (W.device sink.old) (W.device sink.new)) }
    ensures sound { IfOk result (λ served. All (λ x. H.is_sound x.hook) served.report.lanes.items) }
{
    let Hooks { pre, post } = hooks;
    let (board, lanes) = boards::open::<B, _>(alloc, parts, post, settings)?;
    let Driven {
        ended,
        seats,
        lanes,
    } = drive(rt, alloc, &board, lanes, &pre, source, sink)?;
    let report = boards::finish(alloc, board, seats, lanes)?;
    Ok(Served { report, ended })
}
