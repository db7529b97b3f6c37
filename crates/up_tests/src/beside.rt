//! Running the lanes of a board's queues while something else is done.
ghost use Rattle.std.specs.Prelude.{◌≡◌, ◌∷◌, All, [], IfOk, length};
ghost use Rattle.up_dispatch.specs.Lists.{EachAt};
ghost use Rattle.up_dispatch.specs.Parts.{IsNamed};

use std::alloc::{AllocError, Global};
use std::marker::{Send, Sync};
use std::process::Abort;
use std::sync::Wait;
use std::thread;
use std::thread::Threads;
use up_dispatch::{Board, BoardParts, Naming, Report, Seat};
use up_events::NoMemory;
use up_hooks::PostHook;
use up_lanes::{Lane, LaneEnd, Refill};
use up_queue::TakeEnd;

/// A new board with these parts, which have two queues. It keeps the accepted changes if `keeps`, and otherwise counts
/// them.
fn new_board<B: Naming>(
    alloc: Global,
    parts: BoardParts,
    keeps: bool,
) -> Result<(Board<B>, Vec<TakeEnd>), NoMemory>
    requires named { IsNamed B.name B.parts B.queue B.lanes parts }
    requires lanes { length parts.queues ≡ 2 }
    requires sized { B.max_size ≡ 1048576 }
    ensures ends { IfOk result (λ r. (length r.1.items ≡ length parts.queues)
        × EachAt (λ k e. (e.taken ≡ []) × (e.queue ≡ B.queue k)) r.1.items) }
{
    if keeps {
        Board::new(alloc, parts, 1_048_576)
    } else {
        Board::forgetting(alloc, parts, 1_048_576)
    }
}

/// The two lanes of a board, each with a post-hook.
fn lanes_of<B: Naming, H: PostHook + Drop>(
    mut takes: Vec<TakeEnd>,
    hooks: (H, H),
) -> (Lane<H>, Lane<H>)
    requires two { length takes.items ≡ 2 }
    requires ends { EachAt (λ k e. (e.taken ≡ []) × (e.queue ≡ B.queue k)) takes.items }
    requires first { H.is_sound hooks.0 × (H.handed hooks.0 ≡ []) }
    requires second { H.is_sound hooks.1 × (H.handed hooks.1 ≡ []) }
    ensures even { result.0.queue ≡ B.queue result.0.lane }
    ensures odd { result.1.queue ≡ B.queue result.1.lane }
{
    let (odd, even) = (takes.pop().unwrap(), takes.pop().unwrap());
    (Lane::new(0, even, hooks.0), Lane::new(1, odd, hooks.1))
}

/// A list of these two values, in this order.
pub fn list_of<T: Drop>(alloc: Global, first: T, second: T) -> Result<Vec<T>, AllocError>
    ensures { IfOk result (λ v. v.items ≡ first ∷ second ∷ []) }
{
    let mut list = Vec::new(alloc);
    list.push(first)?;
    list.push(second)?;
    Ok(list)
}

/// A new board with these parts, which have two queues, and a lane with a post-hook for each queue. The board keeps the
/// accepted changes if `keeps`, and otherwise counts them.
pub fn open_board<B: Naming, H: PostHook + Drop, R: Abort>(
    rt: &R,
    alloc: Global,
    parts: BoardParts,
    hooks: (H, H),
    keeps: bool,
) -> (Board<B>, Vec<Lane<H>>)
    requires named { IsNamed B.name B.parts B.queue B.lanes parts }
    requires lanes { length parts.queues ≡ 2 }
    requires sized { B.max_size ≡ 1048576 }
    requires first { H.is_sound hooks.0 × (H.handed hooks.0 ≡ []) }
    requires second { H.is_sound hooks.1 × (H.handed hooks.1 ≡ []) }
    ensures own { All (λ l. l.queue ≡ B.queue l.lane) result.1.items }
{
    let (board, takes) = new_board::<B>(alloc, parts, keeps).expect(rt, "memory");
    let (even, odd) = lanes_of::<B, H>(takes, hooks);
    (board, list_of(alloc, even, odd).expect(rt, "memory"))
}

/// Runs each lane of a board to its end, in a thread of its own. The lanes call `refill`, which is the board itself or
/// a wrapper of it.
pub fn run_each<B: Naming + Send + Sync, H: PostHook + Drop, R: Threads + Wait + Sync, L: Refill>(
    rt: &R,
    board: &Board<B>,
    refill: &L,
    lanes: Vec<Lane<H>>,
) -> Result<Vec<LaneEnd<H>>, AllocError>
    requires own { All (λ l. l.queue ≡ B.queue l.lane) lanes.items }
    ensures own { IfOk result (λ v. All (λ e. e.take_end.queue ≡ B.queue e.lane) v.items) }
{
    thread::map_vec(
        rt,
        lanes,
        &|lane: Lane<H>| -> LaneEnd<H>
            requires { lane.queue ≡ B.queue lane.lane }
            ensures { result.take_end.queue ≡ B.queue result.lane }
        {
            let _of = board;
            lane.run(rt, refill)
        },
    )
}

/// Runs each lane in a thread of its own while the work is done, and then closes the board. Returns the result of the
/// work, and how the lanes ended.
pub fn run_beside<
    B: Naming + Send + Sync,
    H: PostHook + Drop,
    R: Threads + Wait + Abort + Sync,
    L: Refill,
    F: FnOnce() -> T + Send,
    T: Send + Drop,
>(rt: &R, board: &Board<B>, refill: &L, lanes: Vec<Lane<H>>, work: F) -> (T, Vec<LaneEnd<H>>)
    requires callable { F.pre work }
    requires own { All (λ l. l.queue ≡ B.queue l.lane) lanes.items }
    ensures own { All (λ e. e.take_end.queue ≡ B.queue e.lane) result.1.items }
{
    let (done, ends) = thread::join(
        rt,
        ||
            requires { F.pre work }
        {
            let done = work();
            board.close(rt);
            done
        },
        || -> Result<Vec<LaneEnd<H>>, AllocError>
            requires { All (λ l. l.queue ≡ B.queue l.lane) lanes.items }
            ensures { IfOk result (λ v. All (λ e. e.take_end.queue ≡ B.queue e.lane) v.items) }
        { run_each(rt, board, refill, lanes) },
    );
    (done, ends.expect(rt, "memory"))
}

/// The report of a board that is finished with all of its lanes, and with the seats from which it was changed.
pub fn finished<B: Naming, H: PostHook + Drop, R: Abort>(
    rt: &R,
    alloc: Global,
    board: Board<B>,
    seats: Vec<Seat<B>>,
    ends: Vec<LaneEnd<H>>,
) -> Report<H>
    requires own { All (λ e. e.take_end.queue ≡ B.queue e.lane) ends.items }
{
    match board.finish(alloc, seats, ends) {
        Ok(report) => report,
        Err(_) => rt.panic("a seat or a lane is out"),
    }
}

/// The report of such a board that was changed from one seat.
pub fn finished_from<B: Naming, H: PostHook + Drop, R: Abort>(
    rt: &R,
    alloc: Global,
    board: Board<B>,
    seat: Seat<B>,
    ends: Vec<LaneEnd<H>>,
) -> Report<H>
    requires own { All (λ e. e.take_end.queue ≡ B.queue e.lane) ends.items }
{
    let mut seats = Vec::new(alloc);
    seats.push(seat).expect(rt, "memory");
    finished(rt, alloc, board, seats, ends)
}
