//! Boards that cannot be finished at first: everything that was passed in is returned, and serves as before.
ghost use Rattle.std.specs.Prelude.{◌≡◌, All, [], IfOk, length};
ghost use Rattle.up_dispatch.specs.Free.{no_history};
ghost use Rattle.up_dispatch.specs.Parts.{IsNamed};

use crate::beside::{finished, list_of, open_board, run_beside, run_each};
use crate::board::{makes, seats_left};
use crate::fifteen::status_of;
use crate::requests::append;
use crate::same::expect_same;
use std::alloc::Global;
use std::marker::{Brand, Send, Sync};
use std::process::Abort;
use std::sync::Wait;
use std::sync::atomic::{AtomicU64, Ordering};
use std::test::Fail;
use std::thread::{Parker, Threads};
use std::time::Duration;
use up_dispatch::{
    Board, BoardParts, FinishFault, LaneReport, Naming, Report, Seat, Seated, Unfinished,
};
use up_events::{Event, Id};
use up_hooks::{Outcome, PostHook, Recorder};
use up_lanes::{How, Lane, LaneEnd, Refill};

/// A board as its lanes see it, and how often they fell asleep and woke.
#[derive(Drop)]
struct Watched<B: Naming> {
    board: Board<B>,
    asleep: AtomicU64,
    awake: AtomicU64,
}

impl<B: Naming> Watched<B> {
    fn new(board: Board<B>) -> Watched<B> {
        Watched {
            board,
            asleep: AtomicU64::new(0),
            awake: AtomicU64::new(0),
        }
    }

    /// How often a lane fell asleep, and how often one woke.
    fn counts(&self) -> (u64, u64) {
        (
            self.asleep.load(Ordering::SeqCst),
            self.awake.load(Ordering::SeqCst),
        )
    }

    /// Waits until these are the counts, for at most ten seconds, then for another twentieth of a second, and returns
    /// the counts.
    fn settled<R: Wait>(&self, rt: &R, wanted: (u64, u64)) -> (u64, u64) {
        let alarm = Parker::new();
        for _ in 0..10_000u32 {
            if self.counts() == wanted {
                break;
            }
            alarm.park_timeout(rt, Duration::from_millis(1));
        }
        alarm.park_timeout(rt, Duration::from_millis(50));
        self.counts()
    }
}

impl<B: Naming + Send + Sync> Refill for Watched<B> {
    fn refill<R: Wait>(&self, rt: &R, lane: u64) {
        self.board.refill(rt, lane);
    }

    fn wait<R: Wait>(&self, rt: &R, lane: u64, taken: u64) {
        self.asleep.fetch_add(1, Ordering::SeqCst);
        self.board.wait(rt, lane, taken);
        self.awake.fetch_add(1, Ordering::SeqCst);
    }
}

/// What comes back from a board that cannot be finished for this reason.
fn refused<B: Naming, H: PostHook + Drop, R: Abort>(
    rt: &R,
    alloc: Global,
    board: Board<B>,
    seats: Vec<Seat<B>>,
    ends: Vec<LaneEnd<H>>,
    fault: FinishFault,
) -> Result<Unfinished<Board<B>, B, H>, Fail>
    requires own { All (λ e. e.take_end.queue ≡ B.queue e.lane) ends.items }
    ensures back { IfOk result (λ u. (u.seats ≡ seats) × (u.lanes ≡ ends)) }
{
    match board.finish(alloc, seats, ends) {
        Ok(_) => Err("a seat or a lane is out".into()),
        Err(unfinished) => {
            expect_same(rt, &unfinished.fault, &fault);
            Ok(unfinished)
        }
    }
}

/// Appends a byte to the upload 1 once both lanes sleep, and waits until its lane was woken and sleeps again.
fn wakes<B: Naming, R: Wait + Abort>(
    rt: &R,
    alloc: Global,
    watched: &Watched<B>,
    mut seat: Seat<B>,
) -> Seat<B>
    requires free { B.history ≡ no_history }
{
    expect_same(rt, &watched.settled(rt, (2, 0)), &(2, 0));
    let request = append(alloc, Id::new(1), 0, b"a").expect(rt, "memory");
    let mut keeper = Seated::new(rt, &watched.board, &mut seat);
    expect_same(
        rt,
        &status_of(alloc, &mut keeper, request, Id::new(0)),
        &204,
    );
    expect_same(rt, &watched.settled(rt, (3, 1)), &(3, 1));
    seat
}

/// A board that is returned because a seat is out.
fn returned<B: Naming, H: PostHook + Drop, R: Abort>(
    rt: &R,
    alloc: Global,
    board: Board<B>,
) -> Result<Board<B>, Fail> {
    let ends: Vec<LaneEnd<H>> = Vec::new(alloc);
    let Unfinished { board, .. } = refused(
        rt,
        alloc,
        board,
        Vec::new(alloc),
        ends,
        FinishFault::SeatsOut,
    )?;
    Ok(board)
}

/// The report of a board of which two seats were taken, once they and all of its lanes are back.
fn both_back<B: Naming, H: PostHook + Drop, R: Wait + Abort>(
    rt: &R,
    alloc: Global,
    board: Board<B>,
    first: Seat<B>,
    second: Seat<B>,
    ends: Vec<LaneEnd<H>>,
) -> Report<H>
    requires own { All (λ e. e.take_end.queue ≡ B.queue e.lane) ends.items }
{
    expect_same(rt, &seats_left(rt, &board), &65_534);
    let seats = list_of(alloc, first, second).expect(rt, "memory");
    finished(rt, alloc, board, seats, ends)
}

/// The report of a board with one seat out, whose lanes run until they were woken by a change from another seat.
fn woken<B: Naming + Send + Sync, H: PostHook + Drop, R: Threads + Wait + Abort + Sync>(
    rt: &R,
    alloc: Global,
    board: Board<B>,
    first: Seat<B>,
    lanes: Vec<Lane<H>>,
) -> Report<H>
    requires own { All (λ l. l.queue ≡ B.queue l.lane) lanes.items }
    requires free { B.history ≡ no_history }
{
    let second = board.seat(rt).expect(rt, "another seat");
    let watched = Watched::new(board);
    let shared = &watched;
    let (second, ends) = run_beside(
        rt,
        &shared.board,
        shared,
        lanes,
        || -> Seat<B>
            requires { B.history ≡ no_history }
        { wakes(rt, alloc, shared, second) },
    );
    both_back(rt, alloc, watched.board, first, second, ends)
}

/// The report of a board that was returned once, after an upload of one byte was created, and whose lanes have run
/// since.
fn came_back<B: Naming + Send + Sync, H: PostHook + Drop, R: Threads + Wait + Abort + Sync>(
    rt: &R,
    alloc: Global,
    parts: BoardParts,
    hooks: (H, H),
) -> Result<Report<H>, Fail>
    requires named { IsNamed B.name B.parts B.queue B.lanes parts }
    requires lanes { length parts.queues ≡ 2 }
    requires sized { B.max_size ≡ 1048576 }
    requires first { H.is_sound hooks.0 × (H.handed hooks.0 ≡ []) }
    requires second { H.is_sound hooks.1 × (H.handed hooks.1 ≡ []) }
    requires free { B.history ≡ no_history }
{
    let (board, lanes) = open_board::<B, H, R>(rt, alloc, parts, hooks, true);
    let mut first = board.seat(rt).expect(rt, "a seat");
    expect_same(rt, &makes(rt, alloc, &board, &mut first, 1, 1), &None);
    let board = returned::<B, H, R>(rt, alloc, board)?;
    Ok(woken(rt, alloc, board, first, lanes))
}

/// The lane, how it ended, the number of events left, and the number handed over.
fn told<F>(lane: &LaneReport<Recorder<F>>) -> (u64, How, u64, usize) {
    (lane.lane, lane.how, lane.left, lane.hook.list().len())
}

/// Checks that this number of changes was accepted, and that the lanes are drained after they handed over these numbers
/// of events.
fn hold<F>(rt: &impl Abort, report: &Report<Recorder<F>>, accepted: u64, handed: [usize; 2]) {
    let [first, second] = report.lanes.as_slice() else {
        rt.panic("not two lanes");
    };
    expect_same(rt, &report.accepted.len(), &accepted);
    expect_same(rt, &told(first), &(0, How::Drained, 0, handed[0]));
    expect_same(rt, &told(second), &(1, How::Drained, 0, handed[1]));
}

#[test]
fn a_board_that_came_back_wakes_its_lanes(rt: HostRuntime) -> Result<(), Fail> {
    let parts = BoardParts::new(rt.alloc(), 2, 1).expect(&rt, "memory");
    let done = |_: &Event| Outcome::Done;
    let hooks = (
        Recorder::new(rt.alloc(), done),
        Recorder::new(rt.alloc(), done),
    );
    let report = came_back::<Brand, _, _>(&rt, rt.alloc(), parts, hooks)?;
    hold(&rt, &report, 2, [0, 3]);
    Ok(())
}

/// The report of a board that comes back if the second of its two lanes is missing.
fn two_lanes<B: Naming, H: PostHook + Drop, R: Abort>(
    rt: &R,
    alloc: Global,
    board: Board<B>,
    seats: Vec<Seat<B>>,
    mut ends: Vec<LaneEnd<H>>,
) -> Result<Report<H>, Fail>
    requires own { All (λ e. e.take_end.queue ≡ B.queue e.lane) ends.items }
{
    let Some(missing) = ends.pop() else {
        return Err("two lanes".into());
    };
    let mut back = refused(rt, alloc, board, seats, ends, FinishFault::LanesOut)?;
    expect_same(rt, &(back.seats.len(), back.lanes.len()), &(2, 1));
    back.lanes.push(missing)?;
    Ok(finished(rt, alloc, back.board, back.seats, back.lanes))
}

/// The report of a board on which an upload was created from each of two seats, and that comes back if the second seat
/// is missing.
fn two_seats<B: Naming, H: PostHook + Drop, R: Abort>(
    rt: &R,
    alloc: Global,
    board: Board<B>,
    missing: Seat<B>,
    seats: Vec<Seat<B>>,
    ends: Vec<LaneEnd<H>>,
) -> Result<Report<H>, Fail>
    requires own { All (λ e. e.take_end.queue ≡ B.queue e.lane) ends.items }
{
    let mut back = refused(rt, alloc, board, seats, ends, FinishFault::SeatsOut)?;
    expect_same(rt, &(back.seats.len(), back.lanes.len()), &(1, 2));
    back.seats.push(missing)?;
    two_lanes(rt, alloc, back.board, back.seats, back.lanes)
}

/// Two seats of the board from each of which an upload of one byte was created: the second, and a list of the first.
fn makers<B: Naming, R: Wait + Abort>(
    rt: &R,
    alloc: Global,
    board: &Board<B>,
) -> (Seat<B>, Vec<Seat<B>>)
    requires free { B.history ≡ no_history }
{
    let mut first = board.seat(rt).expect(rt, "a seat");
    let mut second = board.seat(rt).expect(rt, "another seat");
    expect_same(rt, &makes(rt, alloc, board, &mut first, 1, 1), &None);
    expect_same(rt, &makes(rt, alloc, board, &mut second, 2, 1), &None);
    let mut seats = Vec::new(alloc);
    seats.push(first).expect(rt, "memory");
    (second, seats)
}

/// That report if the lanes run after the board was closed.
fn each_missing<B: Naming + Send + Sync, H: PostHook + Drop, R: Threads + Wait + Abort + Sync>(
    rt: &R,
    alloc: Global,
    parts: BoardParts,
    hooks: (H, H),
) -> Result<Report<H>, Fail>
    requires named { IsNamed B.name B.parts B.queue B.lanes parts }
    requires lanes { length parts.queues ≡ 2 }
    requires sized { B.max_size ≡ 1048576 }
    requires first { H.is_sound hooks.0 × (H.handed hooks.0 ≡ []) }
    requires second { H.is_sound hooks.1 × (H.handed hooks.1 ≡ []) }
    requires free { B.history ≡ no_history }
{
    let (board, lanes) = open_board::<B, _, _>(rt, alloc, parts, hooks, true);
    let (second, seats) = makers(rt, alloc, &board);
    board.close(rt);
    let ends = run_each(rt, &board, &board, lanes).expect(rt, "memory");
    two_seats(rt, alloc, board, second, seats, ends)
}

#[test]
fn all_comes_back_where_a_seat_or_a_lane_is_missing(rt: HostRuntime) -> Result<(), Fail> {
    let parts = BoardParts::new(rt.alloc(), 2, 1).expect(&rt, "memory");
    let done = |_: &Event| Outcome::Done;
    let hooks = (
        Recorder::new(rt.alloc(), done),
        Recorder::new(rt.alloc(), done),
    );
    let report = each_missing::<Brand, _, _>(&rt, rt.alloc(), parts, hooks)?;
    hold(&rt, &report, 2, [1, 1]);
    Ok(())
}
