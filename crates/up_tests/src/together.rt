//! Boards of both kinds with several seats, until they are finished.
ghost use Rattle.std.specs.Prelude.{◌≡◌, [], length};
ghost use Rattle.up_dispatch.specs.Free.{no_history};
ghost use Rattle.up_dispatch.specs.Parts.{IsNamed};

use crate::beside::{finished, list_of, open_board, run_beside};
use crate::requests;
use crate::same::expect_same;
use std::alloc::Global;
use std::marker::{Brand, Send, Sync};
use std::process::Abort;
use std::sync::Wait;
use std::thread;
use std::thread::Threads;
use up_dispatch::{Board, BoardParts, Naming, Report, Seat};
use up_events::{Event, Hook, Id};
use up_hooks::{Outcome, PostHook, Recorder};
use up_lanes::How;
use up_machine::Asked;

/// The number of uploads.
const UPLOADS: usize = 10;

/// The number of changes from each seat.
const CHANGES: usize = 1_000;

/// Creates an upload whose length is declared later.
fn make<B: Naming, R: Wait>(rt: &R, alloc: Global, board: &Board<B>, seat: &mut Seat<B>, id: Id)
    requires free { B.history ≡ no_history }
{
    let request = requests::creation(alloc, None);
    let _ = board.commit(rt, alloc, seat, request, id, &Asked::Allowed);
}

/// Appends a byte at the offset, and returns whether it was accepted.
fn append<B: Naming, R: Wait>(
    rt: &R,
    alloc: Global,
    board: &Board<B>,
    seat: &mut Seat<B>,
    upload: usize,
    offset: u64,
) -> bool
    requires free { B.history ≡ no_history }
{
    let Ok(request) = requests::append(alloc, Id::new(upload as u128), offset, b"a") else {
        return false;
    };
    board
        .commit(rt, alloc, seat, request, Id::new(0), &Asked::Skipped)
        .is_ok()
}

/// Makes the changes, each to the next upload at its current end.
fn change<B: Naming, R: Wait>(rt: &R, alloc: Global, board: &Board<B>, mut seat: Seat<B>) -> Seat<B>
    requires free { B.history ≡ no_history }
{
    let mut ends = [0u64; UPLOADS];
    for turn in 0..CHANGES {
        let upload = turn % UPLOADS;
        for _ in 0..CHANGES {
            let offset = ends[upload];
            ends[upload] = offset.saturating_add(1);
            if append(rt, alloc, board, &mut seat, upload, offset) {
                break;
            }
        }
    }
    seat
}

/// Every event of each upload was handed over: its creation, and then one more byte each time.
fn tells_all<F, R: Abort>(rt: &R, report: &Report<Recorder<F>>) {
    expect_same(
        rt,
        &report.accepted.len(),
        &((UPLOADS + 2 * CHANGES) as u64),
    );
    let mut counts = [0u64; UPLOADS];
    for lane in &report.lanes {
        expect_same(rt, &(lane.how, lane.left), &(How::Drained, 0));
        for (event, _outcome) in lane.hook.list() {
            let upload = event.id.lane(UPLOADS as u64) as usize;
            let before = counts[upload];
            let hook = if before == 0 {
                Hook::Create
            } else {
                Hook::Receive
            };
            counts[upload] = before.saturating_add(1);
            let wanted = Event {
                id: event.id,
                number: counts[upload],
                hook,
                offset: before,
                length: None,
            };
            expect_same(rt, event, &wanted);
        }
    }
    expect_same(rt, &counts, &[201; UPLOADS]);
}

/// A seat from which the uploads were created, and two others.
fn seats_of<B: Naming, R: Wait + Abort>(
    rt: &R,
    alloc: Global,
    board: &Board<B>,
) -> (Seat<B>, Vec<Seat<B>>)
    requires free { B.history ≡ no_history }
{
    let mut maker = board.seat(rt).expect(rt, "a seat");
    let first = board.seat(rt).expect(rt, "a second seat");
    let second = board.seat(rt).expect(rt, "a third seat");
    let others = list_of(alloc, first, second).expect(rt, "memory");
    for upload in 0..UPLOADS {
        make(rt, alloc, board, &mut maker, Id::new(upload as u128));
    }
    (maker, others)
}

/// Makes the changes from each seat, in a thread of its own.
fn change_each<B: Naming + Send + Sync, R: Threads + Wait + Abort + Sync>(
    rt: &R,
    alloc: Global,
    board: &Board<B>,
    seats: Vec<Seat<B>>,
) -> Vec<Seat<B>>
    requires free { B.history ≡ no_history }
{
    thread::map_vec(
        rt,
        seats,
        &|seat: Seat<B>| -> Seat<B>
            requires { B.history ≡ no_history }
        { change(rt, alloc, board, seat) },
    )
    .expect(rt, "memory")
}

/// The report of a board of two lanes whose uploads are changed from two seats at once.
fn changed_at_once<B: Naming + Send + Sync, H: PostHook + Drop, R: Threads + Wait + Abort + Sync>(
    rt: &R,
    alloc: Global,
    parts: BoardParts,
    hooks: (H, H),
    keeps: bool,
) -> Report<H>
    requires named { IsNamed B.name B.parts B.queue B.lanes parts }
    requires lanes { length parts.queues ≡ 2 }
    requires sized { B.max_size ≡ 1048576 }
    requires first { H.is_sound hooks.0 × (H.handed hooks.0 ≡ []) }
    requires second { H.is_sound hooks.1 × (H.handed hooks.1 ≡ []) }
    requires free { B.history ≡ no_history }
{
    let (board, lanes) = open_board::<B, _, _>(rt, alloc, parts, hooks, keeps);
    let (maker, others) = seats_of(rt, alloc, &board);
    let shared = &board;
    let (mut seats, ends) = run_beside(
        rt,
        shared,
        shared,
        lanes,
        || -> Vec<Seat<B>>
            requires { B.history ≡ no_history }
        { change_each(rt, alloc, shared, others) },
    );
    seats.push(maker).expect(rt, "memory");
    finished(rt, alloc, board, seats, ends)
}

/// Checks that everything is reported about a board that is changed from two seats at once. A board that counts its
/// changes has no list of them. So only their number is compared, and each event that was handed over.
fn hold<R: Threads + Wait + Abort + Sync>(rt: &R, alloc: Global, keeps: bool) {
    let parts = BoardParts::new(alloc, 2, 4).expect(rt, "memory");
    let done = |_: &Event| Outcome::Done;
    let hooks = (Recorder::new(alloc, done), Recorder::new(alloc, done));
    let report = changed_at_once::<Brand, _, _>(rt, alloc, parts, hooks, keeps);
    expect_same(rt, &report.accepted.list().is_some(), &keeps);
    tells_all(rt, &report);
}

#[test]
fn two_seats_at_once(rt: HostRuntime) {
    hold(&rt, rt.alloc(), true);
}

#[test]
fn two_seats_of_a_board_that_counts(rt: HostRuntime) {
    hold(&rt, rt.alloc(), false);
}
