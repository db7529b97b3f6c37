//! Fifteen requests from a seat of a board whose queues have one place each. All of them get their response before any
//! lane takes an event, and every event is handed over afterwards.
ghost use Rattle.std.specs.Prelude.{◌≡◌, [], length};
ghost use Rattle.up_dispatch.specs.Free.{no_history};
ghost use Rattle.up_dispatch.specs.Parts.{IsNamed};
ghost use Rattle.up_events.specs.declared.limits.TheConstants.{MAX_UPLOAD_BYTES};
ghost use Rattle.up_headers.specs.Table.{FitsWithin};

use crate::beside::{finished_from, open_board, run_each};
use crate::requests::{append, creation};
use crate::same::expect_same;
use std::alloc::Global;
use std::marker::{Brand, Send, Sync};
use std::process::Abort;
use std::sync::Wait;
use std::thread::Threads;
use up_dispatch::{Board, BoardParts, Keeper, LaneReport, Naming, Report, Seat, Seated, answer};
use up_events::{Accepted, Event, Hook, Id, Kind};
use up_headers::Request;
use up_hooks::{Outcome, PostHook, PreHooks, Recorder};
use up_lanes::How;

/// The status of the response to a request if no closure is asked.
pub fn status_of<K: Keeper>(alloc: Global, keeper: &mut K, request: Request, id: Id) -> u16
    requires { FitsWithin MAX_UPLOAD_BYTES request }
{
    answer(alloc, keeper, &PreHooks::new(Vec::new(alloc)), request, id).status
}

/// Creates five uploads of two bytes, then appends a byte to each, and then the other byte to each.
fn fifteen<K: Keeper, R: Abort>(rt: &R, alloc: Global, keeper: &mut K) {
    for number in 1..6u8 {
        let id = Id::new(u128::from(number));
        let request = creation(alloc, Some(2));
        expect_same(rt, &status_of(alloc, keeper, request, id), &201);
    }
    for offset in 0..2u64 {
        for number in 1..6u8 {
            let request = append(alloc, Id::new(u128::from(number)), offset, b"a").expect(
                rt, "memory",
            );
            expect_same(rt, &status_of(alloc, keeper, request, Id::new(0)), &204);
        }
    }
}

/// A seat of the board from which these requests were made.
pub fn answered<B: Naming, R: Wait + Abort>(rt: &R, alloc: Global, board: &Board<B>) -> Seat<B>
    requires free { B.history ≡ no_history }
{
    let mut seat = board.seat(rt).expect(rt, "a seat");
    fifteen(rt, alloc, &mut Seated::new(rt, board, &mut seat));
    seat
}

fn made(id: u128) -> Accepted {
    Accepted::Created {
        id: Id::new(id),
        length: Some(2),
        kind: Kind::Plain,
    }
}

fn grown(id: u128) -> Accepted {
    Accepted::Appended {
        id: Id::new(id),
        count: 1,
    }
}

/// The accepted changes of these requests.
fn changes() -> [Accepted; 15] {
    [
        made(1),
        made(2),
        made(3),
        made(4),
        made(5),
        grown(1),
        grown(2),
        grown(3),
        grown(4),
        grown(5),
        grown(1),
        grown(2),
        grown(3),
        grown(4),
        grown(5),
    ]
}

fn event(id: u128, number: u64, hook: Hook, offset: u64) -> Event {
    Event {
        id: Id::new(id),
        number,
        hook,
        offset,
        length: Some(2),
    }
}

/// The events that lane 0 must be handed: those of the uploads 2 and 4.
pub fn events_of_lane_0() -> [Event; 8] {
    [
        event(2, 1, Hook::Create, 0),
        event(4, 1, Hook::Create, 0),
        event(2, 2, Hook::Receive, 1),
        event(4, 2, Hook::Receive, 1),
        event(2, 3, Hook::Receive, 2),
        event(2, 4, Hook::Finish, 2),
        event(4, 3, Hook::Receive, 2),
        event(4, 4, Hook::Finish, 2),
    ]
}

/// The events that lane 1 must be handed: those of the uploads 1, 3 and 5.
fn events_of_lane_1() -> [Event; 12] {
    [
        event(1, 1, Hook::Create, 0),
        event(3, 1, Hook::Create, 0),
        event(5, 1, Hook::Create, 0),
        event(1, 2, Hook::Receive, 1),
        event(3, 2, Hook::Receive, 1),
        event(5, 2, Hook::Receive, 1),
        event(1, 3, Hook::Receive, 2),
        event(1, 4, Hook::Finish, 2),
        event(3, 3, Hook::Receive, 2),
        event(3, 4, Hook::Finish, 2),
        event(5, 3, Hook::Receive, 2),
        event(5, 4, Hook::Finish, 2),
    ]
}

/// The report of a board that is closed twice after the fifteen requests, and whose two lanes only then run.
fn crowded<B: Naming + Send + Sync, H: PostHook + Drop, R: Threads + Wait + Abort + Sync>(
    rt: &R,
    alloc: Global,
    parts: BoardParts,
    hooks: (H, H),
) -> Report<H>
    requires named { IsNamed B.name B.parts B.queue B.lanes parts }
    requires lanes { length parts.queues ≡ 2 }
    requires sized { B.max_size ≡ 1048576 }
    requires first { H.is_sound hooks.0 × (H.handed hooks.0 ≡ []) }
    requires second { H.is_sound hooks.1 × (H.handed hooks.1 ≡ []) }
    requires free { B.history ≡ no_history }
{
    let (board, lanes) = open_board::<B, _, _>(rt, alloc, parts, hooks, true);
    let seat = answered(rt, alloc, &board);
    board.close(rt);
    board.close(rt);
    let ends = run_each(rt, &board, &board, lanes).expect(rt, "memory");
    finished_from(rt, alloc, board, seat, ends)
}

/// Checks that a lane is drained, and that its post-hook was handed these events and returned `Done` for each.
fn hold_lane<F, R: Abort>(rt: &R, lane: &LaneReport<Recorder<F>>, number: u64, events: &[Event]) {
    let list = lane.hook.list();
    expect_same(
        rt,
        &(lane.lane, lane.how, lane.left, list.len()),
        &(number, How::Drained, 0, events.len()),
    );
    for (pair, event) in list.iter().zip(events) {
        expect_same(rt, pair, &(*event, Outcome::Done));
    }
}

/// Checks that a report is that of the fifteen requests.
fn hold<F, R: Abort>(rt: &R, report: &Report<Recorder<F>>) {
    let (Some(accepted), [first, second]) = (report.accepted.list(), report.lanes.as_slice()) else {
        rt.panic("no changes that are kept, or not two lanes");
    };
    expect_same(rt, &accepted, &changes().as_slice());
    hold_lane(rt, first, 0, &events_of_lane_0());
    hold_lane(rt, second, 1, &events_of_lane_1());
}

#[test]
fn answers_before_any_lane_takes(rt: HostRuntime) {
    let parts = BoardParts::new(rt.alloc(), 2, 1).expect(&rt, "memory");
    let done = |_: &Event| Outcome::Done;
    let hooks = (
        Recorder::new(rt.alloc(), done),
        Recorder::new(rt.alloc(), done),
    );
    let report = crowded::<Brand, _, _>(&rt, rt.alloc(), parts, hooks);
    hold(&rt, &report);
}
