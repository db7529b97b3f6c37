//! A board step by step, in one thread.
ghost use Rattle.std.specs.Prelude.{◌≡◌, length, All, []};
ghost use Rattle.up_dispatch.specs.Free.{no_history};
ghost use Rattle.up_dispatch.specs.Parts.{IsNamed};

use crate::fifteen::status_of;
use crate::requests::{append, creation};
use crate::same::expect_same;
use std::alloc::Global;
use std::marker::{Brand, Send};
use std::process::Abort;
use std::sync::Wait;
use up_dispatch::{Board, BoardParts, Keeper, MAX_SEATS, Naming, Seat, Seated};
use up_events::{Event, Id, NoMemory};
use up_headers::Request;
use up_hooks::{Outcome, PostHook, new_recorders};
use up_lanes::{Lane, Refill, StepEnd};
use up_machine::{Asked, Plan, Refusal};

/// Creates an upload from a seat, and returns why it was not created, if so.
pub fn makes<B: Naming, R: Wait>(
    rt: &R,
    alloc: Global,
    board: &Board<B>,
    seat: &mut Seat<B>,
    id: u8,
    length: u8,
) -> Option<Refusal>
    requires free { B.history ≡ no_history }
{
    let request = creation(alloc, Some(u64::from(length)));
    let id = Id::new(u128::from(id));
    let asked = if length == 0 {
        Asked::AllowedFinish
    } else {
        Asked::Allowed
    };
    board.commit(rt, alloc, seat, request, id, &asked).err()
}

/// Checks that the lane is handed the first of two events, and the other one after its queue is refilled. Closes the
/// board.
fn step_each<B: Naming + Send, H: PostHook + Drop, R: Wait + Abort>(
    rt: &R,
    board: &Board<B>,
    mut lane: Lane<H>,
) {
    let (first, second) = (lane.step(rt), lane.step(rt));
    board.refill(rt, 0);
    let third = lane.step(rt);
    board.close(rt);
    let last = lane.step(rt);
    expect_same(
        rt,
        &[first, second, third, last],
        &[
            StepEnd::Handed,
            StepEnd::Nothing,
            StepEnd::Handed,
            StepEnd::Ended,
        ],
    );
}

/// One lane with a queue that has one place.
fn stepped<B: Naming + Send, H: PostHook + Drop, R: Wait + Abort>(
    rt: &R,
    alloc: Global,
    parts: BoardParts,
    hooks: Vec<H>,
) -> Result<(), NoMemory>
    requires named { IsNamed B.name B.parts B.queue B.lanes parts }
    requires lanes { length parts.queues ≡ 1 }
    requires sized { B.max_size ≡ 1048576 }
    requires new { All (λ h. H.is_sound h × (H.handed h ≡ [])) hooks.items }
    requires free { B.history ≡ no_history }
{
    let (board, takes) = Board::<B>::new(alloc, parts, 1_048_576)?;
    let mut seat = board.seat(rt).expect(rt, "a seat");
    let mut keeper = Seated::new(rt, &board, &mut seat);
    let status = status_of(alloc, &mut keeper, creation(alloc, Some(0)), Id::new(1));
    expect_same(rt, &status, &201);
    for (take_end, hook) in takes.into_iter().zip(hooks) {
        step_each(rt, &board, Lane::new(0, take_end, hook));
    }
    expect_same(rt, &seat.count(), &1);
    Ok(())
}

#[test]
fn a_refill_moves_what_found_no_room(rt: HostRuntime) {
    let parts = BoardParts::new(rt.alloc(), 1, 1).expect(&rt, "memory");
    let hooks = new_recorders(rt.alloc(), 1, |_: &Event| Outcome::Done).expect(&rt, "memory");
    stepped::<Brand, _, _>(&rt, rt.alloc(), parts, hooks).expect(&rt, "memory");
}

/// The plan of a request: the status of its response, if there is one already, or why the request is refused.
fn planned<B: Naming, R: Wait>(
    rt: &R,
    alloc: Global,
    board: &Board<B>,
    seat: &mut Seat<B>,
    request: &Request,
) -> Result<Option<u16>, Refusal> {
    match board.plan(rt, alloc, seat, request)? {
        Plan::Answer(response) => Ok(Some(response.status)),
        _ => Ok(None),
    }
}

/// Checks that a closed board with the upload 1 says that it is closed, and still shows the upload.
fn says_that_it_is_closed<B: Naming, R: Wait + Abort>(
    rt: &R,
    alloc: Global,
    board: &Board<B>,
    seat: &mut Seat<B>,
)
    requires free { B.history ≡ no_history }
{
    let append = append(alloc, Id::new(1), 0, b"abc").expect(rt, "memory");
    let made = makes(rt, alloc, board, seat, 2, 3);
    let appended = planned(rt, alloc, board, seat, &append);
    let shown = planned(rt, alloc, board, seat, &Request::Head(Id::new(1)));
    expect_same(
        rt,
        &(made, appended, shown),
        &(Some(Refusal::Closed), Err(Refusal::Closed), Ok(Some(200))),
    );
}

/// Checks that a closed board refuses requests to create another upload and to complete the upload 1, and still shows
/// the upload.
fn refuses<K: Keeper>(rt: &impl Abort, alloc: Global, keeper: &mut K) {
    let append = append(alloc, Id::new(1), 0, b"abc").expect(rt, "memory");
    let made = status_of(alloc, keeper, creation(alloc, Some(3)), Id::new(2));
    let appended = status_of(alloc, keeper, append, Id::new(0));
    let shown = status_of(alloc, keeper, Request::Head(Id::new(1)), Id::new(0));
    expect_same(rt, &[made, appended, shown], &[503, 503, 200]);
}

/// The number of seats that are left, if it is less than that of a board.
pub fn seats_left<B: Naming, R: Wait>(rt: &R, board: &Board<B>) -> u64 {
    for count in 0..MAX_SEATS {
        if board.seat(rt).is_none() {
            return count;
        }
    }
    MAX_SEATS
}

/// A board of two lanes that is closed when it has one upload, and all of its seats.
fn closed<B: Naming, R: Wait + Abort>(rt: &R, alloc: Global, parts: BoardParts)
    requires named { IsNamed B.name B.parts B.queue B.lanes parts }
    requires lanes { length parts.queues ≡ 2 }
    requires sized { B.max_size ≡ 3 }
    requires free { B.history ≡ no_history }
{
    let (board, takes) = Board::<B>::new(alloc, parts, 3).expect(rt, "memory");
    expect_same(rt, &takes.len(), &2);
    let mut seat = board.seat(rt).expect(rt, "a seat");
    expect_same(rt, &makes(rt, alloc, &board, &mut seat, 1, 3), &None);
    board.close(rt);
    says_that_it_is_closed(rt, alloc, &board, &mut seat);
    refuses(rt, alloc, &mut Seated::new(rt, &board, &mut seat));
    expect_same(rt, &seat.count(), &1);
    expect_same(rt, &seats_left(rt, &board), &65_535);
}

#[test]
fn a_closed_board_answers_and_changes_nothing(rt: HostRuntime) {
    let parts = BoardParts::new(rt.alloc(), 2, 1).expect(&rt, "memory");
    closed::<Brand, _>(&rt, rt.alloc(), parts);
}
