//! A closure that is asked about a request from one seat of a board, and waits until a request from another seat got
//! its response.
ghost use Rattle.std.specs.Prelude.{◌≡◌, IsTrue, length};
ghost use Rattle.up_dispatch.specs.Free.{no_history};
ghost use Rattle.up_dispatch.specs.Parts.{IsNamed};
ghost use Rattle.up_hooks.specs.Verdicts.{is_allowed_verdict};

use crate::conversations::talk;
use crate::gate::{Gate, HEAD, POST};
use crate::same::expect_same;
use std::alloc::Global;
use std::marker::{Brand, Send, Sync};
use std::process::Abort;
use std::sync::{Arc, Wait};
use std::thread;
use std::thread::Threads;
use up_dispatch::{Board, BoardParts, Counting, Ended, Naming, Seat, Seated};
use up_hooks::{PreHook, PreHooks};
use up_machine::{Ask, Point, Verdict};

const MAX_SIZE: u64 = 1 << 20;

/// Who holds a conversation from one seat of a board. A thread is started over any such place, so that what is shown
/// there is not about the board.
trait Place: Send {
    ghost use Rattle.std.specs.Prelude.{◌≡◌};
    ghost use Rattle.logbook.specs.Pages.{Book};
    ghost use Rattle.up_dispatch.specs.Free.{no_history};

    /// The history that the changes made there follow.
    ghost history: { Book };

    /// How a conversation ends, and what it writes.
    fn talk<R: Wait>(
        &mut self,
        rt: &R,
        alloc: Global,
        hooks: &PreHooks,
        asked: &[u8],
    ) -> (Ended, Vec<u8>)
        requires free { history ≡ no_history };
}

/// How a conversation from the seat ends, and what it writes.
fn talk_from<B: Naming, R: Wait>(
    rt: &R,
    alloc: Global,
    board: &Board<B>,
    seat: &mut Seat<B>,
    hooks: &PreHooks,
    asked: &[u8],
) -> (Ended, Vec<u8>)
    requires free { B.history ≡ no_history }
{
    let mut keeper = Seated::new(rt, board, seat);
    talk(rt, alloc, &mut keeper, hooks, &mut Counting::new(), asked)
}

/// A seat of a board.
#[derive(Drop)]
struct Placed<'a, B: Naming> {
    board: &'a Board<B>,
    seat: Seat<B>,
}

impl<B: Naming + Send + Sync> Place for Placed<'_, B> {
    ghost history = { B.history };

    fn talk<R: Wait>(
        &mut self,
        rt: &R,
        alloc: Global,
        hooks: &PreHooks,
        asked: &[u8],
    ) -> (Ended, Vec<u8>) {
        talk_from(rt, alloc, self.board, &mut self.seat, hooks, asked)
    }
}

/// Sends a request from the place once the closure was called.
fn talk_meanwhile<P: Place + Drop, R: Wait>(
    rt: &R,
    alloc: Global,
    mut place: P,
    hooks: &PreHooks,
    gate: &Gate,
) -> (bool, Vec<u8>)
    requires free { P.history ≡ no_history }
{
    let was_called = gate.is_called_in_time();
    let (_, written) = place.talk(rt, alloc, hooks, HEAD);
    gate.open();
    (was_called, written)
}

/// An upload is created from one place, and requested from the other.
fn talk_from_two_places<P: Place + Drop, R: Threads + Wait + Abort + Sync>(
    rt: &R,
    alloc: Global,
    mut first: P,
    second: P,
    hooks: &PreHooks,
    gate: &Gate,
)
    requires free { P.history ≡ no_history }
{
    let ((ended, made), (was_called, shown)) = thread::join(
        rt,
        || -> (Ended, Vec<u8>)
            requires { P.history ≡ no_history }
        { first.talk(rt, alloc, hooks, POST) },
        || -> (bool, Vec<u8>)
            requires { P.history ≡ no_history }
        { talk_meanwhile(rt, alloc, second, hooks, gate) },
    );
    expect_same(rt, &(was_called, ended), &(true, Ended::Closed));
    assert!(rt; shown.starts_with(b"HTTP/1.1 404 "));
    assert!(rt; made.starts_with(b"HTTP/1.1 201 "));
}

/// Two seats of a new board with these parts.
fn two_seats<B: Naming + Send + Sync, R: Threads + Wait + Abort + Sync>(
    rt: &R,
    alloc: Global,
    parts: BoardParts,
    hooks: &PreHooks,
    gate: &Gate,
)
    requires named { IsNamed B.name B.parts B.queue B.lanes parts }
    requires lanes { length parts.queues ≡ 2 }
    requires sized { B.max_size ≡ 1048576 }
    requires free { B.history ≡ no_history }
{
    let (board, _takes) = Board::<B>::new(alloc, parts, MAX_SIZE).expect(rt, "memory");
    let board = &board;
    let first = Placed {
        board,
        seat: board.seat(rt).expect(rt, "a seat"),
    };
    let second = Placed {
        board,
        seat: board.seat(rt).expect(rt, "another seat"),
    };
    talk_from_two_places(rt, alloc, first, second, hooks, gate);
}

#[test]
fn a_closure_waits_for_another_seat(rt: HostRuntime) {
    let gate = Arc::new(rt.alloc(), Gate::new()).expect(&rt, "memory");
    let held = Arc::try_clone(&gate).expect(&rt, "memory");
    let judge = move |_: &Ask| -> Verdict
        ensures { IsTrue (is_allowed_verdict result) }
    { held.judge() };
    let mut hooks = Vec::new(rt.alloc());
    let judge = Box::new(rt.alloc(), judge).expect(&rt, "memory");
    hooks
        .push(PreHook::new(Point::Create, judge))
        .expect(&rt, "memory");
    let parts = BoardParts::new(rt.alloc(), 2, 1).expect(&rt, "memory");
    let hooks = PreHooks::new(hooks);
    two_seats::<Brand, _>(&rt, rt.alloc(), parts, &hooks, &gate);
}
