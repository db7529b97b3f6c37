//! New boards of two lanes, and what a test does on one.
ghost use Rattle.std.specs.Prelude.{◌≡◌, length};
ghost use Rattle.up_dispatch.specs.Parts.{IsNamed};

use std::alloc::Global;
use std::marker::{Brand, Send};
use std::process::Abort;
use std::sync::Wait;
use up_dispatch::{Board, BoardParts, Naming, Seat};
use up_history::Chronicle;
use up_store::Histories;
use up_tie::Site;

/// What is done on a new board, perhaps with a store of these histories.
pub trait Task<R> {
    /// What comes of it.
    type Found;

    /// Does it, from this seat of the board.
    fn run<B: Naming, J: Site + Send, K: Chronicle + Send>(
        self,
        rt: &R,
        alloc: Global,
        board: &Board<B>,
        seat: Seat<B>,
        histories: Histories,
    ) -> Self::Found
        requires written { histories.written ≡ J.history }
        requires drawn { histories.drawn ≡ K.history }
        requires nothing { J.premise → ⊥ }
        requires same { J.history ≡ B.history };
}

/// A new board of two lanes, which do not run, and a seat.
pub fn board_of<B: Naming, R: Wait + Abort>(
    rt: &R,
    alloc: Global,
    parts: BoardParts,
) -> (Board<B>, Seat<B>)
    requires named { IsNamed B.name B.parts B.queue B.lanes parts }
    requires lanes { length parts.queues ≡ 2 }
    requires sized { B.max_size ≡ 1000 }
{
    let (board, _takes) = Board::<B>::new(alloc, parts, 1000).expect(rt, "memory");
    let seat = board.seat(rt).expect(rt, "a seat");
    (board, seat)
}

/// What comes of a task on a board with these parts.
fn run_named<B: Naming, J: Site + Send, K: Chronicle + Send, T: Task<R> + Drop, R: Wait + Abort>(
    rt: &R,
    alloc: Global,
    parts: BoardParts,
    histories: Histories,
    task: T,
) -> T::Found
    requires named { IsNamed B.name B.parts B.queue B.lanes parts }
    requires lanes { length parts.queues ≡ 2 }
    requires sized { B.max_size ≡ 1000 }
    requires written { histories.written ≡ J.history }
    requires drawn { histories.drawn ≡ K.history }
    requires nothing { J.premise → ⊥ }
    requires same { J.history ≡ B.history }
{
    let (board, seat) = board_of::<B, R>(rt, alloc, parts);
    task.run::<B, J, K>(rt, alloc, &board, seat, histories)
}

/// What comes of a task on a new board of two lanes.
pub fn run<T: Task<R> + Drop, R: Wait + Abort>(rt: &R, alloc: Global, task: T) -> T::Found {
    let parts = BoardParts::new(alloc, 2, 4).expect(rt, "memory");
    let histories = Histories::new();
    run_named::<Brand, Brand, Brand, T, R>(rt, alloc, parts, histories, task)
}
