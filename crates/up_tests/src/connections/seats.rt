//! Seats that are taken, put back and taken again.
ghost use Rattle.std.specs.Prelude.{◌≡◌, length};
ghost use Rattle.up_dispatch.specs.Free.{no_history};
ghost use Rattle.up_dispatch.specs.Parts.{IsNamed};

use crate::requests::creation;
use crate::same::expect_same;
use std::alloc::{AllocError, Global};
use std::marker::Brand;
use std::process::Abort;
use std::sync::Wait;
use up_dispatch::{Board, BoardParts, Naming, Seat};
use up_events::Id;
use up_machine::Asked;
use up_server::Seats;

/// Creates an upload from the seat.
fn make<B: Naming, R: Wait>(rt: &R, alloc: Global, board: &Board<B>, seat: &mut Seat<B>)
    requires free { B.history ≡ no_history }
{
    let request = creation(alloc, Some(1));
    let _ = board.commit(rt, alloc, seat, request, Id::new(7), &Asked::Allowed);
}

/// Takes a seat, creates an upload from it, and puts it back.
fn use_one<B: Naming, R: Wait + Abort>(rt: &R, alloc: Global, board: &Board<B>, seats: &Seats<B>)
    requires free { B.history ≡ no_history }
{
    let mut seat = seats.pop(rt, board).expect(rt, "a first seat");
    make(rt, alloc, board, &mut seat);
    seats.put_back(rt, seat);
}

/// Takes two seats, of which the first was used, and puts them back, the second first.
fn swap_two<B: Naming, R: Wait + Abort>(rt: &R, board: &Board<B>, seats: &Seats<B>) {
    let again = seats.pop(rt, board).expect(rt, "a seat");
    let second = seats.pop(rt, board).expect(rt, "another seat");
    expect_same(rt, &(again.count(), second.count()), &(1, 0));
    seats.put_back(rt, second);
    seats.put_back(rt, again);
}

/// The number of changes that were made from each seat.
pub fn changes<B: Naming>(alloc: Global, seats: &[Seat<B>]) -> Result<Vec<u64>, AllocError> {
    let mut counts = Vec::new(alloc);
    for seat in seats {
        counts.push(seat.count())?;
    }
    Ok(counts)
}

/// Puts back a seat from which an upload was created, and takes it again before a new one. Checks the number of changes
/// from each.
fn hold_again<B: Naming, R: Wait + Abort>(rt: &R, alloc: Global, board: &Board<B>)
    requires free { B.history ≡ no_history }
{
    let seats = Seats::new(alloc, 2).expect(rt, "memory");
    use_one(rt, alloc, board, &seats);
    swap_two(rt, board, &seats);
    let counts = changes(alloc, &seats.into_inner()).expect(rt, "memory");
    expect_same(rt, &counts.as_slice(), &[0u64, 1].as_slice());
}

/// Checks with a new board that a seat that came back is taken again.
fn taken_again<B: Naming, R: Wait + Abort>(rt: &R, alloc: Global, parts: BoardParts)
    requires named { IsNamed B.name B.parts B.queue B.lanes parts }
    requires lanes { length parts.queues ≡ 1 }
    requires sized { B.max_size ≡ 1 }
    requires free { B.history ≡ no_history }
{
    let (board, _takes) = Board::<B>::new(alloc, parts, 1).expect(rt, "memory");
    hold_again(rt, alloc, &board);
}

#[test]
fn takes_the_seat_that_came_back(rt: HostRuntime) {
    let parts = BoardParts::new(rt.alloc(), 1, 4).expect(&rt, "memory");
    taken_again::<Brand, _>(&rt, rt.alloc(), parts);
}
