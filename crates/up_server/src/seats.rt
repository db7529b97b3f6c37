//! The seats that connections take and give back.
ghost use Rattle.std.specs.Prelude.{◌≡◌, ◌++◌, ◌∷◌, [], ◌<◌, vec_len, vec_capacity};

use std::alloc::{AllocError, Global};
use std::sync::{Mutex, Wait};
use up_dispatch::{Board, Naming, Seat};

/// Adds a seat at the end. Takes no memory if there is room. If there is none and memory runs out, the seat is lost.
fn put<B: Naming>(seats: &mut Vec<Seat<B>>, seat: Seat<B>)
    ensures { vec_len seats.old < vec_capacity seats.old
        → seats.new.items ≡ seats.old.items ++ seat ∷ [] }
{
    if seats.len() < seats.capacity() {
        seats.push_reserved(seat);
    } else {
        let _ = seats.push(seat);
    }
}

/// The seats that connections gave back.
#[derive(Drop)]
pub struct Seats<B: Naming> {
    back: Mutex<Vec<Seat<B>>>,
}

impl<B: Naming> Seats<B> {
    /// No seat was given back yet. There is room for `most` seats. The error is that memory ran out.
    pub fn new(alloc: Global, most: u64) -> Result<Seats<B>, AllocError> {
        let back = Mutex::new(Vec::with_capacity(alloc, most as usize)?);
        Ok(Seats { back })
    }

    /// A seat that was given back, or else a new one of the board. `None` if the board has given out all its seats.
    pub fn pop<R: Wait>(&self, rt: &R, board: &Board<B>) -> Option<Seat<B>> {
        let back = self.back.lock(rt).pop();
        match back {
            Some(seat) => Some(seat),
            None => board.seat(rt),
        }
    }

    /// Takes a seat back. Takes no memory if there is room. If there is none and memory runs out, the seat is lost.
    pub fn put_back<R: Wait>(&self, rt: &R, seat: Seat<B>) {
        put(&mut self.back.lock(rt), seat);
    }

    /// All seats that were given back.
    pub fn into_inner(self) -> Vec<Seat<B>> {
        self.back.into_inner()
    }
}
