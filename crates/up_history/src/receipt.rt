//! A thread's receipt for an entry.
ghost use Rattle.std.specs.Prelude.{◌≡◌, ◌<◌, ◌≤◌, ◌++◌, ◌∷◌, []};
ghost use Rattle.std.specs.Prelude.{length, take, Some, IfSome, IfNone, OnSome, slice_get};
ghost use Rattle.up_history.specs.Histories.{IsLonger, place_in};

use crate::chronicle::Chronicle;
use crate::front::Front;
use crate::history::History;
use std::marker::Model;

/// A thread's receipt for an entry of a history: the number of its place, counted from 0. Contracts describe it as the
/// number, the entry, and the entries before it.
#[derive(Drop)]
pub struct Receipt<E, J: Chronicle> {
    number: u64,
    front: Front<E, J>,
}

impl<E, J: Chronicle> Model for Receipt<E, J> {
    ghost use Rattle.std.specs.Prelude.{◌<◌, length};
    ghost use Rattle.up_history.specs.Histories.{Place, place_in};

    ghost Value = { Place E };

    ghost view = { λ r. place_in r.front r.number };

    ghost invariant = { λ r. r.number < length r.front };
}

impl<E, J: Chronicle> Receipt<E, J> {
    /// A receipt for the entry at a place of a front.
    pub fn of(front: &Front<E, J>, number: u64) -> Receipt<E, J>
        requires there { number < length front.now }
        ensures { result ≡ place_in front.now number }
    {
        Receipt {
            number,
            front: front.again(),
        }
    }

    /// Adds an entry after everything that the front has seen, and returns its receipt. `None` if the history is
    /// longer, which the front has then seen.
    pub fn draw(
        front: &mut Front<E, J>,
        history: &History<E, J>,
        entry: &E,
    ) -> Option<Receipt<E, J>>
        requires room { length front.old < u64.MAX }
        ensures added { OnSome result (front.new ≡ front.old ++ entry.now ∷ []) }
        ensures receipt { IfSome result (λ r.
            (r.number ≡ length front.old) × (r.entry ≡ Some entry.now)) }
        ensures before { IfSome result (λ r. r.before ≡ front.old) }
        ensures longer { IfNone result (IsLonger front.old front.new) }
    {
        let number = front.len();
        if !front.add(history, entry) {
            return None;
        }
        Some(Receipt::of(front, number))
    }

    /// The number of the entry's place.
    pub fn number(&self) -> u64
        ensures { result ≡ self.now.number }
    {
        self.number
    }

    /// A copy.
    pub fn again(&self) -> Receipt<E, J>
        ensures { result ≡ self.now }
    {
        Receipt {
            number: self.number,
            front: self.front.again(),
        }
    }

    /// The same receipt, for those who give the history another name.
    pub fn known_as<K: Chronicle>(&self) -> Receipt<E, K>
        requires same { J.history ≡ K.history }
        ensures { result ≡ self.now }
    {
        Receipt {
            number: self.number,
            front: self.front.known_as(),
        }
    }

    /// A front that contains the entry.
    pub fn front(&self) -> Front<E, J>
        ensures there { self.now.number < length result }
        ensures place { place_in result self.now.number ≡ self.now }
    {
        self.front.again()
    }

    /// The entry is at its place in each front that is long enough, after the same entries. This is a law: the function
    /// does nothing.
    pub fn is_in(&self, front: &Front<E, J>)
        ensures there { self.now.number < length front.now
            → slice_get front.now self.now.number ≡ self.now.entry }
        ensures before { self.now.number ≤ length front.now
            → take self.now.number front.now ≡ self.now.before }
    {
        // For the prover: using a field brings in the invariant.
        let _ = self.number;
        self.front.meets(front);
    }

    /// Receipts with the same number are for the same place. This is a law: the function does nothing.
    pub fn is_same(&self, other: &Receipt<E, J>)
        ensures { self.now.number ≡ other.now.number → self.now ≡ other.now }
    {
        // For the prover: using a field brings in the invariant.
        let _ = other.number;
        self.is_in(&other.front);
    }
}
