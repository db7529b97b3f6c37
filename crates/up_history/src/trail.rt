//! How far something follows a history.
ghost use Rattle.std.specs.Prelude.{◌≡◌, ◌≤◌, ◌++◌, ◌∷◌, [], length, take, Some, IsTrue, ◌↔◌};
ghost use mathlib.Core.List.{IsPrefix};
ghost use Rattle.up_history.specs.Histories.{HasFirst, first_entries};

use crate::chronicle::Chronicle;
use crate::front::Front;
use crate::receipt::Receipt;
use std::marker::Model;

/// How far something, such as a log or a book, follows a history, entry by entry. Contracts describe it as the entries
/// that were followed.
#[derive(Drop)]
pub struct Trail<E, J: Chronicle> {
    front: Option<Front<E, J>>,
    count: u64,
}

impl<E, J: Chronicle> Model for Trail<E, J> {
    ghost use Rattle.std.specs.Prelude.{List};
    ghost use Rattle.up_history.specs.Histories.{HasFirst, first_entries};

    ghost Value = { List E };

    ghost view = { λ t. first_entries t.front t.count };

    ghost invariant = { λ t. HasFirst t.front t.count };
}

/// The first `count` entries are the same in each front that has them. This is a law: the function does nothing.
fn agree<E, J: Chronicle>(own: &Option<Front<E, J>>, count: u64, front: &Front<E, J>)
    requires own { HasFirst own.now count }
    requires long { count ≤ length front.now }
    ensures { first_entries own.now count ≡ take count front.now }
{
    if let Some(own) = own {
        own.meets(front);
    }
}

impl<E, J: Chronicle> Trail<E, J> {
    /// It follows no entry yet.
    pub fn new() -> Trail<E, J>
        ensures { result ≡ [] }
    {
        Trail {
            front: None,
            count: 0,
        }
    }

    /// It follows all entries of a front.
    pub fn along(front: Front<E, J>) -> Trail<E, J>
        ensures { result ≡ front }
    {
        let count = front.len();
        Trail {
            front: Some(front),
            count,
        }
    }

    /// It follows all entries up to that of a receipt.
    pub fn up_to(receipt: &Receipt<E, J>) -> Trail<E, J>
        ensures { (entry : E) → receipt.now.entry ≡ Some entry
            → result ≡ receipt.now.before ++ entry ∷ [] }
    {
        let front = receipt.front();
        // For the prover: the length of a front is below 2^64, so the sum does not overflow.
        let _ = front.len();
        Trail {
            count: receipt.number() + 1,
            front: Some(front),
        }
    }

    /// The number of entries that it follows.
    pub fn len(&self) -> u64
        ensures { result ≡ length self.now }
    {
        self.count
    }

    /// Whether the entry of a receipt is the next.
    pub fn is_next(&self, receipt: &Receipt<E, J>) -> bool
        ensures { IsTrue result ↔ (receipt.now.number ≡ length self.now) }
    {
        receipt.number() == self.len()
    }

    /// Whether it follows only entries before that of a receipt.
    pub fn is_before(&self, receipt: &Receipt<E, J>) -> bool
        ensures is { IsTrue result ↔ (length self.now ≤ receipt.now.number) }
        ensures before { IsTrue result → IsPrefix self.now receipt.now.before }
    {
        if self.len() > receipt.number() {
            return false;
        }
        // For the prover: a law, which does nothing when it runs.
        agree(&self.front, self.count, &receipt.front());
        true
    }

    /// Whether it follows all entries of a front, and no others.
    pub fn is_along(&self, front: &Front<E, J>) -> bool
        ensures { IsTrue result ↔ (self.now ≡ front.now) }
    {
        if self.len() != front.len() {
            return false;
        }
        // For the prover: a law, which does nothing when it runs.
        agree(&self.front, self.count, front);
        true
    }

    /// Follows the entry of a receipt, which is the next.
    pub fn follow(&mut self, receipt: &Receipt<E, J>)
        requires next { receipt.now.number ≡ length self.old }
        ensures before { self.old ≡ receipt.now.before }
        ensures follows { (entry : E) → receipt.now.entry ≡ Some entry
            → self.new ≡ self.old ++ entry ∷ [] }
    {
        let front = receipt.front();
        // For the prover: the length of a front is below 2^64, so the sum does not overflow.
        let _ = front.len();
        // For the prover: a law, which does nothing when it runs.
        agree(&self.front, self.count, &front);
        self.front = Some(front);
        self.count += 1;
    }
}
