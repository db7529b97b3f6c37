//! Changes that are on the disk.
ghost use Rattle.std.specs.Prelude.{◌≡◌, ◌≢◌, ◌<◌, ◌+◌, ◌-◌, ◌⊎◌, ◌↔◌, IfSome, IfNone, IsTrue, MatchBool, min};

use std::marker::Model;
use up_history::{Chronicle, Front, Receipt};
use up_log::Entry;

/// Changes that are on the disk, one after the other: those with the numbers from `number` on, in the history `K` of
/// changes, are the entries from `place` on, in the history `J` of what was written. Contracts describe them as the two
/// first numbers and the count.
#[derive(Drop)]
pub struct OnDisk<J: Chronicle, K: Chronicle> {
    pub(crate) place: u64,
    pub(crate) number: u64,
    pub(crate) count: u64,
    pub(crate) entries: Front<Entry, J>,
    pub(crate) changes: Front<Entry, K>,
}

impl<J: Chronicle, K: Chronicle> Model for OnDisk<J, K> {
    ghost use Rattle.up_tie.specs.Ties.{Span, AreSame};

    ghost Value = { Span };

    ghost view = { λ d. record { place = d.place; number = d.number; count = d.count } };

    ghost invariant = { λ d.
        AreSame (record { place = d.place; number = d.number; count = d.count }) d.entries d.changes };
}

impl<J: Chronicle, K: Chronicle> OnDisk<J, K> {
    /// No change yet. The next is expected to have this number, at this place.
    pub fn none(
        place: u64,
        number: u64,
        entries: Front<Entry, J>,
        changes: Front<Entry, K>,
    ) -> OnDisk<J, K>
        ensures { result ≡ record { place = place; number = number; count = 0 } }
    {
        OnDisk {
            place,
            number,
            count: 0,
            entries,
            changes,
        }
    }

    /// The place of the first one.
    pub fn place(&self) -> u64
        ensures { result ≡ self.now.place }
    {
        self.place
    }

    /// The number of the first one.
    pub fn number(&self) -> u64
        ensures { result ≡ self.now.number }
    {
        self.number
    }

    /// How many there are.
    pub fn count(&self) -> u64
        ensures { result ≡ self.now.count }
    {
        self.count
    }

    /// The receipt for the entry that is this change, if it is the first one.
    pub fn receipt(&self, change: &Receipt<Entry, K>) -> Option<Receipt<Entry, J>>
        ensures some { IfSome result (λ r.
            (r.number ≡ self.now.place) × (r.entry ≡ change.now.entry)) }
        ensures first { IfSome result (λ _.
            (change.now.number ≡ self.now.number) × (0 < self.now.count)) }
        ensures none { IfNone result
            ((change.now.number ≢ self.now.number) ⊎ (self.now.count ≡ 0)) }
    {
        if self.count == 0 || change.number() != self.number {
            return None;
        }
        // For the prover: a law, which does nothing when it runs.
        change.is_in(&self.changes);
        Some(Receipt::of(&self.entries, self.place))
    }

    /// The first one has had its turn. Does nothing if there is none.
    pub fn advance(&mut self)
        ensures some { 0 < self.old.count
            → self.new ≡ record {
              place = self.old.place + 1;
              number = self.old.number + 1;
              count = self.old.count - 1;
            } }
        ensures none { self.old.count ≡ 0 → self.new ≡ self.old }
    {
        if self.count == 0 {
            return;
        }
        // For the prover: the length of a front is below 2^64, so the sums do not overflow.
        let _ = self.entries.len();
        let _ = self.changes.len();
        self.place += 1;
        self.number += 1;
        self.count -= 1;
    }

    /// A change that could not be written has had its turn: the next is expected to have the number after it. Does
    /// nothing if there are changes whose turn is to come.
    pub fn skip(&mut self)
        ensures none { self.old.count ≡ 0
            → self.new ≡ record self.old { number = min u64.MAX (self.old.number + 1) } }
        ensures some { 0 < self.old.count → self.new ≡ self.old }
    {
        if self.count == 0 {
            self.number = self.number.saturating_add(1);
        }
    }

    /// Takes in changes that follow these directly, and returns whether they do.
    pub fn join(&mut self, more: &OnDisk<J, K>) -> bool
        ensures follows { IsTrue result ↔ ((more.now.place ≡ self.old.place + self.old.count)
            × (more.now.number ≡ self.old.number + self.old.count)) }
        ensures joined { MatchBool result
            (self.new ≡ record {
              place = self.old.place;
              number = self.old.number;
              count = self.old.count + more.now.count;
            })
            (self.new ≡ self.old) }
    {
        // For the prover: the length of a front is below 2^64, so the sums do not overflow.
        let _ = self.entries.len();
        let _ = self.changes.len();
        let _ = more.entries.len();
        if more.place != self.place + self.count || more.number != self.number + self.count {
            return false;
        }
        self.entries = self.entries.longer(&more.entries);
        self.changes = self.changes.longer(&more.changes);
        self.count += more.count;
        true
    }
}
