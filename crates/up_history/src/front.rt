//! Prefixes of a history.
ghost use Rattle.std.specs.Prelude.{◌≡◌, ◌<◌, ◌≤◌, ◌⊎◌, ℕ, ◌++◌, ◌∷◌, [], length, take, MatchBool, None, Some};
ghost use mathlib.Core.List.{IsPrefix};
ghost use Rattle.up_history.specs.Histories.{IsLonger};

use crate::chronicle::Chronicle;
use crate::history::History;
use crate::rule::{Add, Counted, Nothing};
use logbook::{Offer, Plain, Seen};
use std::marker::{Model, PhantomData};

/// A prefix of a history that was seen. Contracts describe it as its entries.
#[derive(Drop)]
pub struct Front<E, J: Chronicle> {
    pub(crate) count: u64,
    pub(crate) seen: Seen<Option<E>, u64, Counted>,
    pub(crate) of: PhantomData<J>,
}

impl<E, J: Chronicle> Model for Front<E, J> {
    ghost use Rattle.std.specs.Prelude.{◌≡◌, List, length};
    ghost use Rattle.up_history.specs.Rules.{entries_in};

    ghost Value = { List E };

    ghost view = { λ f. entries_in f.seen.log };

    ghost invariant = { λ f. (f.count ≡ length (entries_in f.seen.log)) × (f.seen.book ≡ J.history) };
}

impl<E, J: Chronicle> Front<E, J> {
    /// The number of its entries.
    pub fn len(&self) -> u64
        ensures { result ≡ length self.now }
    {
        self.count
    }

    /// A copy.
    pub fn again(&self) -> Front<E, J>
        ensures { result ≡ self.now }
    {
        Front {
            count: self.count,
            seen: self.seen.again(),
            of: PhantomData,
        }
    }

    /// The same front, for those who give the history another name.
    pub fn known_as<K: Chronicle>(&self) -> Front<E, K>
        requires same { J.history ≡ K.history }
        ensures { result ≡ self.now }
    {
        Front {
            count: self.count,
            seen: self.seen.again(),
            of: PhantomData,
        }
    }

    /// Of two fronts of one history, one is a prefix of the other. This is a law: the function does nothing.
    pub fn meets(&self, other: &Front<E, J>)
        ensures shorter { length self.now ≤ length other.now → IsPrefix self.now other.now }
        ensures longer { length other.now ≤ length self.now → IsPrefix other.now self.now }
        ensures same { length self.now ≡ length other.now → self.now ≡ other.now }
        ensures alike { (n : ℕ) → n ≤ length self.now → n ≤ length other.now
            → take n self.now ≡ take n other.now }
    {
        // For the prover: using the fields brings in the invariants.
        let _ = self.count;
        let _ = other.count;
        let mut both = self.seen.again();
        both.learn(&other.seen);
    }

    /// The longer of two fronts. The other one is a prefix of it.
    pub fn longer(&self, other: &Front<E, J>) -> Front<E, J>
        ensures one { (result ≡ self.now) ⊎ (result ≡ other.now) }
        ensures this { IsPrefix self.now result }
        ensures that { IsPrefix other.now result }
    {
        // For the prover: a law, which does nothing when it runs.
        self.meets(other);
        if self.count < other.count {
            other.again()
        } else {
            self.again()
        }
    }

    /// Adds an entry after everything that was seen, and returns whether it did. If it did not, the history is longer,
    /// and has now been seen.
    pub fn add(&mut self, history: &History<E, J>, entry: &E) -> bool
        requires room { length self.old < u64.MAX }
        ensures { MatchBool result (self.new ≡ self.old ++ entry.now ∷ [])
            (IsLonger self.old self.new) }
    {
        self.add_by::<E, Add>(history, entry)
    }

    /// Adds the entry for which something stands, as `A` says.
    pub fn add_by<X, A: Plain<X, Option<E>, u64>>(
        &mut self,
        history: &History<E, J>,
        about: &X,
    ) -> bool
        requires room { length self.old < u64.MAX }
        requires plain { A.state about.now ≡ None }
        requires one { (entry : E) × (A.ask about.now ≡ Some entry) }
        ensures { (entry : E) → A.ask about.now ≡ Some entry
            → MatchBool result (self.new ≡ self.old ++ entry ∷ []) (IsLonger self.old self.new) }
    {
        let mut offer: Offer<Option<E>, u64, Counted, Nothing> = self
            .seen
            .plain::<Nothing, X, A>(about);
        let mut pen = self.seen.no_pen();
        let count = self.count;
        let found = history
            .word
            .compare_exchange::<Add, Nothing>(
                count,
                count + 1,
                &mut self.seen,
                &mut offer,
                &mut pen,
            );
        self.count = if found == count { count + 1 } else { found };
        found == count
    }

    /// Adds entries after everything that was seen, and returns whether it did. If it did not, the history is longer,
    /// or accepts no more entries; the first of the entries may then have been added.
    pub fn add_all(&mut self, history: &History<E, J>, entries: &[E]) -> bool
        ensures { MatchBool result (self.new ≡ self.old ++ entries.now)
            (IsPrefix self.old self.new) }
    {
        for entry in entries {
            if self.len() == u64::MAX || !self.add(history, entry) {
                return false;
            }
        }
        true
    }
}
