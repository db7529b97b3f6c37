//! How far a book follows a log.
ghost use Rattle.std.specs.Prelude.{◌≡◌, ◌++◌, ◌∷◌, [], length, Some, IsTrue, ◌↔◌};
ghost use Rattle.up_commits.specs.Follows.{following};
ghost use Rattle.up_log.specs.declared.entry.Entry.{Entry as Logged};

use std::marker::Model;
use up_events::Trace;
use up_history::{Chronicle, Front, Receipt, Trail};
use up_log::Entry;

/// How far a book follows a log, whose entries are those of a history. It stores only a count; contracts describe it as
/// the first entries of the history, and which of them were carried out.
#[derive(Drop)]
pub struct Followed<J: Chronicle> {
    trail: Trail<Entry, J>,
    carried: Trace<bool>,
}

impl<J: Chronicle> Model for Followed<J> {
    ghost use Rattle.up_commits.specs.Follows.{Following, following};

    ghost Value = { Following };

    ghost view = { λ f. following f.trail f.carried.items };
}

impl<J: Chronicle> Followed<J> {
    /// It follows no entry yet.
    pub fn new() -> Followed<J>
        ensures { result ≡ following [] [] }
    {
        Followed {
            trail: Trail::new(),
            carried: Trace::new(),
        }
    }

    /// The number of entries that the book follows.
    pub fn len(&self) -> u64
        ensures { result ≡ length self.now.entries }
    {
        self.trail.len()
    }

    /// Whether the entry of a receipt is the next one.
    pub fn is_next(&self, receipt: &Receipt<Entry, J>) -> bool
        ensures { IsTrue result ↔ (receipt.now.number ≡ length self.now.entries) }
    {
        self.trail.is_next(receipt)
    }

    /// Whether the book follows all entries of a front, and no others.
    pub fn is_along(&self, front: &Front<Entry, J>) -> bool
        ensures { IsTrue result ↔ (self.now.entries ≡ front.now) }
    {
        self.trail.is_along(front)
    }

    /// Begins to follow the entry of a receipt, which is the next one. `end` then says whether it was carried out.
    pub fn begin(&mut self, receipt: &Receipt<Entry, J>)
        requires next { receipt.now.number ≡ length self.old.entries }
        ensures before { self.old.entries ≡ receipt.now.before }
        ensures begun { (entry : Logged) → receipt.now.entry ≡ Some entry
            → self.new ≡ following (self.old.entries ++ entry ∷ []) self.old.carried }
    {
        self.trail.follow(receipt);
    }

    /// Says whether the entry that was begun last was carried out.
    pub fn end(&mut self, is_carried: bool)
        ensures { self.new ≡ following self.old.entries (self.old.carried ++ is_carried ∷ []) }
    {
        self.carried.push(&is_carried);
    }
}
