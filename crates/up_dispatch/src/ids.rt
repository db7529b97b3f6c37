//! Sources of ids for new uploads.
ghost use Rattle.std.specs.Prelude.{◌≡◌};

use std::marker::Model;
use std::sync::{Mutex, Wait};
use up_events::Id;

/// A source of ids for new uploads. An id that was given before does no harm: a creation with a known id is refused.
pub trait Ids {
    ghost use Rattle.up_dispatch.specs.Answering.{Drawing};

    /// What a call may give: the source before it, the id, and the source after it.
    ghost draws: { Drawing Self };

    /// The id for the next new upload.
    fn next_id(&mut self) -> Id
        ensures { draws self.old result self.new };
}

/// Ids counted from 1. After the greatest possible id, 2^128 - 1, each further id is the same. Contracts describe it as
/// the last number that was given, or 0 if none was.
#[derive(Drop)]
pub struct Counting {
    last: u128,
}

impl Model for Counting {
    ghost use Rattle.std.specs.Prelude.{ℕ};

    ghost Value = { ℕ };

    ghost view = { λ c. c.last };
}

impl Counting {
    /// A source that has given no id yet.
    pub fn new() -> Self
        ensures { result ≡ 0 }
    {
        Counting { last: 0 }
    }
}

impl Ids for Counting {
    ghost use Rattle.up_dispatch.specs.Counts.{CountsIds};

    ghost draws = { CountsIds };

    fn next_id(&mut self) -> Id {
        self.last = self.last.saturating_add(1);
        Id::new(self.last)
    }
}

/// A source under a lock, which others share. According to the contract, any id may come.
#[derive(Drop)]
pub struct SharedIds<'a, I, R: Wait> {
    pub rt: &'a R,
    pub ids: &'a Mutex<I>,
}

impl<I: Ids, R: Wait> Ids for SharedIds<'_, I, R> {
    ghost draws = { λ _ _ _. Unit {0} };

    fn next_id(&mut self) -> Id {
        self.ids.lock(self.rt).next_id()
    }
}
