//! What was written to a log.
ghost use Rattle.std.specs.Prelude.{◌≡◌, []};

use crate::site::Site;
use std::marker::Model;
use up_history::{Front, History, Opened};
use up_log::Entry;

/// The history of what is written to a log, before it has an identity. Contracts describe it as the identity that it
/// will have.
#[derive(Drop)]
pub struct NewHistory {
    opened: Opened<Entry>,
}

impl Model for NewHistory {
    ghost use Rattle.logbook.specs.Pages.{Book};

    ghost Value = { Book };

    ghost view = { λ h. h.opened };
}

impl NewHistory {
    /// A new history. Takes no memory.
    pub fn new() -> NewHistory {
        NewHistory {
            opened: Opened::new(),
        }
    }

    /// The history with its identity. Nothing was written yet.
    pub fn named<J: Site>(self) -> LogHistory<J>
        requires named { self ≡ J.history }
        ensures { result ≡ [] }
    {
        let (history, front) = self.opened.named();
        LogHistory { history, front }
    }
}

/// The history of what is written to a log. Only a log that was read or written adds to it, so a receipt can be had for
/// nothing else. Contracts describe it as the entries that were read or written.
#[derive(Drop)]
pub struct LogHistory<J: Site> {
    pub(crate) history: History<Entry, J>,
    pub(crate) front: Front<Entry, J>,
}

impl<J: Site> Model for LogHistory<J> {
    ghost use Rattle.std.specs.Prelude.{List};
    ghost use Rattle.up_log.specs.declared.entry.Entry.{Entry as Logged};

    ghost Value = { List Logged };

    ghost view = { λ h. h.front };
}

impl<J: Site> LogHistory<J> {
    /// The entries that were read or written.
    pub fn front(&self) -> Front<Entry, J>
        ensures { result ≡ self.now }
    {
        self.front.again()
    }
}
