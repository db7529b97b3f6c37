//! When a line is printed about accepting connections.
ghost use Rattle.std.specs.Prelude.{◌≡◌, ◌≢◌, ◌↔◌, ℤ, IsTrue, true, false, Some};
ghost use Rattle.up_server.specs.Said.{was_said, IsApart};
ghost use Rattle.up_server.specs.declared.notices.Entrance.TheVariants.{Gone, Wanting};
ghost use Rattle.up_server.specs.declared.notices.Want.{Want};
ghost use Rattle.up_server.specs.declared.said.Due.TheVariants.{Say};

use crate::notices::{Entrance, Want};

/// The least number of milliseconds between two lines, and without a failure before a shortage counts as over.
pub const APART: u64 = 1000;

/// Whether a line has to be printed.
#[derive(Clone, Copy, Debug, PartialEq, Eq)]
pub enum Due {
    /// A line has to be printed now.
    Say,
    /// A line has to be printed later, unless the news is different by then.
    Later,
    /// There is nothing to print.
    Nothing,
}

/// The kinds of shortage about which a line was printed.
#[derive(Clone, Copy, PartialEq, Eq)]
struct Wants {
    descriptors: bool,
    memory: bool,
    threads: bool,
}

/// No kind of shortage.
const NO_WANTS: Wants = Wants {
    descriptors: false,
    memory: false,
    threads: false,
};

impl Wants {
    /// Whether the kind of this shortage is among them.
    fn has(self, want: Want) -> bool
        ensures { result ≡ was_said self want }
    {
        match want {
            Want::Descriptors(_) => self.descriptors,
            Want::Memory(_) => self.memory,
            Want::Threads => self.threads,
        }
    }

    /// These kinds, and that of this shortage.
    fn with(self, want: Want) -> Wants
        ensures { was_said result want ≡ true }
    {
        match want {
            Want::Descriptors(_) => Wants {
                descriptors: true,
                ..self
            },
            Want::Memory(_) => Wants {
                memory: true,
                ..self
            },
            Want::Threads => Wants {
                threads: true,
                ..self
            },
        }
    }
}

/// Which lines were printed about accepting connections, and when: one line as each kind of shortage begins, and one
/// when all are over. Times are in milliseconds since any fixed moment.
#[derive(Clone, Copy, PartialEq, Eq)]
pub struct Said {
    /// The kinds about which a line was printed since all shortages were over.
    wants: Wants,
    /// The time since which nothing has failed. `None` if something failed last, or if no shortage is open.
    well_since: Option<u64>,
    /// When the last line was printed.
    at: Option<u64>,
}

impl Said {
    /// No line was printed yet.
    pub fn new() -> Said {
        Said {
            wants: NO_WANTS,
            well_since: None,
            at: None,
        }
    }

    /// Whether the last line was printed long enough ago.
    fn may_say(&self, now: u64) -> bool
        ensures { IsTrue result ↔ IsApart self.now now }
    {
        match self.at {
            Some(last) => now.saturating_sub(last) >= APART,
            None => true,
        }
    }

    /// Whether nothing has failed for long enough. It is asked only when nothing fails now.
    fn is_over(&mut self, now: u64) -> bool
        ensures { (self.new.at ≡ self.old.at) × (self.new.wants ≡ self.old.wants) }
    {
        let since = self.well_since.unwrap_or(now);
        self.well_since = Some(since);
        now.saturating_sub(since) >= APART
    }

    /// Takes the news about accepting connections, and returns whether a line has to be printed. If one has to be
    /// printed now, it counts as printed. Two lines are at least a second apart. A new kind of shortage gets a line as
    /// soon as that allows, and so does a listener that is gone. No kind gets a second line before all shortages are
    /// over.
    pub fn note(&mut self, entrance: Entrance, now: u64) -> Due
        ensures apart { result ≡ Say → IsApart self.old now }
        ensures news { (want : Want) → entrance ≡ Wanting want
            → was_said self.old.wants want ≡ false
            → IsApart self.old now → (result ≡ Say) × (was_said self.new.wants want ≡ true) }
        ensures once { (want : Want) → entrance ≡ Wanting want → was_said self.old.wants want ≡ true
            → (result ≢ Say) × (self.new.wants ≡ self.old.wants) }
        ensures gone { (code : ℤ) → entrance ≡ Gone code → IsApart self.old now → result ≡ Say }
        ensures said { result ≡ Say → self.new.at ≡ Some now }
        ensures unsaid { result ≢ Say → self.new.at ≡ self.old.at }
    {
        let is_news = match entrance {
            Entrance::Open if self.wants == NO_WANTS => return Due::Nothing,
            Entrance::Open => self.is_over(now),
            Entrance::Wanting(want) => {
                self.well_since = None;
                !self.wants.has(want)
            }
            Entrance::Gone(_) => true,
        };
        if !is_news || !self.may_say(now) {
            return Due::Later;
        }
        self.wants = match entrance {
            Entrance::Wanting(want) => self.wants.with(want),
            Entrance::Open | Entrance::Gone(_) => NO_WANTS,
        };
        self.well_since = None;
        self.at = Some(now);
        Due::Say
    }
}
