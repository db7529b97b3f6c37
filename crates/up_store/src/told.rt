//! When a line is printed about whether changes are stored.
ghost use Rattle.std.specs.Prelude.{◌≡◌, ◌≢◌, ◌↔◌, IfSome, IfNone, IsSome, IsTrue, Some, false};
ghost use Rattle.up_store.specs.Told.{is_refusal, IsApart};

use up_log::LogFault;

/// The least number of milliseconds between two lines.
const APART: u64 = 1000;

/// Whether changes are stored.
#[derive(Clone, Copy)]
pub enum Storing {
    /// They are.
    Stored,
    /// They can't be, for this reason, and are refused.
    Refused(LogFault),
}

impl Storing {
    /// Whether changes are refused.
    fn is_refusal(&self) -> bool
        ensures { result ≡ is_refusal self.now }
    {
        matches!(self, Storing::Refused(_))
    }
}

/// Whether changes are stored, and what the last line said about it. Times are in milliseconds since any fixed moment.
#[derive(Clone, Copy)]
pub struct Told {
    news: Storing,
    /// Whether the last line said that changes are refused.
    is_refusal: bool,
    /// When the last line was printed.
    at: Option<u64>,
}

impl Told {
    /// Changes are stored, and no line was printed yet.
    pub fn new() -> Told
        ensures { (is_refusal result.news ≡ result.is_refusal) × (result.is_refusal ≡ false) }
    {
        Told {
            news: Storing::Stored,
            is_refusal: false,
            at: None,
        }
    }

    /// Takes the news. `due` then returns whether a line has to be printed.
    pub fn note(&mut self, news: Storing)
        ensures { self.new ≡ record self.old { news = news } }
    {
        self.news = news;
    }

    /// Whether the last line was printed long enough ago.
    fn may_say(&self, now: u64) -> bool
        ensures { IsTrue result ↔ IsApart self.now now }
    {
        match self.at {
            Some(last) => now.saturating_sub(last) >= APART,
            None => true,
        }
    }

    /// The news, if a line about it has to be printed now: it is not what the last line said, and that was printed a
    /// second ago or earlier. It then counts as printed.
    pub fn due(&mut self, now: u64) -> Option<Storing>
        ensures news { IfSome result (λ news. (news ≡ self.old.news)
            × (is_refusal news ≢ self.old.is_refusal)) }
        ensures apart { IfSome result (λ _. IsApart self.old now) }
        ensures said { IfSome result (λ news. self.new ≡ record self.old {
          is_refusal = is_refusal news;
          at = Some now;
        }) }
        ensures due { is_refusal self.old.news ≢ self.old.is_refusal → IsApart self.old now
            → IsSome result }
        ensures none { IfNone result (self.new ≡ self.old) }
    {
        let is_refusal = self.news.is_refusal();
        if is_refusal == self.is_refusal || !self.may_say(now) {
            return None;
        }
        self.is_refusal = is_refusal;
        self.at = Some(now);
        Some(self.news)
    }
}
