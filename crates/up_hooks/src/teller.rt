//! A post-hook that keeps no events.
ghost use Rattle.std.specs.Prelude.{◌≡◌, ◌-◌, ◌^◌, [], length, min, true};

use crate::post_hook::{Outcome, PostHook};
use up_events::{Event, NoMemory, Trace};

/// A post-hook that calls a closure on each event that it is handed, and counts the events. The list of these events
/// exists only in proofs, so it needs no memory, however many events come.
#[derive(Drop)]
pub struct Teller<F> {
    answer: F,
    handed: Trace<Event>,
    /// The number of events that it was handed, up to 2^64 - 1.
    count: u64,
    ghost counted: { count ≡ min (length handed.items) (2 ^ 64 - 1) },
}

impl<F: Fn(&Event) -> Outcome + Send> PostHook for Teller<F> {
    ghost use Rattle.std.specs.Fn.{FnReturnsAt};
    ghost use Rattle.up_hooks.specs.Recorded.{AnswersWithCodes};

    ghost is_sound = { λ t. F.IsAlwaysCallable t.answer × AnswersWithCodes F.Fn t.answer };

    ghost handed = { λ t. t.handed.items };

    ghost has_room = { λ _. true };

    ghost is_settled = { λ _. true };

    ghost may_answer = { λ t event outcome. FnReturnsAt F.Fn t.answer event outcome };

    fn is_settled(&self) -> bool {
        true
    }

    fn ready(&mut self) -> Result<(), NoMemory> {
        Ok(())
    }

    fn hand(&mut self, event: &Event) -> Outcome {
        let outcome = (self.answer)(event);
        self.handed.push(event);
        self.count = self.count.saturating_add(1);
        outcome
    }
}

impl<F: Fn(&Event) -> Outcome + Send> Teller<F> {
    ghost use Rattle.up_hooks.specs.Recorded.{AnswersWithCodes};

    /// A teller that was handed nothing. The closure must meet the requirements of `Recorder::new`.
    pub fn new(answer: F) -> Self
        requires callable { F.IsAlwaysCallable answer }
        requires codes { AnswersWithCodes F.Fn answer }
        ensures sound { ⟦<Teller<F> as PostHook>⟧.is_sound result }
        ensures handed { ⟦<Teller<F> as PostHook>⟧.handed result ≡ [] }
    {
        Teller {
            answer,
            handed: Trace::new(),
            count: 0,
        }
    }
}

impl<F> Teller<F> {
    /// The number of events that it was handed, up to 2^64 - 1.
    pub fn count(&self) -> u64
        ensures { result ≡ min (length self.now.handed.items) (2 ^ 64 - 1) }
    {
        self.count
    }
}
