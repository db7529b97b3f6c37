//! A post-hook that keeps the events that it was handed.
ghost use Rattle.std.specs.Prelude.{◌≡◌, ◌++◌, ◌∷◌, [], true, OnOk};

use crate::post_hook::{Outcome, PostHook};
use std::alloc::Global;
use up_events::{Event, NoMemory, make_room};

/// A post-hook that calls a closure on each event that it is handed, and keeps the event with the outcome. A failure is
/// kept like any other outcome.
#[derive(Drop)]
pub struct Recorder<F> {
    answer: F,
    pairs: Vec<(Event, Outcome)>,
}

impl<F: Fn(&Event) -> Outcome + Send> PostHook for Recorder<F> {
    ghost use Rattle.std.specs.Fn.{FnReturnsAt};
    ghost use Rattle.std.specs.Prelude.{nat_lt, vec_len, vec_capacity};
    ghost use Rattle.up_hooks.specs.Recorded.{AreAnswers, AnswersWithCodes, closure_of, recorded_events, recorded_by};

    ghost is_sound = { λ r. F.IsAlwaysCallable r.answer × AnswersWithCodes F.Fn r.answer
        × AreAnswers F.Fn r.answer r.pairs.items };

    ghost handed = { λ r. recorded_events r.pairs.items };

    ghost has_room = { λ r. nat_lt (vec_len r.pairs) (vec_capacity r.pairs) };

    ghost is_settled = { λ _. true };

    ghost may_answer = { λ r event outcome. FnReturnsAt F.Fn r.answer event outcome };

    fn is_settled(&self) -> bool {
        true
    }

    fn ready(&mut self) -> Result<(), NoMemory>
        ensures closure { closure_of self.new ≡ closure_of self.old }
        ensures same { recorded_by self.new ≡ recorded_by self.old }
        ensures room { OnOk result (⟦<Recorder<F> as PostHook>⟧.has_room self.new ≡ true) }
    {
        Ok(make_room(&mut self.pairs, 1)?)
    }

    fn hand(&mut self, event: &Event) -> Outcome
        requires sound { ⟦<Recorder<F> as PostHook>⟧.is_sound self.old }
        requires room { ⟦<Recorder<F> as PostHook>⟧.has_room self.old ≡ true }
        ensures closure { closure_of self.new ≡ closure_of self.old }
        ensures answer { FnReturnsAt F.Fn (closure_of self.old) event.now result }
        ensures added { recorded_by self.new ≡ recorded_by self.old ++ (event.now, result) ∷ [] }
    {
        let outcome = (self.answer)(event);
        self.pairs.push_reserved((*event, outcome));
        outcome
    }
}

impl<F: Fn(&Event) -> Outcome + Send> Recorder<F> {
    ghost use Rattle.up_hooks.specs.Recorded.{AnswersWithCodes, closure_of};

    /// A recorder that was handed nothing. Takes no memory.
    ///
    /// The closure must accept every event. It must return, since its lane waits for it. It may return `Failed` only
    /// with the codes 1 to 99. If its body does not show that, a clause at the closure does:
    /// `ensures { IsTrue (has_code result) }`. It is called on one event at a time, by the thread of its lane. What it
    /// shares with the closures of other lanes may be used by several threads at once.
    pub fn new(alloc: Global, answer: F) -> Self
        requires callable { F.IsAlwaysCallable answer }
        requires codes { AnswersWithCodes F.Fn answer }
        ensures answer { closure_of result ≡ answer }
        ensures sound { ⟦<Recorder<F> as PostHook>⟧.is_sound result }
        ensures handed { ⟦<Recorder<F> as PostHook>⟧.handed result ≡ [] }
    {
        Recorder {
            answer,
            pairs: Vec::new(alloc),
        }
    }
}

impl<F> Recorder<F> {
    ghost use Rattle.up_hooks.specs.Recorded.{recorded_by};

    /// The events that it was handed, in order, each with the outcome from the closure. Takes no memory.
    pub fn list(&self) -> &[(Event, Outcome)]
        ensures { result.now ≡ recorded_by self.now }
    {
        self.pairs.as_slice()
    }
}
