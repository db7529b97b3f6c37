//! The receiver of a lane's events.
ghost use Rattle.std.specs.Prelude.{◌≡◌, ◌++◌, ◌∷◌, [], true, OnOk};

use up_events::{Event, Id, NoMemory};
use up_machine::Details;

/// The result of handing an event to a post-hook. In both cases the event has been handed over: it is not handed over
/// again, and the lane continues.
#[derive(Clone, Copy, Debug, PartialEq, Eq)]
pub enum Outcome {
    Done,
    /// What was started for the event has failed. The operator chooses the meaning of the code; that of a `Recorder` is
    /// 1 to 99.
    Failed(u8),
}

/// The receiver of a lane's events, one after another, in the thread that runs the lane. For each event, `ready` first
/// makes room, and then `hand` is given the event. A post-hook may keep an event until somebody else has acknowledged
/// it; until then it is not settled, and it has no room for another event.
pub trait PostHook: Send {
    ghost use Rattle.std.specs.Prelude.{List, Bool};
    ghost use Rattle.up_events.specs.declared.event.Event.{Event};
    ghost use Rattle.up_hooks.specs.declared.post_hook.Outcome.{Outcome};

    /// The precondition of its calls, which every call preserves.
    ghost is_sound: { Self → Type 0 };

    /// The events that it was handed, in order.
    ghost handed: { Self → List Event };

    /// Whether there is room for one more event.
    ghost has_room: { Self → Bool };

    /// Whether all events that it was handed are where they belong.
    ghost is_settled: { Self → Bool };

    /// The outcomes that it may return for an event. A call never adds an outcome that was not possible before.
    ghost may_answer: { Self → Event → Outcome → Type 0 };

    /// Whether all events that it was handed are where they belong. If it is not, `ready` goes on with the last one.
    fn is_settled(&self) -> bool
        ensures { result ≡ is_settled self.now };

    /// Settles the last event, and makes room for one more, before that event is taken from its queue, so that no event
    /// is lost if there is no room. `NoMemory` if the event can't be settled yet, or if memory runs out; it may then be
    /// called again.
    fn ready(&mut self) -> Result<(), NoMemory>
        requires { is_sound self.old }
        ensures sound { is_sound self.new }
        ensures same { handed self.new ≡ handed self.old }
        ensures alike { (event : Event) (outcome : Outcome)
            → may_answer self.new event outcome → may_answer self.old event outcome }
        ensures room { OnOk result (has_room self.new ≡ true) }
        ensures settled { OnOk result (is_settled self.new ≡ true) }
        ensures stays_settled { is_settled self.old ≡ true → is_settled self.new ≡ true };

    /// Whether the last call of `ready` failed because events are held back for now, and not for want of memory. Nobody
    /// is told that the lane waits then.
    fn holds_back(&self) -> bool {
        false
    }

    /// Whether it ever asks what uploads were created with, so that this is kept of removed ones.
    fn needs_details(&self) -> bool {
        false
    }

    /// The upload of its last event, if it has to learn what that was created with before it can settle the event.
    fn asks_about(&self) -> Option<Id> {
        None
    }

    /// Learns what the upload was created with that it asks about.
    fn learn(&mut self, _details: Details)
        requires { is_sound self.old }
        ensures sound { is_sound self.new }
        ensures same { handed self.new ≡ handed self.old }
        ensures alike { (event : Event) (outcome : Outcome)
            → may_answer self.new event outcome → may_answer self.old event outcome }
        ensures settled { is_settled self.new ≡ is_settled self.old }
    {}

    /// Hands over an event. `ready` must have made room for it. Takes no memory.
    fn hand(&mut self, event: &Event) -> Outcome
        requires sound { is_sound self.old }
        requires room { has_room self.old ≡ true }
        ensures sound { is_sound self.new }
        ensures added { handed self.new ≡ handed self.old ++ event.now ∷ [] }
        ensures alike { (event : Event) (outcome : Outcome)
            → may_answer self.new event outcome → may_answer self.old event outcome }
        ensures answer { may_answer self.old event.now result };
}
