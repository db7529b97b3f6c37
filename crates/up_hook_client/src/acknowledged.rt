//! The events that a hook server has acknowledged.
ghost use Rattle.std.specs.Prelude.{◌≡◌, ◌++◌, ◌∷◌, [], false};
ghost use Rattle.up_hook_client.specs.Answers.{asked_of, status_of};
ghost use Rattle.up_hook_client.specs.Chosen.{is_told_of};
ghost use Rattle.up_hook_client.specs.Heard.{IsSuccess};
ghost use Rattle.up_hook_client.specs.Posts.{enabled_of, events_of};
ghost use Rattle.up_hook_client.specs.Told.{TellsOf};
ghost use Rattle.up_machine.specs.Details.{details_id};

use crate::connection::Answer;
use crate::enabled::Enabled;
use up_events::{Event, Trace};
use up_machine::Details;

/// The events that a hook server has acknowledged, in order. An event gets into this list only by a whole answer of a
/// status of 200 to 299 to a request that told of this event and of what its upload was created with, or because the server
/// isn't told of events of its hook.
#[derive(Drop)]
pub struct Acknowledged {
    enabled: Enabled,
    events: Trace<Event>,
}

impl Acknowledged {
    /// No event, of a server that is told of the events of these hooks.
    pub fn none(enabled: Enabled) -> Self
        ensures enabled { enabled_of result ≡ enabled }
        ensures none { events_of result ≡ [] }
    {
        Acknowledged {
            enabled,
            events: Trace::new(),
        }
    }

    /// Adds an event that was acknowledged by this answer. `_details` is what its upload was created with.
    pub fn add(&mut self, event: &Event, _details: &Details, _answer: &Answer)
        requires success { IsSuccess (status_of _answer.now) }
        requires own { details_id _details.now ≡ event.now.id }
        requires told { TellsOf event.now _details.now (asked_of _answer.now) }
        ensures enabled { enabled_of self.new ≡ enabled_of self.old }
        ensures added { events_of self.new ≡ events_of self.old ++ event.now ∷ [] }
    {
        self.events.push(event);
    }

    /// Whether the server is told of events of this event's hook.
    pub fn takes(&self, event: &Event) -> bool
        ensures { result ≡ is_told_of (enabled_of self.now) event.now.hook }
    {
        self.enabled.tells_of(event.hook)
    }

    /// Adds an event of which the server isn't told.
    pub fn pass(&mut self, event: &Event)
        requires { is_told_of (enabled_of self.old) event.now.hook ≡ false }
        ensures enabled { enabled_of self.new ≡ enabled_of self.old }
        ensures added { events_of self.new ≡ events_of self.old ++ event.now ∷ [] }
    {
        self.events.push(event);
    }
}
