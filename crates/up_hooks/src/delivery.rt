//! The way of an event to somebody who acknowledges it.
ghost use Rattle.std.specs.Prelude.{◌≡◌, ◌++◌, ◌∷◌, [], if◌then◌else◌};

use up_events::Event;
use up_machine::Details;

/// The way of a lane's events to somebody outside of the server who acknowledges each of them.
pub trait Delivery {
    ghost use Rattle.std.specs.Prelude.{List};
    ghost use Rattle.up_events.specs.declared.event.Event.{Event};

    /// The events that were acknowledged, in order.
    ghost acknowledged: { Self → List Event };

    /// Whether it ever asks what uploads were created with.
    fn needs_details(&self) -> bool {
        false
    }

    /// Whether it has to learn what the event's upload was created with, before it can deliver the event.
    fn asks_about(&self, _event: &Event) -> bool {
        false
    }

    /// Learns what the upload was created with that it asks about.
    fn learn(&mut self, _details: Details)
        ensures { acknowledged self.new ≡ acknowledged self.old }
    {}

    /// Sends the event, and waits a limited time until it is acknowledged. Returns whether it was. If it wasn't, it may
    /// have arrived all the same, and may be sent again.
    fn deliver(&mut self, event: &Event) -> bool
        ensures { acknowledged self.new ≡ (if result
            then acknowledged self.old ++ event.now ∷ [] else acknowledged self.old) };
}
