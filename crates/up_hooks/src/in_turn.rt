//! Two ways of an event, one after the other.
ghost use Rattle.std.specs.Prelude.{◌≡◌, ◌++◌, [], IsTrue, Some};
ghost use Rattle.up_hooks.specs.Waiting.{as_list};

use crate::delivery::Delivery;
use up_events::Event;
use up_machine::Details;

/// Delivers each event by one way, and then by another. It is acknowledged once it is acknowledged on both. An event
/// that only the first way has acknowledged isn't sent there again, and until the second way acknowledges it too, no
/// other event is delivered.
#[derive(Drop)]
pub struct InTurn<A: Delivery, B: Delivery> {
    first: A,
    second: B,
    /// The event that only the first way has acknowledged.
    half: Option<Event>,
    pub ghost both: { A.acknowledged first ≡ B.acknowledged second ++ as_list half },
}

impl<A: Delivery, B: Delivery> InTurn<A, B> {
    /// Two ways, by neither of which anything was acknowledged.
    pub fn new(first: A, second: B) -> Self
        requires first { A.acknowledged first ≡ [] }
        requires second { B.acknowledged second ≡ [] }
        ensures { ⟦<InTurn<A, B> as Delivery>⟧.acknowledged result ≡ [] }
    {
        InTurn {
            first,
            second,
            half: None,
        }
    }

    /// Delivers the event by the first way, unless it was acknowledged there already. Returns whether it is.
    fn deliver_first(&mut self, event: &Event) -> bool
        ensures same { self.new.second ≡ self.old.second }
        ensures half { IsTrue result → self.new.half ≡ Some event.now }
    {
        match self.half {
            Some(half) => half == *event,
            None => {
                let is_acknowledged = self.first.deliver(event);
                if is_acknowledged {
                    self.half = Some(*event);
                }
                is_acknowledged
            }
        }
    }
}

impl<A: Delivery, B: Delivery> Delivery for InTurn<A, B> {
    ghost acknowledged = { λ d. B.acknowledged d.second };

    fn needs_details(&self) -> bool {
        self.first.needs_details() || self.second.needs_details()
    }

    fn asks_about(&self, event: &Event) -> bool {
        if self.half.is_none() {
            self.first.asks_about(event)
        } else {
            self.second.asks_about(event)
        }
    }

    fn learn(&mut self, details: Details) {
        if self.half.is_none() {
            self.first.learn(details);
        } else {
            self.second.learn(details);
        }
    }

    fn deliver(&mut self, event: &Event) -> bool {
        if !self.deliver_first(event) || !self.second.deliver(event) {
            return false;
        }
        self.half = None;
        true
    }
}
