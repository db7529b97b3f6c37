//! A post-hook whose events are settled only once they are acknowledged.
ghost use Rattle.std.specs.Prelude.{◌≡◌, ◌-◌, ◌^◌, ◌++◌, [], length, min, true};
ghost use Rattle.up_hooks.specs.Waiting.{as_list};
ghost use Rattle.up_hooks.specs.declared.post_hook.Outcome.TheVariants.{Done};

use crate::delivery::Delivery;
use crate::post_hook::{Outcome, PostHook};
use std::marker::Send;
use up_events::{Event, Id, NoMemory, Trace};
use up_machine::Details;

/// A post-hook that delivers each event to somebody who acknowledges it. It has a place for one event, which it keeps
/// until that is acknowledged. Until then it has no room for another one, so its lane waits and tries again, as it does
/// when memory runs out.
#[derive(Drop)]
pub struct Courier<D: Delivery> {
    delivery: D,
    /// The event that it was handed last, if that isn't acknowledged yet.
    waiting: Option<Event>,
    handed: Trace<Event>,
    /// The number of events that were acknowledged, up to 2^64 - 1.
    count: u64,
    ghost all: { handed.items ≡ D.acknowledged delivery ++ as_list waiting },
    ghost counted: { count ≡ min (length (D.acknowledged delivery)) (2 ^ 64 - 1) },
}

impl<D: Delivery + Send> PostHook for Courier<D> {
    ghost use Rattle.std.specs.Prelude.{⊤, is_none};

    ghost is_sound = { λ _. ⊤ };

    ghost handed = { λ c. c.handed.items };

    ghost has_room = { λ c. is_none c.waiting };

    ghost is_settled = { λ c. is_none c.waiting };

    ghost may_answer = { λ _ _ outcome. outcome ≡ Done };

    fn is_settled(&self) -> bool {
        self.waiting.is_none()
    }

    fn ready(&mut self) -> Result<(), NoMemory> {
        if let Some(event) = self.waiting {
            if !self.delivery.deliver(&event) {
                return Err(NoMemory);
            }
            self.waiting = None;
            self.count = self.count.saturating_add(1);
        }
        Ok(())
    }

    fn needs_details(&self) -> bool {
        self.delivery.needs_details()
    }

    fn asks_about(&self) -> Option<Id> {
        let event = self.waiting?;
        if self.delivery.asks_about(&event) {
            Some(event.id)
        } else {
            None
        }
    }

    fn learn(&mut self, details: Details) {
        self.delivery.learn(details);
    }

    fn hand(&mut self, event: &Event) -> Outcome {
        self.handed.push(event);
        self.waiting = Some(*event);
        Outcome::Done
    }
}

impl<D: Delivery + Send> Courier<D> {
    ghost use Rattle.up_hooks.specs.Couriers.{delivery_of, waiting_of};

    /// A courier that was handed nothing, over a delivery by which nothing was acknowledged.
    pub fn new(delivery: D) -> Self
        requires { D.acknowledged delivery ≡ [] }
        ensures delivery { delivery_of result ≡ delivery }
        ensures sound { ⟦<Courier<D> as PostHook>⟧.is_sound result }
        ensures handed { ⟦<Courier<D> as PostHook>⟧.handed result ≡ [] }
    {
        Courier {
            delivery,
            waiting: None,
            handed: Trace::new(),
            count: 0,
        }
    }

    /// The way of its events. What was acknowledged there is what the courier was handed, or all but the last event.
    /// If the courier is settled, it is everything.
    pub fn delivery(&self) -> &D
        ensures delivery { result.now ≡ delivery_of self.now }
        ensures all { ⟦<Courier<D> as PostHook>⟧.handed self.now
            ≡ D.acknowledged result.now ++ waiting_of self.now }
        ensures settled { ⟦<Courier<D> as PostHook>⟧.is_settled self.now ≡ true
            → D.acknowledged result.now ≡ ⟦<Courier<D> as PostHook>⟧.handed self.now }
    {
        &self.delivery
    }
}

impl<D: Delivery> Courier<D> {
    ghost use Rattle.up_hooks.specs.Couriers.{delivery_of};

    /// The number of events that were acknowledged, up to 2^64 - 1.
    pub fn count(&self) -> u64
        ensures { result ≡ min (length (D.acknowledged (delivery_of self.now))) (2 ^ 64 - 1) }
    {
        self.count
    }
}
