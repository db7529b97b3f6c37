//! Somebody who acknowledges events, up to a number.
ghost use Rattle.std.specs.Prelude.{◌≡◌, []};

use std::sync::atomic::{AtomicU64, Ordering};
use up_events::{Event, Trace};
use up_hooks::Delivery;

/// Acknowledges as many events as there are in `left`, which somebody else may change.
#[derive(Drop)]
pub struct Desk<'a> {
    left: &'a AtomicU64,
    /// The number of the first event that was acknowledged. 0 if there is none.
    pub first: u64,
    acknowledged: Trace<Event>,
}

impl<'a> Desk<'a> {
    /// No event was acknowledged.
    pub fn new(left: &'a AtomicU64) -> Self
        ensures { result.acknowledged.items ≡ [] }
    {
        Desk {
            left,
            first: 0,
            acknowledged: Trace::new(),
        }
    }
}

impl Delivery for Desk<'_> {
    ghost acknowledged = { λ d. d.acknowledged.items };

    fn deliver(&mut self, event: &Event) -> bool {
        let left = self.left.load(Ordering::SeqCst);
        if left == 0 {
            return false;
        }
        self.left.store(left - 1, Ordering::SeqCst);
        if self.first == 0 {
            self.first = event.number;
        }
        self.acknowledged.push(event);
        true
    }
}
