//! What a running lane calls.

use std::marker::Sync;
use std::sync::Wait;
use up_machine::Details;

/// The source of the items for the lanes, and of what is told with them. A running lane calls it, from its own thread.
pub trait Refill: Sync {
    /// Puts the available items into the queue of the lane, as far as it has room. It does not sleep.
    fn refill<R: Wait>(&self, rt: &R, lane: u64);

    /// Sleeps until there may be an item for the lane, which has taken `taken` items, modulo 2^64. It is called only if
    /// the lane found its queue empty, called `refill`, and still found it empty. It must not sleep if more items were
    /// put than taken, if `refill` would put an item, or if the end was taken. It may return without a reason.
    fn wait<R: Wait>(&self, rt: &R, lane: u64, taken: u64);

    /// Hands over what uploads of the lane were created with that it was not told before. `None` if that isn't kept.
    fn describe<R: Wait>(&self, _rt: &R, _lane: u64) -> Option<Vec<Details>> {
        None
    }
}
