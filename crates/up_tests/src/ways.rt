//! Events that go two ways, one after the other.
use crate::desk::Desk;
use crate::same::expect_same;
use std::sync::atomic::{AtomicU64, Ordering};
use up_events::{Event, Hook, Id};
use up_hooks::{Delivery, InTurn};

/// The event with this number.
fn event(number: u64) -> Event {
    Event {
        id: Id::new(255),
        number,
        hook: Hook::Receive,
        offset: 11,
        length: None,
    }
}

#[test]
fn the_second_way_is_tried_again_alone(rt: HostRuntime) {
    let (first, second) = (AtomicU64::new(2), AtomicU64::new(0));
    let mut way = InTurn::new(Desk::new(&first), Desk::new(&second));
    let before = [
        way.deliver(&event(2)),
        way.deliver(&event(2)),
        way.deliver(&event(3)),
    ];
    let left = first.load(Ordering::SeqCst);
    second.store(2, Ordering::SeqCst);
    let after = [
        way.deliver(&event(3)),
        way.deliver(&event(2)),
        way.deliver(&event(3)),
    ];
    let ends = (first.load(Ordering::SeqCst), second.load(Ordering::SeqCst));
    expect_same(&rt, &(before, left), &([false, false, false], 1));
    expect_same(&rt, &(after, ends), &([false, true, true], (0, 0)));
}
