//! Queues: that they are made, that items pass through, and the use of two threads.
ghost use Rattle.std.specs.Prelude.{◌≡◌, ◌≤◌, [], length, take};
ghost use Rattle.up_queue.specs.Line.{IsOrderly};

use super::parts::{fill, items, put_all};
use crate::same::expect_same;
use std::alloc::Global;
use std::process::Abort;
use std::sync::Wait;
use std::thread;
use up_queue::{Item, QueueFault, TakeEnd, compare, lane_queue};

/// Checks that a queue of this capacity takes as many items as it has room for, and returns them in order.
fn assert_gives_back(rt: &(impl Wait + Abort), alloc: Global, capacity: usize)
    requires { capacity ≤ 9 }
{
    let items = items(alloc, 2).expect(rt, "memory");
    let (mut put_end, mut take_end) = lane_queue(alloc, capacity as u64).expect(rt, "a queue");
    expect_same(rt, &take_end.take(rt), &None);
    let mut place = 0;
    for taken in 0..4 {
        place = fill(rt, &mut put_end, &items, place);
        expect_same(rt, &place, &items.len().min(taken + capacity));
        expect_same(rt, &take_end.take(rt), &items.get(taken).copied());
    }
    expect_same(rt, &compare(put_end, take_end), &u64::from(capacity > 1));
}

/// Takes items until the end is taken, or until there is no room for what was taken.
fn take_all<R: Wait>(rt: &R, mut end: TakeEnd, mut taken: Vec<Item>) -> (TakeEnd, Vec<Item>)
    ensures queue { result.0.queue ≡ end.queue }
{
    for _ in rt.forever() {
        match end.take(rt) {
            None => thread::yield_now(),
            Some(item) => {
                if taken.push(item).is_err() || item == Item::End {
                    break;
                }
            }
        }
    }
    (end, taken)
}

#[test]
fn takes_what_there_is_room_for_and_gives_it_back(rt: HostRuntime) {
    let none = lane_queue(rt.alloc(), 0).err();
    expect_same(&rt, &none, &Some(QueueFault::ZeroCapacity));
    for capacity in 1..4 {
        assert_gives_back(&rt, rt.alloc(), capacity);
    }
}

#[test]
fn a_hundred_thousand_items_between_two_threads(rt: HostRuntime) {
    let items = items(rt.alloc(), 50_000).expect(&rt, "memory");
    expect_same(&rt, &items.len(), &100_001);
    let all = items.as_slice();
    let (put_end, take_end) = lane_queue(rt.alloc(), 1).expect(&rt, "a queue");
    let room = Vec::new(rt.alloc());
    let (put_end, (take_end, taken)) = thread::join(
        &rt,
        ||
            requires { IsOrderly all.now × (put_end.put ≡ []) }
            ensures { result.queue ≡ put_end.queue }
        { put_all(&rt, put_end, all) },
        ||
            ensures { result.0.queue ≡ take_end.queue }
        { take_all(&rt, take_end, room) },
    );
    assert!(rt; taken == items);
    expect_same(&rt, &compare(put_end, take_end), &0);
}
