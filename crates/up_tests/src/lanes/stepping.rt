//! Lanes that are stepped by hand.
ghost use Rattle.std.specs.Prelude.{◌≡◌, [], IfOk};

use super::parts::{Listing, fill, hold, items, put_at};
use crate::desk::Desk;
use crate::same::expect_same;
use std::alloc::Global;
use std::process::Abort;
use std::sync::Wait;
use std::sync::atomic::{AtomicU64, Ordering};
use std::test::Fail;
use up_hooks::{Courier, PostHook};
use up_lanes::{How, Lane, LaneEnd, Refill, StepEnd};
use up_queue::{Item, PutEnd, QueueFault, lane_queue};

/// A lane for which everything was put already.
struct NoMore;

impl Refill for NoMore {
    fn refill<R: Wait>(&self, _rt: &R, _lane: u64) {}

    fn wait<R: Wait>(&self, _rt: &R, _lane: u64, _taken: u64) {}
}

/// A lane with a queue of this capacity, and the end of the queue into which items are put.
fn new_lane(alloc: Global, capacity: u64) -> Result<(PutEnd, Lane<Listing>), QueueFault>
    ensures { IfOk result (λ r. r.0.put ≡ []) }
{
    let (put_end, take_end) = lane_queue(alloc, capacity)?;
    Ok((put_end, Lane::new(0, take_end, Listing::new(alloc, 0, 0))))
}

/// Checks that a lane with a queue of this capacity is handed an event at each step, and that it is handed all of them
/// in order.
fn hands_over_in_order(rt: &(impl Wait + Abort), alloc: Global, capacity: u64) {
    let items = items(alloc, 4).expect(rt, "memory");
    let (mut put_end, mut lane) = new_lane(alloc, capacity).expect(rt, "a lane");
    let mut place = 0;
    for _ in 0..8 {
        place = fill(rt, &mut put_end, &items, place);
        expect_same(rt, &lane.step(rt), &StepEnd::Handed);
    }
    fill(rt, &mut put_end, &items, place);
    hold(rt, alloc, &lane.run(rt, &NoMore), How::Drained, 4)
}

#[test]
fn hands_over_in_order_at_every_capacity(rt: HostRuntime) {
    for capacity in 1..5 {
        hands_over_in_order(&rt, rt.alloc(), capacity);
    }
}

/// The end of a step that takes this item.
fn step_end(item: Item) -> StepEnd {
    match item {
        Item::Event(_) => StepEnd::Handed,
        Item::End => StepEnd::Ended,
    }
}

#[test]
fn finds_nothing_until_more_is_put(rt: HostRuntime) {
    let items = items(rt.alloc(), 4).expect(&rt, "memory");
    let (mut put_end, mut lane) = new_lane(rt.alloc(), 1).expect(&rt, "a lane");
    for place in 0..items.len() {
        let before = lane.step(&rt);
        put_at(&rt, &mut put_end, &items, place).expect(&rt, "a place");
        let steps = [before, lane.step(&rt)];
        expect_same(&rt, &steps, &[StepEnd::Nothing, step_end(items[place])]);
    }
    expect_same(&rt, &[lane.step(&rt), lane.step(&rt)], &[StepEnd::Ended; 2]);
}

/// A lane with all events of four uploads, whose post-hook runs out of memory `refusals` times once it has the events
/// of the first upload.
fn refused_lane(
    rt: &(impl Wait + Abort),
    alloc: Global,
    refusals: u64,
) -> Result<Lane<Listing>, Fail> {
    let items = items(alloc, 4)?;
    let (mut put_end, take_end) = lane_queue(alloc, 9)?;
    expect_same(rt, &fill(rt, &mut put_end, &items, 0), &9);
    Ok(Lane::new(0, take_end, Listing::new(alloc, 2, refusals)))
}

/// Checks that a lane that ended in this way takes no further step, and ends in the same way again.
fn stays_so(rt: &(impl Wait + Abort), mut lane: Lane<Listing>, how: How) {
    let last = if how.is_drained() {
        StepEnd::Ended
    } else {
        StepEnd::NoMemory
    };
    expect_same(rt, &lane.step(rt), &last);
    expect_same(rt, &lane.run(rt, &NoMore).how, &how);
}

/// Checks that a lane stops once it has the events of the first upload, and when it is resumed, ends in this way with
/// the events of this number of uploads.
fn stops_and_ends(
    rt: &(impl Wait + Abort),
    alloc: Global,
    refusals: u64,
    how: How,
    uploads: u64,
) -> Result<(), Fail> {
    let end = refused_lane(rt, alloc, refusals)?.run(rt, &NoMore);
    hold(rt, alloc, &end, How::Stopped, 1);
    let end = Lane::resume(end).run(rt, &NoMore);
    hold(rt, alloc, &end, how, uploads);
    stays_so(rt, Lane::resume(end), how);
    Ok(())
}

#[test]
fn goes_on_where_it_stood(rt: HostRuntime) -> Result<(), Fail> {
    stops_and_ends(&rt, rt.alloc(), 1, How::Drained, 4)?;
    stops_and_ends(&rt, rt.alloc(), u64::MAX, How::Stopped, 1)
}

/// Checks how a lane ended, how many of its events were acknowledged, and whether all were that it took.
fn hold_acknowledged(
    rt: &impl Abort,
    end: &LaneEnd<Courier<Desk<'_>>>,
    how: How,
    count: u64,
    is_settled: bool,
) {
    let found = (end.how, end.hook.count(), end.hook.is_settled());
    expect_same(rt, &found, &(how, count, is_settled));
}

#[test]
fn waits_with_an_event_until_it_is_acknowledged(rt: HostRuntime) {
    let items = items(rt.alloc(), 4).expect(&rt, "memory");
    let (mut put_end, take_end) = lane_queue(rt.alloc(), 9).expect(&rt, "a queue");
    expect_same(&rt, &fill(&rt, &mut put_end, &items, 0), &9);
    let left = AtomicU64::new(3);
    let lane = Lane::new(0, take_end, Courier::new(Desk::new(&left)));
    let end = lane.run(&rt, &NoMore);
    hold_acknowledged(&rt, &end, How::Stopped, 3, false);
    left.store(9, Ordering::SeqCst);
    let end = Lane::resume(end).run(&rt, &NoMore);
    hold_acknowledged(&rt, &end, How::Drained, 8, true);
}
