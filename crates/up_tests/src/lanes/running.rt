//! Lanes that run: what they call if their queue is empty, and a lane in a thread.
ghost use Rattle.std.specs.Prelude.{◌≡◌, ◌≤◌, [], length, take};
ghost use Rattle.up_queue.specs.Line.{IsOrderly};

use super::parts::{Listing, hold, items, put_all, put_at};
use crate::same::expect_same;
use std::alloc::Global;
use std::marker::Model;
use std::process::Abort;
use std::sync::atomic::{AtomicU64, Ordering};
use std::sync::{Mutex, Wait};
use std::thread;
use up_lanes::{How, Lane, Refill};
use up_queue::{Item, PutEnd, TakeEnd, lane_queue};

/// Items that are put one after another.
#[derive(Drop)]
struct Supply {
    put_end: PutEnd,
    items: Vec<Item>,
    place: usize,
}

impl Model for Supply {
    ghost use Rattle.std.specs.Prelude.{ℕ, ◌≡◌, ◌≤◌, length, take};
    ghost use Rattle.up_queue.specs.Line.{IsOrderly};

    ghost Value = { ℕ };

    ghost view = { λ s. s.place };

    ghost invariant = { λ s. record {
      orderly : IsOrderly s.items.items;
      place : s.place ≤ length s.items.items;
      before : s.put_end.put ≡ take s.place s.items.items;
    } };
}

impl Supply {
    fn new(put_end: PutEnd, items: Vec<Item>) -> Supply
        requires orderly { IsOrderly items.items }
        requires new { put_end.put ≡ [] }
    {
        Supply {
            put_end,
            items,
            place: 0,
        }
    }

    /// Puts the next item, if there is one and the queue has room for it.
    fn put_next<R: Wait>(&mut self, rt: &R) {
        if self.place < self.items.len()
            && put_at(rt, &mut self.put_end, &self.items, self.place).is_ok()
        {
            self.place += 1;
        }
    }
}

/// Fills the queue of lane 7, with one item at each call of one kind, and counts the calls.
#[derive(Drop)]
struct Counted {
    supply: Mutex<Supply>,
    fills_by_refill: bool,
    refills: AtomicU64,
    waits: AtomicU64,
    /// Calls for another lane, and waits after another number of items than were put.
    strays: AtomicU64,
}

impl Counted {
    fn new(supply: Supply, fills_by_refill: bool) -> Counted {
        Counted {
            supply: Mutex::new(supply),
            fills_by_refill,
            refills: AtomicU64::new(0),
            waits: AtomicU64::new(0),
            strays: AtomicU64::new(0),
        }
    }

    /// The numbers of refills, waits and strays.
    fn counts(&self) -> [u64; 3] {
        [
            self.refills.load(Ordering::SeqCst),
            self.waits.load(Ordering::SeqCst),
            self.strays.load(Ordering::SeqCst),
        ]
    }
}

impl Refill for Counted {
    fn refill<R: Wait>(&self, rt: &R, lane: u64) {
        self.refills.fetch_add(1, Ordering::SeqCst);
        if lane != 7 {
            self.strays.fetch_add(1, Ordering::SeqCst);
        }
        if self.fills_by_refill {
            self.supply.lock(rt).put_next(rt);
        }
    }

    fn wait<R: Wait>(&self, rt: &R, lane: u64, taken: u64) {
        let count = self.waits.fetch_add(1, Ordering::SeqCst);
        if lane != 7 || taken != count {
            self.strays.fetch_add(1, Ordering::SeqCst);
        }
        self.supply.lock(rt).put_next(rt);
    }
}

/// What fills a queue of one place with the items of four uploads, and the end from which they are taken.
fn counting_calls(rt: &impl Abort, alloc: Global, fills_by_refill: bool) -> (Counted, TakeEnd)
    ensures { result.1.taken ≡ [] }
{
    let (put_end, take_end) = lane_queue(alloc, 1).expect(rt, "a queue");
    let supply = Supply::new(put_end, items(alloc, 4).expect(rt, "memory"));
    (Counted::new(supply, fills_by_refill), take_end)
}

/// Checks that lane 7 is handed everything, and how often it waits.
fn hold_waits(rt: &(impl Wait + Abort), alloc: Global, fills_by_refill: bool, waits: u64) {
    let (counted, take_end) = counting_calls(rt, alloc, fills_by_refill);
    let end = Lane::new(7, take_end, Listing::new(alloc, 0, 0)).run(rt, &counted);
    hold(rt, alloc, &end, How::Drained, 4);
    expect_same(rt, &(end.lane, counted.counts()), &(7, [9, waits, 0]));
}

#[test]
fn refills_first_and_then_sleeps(rt: HostRuntime) {
    hold_waits(&rt, rt.alloc(), true, 0);
    hold_waits(&rt, rt.alloc(), false, 9);
}

/// Another thread puts the items.
struct Elsewhere;

impl Refill for Elsewhere {
    fn refill<R: Wait>(&self, _rt: &R, _lane: u64) {}

    fn wait<R: Wait>(&self, _rt: &R, _lane: u64, _taken: u64) {
        thread::yield_now();
    }
}

#[test]
fn runs_in_a_thread_of_its_own(rt: HostRuntime) {
    let items = items(rt.alloc(), 4).expect(&rt, "memory");
    let all = items.as_slice();
    let (put_end, take_end) = lane_queue(rt.alloc(), 1).expect(&rt, "a queue");
    let lane = Lane::new(0, take_end, Listing::new(rt.alloc(), 0, 0));
    let (_, end) = thread::join(
        &rt,
        ||
            requires { IsOrderly all.now × (put_end.put ≡ []) }
        { put_all(&rt, put_end, all) },
        || lane.run(&rt, &Elsewhere),
    );
    hold(&rt, rt.alloc(), &end, How::Drained, 4);
}
