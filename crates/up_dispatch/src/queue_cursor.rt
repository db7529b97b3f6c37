//! Filling the queue of a lane.
ghost use Rattle.std.specs.Prelude.{◌≡◌, ◌≤◌, ◌+◌, ◌-◌, length, true, false};
ghost use Rattle.up_events.specs.Log.{IsLawful};
ghost use Rattle.up_events.specs.Records.{first_of, lane_log};
ghost use Rattle.up_queue.specs.Line.{end_if, items_if};
ghost use Rattle.up_queue.specs.EndViews.{MayBeFull};

use std::sync::Wait;
use up_events::Journal;
use up_queue::{Item, PutEnd};

/// How filling a queue ended.
#[derive(Clone, Copy, PartialEq, Eq)]
pub enum Filled {
    /// The whole log was put, and after it the end, if no more events come.
    Whole,
    /// The queue may be full, so it took no more.
    Full,
}

/// The put end of a lane's queue, and how much was put.
#[derive(Drop)]
pub struct QueueCursor {
    pub put_end: PutEnd,
    /// How many events of the lane's log were put.
    pub position: u64,
    /// Whether the end was put.
    pub ended: bool,
}

impl QueueCursor {
    ghost use Rattle.up_dispatch.specs.QueuedUpTo.{IsQueuedUpTo};
    ghost use Rattle.up_dispatch.specs.Puts.{Extends};

    /// Puts the events of the lane's log that are left, and after them the end if no more events come (`closed`), until
    /// the queue takes no more.
    pub fn fill<R: Wait>(&mut self, rt: &R, journal: &Journal, lane: u64, closed: bool) -> Filled
        requires queued { IsQueuedUpTo self.old.put_end.queue (lane_log journal.now lane) closed
            self.old }
        requires lawful { IsLawful (lane_log journal.now lane) }
        requires there { first_of journal.now lane ≤ self.old.position }
        ensures queued { IsQueuedUpTo self.old.put_end.queue (lane_log journal.now lane) closed
            self.new }
        ensures onward { self.old.position ≤ self.new.position }
        ensures extends { Extends self.old.put_end self.new.put_end }
        ensures whole { result ≡ Filled.Whole
            → self.new.put_end.put ≡ items_if (lane_log journal.now lane) closed }
        ensures full { result ≡ Filled.Full → MayBeFull self.new.put_end }
    {
        let all = journal.log_len(lane);
        while self.position < all {
            let event = journal.event_at(lane, self.position);
            if self.put_end.put(rt, Item::Event(event)).is_err() {
                return Filled::Full;
            }
            self.position += 1;
        }
        if closed && !self.ended {
            if self.put_end.put(rt, Item::End).is_err() {
                return Filled::Full;
            }
            self.ended = true;
        }
        Filled::Whole
    }

    /// How many events of the lane's log were not taken yet: those that were not put, and those that the queue holds.
    /// `all` is the length of the log.
    pub fn waiting<R: Wait>(&mut self, rt: &R, all: u64) -> u64
        requires within { self.old.position ≤ all }
        requires put { length self.old.put_end.put
            ≤ self.old.position + length (end_if self.old.ended) }
        ensures same { self.new ≡ self.old }
        ensures waiting { (all - self.old.position ≤ result) × (result ≤ all) }
    {
        let held = self.put_end.held(rt);
        let events = if self.ended {
            held.saturating_sub(1)
        } else {
            held
        };
        all - self.position + events
    }
}
