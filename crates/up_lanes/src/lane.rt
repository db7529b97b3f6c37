//! A lane, and its steps.
ghost use Rattle.std.specs.Prelude.{◌≡◌, [], false, IfSome};
ghost use Rattle.up_events.specs.Delivery.{IsPrefix};
ghost use Rattle.up_events.specs.Log.{IsLawful};
ghost use Rattle.up_lanes.specs.HowOf.{is_drained};
ghost use Rattle.up_lanes.specs.LaneViews.{lane_view, StaysAlike};
ghost use Rattle.up_lanes.specs.StepsTo.{IsLaneAt, StepsTo};
ghost use Rattle.up_machine.specs.Details.{details_id};

use crate::known::Known;
use crate::lane_end::{How, LaneEnd};
use crate::refill::Refill;
use std::marker::Model;
use std::sync::Wait;
use std::thread::Parker;
use std::time::Duration;
use up_events::{Event, Hook, Id};
use up_hooks::PostHook;
use up_machine::Details;
use up_queue::{Item, TakeEnd};

/// How many times a lane with an empty queue naps before it sleeps until it is woken. While it naps nobody has to wake
/// it, and the items that arrive are handed over together.
const MAX_NAPS: u32 = 10;

/// The length of a nap, in microseconds.
const NAP: u64 = 1_000;

/// The result of a step.
#[derive(Clone, Copy, Debug, PartialEq, Eq)]
pub enum StepEnd {
    /// One event was taken and handed over.
    Handed,
    /// The queue returned no item. According to the contract, this is possible although it holds one.
    Nothing,
    /// The end was taken, in this step or in an earlier one. No later step does anything.
    Ended,
    /// The post-hook was not ready for one more event, so nothing was taken.
    NoMemory,
}

/// The end of a queue at which items are taken, and the post-hook that is handed the events.
#[derive(Drop)]
pub struct Lane<H: PostHook> {
    lane: u64,
    take_end: TakeEnd,
    hook: H,
    /// Whether the end was taken.
    ended: bool,
    /// The number of items that were taken, modulo 2^64.
    taken: u64,
    /// The upload of the last event, if this was its removal and may not be settled yet.
    removed: Option<Id>,
    /// What its uploads were created with, as far as it was told.
    known: Known,
}

/// The upload that was removed, if the event is the one of its removal.
fn removed_by(event: &Event) -> Option<Id> {
    if event.hook == Hook::Terminate {
        Some(event.id)
    } else {
        None
    }
}

impl<H: PostHook> Model for Lane<H> {
    ghost use Rattle.up_lanes.specs.LaneViews.{LaneView};

    ghost Value = { LaneView H };

    ghost use Rattle.std.specs.Prelude.{◌≡◌, ◌%◌, ◌^◌, length, true};
    ghost use Rattle.up_events.specs.Log.{IsLawful};
    ghost use Rattle.up_queue.specs.Line.{items_if};
    ghost use Rattle.up_lanes.specs.LaneViews.{lane_view};

    ghost view = { λ l. lane_view l.lane l.take_end.queue (H.handed l.hook) l.ended l.hook };

    ghost invariant = { λ l. record {
      sound : H.is_sound l.hook;
      kept : l.take_end.taken ≡ items_if (H.handed l.hook) l.ended;
      lawful : IsLawful (H.handed l.hook);
      counted : l.taken ≡ length l.take_end.taken % 2 ^ 64;
      settled : l.ended ≡ true → H.is_settled l.hook ≡ true;
    } };
}

impl<H: PostHook> Lane<H> {
    /// A lane that has handed nothing to its post-hook, with a queue from which nothing was taken. Takes no memory.
    pub fn new(lane: u64, take_end: TakeEnd, hook: H) -> Lane<H>
        requires sound { H.is_sound hook }
        requires taken { take_end.taken ≡ [] }
        requires handed { H.handed hook ≡ [] }
        ensures { result ≡ lane_view lane take_end.queue [] false hook }
    {
        Lane {
            lane,
            take_end,
            hook,
            ended: false,
            taken: 0,
            removed: None,
            known: Known::new(),
        }
    }

    /// The lane in the state in which it ended, with the same post-hook: what was taken and handed over stays, and a
    /// drained lane takes nothing more. Takes no memory.
    pub fn resume(end: LaneEnd<H>) -> Lane<H>
        requires sound { H.is_sound end.hook }
        ensures { result ≡ lane_view end.lane end.take_end.queue (H.handed end.hook)
            (is_drained end.how) end.hook }
    {
        let LaneEnd {
            lane,
            hook,
            take_end,
            how,
            taken,
            removed,
            known,
        } = end;
        Lane {
            lane,
            take_end,
            hook,
            ended: how.is_drained(),
            taken,
            removed,
            known,
        }
    }

    /// Takes one item once the post-hook has room for an event, and hands the event over. It does not sleep. The result
    /// may be `Nothing` although the queue holds an item.
    pub fn step<R: Wait>(&mut self, rt: &R) -> StepEnd
        ensures step { StepsTo result self.old self.new }
        ensures lawful { IsLawful self.new.handed }
        ensures alike { StaysAlike H.may_answer self.old.hook self.new.hook }
    {
        if self.ended {
            return StepEnd::Ended;
        }
        if self.hook.ready().is_err() {
            return StepEnd::NoMemory;
        }
        self.removed = None;
        let Some(item) = self.take_end.take(rt) else {
            return StepEnd::Nothing;
        };
        self.taken = self.taken.wrapping_add(1);
        match item {
            Item::End => {
                self.ended = true;
                StepEnd::Ended
            }
            Item::Event(event) => {
                self.removed = removed_by(&event);
                self.hook.hand(&event);
                StepEnd::Handed
            }
        }
    }

    /// Learns of the uploads that it was not told of.
    fn ask<R: Wait, T: Refill>(&mut self, rt: &R, refill: &T)
        ensures same { IsLaneAt self.old self.new self.old.handed self.old.ended }
        ensures hook { self.new.hook ≡ self.old.hook }
    {
        let rest = self.known.take_rest();
        if let Some(list) = rest.or_else(|| refill.describe(rt, self.lane)) {
            self.known.learn(list);
        }
    }

    /// What an upload was created with, if that is known or can be learned.
    fn details_of<R: Wait, T: Refill>(&mut self, rt: &R, refill: &T, id: Id) -> Option<Details>
        ensures same { IsLaneAt self.old self.new self.old.handed self.old.ended }
        ensures hook { self.new.hook ≡ self.old.hook }
        ensures own { IfSome result (λ details. details_id details ≡ id) }
    {
        if let Some(details) = self.known.share(id) {
            return Some(details);
        }
        self.ask(rt, refill);
        self.known.share(id)
    }

    /// Finds out for the post-hook what it asks about.
    fn inform<R: Wait, T: Refill>(&mut self, rt: &R, refill: &T)
        ensures same { IsLaneAt self.old self.new self.old.handed self.old.ended }
        ensures alike { StaysAlike H.may_answer self.old.hook self.new.hook }
    {
        if let Some(id) = self.hook.asks_about()
            && let Some(details) = self.details_of(rt, refill, id)
        {
            self.hook.learn(details);
        }
    }

    /// Forgets a removed upload, after all of its events were settled.
    fn forget<R: Wait, T: Refill>(&mut self, rt: &R, refill: &T, id: Id)
        ensures same { IsLaneAt self.old self.new self.old.handed self.old.ended }
        ensures hook { self.new.hook ≡ self.old.hook }
    {
        if !self.known.forget(id) {
            self.ask(rt, refill);
            self.known.forget(id);
        }
    }

    /// Takes a step as `step` does, after it has found out what the post-hook asks about. What a removed upload was
    /// created with is forgotten once all of its events are settled.
    pub fn advance<R: Wait, T: Refill>(&mut self, rt: &R, refill: &T) -> StepEnd
        ensures step { StepsTo result self.old self.new }
        ensures lawful { IsLawful self.new.handed }
        ensures alike { StaysAlike H.may_answer self.old.hook self.new.hook }
    {
        self.inform(rt, refill);
        let removed = self.removed;
        let end = self.step(rt);
        if !matches!(end, StepEnd::NoMemory)
            && let Some(id) = removed
        {
            self.forget(rt, refill, id);
        }
        end
    }

    /// Repeats steps until the end was taken, or until the post-hook has no memory for one more event. If the queue is
    /// empty, it is refilled. If it stays empty, the lane naps a number of times, and then sleeps until there may be an
    /// item.
    pub fn run<R: Wait, T: Refill>(mut self, rt: &R, refill: &T) -> LaneEnd<H>
        ensures sound { H.is_sound result.hook }
        ensures same { (result.lane ≡ self.lane) × (result.take_end.queue ≡ self.queue) }
        ensures handed { IsPrefix self.handed (H.handed result.hook) }
        ensures lawful { IsLawful (H.handed result.hook) }
        ensures alike { StaysAlike H.may_answer self.hook result.hook }
    {
        let mut found_empty: u32 = 0;
        let alarm = Parker::new();
        for _ in rt.forever() {
            match self.advance(rt, refill) {
                StepEnd::Handed => found_empty = 0,
                StepEnd::Nothing if found_empty == 0 => {
                    refill.refill(rt, self.lane);
                    found_empty = 1;
                }
                StepEnd::Nothing if found_empty <= MAX_NAPS => {
                    alarm.park_timeout(rt, Duration::from_micros(NAP));
                    found_empty += 1;
                }
                StepEnd::Nothing => {
                    refill.wait(rt, self.lane, self.taken);
                    found_empty = 0;
                }
                StepEnd::Ended | StepEnd::NoMemory => break,
            }
        }
        self.into_end()
    }

    /// What remains of the lane when it ends in this state.
    fn into_end(self) -> LaneEnd<H>
        ensures sound { H.is_sound result.hook }
        ensures same { (result.lane ≡ self.lane) × (result.take_end.queue ≡ self.queue) }
        ensures hook { result.hook ≡ self.hook }
        ensures handed { H.handed result.hook ≡ self.handed }
        ensures lawful { IsLawful (H.handed result.hook) }
        ensures how { is_drained result.how ≡ self.ended }
    {
        let how = if self.ended {
            How::Drained
        } else {
            How::Stopped
        };
        LaneEnd {
            lane: self.lane,
            hook: self.hook,
            take_end: self.take_end,
            how,
            taken: self.taken,
            removed: self.removed,
            known: self.known,
        }
    }
}
