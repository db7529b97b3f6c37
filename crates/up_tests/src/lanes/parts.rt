//! The parts of the tests of lanes: items for a queue, and a post-hook that can run out of memory.
ghost use Rattle.std.specs.Prelude.{◌≡◌, ◌<◌, ◌≤◌, ◌+◌, ◌++◌, ◌∷◌, [], IfOk, OnOk, OnErr, length, take, true};
ghost use Rattle.up_events.specs.Log.{IsLawful};
ghost use Rattle.up_queue.specs.Line.{IsOrderly};

use crate::same::expect_same;
use std::alloc::{AllocError, Global};
use std::process::Abort;
use std::sync::Wait;
use std::thread;
use up_events::{Accepted, Event, Hook, Id, Journal, Kind, NoMemory, logs_are_lawful};
use up_hooks::{Outcome, PostHook};
use up_lanes::{How, LaneEnd};
use up_queue::{Item, PutEnd, PutFault};

/// The log of this number of uploads without bytes.
fn log_of(alloc: Global, uploads: u64) -> Result<Vec<Event>, NoMemory>
    ensures { IfOk result (λ events. IsLawful events.items) }
{
    let mut journal = Journal::new(alloc, 1)?;
    for number in 0..uploads {
        let id = Id::new(u128::from(number));
        if !journal.knows(id) {
            journal.note(Accepted::Created {
                id,
                length: Some(0),
                kind: Kind::Plain,
            })?;
        }
    }
    // For the prover: a law, which does nothing when it runs.
    logs_are_lawful();
    let _legal = journal.accepted();
    journal.lane_log(alloc, 0)
}

/// The items of a lane with this number of uploads without bytes: two events of each, and the end.
pub fn items(alloc: Global, uploads: u64) -> Result<Vec<Item>, NoMemory>
    ensures { IfOk result (λ items. IsOrderly items.items) }
{
    let events = log_of(alloc, uploads)?;
    let mut items = Vec::new(alloc);
    for event in &events {
        items.push(Item::Event(*event))?;
    }
    items.push(Item::End)?;
    Ok(items)
}

/// The events of this number of uploads without bytes, as they must be handed over.
fn wanted(alloc: Global, uploads: u64) -> Result<Vec<Event>, AllocError> {
    let mut events = Vec::new(alloc);
    for upload in 0..uploads {
        for (number, hook) in [(1, Hook::Create), (2, Hook::Finish)] {
            events.push(Event {
                id: Id::new(u128::from(upload)),
                number,
                hook,
                offset: 0,
                length: Some(0),
            })?;
        }
    }
    Ok(events)
}

/// Checks how a lane ended, and that it was handed all events of this number of uploads without bytes.
pub fn hold(rt: &impl Abort, alloc: Global, end: &LaneEnd<Listing>, how: How, uploads: u64) {
    let wanted = wanted(alloc, uploads).expect(rt, "memory");
    expect_same(
        rt,
        &(end.how, end.hook.events.as_slice()),
        &(how, wanted.as_slice()),
    );
}

/// Puts the item at this place of the list, after those before it.
pub fn put_at<R: Wait>(
    rt: &R,
    end: &mut PutEnd,
    items: &[Item],
    place: usize,
) -> Result<(), PutFault>
    requires orderly { IsOrderly items.now }
    requires place { place < length items.now }
    requires before { end.old.put ≡ take place items.now }
    ensures queue { end.new.queue ≡ end.old.queue }
    ensures put { OnOk result (end.new.put ≡ take (place + 1) items.now) }
    ensures full { OnErr result (end.new ≡ end.old) }
{
    end.put(rt, items[place])
}

/// Puts the items from this place on, as far as there is room, and returns the place after them.
pub fn fill<R: Wait>(rt: &R, end: &mut PutEnd, items: &[Item], place: usize) -> usize
    requires orderly { IsOrderly items.now }
    requires place { place ≤ length items.now }
    requires before { end.old.put ≡ take place items.now }
    ensures queue { end.new.queue ≡ end.old.queue }
    ensures place { result ≤ length items.now }
    ensures put { end.new.put ≡ take result items.now }
{
    for next in place..items.len() {
        if put_at(rt, end, items, next).is_err() {
            return next;
        }
    }
    items.len()
}

/// Puts all of the items, in order.
pub fn put_all<R: Wait>(rt: &R, mut end: PutEnd, items: &[Item]) -> PutEnd
    requires orderly { IsOrderly items.now }
    requires new { end.put ≡ [] }
    ensures queue { result.queue ≡ end.queue }
{
    let mut place = 0;
    for _ in rt.forever() {
        place = fill(rt, &mut end, items, place);
        if place == items.len() {
            break;
        }
        thread::yield_now();
    }
    end
}

/// A post-hook that lists the events. Once it has `refused_at` of them, memory runs out in its next `refusals` calls.
#[derive(Drop)]
pub struct Listing {
    pub events: Vec<Event>,
    refused_at: usize,
    refusals: u64,
}

impl Listing {
    /// A post-hook that was handed nothing.
    pub fn new(alloc: Global, refused_at: usize, refusals: u64) -> Self
        ensures { result.events.items ≡ [] }
    {
        Listing {
            events: Vec::new(alloc),
            refused_at,
            refusals,
        }
    }
}

impl PostHook for Listing {
    ghost use Rattle.std.specs.Prelude.{◌≡◌, ⊤, nat_lt, vec_len, vec_capacity};
    ghost use Rattle.up_hooks.specs.declared.post_hook.Outcome.TheVariants.{Done};

    ghost is_sound = { λ _. ⊤ };

    ghost handed = { λ k. k.events.items };

    ghost has_room = { λ k. nat_lt (vec_len k.events) (vec_capacity k.events) };

    ghost is_settled = { λ _. true };

    ghost may_answer = { λ _ _ outcome. outcome ≡ Done };

    fn is_settled(&self) -> bool {
        true
    }

    fn ready(&mut self) -> Result<(), NoMemory>
        ensures same { self.new.events.items ≡ self.old.events.items }
        ensures room { OnOk result (⟦<Listing as PostHook>⟧.has_room self.new ≡ true) }
    {
        if self.events.len() == self.refused_at && self.refusals > 0 {
            self.refusals -= 1;
            return Err(NoMemory);
        }
        Ok(self.events.reserve(1)?)
    }

    fn hand(&mut self, event: &Event) -> Outcome
        requires room { ⟦<Listing as PostHook>⟧.has_room self.old ≡ true }
        ensures added { self.new.events.items ≡ self.old.events.items ++ event.now ∷ [] }
        ensures answer { ⟦<Listing as PostHook>⟧.may_answer self.old event.now result }
    {
        self.events.push_reserved(*event);
        Outcome::Done
    }
}
