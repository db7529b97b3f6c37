//! The log of a lane, of which the first events can be forgotten.
ghost use Rattle.std.specs.Prelude.{◌≡◌, ◌+◌, ◌-◌, ◌*◌, ◌≤◌, ◌<◌, ◌∷◌, ◌++◌, []};
ghost use Rattle.std.specs.Prelude.{length, drop, slice_get, Some, OnOk, OnErr, IfOk, vec_capacity};

use crate::blocks::new_block;
use crate::event::Event;
use crate::fault::NoMemory;
use crate::room::make_room_by;
use crate::trace::Trace;
use std::alloc::Global;
use std::marker::Model;

/// The number of events that a block has room for.
const BLOCK: u64 = 1_024;

/// The smallest number of places by which the list of blocks grows.
const LEAST_STEP: usize = 16;

/// A log of events, of which the first can be forgotten. The others are in blocks of one size. Adding an event starts
/// at most one block. Forgetting events moves none: it frees the blocks that contain no other events.
#[derive(Drop)]
pub struct Tail {
    all: Trace<Event>,
    /// The number of events of the log, with the forgotten ones.
    len: u64,
    /// The number of forgotten events.
    first: u64,
    /// The number of forgotten events whose blocks were freed.
    base: u64,
    blocks: Vec<Vec<Event>>,
}

impl Model for Tail {
    ghost use Rattle.up_events.specs.Left.{Left, left, IsLeft};

    ghost Value = { Left };

    ghost view = { λ t. left t.all.items t.first t.base t.blocks.items };

    ghost invariant = { λ t. IsLeft t.all.items t.len t.first t.base t.blocks.items };
}

/// Removes the first `count` blocks.
fn drop_front(blocks: &mut Vec<Vec<Event>>, count: usize)
    requires { count ≤ length blocks.old.items }
    ensures { blocks.new.items ≡ drop count blocks.old.items }
{
    drop(blocks.drain(..count));
}

impl Tail {
    ghost use Rattle.up_events.specs.Left.{log_length};

    /// An empty log.
    pub fn new(alloc: Global) -> Tail
        ensures first { result.first ≡ 0 }
        ensures events { result.events ≡ [] }
    {
        Tail {
            all: Trace::new(),
            len: 0,
            first: 0,
            base: 0,
            blocks: Vec::new(alloc),
        }
    }

    /// The number of events of the log, with the forgotten ones.
    pub fn len(&self) -> u64
        ensures { result ≡ log_length self.now }
    {
        self.len
    }

    /// The event at this place of the log. It must not be forgotten.
    pub fn event_at(&self, place: u64) -> Event
        requires there { self.now.first ≤ place }
        requires within { place < log_length self.now }
        ensures { slice_get self.now.events (place - self.now.first) ≡ Some result }
    {
        let at = place - self.base;
        self.blocks[(at / BLOCK) as usize][(at % BLOCK) as usize]
    }

    /// A copy of the events that are not forgotten. `NoMemory` if memory runs out.
    pub fn events(&self, alloc: Global) -> Result<Vec<Event>, NoMemory>
        ensures { IfOk result (λ events. events.items ≡ self.now.events) }
    {
        let mut events = Vec::new(alloc);
        for place in self.first..self.len() {
            events.push(self.event_at(place))?;
        }
        Ok(events)
    }

    /// Forgets the events before this place of the log.
    pub fn forget(&mut self, place: u64)
        requires there { self.old.first ≤ place }
        requires within { place ≤ log_length self.old }
        ensures first { self.new.first ≡ place }
        ensures events { self.new.events ≡ drop (place - self.old.first) self.old.events }
    {
        let count = (place - self.base) / BLOCK;
        drop_front(&mut self.blocks, count as usize);
        self.base += count * BLOCK;
        self.first = place;
    }

    /// Makes room for two more events. `NoMemory` if memory runs out, or if the log would have more than 2^64 - 1
    /// events, the most that can be counted.
    pub fn reserve(&mut self) -> Result<(), NoMemory>
        ensures first { self.new.first ≡ self.old.first }
        ensures events { self.new.events ≡ self.old.events }
        ensures ok { OnOk result (2 ≤ self.new.room) }
    {
        if self.len > u64::MAX - 2 {
            return Err(NoMemory);
        }
        let last = (self.len - self.base + 1) / BLOCK;
        if last >= self.blocks.len() as u64 {
            make_room_by(&mut self.blocks, 1, LEAST_STEP)?;
            let block = new_block(*self.blocks.allocator(), BLOCK)?;
            self.blocks.push_reserved(block);
        }
        Ok(())
    }

    /// Adds an event at the end. `reserve` must have made room for it.
    pub fn push_reserved(&mut self, event: Event)
        requires { 0 < self.old.room }
        ensures first { self.new.first ≡ self.old.first }
        ensures events { self.new.events ≡ self.old.events ++ event ∷ [] }
        ensures room { self.old.room ≤ self.new.room + 1 }
    {
        let at = self.len - self.base;
        self.blocks[(at / BLOCK) as usize].push_reserved(event);
        self.all.push(&event);
        self.len += 1;
    }
}
