//! The two ends of a queue. Contracts describe an end as its queue, the capacity, and the list of what it has put or
//! taken.
ghost use Rattle.std.specs.Prelude.{◌≡◌, ◌<◌, [], ◌∷◌, ◌++◌, ◌↔◌, ◌≤◌, length};
ghost use Rattle.std.specs.Prelude.{Err, IfOk, IfErr, IfSome, OnOk, OnErr, None};
ghost use Rattle.up_queue.specs.declared.fault.QueueFault.TheVariants.{ZeroCapacity};
ghost use Rattle.up_queue.specs.declared.fault.PutFault.TheVariants.{Full};
ghost use Rattle.up_queue.specs.Line.{IsOrderly};
ghost use Rattle.up_queue.specs.EndViews.{AreNewEnds, AreLeft, with_put, with_taken, MayBeFull};

use crate::fault::{PutFault, QueueFault};
use crate::item::Item;
use crate::line::{RuledQueue, held, join, open, pop, push};
use crate::rule::{EndView, Room};
use crossbeam_queue::Pass;
use std::alloc::Global;
use std::marker::{Brand, Model};
use std::sync::{Arc, Wait};
use up_events::NoMemory;

/// The end at which items are put into a queue. It may be in another thread than the `TakeEnd`.
#[derive(Drop)]
pub struct PutEnd {
    line: Arc<RuledQueue, Global>,
    pass: Pass<Item, EndView>,
    /// The number of items that were put, modulo 2^64.
    count: u64,
}

impl Model for PutEnd {
    ghost use Rattle.up_queue.specs.EndViews.{PutEndView};

    ghost Value = { PutEndView };

    ghost use Rattle.up_queue.specs.Inside.{put_end_view, IsPutEnd};

    ghost view = { put_end_view };

    ghost invariant = { IsPutEnd };
}

/// The end at which items are taken out of a queue. It may be in another thread than the `PutEnd`.
#[derive(Drop)]
pub struct TakeEnd {
    line: Arc<RuledQueue, Global>,
    pass: Pass<Item, EndView>,
    /// The number of items that were taken, modulo 2^64.
    count: u64,
}

impl Model for TakeEnd {
    ghost use Rattle.up_queue.specs.EndViews.{TakeEndView};

    ghost Value = { TakeEndView };

    ghost use Rattle.up_queue.specs.Inside.{take_end_view, IsTakeEnd};

    ghost view = { take_end_view };

    ghost invariant = { IsTakeEnd };
}

/// The two ends of an empty queue that holds at most `capacity` items. All of its memory is allocated here.
/// `ZeroCapacity` if `capacity` is 0, `NoMemory` if memory runs out.
pub fn lane_queue(alloc: Global, capacity: u64) -> Result<(PutEnd, TakeEnd), QueueFault>
    ensures zero { (result ≡ Err ZeroCapacity) ↔ (capacity ≡ 0) }
    ensures new { IfOk result (λ ends. AreNewEnds capacity ends.0 ends.1) }
{
    if capacity == 0 {
        return Err(QueueFault::ZeroCapacity);
    }
    match made::<Brand>(alloc, capacity) {
        Ok(ends) => Ok(ends),
        Err(NoMemory) => Err(QueueFault::NoMemory),
    }
}

/// The two ends of an empty queue.
fn made<N: Room>(alloc: Global, capacity: u64) -> Result<(PutEnd, TakeEnd), NoMemory>
    requires some { 0 < capacity }
    requires room { N.room ≡ capacity }
    ensures new { IfOk result (λ ends. AreNewEnds capacity ends.0 ends.1) }
{
    let (line, putter, taker) = open::<N>(alloc, capacity as usize)?;
    let line = Arc::new(alloc, line)?;
    let other = Arc::try_clone(&line)?;
    let put_end = PutEnd {
        line,
        pass: putter,
        count: 0,
    };
    let take_end = TakeEnd {
        line: other,
        pass: taker,
        count: 0,
    };
    Ok((put_end, take_end))
}

impl PutEnd {
    /// Puts an item after those in the queue. The item comes back only if the queue was full at some moment of the
    /// call; the contract only says that the queue may be full, because this end has put at least as many items as it
    /// can hold. The caller is responsible for the order: after what was put before, the event of the item is the next
    /// one of its upload, and nothing follows an end. Takes no memory.
    pub fn put<R: Wait>(&mut self, rt: &R, item: Item) -> Result<(), PutFault>
        requires orderly { IsOrderly (self.old.put ++ item ∷ []) }
        ensures put { OnOk result (self.new ≡ with_put self.old item) }
        ensures unchanged { OnErr result (self.new ≡ self.old) }
        ensures full { IfErr result (λ fault. (fault ≡ Full item) × MayBeFull self.old) }
    {
        match push(rt, &self.line, &mut self.pass, item) {
            Ok(()) => {
                self.count = self.count.wrapping_add(1);
                Ok(())
            }
            Err(item) => Err(PutFault::Full(item)),
        }
    }

    /// The number of items in the queue at some moment of the call. The contract only says that it is at most the
    /// capacity, and at most the number of items that were put. Takes no memory.
    pub fn held<R: Wait>(&mut self, rt: &R) -> u64
        ensures unchanged { self.new ≡ self.old }
        ensures held { (result ≤ self.old.capacity) × (result ≤ length self.old.put) }
    {
        held(rt, &self.line, &mut self.pass)
    }
}

impl TakeEnd {
    /// Takes the oldest item in the queue. The array returns none only if it was empty at some moment of the call, but
    /// the contract does not say so: according to it, the result may be `None` although there is an item. Takes no
    /// memory.
    pub fn take<R: Wait>(&mut self, rt: &R) -> Option<Item>
        ensures taken { IfSome result (λ item. self.new ≡ with_taken self.old item) }
        ensures orderly { IsOrderly self.new.taken }
        ensures unchanged { result ≡ None → self.new ≡ self.old }
    {
        let item = pop(rt, &self.line, &mut self.pass)?;
        self.count = self.count.wrapping_add(1);
        Some(item)
    }
}

/// The number of items left in a queue. It uses up both ends and combines what they know: what was put is what was
/// taken, followed by what is left. Takes no memory, and does not wait.
pub fn compare(put_end: PutEnd, take_end: TakeEnd) -> u64
    requires one_queue { take_end.queue ≡ put_end.queue }
    ensures left { AreLeft put_end take_end result }
{
    let PutEnd {
        line,
        pass: putter,
        count: put,
    } = put_end;
    let TakeEnd {
        line: _,
        pass: taker,
        count: taken,
    } = take_end;
    join(&line, putter, taker);
    put.wrapping_sub(taken)
}
