//! The steps of a queue under its rule, each with a pass, which holds what an end of the queue knows.
ghost use Rattle.std.specs.Prelude.{◌≡◌, ◌<◌, ◌≤◌, List, true, [], ◌∷◌, ◌++◌, length, IfOk, IfSome, IfErr, OnOk, None};
ghost use Rattle.crossbeam_queue.specs.Passes.{view, IsPassOf, ruled_capacity};
ghost use Rattle.up_queue.specs.declared.item.Item.{Item};
ghost use Rattle.up_queue.specs.Line.{IsQueueState, IsOrderly};
ghost use Rattle.up_queue.specs.Rule.{putting, taking};

use crate::item::Item;
use crate::rule::{Both, EndView, InOrder, Puts, Roles, Room, Takes};
use crossbeam_queue::{Pass, RuledArrayQueue};
use std::alloc::Global;
use std::sync::Wait;
use up_events::NoMemory;

/// The array under a queue.
pub type RuledQueue = RuledArrayQueue<Item, EndView, InOrder>;

/// An empty line, with the pass that puts and the pass that takes. `NoMemory` if memory runs out.
pub fn open<N: Room>(
    alloc: Global,
    capacity: usize,
) -> Result<(RuledQueue, Pass<Item, EndView>, Pass<Item, EndView>), NoMemory>
    requires some { 0 < capacity }
    requires room { N.room ≡ capacity }
    ensures capacity { IfOk result (λ made. ruled_capacity made.0 ≡ capacity) }
    ensures passes { IfOk result (λ made. IsPassOf made.0 made.1 × IsPassOf made.0 made.2) }
    ensures puts { IfOk result (λ made. view made.1 ≡ putting capacity []) }
    ensures takes { IfOk result (λ made. view made.2 ≡ taking capacity []) }
{
    let (line, mut putter) = RuledQueue::ruled(alloc, capacity)?;
    let taker = line.another::<Roles<N>>(&mut putter);
    Ok((line, putter, taker))
}

/// Puts an item, or returns it if the line may be full.
pub fn push<R: Wait>(
    rt: &R,
    line: &RuledQueue,
    pass: &mut Pass<Item, EndView>,
    item: Item,
) -> Result<(), Item>
    requires line { IsPassOf line.now pass.old }
    requires puts { view pass.old ≡ putting (ruled_capacity line.now) (view pass.old).put }
    requires orderly { IsOrderly ((view pass.old).put ++ item ∷ []) }
    ensures line { IsPassOf line.now pass.new }
    ensures queue { pass.new.table_id ≡ pass.old.table_id }
    ensures put { OnOk result (view pass.new
        ≡ putting (ruled_capacity line.now) ((view pass.old).put ++ item ∷ [])) }
    ensures unchanged { IfErr result (λ back.
        (back ≡ item) × (view pass.new ≡ view pass.old)) }
    ensures full { IfErr result (λ _. ruled_capacity line.now ≤ length (view pass.old).put) }
{
    line.push_as::<Puts, R>(rt, pass, item)
}

/// Takes the oldest item, if it finds one.
pub fn pop<R: Wait>(rt: &R, line: &RuledQueue, pass: &mut Pass<Item, EndView>) -> Option<Item>
    requires line { IsPassOf line.now pass.old }
    requires takes { view pass.old ≡ taking (ruled_capacity line.now) (view pass.old).taken }
    ensures line { IsPassOf line.now pass.new }
    ensures queue { pass.new.table_id ≡ pass.old.table_id }
    ensures taken { IfSome result (λ item. view pass.new
        ≡ taking (ruled_capacity line.now) ((view pass.old).taken ++ item ∷ [])) }
    ensures orderly { IfSome result (λ _. IsOrderly (view pass.new).taken) }
    ensures unchanged { result ≡ None → view pass.new ≡ view pass.old }
{
    line.pop_as::<Takes, R>(rt, pass)
}

/// The number of items in the line at some moment of the call.
pub fn held<R: Wait>(rt: &R, line: &RuledQueue, pass: &mut Pass<Item, EndView>) -> u64
    requires line { IsPassOf line.now pass.old }
    requires puts { view pass.old ≡ putting (ruled_capacity line.now) (view pass.old).put }
    ensures line { IsPassOf line.now pass.new }
    ensures queue { pass.new.table_id ≡ pass.old.table_id }
    ensures unchanged { view pass.new ≡ view pass.old }
    ensures held { (result ≤ ruled_capacity line.now) × (result ≤ length (view pass.old).put) }
{
    line.len_as::<Puts, R>(rt, pass) as u64
}

/// What the two passes of a line together say about it.
pub fn join(line: &RuledQueue, mut putter: Pass<Item, EndView>, taker: Pass<Item, EndView>)
    requires passes { IsPassOf line.now putter × IsPassOf line.now taker }
    requires puts { (view putter).puts ≡ true }
    requires takes { (view taker).takes ≡ true }
    ensures { (held : List Item)
        × IsQueueState (view putter).capacity (view putter).put (view taker).taken held }
{
    line.absorb::<Both>(&mut putter, taker);
    line.learn_as::<Both>(&mut putter);
}
