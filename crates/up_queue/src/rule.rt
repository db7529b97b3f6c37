//! The rule of a queue, and what an end learns from each of its steps. These types are only for proofs: no value of
//! them exists.
ghost use Rattle.std.specs.Prelude.{ℕ};

use crate::item::Item;
use crossbeam_queue::protocol::{Join, Lesson, Outcome, Protocol, Split};
use std::collections::LinkedList;
use std::marker::{Brand, PhantomData};

/// What an end knows: what it may do, the capacity of its queue, and what it has put or taken.
pub struct EndView {
    pub puts: bool,
    pub takes: bool,
    pub capacity: u64,
    pub put: LinkedList<Item>,
    pub taken: LinkedList<Item>,
}

/// The rule. A queue begins with one pass that may put and take, with a capacity that is not set yet.
pub struct InOrder;

impl Protocol<Item, EndView> for InOrder {
    ghost use Rattle.std.specs.Prelude.{true, []};
    ghost use Rattle.up_queue.specs.Rule.{end_view, IsInOrder};

    ghost holds = { IsInOrder };

    ghost first = { end_view true true 0 [] [] };
}

/// The capacity of a queue that is being made, which the rule cannot know in any other way.
pub trait Room {
    ghost room: { ℕ };
}

impl Room for Brand {
    ghost room = { 0 };
}

/// Sets the capacity of the first pass, and splits it into the pass of the put end and the pass of the take end.
pub struct Roles<N: Room> {
    named: PhantomData<N>,
}

impl<N: Room> Split<EndView> for Roles<N> {
    ghost use Rattle.up_queue.specs.Rule.{putting, taking};

    ghost left = { λ v. putting N.room v.put };

    ghost right = { λ v. taking N.room v.taken };
}

/// What both ends know, combined. The pass of the take end is used up.
pub struct Both;

impl Join<EndView> for Both {
    ghost use Rattle.std.specs.Prelude.{true, false, []};
    ghost use Rattle.up_queue.specs.Rule.{end_view};

    ghost both = { λ v w. end_view true true v.capacity v.put w.taken };

    ghost spent = { end_view false false 0 [] [] };
}

impl Lesson<Item, EndView> for Both {
    ghost use Rattle.up_queue.specs.Line.{IsQueueState};

    ghost fact = { λ v items. IsQueueState v.capacity v.put v.taken items };
}

/// A put: one more item was put. If the queue is full, the put end learns that it has put at least as many items as the
/// queue holds.
pub struct Puts;

impl Outcome<Item, EndView> for Puts {
    ghost use Rattle.std.specs.Prelude.{◌≡◌, [], ◌∷◌, ◌++◌};
    ghost use Rattle.up_queue.specs.Rule.{end_view};

    ghost then = { λ v x w. w ≡ end_view v.puts v.takes v.capacity (v.put ++ x ∷ []) v.taken };
}

impl Lesson<Item, EndView> for Puts {
    ghost use Rattle.std.specs.Prelude.{◌≤◌, length};

    ghost fact = { λ v items. length items ≤ length v.put };
}

/// A take: one more item was taken, and what was taken is orderly. If the queue is empty, the take end learns nothing.
pub struct Takes;

impl Outcome<Item, EndView> for Takes {
    ghost use Rattle.std.specs.Prelude.{◌≡◌, [], ◌∷◌, ◌++◌};
    ghost use Rattle.up_queue.specs.Rule.{end_view};
    ghost use Rattle.up_queue.specs.Line.{IsOrderly};

    ghost then = { λ v x w. (w ≡ end_view v.puts v.takes v.capacity v.put (v.taken ++ x ∷ [])) × IsOrderly w.taken };
}

impl Lesson<Item, EndView> for Takes {
    ghost fact = { λ _ _. Unit {0} };
}
