//! A list that exists only in proofs.
ghost use Rattle.std.specs.Prelude.{◌≡◌, [], ◌∷◌, ◌++◌};

use logbook::{Opening, Rule, Seen, Start};
use std::marker::Model;

/// The rule of a book that never changes.
pub struct Unruled;

impl<T> Rule<T, ()> for Unruled {
    ghost use Rattle.std.specs.Prelude.{List, []};
    ghost use base.Fml.{ftrue};

    ghost holds = { λ cells log. Unit {0} };

    ghost first = { [] };

    ghost hinted = { λ value log. Unit {0} };

    ghost shows = { λ log. [] };

    ghost keeps = { λ names log. ftrue };

    ghost moves = { λ entry before after answer. Unit {0} };
}

/// A list that grows at its end and exists only in proofs. It takes no bytes, and its methods do nothing when they run.
/// With it, contracts can describe all items that were added, and no memory is needed to keep them.
#[derive(Drop)]
pub struct Trace<T> {
    /// The list is the log of a book that was opened with all of it.
    seen: Seen<T, (), Unruled>,
}

impl<T> Model for Trace<T> {
    ghost use Rattle.up_events.specs.Traces.{Items, items_code};

    ghost Value = { Items T };

    ghost coded = { items_code T.code };

    ghost view = { λ t. record { items = t.seen.log } };
}

impl<T> Trace<T> {
    /// The empty list.
    pub fn new() -> Trace<T>
        ensures { result.items ≡ [] }
    {
        Trace::of::<(), Nothing>(&())
    }

    /// The list that `M` makes of a value.
    pub fn of<X, M: Opening<X, T>>(about: &X) -> Trace<T>
        ensures { result.items ≡ M.log 0 about.now }
    {
        let (seen, _) = Seen::open_row::<X, M>(about, Start::alone(), 0);
        Trace { seen }
    }

    /// Adds an item at the end.
    pub fn push(&mut self, last: &T)
        ensures { self.new.items ≡ self.old.items ++ last.now ∷ [] }
    {
        *self = Trace::of::<Longer<'_, T>, Last>(&Longer { before: self, last });
    }

    /// Adds these items at the end.
    pub fn extend_from_slice(&mut self, items: &[T])
        ensures { self.new.items ≡ self.old.items ++ items.now }
    {
        *self = Trace::of::<Extended<'_, T>, More>(&Extended {
            before: self,
            items,
        });
    }

    /// Adds the items of another list at the end.
    pub fn append(&mut self, other: &Trace<T>)
        ensures { self.new.items ≡ self.old.items ++ other.now.items }
    {
        *self = Trace::of::<Appended<'_, T>, Both>(&Appended {
            before: self,
            other,
        });
    }
}

struct Nothing;

impl<T> Opening<(), T> for Nothing {
    ghost use Rattle.std.specs.Prelude.{[]};

    ghost log = { λ _ _. [] };
}

/// A list, and an item.
#[derive(Clone, Copy)]
struct Longer<'a, T> {
    before: &'a Trace<T>,
    last: &'a T,
}

struct Last;

impl<'a, T> Opening<Longer<'a, T>, T> for Last {
    ghost use Rattle.std.specs.Prelude.{[], ◌∷◌, ◌++◌};

    ghost log = { λ _ longer. longer.before.now.items ++ longer.last.now ∷ [] };
}

/// A list, and more items.
#[derive(Clone, Copy)]
struct Extended<'a, T> {
    before: &'a Trace<T>,
    items: &'a [T],
}

struct More;

impl<'a, T> Opening<Extended<'a, T>, T> for More {
    ghost use Rattle.std.specs.Prelude.{◌++◌};

    ghost log = { λ _ extended. extended.before.now.items ++ extended.items.now };
}

/// Two lists.
#[derive(Clone, Copy)]
struct Appended<'a, T> {
    before: &'a Trace<T>,
    other: &'a Trace<T>,
}

struct Both;

impl<'a, T> Opening<Appended<'a, T>, T> for Both {
    ghost use Rattle.std.specs.Prelude.{◌++◌};

    ghost log = { λ _ appended. appended.before.now.items ++ appended.other.now.items };
}
