//! The accepted changes.
ghost use Rattle.std.specs.Prelude.{◌≡◌, true, false, length, ◌↔◌, IfSome, IsSome, OnOk, [], ◌∷◌, ◌++◌};

use crate::event::Accepted;
use crate::fault::NoMemory;
use crate::room::make_room;
use crate::trace::Trace;
use std::alloc::Global;
use std::marker::Model;

/// The accepted changes, in order. Contracts always describe all of them. The program holds them if it keeps them, and
/// otherwise only their number.
#[derive(Drop)]
pub struct Changes {
    all: Trace<Accepted>,
    count: u64,
    kept: Option<Vec<Accepted>>,
}

impl Model for Changes {
    ghost use Rattle.up_events.specs.Listing.{Listing, listing, IsListed};

    ghost Value = { Listing };

    ghost view = { λ c. listing c.all.items c.count c.kept };

    ghost invariant = { λ c. IsListed c.all.items c.count c.kept };
}

impl Changes {
    /// No changes. Those that are added will be kept.
    pub(crate) fn kept(alloc: Global) -> Changes
        ensures items { result.items ≡ [] }
        ensures keeps { result.keeps ≡ true }
    {
        Changes {
            all: Trace::new(),
            count: 0,
            kept: Some(Vec::new(alloc)),
        }
    }

    /// No changes. Those that are added will be counted and not kept.
    pub fn counted() -> Changes
        ensures items { result.items ≡ [] }
        ensures keeps { result.keeps ≡ false }
    {
        Changes {
            all: Trace::new(),
            count: 0,
            kept: None,
        }
    }

    /// The number of changes.
    pub fn len(&self) -> u64
        ensures { result ≡ length self.now.items }
    {
        self.count
    }

    /// All of the changes, if they are kept.
    pub fn list(&self) -> Option<&[Accepted]>
        ensures kept { IsSome result ↔ (self.now.keeps ≡ true) }
        ensures all { IfSome result (λ list. list.now ≡ self.now.items) }
    {
        match &self.kept {
            Some(kept) => Some(kept.as_slice()),
            None => None,
        }
    }

    /// Makes room for one more change. `NoMemory` if memory runs out, or if there are already 2^64 - 1 changes, the
    /// most that can be counted.
    pub(crate) fn reserve(&mut self) -> Result<(), NoMemory>
        ensures items { self.new.items ≡ self.old.items }
        ensures keeps { self.new.keeps ≡ self.old.keeps }
        ensures ok { OnOk result (self.new.has_room ≡ true) }
    {
        if self.count == u64::MAX {
            return Err(NoMemory);
        }
        if let Some(kept) = &mut self.kept {
            make_room(kept, 1)?;
        }
        Ok(())
    }

    /// Adds a change at the end. `reserve` must have made room for it.
    pub(crate) fn push_reserved(&mut self, change: Accepted)
        requires { self.old.has_room ≡ true }
        ensures items { self.new.items ≡ self.old.items ++ change ∷ [] }
        ensures keeps { self.new.keeps ≡ self.old.keeps }
    {
        self.all.push(&change);
        self.count += 1;
        if let Some(kept) = &mut self.kept {
            kept.push_reserved(change);
        }
    }
}
