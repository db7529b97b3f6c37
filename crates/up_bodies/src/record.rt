//! The calls of the system on a file, which exist only in proofs.
ghost use Rattle.std.specs.Prelude.{◌≡◌, List, [], ◌∷◌};
ghost use Rattle.std.specs.Borrow.{ftrue};
ghost use Rattle.sqlite_disk.specs.Events.{Event};
ghost use Rattle.up_bodies.specs.Notes.{event_of};

use std::marker::{Model, PhantomData};

/// The calls of the system on a file, the last one first. It takes no bytes, and its methods do nothing when they run.
#[derive(Drop)]
pub struct Record {
    marker: PhantomData<u8>,
    pub ghost events: { List Event },
}

impl Model for Record {
    ghost also_owns = { λ _. ftrue };
}

impl Record {
    /// No call.
    pub(crate) fn new() -> Record
        ensures { result.events ≡ [] }
    {
        Record {
            marker: PhantomData,
        }
    }

    /// Notes a call: its numbers, and the bytes that were read or written.
    pub(crate) fn note(&mut self, _numbers: &[u64], _bytes: &[u8])
        ensures { self.new.events ≡ event_of _numbers.now _bytes.now ∷ self.old.events }
    {}
}
