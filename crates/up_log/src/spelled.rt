//! An encoded entry.
ghost use Rattle.std.specs.Prelude.{◌≡◌, ◌-◌, ◌^◌, ◌++◌, [], min, length, IfOk};
ghost use Rattle.up_log.specs.Spelling.{entry};

use crate::entry::Entry;
use crate::writing::{put_entry, room_of};
use bytes::Bytes;
use std::alloc::{AllocError, Global};
use std::marker::Model;
use up_events::Trace;

/// An entry that is already encoded, so that writing a batch encodes nothing. Contracts describe it as the entry.
#[derive(Drop)]
pub struct Spelled {
    /// The encoding, without its end if that is in `back`.
    front: Vec<u8>,
    /// The bytes that a PATCH appends, if they are many. The request has them too, so they are not copied.
    back: Bytes,
    of: Trace<Entry>,
}

impl Model for Spelled {
    ghost use Rattle.std.specs.Prelude.{◌≡◌, ◌++◌};
    ghost use Rattle.up_log.specs.Spelling.{entry, first_entry};
    ghost use Rattle.up_log.specs.declared.entry.Entry.{Entry as Logged};

    ghost Value = { Logged };

    ghost view = { λ s. first_entry s.of.items };

    ghost invariant = { λ s. s.front.items ++ s.back ≡ entry (first_entry s.of.items) };
}

impl Spelled {
    /// Encodes an entry. `AllocError` if memory runs out.
    pub fn new(alloc: Global, logged: &Entry) -> Result<Spelled, AllocError>
        ensures { IfOk result (λ spelled. spelled ≡ logged.now) }
    {
        Spelled::encoded(Vec::with_capacity(alloc, room_of(logged))?, logged)
    }

    /// Encodes an entry in the memory of this one, and needs no other if it takes no more. `AllocError` if it takes
    /// more and memory runs out.
    pub fn again(self, logged: &Entry) -> Result<Spelled, AllocError>
        ensures { IfOk result (λ spelled. spelled ≡ logged.now) }
    {
        let mut front = self.front;
        front.clear();
        Spelled::encoded(front, logged)
    }

    /// Encodes an entry in this memory.
    fn encoded(front: Vec<u8>, logged: &Entry) -> Result<Spelled, AllocError>
        requires { front.items ≡ [] }
        ensures { IfOk result (λ spelled. spelled ≡ logged.now) }
    {
        let mut front = front;
        let back = put_entry(&mut front, logged)?;
        let mut of = Trace::new();
        of.push(logged);
        Ok(Spelled { front, back, of })
    }

    /// The encoding of the entry, in two parts. The second has the bytes that are shared, if there are some.
    pub(crate) fn parts(&self) -> (&[u8], &[u8])
        ensures { result.0.now ++ result.1.now ≡ entry self.now }
    {
        (&self.front, self.back.as_slice())
    }

    /// The number of bytes of the entry in a log.
    pub fn size(&self) -> usize
        ensures { result ≡ min (2 ^ 64 - 1) (length (entry self.now)) }
    {
        self.front.len().saturating_add(self.back.len())
    }
}
