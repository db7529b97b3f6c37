//! Where the bytes of an upload are.
ghost use Rattle.std.specs.Prelude.{◌≡◌, ◌≤◌, ◌++◌, length, IfOk};
ghost use Rattle.up_machine.specs.Kept.{tail_room};
ghost use Rattle.up_message.specs.Joins.{pieced, pieced_then};

use crate::pieces::Pieces;
use std::alloc::{AllocError, Global};
use up_message::{Piece, Run, Segments};

/// The bytes of an upload.
#[derive(Drop)]
pub enum Store {
    /// More bytes may arrive.
    Open(Pieces),
    /// All bytes have arrived. The responses with these bytes share them.
    Whole(Segments),
}

impl Store {
    ghost use Rattle.up_machine.specs.Stored.{stored, IsStored};

    /// The number of bytes so far.
    pub fn len(&self) -> u64
        ensures { result ≡ length (stored self.now) }
    {
        match self {
            Store::Open(pieces) => pieces.len(),
            Store::Whole(segments) => segments.len(),
        }
    }

    /// The unused room in bytes.
    pub fn spare(&self) -> usize
        ensures { result ≤ tail_room }
    {
        match self {
            Store::Open(pieces) => pieces.spare(),
            Store::Whole(_) => 0,
        }
    }

    /// The bytes so far: those of the runs, then those of the pieces, then the tail.
    pub fn slices(&self) -> (&[Run], &[Piece], &[u8])
        ensures { pieced result.0.now ++ pieced_then result.1.now result.2.now
            ≡ stored self.now }
    {
        match self {
            Store::Open(pieces) => {
                let (front, tail) = pieces.slices();
                (&[], front, tail)
            }
            Store::Whole(segments) => {
                let (front, last) = segments.runs();
                (front, last.pieces(), &[])
            }
        }
    }

    /// Makes the bytes shared if there are as many as this length says. If memory runs out, they stay as they are.
    pub fn frozen(self, alloc: Global, size: Option<u64>) -> Store
        requires { IsStored self size }
        ensures same { stored result ≡ stored self }
        ensures stored { IsStored result size }
    {
        let pieces = match self {
            Store::Open(pieces) => pieces,
            Store::Whole(segments) => return Store::Whole(segments),
        };
        if size != Some(pieces.len()) {
            return Store::Open(pieces);
        }
        match pieces.frozen(alloc) {
            Ok(segments) => Store::Whole(segments),
            Err(pieces) => Store::Open(pieces),
        }
    }

    /// The bytes for a response or for another upload, shared if all have arrived. `AllocError` if memory runs out.
    pub fn share(&self, alloc: Global) -> Result<Segments, AllocError>
        ensures { IfOk result (λ shared. shared ≡ stored self.now) }
    {
        match self {
            Store::Open(pieces) => pieces.share(alloc),
            Store::Whole(segments) => segments.share(alloc),
        }
    }
}
