//! Bytes in one piece of memory, or at a place of a data file.
ghost use Rattle.std.specs.Prelude.{◌≡◌, ◌≤◌, length, IfOk, IfErr, IfSome, vec_len, vec_capacity};

use crate::sequence::Sequence;
use bytes::{Bytes, BytesMut};
use std::alloc::{AllocError, Global};
use std::marker::Model;
use std::sync::Arc;
use up_places::Place;

/// The minimum size, in bytes, of a body that is shared, and not copied, to be kept or encoded.
pub const MIN_SHARED: usize = 16_384;

/// Where the bytes of a piece are kept.
#[derive(Drop)]
enum Home {
    Memory(Bytes),
    File(Arc<Place>),
}

/// Where the bytes of a piece are.
#[derive(Clone, Copy)]
pub enum Found<'a> {
    InMemory(&'a [u8]),
    InFile(&'a Place),
}

/// Bytes in one piece of memory or at one place of a data file, which other owners may share. Memory that is allocated
/// for a piece has no room beyond its bytes. Contracts describe the bytes, wherever they are.
#[derive(Drop)]
pub struct Piece {
    home: Home,
}

impl Model for Piece {
    ghost use Rattle.std.specs.Prelude.{List, ℕ};
    ghost use Rattle.std.specs.Coded.{coded_list, coded_ℕ};
    ghost use Rattle.up_message.specs.Homes.{homed};

    ghost Value = { List ℕ };

    ghost coded = { coded_list coded_ℕ };

    ghost view = { λ a. homed a.home };
}

/// A piece with these bytes, without a copy.
fn to_bytes(bytes: Vec<u8>) -> Result<Bytes, AllocError>
    requires close { vec_capacity bytes ≤ vec_len bytes }
    ensures { IfOk result (λ made. made ≡ bytes.items) }
{
    match Bytes::from_vec(bytes) {
        Ok(made) => Ok(made),
        Err(_) => Err(AllocError),
    }
}

impl Piece {
    ghost use Rattle.up_message.specs.Found.{found_bytes};

    /// Bytes in memory.
    fn in_memory(bytes: Bytes) -> Self
        ensures { result ≡ bytes }
    {
        Piece {
            home: Home::Memory(bytes),
        }
    }

    /// Bytes that are part of the program. Takes no memory.
    pub fn from_static(bytes: &'static [u8]) -> Self
        ensures { result ≡ bytes.now }
    {
        Piece::in_memory(Bytes::from_static(bytes))
    }

    /// The bytes of a list, which frees the room that it has beyond them. `AllocError` if memory runs out.
    pub fn from_sequence(list: Sequence<u8>) -> Result<Self, AllocError>
        ensures { IfOk result (λ piece. piece ≡ list) }
    {
        let mut bytes = list.into_vec();
        bytes.shrink_to_fit();
        // `shrink_to_fit` leaves no more room than there are bytes, but its contract does not say so.
        if bytes.capacity() > bytes.len() {
            return Err(AllocError);
        }
        Ok(Piece::in_memory(to_bytes(bytes)?))
    }

    /// A copy of these bytes. `AllocError` if memory runs out.
    pub fn copied(alloc: Global, bytes: &[u8]) -> Result<Self, AllocError>
        ensures { IfOk result (λ piece. piece ≡ bytes.now) }
    {
        Piece::from_sequence(Sequence::from_slice(alloc, bytes)?)
    }

    /// The bytes of a buffer without room left. They are not copied. Returns the buffer if memory runs out.
    pub fn from_full(buffer: BytesMut) -> Result<Self, BytesMut>
        requires full { buffer.spare ≡ 0 }
        ensures ok { IfOk result (λ piece. piece ≡ buffer.items) }
        ensures err { IfErr result (λ back. back ≡ buffer) }
    {
        match buffer.freeze() {
            Ok(bytes) => Ok(Piece::in_memory(bytes)),
            Err(refused) => Err(refused.value),
        }
    }

    /// The bytes at a place of a data file. `AllocError` if memory runs out.
    pub fn at(alloc: Global, place: Place) -> Result<Self, AllocError>
        ensures { IfOk result (λ piece. piece ≡ place.bytes) }
    {
        Ok(Piece {
            home: Home::File(Arc::new(alloc, place)?),
        })
    }

    /// The number of bytes.
    pub fn len(&self) -> usize
        ensures { result ≡ length self.now }
    {
        match &self.home {
            Home::Memory(bytes) => bytes.len(),
            Home::File(place) => place.len(),
        }
    }

    /// The bytes, or the place where they are.
    pub fn found(&self) -> Found<'_>
        ensures { found_bytes result ≡ self.now }
    {
        match &self.home {
            Home::Memory(bytes) => Found::InMemory(bytes.as_slice()),
            Home::File(place) => Found::InFile(place),
        }
    }

    /// The bytes in memory for another owner, without a copy. `None` if they are in a data file. `AllocError` if memory runs
    /// out.
    pub fn in_memory_shared(&self) -> Result<Option<Bytes>, AllocError>
        ensures { IfOk result (λ found. IfSome found (λ bytes. bytes ≡ self.now)) }
    {
        match &self.home {
            Home::Memory(bytes) => Ok(Some(bytes.clone()?)),
            Home::File(_) => Ok(None),
        }
    }

    /// The same bytes for another owner, without a copy. `AllocError` if memory runs out.
    pub fn share(&self) -> Result<Self, AllocError>
        ensures { IfOk result (λ piece. piece ≡ self.now) }
    {
        let home = match &self.home {
            Home::Memory(bytes) => Home::Memory(bytes.clone()?),
            Home::File(place) => Home::File(Arc::try_clone(place)?),
        };
        Ok(Piece { home })
    }
}
