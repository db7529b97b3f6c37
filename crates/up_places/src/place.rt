//! Bytes in a data file.
ghost use Rattle.std.specs.Prelude.{◌≡◌, ◌+◌, ◌<◌, ◌^◌, ◌++◌, [], length};

use crate::contents::Contents;
use crate::position::Position;
use logbook::Opening;
use std::marker::Model;
use up_events::Trace;

/// Bytes in a data file of a store. Only a proof sees the bytes; a program reads them through a [`Shelf`](crate::Shelf).
/// Contracts describe a place as the number of the file, the byte of the file at which it begins, and the bytes.
#[derive(Drop)]
pub struct Place {
    start: Position,
    len: usize,
    bytes: Trace<u8>,
}

impl Model for Place {
    ghost use Rattle.std.specs.Prelude.{◌≡◌, length};
    ghost use Rattle.up_places.specs.Places.{Spot, spot_code};

    ghost Value = { Spot };

    ghost coded = { spot_code };

    ghost view = { λ p. record { file = p.start.file; at = p.start.at; bytes = p.bytes.items } };

    ghost invariant = { λ p. p.len ≡ length p.bytes.items };
}

impl Place {
    /// The place that begins here. It has no bytes yet.
    pub fn empty(start: Position) -> Place
        ensures { result ≡ record { file = start.file; at = start.at; bytes = [] } }
    {
        Place {
            start,
            len: 0,
            bytes: Trace::new(),
        }
    }

    /// The place of this many bytes that begins here, with the bytes that data files with these contents have there.
    pub fn named<C: Contents>(files: &C, start: Position, len: usize) -> Place
        ensures { result ≡ record {
          file = start.file;
          at = start.at;
          bytes = C.content files.now start.file start.at len;
        } }
    {
        Place {
            start,
            len,
            bytes: Trace::of::<Named<'_, C>, Content>(&Named { files, start, len }),
        }
    }

    /// Adds bytes to the end of the place.
    pub fn extend(&mut self, more: &[u8])
        requires small { length self.old.bytes + length more.now < 2 ^ 64 }
        ensures { self.new ≡ record self.old { bytes = self.old.bytes ++ more.now } }
    {
        self.len += more.len();
        self.bytes.extend_from_slice(more);
    }

    /// Adds the bytes of another place to the end of this one. They are meant to come next in the file.
    pub fn join(&mut self, next: &Place)
        requires small { length self.old.bytes + length next.now.bytes < 2 ^ 64 }
        ensures { self.new ≡ record self.old { bytes = self.old.bytes ++ next.now.bytes } }
    {
        self.len += next.len;
        self.bytes.append(&next.bytes);
    }

    /// Where the place begins.
    pub fn start(&self) -> Position
        ensures { result ≡ record { file = self.now.file; at = self.now.at } }
    {
        self.start
    }

    /// The number of the file.
    pub fn file(&self) -> u64
        ensures { result ≡ self.now.file }
    {
        self.start.file
    }

    /// The byte of the file at which the place begins.
    pub fn at(&self) -> u64
        ensures { result ≡ self.now.at }
    {
        self.start.at
    }

    /// The number of bytes of the place, without those of checksums.
    pub fn len(&self) -> usize
        ensures { result ≡ length self.now.bytes }
    {
        self.len
    }
}

/// Data files, and where bytes begin and end in them.
#[derive(Clone, Copy)]
struct Named<'a, C> {
    files: &'a C,
    start: Position,
    len: usize,
}

struct Content;

impl<'a, C: Contents> Opening<Named<'a, C>, u8> for Content {
    ghost log = { λ _ named.
        C.content named.files.now named.start.file named.start.at named.len };
}
