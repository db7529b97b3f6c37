//! What data files hold, when bytes of them are only named.
ghost use Rattle.std.specs.Prelude.{◌≡◌, ℕ, length, IfOk};
ghost use Rattle.up_places.specs.Places.{Content};

use crate::place::Place;
use crate::position::Position;

/// Data files have no such bytes.
#[derive(Clone, Copy, Debug, PartialEq, Eq)]
pub struct NotThere;

/// Data files of which bytes are named by where they begin and how many they are.
pub trait Contents {
    /// The bytes of a file from a byte on, as many as are asked for. No code can tell.
    ghost content: { Self → Content };

    ghost as_many: { (files : Self) (file at count : ℕ)
        → length (content files file at count) ≡ count };

    /// The place of this many bytes that begins here. The error is that the files have no such bytes.
    fn place(&self, start: Position, len: usize) -> Result<Place, NotThere>
        ensures { IfOk result (λ place. place ≡ record {
          file = start.file;
          at = start.at;
          bytes = content self.now start.file start.at len;
        }) };
}

/// No data files.
#[derive(Clone, Copy, Drop)]
pub struct NoFiles;

impl Contents for NoFiles {
    ghost use Rattle.std.proofs.lemmas.List.{length-replicate};
    ghost use Rattle.up_places.specs.Places.{no_content};

    ghost content = { λ _. no_content };

    ghost as_many = { λ files file at count. length-replicate count 0 };

    fn place(&self, _start: Position, _len: usize) -> Result<Place, NotThere> {
        Err(NotThere)
    }
}
