//! What bytes are read from that are not in memory.
ghost use Rattle.std.specs.Prelude.{◌≡◌, ◌*◌, ◌<◌, Bool, List, ℕ, true, length, OnErr, OnOk};
ghost use Rattle.up_places.specs.Places.{part_at};

use crate::place::Place;

/// How many bytes of a place are read at a time, but for its last ones.
pub const BLOCK: usize = 65_536;

/// A block of a place could not be read.
#[derive(Clone, Copy, Debug, PartialEq, Eq)]
pub struct ReadFailed;

/// What places are read from, such as the data files of a store.
pub trait Shelf {
    /// That each read so far returned the bytes of its place. No code can tell.
    ghost is_true: { Self → Type 0 };

    /// Whether a read failed.
    ghost has_failed: { Self → Bool };

    /// The bytes of the block that was read last.
    ghost block: { Self → List ℕ };

    /// Reads the block of this number, from 0 on, of a place: the 65,536 bytes from byte 65,536 * `index` of the place on,
    /// or all that are left.
    fn read(&mut self, place: &Place, index: usize) -> Result<(), ReadFailed>
        requires within { 65_536 * index < length place.now.bytes }
        ensures len { OnOk result (length (block self.new)
            ≡ length (part_at index place.now.bytes)) }
        ensures bytes { OnOk result (is_true self.new
            → block self.new ≡ part_at index place.now.bytes) }
        ensures stays { is_true self.new → is_true self.old }
        ensures calm { OnOk result (has_failed self.new ≡ has_failed self.old) }
        ensures failed { OnErr result (has_failed self.new ≡ true) };

    /// The bytes of the block that was read last. Without meaning if no block was read, or if that failed.
    fn block(&self) -> &[u8]
        ensures { result.now ≡ block self.now };
}
