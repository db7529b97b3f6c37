//! What takes the bytes of bodies as they arrive.
ghost use Rattle.std.specs.Prelude.{◌≡◌, ◌%◌, ◌≤◌, ◌++◌, [], Bool, List, Option, ℕ, true, length, IfOk, OnOk};
ghost use Rattle.up_places.specs.Places.{Spot};

use crate::place::Place;

/// The bytes of a body could not be put away.
#[derive(Clone, Copy, Debug, PartialEq, Eq)]
pub struct PutFailed;

/// What takes the bytes of bodies as they arrive, such as a data file of a store.
pub trait Spool {
    /// Whether it takes a body of this size.
    ghost takes: { Self → Option ℕ → Bool };

    /// The bytes of the body that is being put.
    ghost body: { Self → List ℕ };

    /// That every crash leaves the bytes of a place.
    ghost is_settled: { Self → Spot → Type 0 };

    /// Begins a body of this size in bytes; of `None` the size is not known yet. Returns whether its bytes are to be put
    /// here. If not, they stay in memory.
    fn begin(&mut self, size: Option<u64>) -> Result<bool, PutFailed>
        ensures taken { IfOk result (λ taken. taken ≡ takes self.old size) }
        ensures begun { IfOk result (λ taken. taken ≡ true → body self.new ≡ []) };

    /// Puts the next bytes of the body: 65,536, or fewer if they are its last ones. What the vector has afterwards has no
    /// meaning.
    fn put(&mut self, bytes: &mut Vec<u8>) -> Result<(), PutFailed>
        requires few { length bytes.old.items ≤ 65_536 }
        requires whole { length (body self.old) % 65_536 ≡ 0 }
        ensures put { OnOk result (body self.new ≡ body self.old ++ bytes.old.items) };

    /// Has the body written through to the disk, and returns where it is.
    fn finish(&mut self) -> Result<Place, PutFailed>
        ensures bytes { IfOk result (λ place. place.bytes ≡ body self.old) }
        ensures settled { IfOk result (λ place. is_settled self.new place) };
}
