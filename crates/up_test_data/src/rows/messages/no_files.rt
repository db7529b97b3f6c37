//! A server without data files.
use up_places::{Place, PutFailed, ReadFailed, Shelf, Spool};

/// Takes no bodies, and fails if one is read.
#[derive(Drop)]
pub struct NoFiles {
    has_failed: bool,
}

impl NoFiles {
    /// Nothing was read yet.
    pub fn new() -> NoFiles {
        NoFiles { has_failed: false }
    }
}

impl Shelf for NoFiles {
    ghost use Rattle.std.specs.Prelude.{[]};

    ghost is_true = { λ _. Unit {0} };

    ghost has_failed = { λ s. s.has_failed };

    ghost block = { λ _. [] };

    fn read(&mut self, _place: &Place, _index: usize) -> Result<(), ReadFailed> {
        self.has_failed = true;
        Err(ReadFailed)
    }

    fn block(&self) -> &[u8] {
        &[]
    }
}

impl Spool for NoFiles {
    ghost use Rattle.std.specs.Prelude.{[], false};

    ghost takes = { λ _ _. false };

    ghost body = { λ _. [] };

    ghost is_settled = { λ _ _. ⊥ };

    fn begin(&mut self, _size: Option<u64>) -> Result<bool, PutFailed> {
        Ok(false)
    }

    fn put(&mut self, _bytes: &mut Vec<u8>) -> Result<(), PutFailed> {
        Err(PutFailed)
    }

    fn finish(&mut self) -> Result<Place, PutFailed> {
        Err(PutFailed)
    }
}
