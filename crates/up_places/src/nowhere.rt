//! No data files.
use crate::place::Place;
use crate::shelf::{ReadFailed, Shelf};
use crate::spool::{PutFailed, Spool};
use std::sync::Wait;

/// What a server without data files has in their place. It takes no body, so no place is ever read from it: a read would
/// not return.
#[derive(Clone, Copy, Drop)]
pub struct Nowhere<'a, R: Wait> {
    rt: &'a R,
}

impl<'a, R: Wait> Nowhere<'a, R> {
    /// No data files.
    pub fn new(rt: &'a R) -> Nowhere<'a, R> {
        Nowhere { rt }
    }
}

impl<R: Wait> Shelf for Nowhere<'_, R> {
    ghost use Rattle.std.specs.Prelude.{[], false};

    ghost is_true = { λ _. Unit {0} };

    ghost has_failed = { λ _. false };

    ghost block = { λ _. [] };

    fn read(&mut self, _place: &Place, _index: usize) -> Result<(), ReadFailed> {
        for _ in self.rt.forever() {}
        unreachable!()
    }

    fn block(&self) -> &[u8] {
        &[]
    }
}

impl<R: Wait> Spool for Nowhere<'_, R> {
    ghost use Rattle.std.specs.Prelude.{[], false};

    ghost takes = { λ _ _. false };

    ghost body = { λ _. [] };

    ghost is_settled = { λ _ _. ⊥ };

    fn begin(&mut self, _size: Option<u64>) -> Result<bool, PutFailed> {
        Ok(false)
    }

    fn put(&mut self, _bytes: &mut Vec<u8>) -> Result<(), PutFailed> {
        Err(PutFailed)
    }

    fn finish(&mut self) -> Result<Place, PutFailed> {
        Err(PutFailed)
    }
}
