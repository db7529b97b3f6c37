//! Bytes that several owners share, in one or more pieces.
ghost use Rattle.std.specs.Prelude.{◌≡◌, length, IfOk, IfErr};
ghost use Rattle.up_message.specs.Joins.{pieced};

use crate::piece::Piece;
use std::alloc::{AllocError, AllocFailed, Global};
use std::marker::Model;
use std::slice;
use std::sync::Arc;

/// How the bytes of a run are kept.
#[derive(Drop)]
enum Shape {
    One(Piece),
    Several(Arc<Vec<Piece>>),
}

/// Bytes in one or more pieces, which other owners may share. Sharing takes the same short time for any number of
/// pieces. Contracts describe the bytes, whatever the pieces.
#[derive(Drop)]
pub struct Run {
    shape: Shape,
    count: u64,
}

impl Model for Run {
    ghost use Rattle.std.specs.Prelude.{◌≡◌, List, ℕ, length};
    ghost use Rattle.std.specs.Coded.{coded_list, coded_ℕ};

    ghost Value = { List ℕ };

    ghost coded = { coded_list coded_ℕ };

    ghost use Rattle.up_message.specs.Shapes.{shaped};

    ghost view = { λ a. shaped a.shape };

    ghost invariant = { λ a. a.count ≡ length (shaped a.shape) };
}

impl Run {
    /// One piece, without a copy. Takes no memory.
    pub fn one(piece: Piece) -> Self
        ensures { result ≡ piece }
    {
        let count = piece.len() as u64;
        Run {
            shape: Shape::One(piece),
            count,
        }
    }

    /// Pieces with `count` bytes in all, without a copy. Returns the pieces if memory runs out.
    pub fn several(
        alloc: Global,
        pieces: Vec<Piece>,
        count: u64,
    ) -> Result<Self, AllocFailed<Vec<Piece>>>
        requires { count ≡ length (pieced pieces.items) }
        ensures ok { IfOk result (λ run. run ≡ pieced pieces.items) }
        ensures value_returned { IfErr result (λ e. e.value ≡ pieces) }
    {
        let pieces = Arc::new(alloc, pieces)?;
        Ok(Run {
            shape: Shape::Several(pieces),
            count,
        })
    }

    /// The number of bytes.
    pub fn len(&self) -> u64
        ensures { result ≡ length self.now }
    {
        self.count
    }

    /// The pieces, in order.
    pub fn pieces(&self) -> &[Piece]
        ensures { pieced result.now ≡ self.now }
    {
        match &self.shape {
            Shape::One(piece) => slice::from_ref(piece),
            Shape::Several(pieces) => pieces.as_slice(),
        }
    }

    /// The same bytes for another owner, without a copy. `AllocError` if memory runs out.
    pub fn share(&self) -> Result<Self, AllocError>
        ensures { IfOk result (λ run. run ≡ self.now) }
    {
        let shape = match &self.shape {
            Shape::One(piece) => Shape::One(piece.share()?),
            Shape::Several(pieces) => Shape::Several(Arc::try_clone(pieces)?),
        };
        Ok(Run {
            shape,
            count: self.count,
        })
    }
}
