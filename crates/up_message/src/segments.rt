//! Bytes in runs.
ghost use Rattle.std.specs.Prelude.{◌≡◌, ◌+◌, ◌<◌, ◌^◌, ◌++◌, [], length, IfOk, OnOk, OnErr};
ghost use Rattle.up_message.specs.Joins.{pieced_then};

use crate::piece::Piece;
use crate::run::Run;
use std::alloc::{AllocError, Global};
use std::marker::Model;
use std::mem;

/// Bytes in runs, which other owners may share. Contracts describe the bytes, whatever the runs.
#[derive(Drop)]
pub struct Segments {
    front: Vec<Run>,
    last: Run,
    count: u64,
}

impl Model for Segments {
    ghost use Rattle.std.specs.Prelude.{◌≡◌, List, ℕ, length};
    ghost use Rattle.std.specs.Coded.{coded_list, coded_ℕ};
    ghost use Rattle.up_message.specs.Joins.{pieced_then};

    ghost Value = { List ℕ };

    ghost coded = { coded_list coded_ℕ };

    ghost view = { λ a. pieced_then a.front.items a.last };

    ghost invariant = { λ a. a.count ≡ length (pieced_then a.front.items a.last) };
}

impl Segments {
    /// No bytes. Takes no memory.
    pub fn new(alloc: Global) -> Self
        ensures { result ≡ [] }
    {
        Segments::from_piece(alloc, Piece::from_static(b""))
    }

    /// No bytes, and room for `runs` runs. `AllocError` if memory runs out.
    pub fn with_room(alloc: Global, runs: usize) -> Result<Self, AllocError>
        ensures { IfOk result (λ made. made ≡ []) }
    {
        let mut made = Segments::new(alloc);
        made.front.reserve_exact(runs)?;
        Ok(made)
    }

    /// One piece, without a copy. Takes no memory.
    pub fn from_piece(alloc: Global, piece: Piece) -> Self
        ensures { result ≡ piece }
    {
        Segments::from_run(alloc, Run::one(piece))
    }

    /// One run. Takes no memory.
    pub fn from_run(alloc: Global, run: Run) -> Self
        ensures { result ≡ run }
    {
        let count = run.len();
        Segments {
            front: Vec::new(alloc),
            last: run,
            count,
        }
    }

    /// The number of bytes.
    pub fn len(&self) -> u64
        ensures { result ≡ length self.now }
    {
        self.count
    }

    /// All runs but the last, in order, and the last.
    pub fn runs(&self) -> (&[Run], &Run)
        ensures { pieced_then result.0.now result.1.now ≡ self.now }
    {
        (self.front.as_slice(), &self.last)
    }

    /// Adds a run at the end. `AllocError` if memory runs out; the bytes are then unchanged.
    pub fn push(&mut self, run: Run) -> Result<(), AllocError>
        requires { length self.old + length run < 2 ^ 64 }
        ensures ok { OnOk result (self.new ≡ self.old ++ run) }
        ensures err { OnErr result (self.new ≡ self.old) }
    {
        if self.count > 0 {
            self.front.reserve(1)?;
        }
        let before = mem::replace(&mut self.last, run);
        if self.count > 0 {
            self.front.push_reserved(before);
        }
        self.count += self.last.len();
        Ok(())
    }

    /// Adds these bytes at the end. They are shared and not copied. `AllocError` if memory runs out.
    pub fn join(&mut self, other: &Segments) -> Result<(), AllocError>
        requires { length self.old + length other.now < 2 ^ 64 }
        ensures { OnOk result (self.new ≡ self.old ++ other.now) }
    {
        let (front, last) = other.runs();
        for run in front {
            self.push(run.share()?)?;
        }
        self.push(last.share()?)
    }

    /// The same bytes for another owner, without a copy. `AllocError` if memory runs out.
    pub fn share(&self, alloc: Global) -> Result<Self, AllocError>
        ensures { IfOk result (λ shared. shared ≡ self.now) }
    {
        let mut shared = Segments::with_room(alloc, self.front.len())?;
        // For the prover: the test shows that the number of bytes is below 2^64.
        if self.count > 0 {
            shared.join(self)?;
        }
        Ok(shared)
    }
}
