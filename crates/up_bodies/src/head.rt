//! The head of a file of bodies.
ghost use Rattle.std.specs.Prelude.{◌≡◌, ◌≢◌, ◌+◌, ◌≤◌, ◌↔◌, length, vec_len, IfErr, IfOk, IsTrue};
ghost use Rattle.up_bodies.specs.Heads.{IsCause, IsHeadOf, front, head_text, number_at, seed_of};

use crate::block::Seed;
use crate::fault::OpenFault;
use sqlite_wal::checksum_of;
use std::alloc::{AllocError, Global};

/// The number of bytes of a head.
pub(crate) const HEAD: usize = 56;

/// The first bytes of a head: "up body" and the end of a line.
const MAGIC: [u8; 8] = [117, 112, 32, 98, 111, 100, 121, 10];

/// What a file of bodies says of itself at its beginning.
#[derive(Clone, Copy, PartialEq, Eq)]
pub struct Head {
    /// What the store was named at its first start, so that no two stores have the same name.
    pub store: [u8; 16],
    /// The generation of the store's log when the file was made.
    pub generation: u64,
    /// The number of the file.
    pub number: u64,
}

/// A head, with its checksum.
#[derive(Drop)]
pub(crate) struct Written {
    pub(crate) text: Vec<u8>,
    pub(crate) seed: Seed,
}

/// The number in the eight bytes from this one on, the lowest first.
fn number_at(at: usize, text: &[u8]) -> u64
    requires some { at + 8 ≤ length text.now }
    ensures { result ≡ number_at at text.now }
{
    let (_, rest) = text.split_at(at);
    u64::from_le_bytes([
        rest[0], rest[1], rest[2], rest[3], rest[4], rest[5], rest[6], rest[7],
    ])
}

/// Whether the bytes are the same.
fn are_same(bytes: &[u8], others: &[u8]) -> bool
    ensures { IsTrue result ↔ (bytes.now ≡ others.now) }
{
    bytes == others
}

impl Head {
    /// The bytes of this head before its checksum. There is room for the checksum.
    #[tactic(auto, unfolding(crate::specs::Heads::front))]
    fn front(&self, alloc: Global) -> Result<Vec<u8>, AllocError>
        ensures text { IfOk result (λ text. text.items ≡ front self.now) }
        ensures len { IfOk result (λ text. vec_len text ≡ 48) }
    {
        let mut text = Vec::with_capacity(alloc, HEAD)?;
        text.extend_from_slice(&MAGIC)?;
        text.extend_from_slice(&2_u64.to_le_bytes())?;
        text.extend_from_slice(&self.generation.to_le_bytes())?;
        text.extend_from_slice(&self.number.to_le_bytes())?;
        text.extend_from_slice(&self.store)?;
        Ok(text)
    }

    /// The bytes of this head, and what the checksums of its file begin with.
    pub(crate) fn written(&self, alloc: Global) -> Result<Written, AllocError>
        ensures text { IfOk result (λ made. made.text.items ≡ head_text self.now) }
        ensures len { IfOk result (λ made. vec_len made.text ≡ HEAD) }
        ensures seed { IfOk result (λ made. made.seed ≡ seed_of self.now) }
    {
        let mut text = self.front(alloc)?;
        let seed = checksum_of(false, (0, 0), &text);
        text.extend_from_slice(&seed.0.to_le_bytes())?;
        text.extend_from_slice(&seed.1.to_le_bytes())?;
        Ok(Written { text, seed })
    }

    /// What the checksums of a file with these first bytes begin with. An error if it is not this file of this store,
    /// made in this generation of the log or before it.
    pub(crate) fn seed_in(&self, alloc: Global, text: &[u8]) -> Result<Seed, OpenFault>
        requires whole { length text.now ≡ 56 }
        ensures ok { IfOk result (λ seed. IsHeadOf self.now text.now seed) }
        ensures err { IfErr result (λ fault. IsCause self.now text.now fault) }
    {
        let generation = number_at(16, text);
        let there = Head {
            generation,
            ..*self
        };
        let Written { text: wanted, seed } = there.written(alloc)?;
        if !are_same(&wanted, text) {
            return Err(self.difference(text));
        }
        if generation > self.generation {
            return Err(OpenFault::Later {
                file: generation,
                log: self.generation,
            });
        }
        Ok(seed)
    }

    /// The first way in which the first bytes of a file are not those of this one.
    fn difference(&self, text: &[u8]) -> OpenFault
        requires whole { length text.now ≡ 56 }
        requires other { text.now ≢ head_text (record self.now { generation = number_at 16 text.now }) }
        ensures { IsCause self.now text.now result }
    {
        let (version, generation) = (number_at(8, text), number_at(16, text));
        let number = number_at(24, text);
        if !are_same(&text[..8], &MAGIC) {
            OpenFault::Foreign
        } else if version != 2 {
            OpenFault::Version(version)
        } else if !are_same(&text[32..48], &self.store) {
            OpenFault::OtherStore
        } else if number != self.number {
            OpenFault::OtherNumber(number)
        } else if generation > self.generation {
            OpenFault::Later {
                file: generation,
                log: self.generation,
            }
        } else {
            OpenFault::Damaged
        }
    }
}
