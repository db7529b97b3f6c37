//! A block: at most 65,536 bytes of a body, zeros up to a multiple of 8, and a checksum.
ghost use Rattle.std.specs.Prelude.{◌≡◌, ◌≤◌, ◌↔◌, length, IsTrue, OnOk};
ghost use Rattle.up_bodies.specs.Blocks.{IsSound, block, block_len, pad_of, sum_of};

use sqlite_wal::checksum_of;
use std::alloc::AllocError;
use up_places::BLOCK;

/// The number of bytes of a checksum.
pub(crate) const SUM: usize = 8;

/// How many bytes a block with 65,536 bytes of a body takes.
pub(crate) const ROOM: usize = BLOCK + SUM;

/// What the checksums of a file begin with.
pub(crate) type Seed = (u32, u32);

/// How many zeros make this number of bytes a multiple of 8.
fn pad_of(len: usize) -> usize
    ensures { result ≡ pad_of len }
{
    (8 - len % 8) % 8
}

/// How many bytes a block takes with this number of bytes of a body.
pub fn block_len(len: usize) -> usize
    requires small { len ≤ BLOCK }
    ensures { result ≡ block_len len }
{
    len + pad_of(len) + SUM
}

/// The checksum of bytes at this place of a file.
#[tactic(auto, unfolding(crate::specs::Blocks::sum_of))]
fn sum_of(seed: Seed, at: u64, bytes: &[u8]) -> Seed
    ensures { result ≡ sum_of seed at bytes.now }
{
    checksum_of(false, checksum_of(false, seed, &at.to_le_bytes()), bytes)
}

/// Makes the bytes the block that they are at this place. If memory runs out, some of it may be missing.
pub(crate) fn close_block(seed: Seed, at: u64, bytes: &mut Vec<u8>) -> Result<(), AllocError>
    ensures { OnOk result (bytes.new.items ≡ block seed at bytes.old.items) }
{
    let zeros = [0; 7];
    bytes.extend_from_slice(&zeros[..pad_of(bytes.len())])?;
    let (first, second) = sum_of(seed, at, bytes);
    bytes.extend_from_slice(&first.to_le_bytes())?;
    bytes.extend_from_slice(&second.to_le_bytes())?;
    Ok(())
}

/// Whether the last eight bytes are the checksum of those before them.
pub(crate) fn is_sound(seed: Seed, at: u64, bytes: &[u8]) -> bool
    requires some { 8 ≤ length bytes.now }
    ensures { IsTrue result ↔ IsSound seed at bytes.now }
{
    let (front, sum) = bytes.split_at(bytes.len() - SUM);
    let (first, second) = sum_of(seed, at, front);
    let (one, other) = sum.split_at(4);
    one == first.to_le_bytes().as_slice() && other == second.to_le_bytes().as_slice()
}
