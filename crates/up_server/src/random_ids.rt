//! Ids that nobody can guess.
ghost use Rattle.std.specs.Prelude.{◌≡◌, IfOk, IfSome};
ghost use Rattle.up_server.specs.Shards.{TextsTellTheirByte, first_byte, in_shard};

use rand::make_rng;
use rand::rngs::StdRng;
use rand_core::Rng;
use std::io;
use std::random::RandomSource;
use up_dispatch::Ids;
use up_events::Id;

/// Ids of 128 bits, drawn by a cryptographic random generator that the system has seeded.
#[derive(Drop)]
pub struct RandomIds {
    rng: StdRng,
    /// The first byte of each id. If there is none, all bytes are drawn.
    pub shard: Option<u8>,
}

impl RandomIds {
    /// A source with a seed of its own. If there is a shard, its ids begin with that byte. The error comes from the
    /// system's source of random bytes.
    pub fn new<R: RandomSource>(rt: &R, shard: Option<u8>) -> io::Result<RandomIds>
        ensures { IfOk result (λ drawn. drawn.shard ≡ shard) }
    {
        Ok(RandomIds {
            rng: make_rng(rt)?,
            shard,
        })
    }
}

/// The number, with the byte of the shard as its first byte if there is a shard.
fn in_shard(shard: Option<u8>, number: u128) -> u128
    ensures number { result ≡ in_shard shard number }
    ensures first { IfSome shard (λ byte. first_byte result ≡ byte) }
{
    match shard {
        Some(byte) => u128::from(byte) * (1 << 120) + number % (1 << 120),
        None => number,
    }
}

impl Ids for RandomIds {
    ghost use Rattle.std.specs.Prelude.{◌≡◌, ◌+◌, ◌*◌, ◌^◌, IfSome};
    ghost use Rattle.rand_core.specs.Stream.{next_u64};
    ghost use Rattle.up_server.specs.Shards.{first_byte, in_shard};

    // The first fact is what a shard guarantees.
    ghost draws = { λ old id new.
        let high = next_u64 (⟦<StdRng as Rng>⟧.stream old.rng) in
        let low = next_u64 high.1 in
        (IfSome old.shard (λ byte. first_byte id ≡ byte))
        × (new.shard ≡ old.shard)
        × (id ≡ in_shard old.shard (high.0 * 2 ^ 64 + low.0))
        × (⟦<StdRng as Rng>⟧.stream new.rng ≡ low.1) };

    fn next_id(&mut self) -> Id {
        let high = u128::from(self.rng.next_u64());
        let low = u128::from(self.rng.next_u64());
        Id::new(in_shard(self.shard, high * (1 << 64) + low))
    }
}

/// For the prover: the first two digits of an id's text are those of its first byte. So a proxy can tell the shard from
/// the path of an upload. Does nothing.
pub fn texts_tell_their_byte()
    ensures { TextsTellTheirByte }
{}
