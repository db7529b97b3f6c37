//! Reading a body into memory, or into a spool.
ghost use Rattle.std.specs.Prelude.{◌≡◌, ◌<◌, [], ℕ, IfSome};
ghost use Rattle.up_wire.specs.Limits.{max_interruptions};
ghost use Rattle.up_wire.specs.Spooled.{IsBlockRead, IsPutAway, KeepsBody};
ghost use Rattle.up_wire.specs.Steps.{HasRead};

use crate::body::{BodyEnd, BodyRead, read_body, read_bytes};
use crate::device::Source;
use crate::framing::Framing;
use crate::wire_fault::WireFault;
use std::alloc::Global;
use up_message::{Piece, Sequence};
use up_places::{BLOCK, Spool};

/// The result of reading a body into memory, or into a spool.
#[derive(Drop)]
pub(crate) enum BodyKept {
    Whole(Piece),
    Cut(Piece),
    Fault(WireFault),
}

/// Reads the next bytes of a body: `count` of them, or as many as arrive.
fn read_block<R: Source>(
    alloc: Global,
    source: &mut R,
    interruptions: &mut u32,
    count: u64,
) -> (Vec<u8>, Result<(), BodyEnd>)
    requires patient { interruptions.old < max_interruptions }
    ensures { HasRead (R.device source.old) (R.device source.new)
        interruptions.old interruptions.new
        (λ run ending. IsBlockRead count run ending result.0.items result.1) }
{
    let mut block = Vec::new(alloc);
    let ended = read_bytes(source, interruptions, &mut block, count, count);
    (block, ended)
}

/// Reads a body of this size, and puts its bytes into the spool, block by block.
fn read_blocks<R: Source, P: Spool>(
    alloc: Global,
    source: &mut R,
    spool: &mut P,
    interruptions: &mut u32,
    size: u64,
) -> Result<(), BodyEnd>
    requires patient { interruptions.old < max_interruptions }
    requires begun { P.body spool.old ≡ [] }
    ensures { HasRead (R.device source.old) (R.device source.new)
        interruptions.old interruptions.new
        (λ run ending. IsPutAway size run ending (P.body spool.new) result) }
{
    let mut done = 0;
    'spans: while done < size {
        let count = (size - done).min(BLOCK as u64);
        let (mut block, ended) = read_block(alloc, source, interruptions, count);
        if block.len() as u64 > count {
            return Err(BodyEnd::NoMemory);
        }
        let Ok(()) = spool.put(&mut block) else {
            return Err(BodyEnd::NoMemory);
        };
        match ended {
            Ok(()) => done += count,
            Err(stop) => return Err(stop),
        }
    }
    Ok(())
}

/// The body that was put into the spool. `None` if that failed, or if memory runs out.
fn finished<P: Spool>(alloc: Global, spool: &mut P) -> Option<Piece>
    ensures { IfSome result (λ piece. piece ≡ P.body spool.old) }
{
    let place = spool.finish().ok()?;
    Piece::at(alloc, place).ok()
}

/// Reads a body of this size into the spool.
fn read_spooled<R: Source, P: Spool>(
    alloc: Global,
    source: &mut R,
    spool: &mut P,
    interruptions: &mut u32,
    size: u64,
) -> BodyKept
    requires patient { interruptions.old < max_interruptions }
    requires begun { P.body spool.old ≡ [] }
    ensures { (limit : ℕ) → KeepsBody R.Source source.old source.new
        interruptions.old interruptions.new limit (Framing.Sized size) result }
{
    let ended = read_blocks(alloc, source, spool, interruptions, size);
    let Some(piece) = finished(alloc, spool) else {
        return BodyKept::Fault(WireFault::NoMemory);
    };
    match ended {
        Ok(()) => BodyKept::Whole(piece),
        Err(BodyEnd::Ended | BodyEnd::Failed) => BodyKept::Cut(piece),
        Err(_) => BodyKept::Fault(WireFault::NoMemory),
    }
}

/// The bytes of a body that are in memory.
fn in_memory(body: Vec<u8>) -> Option<Piece>
    ensures { IfSome result (λ piece. piece ≡ body.items) }
{
    Piece::from_sequence(Sequence::from_vec(body)).ok()
}

/// Reads a body into memory.
fn read_to_memory<R: Source>(
    alloc: Global,
    source: &mut R,
    interruptions: &mut u32,
    limit: u64,
    framing: Framing,
) -> BodyKept
    requires patient { interruptions.old < max_interruptions }
    ensures { KeepsBody R.Source source.old source.new
        interruptions.old interruptions.new limit framing result }
{
    let (body, is_whole) = match read_body(alloc, source, interruptions, limit, framing) {
        BodyRead::Whole(body) => (body, true),
        BodyRead::Cut(body) => (body, false),
        BodyRead::Fault(fault) => return BodyKept::Fault(fault),
    };
    match in_memory(body) {
        Some(piece) if is_whole => BodyKept::Whole(piece),
        Some(piece) => BodyKept::Cut(piece),
        None => BodyKept::Fault(WireFault::NoMemory),
    }
}

/// Reads a body with this framing: into the spool if its length is known and the spool takes it, else into memory.
pub(crate) fn keep_body<R: Source, P: Spool>(
    alloc: Global,
    source: &mut R,
    spool: &mut P,
    interruptions: &mut u32,
    limit: u64,
    framing: Framing,
) -> BodyKept
    requires patient { interruptions.old < max_interruptions }
    ensures { KeepsBody R.Source source.old source.new
        interruptions.old interruptions.new limit framing result }
{
    if let Framing::Sized(size) = framing {
        match spool.begin(Some(size)) {
            Ok(true) => return read_spooled(alloc, source, spool, interruptions, size),
            Ok(false) => {}
            Err(_) => return BodyKept::Fault(WireFault::NoMemory),
        }
    }
    read_to_memory(alloc, source, interruptions, limit, framing)
}
