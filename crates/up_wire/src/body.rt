//! Reading a body.
ghost use Rattle.std.specs.Prelude.{◌≡◌, ◌+◌, ◌-◌, ◌<◌, ◌≤◌, ◌⊎◌, ◌∷◌, ◌++◌, [], List, ℕ, length, take, vec_len, true};
ghost use Rattle.std.specs.Prelude.{false, OnOk, IfErr};
ghost use Rattle.up_wire.specs.Limits.{max_interruptions, large};
ghost use Rattle.up_wire.specs.Steps.{Took, HasRead, IsBodyRead, batch_ending, IsBatch, IsBytesRead, IsFrontRead};
ghost use Rattle.up_wire.specs.Steps.{IsBounded, IsBoundedBy, HasBoundedBody, stopped};

use crate::chunks::read_chunks;
use crate::device::{ReadSome, Source};
use crate::framing::Framing;
use crate::room::make_room;
use crate::step::{MAX_INTERRUPTIONS, Step, take_step};
use crate::wire_fault::WireFault;
use std::alloc::Global;

/// The result of reading a body.
#[derive(Drop)]
pub(crate) enum BodyRead {
    Whole(Vec<u8>),
    Cut(Vec<u8>),
    Fault(WireFault),
}

/// Why reading a part of a body stopped.
#[derive(Clone, Copy)]
pub(crate) enum BodyEnd {
    Ended,
    Failed,
    /// No body has these bytes there.
    Bad,
    NoMemory,
}

impl BodyEnd {
    /// The result for a body that stops so, with the bytes that arrived.
    pub(crate) fn into_body(self, body: Vec<u8>) -> BodyRead
        ensures { result ≡ stopped self body }
    {
        match self {
            BodyEnd::Ended | BodyEnd::Failed => BodyRead::Cut(body),
            BodyEnd::Bad => BodyRead::Fault(WireFault::BadFraming),
            BodyEnd::NoMemory => BodyRead::Fault(WireFault::NoMemory),
        }
    }
}

/// Reads a body with this framing. Its room grows with the bytes that arrive, whatever length was announced.
pub(crate) fn read_body<R: Source>(
    alloc: Global,
    source: &mut R,
    interruptions: &mut u32,
    limit: u64,
    framing: Framing,
) -> BodyRead
    requires { interruptions.old < max_interruptions }
    ensures answer { HasRead (R.device source.old) (R.device source.new)
        interruptions.old interruptions.new
        (λ input ending. IsBodyRead limit framing input ending result) }
    ensures bounded { HasBoundedBody result }
{
    match framing {
        Framing::NoBody => BodyRead::Whole(Vec::new(alloc)),
        Framing::Sized(size) => read_sized(alloc, source, interruptions, limit, size),
        Framing::Chunked => read_chunks(alloc, source, interruptions, limit),
    }
}

/// Reads `size` bytes.
fn read_sized<R: Source>(
    alloc: Global,
    source: &mut R,
    interruptions: &mut u32,
    limit: u64,
    size: u64,
) -> BodyRead
    requires { interruptions.old < max_interruptions }
    ensures answer { HasRead (R.device source.old) (R.device source.new)
        interruptions.old interruptions.new
        (λ input ending. IsBodyRead limit (Framing.Sized size) input ending result) }
    ensures bounded { HasBoundedBody result }
{
    let mut body = Vec::new(alloc);
    if let Err(stop) = read_front(source, interruptions, &mut body, size) {
        return stop.into_body(body);
    }
    match read_bytes(source, interruptions, &mut body, size, size) {
        Ok(()) => BodyRead::Whole(body),
        Err(stop) => stop.into_body(body),
    }
}

/// The minimum size of a large body, in bytes. This many bytes are read of it before it has any room.
const LARGE: usize = 1 << 15;

/// Waits for the first byte of a large body, and then reads the start of the body. Reads nothing of a body that is not
/// large.
fn read_front<R: Source>(
    source: &mut R,
    interruptions: &mut u32,
    body: &mut Vec<u8>,
    size: u64,
) -> Result<(), BodyEnd>
    requires patient { interruptions.old < max_interruptions }
    requires empty { body.old.items ≡ [] }
    requires bounded { IsBounded body.old }
    ensures { HasRead (R.device source.old) (R.device source.new)
        interruptions.old interruptions.new
        (λ run ending. IsFrontRead size run ending body.new result) }
{
    if size < LARGE as u64 {
        return Ok(());
    }
    match take_step(source, interruptions) {
        Step::Byte(first) => read_large_front(source, interruptions, body, size, first),
        Step::Ended => Err(BodyEnd::Ended),
        Step::Failed => Err(BodyEnd::Failed),
    }
}

/// Reads the start of a large body, after its first byte, and only then gives the body its room. This function has a
/// stack frame of its own, which a connection that has only announced a body does not touch.
#[inline(never)]
fn read_large_front<R: Source>(
    source: &mut R,
    interruptions: &mut u32,
    body: &mut Vec<u8>,
    size: u64,
    first: u8,
) -> Result<(), BodyEnd>
    requires patient { interruptions.old < max_interruptions }
    requires empty { body.old.items ≡ [] }
    requires large { large ≤ size }
    requires bounded { IsBounded body.old }
    ensures { HasRead (R.device source.old) (R.device source.new)
        interruptions.old interruptions.new
        (λ run ending. IsFrontRead size (first ∷ run) ending body.new result) }
{
    let mut front = [0; LARGE];
    front[0] = first;
    let mut filled = 1;
    'batches: while filled < LARGE {
        match fill(source, interruptions, &mut front, filled) {
            Batch::Came(count) => filled += count,
            Batch::Ended => {
                put_front(body, &front[..filled], size)?;
                return Err(BodyEnd::Ended);
            }
            Batch::Failed => {
                put_front(body, &front[..filled], size)?;
                return Err(BodyEnd::Failed);
            }
        }
    }
    put_front(body, &front, size)
}

/// Copies the start of a body into it, with room for as many bytes again, but for at most `size` in all.
fn put_front(body: &mut Vec<u8>, front: &[u8], size: u64) -> Result<(), BodyEnd>
    requires empty { body.old.items ≡ [] }
    requires some { 0 < length front.now }
    requires within { length front.now ≤ size }
    requires bounded { IsBounded body.old }
    ensures memory { IfErr result (λ stop. stop ≡ BodyEnd.NoMemory) }
    ensures items { OnOk result (body.new.items ≡ front.now) }
    ensures bounded { OnOk result (IsBounded body.new) }
{
    if !make_room(body, size, 2 * front.len()) {
        return Err(BodyEnd::NoMemory);
    }
    let room = body.capacity();
    // std does not promise that filling a buffer takes no more room than there is.
    if body.extend_from_slice(front).is_err() || body.capacity() > room {
        return Err(BodyEnd::NoMemory);
    }
    Ok(())
}

/// Reads bytes to the end of `body` until it has `size` bytes. The body may later grow to `most` bytes.
pub(crate) fn read_bytes<R: Source>(
    source: &mut R,
    interruptions: &mut u32,
    body: &mut Vec<u8>,
    size: u64,
    most: u64,
) -> Result<(), BodyEnd>
    requires patient { interruptions.old < max_interruptions }
    requires within { (vec_len body.old ≤ size) × (size ≤ most) }
    requires bounded { IsBounded body.old }
    ensures answer { HasRead (R.device source.old) (R.device source.new)
        interruptions.old interruptions.new
        (λ run ending. (body.new.items ≡ body.old.items ++ run)
        × IsBytesRead size body.new.items ending result) }
    ensures bounded { (result ≡ Err BodyEnd.NoMemory) ⊎ IsBounded body.new }
{
    let mut filled = body.len();
    'batches: while (filled as u64) < size {
        if !make_ready(body, filled, size, most) {
            return Err(BodyEnd::NoMemory);
        }
        match fill(source, interruptions, body.as_mut_slice(), filled) {
            Batch::Came(count) => filled += count,
            Batch::Ended => {
                body.truncate(filled);
                return Err(BodyEnd::Ended);
            }
            Batch::Failed => {
                body.truncate(filled);
                return Err(BodyEnd::Failed);
            }
        }
    }
    Ok(())
}

/// The room of a body at first, in bytes.
const FIRST_ROOM: usize = 8192;

/// The maximum number of bytes that are asked for at a time. This many places stay in the processor's cache from when
/// they are made ready until they are filled.
const MAX_READY: usize = 1 << 18;

/// Whether `ready` places after the first `filled` bytes are enough to read into: all that are wanted, or a good part
/// of the maximum that can be made ready at a time.
fn is_enough(ready: usize, filled: usize, wanted: u64) -> bool
    ensures { result ≡ true → (0 < wanted → 0 < ready) }
{
    ready as u64 == wanted || ready > filled.min(MAX_READY) / 4 && ready > 0
}

/// Makes places ready after the first `filled` bytes, for some of the bytes up to `size`, so that they can be read
/// directly into the body. Returns whether there are such places. If there are none, the body has only the first
/// `filled` bytes.
fn make_ready(body: &mut Vec<u8>, filled: usize, size: u64, most: u64) -> bool
    requires filled { filled ≤ vec_len body.old }
    requires within { (vec_len body.old ≤ size) × (filled < size) × (size ≤ most) }
    requires bounded { IsBoundedBy filled body.old }
    ensures kept { take filled body.new.items ≡ take filled body.old.items }
    ensures within { (filled ≤ vec_len body.new) × (vec_len body.new ≤ size) }
    ensures ready { result ≡ true → (filled < vec_len body.new) × IsBoundedBy filled body.new }
    ensures none { result ≡ false → vec_len body.new ≡ filled }
{
    if is_enough(body.len() - filled, filled, size - filled as u64) {
        return true;
    }
    body.truncate(filled);
    if !make_room(body, most, FIRST_ROOM) {
        return false;
    }
    let room = body.capacity();
    let wanted = (size - filled as u64).min(MAX_READY as u64) as usize;
    let ready = wanted.min(room - filled);
    // std does not promise that filling a buffer takes no more room than there is.
    if body.resize(filled + ready, 0).is_err() || body.capacity() > room {
        body.truncate(filled);
        return false;
    }
    true
}

/// The number of bytes that arrived, or why none did.
#[derive(Clone, Copy)]
enum Batch {
    Came(usize),
    Ended,
    Failed,
}

/// Reads some of the next bytes to the places after the first `filled`.
fn fill<R: Source>(
    source: &mut R,
    interruptions: &mut u32,
    whole: &mut [u8],
    filled: usize,
) -> Batch
    requires patient { interruptions.old < max_interruptions }
    requires some { filled < length whole.old }
    ensures { (run : List ℕ)
        × Took (R.device source.old) (R.device source.new)
        interruptions.old interruptions.new run (batch_ending result)
        × (take (filled + length run) whole.new ≡ take filled whole.old ++ run)
        × IsBatch result (length whole.old - filled) run }
{
    take_batch(source, interruptions, &mut whole[filled..])
}

/// Reads some of the next bytes to the start of `into`. Retries an interrupted read.
fn take_batch<R: Source>(source: &mut R, interruptions: &mut u32, into: &mut [u8]) -> Batch
    requires patient { interruptions.old < max_interruptions }
    requires some { 0 < length into.old }
    ensures { (run : List ℕ)
        × Took (R.device source.old) (R.device source.new)
        interruptions.old interruptions.new run (batch_ending result)
        × (take (length run) into.new ≡ run) × IsBatch result (length into.old) run }
{
    'tries: loop {
        match source.take_into(into) {
            ReadSome::Moved(count) => return Batch::Came(count),
            ReadSome::End => return Batch::Ended,
            ReadSome::Failed => return Batch::Failed,
            ReadSome::Interrupted => {
                *interruptions += 1;
                if *interruptions == MAX_INTERRUPTIONS {
                    return Batch::Failed;
                }
            }
        }
    }
}
