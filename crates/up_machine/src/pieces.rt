//! The bytes of an upload that may still grow.
ghost use Rattle.std.specs.Prelude.{◌≡◌, ◌+◌, ◌<◌, ◌^◌, ◌≤◌, ◌++◌, [], length, IfOk, IfErr, OnOk, OnErr};
ghost use Rattle.up_events.specs.History.{CanFollow};
ghost use Rattle.up_events.specs.Records.{noted};
ghost use Rattle.up_machine.specs.Kept.{tail_room};
ghost use Rattle.up_message.specs.Joins.{pieced, pieced_then};

use bytes::BytesMut;
use std::alloc::{AllocError, Global};
use std::marker::Model;
use up_events::{Accepted, Journal, NoMemory};
use up_message::{Found, MIN_SHARED, Piece, Run, Segments};

/// The maximum room of a tail, in bytes.
const TAIL_ROOM: usize = 65_536;

/// The bytes of an upload that may still grow: the large bodies, as they arrived, and a tail of the small bodies after
/// them. Contracts describe the bytes, whatever the pieces.
#[derive(Drop)]
pub struct Pieces {
    front: Vec<Piece>,
    /// The number of bytes in `front`.
    count: u64,
    tail: BytesMut,
}

impl Model for Pieces {
    ghost use Rattle.std.specs.Prelude.{List, ℕ};
    ghost use Rattle.std.specs.Coded.{coded_list, coded_ℕ};

    ghost Value = { List ℕ };

    ghost coded = { coded_list coded_ℕ };

    ghost use Rattle.up_machine.specs.Kept.{kept_bytes, IsKept};

    ghost view = { kept_bytes };

    ghost invariant = { IsKept };
}

/// Makes the tail a piece of exactly its size. If memory runs out, the bytes stay where they are.
fn seal(
    alloc: Global,
    front: &mut Vec<Piece>,
    count: &mut u64,
    tail: &mut BytesMut,
) -> Result<(), AllocError>
    requires counted { count.old ≡ length (pieced front.old.items) }
    requires small { count.old + length tail.old.items < 2 ^ 64 }
    ensures same { pieced_then front.new.items tail.new.items
        ≡ pieced_then front.old.items tail.old.items }
    ensures counted { count.new ≡ length (pieced front.new.items) }
    ensures sum { count.new + length tail.new.items ≡ count.old + length tail.old.items }
    ensures sealed { OnOk result (tail.new.items ≡ []) }
    ensures room { length tail.new.items + tail.new.spare
        ≡ length tail.old.items + tail.old.spare }
{
    if tail.is_empty() {
        return Ok(());
    }
    front.reserve(1)?;
    let piece = Piece::copied(alloc, tail.as_slice())?;
    *count += tail.len() as u64;
    front.push_reserved(piece);
    tail.truncate(0);
    Ok(())
}

/// Makes the tail a piece if it cannot take `more` bytes.
fn seal_if_full(
    alloc: Global,
    front: &mut Vec<Piece>,
    count: &mut u64,
    tail: &mut BytesMut,
    more: usize,
) -> Result<(), AllocError>
    requires counted { count.old ≡ length (pieced front.old.items) }
    requires small { count.old + length tail.old.items < 2 ^ 64 }
    requires few { more ≤ tail_room }
    ensures same { pieced_then front.new.items tail.new.items
        ≡ pieced_then front.old.items tail.old.items }
    ensures counted { count.new ≡ length (pieced front.new.items) }
    ensures sum { count.new + length tail.new.items ≡ count.old + length tail.old.items }
    ensures fits { OnOk result (length tail.new.items + more ≤ tail_room) }
    ensures room { length tail.new.items + tail.new.spare
        ≡ length tail.old.items + tail.old.spare }
{
    if tail.len() <= TAIL_ROOM - more {
        return Ok(());
    }
    seal(alloc, front, count, tail)
}

/// Makes room in the tail for `more` bytes: it doubles the room, up to `most`, and makes at least the room that is
/// needed.
fn grow(alloc: Global, tail: &mut BytesMut, more: usize, most: u64) -> Result<(), AllocError>
    requires fits { length tail.old.items + more ≤ tail_room }
    requires bounded { length tail.old.items + tail.old.spare ≤ tail_room }
    ensures items { tail.new.items ≡ tail.old.items }
    ensures enough { OnOk result (more ≤ tail.new.spare) }
    ensures bounded { length tail.new.items + tail.new.spare ≤ tail_room }
{
    let room = tail.capacity();
    let needed = tail.len() + more;
    if needed <= room {
        return Ok(());
    }
    let most = most.min(TAIL_ROOM as u64) as usize;
    let mut grown = BytesMut::with_capacity(alloc, (room * 2).min(most).max(needed))?;
    // `with_capacity` makes no more room than it is asked for, but its contract does not say so.
    if grown.capacity() > TAIL_ROOM {
        return Err(AllocError);
    }
    grown.extend_reserved(tail.as_slice());
    *tail = grown;
    Ok(())
}

/// The tail as a piece: the tail itself, or a copy if it has room left. Returns the tail if memory runs out.
fn to_last(alloc: Global, tail: BytesMut) -> Result<Piece, BytesMut>
    ensures ok { IfOk result (λ last. last ≡ tail.items) }
    ensures err { IfErr result (λ back. back ≡ tail) }
{
    if tail.capacity() > tail.len() {
        return Piece::copied(alloc, tail.as_slice()).map_err(|_| tail);
    }
    Piece::from_full(tail)
}

/// Adds these pieces at the end, shared. `AllocError` if memory runs out.
fn add_shared(segments: &mut Segments, pieces: &[Piece]) -> Result<(), AllocError>
    requires { length segments.old + length (pieced pieces.now) < 2 ^ 64 }
    ensures { OnOk result (segments.new ≡ segments.old ++ pieced pieces.now) }
{
    for piece in pieces {
        segments.push(Run::one(piece.share()?))?;
    }
    Ok(())
}

impl Pieces {
    /// No bytes. Takes no memory.
    pub fn new(alloc: Global) -> Self
        ensures { result ≡ [] }
    {
        Pieces {
            front: Vec::new(alloc),
            count: 0,
            tail: BytesMut::new(alloc),
        }
    }

    /// The number of bytes.
    pub fn len(&self) -> u64
        ensures { result ≡ length self.now }
    {
        self.count + self.tail.len() as u64
    }

    /// The unused room in bytes. It is all in the tail: a piece has exactly its bytes.
    pub fn spare(&self) -> usize
        ensures { result ≤ tail_room }
    {
        self.tail.capacity() - self.tail.len()
    }

    /// The pieces, and the tail after them.
    pub fn slices(&self) -> (&[Piece], &[u8])
        ensures { pieced_then result.0.now result.1.now ≡ self.now }
    {
        (self.front.as_slice(), self.tail.as_slice())
    }

    /// Notes the change in the journal, and appends the bytes, up to `most` in all. If memory runs out, nothing is
    /// changed.
    pub fn append(
        &mut self,
        alloc: Global,
        journal: &mut Journal,
        change: Accepted,
        more: &Piece,
        most: u64,
    ) -> Result<(), NoMemory>
        requires within { length self.old + length more.now ≤ most }
        requires follows { CanFollow journal.old.accepted change }
        ensures ok { OnOk result (self.new ≡ self.old ++ more.now) }
        ensures noted { OnOk result (journal.new ≡ noted journal.old change) }
        ensures err { OnErr result (self.new ≡ self.old) }
        ensures not_noted { OnErr result (journal.new ≡ journal.old) }
    {
        match more.found() {
            Found::InMemory(bytes) if bytes.len() < MIN_SHARED => {
                self.append_small(alloc, journal, change, bytes, most)
            }
            _ => self.append_large(alloc, journal, change, more),
        }
    }

    /// The same for a large body, or one in a data file, which is shared and not copied.
    fn append_large(
        &mut self,
        alloc: Global,
        journal: &mut Journal,
        change: Accepted,
        more: &Piece,
    ) -> Result<(), NoMemory>
        requires within { length self.old + length more.now < 2 ^ 64 }
        requires follows { CanFollow journal.old.accepted change }
        ensures ok { OnOk result (self.new ≡ self.old ++ more.now) }
        ensures noted { OnOk result (journal.new ≡ noted journal.old change) }
        ensures err { OnErr result (self.new ≡ self.old) }
        ensures not_noted { OnErr result (journal.new ≡ journal.old) }
    {
        seal(alloc, &mut self.front, &mut self.count, &mut self.tail)?;
        self.front.reserve(1)?;
        let piece = more.share()?;
        journal.note(change)?;
        self.count += piece.len() as u64;
        self.front.push_reserved(piece);
        Ok(())
    }

    /// The same for a small body, which is copied into the tail.
    fn append_small(
        &mut self,
        alloc: Global,
        journal: &mut Journal,
        change: Accepted,
        more: &[u8],
        most: u64,
    ) -> Result<(), NoMemory>
        requires within { length self.old + length more.now ≤ most }
        requires few { length more.now ≤ tail_room }
        requires follows { CanFollow journal.old.accepted change }
        ensures ok { OnOk result (self.new ≡ self.old ++ more.now) }
        ensures noted { OnOk result (journal.new ≡ noted journal.old change) }
        ensures err { OnErr result (self.new ≡ self.old) }
        ensures not_noted { OnErr result (journal.new ≡ journal.old) }
    {
        let few = more.len();
        seal_if_full(alloc, &mut self.front, &mut self.count, &mut self.tail, few)?;
        grow(alloc, &mut self.tail, few, most - self.count)?;
        journal.note(change)?;
        self.tail.extend_reserved(more);
        Ok(())
    }

    /// Adds the bytes at the end. They are shared, except those of the tail, which are copied. `AllocError` if memory
    /// runs out.
    fn add_to(&self, alloc: Global, segments: &mut Segments) -> Result<(), AllocError>
        requires { length segments.old + length self.now < 2 ^ 64 }
        ensures { OnOk result (segments.new ≡ segments.old ++ self.now) }
    {
        add_shared(segments, self.front.as_slice())?;
        segments.push(Run::one(Piece::copied(alloc, self.tail.as_slice())?))
    }

    /// The bytes, shared, except those of the tail, which are copied. `AllocError` if memory runs out.
    pub fn share(&self, alloc: Global) -> Result<Segments, AllocError>
        ensures { IfOk result (λ shared. shared ≡ self.now) }
    {
        let mut shared = Segments::with_room(alloc, self.front.len())?;
        self.add_to(alloc, &mut shared)?;
        Ok(shared)
    }

    /// The same bytes, shared from now on. Returns them unchanged if memory runs out.
    pub fn frozen(self, alloc: Global) -> Result<Segments, Pieces>
        ensures ok { IfOk result (λ frozen. frozen ≡ self) }
        ensures err { IfErr result (λ pieces. pieces ≡ self) }
    {
        let Pieces {
            mut front,
            mut count,
            mut tail,
        } = self;
        if front.is_empty() {
            return match to_last(alloc, tail) {
                Ok(last) => Ok(Segments::from_piece(alloc, last)),
                Err(tail) => Err(Pieces { front, count, tail }),
            };
        }
        if seal(alloc, &mut front, &mut count, &mut tail).is_err() {
            return Err(Pieces { front, count, tail });
        }
        match Run::several(alloc, front, count) {
            Ok(run) => Ok(Segments::from_run(alloc, run)),
            Err(refused) => Err(Pieces {
                front: refused.value,
                count,
                tail,
            }),
        }
    }
}
