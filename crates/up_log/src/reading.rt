//! Decoding requests.
ghost use Rattle.std.specs.Prelude.{◌≡◌, ◌<◌, length, IfErr, IfOk};
ghost use Rattle.up_log.specs.Reading.{ReadsAs, word_at, id_at, text_at, maybe_at, many_at, so_many_at};
ghost use Rattle.up_log.specs.Reading.{flag_at, kind_at, consent_at, declared_at, pair_at, new_upload_at};
ghost use Rattle.up_log.specs.Reading.{position_at, placed_at, patch_at, asked_for_at};
ghost use Rattle.up_log.specs.declared.fault.Unread.TheVariants.{Damaged};

use crate::entry::Consent;
use crate::fault::Unread;
use std::alloc::Global;
use up_events::{Id, Kind};
use up_headers::{NewUpload, NotDigits, Pairs, Patch, Request};
use up_message::{Piece, Sequence};
use up_places::{Contents, Position};

/// A number of eight bytes, the lowest first, and what follows it.
#[tactic(auto, unfolding(crate::specs::Reading::word_at))]
pub(crate) fn word_of(bytes: &[u8]) -> Result<(u64, &[u8]), Unread>
    ensures exact { ReadsAs (λ x. (x.0, x.1.now)) result (word_at bytes.now) }
    ensures shorter { IfOk result (λ x. length x.1.now < length bytes.now) }
{
    match bytes {
        [a, b, c, d, e, f, g, h, rest @ ..] => {
            let upper = u64::from(*e)
                + 256 * (u64::from(*f) + 256 * (u64::from(*g) + 256 * u64::from(*h)));
            let lower = u64::from(*a)
                + 256
                    * (u64::from(*b) + 256 * (u64::from(*c) + 256 * (u64::from(*d) + 256 * upper)));
            Ok((lower, rest))
        }
        _ => Err(Unread::Damaged),
    }
}

/// A number of sixteen bytes, the lowest first, and what follows it.
#[tactic(auto, unfolding(crate::specs::Reading::id_at))]
pub(crate) fn number_of(bytes: &[u8]) -> Result<(u128, &[u8]), Unread>
    ensures { ReadsAs (λ x. (x.0, x.1.now)) result (id_at bytes.now) }
{
    let (low, rest) = word_of(bytes)?;
    let (high, rest) = word_of(rest)?;
    let number = u128::from(low) + (1 << 64) * u128::from(high);
    Ok((number, rest))
}

/// A copy of bytes with their count before them, and what follows them.
#[tactic(auto, unfolding(crate::specs::Reading::text_at))]
fn text_of(alloc: Global, bytes: &[u8]) -> Result<(Sequence<u8>, &[u8]), Unread>
    ensures { ReadsAs (λ x. (x.0, x.1.now)) result (text_at bytes.now) }
{
    let (count, rest) = word_of(bytes)?;
    let count = count as usize;
    if rest.len() < count {
        return Err(Unread::Damaged);
    }
    let (text, rest) = rest.split_at(count);
    Ok((Sequence::from_slice(alloc, text)?, rest))
}

/// The bytes of a PATCH, copied, and what follows them.
fn piece_of(alloc: Global, bytes: &[u8]) -> Result<(Piece, &[u8]), Unread>
    ensures { ReadsAs (λ x. (x.0, x.1.now)) result (text_at bytes.now) }
{
    let (text, rest) = span_of(bytes)?;
    Ok((Piece::copied(alloc, text)?, rest))
}

/// A length, or none, and what follows it.
#[tactic(auto, unfolding(crate::specs::Reading::maybe_at))]
fn length_of(bytes: &[u8]) -> Result<(Option<u64>, &[u8]), Unread>
    ensures { ReadsAs (λ x. (x.0, x.1.now)) result (maybe_at word_at bytes.now) }
{
    match bytes {
        [0, rest @ ..] => Ok((None, rest)),
        [1, rest @ ..] => {
            let (n, rest) = word_of(rest)?;
            Ok((Some(n), rest))
        }
        _ => Err(Unread::Damaged),
    }
}

/// A text, or none, and what follows it.
#[tactic(auto, unfolding(crate::specs::Reading::maybe_at))]
fn some_text_of(alloc: Global, bytes: &[u8]) -> Result<(Option<Sequence<u8>>, &[u8]), Unread>
    ensures { ReadsAs (λ x. (x.0, x.1.now)) result (maybe_at text_at bytes.now) }
{
    match bytes {
        [0, rest @ ..] => Ok((None, rest)),
        [1, rest @ ..] => {
            let (text, rest) = text_of(alloc, rest)?;
            Ok((Some(text), rest))
        }
        _ => Err(Unread::Damaged),
    }
}

/// A flag, and what follows it.
#[tactic(auto, unfolding(crate::specs::Reading::flag_at))]
fn flag_of(bytes: &[u8]) -> Result<(bool, &[u8]), Unread>
    ensures { ReadsAs (λ x. (x.0, x.1.now)) result (flag_at bytes.now) }
{
    match bytes {
        [0, rest @ ..] => Ok((false, rest)),
        [1, rest @ ..] => Ok((true, rest)),
        _ => Err(Unread::Damaged),
    }
}

/// The kind of an upload, and what follows it.
#[tactic(auto, unfolding(crate::specs::Reading::kind_at))]
fn kind_of(bytes: &[u8]) -> Result<(Kind, &[u8]), Unread>
    ensures { ReadsAs (λ x. (x.0, x.1.now)) result (kind_at bytes.now) }
{
    match bytes {
        [0, rest @ ..] => Ok((Kind::Plain, rest)),
        [1, rest @ ..] => Ok((Kind::Partial, rest)),
        [2, rest @ ..] => Ok((Kind::Final, rest)),
        _ => Err(Unread::Damaged),
    }
}

/// What the closures answered, and what follows it.
#[tactic(auto, unfolding(crate::specs::Reading::consent_at))]
pub(crate) fn consent_of(bytes: &[u8]) -> Result<(Consent, &[u8]), Unread>
    ensures { ReadsAs (λ x. (x.0, x.1.now)) result (consent_at bytes.now) }
{
    match bytes {
        [0, rest @ ..] => Ok((Consent::Skipped, rest)),
        [1, rest @ ..] => Ok((Consent::Allowed, rest)),
        [2, rest @ ..] => Ok((Consent::AllowedFinish, rest)),
        _ => Err(Unread::Damaged),
    }
}

/// The length that a PATCH declares, if it declares one, and what follows it.
#[tactic(auto, unfolding(crate::specs::Reading::declared_at))]
fn declared_of(bytes: &[u8]) -> Result<(Option<Result<u64, NotDigits>>, &[u8]), Unread>
    ensures { ReadsAs (λ x. (x.0, x.1.now)) result (declared_at bytes.now) }
{
    match bytes {
        [0, rest @ ..] => Ok((None, rest)),
        [1, rest @ ..] => {
            let (n, rest) = word_of(rest)?;
            Ok((Some(Ok(n)), rest))
        }
        [2, rest @ ..] => Ok((Some(Err(NotDigits)), rest)),
        _ => Err(Unread::Damaged),
    }
}

/// A key of metadata with its value, and what follows them.
#[tactic(auto, unfolding(crate::specs::Reading::pair_at))]
fn pair_of(alloc: Global, bytes: &[u8]) -> Result<((Sequence<u8>, Sequence<u8>), &[u8]), Unread>
    ensures { ReadsAs (λ x. (x.0, x.1.now)) result (pair_at bytes.now) }
{
    let (key, rest) = text_of(alloc, bytes)?;
    let (value, rest) = text_of(alloc, rest)?;
    Ok(((key, value), rest))
}

/// `count` ids, and what follows them.
fn so_many_ids(alloc: Global, count: u64, bytes: &[u8]) -> Result<(Sequence<Id>, &[u8]), Unread>
    ensures { ReadsAs (λ x. (x.0, x.1.now)) result (so_many_at id_at count bytes.now) }
{
    let mut ids = Sequence::new(alloc);
    let mut rest = bytes;
    for _ in 0..count {
        let (number, after) = number_of(rest)?;
        ids.push(Id::new(number))?;
        rest = after;
    }
    Ok((ids, rest))
}

/// `count` pairs of metadata, and what follows them.
fn so_many_pairs(alloc: Global, count: u64, bytes: &[u8]) -> Result<(Pairs, &[u8]), Unread>
    ensures { ReadsAs (λ x. (x.0, x.1.now)) result (so_many_at pair_at count bytes.now) }
{
    let mut pairs = Sequence::new(alloc);
    let mut rest = bytes;
    for _ in 0..count {
        let (pair, after) = pair_of(alloc, rest)?;
        pairs.push(pair)?;
        rest = after;
    }
    Ok((pairs, rest))
}

/// Ids with their count before them, and what follows them.
#[tactic(auto, unfolding(crate::specs::Reading::many_at))]
fn ids_of(alloc: Global, bytes: &[u8]) -> Result<(Sequence<Id>, &[u8]), Unread>
    ensures { ReadsAs (λ x. (x.0, x.1.now)) result (many_at id_at bytes.now) }
{
    let (count, rest) = word_of(bytes)?;
    so_many_ids(alloc, count, rest)
}

/// Pairs of metadata with their count before them, and what follows them.
#[tactic(auto, unfolding(crate::specs::Reading::many_at))]
fn pairs_of(alloc: Global, bytes: &[u8]) -> Result<(Pairs, &[u8]), Unread>
    ensures { ReadsAs (λ x. (x.0, x.1.now)) result (many_at pair_at bytes.now) }
{
    let (count, rest) = word_of(bytes)?;
    so_many_pairs(alloc, count, rest)
}

/// The request to create an upload, and what follows it.
#[tactic(auto, unfolding(crate::specs::Reading::new_upload_at))]
fn new_upload_of(alloc: Global, bytes: &[u8]) -> Result<(NewUpload, &[u8]), Unread>
    ensures { ReadsAs (λ x. (x.0, x.1.now)) result (new_upload_at bytes.now) }
{
    let (kind, rest) = kind_of(bytes)?;
    let (length, rest) = length_of(rest)?;
    let (parts, rest) = ids_of(alloc, rest)?;
    let (pairs, rest) = pairs_of(alloc, rest)?;
    let (metadata, rest) = some_text_of(alloc, rest)?;
    let (concat, rest) = some_text_of(alloc, rest)?;
    let new = NewUpload {
        kind,
        length,
        parts,
        pairs,
        metadata,
        concat,
    };
    Ok((new, rest))
}

/// A number of bytes with their count before them. They are not copied.
#[tactic(auto, unfolding(crate::specs::Reading::text_at))]
fn span_of(bytes: &[u8]) -> Result<(&[u8], &[u8]), Unread>
    ensures exact { ReadsAs (λ x. (x.0.now, x.1.now)) result (text_at bytes.now) }
    ensures shorter { IfOk result (λ x. length x.1.now < length bytes.now) }
{
    let (count, rest) = word_of(bytes)?;
    let count = count as usize;
    if rest.len() < count {
        return Err(Unread::Damaged);
    }
    Ok(rest.split_at(count))
}

/// Where bytes in data files begin, and what follows it.
#[tactic(auto, unfolding(crate::specs::Reading::position_at))]
fn position_of(bytes: &[u8]) -> Result<(Position, &[u8]), Unread>
    ensures { ReadsAs (λ x. (x.0, x.1.now)) result (position_at bytes.now) }
{
    let (file, rest) = word_of(bytes)?;
    let (at, rest) = word_of(rest)?;
    Ok((Position { file, at }, rest))
}

/// What data files have at a place.
fn piece_at<C: Contents>(
    alloc: Global,
    files: &C,
    start: Position,
    len: usize,
) -> Result<Piece, Unread>
    ensures there { IfOk result (λ piece. piece ≡ C.content files.now start.file start.at len) }
    ensures cause { IfErr result (λ fault. fault ≡ Damaged → ⊥) }
{
    match files.place(start, len) {
        Ok(place) => Ok(Piece::at(alloc, place)?),
        Err(_) => Err(Unread::NotThere(start)),
    }
}

/// The bytes of a PATCH, copied, or those that data files have where it says, and what follows them.
#[tactic(auto, unfolding(crate::specs::Reading::placed_at))]
fn placed_of<'a, C: Contents>(
    alloc: Global,
    files: &C,
    is_placed: bool,
    bytes: &'a [u8],
) -> Result<((Option<Position>, Piece), &'a [u8]), Unread>
    ensures { ReadsAs (λ x. (x.0, x.1.now)) result
        (placed_at (C.content files.now) is_placed bytes.now) }
{
    if !is_placed {
        let (piece, rest) = piece_of(alloc, bytes)?;
        return Ok(((None, piece), rest));
    }
    let (start, rest) = position_of(bytes)?;
    let (count, rest) = word_of(rest)?;
    let piece = piece_at(alloc, files, start, count as usize)?;
    Ok(((Some(start), piece), rest))
}

/// The request to append to an upload, with the place of its bytes if that is given in their stead, and what follows it.
#[tactic(auto, unfolding(crate::specs::Reading::patch_at))]
fn patch_of<'a, C: Contents>(
    alloc: Global,
    files: &C,
    is_placed: bool,
    bytes: &'a [u8],
) -> Result<((Option<Position>, Patch), &'a [u8]), Unread>
    ensures { ReadsAs (λ x. (x.0, x.1.now)) result
        (patch_at (C.content files.now) is_placed bytes.now) }
{
    let (number, rest) = number_of(bytes)?;
    let (media, rest) = flag_of(rest)?;
    let (offset, rest) = length_of(rest)?;
    let (length, rest) = declared_of(rest)?;
    let (body, rest) = placed_of(alloc, files, is_placed, rest)?;
    let (place, bytes) = body;
    let patch = Patch {
        id: Id::new(number),
        media,
        offset,
        length,
        bytes,
    };
    Ok(((place, patch), rest))
}

/// A request, with a byte before it that says which kind it is, and the place of its bytes; and what follows it.
#[tactic(auto, unfolding(crate::specs::Reading::asked_for_at))]
pub(crate) fn request_of<'a, C: Contents>(
    alloc: Global,
    files: &C,
    bytes: &'a [u8],
) -> Result<((Option<Position>, Request), &'a [u8]), Unread>
    ensures { ReadsAs (λ x. (x.0, x.1.now)) result
        (asked_for_at (C.content files.now) bytes.now) }
{
    match bytes {
        [0, rest @ ..] => Ok(((None, Request::Options), rest)),
        [1, rest @ ..] => {
            let (new, rest) = new_upload_of(alloc, rest)?;
            Ok(((None, Request::Create(new)), rest))
        }
        [2, rest @ ..] => {
            let (number, rest) = number_of(rest)?;
            Ok(((None, Request::Head(Id::new(number))), rest))
        }
        [3, rest @ ..] => {
            let (patch, rest) = patch_of(alloc, files, false, rest)?;
            let (place, patch) = patch;
            Ok(((place, Request::Patch(patch)), rest))
        }
        [4, rest @ ..] => {
            let (number, rest) = number_of(rest)?;
            Ok(((None, Request::Delete(Id::new(number))), rest))
        }
        [5, rest @ ..] => {
            let (number, rest) = number_of(rest)?;
            Ok(((None, Request::Get(Id::new(number))), rest))
        }
        [6, rest @ ..] => {
            let (patch, rest) = patch_of(alloc, files, true, rest)?;
            let (place, patch) = patch;
            Ok(((place, Request::Patch(patch)), rest))
        }
        _ => Err(Unread::Damaged),
    }
}
