//! Encoding entries.
ghost use Rattle.std.specs.Prelude.{◌≡◌, ◌++◌, [], IfOk, OnOk};
ghost use Rattle.up_log.specs.Spelling.{word, id, text, maybe, many, flag, kind, consent, declared_length, pair};
ghost use Rattle.up_log.specs.Spelling.{new_upload, position, placed, patch, patch_kind, asked_for, entry};

use crate::entry::{Consent, Entry};
use bytes::Bytes;
use std::alloc::{AllocError, Global};
use up_events::{Id, Kind};
use up_headers::{NewUpload, NotDigits, Pairs, Patch, Request};
use up_message::{MIN_SHARED, Piece, Sequence};
use up_places::Position;

/// A number as eight bytes, the lowest first.
#[tactic(auto, unfolding(crate::specs::Spelling::word))]
pub(crate) fn word_of(n: u64) -> [u8; 8]
    ensures { result ≡ word n }
{
    let a = n / 256;
    let b = a / 256;
    let c = b / 256;
    let d = c / 256;
    let e = d / 256;
    let f = e / 256;
    let g = f / 256;
    [
        (n % 256) as u8,
        (a % 256) as u8,
        (b % 256) as u8,
        (c % 256) as u8,
        (d % 256) as u8,
        (e % 256) as u8,
        (f % 256) as u8,
        g as u8,
    ]
}

/// Puts a number as eight bytes, the lowest first.
pub(crate) fn put_word(out: &mut Vec<u8>, n: u64) -> Result<(), AllocError>
    ensures { OnOk result (out.new.items ≡ out.old.items ++ word n) }
{
    out.extend_from_slice(&word_of(n))
}

/// Puts an id as sixteen bytes, the lowest first.
fn put_id(out: &mut Vec<u8>, upload: Id) -> Result<(), AllocError>
    ensures { OnOk result (out.new.items ≡ out.old.items ++ id upload) }
{
    let number = upload.number();
    put_word(out, (number % (1 << 64)) as u64)?;
    put_word(out, (number / (1 << 64)) as u64)
}

/// Puts the number of bytes, and the bytes.
fn put_text(out: &mut Vec<u8>, bytes: &Sequence<u8>) -> Result<(), AllocError>
    ensures { OnOk result (out.new.items ≡ out.old.items ++ text bytes.now) }
{
    put_word(out, bytes.len() as u64)?;
    out.extend_from_slice(bytes.as_slice())
}

/// No bytes.
fn nothing() -> Bytes
    ensures { result ≡ [] }
{
    Bytes::from_static(&[])
}

/// Puts the number of bytes, and the bytes, unless they are many. Then they are returned, and are still to be put.
fn put_piece(out: &mut Vec<u8>, bytes: &Piece) -> Result<Bytes, AllocError>
    ensures { IfOk result (λ back. out.new.items ++ back ≡ out.old.items ++ text bytes.now) }
{
    // Bytes at a place are named, and not put.
    let Some(shared) = bytes.in_memory_shared()? else {
        return Err(AllocError);
    };
    put_word(out, shared.len() as u64)?;
    if shared.len() >= MIN_SHARED {
        return Ok(shared);
    }
    out.extend_from_slice(shared.as_slice())?;
    Ok(nothing())
}

/// Puts where bytes in data files begin.
fn put_position(out: &mut Vec<u8>, start: Position) -> Result<(), AllocError>
    ensures { OnOk result (out.new.items ≡ out.old.items ++ position start) }
{
    put_word(out, start.file)?;
    put_word(out, start.at)
}

/// Puts bytes as `put_piece` does, or where they begin in data files and how many they are.
fn put_placed(
    out: &mut Vec<u8>,
    place: Option<Position>,
    bytes: &Piece,
) -> Result<Bytes, AllocError>
    ensures { IfOk result (λ back.
        out.new.items ++ back ≡ out.old.items ++ placed place bytes.now) }
{
    match place {
        None => put_piece(out, bytes),
        Some(start) => {
            put_position(out, start)?;
            put_word(out, bytes.len() as u64)?;
            Ok(nothing())
        }
    }
}

/// Puts a length, or that there is none.
fn put_length(out: &mut Vec<u8>, length: Option<u64>) -> Result<(), AllocError>
    ensures { OnOk result (out.new.items ≡ out.old.items ++ maybe word length) }
{
    match length {
        None => Ok(out.push(0)?),
        Some(n) => {
            out.push(1)?;
            put_word(out, n)
        }
    }
}

/// Puts a text, or that there is none.
fn put_some_text(out: &mut Vec<u8>, sent: &Option<Sequence<u8>>) -> Result<(), AllocError>
    ensures { OnOk result (out.new.items ≡ out.old.items ++ maybe text sent.now) }
{
    match sent {
        None => Ok(out.push(0)?),
        Some(bytes) => {
            out.push(1)?;
            put_text(out, bytes)
        }
    }
}

/// Puts a flag.
fn put_flag(out: &mut Vec<u8>, holds: bool) -> Result<(), AllocError>
    ensures { OnOk result (out.new.items ≡ out.old.items ++ flag holds) }
{
    Ok(out.push(if holds { 1 } else { 0 })?)
}

/// Puts the kind of an upload.
fn put_kind(out: &mut Vec<u8>, of: Kind) -> Result<(), AllocError>
    ensures { OnOk result (out.new.items ≡ out.old.items ++ kind of) }
{
    Ok(out.push(match of {
        Kind::Plain => 0,
        Kind::Partial => 1,
        Kind::Final => 2,
    })?)
}

/// Puts what the closures answered.
fn put_consent(out: &mut Vec<u8>, given: Consent) -> Result<(), AllocError>
    ensures { OnOk result (out.new.items ≡ out.old.items ++ consent given) }
{
    Ok(out.push(match given {
        Consent::Skipped => 0,
        Consent::Allowed => 1,
        Consent::AllowedFinish => 2,
    })?)
}

/// Puts the length that a PATCH declares, or that it declares none.
fn put_declared(out: &mut Vec<u8>, length: Option<Result<u64, NotDigits>>) -> Result<(), AllocError>
    ensures { OnOk result (out.new.items ≡ out.old.items ++ declared_length length) }
{
    match length {
        None => Ok(out.push(0)?),
        Some(Ok(n)) => {
            out.push(1)?;
            put_word(out, n)
        }
        Some(Err(_)) => Ok(out.push(2)?),
    }
}

/// Puts the number of ids, and the ids.
fn put_ids(out: &mut Vec<u8>, ids: &[Id]) -> Result<(), AllocError>
    ensures { OnOk result (out.new.items ≡ out.old.items ++ many id ids.now) }
{
    put_word(out, ids.len() as u64)?;
    for upload in ids {
        put_id(out, *upload)?;
    }
    Ok(())
}

/// Puts a key of metadata and its value.
fn put_pair(out: &mut Vec<u8>, both: &(Sequence<u8>, Sequence<u8>)) -> Result<(), AllocError>
    ensures { OnOk result (out.new.items ≡ out.old.items ++ pair both.now) }
{
    put_text(out, &both.0)?;
    put_text(out, &both.1)
}

/// Puts the number of pairs of metadata, and the pairs.
fn put_pairs(out: &mut Vec<u8>, pairs: &[(Sequence<u8>, Sequence<u8>)]) -> Result<(), AllocError>
    ensures { OnOk result (out.new.items ≡ out.old.items ++ many pair pairs.now) }
{
    put_word(out, pairs.len() as u64)?;
    for both in pairs {
        put_pair(out, both)?;
    }
    Ok(())
}

/// Puts the request to create an upload.
fn put_new_upload(out: &mut Vec<u8>, new: &NewUpload) -> Result<(), AllocError>
    ensures { OnOk result (out.new.items ≡ out.old.items ++ new_upload new.now) }
{
    put_kind(out, new.kind)?;
    put_length(out, new.length)?;
    put_ids(out, new.parts.as_slice())?;
    put_pairs(out, new.pairs.as_slice())?;
    put_some_text(out, &new.metadata)?;
    put_some_text(out, &new.concat)
}

/// Returns the bytes that are still to be put, as `put_piece` does.
fn put_patch(out: &mut Vec<u8>, place: Option<Position>, sent: &Patch) -> Result<Bytes, AllocError>
    ensures { IfOk result (λ back.
        out.new.items ++ back ≡ out.old.items ++ patch place sent.now) }
{
    put_id(out, sent.id)?;
    put_flag(out, sent.media)?;
    put_length(out, sent.offset)?;
    put_declared(out, sent.length)?;
    put_placed(out, place, &sent.bytes)
}

/// The kind of a PATCH whose bytes are in the entry, or in data files.
fn kind_of_patch(place: Option<Position>) -> u8
    ensures { result ≡ patch_kind place }
{
    match place {
        None => 3,
        Some(_) => 6,
    }
}

/// Returns the bytes that are still to be put, as `put_piece` does.
fn put_request(
    out: &mut Vec<u8>,
    place: Option<Position>,
    request: &Request,
) -> Result<Bytes, AllocError>
    ensures { IfOk result (λ back.
        out.new.items ++ back ≡ out.old.items ++ asked_for place request.now) }
{
    match request {
        Request::Options => out.push(0)?,
        Request::Create(new) => {
            out.push(1)?;
            put_new_upload(out, new)?;
        }
        Request::Head(upload) => {
            out.push(2)?;
            put_id(out, *upload)?;
        }
        Request::Patch(sent) => {
            out.push(kind_of_patch(place))?;
            return put_patch(out, place, sent);
        }
        Request::Delete(upload) => {
            out.push(4)?;
            put_id(out, *upload)?;
        }
        Request::Get(upload) => {
            out.push(5)?;
            put_id(out, *upload)?;
        }
    }
    Ok(nothing())
}

/// Encodes an entry. Returns the end of the encoding that is still to be put, as `put_piece` does.
pub(crate) fn put_entry(out: &mut Vec<u8>, logged: &Entry) -> Result<Bytes, AllocError>
    ensures { IfOk result (λ back. out.new.items ++ back ≡ out.old.items ++ entry logged.now) }
{
    put_id(out, logged.id)?;
    put_consent(out, logged.consent)?;
    put_request(out, logged.place, &logged.request)
}

/// The approximate number of bytes of an entry that are not shared. A buffer with this much room mostly does not move
/// while the entry is encoded.
pub(crate) fn room_of(logged: &Entry) -> usize {
    match &logged.request {
        Request::Patch(sent) if sent.bytes.len() < MIN_SHARED => sent.bytes.len() + 64,
        Request::Patch(_) => 64,
        _ => 256,
    }
}
