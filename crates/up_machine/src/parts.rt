//! The parts of a final upload (tus 1.0.0, Concatenation).
ghost use Rattle.std.specs.Prelude.{◌≡◌, ◌+◌, ◌<◌, ◌^◌, ◌++◌, length, is_none, nat_lt};
ghost use Rattle.std.specs.Prelude.{not, None, Some, if◌then◌else◌, IfOk, OnOk};
ghost use Rattle.std.specs.FinMap as map;
ghost use Rattle.std.specs.List.{list_any};
ghost use Rattle.up_machine.specs.State.{bytes_of, first_bytes, joined_parts};
ghost use Rattle.up_machine.specs.Decision.{create_rows, is_partial, part_rows, passes, checked};
ghost use Rattle.up_machine.specs.Content.{is_complete};

use crate::refusal::Refusal;
use crate::uploads::Uploads;
use std::alloc::Global;
use up_events::{Id, Kind, NoMemory};
use up_headers::NewUpload;
use up_message::Segments;

/// Whether there is no upload with this id.
fn is_missing(uploads: &Uploads, id: Id) -> bool
    ensures { result ≡ is_none (map.get uploads.now id) }
{
    uploads.get(id).is_none()
}

/// Whether there is a partial upload with this id.
fn is_partial(uploads: &Uploads, id: Id) -> bool
    ensures { result ≡ passes (λ x. is_partial x.kind) (map.get uploads.now id) }
{
    match uploads.get(id) {
        Some(upload) => upload.kind() == Kind::Partial,
        None => false,
    }
}

/// Whether there is a complete upload with this id.
fn is_complete(uploads: &Uploads, id: Id) -> bool
    ensures { result ≡ passes is_complete (map.get uploads.now id) }
{
    match uploads.get(id) {
        Some(upload) => upload.is_complete(),
        None => false,
    }
}

/// Whether one of the parts is not there.
fn any_missing(uploads: &Uploads, parts: &[Id]) -> bool
    ensures { result ≡ list_any (λ part. is_none (map.get uploads.now part)) parts.now }
{
    parts.iter().any(|part| is_missing(uploads, *part))
}

/// Whether one of the parts is no partial upload.
fn any_not_partial(uploads: &Uploads, parts: &[Id]) -> bool
    ensures { result ≡ list_any (λ part.
        not (passes (λ x. is_partial x.kind) (map.get uploads.now part))) parts.now }
{
    parts.iter().any(|part| !is_partial(uploads, *part))
}

/// Whether one of the parts is not complete.
fn any_incomplete(uploads: &Uploads, parts: &[Id]) -> bool
    ensures { result ≡ list_any (λ part.
        not (passes is_complete (map.get uploads.now part))) parts.now }
{
    parts.iter().any(|part| !is_complete(uploads, *part))
}

/// The number of bytes of an upload, 0 if there is none.
fn count_of(uploads: &Uploads, id: Id) -> u64
    ensures { result ≡ length (bytes_of (map.get uploads.now id)) }
{
    match uploads.get(id) {
        Some(upload) => upload.offset(),
        None => 0,
    }
}

/// The number of bytes of the parts together, if it is at most `most`.
fn sum_within(uploads: &Uploads, parts: &[Id], most: u64) -> Option<u64>
    ensures { result ≡ (if nat_lt most (length (joined_parts uploads.now parts.now)) then None
        else Some (length (joined_parts uploads.now parts.now))) }
{
    let mut sum = 0;
    for part in parts {
        let count = count_of(uploads, *part);
        if count > most - sum {
            return None;
        }
        sum += count;
    }
    Some(sum)
}

/// The refusal of these parts, or else the number of their bytes together.
fn check_parts(uploads: &Uploads, max_size: u64, parts: &[Id]) -> Result<u64, Refusal>
    ensures { result ≡ checked (part_rows uploads.now max_size parts.now)
        (length (joined_parts uploads.now parts.now)) }
{
    if any_missing(uploads, parts) {
        return Err(Refusal::PartUnknown);
    }
    if any_not_partial(uploads, parts) {
        return Err(Refusal::PartNotPartial);
    }
    if any_incomplete(uploads, parts) {
        return Err(Refusal::PartUnfinished);
    }
    match sum_within(uploads, parts, max_size) {
        Some(sum) => Ok(sum),
        None => Err(Refusal::SumTooLong),
    }
}

/// The refusal of a new upload because of its parts, or else the number of its first bytes.
pub fn check_first_bytes(uploads: &Uploads, max_size: u64, new: &NewUpload) -> Result<u64, Refusal>
    ensures { result ≡ checked (create_rows uploads.now max_size new.now)
        (length (first_bytes uploads.now new.now)) }
{
    if new.kind == Kind::Final {
        check_parts(uploads, max_size, new.parts.as_slice())
    } else {
        Ok(0)
    }
}

/// Adds the bytes of an upload at the end, shared, if there is an upload.
fn join_one(alloc: Global, bytes: &mut Segments, uploads: &Uploads, id: Id) -> Result<(), NoMemory>
    requires { length bytes.old + length (bytes_of (map.get uploads.now id)) < 2 ^ 64 }
    ensures { OnOk result (bytes.new ≡ bytes.old ++ bytes_of (map.get uploads.now id)) }
{
    if let Some(upload) = uploads.get(id) {
        bytes.join(&upload.share(alloc)?)?;
    }
    Ok(())
}

/// The bytes of the parts, in order. They are shared and not copied. A part is usually one run, so room for that many
/// runs is made at once.
fn join(alloc: Global, uploads: &Uploads, parts: &[Id]) -> Result<Segments, NoMemory>
    requires { length (joined_parts uploads.now parts.now) < 2 ^ 64 }
    ensures { IfOk result (λ bytes. bytes ≡ joined_parts uploads.now parts.now) }
{
    let mut bytes = Segments::with_room(alloc, parts.len())?;
    for part in parts {
        join_one(alloc, &mut bytes, uploads, *part)?;
    }
    Ok(bytes)
}

/// The first bytes of a new upload: those of its parts if it is a final one, and otherwise none. An announced length
/// takes no room. `NoMemory` if memory runs out.
pub fn first_bytes(alloc: Global, uploads: &Uploads, new: &NewUpload) -> Result<Segments, NoMemory>
    requires { length (first_bytes uploads.now new.now) < 2 ^ 64 }
    ensures { IfOk result (λ bytes. bytes ≡ first_bytes uploads.now new.now) }
{
    if new.kind == Kind::Final {
        join(alloc, uploads, new.parts.as_slice())
    } else {
        Ok(Segments::new(alloc))
    }
}
