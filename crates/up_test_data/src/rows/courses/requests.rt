//! Requests from words.
ghost use Rattle.std.specs.Prelude.{◌≤◌, IfOk};
ghost use Rattle.up_headers.specs.Creations.{IsAtMost};
ghost use Rattle.up_headers.specs.Table.{FitsWithin};

use crate::rows::line::{cut, number_of};
use crate::rows::row_fault::RowFault;
use std::alloc::Global;
use up_events::{Id, Kind, MAX_UPLOAD_BYTES};
use up_headers::{NewUpload, NotDigits, Patch, Request, pairs_of};
use up_machine::{Asked, Reason};
use up_message::{Piece, Sequence};

/// A text as bytes. An empty text is none.
fn text_of(alloc: Global, text: &str) -> Result<Option<Sequence<u8>>, RowFault> {
    if text.is_empty() {
        return Ok(None);
    }
    Ok(Some(Sequence::from_slice(alloc, text.as_bytes())?))
}

/// The ids with these numbers, in the same order.
fn ids_of(alloc: Global, numbers: &str) -> Result<Sequence<Id>, RowFault> {
    let mut ids = Sequence::new(alloc);
    for number in numbers.split(',') {
        if !number.is_empty() {
            ids.push(Id::new(u128::from(number_of(number)?)))?;
        }
    }
    Ok(ids)
}

/// A size that an upload may have.
pub fn size_of(word: &str) -> Result<u64, RowFault>
    ensures { IfOk result (λ size. size ≤ MAX_UPLOAD_BYTES) }
{
    let size = number_of(word)?;
    if size > MAX_UPLOAD_BYTES {
        return Err(RowFault::Number);
    }
    Ok(size)
}

/// The new upload of this kind that the words describe.
fn upload_of(alloc: Global, kind: Kind, words: &str) -> Result<NewUpload, RowFault>
    ensures { IfOk result (λ new. IsAtMost MAX_UPLOAD_BYTES new.length) }
{
    let (first, rest) = cut(words);
    let (length, parts, metadata, concat) = match kind {
        Kind::Plain => (first, "", rest, ""),
        Kind::Partial => (first, "", "part", "partial"),
        Kind::Final => ("0", first, "whole", rest),
    };
    let length = if length == "-" {
        None
    } else {
        Some(size_of(length)?)
    };
    Ok(NewUpload {
        kind,
        length,
        parts: ids_of(alloc, parts)?,
        pairs: pairs_of(alloc, metadata.as_bytes()).map_err(|_| RowFault::Text)?,
        metadata: text_of(alloc, metadata)?,
        concat: text_of(alloc, concat)?,
    })
}

/// The PATCH that the words describe.
fn patch_of(alloc: Global, id: Id, media: bool, words: &str) -> Result<Patch, RowFault> {
    let (offset, rest) = cut(words);
    let (bytes, length) = cut(rest);
    let bytes = if bytes == "-" { "" } else { bytes };
    let length = match length {
        "" => None,
        "x" => Some(Err(NotDigits)),
        _ => Some(Ok(number_of(length)?)),
    };
    Ok(Patch {
        id,
        media,
        offset: offset.parse::<u64>().ok(),
        length,
        bytes: Piece::copied(alloc, bytes.as_bytes())?,
    })
}

/// The request that the words describe.
pub fn request_of(alloc: Global, id: Id, words: &str) -> Result<Request, RowFault>
    ensures { IfOk result (FitsWithin MAX_UPLOAD_BYTES) }
{
    let (name, rest) = cut(words);
    Ok(match name {
        "options" => Request::Options,
        "plain" => Request::Create(upload_of(alloc, Kind::Plain, rest)?),
        "partial" => Request::Create(upload_of(alloc, Kind::Partial, rest)?),
        "final" => Request::Create(upload_of(alloc, Kind::Final, rest)?),
        "head" => Request::Head(id),
        "patch" => Request::Patch(patch_of(alloc, id, true, rest)?),
        "text" => Request::Patch(patch_of(alloc, id, false, rest)?),
        "delete" => Request::Delete(id),
        "get" => Request::Get(id),
        _ => return Err(RowFault::Mark),
    })
}

/// What the closures say before a request is committed.
pub fn asked_of(words: &str) -> Result<Asked, RowFault> {
    let (word, rest) = cut(words);
    Ok(match word {
        "skipped" => Asked::Skipped,
        "allowed" => Asked::Allowed,
        "finish" => Asked::AllowedFinish,
        _ => {
            let (status, text) = cut(rest);
            let status = status.parse::<u16>().map_err(|_| RowFault::Number)?;
            let reason = Reason::new(text.as_bytes()).ok_or(RowFault::Text)?;
            Asked::Refused { status, reason }
        }
    })
}
