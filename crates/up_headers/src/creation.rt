//! An upload to be created.
ghost use Rattle.std.specs.Prelude.{◌≡◌, ℕ, List, IfOk, option_copied};
ghost use Rattle.up_headers.specs.Creations.{some_text};
ghost use Rattle.up_headers.specs.Steps.{AreTexts, IsLength, IsRead, IsStep};
ghost use Rattle.up_headers.specs.Table.{FitsWithin};

use crate::concat::{concat_of, is_final};
use crate::fields::once;
use crate::header_fault::HeaderFault;
use crate::metadata::read_pairs;
use crate::metadata_fault::MetadataFault;
use crate::place::Place;
use crate::request::{NewUpload, Pairs, Request};
use crate::verb::Verb;
use std::alloc::{AllocError, Global};
use up_message::{Field, Sequence, is_digits, number};

/// The texts of the fields that a creation reads. `metadata` and `concat` are empty if their fields are not there.
#[derive(Clone, Copy)]
struct Texts<'a> {
    length: Option<&'a [u8]>,
    deferred: Option<&'a [u8]>,
    metadata: &'a [u8],
    concat: &'a [u8],
}

/// The texts of the fields that a creation reads. The fault is `Repeated` if one of these fields is there twice.
fn texts_of<'a>(fields: &'a [Field]) -> Result<Texts<'a>, HeaderFault>
    ensures { AreTexts fields.now result }
{
    let length = once(fields, b"upload-length")?;
    let deferred = once(fields, b"upload-defer-length")?;
    let metadata = once(fields, b"upload-metadata")?.unwrap_or(b"");
    let concat = once(fields, b"upload-concat")?.unwrap_or(b"");
    Ok(Texts {
        length,
        deferred,
        metadata,
        concat,
    })
}

/// What a POST to the creation URL asks for (tus 1.0.0, Creation and Concatenation): an upload of at most `max_size`
/// bytes, if its length is known. No field that is read may be there twice. Then the length is checked, except for a
/// final upload, then `Upload-Concat`, and then the metadata.
pub(crate) fn create_request(
    alloc: Global,
    fields: &[Field],
    max_size: u64,
) -> Result<Request, HeaderFault>
    ensures answer { (body : List ℕ)
        → IsStep Verb.Post Place.Creation fields.now body max_size result }
    ensures bounded { IfOk result (FitsWithin max_size) }
{
    let texts = texts_of(fields)?;
    let length = length_of(texts.concat, texts.length, texts.deferred, max_size)?;
    let Some((kind, parts)) = concat_of(alloc, texts.concat)? else {
        return Err(HeaderFault::BadConcat);
    };
    Ok(Request::Create(NewUpload {
        kind,
        length,
        parts,
        pairs: pairs_in(alloc, texts.metadata)?,
        metadata: some_text(alloc, texts.metadata)?,
        concat: some_text(alloc, texts.concat)?,
    }))
}

/// The pairs of a metadata text, or `BadMetadata` if it is not a list of pairs.
fn pairs_in(alloc: Global, text: &[u8]) -> Result<Pairs, HeaderFault>
    ensures { IsRead text.now result }
{
    match read_pairs(alloc, text) {
        Ok(pairs) => Ok(pairs),
        Err(MetadataFault::NoMemory) => Err(HeaderFault::NoMemory),
        Err(_) => Err(HeaderFault::BadMetadata),
    }
}

/// The length of an upload to be created, from the texts of `Upload-Concat`, `Upload-Length` and `Upload-Defer-Length`;
/// `None` if it will be declared later. The length of a final upload is not checked, and is returned as 0.
fn length_of(
    concat: &[u8],
    length: Option<&[u8]>,
    deferred: Option<&[u8]>,
    max_size: u64,
) -> Result<Option<u64>, HeaderFault>
    ensures { IsLength concat.now (option_copied length.entry) (option_copied deferred.entry)
        max_size result }
{
    if is_final(concat) {
        return Ok(Some(0));
    }
    match (length, deferred) {
        (Some(text), None) if is_digits(text) => match number(text) {
            Some(length) if length <= max_size => Ok(Some(length)),
            _ => Err(HeaderFault::TooLong),
        },
        (None, Some(text)) if text == b"1".as_slice() => Ok(None),
        _ => Err(HeaderFault::BadLength),
    }
}

/// A copy of the text, if it is not empty.
fn some_text(alloc: Global, text: &[u8]) -> Result<Option<Sequence<u8>>, AllocError>
    ensures { IfOk result (λ copy. copy ≡ some_text text.now) }
{
    if text.is_empty() {
        return Ok(None);
    }
    Ok(Some(Sequence::from_slice(alloc, text)?))
}
