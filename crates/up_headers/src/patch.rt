//! The PATCH of an upload.
ghost use Rattle.std.specs.Prelude.{◌≡◌, ℕ, IfOk, option_copied};
ghost use Rattle.up_headers.specs.Patches.{before_semicolon, declared_by, is_media, number_of};
ghost use Rattle.up_headers.specs.Steps.{IsPatchRead, IsStep};
ghost use Rattle.up_headers.specs.Table.{FitsWithin};

use crate::fields::once;
use crate::header_fault::HeaderFault;
use crate::place::Place;
use crate::request::{NotDigits, Patch, Request};
use crate::verb::Verb;
use up_events::Id;
use up_message::{Field, Message, is_digits, number, same_name, trim_end_ows};

/// What the fields of a PATCH say: all of it but the id and the bytes.
#[derive(Clone, Copy)]
struct PatchFields {
    media: bool,
    offset: Option<u64>,
    length: Option<Result<u64, NotDigits>>,
}

/// What the fields of a PATCH say. The fault is `Repeated` if one of them is there twice.
fn read_fields(fields: &[Field]) -> Result<PatchFields, HeaderFault>
    ensures { IsPatchRead fields.now result }
{
    let media = once(fields, b"content-type")?.unwrap_or(b"");
    let offset = once(fields, b"upload-offset")?.unwrap_or(b"");
    let length = once(fields, b"upload-length")?;
    Ok(PatchFields {
        media: is_media(media),
        offset: number_of(offset),
        length: declared_by(length),
    })
}

/// What a PATCH of an upload asks for (tus 1.0.0, PATCH). No field that is read may be there twice. The bytes are those
/// of the message, without a copy, and have no more room than they need.
pub(crate) fn patch_request(id: Id, message: Message) -> Result<Request, HeaderFault>
    ensures answer { (max_size : ℕ)
        → IsStep Verb.Patch (Place.Upload id) message.fields message.body max_size result }
    ensures bounded { (max_size : ℕ) → IfOk result (FitsWithin max_size) }
{
    let read = read_fields(message.fields.as_slice())?;
    Ok(Request::Patch(Patch {
        id,
        media: read.media,
        offset: read.offset,
        length: read.length,
        bytes: message.body,
    }))
}

/// Whether a content type, whatever its parameters (RFC 9110, section 8.3.1), is that of a PATCH.
fn is_media(text: &[u8]) -> bool
    ensures { result ≡ is_media text.now }
{
    same_name(
        trim_end_ows(before_semicolon(text)),
        b"application/offset+octet-stream",
    )
}

/// The text before its first semicolon, or all of it if it has none.
fn before_semicolon(text: &[u8]) -> &[u8]
    ensures { result.now ≡ before_semicolon text.now }
{
    match text.iter().position(|b| *b == b';') {
        Some(end) => &text[..end],
        None => text,
    }
}

/// The length that is declared, if its text is there.
fn declared_by(text: Option<&[u8]>) -> Option<Result<u64, NotDigits>>
    ensures { result ≡ declared_by (option_copied text.entry) }
{
    Some(number_of(text?).ok_or(NotDigits))
}

/// The number that was sent, if it is one. A number above 2^64 - 1 counts as 2^64 - 1.
fn number_of(text: &[u8]) -> Option<u64>
    ensures { result ≡ number_of text.now }
{
    if is_digits(text) {
        Some(number(text).unwrap_or(u64::MAX))
    } else {
        None
    }
}
