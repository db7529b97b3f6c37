//! The meaning of `Upload-Concat`.
ghost use Rattle.std.specs.Prelude.{◌≡◌, IfOk};
ghost use Rattle.up_headers.specs.Concat.{IsConcat, IsPartList, is_final_text};

use crate::place::{Place, place_of};
use crate::words::first_word;
use std::alloc::{AllocError, Global};
use up_events::{Id, Kind};
use up_message::Sequence;

/// Whether the text is that of a final upload (tus 1.0.0, Upload-Concat).
pub(crate) fn is_final(text: &[u8]) -> bool
    ensures { result ≡ is_final_text text.now }
{
    text.starts_with(b"final;")
}

/// The kind of an upload and the parts that it joins, from the text of its `Upload-Concat` (tus 1.0.0, Upload-Concat):
/// no text, `partial`, or `final;` and a list of parts. `None` for any other text.
pub fn concat_of(alloc: Global, text: &[u8]) -> Result<Option<(Kind, Sequence<Id>)>, AllocError>
    ensures { IfOk result (IsConcat text.now) }
{
    if let Some(list) = text.strip_prefix(b"final;") {
        return match parts_of(alloc, list)? {
            Some(parts) => Ok(Some((Kind::Final, parts))),
            None => Ok(None),
        };
    }
    if text.is_empty() {
        return Ok(Some((Kind::Plain, Sequence::new(alloc))));
    }
    if text == b"partial".as_slice() {
        return Ok(Some((Kind::Partial, Sequence::new(alloc))));
    }
    Ok(None)
}

/// The parts in a list of their URLs, with spaces between them and optionally around them. A URL may have any form that
/// a target may have (RFC 9112, section 3.2). `None` if there is no URL, or one that is not that of an upload.
fn parts_of(alloc: Global, list: &[u8]) -> Result<Option<Sequence<Id>>, AllocError>
    ensures { IfOk result (IsPartList list.now) }
{
    let mut parts = Vec::new(alloc);
    let mut rest = list;
    while let Some((url, behind)) = first_word(rest) {
        let Place::Upload(id) = place_of(alloc, url)? else {
            return Ok(None);
        };
        parts.push(id)?;
        rest = behind;
    }
    if parts.is_empty() {
        Ok(None)
    } else {
        Ok(Some(Sequence::from_vec(parts)))
    }
}
