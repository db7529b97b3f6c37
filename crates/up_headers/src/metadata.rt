//! The pairs of keys and values in a metadata text.
ghost use Rattle.std.specs.Result.{IfErr};
ghost use Rattle.std.specs.Prelude.{◌≡◌, ◌∷◌, IfOk};
ghost use Rattle.up_message.specs.Fields.{split_commas};
ghost use Rattle.base64.specs.Engines.{standard};
ghost use Rattle.base64.specs.GeneralPurpose.{decode_of};
ghost use Rattle.up_headers.specs.Metadata.{ReadsPairs, IsRefusal};
ghost use Rattle.up_headers.specs.Reading.{IsReadOrNoMemory, reading, parts_of, with_value};
ghost use Rattle.up_headers.specs.Words.{skip_spaces, trim_end_spaces};

use crate::metadata_fault::MetadataFault;
use crate::request::Pairs;
use crate::words::{first_word, skip_spaces, trim_end_spaces};
use base64::DecodeAllocError;
use base64::engine::general_purpose::STANDARD;
use std::alloc::Global;
use std::collections::BTreeSet;
use up_message::Sequence;

/// The pair of a key and of the text after it in its part.
fn read_pair(
    alloc: Global,
    key: &[u8],
    behind: &[u8],
) -> Result<(Sequence<u8>, Sequence<u8>), MetadataFault>
    ensures { IsReadOrNoMemory result
        (with_value key.now (decode_of standard (trim_end_spaces (skip_spaces behind.now)))) }
{
    match STANDARD.decode(alloc, trim_end_spaces(skip_spaces(behind))) {
        Ok(value) => Ok((Sequence::from_slice(alloc, key)?, Sequence::from_vec(value))),
        Err(DecodeAllocError::DecodeError(_)) => Err(MetadataFault::BadValue),
        Err(DecodeAllocError::OutOfMemory) => Err(MetadataFault::NoMemory),
    }
}

/// The text up to its first comma, and the text after it.
fn cut_part(text: &[u8]) -> (&[u8], Option<&[u8]>)
    ensures { split_commas text.now ≡ result.0.now ∷ parts_of result.1 }
{
    match text.iter().position(|b| *b == b',') {
        Some(comma) => (&text[..comma], Some(&text[comma + 1..])),
        None => (text, None),
    }
}

/// Like `pairs_of`, but with a contract that gives the result as a function of the text.
pub(crate) fn read_pairs(alloc: Global, text: &[u8]) -> Result<Pairs, MetadataFault>
    ensures { IsReadOrNoMemory result (reading text.now) }
{
    let mut pairs = Vec::new(alloc);
    let mut keys = BTreeSet::new(alloc);
    let mut rest = if text.is_empty() { None } else { Some(text) };
    'parts: while let Some(parts) = rest {
        let (part, behind) = cut_part(parts);
        let Some((key, encoded)) = first_word(part) else {
            return Err(MetadataFault::EmptyKey);
        };
        match keys.insert(key) {
            Ok(true) => {}
            Ok(false) => return Err(MetadataFault::KeyTwice),
            Err(_) => return Err(MetadataFault::NoMemory),
        }
        let pair = match read_pair(alloc, key, encoded) {
            Ok(pair) => pair,
            Err(fault) => return Err(fault),
        };
        pairs.push(pair)?;
        rest = behind;
    }
    Ok(Sequence::from_vec(pairs))
}

/// The pairs of a metadata text (tus 1.0.0, Upload-Metadata): parts between commas. Spaces around a part are dropped. A
/// part is a key, or a key, one or more spaces and a value in Base64 (RFC 4648, section 4, with padding). A key without
/// a value has the empty value, and the empty text has no pairs.
///
/// The first part at fault decides the error: `EmptyKey` if it has no key, else `KeyTwice` if a part before it has the
/// same key, byte for byte, else `BadValue`. `NoMemory` if memory for the pairs runs out.
pub fn pairs_of(alloc: Global, text: &[u8]) -> Result<Pairs, MetadataFault>
    ensures ok { IfOk result (λ pairs. ReadsPairs text.now pairs) }
    ensures err { IfErr result (IsRefusal text.now) }
{
    read_pairs(alloc, text)
}
