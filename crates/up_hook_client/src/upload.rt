//! What a hook server is told of an upload.
ghost use Rattle.std.specs.Prelude.{◌≡◌, ◌++◌, IfOk, OnOk, Some, is_none, string_bytes};
ghost use Rattle.std.specs.List.{list_all};
ghost use Rattle.std.specs.Option.{IfSome, option_copied};
ghost use Rattle.std.specs.Str.Lossy.{utf8_lossy};
ghost use Rattle.json.specs.Print.{escape};
ghost use Rattle.serde_json.specs.Data.{Data, boolean};
ghost use Rattle.serde_json.specs.View.{view};
ghost use Rattle.serde_json.specs.Written.{compact_text};
ghost use Rattle.up_hook_client.specs.Told.{AreParts, id_strings, id_text, is_final, is_partial};
ghost use Rattle.up_hook_client.specs.Told.{is_plain, length_text, metadata, pair_text};
ghost use Rattle.up_hook_client.specs.Told.{upload_begin, upload_end};

use serde_json::{Map, Value};
use std::alloc::{AllocError, Global};
use up_events::{Id, Kind};
use up_headers::concat_of;
use up_message::Sequence;

/// The pairs of metadata, as an object. What is no UTF-8 is replaced, and of two keys that become one the later counts.
fn metadata_of(alloc: Global, pairs: &[(Sequence<u8>, Sequence<u8>)]) -> Result<Value, AllocError>
    ensures { IfOk result (λ value. view value ≡ metadata pairs.now) }
{
    let mut members = Map::new(alloc);
    for pair in pairs {
        let key = String::from_utf8_lossy(alloc, pair.0.as_slice())?;
        let value = String::from_utf8_lossy(alloc, pair.1.as_slice())?;
        serde_json::put(&mut members, alloc, key.as_str(), Value::String(value))?;
    }
    Ok(Value::Object(members))
}

/// Whether these bytes stand in a string of JSON as they are.
fn are_plain(bytes: &[u8]) -> bool
    ensures { result ≡ list_all is_plain bytes.now }
{
    bytes
        .iter()
        .all(|byte| *byte >= b' ' && *byte != b'"' && *byte != b'\\')
}

/// The text that these bytes are, if it stands in a string of JSON as it is.
fn plain_text(bytes: &[u8]) -> Option<&str>
    ensures { IfSome result (λ text. escape (utf8_lossy bytes.now) ≡ text.now) }
{
    match str::from_utf8(bytes) {
        Ok(text) if are_plain(bytes) => Some(text),
        _ => None,
    }
}

/// The key and the value of the only pair of metadata, if they stand in strings of JSON as they are.
fn plain_pair(pairs: &[(Sequence<u8>, Sequence<u8>)]) -> Option<(&str, &str)>
    ensures { IfSome result (λ pair.
        pair_text pair.0.now pair.1.now ≡ compact_text (metadata pairs.now)) }
{
    match pairs {
        [pair] => {
            let key = plain_text(pair.0.as_slice())?;
            let value = plain_text(pair.1.as_slice())?;
            Some((key, value))
        }
        _ => None,
    }
}

/// The pairs of metadata, as an object in JSON.
fn pairs_text(alloc: Global, pairs: &[(Sequence<u8>, Sequence<u8>)]) -> Result<String, AllocError>
    ensures { IfOk result (λ text. string_bytes text ≡ compact_text (metadata pairs.now)) }
{
    let members = metadata_of(alloc, pairs)?;
    members.to_string(alloc)
}

/// Adds an object of one member to a text, whose key and value stand there as they are.
fn add_pair(text: &mut String, key: &str, value: &str) -> Result<(), AllocError>
    ensures { OnOk result (string_bytes text.new ≡ string_bytes text.old
        ++ pair_text key.now value.now) }
{
    write!(text, "{{\"{key}\":\"{value}\"}}")?;
    Ok(())
}

/// Adds the pairs of metadata to a text, as an object in JSON. A single one that stands there as it is needs no map.
fn add_metadata(
    alloc: Global,
    text: &mut String,
    pairs: &[(Sequence<u8>, Sequence<u8>)],
) -> Result<(), AllocError>
    ensures { OnOk result (string_bytes text.new ≡ string_bytes text.old
        ++ compact_text (metadata pairs.now)) }
{
    if pairs.is_empty() {
        return text.push_str("{}");
    }
    match plain_pair(pairs) {
        Some((key, value)) => add_pair(text, key, value),
        None => text.push_str(pairs_text(alloc, pairs)?.as_str()),
    }
}

/// The texts of ids, as a list.
fn id_strings(alloc: Global, ids: &[Id]) -> Result<Value, AllocError>
    ensures { IfOk result (λ value. view value ≡ id_strings ids.now) }
{
    let mut texts = Vec::new(alloc);
    for id in ids {
        texts.push(Value::String(id.to_string(alloc)?))?;
    }
    Ok(Value::Array(texts))
}

/// The parts of a final upload, from the text of its `Upload-Concat` (tus 1.0.0, Concatenation); `null` for any other
/// upload.
fn parts_of(alloc: Global, concat: &[u8]) -> Result<Value, AllocError>
    ensures { IfOk result (λ value. AreParts (Some concat.now) (view value)) }
{
    match concat_of(alloc, concat)? {
        Some((Kind::Final, parts)) => id_strings(alloc, parts.as_slice()),
        _ => Ok(Value::Null),
    }
}

/// The parts of a final upload in JSON, from the text of its `Upload-Concat`.
fn parts_text(alloc: Global, concat: &[u8]) -> Result<String, AllocError>
    ensures { IfOk result (λ text. (parts : Data) × AreParts (Some concat.now) parts
        × (string_bytes text ≡ compact_text parts)) }
{
    let parts = parts_of(alloc, concat)?;
    parts.to_string(alloc)
}

/// Adds the parts of a final upload in JSON to a text, from the text of its `Upload-Concat`.
fn add_parts(alloc: Global, text: &mut String, concat: Option<&[u8]>) -> Result<(), AllocError>
    ensures { OnOk result ((parts : Data) × AreParts (option_copied concat.entry) parts
        × (string_bytes text.new ≡ string_bytes text.old ++ compact_text parts)) }
{
    match concat {
        Some(concat) => text.push_str(parts_text(alloc, concat)?.as_str()),
        None => text.push_str("null"),
    }
}

/// A truth value in JSON.
fn word_of(is_so: bool) -> &'static str
    ensures { result.now ≡ compact_text (boolean is_so) }
{
    if is_so { "true" } else { "false" }
}

/// Whether an upload is joined of parts, in JSON.
fn final_text(kind: Kind) -> &'static str
    ensures { result.now ≡ compact_text (boolean (is_final kind)) }
{
    word_of(kind == Kind::Final)
}

/// Whether an upload is a part, in JSON.
fn partial_text(kind: Kind) -> &'static str
    ensures { result.now ≡ compact_text (boolean (is_partial kind)) }
{
    word_of(kind == Kind::Partial)
}

/// Whether a length isn't known yet, in JSON.
fn deferred_text(length: Option<u64>) -> &'static str
    ensures { result.now ≡ compact_text (boolean (is_none length)) }
{
    match length {
        Some(_) => "false",
        None => "true",
    }
}

/// Adds the text of an id, if there is one.
fn add_id(text: &mut String, id: Option<Id>) -> Result<(), AllocError>
    ensures { OnOk result (string_bytes text.new ≡ string_bytes text.old ++ id_text id) }
{
    if let Some(id) = id {
        write!(text, "{id}")?;
    }
    Ok(())
}

/// Adds an upload in JSON to a text, up to its metadata.
pub fn begin_upload(text: &mut String, id: Option<Id>, kind: Kind) -> Result<(), AllocError>
    ensures { OnOk result (string_bytes text.new ≡ string_bytes text.old
        ++ upload_begin (id_text id) kind) }
{
    text.push_str("{\"ID\":\"")?;
    add_id(text, id)?;
    let (is_final, is_partial) = (final_text(kind), partial_text(kind));
    write!(
        text,
        "\",\"IsFinal\":{is_final},\"IsPartial\":{is_partial},\"MetaData\":"
    )?;
    Ok(())
}

/// Adds the length of an upload in JSON to a text, and what ends it.
fn add_length(text: &mut String, length: Option<u64>) -> Result<(), AllocError>
    ensures { OnOk result (string_bytes text.new ≡ string_bytes text.old ++ length_text length) }
{
    let (size, is_deferred) = (length.unwrap_or(0), deferred_text(length));
    write!(
        text,
        ",\"Size\":{size},\"SizeIsDeferred\":{is_deferred},\"Storage\":null}}"
    )?;
    Ok(())
}

/// Adds the rest of an upload in JSON to a text: its metadata, its offset, its parts, from the text of its
/// `Upload-Concat`, and its length.
pub fn end_upload(
    alloc: Global,
    text: &mut String,
    pairs: &[(Sequence<u8>, Sequence<u8>)],
    offset: u64,
    concat: Option<&[u8]>,
    length: Option<u64>,
) -> Result<(), AllocError>
    ensures { OnOk result ((parts : Data) × AreParts (option_copied concat.entry) parts
        × (string_bytes text.new ≡ string_bytes text.old
        ++ upload_end (metadata pairs.now) offset parts length)) }
{
    add_metadata(alloc, text, pairs)?;
    write!(text, ",\"Offset\":{offset},\"PartialUploads\":")?;
    add_parts(alloc, text, concat)?;
    add_length(text, length)
}
