//! What messages ask for, as text.
use crate::rows::row_fault::RowFault;
use crate::text::{bytes_of, push_escaped, push_in_brackets, push_pair};
use http::Method;
use std::alloc::{AllocError, Global};
use std::fmt::Write;
use up_events::Id;
use up_headers::{
    HeaderFault, MetadataFault, NewUpload, Pairs, Patch, Request, pairs_of, request_of,
};
use up_message::{Field, Message, Piece, Sequence};
use up_wire::WireFault;

/// The maximum number of bytes of an upload in these rows.
const MAX_SIZE: u64 = 10;

/// The field of a line, "Name: value".
fn field_of(alloc: Global, line: &str) -> Option<Field> {
    let (name, value) = line.split_once(':')?;
    let value = value.strip_prefix(" ").unwrap_or(value);
    let name = Sequence::from_slice(alloc, name.as_bytes()).ok()?;
    Some((name, Sequence::from_slice(alloc, value.as_bytes()).ok()?))
}

fn fields_of(alloc: Global, lines: &str) -> Option<Sequence<Field>> {
    let mut fields = Sequence::new(alloc);
    for line in lines.lines() {
        fields.push(field_of(alloc, line)?).ok()?;
    }
    Some(fields)
}

/// A message from a line with method and target, and a line for each field. Its body is "abc".
fn message_of(alloc: Global, text: &str) -> Option<Message> {
    let (first, lines) = text.split_once('\n').unwrap_or((text, ""));
    let (method, target) = first.split_once(' ')?;
    Some(Message {
        method: Method::from_bytes(alloc, method.as_bytes()).ok()?,
        target: Sequence::from_slice(alloc, target.as_bytes()).ok()?,
        fields: fields_of(alloc, lines)?,
        body: Piece::copied(alloc, b"abc").ok()?,
        bare: false,
        close: false,
    })
}

/// A text of a creation, or a dash if there is none.
fn push_kept(words: &mut String, kept: &Option<Sequence<u8>>) -> Result<(), AllocError> {
    match kept {
        Some(text) => {
            words.push_str(" ")?;
            push_in_brackets(words, text.as_slice())
        }
        None => words.push_str(" -"),
    }
}

/// A creation as "create Final Some(0) Id(1) Id(2) name=ab; [name YWI=] [final;..]": kind, length, parts, pairs, and
/// the texts of the metadata and of the concatenation.
fn push_upload(words: &mut String, new: &NewUpload) -> Result<(), AllocError> {
    write!(words, "create {:?} {:?}", new.kind, new.length)?;
    for id in new.parts.as_slice() {
        write!(words, " {id:?}")?;
    }
    push_pairs(words, &new.pairs)?;
    push_kept(words, &new.metadata)?;
    push_kept(words, &new.concat)
}

/// A PATCH as "patch Id(1) media Some(7) None [abc]": id, whether the media type is right, offset, declared length and
/// bytes.
fn push_patch(words: &mut String, patch: &Patch) -> Result<(), AllocError> {
    let media = if patch.media { "media" } else { "other" };
    write!(
        words,
        "patch {:?} {media} {:?} {:?} ",
        patch.id, patch.offset, patch.length
    )?;
    push_in_brackets(words, bytes_of(&patch.bytes))
}

/// Each pair as " name=ab;".
fn push_pairs(words: &mut String, pairs: &Pairs) -> Result<(), AllocError> {
    for (key, value) in pairs.as_slice() {
        words.push_str(" ")?;
        push_pair(words, key.as_slice(), "=", value.as_slice())?;
        words.push_str(";")?;
    }
    Ok(())
}

fn push_request(words: &mut String, request: &Request) -> Result<(), AllocError> {
    match request {
        Request::Options => words.push_str("options"),
        Request::Create(new) => push_upload(words, new),
        Request::Head(id) => write!(words, "head {id:?}"),
        Request::Patch(patch) => push_patch(words, patch),
        Request::Delete(id) => write!(words, "delete {id:?}"),
        Request::Get(id) => write!(words, "get {id:?}"),
    }
}

fn push_fault(words: &mut String, fault: HeaderFault) -> Result<(), AllocError> {
    words.push_str(fault.text().trim_end())?;
    match fault {
        HeaderFault::Method { of_upload: true } => words.push_str(" of an upload"),
        _ => Ok(()),
    }
}

fn push_asked(words: &mut String, asked: &Result<Request, HeaderFault>) -> Result<(), AllocError> {
    match asked {
        Ok(request) => push_request(words, request),
        Err(fault) => push_fault(words, *fault),
    }
}

/// What a message asks for.
pub fn asked(alloc: Global, text: &[u8]) -> Result<String, RowFault> {
    let text = str::from_utf8(text).unwrap_or("");
    let Some(message) = message_of(alloc, text) else {
        return Err(RowFault::Text);
    };
    let mut words = String::new(alloc);
    push_asked(&mut words, &request_of(alloc, message, MAX_SIZE))?;
    Ok(words)
}

/// The pairs of a metadata text, or its fault.
pub fn metadata(alloc: Global, text: &[u8]) -> Result<String, RowFault> {
    let mut words = String::new(alloc);
    match pairs_of(alloc, text) {
        Ok(pairs) => {
            words.push_str("pairs")?;
            push_pairs(&mut words, &pairs)?;
        }
        Err(fault) => write!(words, "{fault}")?,
    }
    Ok(words)
}

fn push_wire_faults(words: &mut String) -> Result<(), AllocError> {
    for fault in [
        WireFault::BadHead,
        WireFault::HeadTooLarge,
        WireFault::BadFraming,
        WireFault::UnknownCoding,
        WireFault::BodyTooLarge,
        WireFault::ReadFailed,
        WireFault::NoMemory,
        WireFault::WriteFailed,
    ] {
        write!(words, "{:?} ", fault.status())?;
        push_escaped(words, fault.text().as_bytes())?;
        words.push_str(" ")?;
    }
    Ok(())
}

fn push_header_faults(words: &mut String) -> Result<(), AllocError> {
    let of_upload = true;
    for fault in [
        HeaderFault::Version,
        HeaderFault::NoSuchPath,
        HeaderFault::Method { of_upload },
        HeaderFault::Repeated,
        HeaderFault::BadLength,
        HeaderFault::TooLong,
        HeaderFault::BadConcat,
        HeaderFault::BadMetadata,
        HeaderFault::NoMemory,
    ] {
        write!(words, "{} ", fault.status())?;
        push_escaped(words, fault.text().as_bytes())?;
        words.push_str(" ")?;
    }
    Ok(())
}

/// Each fault of a message, its status and its text.
pub fn faults(alloc: Global) -> Result<String, RowFault> {
    let mut words = String::new(alloc);
    push_wire_faults(&mut words)?;
    push_header_faults(&mut words)?;
    write!(words, "{}", MetadataFault::NoMemory)?;
    Ok(words)
}

/// The id that has this text, or "none".
pub fn id(alloc: Global, text: &[u8]) -> Result<String, RowFault> {
    match Id::parse(text) {
        Some(id) => Ok(format!(in alloc; "{id:?}")?),
        None => Ok(String::from_str(alloc, "none")?),
    }
}
