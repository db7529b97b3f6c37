//! Messages and requests from rows.
ghost use Rattle.std.specs.Prelude.{IfOk};
ghost use Rattle.up_headers.specs.Table.{FitsWithin};

use http::Method;
use std::alloc::Global;
use std::io::{self, ErrorKind};
use up_events::{Id, MAX_UPLOAD_BYTES};
use up_headers::{Request, request_of};
use up_message::{Field, Message, Piece, Sequence};

/// Memory ran out.
pub fn out_of_memory() -> io::Error {
    io::Error::from(ErrorKind::OutOfMemory)
}

/// The number in a word.
pub fn number_of(word: &str) -> io::Result<u64> {
    match word.parse::<u64>() {
        Ok(number) => Ok(number),
        Err(_) => Err(io::Error::from(ErrorKind::InvalidInput)),
    }
}

/// The id with this number.
pub fn id_of(number: u64) -> Id {
    Id::new(u128::from(number))
}

fn field_of(alloc: Global, name: &str, value: &str) -> io::Result<Field> {
    Ok((
        Sequence::from_slice(alloc, name.as_bytes())?,
        Sequence::from_slice(alloc, value.as_bytes())?,
    ))
}

/// The fields of a row, which are after the method and the target.
fn fields_of(alloc: Global, parts: &str) -> io::Result<Sequence<Field>> {
    let mut fields = Sequence::new(alloc);
    fields.push(field_of(alloc, "Tus-Resumable", "1.0.0")?)?;
    for part in parts.split(" | ") {
        if let Some((name, value)) = part.split_once(": ") {
            fields.push(field_of(alloc, name, value)?)?;
        }
    }
    Ok(fields)
}

/// The body of a row: the last part that is no field.
fn body_of(alloc: Global, parts: &str) -> io::Result<Piece> {
    let mut body = Piece::from_static(b"");
    for part in parts.split(" | ") {
        if !part.contains(": ") {
            body = Piece::copied(alloc, part.as_bytes())?;
        }
    }
    Ok(body)
}

/// The method of a row.
fn method_of(alloc: Global, name: &str) -> io::Result<Method> {
    match Method::from_bytes(alloc, name.as_bytes()) {
        Ok(method) => Ok(method),
        Err(_) => Err(out_of_memory()),
    }
}

/// The message of a row, of version 1.0.0.
pub fn message_of(alloc: Global, row: &str) -> io::Result<Message> {
    let (first, parts) = row.split_once(" | ").unwrap_or((row, ""));
    let (method, target) = first.split_once(' ').unwrap_or((first, ""));
    Ok(Message {
        method: method_of(alloc, method)?,
        target: Sequence::from_slice(alloc, target.as_bytes())?,
        fields: fields_of(alloc, parts)?,
        body: body_of(alloc, parts)?,
        bare: false,
        close: false,
    })
}

/// What the message of a row asks for.
pub fn request_in(alloc: Global, row: &str) -> io::Result<Request>
    ensures { IfOk result (FitsWithin MAX_UPLOAD_BYTES) }
{
    let message = message_of(alloc, row)?;
    match request_of(alloc, message, MAX_UPLOAD_BYTES) {
        Ok(request) => Ok(request),
        Err(_) => Err(out_of_memory()),
    }
}
