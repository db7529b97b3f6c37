//! The responses. Each is made before anything is changed.
ghost use Rattle.std.specs.Prelude.{◌≡◌, ◌++◌, ◌∷◌, [], codes, decimal, Some, IfOk};
ghost use Rattle.std.specs.Option.{option_copied};
ghost use Rattle.up_machine.specs.Responses.{created, reached_offset, removed, head_response};
ghost use Rattle.up_machine.specs.Responses.{downloaded, can_do, field_of, length_field};
ghost use Rattle.up_message.specs.Refused.{refused_with};

use crate::reason::Reason;
use crate::upload::Upload;
use itoa::Buffer;
use std::alloc::Global;
use up_events::{Id, NoMemory};
use up_message::{Piece, Response, Sequence};

/// Adds a field with a number as its value.
fn with_number(response: Response, alloc: Global, name: &[u8], n: u64) -> Result<Response, NoMemory>
    ensures { IfOk result (λ made. made
        ≡ record response { fields = response.fields ++ (name.now, decimal n) ∷ [] }) }
{
    let mut digits = Buffer::new();
    Ok(response.with_field(alloc, name, digits.format(n).as_bytes())?)
}

/// Adds a field, if there is a text for it.
fn with_text(
    response: Response,
    alloc: Global,
    name: &[u8],
    sent: Option<&[u8]>,
) -> Result<Response, NoMemory>
    ensures { IfOk result (λ made. made ≡ record response {
      fields = response.fields ++ field_of name.now (option_copied sent.entry);
    }) }
{
    match sent {
        Some(text) => Ok(response.with_field(alloc, name, text)?),
        None => Ok(response),
    }
}

/// The response to OPTIONS (tus 1.0.0, OPTIONS): the version, the extensions, and the maximum size of an upload, in
/// bytes. `NoMemory` if memory runs out.
pub fn to_options(alloc: Global, max_size: u64) -> Result<Response, NoMemory>
    ensures { IfOk result (λ made. made ≡ can_do max_size) }
{
    let response = Response::new(alloc, 204)
        .with_field(alloc, b"Tus-Version", b"1.0.0")?
        .with_field(
            alloc,
            b"Tus-Extension",
            b"creation,creation-defer-length,termination,concatenation",
        )?;
    with_number(response, alloc, b"Tus-Max-Size", max_size)
}

/// The response to a POST that created an upload: its URL (tus 1.0.0, Creation). `NoMemory` if memory runs out.
pub fn to_create(alloc: Global, id: Id) -> Result<Response, NoMemory>
    ensures { IfOk result (λ made. made ≡ created id) }
{
    let mut path = Vec::from_slice(alloc, b"/files/")?;
    path.extend_from_slice(&id.text())?;
    Ok(Response::new(alloc, 201).with_field(alloc, b"Location", &path)?)
}

/// Adds the length, or that it will be declared later.
fn with_length(response: Response, alloc: Global, size: Option<u64>) -> Result<Response, NoMemory>
    ensures { IfOk result (λ made. made
        ≡ record response { fields = response.fields ++ length_field size ∷ [] }) }
{
    match size {
        Some(n) => with_number(response, alloc, b"Upload-Length", n),
        None => Ok(response.with_field(alloc, b"Upload-Defer-Length", b"1")?),
    }
}

/// The response to a HEAD of an upload: its state (tus 1.0.0, HEAD). `NoMemory` if memory runs out.
pub fn to_head(alloc: Global, upload: &Upload) -> Result<Response, NoMemory>
    ensures { IfOk result (λ made. made ≡ head_response (Some upload.now)) }
{
    let response = Response::new(alloc, 200);
    let response = with_number(response, alloc, b"Upload-Offset", upload.offset())?;
    let response = with_length(response, alloc, upload.length())?;
    let response = with_text(response, alloc, b"Upload-Metadata", upload.metadata())?;
    with_text(response, alloc, b"Upload-Concat", upload.concat())
}

/// The response to a PATCH that was accepted: the offset after it (tus 1.0.0, PATCH). `NoMemory` if memory runs out.
pub fn to_patch(alloc: Global, offset: u64) -> Result<Response, NoMemory>
    ensures { IfOk result (λ made. made ≡ reached_offset offset) }
{
    with_number(Response::new(alloc, 204), alloc, b"Upload-Offset", offset)
}

/// The response to a DELETE that was carried out (tus 1.0.0, Termination). Takes no memory.
pub fn to_delete(alloc: Global) -> Response
    ensures { result ≡ removed }
{
    Response::new(alloc, 204)
}

/// The response to a GET of an upload: its bytes, which are not copied if the upload shares them. `NoMemory` if memory
/// runs out.
pub fn to_get(alloc: Global, upload: &Upload) -> Result<Response, NoMemory>
    ensures { IfOk result (λ made. made ≡ downloaded upload.now.bytes) }
{
    let body = upload.share(alloc)?;
    Ok(
        Response::new(alloc, 200)
            .with_field(alloc, b"Content-Type", b"application/octet-stream")?
            .with_body(body),
    )
}

/// The response to a request that a closure refuses: the closure's reason. `NoMemory` if memory runs out.
pub fn refused_because(alloc: Global, status: u16, reason: &Reason) -> Result<Response, NoMemory>
    ensures { IfOk result (λ made. made ≡ refused_with status (reason.now ++ codes "\n")) }
{
    let mut text = Vec::from_slice(alloc, reason.bytes())?;
    text.push(b'\n')?;
    let body = Piece::from_sequence(Sequence::from_vec(text))?;
    Ok(Response::new(alloc, status).with_plain_text(alloc, body)?)
}
