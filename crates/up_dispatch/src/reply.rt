//! The answers to messages and requests that are refused.
ghost use Rattle.std.specs.Prelude.{◌≡◌, IfOk};
ghost use Rattle.up_machine.specs.Refusals.{response_of};
ghost use Rattle.up_dispatch.specs.Replies.{IsReply, method_refused_with, reply_to_header_fault};
ghost use Rattle.up_dispatch.specs.Replies.{reply_to_wire_fault, version_refused_with};

use std::alloc::{AllocError, Global};
use up_headers::HeaderFault;
use up_machine::{Refusal, response_of};
use up_message::{Piece, Response};
use up_wire::WireFault;

/// The answer to a message of another version of the protocol. It says which version the server has (tus 1.0.0,
/// Tus-Version), and why it refuses the message.
fn version_refused(alloc: Global, status: u16, text: &'static str) -> Result<Response, AllocError>
    ensures { IfOk result (λ made. made ≡ version_refused_with status text.now) }
{
    let response = Response::new(alloc, status).with_field(alloc, b"Tus-Version", b"1.0.0")?;
    response.with_plain_text(alloc, Piece::from_static(text.as_bytes()))
}

/// The answer to a message whose method is refused. It says which methods an upload or the creation URL has (RFC 9110,
/// section 10.2.1), and why it refuses the message.
fn method_refused(
    alloc: Global,
    status: u16,
    text: &'static str,
    of_upload: bool,
) -> Result<Response, AllocError>
    ensures { IfOk result (λ made. made ≡ method_refused_with status text.now of_upload) }
{
    let methods: &[u8] = if of_upload {
        b"OPTIONS, HEAD, GET, PATCH, DELETE"
    } else {
        b"OPTIONS, POST"
    };
    let response = Response::new(alloc, status).with_field(alloc, b"Allow", methods)?;
    response.with_plain_text(alloc, Piece::from_static(text.as_bytes()))
}

/// The answer to a message that can't be read. It is an empty 503 if memory runs out, and also for a fault that is
/// never answered.
pub fn reply_to_wire_fault(alloc: Global, fault: WireFault) -> Response
    ensures { IsReply (reply_to_wire_fault fault) result }
{
    let Some(status) = fault.status() else {
        return Response::out_of_memory(alloc);
    };
    let made = match fault {
        WireFault::NoMemory => return Response::out_of_memory(alloc),
        _ => Response::refused(alloc, status, fault.text()),
    };
    made.unwrap_or(Response::out_of_memory(alloc))
}

/// The answer to a message that is not a request. It is an empty 503 if memory runs out.
pub fn reply_to_header_fault(alloc: Global, fault: HeaderFault) -> Response
    ensures { IsReply (reply_to_header_fault fault) result }
{
    let made = match fault {
        HeaderFault::NoMemory => return Response::out_of_memory(alloc),
        HeaderFault::Version => version_refused(alloc, fault.status(), fault.text()),
        HeaderFault::Method { of_upload } => {
            method_refused(alloc, fault.status(), fault.text(), of_upload)
        }
        _ => Response::refused(alloc, fault.status(), fault.text()),
    };
    made.unwrap_or(Response::out_of_memory(alloc))
}

/// The answer to a request that is refused. It is an empty 503 if memory runs out.
pub fn reply_to_refusal(alloc: Global, refusal: &Refusal) -> Response
    ensures { IsReply (response_of refusal.now) result }
{
    response_of(alloc, refusal).unwrap_or(Response::out_of_memory(alloc))
}
