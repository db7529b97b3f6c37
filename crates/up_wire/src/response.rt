//! Writing a response.
ghost use Rattle.std.specs.Prelude.{◌≡◌, ◌+◌, ◌<◌, ◌≤◌, flat_map, length, OnOk, OnErr};
ghost use Rattle.up_wire.specs.Device.{GaveUp, interrupted};
ghost use Rattle.up_wire.specs.Limits.{max_interruptions};
ghost use Rattle.up_wire.specs.Steps.{HasWritten};
ghost use Rattle.up_wire.specs.Response.{phrase, start_text, field_line, length_line, gap_text, head_text};
ghost use Rattle.up_wire.specs.Shown.{HasShownResponse, WritesShown, beside};

use crate::device::Sink;
use crate::shown::write_body;
use crate::text::WriteFailed;
use crate::write::{send_on, write_each};
use http::StatusCode;
use itoa::Buffer;
use up_message::{Field, Response};
use up_places::Shelf;

/// Writes the line of a field.
fn write_field<W: Sink>(sink: &mut W, field: &Field, interruptions: &mut u32) -> bool
    requires { interruptions.old < max_interruptions }
    ensures { HasWritten (W.device sink.old) (W.device sink.new)
        interruptions.old interruptions.new (field_line field.now) result }
{
    let pieces: [&[u8]; 4] = [field.0.as_slice(), b": ", field.1.as_slice(), b"\r\n"];
    write_each(sink, &pieces, interruptions)
}

/// Writes the lines of the fields.
fn write_fields<W: Sink>(sink: &mut W, fields: &[Field], interruptions: &mut u32) -> bool
    requires { interruptions.old < max_interruptions }
    ensures { HasWritten (W.device sink.old) (W.device sink.new)
        interruptions.old interruptions.new (flat_map field_line fields.now) result }
{
    for field in fields {
        if !write_field(sink, field, interruptions) {
            return false;
        }
    }
    true
}

/// The reason phrase of a status.
fn phrase(status: u16) -> &'static str
    ensures { result.now ≡ phrase status }
{
    match StatusCode::from_u16(status) {
        Ok(code) => code.canonical_reason().unwrap_or(""),
        Err(_) => "",
    }
}

/// Writes the status line, and the fields of every response.
fn write_start<W: Sink>(sink: &mut W, status: u16, interruptions: &mut u32) -> bool
    requires { interruptions.old < max_interruptions }
    ensures { HasWritten (W.device sink.old) (W.device sink.new)
        interruptions.old interruptions.new (start_text status) result }
{
    let mut digits = Buffer::new();
    let pieces: [&[u8]; 5] = [
        b"HTTP/1.1 ",
        digits.format(status).as_bytes(),
        b" ",
        phrase(status).as_bytes(),
        b"\r\nTus-Resumable: 1.0.0\r\nCache-Control: no-store\r\n",
    ];
    write_each(sink, &pieces, interruptions)
}

/// Writes `Content-Length`, unless the response answers HEAD, as `bare` says, or its status is 204.
fn write_length<W: Sink>(
    sink: &mut W,
    response: &Response,
    bare: bool,
    interruptions: &mut u32,
) -> bool
    requires { interruptions.old < max_interruptions }
    ensures { HasWritten (W.device sink.old) (W.device sink.new)
        interruptions.old interruptions.new (length_line bare response.now) result }
{
    if bare || response.status == 204 {
        return true;
    }
    let mut digits = Buffer::new();
    let pieces: [&[u8]; 3] = [
        b"Content-Length: ",
        digits.format(response.body.len()).as_bytes(),
        b"\r\n",
    ];
    write_each(sink, &pieces, interruptions)
}

/// Writes the lines between the length and the body.
fn write_gap<W: Sink>(sink: &mut W, close: bool, interruptions: &mut u32) -> bool
    requires { interruptions.old < max_interruptions }
    ensures { HasWritten (W.device sink.old) (W.device sink.new)
        interruptions.old interruptions.new (gap_text close) result }
{
    let closing: &[u8] = if close { b"Connection: close\r\n" } else { b"" };
    let pieces: [&[u8]; 2] = [closing, b"\r\n"];
    write_each(sink, &pieces, interruptions)
}

/// Writes everything before the body.
fn write_head<W: Sink>(
    sink: &mut W,
    response: &Response,
    bare: bool,
    close: bool,
    interruptions: &mut u32,
) -> bool
    requires { interruptions.old < max_interruptions }
    ensures { HasWritten (W.device sink.old) (W.device sink.new)
        interruptions.old interruptions.new (head_text response.now bare close) result }
{
    if !write_start(sink, response.status, interruptions) {
        return false;
    }
    if !write_fields(sink, response.fields.as_slice(), interruptions) {
        return false;
    }
    if !write_length(sink, response, bare, interruptions) {
        return false;
    }
    write_gap(sink, close, interruptions)
}

/// Writes a response. `bare` leaves out the body and its length, and `close` adds `Connection: close`. Bytes of the body
/// that are not in memory are read from the shelf, block by block. It takes no memory itself. Whatever bytes the shelf
/// reads, the body that is written has its length.
///
/// `WriteFailed` if the sink failed or was interrupted 1,000 times, or if a read from the shelf failed. A prefix of the
/// response may then be written.
pub fn write_response<W: Sink, S: Shelf>(
    sink: &mut W,
    shelf: &mut S,
    response: &Response,
    bare: bool,
    close: bool,
) -> Result<(), WriteFailed>
    ensures written { WritesShown (S.is_true shelf.new)
        (W.device sink.old) (W.device sink.new) response.now bare close result }
    ensures stays { S.is_true shelf.new → S.is_true shelf.old }
    ensures patient { OnOk result
        (interrupted (W.device sink.old) (W.device sink.new) < max_interruptions) }
    ensures failed { OnErr result (GaveUp (beside (W.device sink.new) (S.has_failed shelf.new))
        (interrupted (W.device sink.old) (W.device sink.new))) }
    ensures bounded { interrupted (W.device sink.old) (W.device sink.new) ≤ max_interruptions }
{
    let mut interruptions = 0;
    if !write_parts(sink, shelf, response, bare, close, &mut interruptions) {
        return Err(WriteFailed);
    }
    if !send_on(sink, &mut interruptions) {
        return Err(WriteFailed);
    }
    Ok(())
}

/// Writes all of a response.
fn write_parts<W: Sink, S: Shelf>(
    sink: &mut W,
    shelf: &mut S,
    response: &Response,
    bare: bool,
    close: bool,
    interruptions: &mut u32,
) -> bool
    requires patient { interruptions.old < max_interruptions }
    ensures shown { HasShownResponse (S.is_true shelf.new)
        (beside (W.device sink.old) (S.has_failed shelf.old))
        (beside (W.device sink.new) (S.has_failed shelf.new))
        interruptions.old interruptions.new response.now bare close result }
    ensures stays { S.is_true shelf.new → S.is_true shelf.old }
{
    if !write_head(sink, response, bare, close, interruptions) {
        return false;
    }
    if bare {
        return true;
    }
    write_body(sink, shelf, &response.body, interruptions)
}
