//! Writing to a sink.
ghost use Rattle.std.specs.Prelude.{◌≡◌, ◌<◌, false, length};
ghost use Rattle.std.specs.Io.KnownBytes.{Keeps};
ghost use Rattle.up_wire.specs.Framing.{has_body, interim};
ghost use Rattle.up_wire.specs.Device.{Tries};
ghost use Rattle.up_wire.specs.Response.{joined_slices};
ghost use Rattle.up_wire.specs.Steps.{HasWritten};
ghost use Rattle.up_wire.specs.Limits.{max_interruptions};

use crate::connection;
use crate::device::{Sink, WriteSome};
use crate::framing::Framing;
use crate::head::Head;
use crate::step::MAX_INTERRUPTIONS;

/// Writes all bytes. Retries an interrupted write. Returns whether all bytes were taken.
pub(crate) fn write_all<W: Sink>(sink: &mut W, bytes: &[u8], interruptions: &mut u32) -> bool
    requires { interruptions.old < max_interruptions }
    ensures { HasWritten (W.device sink.old) (W.device sink.new)
        interruptions.old interruptions.new bytes.now result }
{
    let mut rest = bytes;
    'pieces: while !rest.is_empty() {
        match sink.write_some(rest) {
            WriteSome::Took(count) => rest = &rest[count..],
            WriteSome::Interrupted => {
                *interruptions += 1;
                if *interruptions == MAX_INTERRUPTIONS {
                    return false;
                }
            }
            WriteSome::Failed => return false,
        }
    }
    true
}

/// Writes the pieces, in order. Returns whether all bytes were taken.
pub(crate) fn write_each<W: Sink>(sink: &mut W, pieces: &[&[u8]], interruptions: &mut u32) -> bool
    requires { interruptions.old < max_interruptions }
    ensures { HasWritten (W.device sink.old) (W.device sink.new)
        interruptions.old interruptions.new (joined_slices pieces.now) result }
{
    for piece in pieces {
        if !write_all(sink, piece, interruptions) {
            return false;
        }
    }
    true
}

/// Makes the sink send everything that it holds back. Retries an interrupted try. Returns whether it succeeded.
pub(crate) fn send_on<W: Sink>(sink: &mut W, interruptions: &mut u32) -> bool
    requires { interruptions.old < max_interruptions }
    ensures kept { Keeps (W.device sink.old).bytes (W.device sink.new).bytes }
    ensures tries { Tries (W.device sink.old) (W.device sink.new)
        interruptions.old interruptions.new result }
{
    'tries: loop {
        match sink.flush() {
            WriteSome::Took(_) => return true,
            WriteSome::Interrupted => {
                *interruptions += 1;
                if *interruptions == MAX_INTERRUPTIONS {
                    return false;
                }
            }
            WriteSome::Failed => return false,
        }
    }
}

/// Whether a body may follow with this framing.
fn has_body(framing: Framing) -> bool
    ensures { result ≡ has_body framing }
{
    match framing {
        Framing::NoBody => false,
        Framing::Sized(size) => size > 0,
        Framing::Chunked => true,
    }
}

/// Writes `100 Continue` if the client waits for it. Returns whether all of it was taken.
pub(crate) fn continue_if_asked<W: Sink>(
    sink: &mut W,
    head: &Head,
    framing: Framing,
    interruptions: &mut u32,
) -> bool
    requires { interruptions.old < max_interruptions }
    ensures written { HasWritten (W.device sink.old) (W.device sink.new)
        interruptions.old interruptions.new
        (interim framing head.now.minor head.now.fields) result }
    ensures due { result ≡ false → 0 < length (interim framing head.now.minor head.now.fields) }
{
    if has_body(framing) && connection::asks_to_continue(head.minor, head.fields.as_slice()) {
        if !write_all(sink, b"HTTP/1.1 100 Continue\r\n\r\n", interruptions) {
            return false;
        }
        return send_on(sink, interruptions);
    }
    true
}
