//! Writing any text.
ghost use Rattle.std.specs.Prelude.{◌<◌, ◌≤◌, OnOk, OnErr};
ghost use Rattle.std.specs.Io.KnownBytes.{Keeps};
ghost use Rattle.up_wire.specs.Device.{GaveUp, interrupted};
ghost use Rattle.up_wire.specs.Limits.{max_interruptions};
ghost use Rattle.up_wire.specs.Response.{Writes, joined_slices};

use crate::device::Sink;
use crate::write::{send_on, write_each};
use thiserror::Error;

/// A write failed, so that the text is incomplete.
#[derive(Clone, Copy, Debug, PartialEq, Eq, Error)]
#[error("write failed")]
pub struct WriteFailed;

/// Writes the pieces, in order. It takes no memory. `WriteFailed` if the sink failed, or was interrupted 1,000 times: a
/// prefix of the text may then be written.
pub fn write_pieces<W: Sink>(sink: &mut W, pieces: &[&[u8]]) -> Result<(), WriteFailed>
    ensures written { Writes (W.device sink.old).bytes (W.device sink.new).bytes
        (joined_slices pieces.now) result }
    ensures patient { OnOk result
        (interrupted (W.device sink.old) (W.device sink.new) < max_interruptions) }
    ensures failed { OnErr result
        (GaveUp (W.device sink.new) (interrupted (W.device sink.old) (W.device sink.new))) }
    ensures bounded { interrupted (W.device sink.old) (W.device sink.new) ≤ max_interruptions }
{
    let mut interruptions = 0;
    if !write_each(sink, pieces, &mut interruptions) {
        return Err(WriteFailed);
    }
    Ok(())
}

/// Makes the sink send everything that it holds back. `WriteFailed` if the sink failed, or was interrupted 1,000 times.
pub fn flush<W: Sink>(sink: &mut W) -> Result<(), WriteFailed>
    ensures kept { Keeps (W.device sink.old).bytes (W.device sink.new).bytes }
    ensures patient { OnOk result
        (interrupted (W.device sink.old) (W.device sink.new) < max_interruptions) }
    ensures failed { OnErr result
        (GaveUp (W.device sink.new) (interrupted (W.device sink.old) (W.device sink.new))) }
    ensures bounded { interrupted (W.device sink.old) (W.device sink.new) ≤ max_interruptions }
{
    let mut interruptions = 0;
    if !send_on(sink, &mut interruptions) {
        return Err(WriteFailed);
    }
    Ok(())
}
