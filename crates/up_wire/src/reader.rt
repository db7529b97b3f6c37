//! Reading a message.
ghost use Rattle.up_wire.specs.Reading.{IsReading};

use crate::device::{Sink, Source};
use crate::framing::framing_of;
use crate::head_reader::{HeadRead, read_head};
use crate::spooled::{BodyKept, keep_body};
use crate::taken::{Limits, Taken};
use crate::wire_fault::WireFault;
use crate::write::continue_if_asked;
use std::alloc::Global;
use up_places::Spool;

/// Reads the next message of HTTP/1.0 or HTTP/1.1, and no byte after it (RFC 9112). Empty lines before it are dropped.
/// Only `100 Continue` is written to the sink, if the client waits for it (RFC 9110, section 10.1.1).
///
/// The head has at most 16,384 bytes and 64 fields. The body has the number of bytes in `Content-Length`, or is
/// chunked, and has at most `limits.max_body` bytes. It takes memory only as its bytes arrive. If its length is known
/// and the spool takes it, its bytes are put there block by block, and take no more memory than a block. Trailer fields
/// are read and dropped.
///
/// The faults:
/// - `BadHead` if no head begins with these bytes, or the input ends inside one;
/// - `HeadTooLarge` if the head exceeds a limit;
/// - `BadFraming`, `UnknownCoding` and `BodyTooLarge` if the fields or the chunks are at fault;
/// - `ReadFailed` if a read failed before the head was whole;
/// - `WriteFailed` if `100 Continue` was not written completely;
/// - `NoMemory` if memory ran out, or if the spool failed.
///
/// The 1,000th interruption of a call, reads and writes together, counts as a failed read or write.
pub fn read_message<R: Source, W: Sink, P: Spool>(
    alloc: Global,
    source: &mut R,
    sink: &mut W,
    spool: &mut P,
    limits: &Limits,
) -> Taken
    ensures { IsReading limits.now.max_body
        (R.device source.old)
        (R.device source.new)
        (W.device sink.old)
        (W.device sink.new)
        result }
{
    let mut interruptions = 0;
    let head = match read_head(alloc, source, &mut interruptions) {
        HeadRead::Whole(head) => head,
        HeadRead::Fault { fault, bare } => return Taken::Fault { fault, bare },
        HeadRead::End => return Taken::End,
    };
    let bare = head.is_bare();
    let framing = match framing_of(limits.max_body, head.minor, head.fields.as_slice()) {
        Ok(framing) => framing,
        Err(fault) => return Taken::Fault { fault, bare },
    };
    if !continue_if_asked(sink, &head, framing, &mut interruptions) {
        return Taken::Fault {
            fault: WireFault::WriteFailed,
            bare,
        };
    }
    let limit = limits.max_body;
    match keep_body(alloc, source, spool, &mut interruptions, limit, framing) {
        BodyKept::Whole(body) => Taken::Message(head.into_message(body, bare)),
        BodyKept::Cut(body) => Taken::Cut(head.into_message(body, bare)),
        BodyKept::Fault(fault) => Taken::Fault { fault, bare },
    }
}
