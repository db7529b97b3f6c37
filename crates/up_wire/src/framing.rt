//! Where the body of a message ends.
ghost use Rattle.std.specs.Prelude.{◌≡◌};
ghost use Rattle.up_wire.specs.Framing.{sized, coded, framing};

use crate::wire_fault::WireFault;
use up_message::{Field, Values, find_value, is_digits, number, same_name};

/// How a head says where the body ends.
#[derive(Clone, Copy)]
pub enum Framing {
    NoBody,
    Sized(u64),
    Chunked,
}

/// How the body is framed, or the fault of the fields that say so.
pub(crate) fn framing_of(limit: u64, minor: u8, fields: &[Field]) -> Result<Framing, WireFault>
    ensures { result ≡ framing limit minor fields.now }
{
    let size = find_value(fields, b"content-length");
    let coding = find_value(fields, b"transfer-encoding");
    match (size, coding) {
        (Values::Absent, Values::Absent) => Ok(Framing::NoBody),
        (Values::One(value), Values::Absent) => sized(limit, value),
        (Values::Absent, Values::One(value)) => coded(minor, value),
        _ => Err(WireFault::BadFraming),
    }
}

/// The framing that `Content-Length` asks for. A body of more than `limit` bytes is refused.
fn sized(limit: u64, value: &[u8]) -> Result<Framing, WireFault>
    ensures { result ≡ sized limit value.now }
{
    if !is_digits(value) {
        return Err(WireFault::BadFraming);
    }
    match number(value) {
        Some(size) if size <= limit => Ok(Framing::Sized(size)),
        _ => Err(WireFault::BodyTooLarge),
    }
}

/// The framing that `Transfer-Encoding` asks for, which must be `chunked` (RFC 9112, section 6.1).
fn coded(minor: u8, value: &[u8]) -> Result<Framing, WireFault>
    ensures { result ≡ coded minor value.now }
{
    if minor == 0 {
        return Err(WireFault::BadFraming);
    }
    if same_name(value, b"chunked") {
        return Ok(Framing::Chunked);
    }
    Err(WireFault::UnknownCoding)
}
