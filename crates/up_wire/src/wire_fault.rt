//! Why no message was read.
ghost use Rattle.std.specs.Prelude.{◌≡◌};

use thiserror::Error;

/// Why no message was read. The connection closes after it.
#[derive(Clone, Copy, Debug, PartialEq, Eq, Error)]
pub enum WireFault {
    /// No head of HTTP/1.0 or HTTP/1.1 begins with these bytes, or the input ends inside a head (RFC 9112, sections
    /// 2.2, 3 and 5).
    #[error("bad head")]
    BadHead,
    /// A head has more than 16,384 bytes or more than 64 fields (RFC 6585, section 5).
    #[error("head too large")]
    HeadTooLarge,
    /// The fields contradict each other about the length of the body, or chunks are malformed (RFC 9112, sections 6 and
    /// 7.1).
    #[error("bad framing")]
    BadFraming,
    /// A transfer coding other than `chunked` (RFC 9112, section 6.1).
    #[error("unknown transfer coding")]
    UnknownCoding,
    /// The body exceeds the limit (RFC 9110, section 15.5.14).
    #[error("body too large")]
    BodyTooLarge,
    /// A read failed before the head was whole.
    #[error("read failed")]
    ReadFailed,
    /// Memory for the message ran out.
    #[error("out of memory")]
    NoMemory,
    /// Writing `100 Continue` failed.
    #[error("write failed")]
    WriteFailed,
}

impl WireFault {
    ghost use Rattle.up_wire.specs.WireFaults.{wire_fault_status, wire_fault_line};

    /// The status code of the response (RFC 9110, section 15). `ReadFailed` and `WriteFailed` get no response, and have
    /// no status.
    pub fn status(&self) -> Option<u16>
        ensures { result ≡ wire_fault_status self.now }
    {
        match self {
            WireFault::BadHead | WireFault::BadFraming => Some(400),
            WireFault::HeadTooLarge => Some(431),
            WireFault::UnknownCoding => Some(501),
            WireFault::BodyTooLarge => Some(413),
            WireFault::NoMemory => Some(503),
            WireFault::ReadFailed | WireFault::WriteFailed => None,
        }
    }

    /// The body of the response: a line with the number of the fault and its name.
    pub fn text(&self) -> &'static str
        ensures { result.now ≡ wire_fault_line self.now }
    {
        match self {
            WireFault::BadHead => "1 BadHead\n",
            WireFault::HeadTooLarge => "2 HeadTooLarge\n",
            WireFault::BadFraming => "3 BadFraming\n",
            WireFault::UnknownCoding => "4 UnknownCoding\n",
            WireFault::BodyTooLarge => "5 BodyTooLarge\n",
            WireFault::ReadFailed => "6 ReadFailed\n",
            WireFault::NoMemory => "7 NoMemory\n",
            WireFault::WriteFailed => "8 WriteFailed\n",
        }
    }
}
