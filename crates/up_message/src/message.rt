//! A message as it was on the wire.
use crate::piece::Piece;
use crate::sequence::Sequence;
use http::Method;

/// The name and the value of a field (RFC 9112, section 5).
pub type Field = (Sequence<u8>, Sequence<u8>);

/// A request of HTTP/1.0 or HTTP/1.1 (RFC 9112, sections 3, 5, 6 and 7).
#[derive(Drop)]
pub struct Message {
    pub method: Method,
    /// The request target, as sent.
    pub target: Sequence<u8>,
    /// The fields of the head, in order, without the blanks around the values.
    pub fields: Sequence<Field>,
    /// The bytes of the body, without the lines of the chunked coding, in memory or in a data file.
    pub body: Piece,
    /// Whether the method is HEAD, so that the response has no body (RFC 9110, section 9.3.2).
    pub bare: bool,
    /// Whether the connection closes after this message (RFC 9112, section 9.3).
    pub close: bool,
}
