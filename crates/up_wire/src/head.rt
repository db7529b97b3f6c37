//! Parsing a head.
ghost use Rattle.std.specs.Prelude.{◌≡◌, length, take, map, All, IfOk, bytes_eq, codes};
ghost use Rattle.up_wire.specs.Framing.{closes};
ghost use Rattle.http_header.specs.Token.{IsToken};
ghost use Rattle.httparse.specs.Spans.{span_bytes, header_bytes, IsHeaderWithin, IsRequestWithin};
ghost use Rattle.up_wire.specs.Steps.{IsParsed};

use crate::connection::closes;
use http::Method;
use http::method::MethodError;
use httparse::spans::{EMPTY_HEADER_SPAN, HeaderSpan, RequestSpans, parse_request};
use httparse::{Error, Status};
use std::alloc::{AllocError, Global};
use up_message::{Field, Message, Piece, Sequence};

/// The maximum number of fields of a head.
pub(crate) const MAX_FIELDS: usize = 64;

/// The parts of a head.
#[derive(Drop)]
pub(crate) struct Head {
    pub(crate) method: Method,
    pub(crate) target: Sequence<u8>,
    pub(crate) fields: Sequence<Field>,
    pub(crate) minor: u8,
}

impl Head {
    /// Whether the method is HEAD.
    pub(crate) fn is_bare(&self) -> bool
        ensures { result ≡ bytes_eq self.now.method (codes "HEAD") }
    {
        self.method.as_str() == "HEAD"
    }

    /// The message with this head and body. `bare` is whether the method is HEAD.
    pub(crate) fn into_message(self, body: Piece, bare: bool) -> Message
        ensures method { result.method ≡ self.method }
        ensures target { result.target ≡ self.target }
        ensures fields { result.fields ≡ self.fields }
        ensures body { result.body ≡ body }
        ensures bare { result.bare ≡ bare }
        ensures close { result.close ≡ closes self.minor self.fields }
    {
        let close = closes(self.minor, self.fields.as_slice());
        Message {
            method: self.method,
            target: self.target,
            fields: self.fields,
            body,
            bare,
            close,
        }
    }
}

/// The result of parsing the bytes so far.
#[derive(Drop)]
pub(crate) enum Parsed {
    Whole(Head),
    /// They are a head, but memory for its parts ran out. The value is whether the method is HEAD.
    NoMemory(bool),
    /// They are no head yet, and can become one.
    Partial,
    /// No head begins with them.
    Invalid,
    TooManyFields,
}

/// Parses a head at the start of the bytes.
pub(crate) fn parse(alloc: Global, text: &[u8]) -> Parsed
    ensures { IsParsed text.now result }
{
    let mut spans = [EMPTY_HEADER_SPAN; MAX_FIELDS];
    match parse_request(text, &mut spans) {
        Ok(Status::Complete(found)) => match head_of(alloc, text, &spans, found) {
            Ok(head) => Parsed::Whole(head),
            Err(_) => Parsed::NoMemory(found.method.of(text) == b"HEAD".as_slice()),
        },
        Ok(Status::Partial) => Parsed::Partial,
        Err(Error::TooManyHeaders) => Parsed::TooManyFields,
        Err(_) => Parsed::Invalid,
    }
}

/// Copies what was found of a head out of its text.
fn head_of(
    alloc: Global,
    text: &[u8],
    spans: &[HeaderSpan],
    found: RequestSpans,
) -> Result<Head, AllocError>
    requires within { IsRequestWithin text.now spans.now found }
    requires token { IsToken (span_bytes text.now found.method) }
    ensures method { IfOk result (λ head. head.method ≡ span_bytes text.now found.method) }
    ensures target { IfOk result (λ head. head.target ≡ span_bytes text.now found.path) }
    ensures minor { IfOk result (λ head. head.minor ≡ found.version) }
    ensures fields { IfOk result (λ head. head.fields
        ≡ map (header_bytes text.now) (take found.headers spans.now)) }
{
    let method = method_of(alloc, found.method.of(text))?;
    let target = Sequence::from_slice(alloc, found.path.of(text))?;
    let fields = fields_of(alloc, text, &spans[..found.headers])?;
    Ok(Head {
        method,
        target,
        fields,
        minor: found.version,
    })
}

/// The method with this name.
fn method_of(alloc: Global, name: &[u8]) -> Result<Method, AllocError>
    requires { IsToken name.now }
    ensures { IfOk result (λ method. method ≡ name.now) }
{
    match Method::from_bytes(alloc, name) {
        Ok(method) => Ok(method),
        Err(MethodError::OutOfMemory) => Err(AllocError),
        Err(MethodError::Invalid) => unreachable!(),
    }
}

/// Copies the fields out of the text of a head.
fn fields_of(
    alloc: Global,
    text: &[u8],
    spans: &[HeaderSpan],
) -> Result<Sequence<Field>, AllocError>
    requires { All (IsHeaderWithin (length text.now)) spans.now }
    ensures { IfOk result (λ fields. fields ≡ map (header_bytes text.now) spans.now) }
{
    let mut fields = Sequence::new(alloc);
    for span in spans {
        fields.push(field_of(alloc, text, *span)?)?;
    }
    Ok(fields)
}

/// Copies a field out of the text of a head.
fn field_of(alloc: Global, text: &[u8], span: HeaderSpan) -> Result<Field, AllocError>
    requires { IsHeaderWithin (length text.now) span }
    ensures { IfOk result (λ field. field ≡ header_bytes text.now span) }
{
    let name = Sequence::from_slice(alloc, span.name.of(text))?;
    let value = Sequence::from_slice(alloc, span.value.of(text))?;
    Ok((name, value))
}
