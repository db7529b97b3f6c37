//! Responses.
ghost use Rattle.std.specs.Prelude.{◌≡◌, ◌++◌, ◌∷◌, [], IfOk};
ghost use Rattle.up_message.specs.Refused.{plain_text, refused_with, out_of_memory};

use crate::message::Field;
use crate::piece::Piece;
use crate::segments::Segments;
use crate::sequence::Sequence;
use std::alloc::{AllocError, Global};

/// A response, without the lines that every response has.
#[derive(Drop)]
pub struct Response {
    /// The status code (RFC 9110, section 15).
    pub status: u16,
    pub fields: Sequence<Field>,
    /// The bytes of the content, which other owners may share (RFC 9110, section 6.4).
    pub body: Segments,
}

impl Response {
    /// A response with no fields and no body. Takes no memory.
    pub fn new(alloc: Global, status: u16) -> Self
        ensures { result ≡ record { status = status; fields = []; body = [] } }
    {
        Response {
            status,
            fields: Sequence::new(alloc),
            body: Segments::new(alloc),
        }
    }

    /// Adds one field, after those before it. `AllocError` if memory for it runs out.
    pub fn with_field(
        mut self,
        alloc: Global,
        name: &[u8],
        value: &[u8],
    ) -> Result<Self, AllocError>
        ensures { IfOk result (λ made. made
            ≡ record self { fields = self.fields ++ (name.now, value.now) ∷ [] }) }
    {
        let name = Sequence::from_slice(alloc, name)?;
        self.fields
            .push((name, Sequence::from_slice(alloc, value)?))?;
        Ok(self)
    }

    /// Sets the body, without a copy. Takes no memory.
    pub fn with_body(mut self, body: Segments) -> Self
        ensures { result ≡ record self { body = body } }
    {
        self.body = body;
        self
    }

    /// Sets the body, without a copy, and adds a last field that says that it is plain text. `AllocError` if memory for
    /// the field runs out.
    pub fn with_plain_text(self, alloc: Global, text: Piece) -> Result<Self, AllocError>
        ensures { IfOk result (λ made. made
            ≡ record self { fields = self.fields ++ plain_text ∷ []; body = text }) }
    {
        let response = self.with_field(alloc, b"Content-Type", b"text/plain")?;
        Ok(response.with_body(Segments::from_piece(alloc, text)))
    }

    /// A response that refuses a request and gives the reason as plain text. `AllocError` if memory runs out.
    pub fn refused(alloc: Global, status: u16, text: &'static str) -> Result<Self, AllocError>
        ensures { IfOk result (λ made. made ≡ refused_with status text.now) }
    {
        Response::new(alloc, status).with_plain_text(alloc, Piece::from_static(text.as_bytes()))
    }

    /// The response when memory ran out: only the status 503 (RFC 9110, section 15.6.4). Takes no memory.
    pub fn out_of_memory(alloc: Global) -> Self
        ensures { result ≡ out_of_memory }
    {
        Response::new(alloc, 503)
    }
}
