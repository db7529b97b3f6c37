//! Requests for a board, without messages.
ghost use Rattle.std.specs.Prelude.{◌≡◌, [], None, Some, true, IfOk};
ghost use Rattle.up_events.specs.declared.event.Kind.TheVariants.{Plain};
ghost use Rattle.up_events.specs.declared.limits.TheConstants.{MAX_UPLOAD_BYTES};
ghost use Rattle.up_headers.specs.Creations.{IsAtMost};
ghost use Rattle.up_headers.specs.Table.{FitsWithin};
ghost use Rattle.up_headers.specs.declared.request.Request.TheVariants as request;

use std::alloc::Global;
use up_events::{Id, Kind, NoMemory};
use up_headers::{NewUpload, Patch, Request};
use up_message::{Piece, Sequence};

/// Creates a plain upload without metadata. If no length is given, it is declared later.
pub fn creation(alloc: Global, length: Option<u64>) -> Request
    requires { IsAtMost MAX_UPLOAD_BYTES length }
    ensures within { FitsWithin MAX_UPLOAD_BYTES result }
    ensures request { result ≡ request.Create (record {
      kind = Plain;
      length = length;
      parts = [];
      pairs = [];
      metadata = None;
      concat = None;
    }) }
{
    Request::Create(NewUpload {
        kind: Kind::Plain,
        length,
        parts: Sequence::new(alloc),
        pairs: Sequence::new(alloc),
        metadata: None,
        concat: None,
    })
}

/// Appends the bytes to an upload.
pub fn append(alloc: Global, id: Id, offset: u64, bytes: &[u8]) -> Result<Request, NoMemory>
    ensures within { IfOk result (FitsWithin MAX_UPLOAD_BYTES) }
    ensures request { IfOk result (λ made. made ≡ request.Patch (record {
      id = id;
      media = true;
      offset = Some offset;
      length = None;
      bytes = bytes.now;
    })) }
{
    Ok(Request::Patch(Patch {
        id,
        media: true,
        offset: Some(offset),
        length: None,
        bytes: Piece::copied(alloc, bytes)?,
    }))
}
