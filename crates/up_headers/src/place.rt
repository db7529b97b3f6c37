//! What a target refers to.
ghost use Rattle.std.specs.Prelude.{◌≡◌, IfOk};
ghost use Rattle.up_headers.specs.Places.{IsPlace, IsAt};

use http_uri::{Uri, UriError};
use std::alloc::{AllocError, Global};
use up_events::Id;

/// What a target refers to.
#[derive(Clone, Copy, PartialEq, Eq)]
pub(crate) enum Place {
    /// The creation URL, `/files` or `/files/` (tus 1.0.0, Creation).
    Creation,
    /// The URL of an upload, `/files/` and the text of its id. The upload need not exist.
    Upload(Id),
    /// Anything else.
    Nowhere,
}

/// The place that a path refers to.
fn place_in(path: &[u8]) -> Place
    ensures { IsPlace path.now result }
{
    if path == b"/files".as_slice() || path == b"/files/".as_slice() {
        return Place::Creation;
    }
    let Some(text) = path.strip_prefix(b"/files/") else {
        return Place::Nowhere;
    };
    match Id::parse(text) {
        Some(id) => Place::Upload(id),
        None => Place::Nowhere,
    }
}

/// The place that the path of a request target refers to, whatever its query (RFC 9112, section 3.2). `Nowhere` for a
/// target that is not a URI.
pub(crate) fn place_of(alloc: Global, target: &[u8]) -> Result<Place, AllocError>
    ensures { IfOk result (IsAt target.now) }
{
    match Uri::from_bytes(alloc, target) {
        Ok(uri) => Ok(place_in(uri.path().as_bytes())),
        Err(error) => match error {
            UriError::Invalid(_) => Ok(Place::Nowhere),
            UriError::OutOfMemory => Err(AllocError),
        },
    }
}
