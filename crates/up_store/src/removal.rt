//! Changes that remove an upload.
ghost use Rattle.std.specs.Prelude.{◌↔◌, IsTrue};
ghost use Rattle.up_store.specs.Lines.{IsRemoval};

use up_headers::Request;
use up_log::Entry;

/// Whether a change removes an upload.
pub(crate) fn is_removal(change: &Entry) -> bool
    ensures { IsTrue result ↔ IsRemoval change.now }
{
    matches!(change.request, Request::Delete(_))
}
