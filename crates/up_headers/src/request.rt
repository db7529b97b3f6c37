//! What a message asks for.
use up_events::{Id, Kind};
use up_message::{Piece, Sequence};

/// The pairs of a metadata text: each key with its value (tus 1.0.0, Upload-Metadata).
pub type Pairs = Sequence<(Sequence<u8>, Sequence<u8>)>;

/// A request of the tus protocol.
#[derive(Drop)]
pub enum Request {
    /// Asks what the server supports (tus 1.0.0, OPTIONS).
    Options,
    /// Creates an upload (tus 1.0.0, Creation).
    Create(NewUpload),
    /// Asks for the offset of an upload (tus 1.0.0, HEAD).
    Head(Id),
    /// Sends bytes for an upload (tus 1.0.0, PATCH).
    Patch(Patch),
    /// Removes an upload (tus 1.0.0, Termination).
    Delete(Id),
    /// Asks for the bytes of an upload.
    Get(Id),
}

/// An upload to be created.
#[derive(Drop)]
pub struct NewUpload {
    pub kind: Kind,
    /// The length in bytes; `None` if it will be declared later (tus 1.0.0, Upload-Defer-Length). 0 for a final upload,
    /// whose length is that of its parts.
    pub length: Option<u64>,
    /// The uploads that a final one joins, in order, at least one. Empty for any other upload.
    pub parts: Sequence<Id>,
    pub pairs: Pairs,
    /// The metadata text as it was sent, if it is not empty.
    pub metadata: Option<Sequence<u8>>,
    /// The text of `Upload-Concat` as it was sent, if it is not empty.
    pub concat: Option<Sequence<u8>>,
}

/// The text of a number is not one or more decimal digits.
#[derive(Clone, Copy, Debug, PartialEq, Eq)]
pub struct NotDigits;

/// Bytes for an upload.
#[derive(Drop)]
pub struct Patch {
    pub id: Id,
    /// Whether the media type is the one that a PATCH must have.
    pub media: bool,
    /// The offset of the bytes, if a number was sent. A number above 2^64 - 1 counts as 2^64 - 1.
    pub offset: Option<u64>,
    /// The length of the upload in bytes, if it is declared (tus 1.0.0, Upload-Defer-Length). A number above 2^64 - 1
    /// counts as 2^64 - 1.
    pub length: Option<Result<u64, NotDigits>>,
    pub bytes: Piece,
}
