//! The view of an upload.
use up_events::Kind;
use up_message::{Piece, Run};

/// The state of an upload, borrowed from the book.
#[derive(Clone, Copy)]
pub struct View<'a> {
    pub kind: Kind,
    /// The number of bytes (`Upload-Offset` of tus 1.0.0).
    pub offset: u64,
    /// The length of the complete upload, in bytes, if it is known.
    pub length: Option<u64>,
    /// The metadata text as it was sent, if it is not empty.
    pub metadata: Option<&'a [u8]>,
    /// The text of `Upload-Concat` as it was sent, if it is not empty.
    pub concat: Option<&'a [u8]>,
    /// The bytes are those of the runs, then those of the pieces, and then the tail.
    pub runs: &'a [Run],
    pub pieces: &'a [Piece],
    pub tail: &'a [u8],
    /// The room for more bytes, at most 65,536.
    pub spare: usize,
}
