//! The bytes of pieces.
use up_message::{Found, Piece};

/// The bytes of a piece that is in memory. None if it is in a data file.
pub fn bytes_of(piece: &Piece) -> &[u8] {
    match piece.found() {
        Found::InMemory(bytes) => bytes,
        Found::InFile(_) => &[],
    }
}
