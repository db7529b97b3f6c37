//! A body, copied into one piece.
use crate::text::bytes_of;
use std::alloc::{AllocError, Global};
use up_message::{Piece, Run, Segments};

/// Appends the pieces to the bytes.
fn put_pieces(bytes: &mut Vec<u8>, pieces: &[Piece]) -> Result<(), AllocError> {
    for piece in pieces {
        bytes.extend_from_slice(bytes_of(piece))?;
    }
    Ok(())
}

/// Appends the runs to the bytes.
fn put_runs(bytes: &mut Vec<u8>, runs: &[Run]) -> Result<(), AllocError> {
    for run in runs {
        put_pieces(bytes, run.pieces())?;
    }
    Ok(())
}

/// The bytes of a body.
pub fn gathered(alloc: Global, body: &Segments) -> Result<Vec<u8>, AllocError> {
    let mut bytes = Vec::new(alloc);
    let (front, last) = body.runs();
    put_runs(&mut bytes, front)?;
    put_pieces(&mut bytes, last.pieces())?;
    Ok(bytes)
}
