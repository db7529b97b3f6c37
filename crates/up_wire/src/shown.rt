//! Writing a body whose bytes are in memory or in data files.
ghost use Rattle.std.specs.Prelude.{◌<◌};
ghost use Rattle.up_message.specs.Joins.{pieced};
ghost use Rattle.up_wire.specs.Limits.{max_interruptions};
ghost use Rattle.up_wire.specs.Shown.{Shows};

use crate::device::Sink;
use crate::write::write_all;
use up_message::{Found, Piece, Run, Segments};
use up_places::{BLOCK, Place, Shelf};

/// Writes the bytes of a place, block by block.
fn write_place<W: Sink, S: Shelf>(
    sink: &mut W,
    shelf: &mut S,
    place: &Place,
    interruptions: &mut u32,
) -> bool
    requires patient { interruptions.old < max_interruptions }
    ensures shown { Shows W.Sink S.Shelf sink.old sink.new shelf.old shelf.new
        interruptions.old interruptions.new place.now.bytes result }
    ensures stays { S.is_true shelf.new → S.is_true shelf.old }
{
    let len = place.len();
    let mut from = 0;
    'spans: while from < len {
        let Ok(()) = shelf.read(place, from / BLOCK) else {
            return false;
        };
        let block = shelf.block();
        if !write_all(sink, block, interruptions) {
            return false;
        }
        from += block.len();
    }
    true
}

/// Writes the bytes of a piece.
fn write_piece<W: Sink, S: Shelf>(
    sink: &mut W,
    shelf: &mut S,
    piece: &Piece,
    interruptions: &mut u32,
) -> bool
    requires patient { interruptions.old < max_interruptions }
    ensures shown { Shows W.Sink S.Shelf sink.old sink.new shelf.old shelf.new
        interruptions.old interruptions.new piece.now result }
    ensures stays { S.is_true shelf.new → S.is_true shelf.old }
{
    match piece.found() {
        Found::InMemory(bytes) => write_all(sink, bytes, interruptions),
        Found::InFile(place) => write_place(sink, shelf, place, interruptions),
    }
}

/// Writes pieces, in order.
fn write_pieces<W: Sink, S: Shelf>(
    sink: &mut W,
    shelf: &mut S,
    pieces: &[Piece],
    interruptions: &mut u32,
) -> bool
    requires patient { interruptions.old < max_interruptions }
    ensures shown { Shows W.Sink S.Shelf sink.old sink.new shelf.old shelf.new
        interruptions.old interruptions.new (pieced pieces.now) result }
    ensures stays { S.is_true shelf.new → S.is_true shelf.old }
{
    for piece in pieces {
        if !write_piece(sink, shelf, piece, interruptions) {
            return false;
        }
    }
    true
}

/// Writes runs, in order.
fn write_runs<W: Sink, S: Shelf>(
    sink: &mut W,
    shelf: &mut S,
    runs: &[Run],
    interruptions: &mut u32,
) -> bool
    requires patient { interruptions.old < max_interruptions }
    ensures shown { Shows W.Sink S.Shelf sink.old sink.new shelf.old shelf.new
        interruptions.old interruptions.new (pieced runs.now) result }
    ensures stays { S.is_true shelf.new → S.is_true shelf.old }
{
    for run in runs {
        if !write_pieces(sink, shelf, run.pieces(), interruptions) {
            return false;
        }
    }
    true
}

/// Writes a body.
pub(crate) fn write_body<W: Sink, S: Shelf>(
    sink: &mut W,
    shelf: &mut S,
    body: &Segments,
    interruptions: &mut u32,
) -> bool
    requires patient { interruptions.old < max_interruptions }
    ensures shown { Shows W.Sink S.Shelf sink.old sink.new shelf.old shelf.new
        interruptions.old interruptions.new body.now result }
    ensures stays { S.is_true shelf.new → S.is_true shelf.old }
{
    let (front, last) = body.runs();
    if !write_runs(sink, shelf, front, interruptions) {
        return false;
    }
    write_pieces(sink, shelf, last.pieces(), interruptions)
}
