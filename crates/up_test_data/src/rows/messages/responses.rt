//! What is written of responses.
use crate::rows::gathered::gathered;
use crate::rows::line::cut;
use crate::rows::messages::Messages;
use crate::rows::messages::devices::WaitingSink;
use crate::rows::messages::no_files::NoFiles;
use crate::rows::row_fault::RowFault;
use crate::text::{bytes_of, push_in_brackets, put_bytes};
use std::alloc::{AllocError, Global};
use std::cell::Cell;
use std::io::BufWriter;
use up_message::{Piece, Response, Segments, Sequence};
use up_wire::{Output, Sink, WriteFailed, flush, write_pieces, write_response};

/// A response, whether it is bare, and whether it closes.
#[derive(Drop)]
struct Reply {
    response: Response,
    bare: bool,
    closes: bool,
}

/// The bytes that a text encodes.
fn body_of(alloc: Global, text: &str) -> Result<Piece, RowFault> {
    let mut bytes = Vec::new(alloc);
    put_bytes(&mut bytes, text)?;
    Ok(Piece::from_sequence(Sequence::from_vec(bytes))?)
}

/// A response with two fields.
fn response_of(alloc: Global, status: u16, text: &str) -> Result<Response, RowFault> {
    let body = Segments::from_piece(alloc, body_of(alloc, text)?);
    let made = Response::new(alloc, status).with_body(body);
    let made = made.with_field(alloc, b"X", b"1")?;
    Ok(made.with_field(alloc, b"Y", b"")?)
}

fn reply_of(alloc: Global, text: &str) -> Result<Reply, RowFault> {
    let (status, rest) = cut(text);
    let (flags, text) = cut(rest);
    let Ok(status) = status.parse::<u16>() else {
        return Err(RowFault::Number);
    };
    Ok(Reply {
        response: response_of(alloc, status, text)?,
        bare: flags.contains('b'),
        closes: flags.contains('c'),
    })
}

/// What was written, whether writing failed, and the mark after it.
fn words_of(
    alloc: Global,
    ended: Result<(), WriteFailed>,
    bytes: &[u8],
    mark: &str,
) -> Result<String, RowFault> {
    let failed = if ended.is_err() { "failed " } else { "" };
    let mut words = String::from_str(alloc, failed)?;
    push_in_brackets(&mut words, bytes)?;
    words.push_str(mark)?;
    Ok(words)
}

fn write_reply<W: Sink>(sink: &mut W, reply: &Reply) -> Result<(), WriteFailed> {
    write_response(
        sink,
        &mut NoFiles::new(),
        &reply.response,
        reply.bare,
        reply.closes,
    )
}

/// What a sink that takes one byte at a time has received.
fn told(alloc: Global, rows: &Messages, reply: &Reply) -> Result<String, RowFault> {
    let asks = Cell::new(0);
    let mut sink = WaitingSink::new(alloc, rows.room, rows.writes, &asks);
    let ended = write_reply(&mut sink, reply);
    let mark = if sink.sent.is_none() { " unsent" } else { "" };
    words_of(alloc, ended, &sink.taken, mark)
}

pub fn written(alloc: Global, rows: &Messages, text: &str) -> Result<String, RowFault> {
    told(alloc, rows, &reply_of(alloc, text)?)
}

/// A writer that holds back everything until it is flushed.
fn holding(alloc: Global) -> Result<Output<BufWriter<Vec<u8>>>, RowFault> {
    match BufWriter::new(alloc, Vec::new(alloc)) {
        Ok(writer) => Ok(Output::new(writer)),
        Err(_) => Err(RowFault::Memory(AllocError)),
    }
}

/// What such a writer has sent of a reply.
fn sent_on(alloc: Global, reply: &Reply) -> Result<String, RowFault> {
    let mut sink = holding(alloc)?;
    let ended = write_reply(&mut sink, reply);
    words_of(alloc, ended, sink.into_inner().get_ref(), "")
}

pub fn sent(alloc: Global, text: &str) -> Result<String, RowFault> {
    sent_on(alloc, &reply_of(alloc, text)?)
}

/// What such a writer has sent of three pieces.
pub fn pieces_sent(alloc: Global, flushes: bool) -> Result<String, RowFault> {
    let mut sink = holding(alloc)?;
    let mut ended = write_pieces(&mut sink, &[b"ab", b"", b"c"]);
    if flushes && ended.is_ok() {
        ended = flush(&mut sink);
    }
    words_of(alloc, ended, sink.into_inner().get_ref(), "")
}

/// The bytes of a response that shares the body, and is then dropped.
fn shared_bytes(alloc: Global, body: &Piece) -> Result<Vec<u8>, RowFault> {
    let shared = Segments::from_piece(alloc, body.share()?);
    let made = Response::new(alloc, 200).with_body(shared);
    Ok(gathered(alloc, &made.body)?)
}

/// A body, and whether another owner still has it when the response that shares it is gone.
pub fn shared(alloc: Global, text: &[u8]) -> Result<String, RowFault> {
    let body = Piece::copied(alloc, text)?;
    let bytes = shared_bytes(alloc, &body)?;
    let mark = if bytes_of(&body) == bytes.as_slice() {
        " shared"
    } else {
        ""
    };
    words_of(alloc, Ok(()), bytes.as_slice(), mark)
}

pub fn refused(alloc: Global, rows: &Messages) -> Result<String, RowFault> {
    let reply = Reply {
        response: Response::refused(alloc, 404, "no such path\n")?,
        bare: false,
        closes: false,
    };
    told(alloc, rows, &reply)
}

pub fn lost(alloc: Global, rows: &Messages) -> Result<String, RowFault> {
    let reply = Reply {
        response: Response::out_of_memory(alloc),
        bare: false,
        closes: false,
    };
    told(alloc, rows, &reply)
}
