//! Reading a chunked body.
ghost use Rattle.std.specs.Prelude.{◌<◌};
ghost use Rattle.httparse.specs.Grammar.{HasNoSection};
ghost use Rattle.up_wire.specs.Limits.{max_interruptions};
ghost use Rattle.up_wire.specs.Steps.{HasRead, IsBodyRead, HasBoundedBody, IsLineRead, IsByteRead, IsCrlfRead};
ghost use Rattle.up_wire.specs.Steps.{AreParsed, IsStopBehind, AreTrailersRead};

use crate::body::{BodyEnd, BodyRead, read_bytes};
use crate::device::Source;
use crate::framing::Framing;
use crate::head::MAX_FIELDS;
use crate::head_reader::MAX_HEAD;
use crate::line::{Line, is_line_end, take_line};
use crate::step::{Step, take_step};
use crate::wire_fault::WireFault;
use httparse::spans::{EMPTY_HEADER_SPAN, parse_headers};
use httparse::{Error, Status, parse_chunk_size};
use std::alloc::Global;

/// The maximum number of bytes of a chunk line, its CRLF included.
const MAX_LINE: usize = 256;

/// Reads the chunks, the last line and the trailers.
pub(crate) fn read_chunks<R: Source>(
    alloc: Global,
    source: &mut R,
    interruptions: &mut u32,
    limit: u64,
) -> BodyRead
    requires { interruptions.old < max_interruptions }
    ensures answer { HasRead (R.device source.old) (R.device source.new)
        interruptions.old interruptions.new
        (λ input ending. IsBodyRead limit Framing.Chunked input ending result) }
    ensures bounded { HasBoundedBody result }
{
    let mut body = Vec::new(alloc);
    let mut line = Vec::new(alloc);
    'chunks: loop {
        let size = match read_line(source, interruptions, &mut line) {
            Ok(size) => size,
            Err(stop) => return stop.into_body(body),
        };
        if size == 0 {
            if let Err(stop) = read_trailers(alloc, source, interruptions) {
                return stop.into_body(body);
            }
            return BodyRead::Whole(body);
        }
        let done = body.len() as u64;
        if size > limit - done {
            return BodyRead::Fault(WireFault::BodyTooLarge);
        }
        if let Err(stop) = read_bytes(source, interruptions, &mut body, done + size, limit) {
            return stop.into_body(body);
        }
        if let Err(stop) = read_crlf(source, interruptions) {
            return stop.into_body(body);
        }
    }
}

/// Reads a chunk line into `text`, which it clears first, and returns the size in the line.
fn read_line<R: Source>(
    source: &mut R,
    interruptions: &mut u32,
    text: &mut Vec<u8>,
) -> Result<u64, BodyEnd>
    requires { interruptions.old < max_interruptions }
    ensures { HasRead (R.device source.old) (R.device source.new)
        interruptions.old interruptions.new
        (λ input ending. IsLineRead input ending result) }
{
    text.clear();
    match take_line(source, interruptions, text, MAX_LINE) {
        Line::Whole => match parse_chunk_size(text) {
            Ok(Status::Complete((_, size))) => Ok(size),
            Ok(Status::Partial) => Err(BodyEnd::Bad),
            Err(_) => Err(BodyEnd::Bad),
        },
        Line::Full => Err(BodyEnd::Bad),
        Line::Ended => Err(BodyEnd::Ended),
        Line::Failed => Err(BodyEnd::Failed),
        Line::NoMemory => Err(BodyEnd::NoMemory),
    }
}

/// Reads the CRLF after a chunk.
fn read_crlf<R: Source>(source: &mut R, interruptions: &mut u32) -> Result<(), BodyEnd>
    requires { interruptions.old < max_interruptions }
    ensures { HasRead (R.device source.old) (R.device source.new)
        interruptions.old interruptions.new
        (λ input ending. IsCrlfRead input ending result) }
{
    match read_byte(source, interruptions, b'\r') {
        Ok(()) => read_byte(source, interruptions, b'\n'),
        Err(stop) => Err(stop),
    }
}

/// Reads this byte.
fn read_byte<R: Source>(source: &mut R, interruptions: &mut u32, wanted: u8) -> Result<(), BodyEnd>
    requires { interruptions.old < max_interruptions }
    ensures { HasRead (R.device source.old) (R.device source.new)
        interruptions.old interruptions.new
        (λ input ending. IsByteRead wanted input ending result) }
{
    match take_step(source, interruptions) {
        Step::Byte(byte) if byte == wanted => Ok(()),
        Step::Byte(_) => Err(BodyEnd::Bad),
        Step::Ended => Err(BodyEnd::Ended),
        Step::Failed => Err(BodyEnd::Failed),
    }
}

/// The state of a trailer section after the bytes so far.
#[derive(Clone, Copy)]
enum Trailers {
    Whole,
    Partial,
    Bad,
}

/// Parses a trailer section at the start of the bytes.
fn parse_trailers(text: &[u8]) -> Trailers
    ensures { AreParsed text.now result }
{
    let mut spans = [EMPTY_HEADER_SPAN; MAX_FIELDS];
    match parse_headers(text, &mut spans) {
        Ok(Status::Complete(_)) => Trailers::Whole,
        Ok(Status::Partial) => Trailers::Partial,
        Err(Error::TooManyHeaders) => Trailers::Bad,
        Err(_) => Trailers::Bad,
    }
}

/// Why trailers stopped after these whole lines: `stop`, or that the lines are malformed.
fn stop_behind(lines: &[u8], stop: BodyEnd) -> BodyEnd
    requires { HasNoSection lines.now }
    ensures { IsStopBehind lines.now stop result }
{
    match parse_trailers(lines) {
        Trailers::Whole => unreachable!(),
        Trailers::Partial => stop,
        Trailers::Bad => BodyEnd::Bad,
    }
}

/// Reads trailer fields and the empty line after them, and drops them. They are parsed after the first line, and after
/// each empty line, which is where they can be whole.
fn read_trailers<R: Source>(
    alloc: Global,
    source: &mut R,
    interruptions: &mut u32,
) -> Result<(), BodyEnd>
    requires { interruptions.old < max_interruptions }
    ensures { HasRead (R.device source.old) (R.device source.new)
        interruptions.old interruptions.new
        (λ input ending. AreTrailersRead input ending result) }
{
    let mut text = Vec::new(alloc);
    'lines: loop {
        let start = text.len();
        match take_line(source, interruptions, &mut text, MAX_HEAD) {
            Line::Whole => {
                if start == 0 || is_line_end(&text[start..]) {
                    match parse_trailers(&text) {
                        Trailers::Whole => return Ok(()),
                        Trailers::Partial => {}
                        Trailers::Bad => return Err(BodyEnd::Bad),
                    }
                }
            }
            Line::Full => return Err(BodyEnd::Bad),
            Line::Ended => return Err(stop_behind(&text[..start], BodyEnd::Ended)),
            Line::Failed => return Err(stop_behind(&text[..start], BodyEnd::Failed)),
            Line::NoMemory => return Err(BodyEnd::NoMemory),
        }
    }
}
