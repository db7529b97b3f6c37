//! The results of reading messages, as text: "POST / Host: a; [body] close asked rest [GET]", if `100 Continue` was
//! sent and bytes are left unread; "cut POST / [bo]"; "3 BadFraming bare"; or "end".
use crate::rows::messages::Messages;
use crate::rows::messages::devices::{Drops, WaitingSink, WaitingSource};
use crate::rows::messages::no_files::NoFiles;
use crate::rows::row_fault::RowFault;
use crate::text::{bytes_of, push_escaped, push_in_brackets, push_pair};
use std::alloc::{AllocError, Global};
use std::cell::Cell;
use std::fmt::Write;
use std::io::BufReader;
use up_message::Message;
use up_wire::{Input, Limits, Source, Taken, read_message};

/// The maximum number of bytes of a body in these rows.
const LIMIT: u64 = 20;

/// What is written if the client waits for it.
const CONTINUE: &[u8] = b"HTTP/1.1 100 Continue\r\n\r\n";

fn push_if(words: &mut String, word: &str, stands: bool) -> Result<(), AllocError> {
    if stands {
        words.push_str(word)?;
    }
    Ok(())
}

fn push_message(words: &mut String, message: &Message) -> Result<(), AllocError> {
    words.push_str(message.method.as_str())?;
    words.push_str(" ")?;
    push_escaped(words, message.target.as_slice())?;
    for (name, value) in message.fields.as_slice() {
        words.push_str(" ")?;
        push_pair(words, name.as_slice(), ": ", value.as_slice())?;
        words.push_str(";")?;
    }
    words.push_str(" ")?;
    push_in_brackets(words, bytes_of(&message.body))?;
    push_if(words, " bare", message.bare)?;
    push_if(words, " close", message.close)
}

/// What was written meanwhile. With `at`, also how often the source had been asked when it was sent.
fn push_written(words: &mut String, sink: &WaitingSink, at: bool) -> Result<(), AllocError> {
    if sink.taken.is_empty() {
        return Ok(());
    }
    match sink.sent {
        Some(asks) if sink.taken.as_slice() == CONTINUE => {
            words.push_str(" asked")?;
            if at {
                write!(words, " at {asks}")?;
            }
            Ok(())
        }
        _ => {
            words.push_str(" wrote ")?;
            push_in_brackets(words, &sink.taken)
        }
    }
}

fn push_rest(words: &mut String, rest: &[u8]) -> Result<(), AllocError> {
    if !rest.is_empty() {
        words.push_str(" rest ")?;
        push_in_brackets(words, rest)?;
    }
    Ok(())
}

fn push_taken(words: &mut String, taken: &Taken) -> Result<(), AllocError> {
    match taken {
        Taken::Message(message) => push_message(words, message),
        Taken::Cut(message) => {
            words.push_str("cut ")?;
            push_message(words, message)
        }
        Taken::Fault { fault, bare } => {
            words.push_str(fault.text().trim_end())?;
            push_if(words, " bare", *bare)
        }
        Taken::End => words.push_str("end"),
    }
}

/// Adds what was read and what was written meanwhile, and returns whether a whole message was read.
fn push_read(
    words: &mut String,
    taken: &Taken,
    sink: &WaitingSink,
    at: bool,
) -> Result<bool, AllocError> {
    push_taken(words, taken)?;
    push_written(words, sink, at)?;
    Ok(matches!(taken, Taken::Message(_)))
}

/// Adds the result of a call of `read_message`, and returns whether it is a whole message.
fn read_one<R: Source>(
    alloc: Global,
    rows: &Messages,
    source: &mut R,
    asks: &Cell<u64>,
    at: bool,
    words: &mut String,
) -> Result<bool, AllocError> {
    let limits = Limits { max_body: LIMIT };
    let mut sink = WaitingSink::new(alloc, rows.room, rows.writes, asks);
    let taken = read_message(alloc, source, &mut sink, &mut NoFiles::new(), &limits);
    push_read(words, &taken, &sink, at)
}

/// Adds the results of `calls` calls of `read_message`, and returns whether the last is a whole message.
fn read_all<R: Source>(
    alloc: Global,
    rows: &Messages,
    source: &mut R,
    asks: &Cell<u64>,
    calls: usize,
    at: bool,
    words: &mut String,
) -> Result<bool, AllocError> {
    let mut is_whole = false;
    for call in 0..calls {
        push_if(words, " | ", call > 0)?;
        is_whole = read_one(alloc, rows, source, asks, at, words)?;
    }
    Ok(is_whole)
}

/// The result of reading byte by byte. With `all`, it includes what a fault leaves unread, and when `100 Continue` was
/// sent.
pub fn by_bytes(
    alloc: Global,
    rows: &Messages,
    input: &[u8],
    fails: bool,
    calls: usize,
    all: bool,
) -> Result<String, RowFault> {
    let mut words = String::new(alloc);
    let asks = Cell::new(0);
    let mut source = WaitingSource::new(input, fails, rows.reads, &asks);
    let is_whole = read_all(alloc, rows, &mut source, &asks, calls, all, &mut words)?;
    if is_whole || all {
        push_rest(&mut words, source.bytes)?;
    }
    Ok(words)
}

/// The result of reading a slice.
fn by_slice(
    alloc: Global,
    rows: &Messages,
    input: &[u8],
    calls: usize,
) -> Result<String, RowFault> {
    let mut words = String::new(alloc);
    let asks = Cell::new(0);
    let mut reader = input;
    let mut source = Input::new(&mut reader);
    if read_all(alloc, rows, &mut source, &asks, calls, false, &mut words)? {
        push_rest(&mut words, reader)?;
    }
    Ok(words)
}

/// The result of reading from a reader that returns one byte at a time.
fn by_drops(
    alloc: Global,
    rows: &Messages,
    input: &[u8],
    calls: usize,
) -> Result<String, RowFault> {
    let mut words = String::new(alloc);
    let asks = Cell::new(0);
    let Ok(reader) = BufReader::new(alloc, Drops { bytes: input }) else {
        return Err(RowFault::Memory(AllocError));
    };
    let mut source = Input::new(reader);
    if read_all(alloc, rows, &mut source, &asks, calls, false, &mut words)? {
        push_rest(&mut words, source.into_inner().get_ref().bytes)?;
    }
    Ok(words)
}

/// The texts of two ways of reading, or only one if they are the same.
fn joined(mut one: String, other: &str) -> Result<String, RowFault> {
    if one.as_str() != other {
        one.push_str(" or else ")?;
        one.push_str(other)?;
    }
    Ok(one)
}

/// The result of reading byte by byte, from a slice, and from a reader.
pub fn either_way(
    alloc: Global,
    rows: &Messages,
    input: &[u8],
    calls: usize,
) -> Result<String, RowFault> {
    let by_slice = by_slice(alloc, rows, input, calls)?;
    let by_drops = by_drops(alloc, rows, input, calls)?;
    let by_bytes = by_bytes(alloc, rows, input, false, calls, false)?;
    let both = joined(by_bytes, by_slice.as_str())?;
    joined(both, by_drops.as_str())
}

/// The result of reading if the input ends, and if a read fails.
pub fn at_both_ends(
    alloc: Global,
    rows: &Messages,
    input: &[u8],
    calls: usize,
) -> Result<String, RowFault> {
    let at_end = either_way(alloc, rows, input, calls)?;
    let where_it_fails = by_bytes(alloc, rows, input, true, calls, false)?;
    joined(where_it_fails, at_end.as_str())
}
