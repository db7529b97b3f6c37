//! Readers and writers of std as devices.
use crate::rows::row_fault::RowFault;
use crate::text::{push_in_brackets, put_bytes};
use std::alloc::{AllocError, Global};
use std::fmt::Write as _;
use std::io::{self, BufReader, ErrorKind, Read, Write};
use up_wire::{Input, Output, ReadSome, Sink, Source};

/// At each call, returns or takes a number of bytes, is interrupted, or fails, according to the next letter, and does
/// nothing after the last letter.
#[derive(Drop)]
struct Turns<'a> {
    turns: &'a [u8],
}

impl<'a> Turns<'a> {
    /// The number of bytes that this call returns or takes.
    fn turn(&mut self) -> io::Result<usize> {
        let Some((turn, rest)) = self.turns.split_first() else {
            return Ok(0);
        };
        self.turns = rest;
        match turn {
            b'i' => Err(io::Error::from(ErrorKind::Interrupted)),
            b'f' => Err(io::Error::from(ErrorKind::BrokenPipe)),
            digit => Ok(usize::from(digit.saturating_sub(b'0'))),
        }
    }
}

impl<'a> Read for Turns<'a> {
    fn read(&mut self, buf: &mut [u8]) -> io::Result<usize> {
        let count = self.turn()?.min(buf.len());
        buf[..count].fill(b'x');
        Ok(count)
    }
}

impl<'a> Write for Turns<'a> {
    fn write(&mut self, buf: &[u8]) -> io::Result<usize> {
        Ok(self.turn()?.min(buf.len()))
    }

    fn flush(&mut self) -> io::Result<()> {
        Ok(())
    }
}

/// Adds the result of a read, and the bytes that it moved.
fn push_moved(words: &mut String, run: ReadSome, bytes: &[u8]) -> Result<(), AllocError> {
    write!(words, "{run:?} ")?;
    push_in_brackets(words, bytes)?;
    words.push_str(" ")
}

/// Adds what a source returns if it is asked for at most three bytes.
fn push_run<R: Source>(
    alloc: Global,
    source: &mut R,
    in_line: bool,
    words: &mut String,
) -> Result<(), AllocError> {
    if in_line {
        let mut into = Vec::with_capacity(alloc, 8)?;
        let run = source.take_in_line(&mut into, 3);
        return push_moved(words, run, &into);
    }
    let mut into = [0; 3];
    let run = source.take_into(&mut into);
    let moved = if let ReadSome::Moved(count) = run {
        count
    } else {
        0
    };
    push_moved(words, run, &into[..moved])
}

/// Adds what a source returns for these steps.
fn push_steps<R: Source>(
    alloc: Global,
    source: &mut R,
    steps: &str,
    words: &mut String,
) -> Result<(), AllocError> {
    for step in steps.split(' ') {
        if step == "byte" {
            let byte = source.next_byte();
            write!(words, "{byte:?} ")?;
        } else {
            push_run(alloc, source, step == "line", words)?;
        }
    }
    Ok(())
}

/// Adds what a slice as a source returns for these steps, and what is left of the slice.
fn push_slice(
    alloc: Global,
    mut reader: &[u8],
    steps: &str,
    words: &mut String,
) -> Result<(), AllocError> {
    push_steps(alloc, &mut Input::new(&mut reader), steps, words)?;
    words.push_str("rest ")?;
    push_in_brackets(words, reader)
}

/// What a slice as a source returns, and what is left of the slice.
pub fn of_slice(alloc: Global, text: &str) -> Result<String, RowFault> {
    let (steps, text) = text.split_once(" : ").unwrap_or(("", text));
    let mut bytes = Vec::new(alloc);
    put_bytes(&mut bytes, text)?;
    let mut words = String::new(alloc);
    push_slice(alloc, bytes.as_slice(), steps, &mut words)?;
    Ok(words)
}

/// What a reader as a source returns.
pub fn of_reader(alloc: Global, text: &str) -> Result<String, RowFault> {
    let (steps, turns) = text.split_once(" : ").unwrap_or(("", text));
    let turns = Turns {
        turns: turns.as_bytes(),
    };
    let Ok(reader) = BufReader::new(alloc, turns) else {
        return Err(RowFault::Memory(AllocError));
    };
    let mut words = String::new(alloc);
    push_steps(alloc, &mut Input::new(reader), steps, &mut words)?;
    words.push_str("told")?;
    Ok(words)
}

/// What a writer as a sink returns for five writes of two bytes and one of none.
pub fn of_writer(alloc: Global, turns: &str) -> Result<String, RowFault> {
    let mut sink = Output::new(Turns {
        turns: turns.as_bytes(),
    });
    let mut words = String::new(alloc);
    for _ in 0..5 {
        let took = sink.write_some(b"ab");
        write!(words, "{took:?} ")?;
    }
    let took = sink.write_some(b"");
    write!(words, "{took:?}")?;
    Ok(words)
}
