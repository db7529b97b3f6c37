//! Compares messages, responses and requests, courses of requests to a book, and command lines with the expected
//! results, which are rows of a text.
//!
//! A line that is empty or begins with `#` is ignored. Each other line is a mark with a text. A row also has an arrow
//! and, after it, the expected result. For each text, one line is printed: the number of rows, and how many of them
//! differ. Before it, there is a line for each row that differs, with its line number.
//!
//! For single messages, responses and requests:
//!
//! ```text
//! start TEXT                  the text of each row from here on begins with this
//! put TEXT                    the text of the next row continues with this, and ends with its own
//! times COUNT TEXT            like `put`, COUNT times
//! reads WAITS EACH            the source of the next row is interrupted WAITS times before its first byte,
//!                             and EACH times before every other byte
//! writes ROOM WAITS EACH      the sink of the next row has room for ROOM bytes, and is interrupted in the same way
//! end TEXT => ..              the messages read from one piece, byte by byte, and from a reader of single bytes; the
//!                             input ends after the text
//! fail TEXT => ..             the messages read byte by byte; a read fails after the text
//! both TEXT => ..             like `end`, and like `fail`
//! slow TEXT => ..             like `end`, but only byte by byte, and with everything that is left unread
//! count TEXT => ..            the number of messages read, of bytes in their bodies, and of pairs in their metadata
//! pass TEXT => ..             the sum of the text's bytes
//! slice STEPS : TEXT => ..    a slice as a source; each step is `byte`, `run` or `line`
//! reader STEPS : TURNS => ..  a reader that returns a number of bytes at each turn; `i` is an interruption, and `f`
//!                             a failure
//! writer TURNS => ..          five writes of two bytes to a writer with such turns, and one of none
//! respond STATUS FLAGS BODY => ..  what is written of a response: `b` if it is bare, `c` if it closes
//! sent STATUS FLAGS BODY => ..     what a buffered writer has then sent
//! pieces FLUSHES => ..        what it has sent of three pieces
//! shared TEXT => ..           a body that has another owner
//! refused => .. and lost => ..     the responses to a refused request, and when memory ran out
//! faults => ..                each fault, its status and its text
//! id TEXT => ..               the id with this text
//! metadata TEXT => ..         the pairs of a metadata text
//! request TEXT => ..          what a line with method and target, and a line for each field, ask for
//! ```
//!
//! If the expected result is split by ` | `, that many messages are read. A text has Rust's escapes of bytes: `\r`,
//! `\n`, `\t`, `\\`, `\'`, `\"` and `\xHH`.
//!
//! For a course of requests:
//!
//! ```text
//! book 11                     a new book with two lanes, whose uploads have at most 11 bytes
//! said allowed                what the closures say before each commit from here on; at first it is `finish`
//! close                       the book is closed
//! 1 plain 5 => 201 ..         a request with the id 1 is planned, and committed
//! plan 1 delete => ..         a request is only planned
//! uploads => ..               the uploads that exist, and the ids of those that were removed
//! accepted => ..              the changes
//! events 0 => ..              the events of a lane
//! places 1 2 => ..            the lane, the first place and the number of the events of these new uploads,
//!                             in a journal with two lanes
//! keep 1                      the bytes of the upload 1 are requested, and kept
//! kept => ..                  the bytes that were kept
//! value [name] 1 plain .. => ..    the value of a key in the question about a request
//! reason 120 32 => ..         the reason with these bytes
//! wanting => ..               the response when memory ran out
//! fill 1000 => ..             the number of accepted changes if 1000 uploads are created in a new book, and filled
//! removals 1000 => ..         the same if each is removed before the next one is created
//! ```
//!
//! The requests are `options`, `plain LENGTH METADATA`, `partial LENGTH`, `final PARTS CONCAT`, `head`, `get`,
//! `delete`, and `patch OFFSET BYTES LENGTH`, or `text` instead of `patch` for a wrong media type. A dash means that a
//! value is not sent.
//!
//! For command lines:
//!
//! ```text
//! words replay --keep => ..   what these words of a command line ask for, or `refused`
//! default => ..               what is asked for if nothing is said
//! ```
mod command_lines;
mod comparison;
mod courses;
mod gathered;
mod line;
mod messages;
mod row_fault;

use crate::rows::comparison::Rows;
use std::io;
use up_machine::{post_finish_is_asked, refusals_of_plans_are_kept};

/// Compares the row of a line, if it has one, with its expected result, and prints the difference. Returns whether
/// there is one.
fn hold_line(
    rt: &(impl Print + AllocGlobal),
    rows: &mut Rows,
    before: usize,
    line: &str,
) -> io::Result<bool> {
    let Some(found) = rows.fault_of(rt.alloc(), line)? else {
        return Ok(false);
    };
    println!(rt; "line {}: {found}", before.saturating_add(1))?;
    Ok(true)
}

/// Compares the rows with their expected results.
fn hold_all(rt: &(impl Print + AllocGlobal), rows: &mut Rows, text: &str) -> io::Result<()> {
    let (mut count, mut differing) = (0u64, 0u64);
    for (before, line) in text.lines().enumerate() {
        count = count.saturating_add(u64::from(line.contains(" =>")));
        let differs = hold_line(rt, rows, before, line)?;
        differing = differing.saturating_add(u64::from(differs));
    }
    println!(rt; "{count} rows, of which {differing} differ")
}

/// Compares the rows of a text with their expected results, and prints how many differ. If memory runs out before the
/// first row, that is printed instead. An error if nothing can be printed, or if memory runs out later.
pub fn hold_rows(rt: &(impl Print + AllocGlobal), text: &str) -> io::Result<()> {
    // Laws, which do nothing when they run.
    refusals_of_plans_are_kept();
    post_finish_is_asked();
    match Rows::new(rt.alloc()) {
        Ok(mut rows) => hold_all(rt, &mut rows, text),
        Err(fault) => println!(rt; "{fault}"),
    }
}
