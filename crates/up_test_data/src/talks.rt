//! Compares whole conversations with the server with the expected results.
//!
//! Each talk is served by `replay` with a server of its own, and has one line of output: its name and `same`, or
//! `differs` with the first line that differs from the expected one. It is served again by a book alone, without
//! threads, and is the same only if the replies and the number of accepted changes are. If a line cannot be read, this
//! is reported instead of all talks of its text.
//!
//! A line of input that is empty or begins with `#` is ignored. A talk begins with its name, and ends where the next
//! one begins:
//!
//! ```text
//! talk NAME           the name in the output
//! words WORD ..       the words of the command line after `replay`; without this line there are none
//! fault TEXT          the fault with which the run ends; without this line it ends without a fault
//! unread              everything asked from here on must be left unread
//! >> POST /files/     asked: a line with this method and target, `Host: a` and `Tus-Resumable: 1.0.0`
//! > TEXT              asked: a line, ended by CRLF
//! >. TEXT             asked: only the text
//! >* COUNT TEXT       asked: the text COUNT times
//! << 201 Created      wanted: a line with this status, `Tus-Resumable: 1.0.0` and `Cache-Control: no-store`
//! < TEXT              wanted: a line, ended by CRLF
//! <. TEXT             wanted: only the text
//! <* COUNT TEXT       wanted: the text COUNT times
//! | TEXT              wanted: a line, ended by LF
//! ```
//!
//! There is one space between a mark and its text. A text has Rust's escapes of bytes: `\r`, `\n`, `\t`, `\\`, `\'`,
//! `\"` and `\xHH`.
mod comparison;
mod line_fault;
mod reading;
mod serving;
mod talk;
mod twin;

use crate::talks::comparison::compare;
use crate::talks::reading::talks_of;
use crate::talks::serving::{Served, serve};
use crate::talks::talk::Talk;
use std::io;
use std::marker::Sync;
use std::sync::Wait;
use std::thread::Threads;

/// Prints how the result of a talk compares with the expected one.
fn tell(rt: &(impl Print + AllocGlobal), talk: &Talk, served: &Served) -> io::Result<()> {
    let comparison = compare(rt.alloc(), talk, served)?;
    let name = &talk.name;
    println!(rt; "{name}: {comparison}")
}

/// Serves a talk, and prints the comparison.
fn hold(rt: &(impl Print + AllocGlobal + Threads + Wait + Sync), mut talk: Talk) -> io::Result<()> {
    let words = talk.words.take().unwrap_or_default();
    let served = serve(rt, rt.alloc(), &words, &talk.asked)?;
    tell(rt, &talk, &served)
}

/// Serves the talks of a text in order, and prints how each compares with its expected result. If a line cannot be
/// read, this is printed instead. An error if nothing can be printed, or if memory runs out.
pub fn hold_talks(
    rt: &(impl Print + AllocGlobal + Threads + Wait + Sync),
    text: &str,
) -> io::Result<()> {
    match talks_of(rt.alloc(), text) {
        Ok(talks) => {
            for talk in talks {
                hold(rt, talk)?;
            }
            Ok(())
        }
        Err(bad) => println!(rt; "{bad}"),
    }
}
