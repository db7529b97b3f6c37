//! A book and a journal, and the calls of the rows.
ghost use Rattle.up_events.specs.declared.limits.TheConstants.{MAX_UPLOAD_BYTES};
ghost use Rattle.up_headers.specs.Table.{FitsWithin};

use crate::calls::lines::{Lines, MAX_CALLS};
use crate::calls::messages::{id_of, message_of, number_of, out_of_memory, request_in};
use crate::calls::words::{push_book, push_journal, push_pairs, push_plan, push_request};
use crate::text::push_response;
use std::alloc::{AllocError, Global};
use std::fmt::Write;
use std::io;
use std::sync::Wait;
use up_events::{Accepted, Id, Journal, Kind, MAX_UPLOAD_BYTES};
use up_headers::{HeaderFault, MetadataFault, Pairs, Request, pairs_of, request_of};
use up_machine::{Asked, Book, Done, Plan, Refusal, Remains};
use up_queue::{Item, QueueFault, compare, lane_queue};

/// A book and a journal, each of two lanes, and the lines of the last call.
#[derive(Drop)]
pub struct Bench {
    book: Book,
    journal: Journal,
    pub lines: Lines,
}

/// The state of a book and a journal.
fn push_all(words: &mut String, book: &Book, journal: &Journal) -> Result<(), AllocError> {
    words.push_str("book ")?;
    push_book(words, book)?;
    words.push_str(" | journal ")?;
    push_journal(words, journal)
}

// Each of these adds a result as text, and returns whether memory ran out.

fn push_read(words: &mut String, read: &Result<Pairs, MetadataFault>) -> io::Result<bool> {
    match read {
        Ok(pairs) => push_pairs(words, pairs)?,
        Err(fault) => write!(words, "{fault}")?,
    }
    Ok(matches!(read, Err(MetadataFault::NoMemory)))
}

fn push_asked(words: &mut String, asked: &Result<Request, HeaderFault>) -> io::Result<bool> {
    match asked {
        Ok(request) => push_request(words, request)?,
        Err(fault) => write!(words, "{fault}")?,
    }
    Ok(matches!(asked, Err(HeaderFault::NoMemory)))
}

fn push_planned(words: &mut String, planned: &Result<Plan, Refusal>) -> io::Result<bool> {
    match planned {
        Ok(plan) => push_plan(words, plan)?,
        Err(refusal) => write!(words, "{refusal}")?,
    }
    Ok(matches!(planned, Err(Refusal::NoMemory)))
}

fn push_done(words: &mut String, done: &Result<Done, Refusal>) -> io::Result<bool> {
    match done {
        Ok(done) => push_response(words, &done.response)?,
        Err(refusal) => write!(words, "{refusal}")?,
    }
    Ok(matches!(done, Err(Refusal::NoMemory)))
}

// Each of these makes a call, adds its result as text, and returns whether memory ran out.

fn pairs(words: &mut String, alloc: Global, text: &str) -> io::Result<bool> {
    let read = pairs_of(alloc, text.as_bytes());
    push_read(words, &read)
}

fn request(words: &mut String, alloc: Global, row: &str) -> io::Result<bool> {
    let asked = request_of(alloc, message_of(alloc, row)?, MAX_UPLOAD_BYTES);
    push_asked(words, &asked)
}

fn queue(words: &mut String, rt: &impl Wait, alloc: Global, word: &str) -> io::Result<bool> {
    match lane_queue(alloc, number_of(word)?) {
        Ok((mut put_end, mut take_end)) => {
            let put = put_end.put(rt, Item::End).is_ok();
            let taken = take_end.take(rt);
            let left = compare(put_end, take_end);
            write!(words, "put {put}, taken {taken:?}, left {left}")?;
            Ok(false)
        }
        Err(fault) => {
            write!(words, "{fault}")?;
            Ok(fault == QueueFault::NoMemory)
        }
    }
}

fn note(words: &mut String, journal: &mut Journal, word: &str) -> io::Result<bool> {
    let id = id_of(number_of(word)?);
    if journal.knows(id) {
        words.push_str("there")?;
        return Ok(false);
    }
    let noted = journal.note(Accepted::Created {
        id,
        length: Some(0),
        kind: Kind::Plain,
    });
    match &noted {
        Ok(added) => write!(words, "{added:?}")?,
        Err(fault) => write!(words, "{fault}")?,
    }
    Ok(noted.is_err())
}

fn plan(words: &mut String, book: &Book, alloc: Global, row: &str) -> io::Result<bool> {
    let request = request_in(alloc, row)?;
    push_planned(words, &book.plan(alloc, &request))
}

fn commit(words: &mut String, book: &mut Book, alloc: Global, row: &str) -> io::Result<bool> {
    let (number, row) = row.split_once(' ').unwrap_or((row, ""));
    let id = id_of(number_of(number)?);
    let done = committed(book, alloc, id, request_in(alloc, row)?);
    push_done(words, &done)
}

/// Commits a request of which the closures allow everything.
fn committed(book: &mut Book, alloc: Global, id: Id, request: Request) -> Result<Done, Refusal>
    requires { FitsWithin MAX_UPLOAD_BYTES request }
{
    book.commit(
        alloc,
        request,
        id,
        &Asked::AllowedFinish,
        &mut Remains::new(),
    )
}

impl Bench {
    pub fn new(alloc: Global) -> io::Result<Bench> {
        let lines = Lines::new(alloc)?;
        let Ok(book) = Book::new(alloc, 2, MAX_UPLOAD_BYTES) else {
            return Err(out_of_memory());
        };
        match Journal::new(alloc, 2) {
            Ok(journal) => Ok(Bench {
                book,
                journal,
                lines,
            }),
            Err(_) => Err(out_of_memory()),
        }
    }

    /// Makes a call, and adds its result as text. Returns whether memory ran out.
    fn make(&mut self, rt: &impl Wait, alloc: Global, name: &str, given: &str) -> io::Result<bool> {
        let words = &mut self.lines.called;
        match name {
            "pairs_of" => pairs(words, alloc, given),
            "request_of" => request(words, alloc, given),
            "lane_queue" => queue(words, rt, alloc, given),
            "note" => note(words, &mut self.journal, given),
            "plan" => plan(words, &self.book, alloc, given),
            _ => commit(words, &mut self.book, alloc, given),
        }
    }

    /// Makes a call and prints it. Returns whether memory ran out.
    fn call(
        &mut self,
        rt: &(impl Print + Wait),
        alloc: Global,
        name: &str,
        given: &str,
    ) -> io::Result<bool> {
        self.lines.begin(name, given)?;
        push_all(&mut self.lines.before, &self.book, &self.journal)?;
        let refused = self.make(rt, alloc, name, given)?;
        push_all(&mut self.lines.after, &self.book, &self.journal)?;
        self.lines.tell(rt, refused)?;
        Ok(refused)
    }

    /// Makes a call until memory does not run out.
    pub fn call_on(
        &mut self,
        rt: &(impl Print + Wait),
        alloc: Global,
        name: &str,
        given: &str,
    ) -> io::Result<()> {
        for _ in 0..MAX_CALLS {
            if !self.call(rt, alloc, name, given)? {
                return Ok(());
            }
        }
        Err(out_of_memory())
    }
}
