//! Rows of a course: a book, and a sequence of operations on it.
ghost use Rattle.up_events.specs.declared.limits.TheConstants.{MAX_UPLOAD_BYTES};
ghost use Rattle.up_headers.specs.Table.{FitsWithin};

mod requests;
mod words;
mod working;

use crate::rows::courses::requests::{asked_of, request_of, size_of};
use crate::rows::line::{cut, number_of};
use crate::rows::row_fault::RowFault;
use crate::text::{push_body, push_in_brackets};
use std::alloc::{AllocError, Global};
use std::fmt::Write;
use up_events::{Accepted, Added, Id, Journal, Kind};
use up_headers::Request;
use up_machine::{Asked, Book, Done, Plan, Reason, Refusal, Remains};
use up_message::Segments;

/// A book, what the closures say before each commit, and bytes from a response.
#[derive(Drop)]
pub struct Course {
    book: Book,
    asked: Asked,
    kept: Segments,
}

/// The id whose number is in a word.
fn id_of(word: &str) -> Result<Id, RowFault> {
    Ok(Id::new(u128::from(number_of(word)?)))
}

/// Whether a change is the last one of the journal, after `before` others.
fn is_last(book: &Book, change: Accepted, before: usize) -> bool {
    let changes = book.journal().accepted();
    changes.len() == before.saturating_add(1) && changes.last() == Some(&change)
}

/// Whether this text is a response.
fn is_response(words: &str) -> bool {
    matches!(words.as_bytes(), [b'0'..=b'9', ..])
}

/// Adds bytes in brackets, or "none".
fn push_bytes(words: &mut String, bytes: Option<&[u8]>) -> Result<(), AllocError> {
    match bytes {
        Some(bytes) => push_in_brackets(words, bytes),
        None => words.push_str("none"),
    }
}

/// The bytes that are given as numbers.
fn bytes_of(alloc: Global, numbers: &str) -> Result<Vec<u8>, RowFault> {
    let mut bytes = Vec::new(alloc);
    for number in numbers.split_ascii_whitespace() {
        match number.parse::<u8>() {
            Ok(byte) => bytes.push(byte)?,
            Err(_) => return Err(RowFault::Number),
        }
    }
    Ok(bytes)
}

/// Adds the reason with these bytes, which are given as numbers.
fn push_reason(words: &mut String, alloc: Global, numbers: &str) -> Result<(), RowFault> {
    let text = bytes_of(alloc, numbers)?;
    match &Reason::new(&text) {
        Some(reason) => Ok(push_bytes(words, Some(reason.bytes()))?),
        None => Ok(push_bytes(words, None)?),
    }
}

/// Notes a new upload without bytes, and adds the place of its events as "LANE FIRST COUNT; ". An upload that is known
/// is skipped.
fn push_place(words: &mut String, journal: &mut Journal, id: Id) -> Result<(), RowFault> {
    if !journal.knows(id) {
        let Added { lane, first, count } = journal.note(Accepted::Created {
            id,
            length: Some(0),
            kind: Kind::Plain,
        })?;
        write!(words, "{lane} {first} {count}; ")?;
    }
    Ok(())
}

/// Adds the places of the events of new uploads without bytes in a journal.
fn push_places(words: &mut String, alloc: Global, numbers: &str) -> Result<(), RowFault> {
    let mut journal = Journal::new(alloc, 2)?;
    for number in numbers.split_ascii_whitespace() {
        push_place(words, &mut journal, id_of(number)?)?;
    }
    Ok(())
}

/// Adds the value of a key in the question of a plan.
fn push_value(
    words: &mut String,
    planned: &Result<Plan, Refusal>,
    key: &str,
) -> Result<(), RowFault> {
    match planned {
        Ok(Plan::Ask(ask)) => Ok(push_bytes(words, ask.value(key.as_bytes()))?),
        Ok(_) => Err(RowFault::Text),
        Err(_) => Err(RowFault::Refused),
    }
}

/// The request of a row that begins with its number.
fn numbered(alloc: Global, row: &str) -> Result<Request, RowFault> {
    let (number, rest) = cut(row);
    request_of(alloc, id_of(number)?, rest)
}

/// Returns an error if the state of a book differs from the one before.
fn hold_unchanged(alloc: Global, book: &Book, before: &str) -> Result<(), RowFault> {
    if words::state(alloc, book)?.as_str() != before {
        return Err(RowFault::Changed);
    }
    Ok(())
}

impl Course {
    pub fn new(alloc: Global) -> Result<Self, RowFault> {
        Ok(Course {
            book: Book::new(alloc, 2, 1)?,
            asked: Asked::AllowedFinish,
            kept: Segments::new(alloc),
        })
    }

    /// Starts a new book, whose uploads have at most `size` bytes.
    fn begin(&mut self, alloc: Global, size: &str) -> Result<(), RowFault> {
        self.book = Book::new(alloc, 2, size_of(size)?)?;
        Ok(())
    }

    /// Adds the plan of a request.
    fn push_planned(&self, words: &mut String, alloc: Global, row: &str) -> Result<(), RowFault> {
        let request = numbered(alloc, row)?;
        words::push_planned(words, alloc, &self.book.plan(alloc, &request))
    }

    /// Adds the plan of a request. Checks that planning changes nothing.
    fn plan(&self, words: &mut String, alloc: Global, row: &str) -> Result<(), RowFault> {
        let before = words::state(alloc, &self.book)?;
        self.push_planned(words, alloc, row)?;
        hold_unchanged(alloc, &self.book, before.as_str())
    }

    /// Commits a request. What it leaves over is dropped.
    fn decide(&mut self, alloc: Global, request: Request, id: Id) -> Result<Done, Refusal>
        requires { FitsWithin MAX_UPLOAD_BYTES request }
    {
        let remains = &mut Remains::new();
        self.book.commit(alloc, request, id, &self.asked, remains)
    }

    /// Commits the request of a row, adds the response, and returns the change.
    fn push_decided(
        &mut self,
        words: &mut String,
        alloc: Global,
        row: &str,
    ) -> Result<Option<Accepted>, RowFault> {
        let (number, rest) = cut(row);
        let id = id_of(number)?;
        let decided = self.decide(alloc, request_of(alloc, id, rest)?, id);
        words::push_done(words, alloc, &decided)?;
        Ok(words::change_of(&decided))
    }

    /// Checks a change after `count` others, which must be the last of the journal. If there is none, the state must be
    /// the one before.
    fn hold_change(
        &self,
        alloc: Global,
        change: Option<Accepted>,
        count: usize,
        before: &str,
    ) -> Result<(), RowFault> {
        match change {
            Some(change) if is_last(&self.book, change, count) => Ok(()),
            Some(_) => Err(RowFault::NotLast),
            None => hold_unchanged(alloc, &self.book, before),
        }
    }

    /// Adds the result of a request. If there is a change, it must be the last of the journal; otherwise the book must
    /// be unchanged.
    fn commit(&mut self, words: &mut String, alloc: Global, row: &str) -> Result<(), RowFault> {
        let before = words::state(alloc, &self.book)?;
        let count = self.book.journal().accepted().len();
        let change = self.push_decided(words, alloc, row)?;
        self.hold_change(alloc, change, count, before.as_str())
    }

    /// Adds the result of a request. If the plan is a response, this must be the same.
    fn step(&mut self, words: &mut String, alloc: Global, row: &str) -> Result<(), RowFault> {
        let mut planned = String::new(alloc);
        self.plan(&mut planned, alloc, row)?;
        self.commit(words, alloc, row)?;
        if is_response(planned.as_str()) && words.as_str() != planned.as_str() {
            return Err(RowFault::OtherPlan);
        }
        Ok(())
    }

    /// Adds the value of a key in the first question about a request.
    fn value(&self, words: &mut String, alloc: Global, row: &str) -> Result<(), RowFault> {
        let (key, row) = row.split_once("] ").unwrap_or((row, ""));
        let key = key.strip_prefix("[").unwrap_or(key);
        let request = numbered(alloc, row)?;
        push_value(words, &self.book.plan(alloc, &request), key)
    }

    /// Keeps the bytes of an upload.
    fn keep(&mut self, alloc: Global, number: &str) -> Result<(), RowFault> {
        let id = id_of(number)?;
        let Done { response, .. } = self.decide(alloc, Request::Get(id), id)?;
        self.kept = response.body;
        Ok(())
    }

    /// Reads a line that says something about the following rows.
    pub fn set(&mut self, alloc: Global, line: &str) -> Result<(), RowFault> {
        let (word, rest) = cut(line);
        match word {
            "book" => self.begin(alloc, rest),
            "keep" => self.keep(alloc, rest),
            "close" => {
                self.book.close();
                Ok(())
            }
            "said" => {
                self.asked = asked_of(rest)?;
                Ok(())
            }
            _ => Err(RowFault::Mark),
        }
    }

    /// Adds what a mark that needs no request asks for. Returns whether there is such a mark.
    fn push_state(
        &self,
        words: &mut String,
        alloc: Global,
        word: &str,
        rest: &str,
    ) -> Result<bool, RowFault> {
        match word {
            "kept" => push_body(words, &self.kept)?,
            "uploads" => words::push_uploads(words, &self.book)?,
            "accepted" => words::push_changes(words, &self.book)?,
            "events" => words::push_events(words, alloc, &self.book, number_of(rest)?)?,
            _ => return Ok(false),
        }
        Ok(true)
    }

    /// Adds the result of a row.
    fn push_found(&mut self, words: &mut String, alloc: Global, row: &str) -> Result<(), RowFault> {
        let (word, rest) = cut(row);
        if self.push_state(words, alloc, word, rest)? {
            return Ok(());
        }
        match word {
            "plan" => self.plan(words, alloc, rest),
            "value" => self.value(words, alloc, rest),
            "reason" => push_reason(words, alloc, rest),
            "wanting" => words::push_refusal(words, alloc, &Refusal::NoMemory),
            "places" => push_places(words, alloc, rest),
            "fill" => working::push_filled(words, alloc, number_of(rest)?),
            "removals" => working::push_removed(words, alloc, number_of(rest)?),
            _ => self.step(words, alloc, row),
        }
    }

    /// The result of a row, as text.
    fn found(&mut self, alloc: Global, row: &str) -> Result<String, RowFault> {
        let mut words = String::new(alloc);
        self.push_found(&mut words, alloc, row)?;
        Ok(words)
    }

    /// The result of a row, as text, without spaces at the end.
    pub fn take(&mut self, alloc: Global, row: &str) -> Result<String, RowFault> {
        let found = self.found(alloc, row)?;
        Ok(String::from_str(alloc, found.trim_end())?)
    }
}
