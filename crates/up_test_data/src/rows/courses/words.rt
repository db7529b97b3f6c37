//! The results and the state of a book, as text.
use crate::rows::row_fault::RowFault;
use crate::text::{
    push_escaped, push_fields, push_in_brackets, push_pieces, push_response, push_runs,
};
use std::alloc::{AllocError, Global};
use std::fmt::Write;
use up_events::{Accepted, Id};
use up_machine::{Ask, Book, Done, Plan, Refusal, View, response_of};

/// The ids in these rows are the numbers below this one.
const ID_COUNT: u64 = 10;

/// Adds the response to a request that is refused.
pub fn push_refusal(words: &mut String, alloc: Global, refusal: &Refusal) -> Result<(), RowFault> {
    let response = response_of(alloc, refusal)?;
    Ok(push_response(words, &response)?)
}

/// Adds the question for closures as "Create None Plain 0/Some(5) [name: ab; ]": point, target, kind, offset and
/// length, and pairs.
fn push_ask(words: &mut String, ask: &Ask) -> Result<(), AllocError> {
    let (point, target, kind, offset, length) = (
        ask.point, ask.target, ask.kind, ask.offset, ask.length,
    );
    write!(words, "{point:?} {target:?} {kind:?} {offset}/{length:?} [")?;
    push_fields(words, ask.pairs.as_slice())?;
    words.push_str("]")
}

/// Adds a plan: its response, its questions, or "Ready".
fn push_plan(words: &mut String, plan: &Plan) -> Result<(), AllocError> {
    match plan {
        Plan::Answer(response) => push_response(words, response),
        Plan::Ask(ask) => push_ask(words, ask),
        Plan::AskBoth(first, second) => {
            push_ask(words, first)?;
            words.push_str(", ")?;
            push_ask(words, second)
        }
        Plan::Ready => words.push_str("Ready"),
    }
}

/// Adds the plan of a request, or the response if it is refused.
pub fn push_planned(
    words: &mut String,
    alloc: Global,
    planned: &Result<Plan, Refusal>,
) -> Result<(), RowFault> {
    match planned {
        Ok(plan) => Ok(push_plan(words, plan)?),
        Err(refusal) => push_refusal(words, alloc, refusal),
    }
}

/// Adds the response to a request.
pub fn push_done(
    words: &mut String,
    alloc: Global,
    decided: &Result<Done, Refusal>,
) -> Result<(), RowFault> {
    match decided {
        Ok(done) => Ok(push_response(words, &done.response)?),
        Err(refusal) => push_refusal(words, alloc, refusal),
    }
}

/// The change of a request, if any.
pub fn change_of(decided: &Result<Done, Refusal>) -> Option<Accepted> {
    match decided {
        Ok(done) => done.change,
        Err(_) => None,
    }
}

/// Adds a text of an upload in brackets, or a dash if there is none.
fn push_text(words: &mut String, text: Option<&[u8]>) -> Result<(), AllocError> {
    words.push_str(" ")?;
    push_in_brackets(words, text.unwrap_or(b"-".as_slice()))
}

/// Adds an upload as "1 Plain 3/Some(5) [abc] [name YWI=] [-]; ": number, kind, offset and length, bytes, metadata and
/// concat.
fn push_upload(words: &mut String, number: u64, view: &View) -> Result<(), AllocError> {
    let (kind, offset, length) = (view.kind, view.offset, view.length);
    write!(words, "{number} {kind:?} {offset}/{length:?} [")?;
    push_runs(words, view.runs)?;
    push_pieces(words, view.pieces)?;
    push_escaped(words, view.tail)?;
    words.push_str("]")?;
    push_text(words, view.metadata)?;
    push_text(words, view.concat)?;
    words.push_str("; ")
}

/// Adds the uploads that exist, and the numbers of those that were removed.
pub fn push_uploads(words: &mut String, book: &Book) -> Result<(), AllocError> {
    for number in 0..ID_COUNT {
        let id = Id::new(u128::from(number));
        if let Some(view) = book.upload(id) {
            push_upload(words, number, &view)?;
        } else if book.journal().knows(id) {
            write!(words, "{number} gone; ")?;
        }
    }
    Ok(())
}

/// Adds the changes.
pub fn push_changes(words: &mut String, book: &Book) -> Result<(), AllocError> {
    for change in book.journal().accepted() {
        write!(words, "{change:?}; ")?;
    }
    Ok(())
}

/// Adds the events of a lane, each as "ID NUMBER HOOK OFFSET/LENGTH; ".
pub fn push_events(
    words: &mut String,
    alloc: Global,
    book: &Book,
    lane: u64,
) -> Result<(), RowFault> {
    for event in book.journal().lane_log(alloc, lane)? {
        let (id, number, hook) = (event.id, event.number, event.hook.name());
        let (offset, length) = (event.offset, event.length);
        write!(words, "{id:?} {number} {hook} {offset}/{length:?}; ")?;
    }
    Ok(())
}

/// Adds the whole state of a book.
pub fn push_state(words: &mut String, alloc: Global, book: &Book) -> Result<(), RowFault> {
    push_uploads(words, book)?;
    push_changes(words, book)?;
    push_events(words, alloc, book, 0)?;
    push_events(words, alloc, book, 1)
}

/// The whole state of a book.
pub fn state(alloc: Global, book: &Book) -> Result<String, RowFault> {
    let mut words = String::new(alloc);
    push_state(&mut words, alloc, book)?;
    Ok(words)
}
