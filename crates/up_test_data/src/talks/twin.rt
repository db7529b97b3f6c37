//! The result of a talk with a book alone, without a board or threads.
use std::alloc::{AllocError, Global};
use std::sync::Wait;
use up_dispatch::{Counting, Exchange, converse_by_book};
use up_hooks::PreHooks;
use up_machine::Book;
use up_wire::{Input, Output};
use up_words::Settings;

/// The replies of a book that is lent to one conversation, with ids counted from 1.
fn replies<T: Wait>(
    rt: &T,
    alloc: Global,
    book: &mut Book,
    hooks: &PreHooks,
    settings: &Settings,
    asked: &[u8],
) -> Vec<u8> {
    let mut source = Input::new(asked);
    let mut sink = Output::new(Vec::new(alloc));
    let mut ids = Counting::new();
    let mut exchange = Exchange {
        ids: &mut ids,
        source: &mut source,
        sink: &mut sink,
        client: None,
    };
    converse_by_book(rt, alloc, book, hooks, settings.max_size, &mut exchange);
    sink.into_inner()
}

/// Adds the line of a report with the number of changes that the book accepted.
fn put_count(alloc: Global, text: &mut Vec<u8>, book: &Book) -> Result<(), AllocError> {
    let count = book.journal().accepted().len();
    text.extend_from_slice(format!(in alloc; "\naccepted {count}\n")?.as_bytes())
}

/// The replies of a book, followed by the line of a report with the number of changes that it accepted.
pub fn replies_of_book<T: Wait>(
    rt: &T,
    alloc: Global,
    hooks: &PreHooks,
    settings: &Settings,
    asked: &[u8],
) -> Result<Vec<u8>, AllocError> {
    let mut book = Book::new(alloc, settings.lanes, settings.max_size).map_err(|_| AllocError)?;
    let mut text = replies(rt, alloc, &mut book, hooks, settings, asked);
    put_count(alloc, &mut text, &book)?;
    Ok(text)
}
