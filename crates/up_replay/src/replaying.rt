//! Committing the entries of a log again.
ghost use Rattle.std.specs.Prelude.{◌≡◌, IfOk, OnOk, OnErr, List, ℕ, take, IsTrue, ◌↔◌};
ghost use Rattle.up_headers.specs.Table.{FitsWithin};
ghost use Rattle.up_replay.specs.Replay.{asked_of, replayed, replayed_one};

use std::alloc::Global;
use thiserror::Error;
use up_events::MAX_UPLOAD_BYTES;
use up_headers::Request;
use up_log::{Consent, Entry};
use up_machine::{Asked, Book, Refusal, Remains};
use up_message::Sequence;

/// Why entries cannot be committed again.
#[derive(Clone, Copy, Debug, PartialEq, Eq, Error)]
pub enum Unreplayed {
    /// Memory ran out. More memory, or a smaller log, helps.
    #[error("out of memory")]
    Memory,
    /// An upload to be created is longer than any upload may be: no server wrote this log.
    #[error("an upload of the log is longer than any may be")]
    TooLong,
}

/// What the closures said, in the form that a commit takes.
pub fn asked_of(consent: Consent) -> Asked
    ensures { result ≡ asked_of consent }
{
    match consent {
        Consent::Skipped => Asked::Skipped,
        Consent::Allowed => Asked::Allowed,
        Consent::AllowedFinish => Asked::AllowedFinish,
    }
}

/// Whether a server may receive this request: it does not create an upload that is longer than any upload may be.
pub fn fits(request: &Request) -> bool
    ensures { IsTrue result ↔ FitsWithin MAX_UPLOAD_BYTES request.now }
{
    match request {
        Request::Create(new) => match new.length {
            Some(length) => length <= MAX_UPLOAD_BYTES,
            None => true,
        },
        _ => true,
    }
}

/// Commits an entry that fits again. If the commit is refused now, it was refused before, too. What the request leaves
/// over goes into `remains`.
fn commit_again(
    alloc: Global,
    book: &mut Book,
    entry: Entry,
    remains: &mut Remains,
) -> Result<(), Unreplayed>
    requires fits { FitsWithin MAX_UPLOAD_BYTES entry.request }
    ensures ok { OnOk result (book.new ≡ replayed_one book.old entry) }
    ensures err { OnErr result (book.new ≡ book.old) }
{
    let asked = asked_of(entry.consent);
    match book.commit(alloc, entry.request, entry.id, &asked, remains) {
        Err(Refusal::NoMemory) => Err(Unreplayed::Memory),
        _ => Ok(()),
    }
}

/// Commits an entry again, unless it does not fit.
fn replay_one(alloc: Global, book: &mut Book, entry: Entry) -> Result<(), Unreplayed>
    ensures ok { OnOk result (book.new ≡ replayed_one book.old entry) }
    ensures err { OnErr result (book.new ≡ book.old) }
{
    if fits(&entry.request) {
        commit_again(alloc, book, entry, &mut Remains::new())
    } else {
        Err(Unreplayed::TooLong)
    }
}

/// Commits the entries of a log again, in order. The book is then the one that they define, with the same uploads,
/// changes, events and refusals. An entry that is refused, such as a second creation with the same id, changes nothing.
pub fn replay(alloc: Global, book: &mut Book, entries: Sequence<Entry>) -> Result<(), Unreplayed>
    ensures { OnOk result (book.new ≡ replayed book.old entries) }
{
    let mut rest = entries.into_vec();
    rest.reverse();
    while let Some(entry) = rest.pop() {
        replay_one(alloc, book, entry)?;
    }
    Ok(())
}
