//! Results and states as text.
use crate::calls::messages::id_of;
use crate::text::{
    bytes_of, push_escaped, push_in_brackets, push_pair, push_pieces, push_response, push_runs,
};
use std::alloc::AllocError;
use std::fmt::Write;
use up_dispatch::Report;
use up_events::Journal;
use up_headers::{Pairs, Request};
use up_hooks::Recorder;
use up_lanes::How;
use up_machine::{Ask, Book, Plan, View};

/// The ids in the rows are the numbers below this one.
const ID_COUNT: u64 = 10;

/// A journal of two lanes, as "ids 1 2; changes 4; events 3 2".
pub fn push_journal(words: &mut String, journal: &Journal) -> Result<(), AllocError> {
    words.push_str("ids")?;
    for number in 0..ID_COUNT {
        if journal.knows(id_of(number)) {
            write!(words, " {number}")?;
        }
    }
    let changes = journal.accepted().len();
    let (even, odd) = (journal.log_len(0), journal.log_len(1));
    write!(words, "; changes {changes}; events {even} {odd}")
}

/// An upload, as "1 Plain 3/Some(5) [abc]; ".
fn push_upload(words: &mut String, number: u64, view: &View) -> Result<(), AllocError> {
    let (kind, offset, length) = (view.kind, view.offset, view.length);
    write!(words, "{number} {kind:?} {offset}/{length:?} [")?;
    push_runs(words, view.runs)?;
    push_pieces(words, view.pieces)?;
    push_escaped(words, view.tail)?;
    words.push_str("]; ")
}

/// A book, as "open; 1 Plain 3/Some(5) [abc]; ids 1 2; ..": whether it is open, each upload with its number, kind,
/// offset, length and bytes, and the journal.
pub fn push_book(words: &mut String, book: &Book) -> Result<(), AllocError> {
    let word = if book.is_closed() {
        "closed; "
    } else {
        "open; "
    };
    words.push_str(word)?;
    for number in 0..ID_COUNT {
        if let Some(view) = book.upload(id_of(number)) {
            push_upload(words, number, &view)?;
        }
    }
    push_journal(words, book.journal())
}

/// Pairs, as "[name=ab; key=; ]".
pub fn push_pairs(words: &mut String, pairs: &Pairs) -> Result<(), AllocError> {
    words.push_str("[")?;
    for (key, value) in pairs.as_slice() {
        push_pair(words, key.as_slice(), "=", value.as_slice())?;
        words.push_str("; ")?;
    }
    words.push_str("]")
}

/// What a message asks for.
pub fn push_request(words: &mut String, request: &Request) -> Result<(), AllocError> {
    match request {
        Request::Options => words.push_str("options"),
        Request::Create(new) => {
            let (kind, length, parts) = (new.kind, new.length, new.parts.as_slice());
            write!(words, "create {kind:?} {length:?} of {parts:?} ")?;
            push_pairs(words, &new.pairs)
        }
        Request::Patch(patch) => {
            let (id, offset) = (patch.id, patch.offset);
            write!(words, "patch {id:?} at {offset:?} ")?;
            push_in_brackets(words, bytes_of(&patch.bytes))
        }
        Request::Head(id) => write!(words, "head {id:?}"),
        Request::Get(id) => write!(words, "get {id:?}"),
        Request::Delete(id) => write!(words, "delete {id:?}"),
    }
}

/// The question for closures, as "ask Create None 0/Some(5) [name=ab; ]": point, target, offset and length, and pairs.
fn push_ask(words: &mut String, ask: &Ask) -> Result<(), AllocError> {
    let (point, target, offset, length) = (ask.point, ask.target, ask.offset, ask.length);
    write!(words, "ask {point:?} {target:?} {offset}/{length:?} ")?;
    push_pairs(words, &ask.pairs)
}

/// The plan of a request.
pub fn push_plan(words: &mut String, plan: &Plan) -> Result<(), AllocError> {
    match plan {
        Plan::Answer(response) => push_response(words, response),
        Plan::Ask(ask) => push_ask(words, ask),
        Plan::AskBoth(first, second) => {
            push_ask(words, first)?;
            words.push_str(", ")?;
            push_ask(words, second)
        }
        Plan::Ready => words.push_str("ready"),
    }
}

/// A post-hook that shows the events that it was handed.
pub trait ShownHook {
    /// Each event as ", Id(2) 1 post-create", with its upload and its number.
    fn push_events(&self, words: &mut String) -> Result<(), AllocError>;
}

impl<F> ShownHook for Recorder<F> {
    fn push_events(&self, words: &mut String) -> Result<(), AllocError> {
        for (event, _) in self.list() {
            let (id, number, hook) = (event.id, event.number, event.hook.name());
            write!(words, ", {id:?} {number} {hook}")?;
        }
        Ok(())
    }
}

/// A lane, as "; lane 0 Drained", with the events that its post-hook was handed.
pub fn push_lane(
    words: &mut String,
    lane: u64,
    how: How,
    hook: &impl ShownHook,
) -> Result<(), AllocError> {
    write!(words, "; lane {lane} {how:?}")?;
    hook.push_events(words)
}

/// A report.
pub fn push_report<H: ShownHook>(words: &mut String, report: &Report<H>) -> Result<(), AllocError> {
    write!(words, "accepted {}", report.accepted.len())?;
    for lane in &report.lanes {
        push_lane(words, lane.lane, lane.how, &lane.hook)?;
        write!(words, ", {} left", lane.left)?;
    }
    Ok(())
}
