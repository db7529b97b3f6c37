//! One conversation: each message is read, decided and answered before the next.
ghost use Rattle.std.specs.Prelude.{◌≡◌, ◌≤◌};
ghost use Rattle.up_hooks.specs.MayAnswer.{ClosuresMayAnswer};
ghost use Rattle.up_dispatch.specs.Answering.{Serves, TakesId, answers_with, keeper_state};
ghost use Rattle.up_dispatch.specs.Exchanges.{KeepsBorrows, facts_of, stand_in};
ghost use Rattle.up_dispatch.specs.Keeps.{keeping};
ghost use Rattle.up_dispatch.specs.Turn.{IsTurn, IsCutTurn, IsFaultSent, Converses, SendsShown, TakesTurn, unanswered};

use crate::answering::answer_about;
use crate::bodies::Bodies;
use crate::ended::{Ended, MAX_MESSAGES};
use crate::exchange::Exchange;
use crate::ids::Ids;
use crate::keeper::Keeper;
use crate::reply::{reply_to_header_fault, reply_to_wire_fault};
use std::alloc::Global;
use std::net::SocketAddr;
use up_events::{Id, MAX_UPLOAD_BYTES};
use up_headers::{Request, request_of};
use up_hooks::{Origin, PreHooks};
use up_message::{Message, Response};
use up_places::{Shelf, Spool};
use up_wire::{Limits, Sink, Source, Taken, WireFault, WriteFailed, read_message, write_response};

/// The id that a request takes: each creation the next one, and any other request 0.
fn id_for<I: Ids>(ids: &mut I, request: &Request) -> Id
    ensures { TakesId I.draws ids.old request.now result ids.new }
{
    match request {
        Request::Create(_) => ids.next_id(),
        _ => Id::new(0),
    }
}

/// What the closures see of a message: its head, if one of them wants that. If memory runs out they see nothing of it.
fn origin_of(
    alloc: Global,
    hooks: &PreHooks,
    message: &Message,
    client: Option<SocketAddr>,
) -> Origin {
    if hooks.see_requests()
        && let Ok(origin) = Origin::of(alloc, message, client)
    {
        return origin;
    }
    Origin::unknown(alloc)
}

/// What is answered to a message, after what it asks for was carried out.
fn answer_to<K: Keeper, I: Ids>(
    alloc: Global,
    keeper: &mut K,
    hooks: &PreHooks,
    ids: &mut I,
    message: Message,
    client: Option<SocketAddr>,
    max_size: u64,
) -> Response
    requires small { max_size ≤ MAX_UPLOAD_BYTES }
    ensures turn { IsTurn
        (Serves (keeping K.plans K.commits (ClosuresMayAnswer hooks.now)) I.draws) message max_size
        (keeper_state (K.state keeper.old) ids.old) (keeper_state (K.state keeper.new) ids.new)
        result }
    ensures lender { K.lender keeper.new ≡ K.lender keeper.old }
{
    let mut origin = origin_of(alloc, hooks, &message, client);
    match request_of(alloc, message, max_size) {
        Ok(request) => {
            let id = id_for(ids, &request);
            if let Request::Create(_) = &request {
                origin.id = Some(id);
            }
            answer_about(alloc, keeper, hooks, &origin, request, id)
        }
        Err(fault) => reply_to_header_fault(alloc, fault),
    }
}

/// Carries out an append whose body broke off, with the bytes that came. Any other message that broke off does nothing.
fn carry_out_cut<K: Keeper>(
    alloc: Global,
    keeper: &mut K,
    hooks: &PreHooks,
    message: Message,
    client: Option<SocketAddr>,
    max_size: u64,
)
    requires small { max_size ≤ MAX_UPLOAD_BYTES }
    ensures turn { IsCutTurn
        (answers_with (keeping K.plans K.commits (ClosuresMayAnswer hooks.now)) 0) message max_size
        (K.state keeper.old) (K.state keeper.new) }
    ensures lender { K.lender keeper.new ≡ K.lender keeper.old }
{
    let origin = origin_of(alloc, hooks, &message, client);
    match request_of(alloc, message, max_size) {
        Ok(Request::Patch(patch)) => {
            answer_about(
                alloc,
                keeper,
                hooks,
                &origin,
                Request::Patch(patch),
                Id::new(0),
            );
        }
        _ => {}
    }
}

/// How the conversation ended, if the fault has no answer.
fn unanswered(fault: WireFault) -> Option<Ended>
    ensures { result ≡ unanswered fault }
{
    match fault {
        WireFault::ReadFailed => Some(Ended::ReadFailed),
        WireFault::WriteFailed => Some(Ended::WriteFailed),
        _ => None,
    }
}

/// Writes a response. Bytes of its body that are not in memory are read from the shelf. Returns how the conversation
/// ended, if it did.
fn send<W: Sink, S: Shelf>(
    sink: &mut W,
    shelf: &mut S,
    response: &Response,
    bare: bool,
    close: bool,
) -> Option<Ended>
    ensures sent { SendsShown (facts_of S.is_true S.has_failed shelf.new)
        (W.device sink.old) (W.device sink.new) response.now bare close result }
    ensures stays { S.is_true shelf.new → S.is_true shelf.old }
{
    match write_response(sink, shelf, response, bare, close) {
        Ok(()) => { if close { Some(Ended::Closed) } else { None } }
        Err(WriteFailed) => Some(Ended::WriteFailed),
    }
}

/// Answers a message that can't be read, which closes the conversation. After a failed read or write nothing is
/// answered. Returns how the conversation ended.
fn answer_fault<W: Sink, S: Shelf>(
    alloc: Global,
    sink: &mut W,
    shelf: &mut S,
    fault: WireFault,
    bare: bool,
) -> Option<Ended>
    ensures sent { IsFaultSent (facts_of S.is_true S.has_failed shelf.new)
        (unanswered fault) fault bare (W.device sink.old) (W.device sink.new) result }
    ensures stays { S.is_true shelf.new → S.is_true shelf.old }
{
    match unanswered(fault) {
        Some(ended) => Some(ended),
        None => {
            let response = reply_to_wire_fault(alloc, fault);
            send(sink, shelf, &response, bare, true)
        }
    }
}

/// Reads a message and answers it. Returns how the conversation ended, if it did. A message that can't be read is
/// answered and closes the conversation. After a failed read or write, or if a body broke off, nothing is answered.
fn take_turn<K: Keeper, I: Ids, R: Source, W: Sink, S: Shelf, P: Spool>(
    alloc: Global,
    keeper: &mut K,
    hooks: &PreHooks,
    max_size: u64,
    exchange: &mut Exchange<'_, I, R, W>,
    bodies: &mut Bodies<S, P>,
    is_last: bool,
) -> Option<Ended>
    requires small { max_size ≤ MAX_UPLOAD_BYTES }
    ensures stays { S.is_true bodies.new.shelf → S.is_true bodies.old.shelf }
    ensures turn { TakesTurn (facts_of S.is_true S.has_failed bodies.new.shelf)
        (Serves (keeping K.plans K.commits (ClosuresMayAnswer hooks.now)) I.draws) max_size is_last
        (stand_in R.device W.device (K.state keeper.old) exchange.old)
        (stand_in R.device W.device (K.state keeper.new) exchange.new) result }
    ensures lender { K.lender keeper.new ≡ K.lender keeper.old }
    ensures borrows { KeepsBorrows exchange.old exchange.new }
{
    let limits = Limits { max_body: max_size };
    match read_message(
        alloc,
        exchange.source,
        exchange.sink,
        &mut bodies.spool,
        &limits,
    ) {
        Taken::End => Some(Ended::Closed),
        Taken::Cut(message) => {
            carry_out_cut(alloc, keeper, hooks, message, exchange.client, max_size);
            Some(Ended::Cut)
        }
        Taken::Fault { fault, bare } => answer_fault(
            alloc,
            exchange.sink,
            &mut bodies.shelf,
            fault,
            bare,
        ),
        Taken::Message(message) => {
            let bare = message.bare;
            let close = is_last | message.close;
            let client = exchange.client;
            let ids = &mut *exchange.ids;
            let response = answer_to(alloc, keeper, hooks, ids, message, client, max_size);
            send(exchange.sink, &mut bodies.shelf, &response, bare, close)
        }
    }
}

/// Serves the messages of an input in turn. The 10,000th is the last, and its answer closes the conversation; so does
/// the answer to a message that asks for it (RFC 9112, section 9.6), and to one of HTTP/1.0.
///
/// A body that the spool takes is put into it as it arrives, and the others are read into memory. The bytes of an upload
/// that are not in memory are read from the shelf.
pub fn converse<K: Keeper, I: Ids, R: Source, W: Sink, S: Shelf, P: Spool>(
    alloc: Global,
    keeper: &mut K,
    hooks: &PreHooks,
    max_size: u64,
    exchange: &mut Exchange<'_, I, R, W>,
    bodies: &mut Bodies<S, P>,
) -> Ended
    requires small { max_size ≤ MAX_UPLOAD_BYTES }
    ensures stays { S.is_true bodies.new.shelf → S.is_true bodies.old.shelf }
    ensures turns { Converses (facts_of S.is_true S.has_failed bodies.new.shelf)
        (Serves (keeping K.plans K.commits (ClosuresMayAnswer hooks.now)) I.draws) max_size
        (stand_in R.device W.device (K.state keeper.old) exchange.old)
        (stand_in R.device W.device (K.state keeper.new) exchange.new) result }
    ensures lender { K.lender keeper.new ≡ K.lender keeper.old }
    ensures borrows { KeepsBorrows exchange.old exchange.new }
{
    for turn in 0..MAX_MESSAGES {
        let is_last = turn + 1 == MAX_MESSAGES;
        if let Some(ended) = take_turn(alloc, keeper, hooks, max_size, exchange, bodies, is_last) {
            return ended;
        }
    }
    Ended::Closed
}
