//! A book that is lent, with counted ids: exactly what it decides is answered.
ghost use Rattle.std.specs.Prelude.{ℕ, ◌≤◌};
ghost use Rattle.up_headers.specs.declared.request.Request.{Request};
ghost use Rattle.up_hooks.specs.MayAnswer.{ClosuresMayAnswer};
ghost use Rattle.up_machine.specs.State.{State};
ghost use Rattle.up_message.specs.declared.response.Response.{Response};
ghost use Rattle.up_dispatch.specs.Answering.{Answered, KeeperState, Serves, keeper_state};
ghost use Rattle.up_dispatch.specs.ByBook.{GoesOn, IsAnsweredTo, IsOutcome};
ghost use Rattle.up_dispatch.specs.Counts.{CountsIds};
ghost use Rattle.up_dispatch.specs.Keepers.{by_book};
ghost use Rattle.up_dispatch.specs.Exchanges.{KeepsBorrows, stand_in};
ghost use Rattle.up_dispatch.specs.Turn.{Converses, ConversationState, no_disk};
ghost use Rattle.up_dispatch.specs.declared.ended.Ended.{Ended};

use crate::bodies::Bodies;
use crate::conversation::converse;
use crate::ended::{Ended, MAX_MESSAGES};
use crate::exchange::Exchange;
use crate::ids::Counting;
use crate::keeper::Lent;
use std::alloc::Global;
use std::sync::Wait;
use up_events::MAX_UPLOAD_BYTES;
use up_hooks::PreHooks;
use up_machine::Book;
use up_wire::{Sink, Source};

/// A law, which does nothing when it runs: the answer over a lent book is the book's decision, or memory ran out and
/// the book is unchanged.
pub fn lent_answer_is_exact(_hooks: &PreHooks)
    ensures { (s t : State) (request : Request) (id : ℕ) (response : Response)
        → Answered (by_book (ClosuresMayAnswer _hooks.now)) s request id response t
        → IsOutcome (ClosuresMayAnswer _hooks.now) s request id response t }
{}

/// A law, which does nothing when it runs: a conversation over a lent book with counted ids is decided by the book
/// alone. The book keeps its lanes, and its history grows at its end.
pub fn lent_conversation_is_exact(_hooks: &PreHooks)
    ensures turns { (max_size : ℕ) (old new : ConversationState (KeeperState State ℕ))
        (ended : Ended)
        → Converses no_disk (Serves (by_book (ClosuresMayAnswer _hooks.now)) CountsIds) max_size old
        new ended
        → Converses no_disk (IsAnsweredTo (ClosuresMayAnswer _hooks.now)) max_size old new ended }
    ensures goes_on { (max_size : ℕ) (old new : ConversationState (KeeperState State ℕ))
        (ended : Ended)
        → Converses no_disk (IsAnsweredTo (ClosuresMayAnswer _hooks.now)) max_size old new ended
        → GoesOn MAX_MESSAGES old.keeper_state new.keeper_state }
{}

/// Serves one conversation by a book alone, with ids that are counted from that of the exchange.
pub fn converse_by_book<R: Source, W: Sink, T: Wait>(
    rt: &T,
    alloc: Global,
    book: &mut Book,
    hooks: &PreHooks,
    max_size: u64,
    exchange: &mut Exchange<'_, Counting, R, W>,
) -> Ended
    requires small { max_size ≤ MAX_UPLOAD_BYTES }
    ensures turns { Converses no_disk (IsAnsweredTo (ClosuresMayAnswer hooks.now)) max_size
        (stand_in R.device W.device book.old exchange.old)
        (stand_in R.device W.device book.new exchange.new) result }
    ensures borrows { KeepsBorrows exchange.old exchange.new }
{
    lent_conversation_is_exact(hooks);
    let mut lent = Lent::new(book);
    let mut bodies = Bodies::in_memory(rt);
    converse(alloc, &mut lent, hooks, max_size, exchange, &mut bodies)
}
