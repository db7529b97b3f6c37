//! How the conversations of a server are served.
ghost use Rattle.std.specs.Prelude.{◌≡◌, []};
ghost use Rattle.up_hooks.specs.MayAnswer.{ClosuresMayAnswer};
ghost use Rattle.up_dispatch.specs.Answering.{Serves};
ghost use Rattle.up_dispatch.specs.Exchanges.{KeepsBorrows, stand_in};
ghost use Rattle.up_dispatch.specs.Free.{no_history};
ghost use Rattle.up_dispatch.specs.Keepers.{by_seat, seat_state, ConversationPlans};
ghost use Rattle.up_dispatch.specs.Keeps.{keeping};
ghost use Rattle.up_dispatch.specs.Turn.{Converses, no_disk};

use crate::board::Board;
use crate::bodies::Bodies;
use crate::conversation::converse;
use crate::ended::Ended;
use crate::exchange::Exchange;
use crate::ids::Ids;
use crate::keeper::Seated;
use crate::naming::Naming;
use crate::seat::Seat;
use std::alloc::Global;
use std::sync::Wait;
use up_history::Trail;
use up_hooks::PreHooks;
use up_log::Entry;
use up_wire::{Sink, Source};

/// Serves one conversation from a seat of a board that follows no history. No body may be larger than an upload of
/// the board.
pub fn converse_at<B: Naming, I: Ids, R: Source, W: Sink, T: Wait>(
    rt: &T,
    alloc: Global,
    board: &Board<B>,
    seat: &mut Seat<B>,
    hooks: &PreHooks,
    exchange: &mut Exchange<'_, I, R, W>,
) -> Ended
    requires free { B.history ≡ no_history }
    ensures served { Converses no_disk
        (Serves (by_seat B.queue B.lanes B.max_size (ClosuresMayAnswer hooks.now)) I.draws)
        B.max_size
        (stand_in R.device W.device (seat_state seat.old []) exchange.old)
        (stand_in R.device W.device (seat_state seat.new []) exchange.new) result }
    ensures borrows { KeepsBorrows exchange.old exchange.new }
{
    let max_size = board.max_size();
    let mut seated = Seated::new(rt, board, seat);
    let mut bodies = Bodies::in_memory(rt);
    converse(alloc, &mut seated, hooks, max_size, exchange, &mut bodies)
}

/// How the conversations of a server are served.
pub trait Service {
    ghost use Rattle.logbook.specs.Pages.{Book};
    ghost use Rattle.std.specs.Prelude.{ℕ};
    ghost use Rattle.up_queue.specs.EndViews.{QueueId};
    ghost use Rattle.up_dispatch.specs.Keepers.{SeatState};
    ghost use Rattle.up_dispatch.specs.Keeps.{Committing};

    // The history that the books of its boards follow.
    ghost history: { Book };

    // The commits of its seats, on a board with these queues, this many lanes and this size limit.
    ghost commits: { (ℕ → QueueId) → ℕ → ℕ → Committing SeatState };

    /// Prepares a new board for the first conversation, from this seat, which is returned. Also returns whether the
    /// board is ready. If it isn't, no conversation is to be served on it.
    fn begin<B: Naming, T: Wait>(
        &self,
        rt: &T,
        alloc: Global,
        board: &Board<B>,
        seat: Seat<B>,
    ) -> (Seat<B>, bool)
        requires same { B.history ≡ history };

    /// Serves one conversation from a seat of the board. Also returns the entries of the history that the board
    /// follows, up to the last one that the board decided on in the conversation. There are none if it decided on none.
    fn converse<B: Naming, I: Ids, R: Source, W: Sink, T: Wait>(
        &self,
        rt: &T,
        alloc: Global,
        board: &Board<B>,
        seat: &mut Seat<B>,
        hooks: &PreHooks,
        exchange: &mut Exchange<'_, I, R, W>,
    ) -> (Ended, Trail<Entry, B>)
        requires same { B.history ≡ history }
        ensures served { Converses no_disk
            (Serves (keeping (ConversationPlans B.queue B.lanes B.max_size)
            (commits B.queue B.lanes B.max_size) (ClosuresMayAnswer hooks.now)) I.draws)
            B.max_size
            (stand_in R.device W.device (seat_state seat.old []) exchange.old)
            (stand_in R.device W.device (seat_state seat.new result.1) exchange.new) result.0 };
}

/// Makes each change at once, in memory only.
#[derive(Clone, Copy, Drop)]
pub struct AtOnce;

impl Service for AtOnce {
    ghost use Rattle.up_dispatch.specs.Free.{no_history};
    ghost use Rattle.up_dispatch.specs.Keepers.{UnloggedCommits};

    ghost history = { no_history };

    ghost commits = { UnloggedCommits };

    fn begin<B: Naming, T: Wait>(
        &self,
        _rt: &T,
        _alloc: Global,
        _board: &Board<B>,
        seat: Seat<B>,
    ) -> (Seat<B>, bool)
        ensures { result.0 ≡ seat }
    {
        (seat, true)
    }

    fn converse<B: Naming, I: Ids, R: Source, W: Sink, T: Wait>(
        &self,
        rt: &T,
        alloc: Global,
        board: &Board<B>,
        seat: &mut Seat<B>,
        hooks: &PreHooks,
        exchange: &mut Exchange<'_, I, R, W>,
    ) -> (Ended, Trail<Entry, B>) {
        let ended = converse_at(rt, alloc, board, seat, hooks, exchange);
        (ended, Trail::new())
    }
}
