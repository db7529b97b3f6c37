//! What plans and commits requests: a book that is lent, or a seat of a board.
ghost use Rattle.std.specs.Prelude.{◌≡◌, []};
ghost use Rattle.up_headers.specs.Table.{FitsWithin};
ghost use Rattle.up_dispatch.specs.Free.{no_history};
ghost use Rattle.up_dispatch.specs.Keepers.{seat_state};

use crate::board::Board;
use crate::naming::Naming;
use crate::seat::Seat;
use std::alloc::Global;
use std::sync::Wait;
use up_events::{Id, MAX_UPLOAD_BYTES};
use up_headers::Request;
use up_machine::{Asked, Book, Done, Plan, Refusal, Remains};

/// What plans and commits requests. A commit checks again everything that its plan checked, because others may change
/// the same uploads in between.
pub trait Keeper {
    ghost use Rattle.std.specs.Prelude.{◌≡◌, ℕ};
    ghost use Rattle.up_headers.specs.Table.{FitsWithin};
    ghost use Rattle.up_dispatch.specs.Keeps.{Planning, Committing};

    /// What contracts know about a keeper.
    ghost State: { Type 0 };

    ghost state: { Self → State };

    /// The borrow that the keeper holds. No call changes it.
    ghost lender: { Self → ℕ };

    /// Which plans a request may get.
    ghost plans: { Planning State };

    /// Which results a commit may have, and which states it may leave.
    ghost commits: { Committing State };

    /// What a request would do. It changes nothing. The error says why the request would be refused.
    fn plan(&mut self, alloc: Global, request: &Request) -> Result<Plan, Refusal>
        ensures plan { plans (state self.old) request.now result }
        ensures same { state self.new ≡ state self.old }
        ensures lender { lender self.new ≡ lender self.old };

    /// Decides on a request, and carries it out unless it is refused. The id is for a new upload, and `asked` is what
    /// the closures answered. The error says why the request is refused.
    fn commit(
        &mut self,
        alloc: Global,
        request: Request,
        id: Id,
        asked: &Asked,
    ) -> Result<Done, Refusal>
        requires bounded { FitsWithin MAX_UPLOAD_BYTES request }
        ensures commit { commits (state self.old) request id asked.now (state self.new) result }
        ensures lender { lender self.new ≡ lender self.old };
}

/// A book that is lent. Nobody else changes it meanwhile.
#[derive(Drop)]
pub struct Lent<'a> {
    book: &'a mut Book,
}

impl<'a> Lent<'a> {
    /// Borrows the book.
    pub fn new(book: &'a mut Book) -> Lent<'a>
        ensures state { ⟦<Lent<'a> as Keeper>⟧.state result ≡ book.old }
        ensures lender { ⟦<Lent<'a> as Keeper>⟧.lender result ≡ book.entry.ghost_name }
    {
        Lent { book }
    }
}

impl Keeper for Lent<'_> {
    ghost use Rattle.std.specs.Prelude.{◌≡◌};
    ghost use Rattle.up_machine.specs.State.{State};
    ghost use Rattle.up_dispatch.specs.Keepers.{BookPlans, BookCommits};

    ghost State = { State };

    ghost state = { λ k. k.book.now };

    ghost lender = { λ k. k.book.ghost_name };

    ghost plans = { BookPlans };

    ghost commits = { BookCommits };

    fn plan(&mut self, alloc: Global, request: &Request) -> Result<Plan, Refusal> {
        self.book.plan(alloc, request)
    }

    fn commit(
        &mut self,
        alloc: Global,
        request: Request,
        id: Id,
        asked: &Asked,
    ) -> Result<Done, Refusal> {
        let mut remains = Remains::new();
        let result = self.book.commit(alloc, request, id, asked, &mut remains);
        remains.release();
        result
    }
}

/// A board that follows no history, through one of its seats. Others may change the board between any two calls.
#[derive(Drop)]
pub struct Seated<'a, B: Naming, R: Wait> {
    rt: &'a R,
    board: &'a Board<B>,
    seat: &'a mut Seat<B>,
    ghost free: { B.history ≡ no_history },
}

impl<'a, B: Naming, R: Wait> Seated<'a, B, R> {
    /// Borrows the seat.
    pub fn new(rt: &'a R, board: &'a Board<B>, seat: &'a mut Seat<B>) -> Seated<'a, B, R>
        requires free { B.history ≡ no_history }
        ensures state { ⟦<Seated<'a, B, R> as Keeper>⟧.state result ≡ seat_state seat.old [] }
        ensures lender { ⟦<Seated<'a, B, R> as Keeper>⟧.lender result ≡ seat.entry.ghost_name }
    {
        Seated { rt, board, seat }
    }
}

impl<B: Naming, R: Wait> Keeper for Seated<'_, B, R> {
    ghost use Rattle.std.specs.Prelude.{◌≡◌, []};
    ghost use Rattle.up_dispatch.specs.Keepers.{ConversationPlans, SeatState, UnloggedCommits};
    ghost use Rattle.up_dispatch.specs.Keepers.{seat_state};

    ghost State = { SeatState };

    ghost state = { λ k. seat_state k.seat.now [] };

    ghost lender = { λ k. k.seat.ghost_name };

    ghost plans = { ConversationPlans B.queue B.lanes B.max_size };

    ghost commits = { UnloggedCommits B.queue B.lanes B.max_size };

    fn plan(&mut self, alloc: Global, request: &Request) -> Result<Plan, Refusal> {
        self.board.plan(self.rt, alloc, self.seat, request)
    }

    fn commit(
        &mut self,
        alloc: Global,
        request: Request,
        id: Id,
        asked: &Asked,
    ) -> Result<Done, Refusal> {
        self.board
            .commit(self.rt, alloc, self.seat, request, id, asked)
    }
}
