//! What lies under the board's lock: the board, and how far its book follows a log.
ghost use Rattle.std.specs.Prelude.{◌≡◌, IfNone, IfSome, IsTrue, ◌↔◌, Err, Some, false, length};
ghost use Rattle.up_commits.specs.Follows.{IsBookAfter};
ghost use Rattle.up_headers.specs.Table.{FitsWithin};
ghost use Rattle.up_machine.specs.declared.refusal.Refusal.TheVariants.{NoMemory};
ghost use Rattle.up_replay.specs.Replay.{asked_of};
ghost use Rattle.up_dispatch.specs.Commits.{IsCommitOf};
ghost use Rattle.up_dispatch.specs.Tied.{HasLogged, IsDecidedAfter, IsNewBook};

use crate::inside::Inside;
use crate::naming::Naming;
use crate::seat::Seat;
use std::alloc::Global;
use std::marker::Model;
use std::sync::Wait;
use up_commits::{Followed, books_follow};
use up_events::{Id, MAX_UPLOAD_BYTES};
use up_headers::Request;
use up_history::{Front, Receipt};
use up_log::Entry;
use up_machine::{Asked, Done, Refusal, Remains};
use up_replay::asked_of;

/// A board, and how far its book follows the history of a log. If a request that is not an entry of the log is carried
/// out, the book no longer follows it.
#[derive(Drop)]
pub struct Locked<B: Naming> {
    pub(crate) inside: Inside<B>,
    pub(crate) followed: Followed<B>,
    /// Whether the book still follows the log.
    pub(crate) is_tied: bool,
}

impl<B: Naming> Model for Locked<B> {
    ghost use Rattle.up_dispatch.specs.Tied.{Tied, tied, IsTied};
    ghost use Rattle.up_dispatch.specs.TiedCode.{tied_code};

    ghost Value = { Tied };

    ghost coded = { tied_code };

    ghost view = { λ l. tied l.inside l.followed l.is_tied };

    ghost invariant = { λ l. IsTied B.lanes B.max_size l.inside l.followed l.is_tied };
}

/// Whether a commit failed because memory ran out.
fn wants_memory(answer: &Result<Done, Refusal>) -> bool
    ensures { IsTrue result ↔ (answer.now ≡ Err NoMemory) }
{
    matches!(answer, Err(Refusal::NoMemory))
}

impl<B: Naming> Locked<B> {
    /// A new board, which has followed no entry yet.
    pub fn new(inside: Inside<B>) -> Locked<B>
        requires new { IsNewBook B.lanes B.max_size inside.book }
    {
        books_follow();
        Locked {
            inside,
            followed: Followed::new(),
            is_tied: true,
        }
    }

    /// Decides on a request from a seat. Unless the request is refused, the book no longer follows the log.
    pub fn commit<R: Wait>(
        &mut self,
        rt: &R,
        alloc: Global,
        seat: &mut Seat<B>,
        request: Request,
        id: Id,
        asked: &Asked,
    ) -> (Result<Done, Refusal>, Remains)
        requires bounded { FitsWithin MAX_UPLOAD_BYTES request }
        ensures { IsCommitOf B.queue B.lanes B.max_size self.old.board self.new.board
            seat.old seat.new request id asked.now result.0 }
    {
        let (result, remains) = self.inside.commit(rt, alloc, seat, request, id, asked);
        self.is_tied = self.is_tied && result.is_err();
        (result, remains)
    }

    /// Decides on the next entry of the history that the book follows.
    fn carry_out<R: Wait>(
        &mut self,
        rt: &R,
        alloc: Global,
        seat: &mut Seat<B>,
        receipt: &Receipt<Entry, B>,
        entry: Entry,
    ) -> (Result<Done, Refusal>, Remains)
        requires bounded { FitsWithin MAX_UPLOAD_BYTES entry.request }
        requires claims { receipt.now.entry ≡ Some entry }
        requires next { receipt.now.number ≡ length self.old.follows.entries }
        requires tied { IsTrue self.old.is_tied }
        requires going { self.old.board.book.closed ≡ false }
        ensures commits { IsCommitOf B.queue B.lanes B.max_size self.old.board self.new.board
            seat.old seat.new entry.request entry.id (asked_of entry.consent) result.0 }
        ensures after { IsBookAfter B.lanes B.max_size receipt.now.before self.old.board.book }
    {
        books_follow();
        self.followed.begin(receipt);
        let Entry {
            id,
            consent,
            request,
            ..
        } = entry;
        let (result, remains) = self
            .inside
            .commit(rt, alloc, seat, request, id, &asked_of(consent));
        let is_carried = !wants_memory(&result);
        self.followed.end(is_carried);
        (result, remains)
    }

    /// Decides on the entry of a receipt, from a seat. `None` if the book has not followed exactly the entries before
    /// it; nothing is done then. A closed board decides on the entry, but does not follow it.
    pub fn commit_at<R: Wait>(
        &mut self,
        rt: &R,
        alloc: Global,
        seat: &mut Seat<B>,
        receipt: &Receipt<Entry, B>,
        entry: Entry,
    ) -> Option<(Result<Done, Refusal>, Remains)>
        requires bounded { FitsWithin MAX_UPLOAD_BYTES entry.request }
        requires claims { receipt.now.entry ≡ Some entry }
        ensures commits { IfSome result (λ r. IsCommitOf B.queue B.lanes B.max_size
            self.old.board self.new.board seat.old seat.new
            entry.request entry.id (asked_of entry.consent) r.0) }
        ensures after { IfSome result (λ r.
            IsDecidedAfter B.lanes B.max_size receipt.now.before self.old.board.book) }
        ensures none { IfNone result ((self.new ≡ self.old) × (seat.new ≡ seat.old)) }
    {
        if self.inside.is_closed() {
            let Entry {
                id,
                consent,
                request,
                ..
            } = entry;
            return Some(self.commit(rt, alloc, seat, request, id, &asked_of(consent)));
        }
        if !self.is_tied || !self.followed.is_next(receipt) {
            return None;
        }
        Some(self.carry_out(rt, alloc, seat, receipt, entry))
    }

    /// Passes over the entry of a receipt. `None` if it is not the next one; nothing is done then.
    pub fn pass_over(&mut self, receipt: &Receipt<Entry, B>, entry: &Entry) -> Option<()>
        requires claims { receipt.now.entry ≡ Some entry.now }
        ensures { self.new.board ≡ self.old.board }
    {
        if !self.followed.is_next(receipt) {
            return None;
        }
        books_follow();
        self.followed.begin(receipt);
        // For the prover: the receipt is for this entry.
        let _ = entry;
        self.followed.end(false);
        Some(())
    }

    /// How many events the log of a lane has in the book that the entries of a front define. `None` if the book does
    /// not follow exactly these entries.
    pub fn logged(&self, entries: &Front<Entry, B>, lane: u64) -> Option<u64>
        ensures { IfSome result (HasLogged B.lanes B.max_size entries.now lane) }
    {
        if !self.is_tied || !self.followed.is_along(entries) {
            return None;
        }
        Some(self.inside.logged(lane))
    }

    /// Puts the rest of the lane's log into its queue, until the queue takes no more. Does nothing if there is no such
    /// lane.
    pub fn fill<R: Wait>(&mut self, rt: &R, lane: u64) {
        if lane < self.inside.lanes() {
            self.inside.fill(rt, lane);
        }
    }

    /// Accepts no change from now on, and puts into the queues what they have room for.
    pub fn close<R: Wait>(&mut self, rt: &R) {
        books_follow();
        self.inside.close(rt);
    }
}
