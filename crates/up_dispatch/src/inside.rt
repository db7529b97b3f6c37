//! What lies under the board's lock.
ghost use Rattle.std.specs.Prelude.{◌≡◌, ◌+◌, ◌<◌, ◌≤◌, ◌^◌, ◌↔◌, []};
ghost use Rattle.std.specs.Prelude.{ℕ, All, length, IfOk, OnOk, OnErr, IsErr, IfSome, IfNone, true, false, IsTrue};
ghost use Rattle.up_events.specs.Records.{lane_log};
ghost use Rattle.up_queue.specs.Line.{items_if};
ghost use Rattle.up_queue.specs.EndViews.{MayBeFull};
ghost use Rattle.up_headers.specs.Table.{FitsWithin};
ghost use Rattle.up_machine.specs.Decision.{IsExpectedOrNoMemory, decide, decide_plan, is_asked, is_refusal};
ghost use Rattle.up_machine.specs.Details.{IsOfUpload};
ghost use Rattle.up_dispatch.specs.Lists.{EachAt};
ghost use Rattle.up_dispatch.specs.Puts.{end_at, Extends, FillsOnly, IsFilled};
ghost use Rattle.up_dispatch.specs.Commits.{changed, noted_in, IsCommitOf};
ghost use Rattle.up_dispatch.specs.Idle.{IsIdle};
ghost use Rattle.up_dispatch.specs.Parts.{IsNamed, capacities_of};
ghost use Rattle.up_dispatch.specs.BoardView.{IsLawfulBoardView};
ghost use Rattle.up_dispatch.specs.Tied.{IsNewBook};

use crate::counts::{Counts, LANES};
use crate::naming::Naming;
use crate::parts::{BoardParts, MAX_SEATS};
use crate::queue_cursor::{Filled, QueueCursor};
use crate::seat::Seat;
use std::alloc::Global;
use std::marker::Model;
use std::sync::ledger::Share;
use std::sync::{Wait, ledger};
use up_events::{Id, MAX_UPLOAD_BYTES, NoMemory};
use up_headers::Request;
use up_machine::{Asked, Book, Details, Done, Plan, Refusal, Remains};
use up_queue::TakeEnd;

/// The book, how far each lane's queue was filled, and the ledger of the changes that were made from seats.
#[derive(Drop)]
pub struct Inside<B: Naming> {
    pub(crate) book: Book,
    pub(crate) cursors: Vec<QueueCursor>,
    pub(crate) given: u64,
    pub(crate) rest: Share<B>,
    pub(crate) total: ledger::Book<B>,
}

impl<B: Naming> Model for Inside<B> {
    ghost use Rattle.up_dispatch.specs.BoardView.{BoardView, board_view, IsLawfulBoard};
    ghost use Rattle.up_dispatch.specs.BoardViewCode.{board_view_code};

    ghost Value = { BoardView };

    ghost coded = { board_view_code };

    ghost view = { λ i. board_view i.book i.cursors.items i.given i.total.total };

    ghost invariant = { λ i. IsLawfulBoard B.queue B.lanes B.max_size i.book i.cursors.items i.given
        i.total.total i.rest.parts i.rest.amount };
}

impl<B: Naming> Inside<B> {
    /// A new book over empty queues, and the ends at which their items are taken.
    pub fn new(book: Book, parts: BoardParts) -> (Inside<B>, Vec<TakeEnd>)
        requires named { IsNamed B.name B.parts B.queue B.lanes parts }
        requires some_lane { 0 < length parts.queues }
        requires new { IsNewBook (length parts.queues) B.max_size book }
        ensures book { result.0.book ≡ book }
        ensures counts { (result.0.given ≡ 0) × (result.0.total ≡ 0) }
        ensures ends { (length result.1.items ≡ length parts.queues)
            × EachAt (λ k e. (e.taken ≡ []) × (e.queue ≡ B.queue k)) result.1.items }
        ensures capacities { capacities_of result.1.items ≡ parts.capacities }
    {
        let BoardParts {
            cursors,
            takes,
            blank,
        } = parts;
        // For the prover: `Book::journal` says that the book is sound.
        let _ = book.journal();
        let (total, rest) = blank.open::<B>();
        let inside = Inside {
            book,
            cursors,
            given: 0,
            rest,
            total,
        };
        (inside, takes)
    }

    /// The number of lanes.
    pub fn lanes(&self) -> u64
        ensures lanes { result ≡ self.now.book.journal.lanes }
        ensures some { 0 < result }
    {
        self.cursors.len() as u64
    }

    /// Whether the board accepts no more changes.
    pub fn is_closed(&self) -> bool
        ensures { result ≡ self.now.book.closed }
    {
        self.book.is_closed()
    }

    /// What a request would do. It changes nothing. The error says why the request would be refused.
    pub fn plan(&self, alloc: Global, request: &Request) -> Result<Plan, Refusal>
        ensures { IsExpectedOrNoMemory result (decide_plan self.now.book request.now) }
    {
        self.book.plan(alloc, request)
    }

    /// Puts the rest of the lane's log into its queue, until the queue takes no more. The log then forgets the events
    /// that were put.
    pub fn fill<R: Wait>(&mut self, rt: &R, lane: u64) -> Filled
        requires { lane < self.old.book.journal.lanes }
        ensures book { self.new ≡ record self.old { ends = self.new.ends } }
        ensures fills { FillsOnly self.old.ends self.new.ends lane }
        ensures whole { result ≡ Filled.Whole → (end_at self.new.ends lane).put
            ≡ items_if (lane_log self.old.book.journal lane) self.old.book.closed }
        ensures full { result ≡ Filled.Full → MayBeFull (end_at self.new.ends lane) }
        ensures filled { IsFilled self.old.book lane (end_at self.new.ends lane) }
    {
        let closed = self.book.is_closed();
        let journal = self.book.journal();
        let cursor = &mut self.cursors[lane as usize];
        let filled = cursor.fill(rt, journal, lane, closed);
        let position = cursor.position;
        self.book.forget(lane, position);
        filled
    }

    /// Whether there is nothing for a lane that has taken this many items: its whole log was put, all that was put was
    /// taken, and more may come. False if there is no such lane.
    pub fn is_idle(&self, lane: u64, taken: u64) -> bool
        ensures { IsTrue result ↔ IsIdle self.now lane taken }
    {
        let Some(cursor) = self.cursors.get(lane as usize) else {
            return false;
        };
        if self.book.is_closed() {
            return false;
        }
        let all = self.book.journal().log_len(lane);
        cursor.position == all && all == taken
    }

    /// How many events the log of a lane has. 0 if there is no such lane.
    pub fn logged(&self, lane: u64) -> u64
        ensures { result ≡ length (lane_log self.now.book.journal lane) }
    {
        self.book.journal().log_len(lane)
    }

    /// The counts of the book. The events that wait are counted lane by lane, with `waiting`, and are 0 here.
    pub fn counts(&self) -> Counts
        ensures changes { result.changes ≡ length self.now.book.journal.accepted }
        ensures lanes { result.lanes ≡ self.now.book.journal.lanes }
    {
        let journal = self.book.journal();
        Counts {
            uploads: journal.uploads(),
            bytes: journal.bytes(),
            changes: journal.accepted_count(),
            lanes: self.lanes(),
            waiting: [0; LANES],
        }
    }

    /// How many events of a lane were not taken yet, at some moment of the call. The contract says that these are at
    /// least the events that were not put, and at most those of the lane's log. 0 if there is no such lane.
    pub fn waiting<R: Wait>(&mut self, rt: &R, lane: u64) -> u64
        ensures same { self.new ≡ self.old }
        ensures within { result ≤ length (lane_log self.old.book.journal lane) }
        ensures unput { length (lane_log self.old.book.journal lane)
            ≤ result + length (end_at self.old.ends lane).put }
    {
        let all = self.book.journal().log_len(lane);
        match self.cursors.get_mut(lane as usize) {
            Some(cursor) => cursor.waiting(rt, all),
            None => 0,
        }
    }

    /// From now on, keeps what uploads are created with until the lanes of their events take it. `NoMemory` if memory
    /// runs out.
    pub fn keep_details(&mut self, alloc: Global) -> Result<(), NoMemory>
        ensures { self.new ≡ self.old }
    {
        let lanes = self.lanes();
        self.book.keep_details(alloc, lanes)
    }

    /// What uploads of this lane were created with that it has not taken yet. `None` if that isn't kept.
    pub fn take_details(&mut self, lane: u64) -> Option<Vec<Details>>
        ensures same { self.new ≡ self.old }
        ensures own { IfSome result (λ list.
            All (IsOfUpload self.old.book.content self.old.book.journal.accepted) list.items) }
    {
        self.book.take_details(lane)
    }

    /// For the prover: what lies under the lock is a lawful board. Does nothing.
    pub fn is_lawful(&self)
        ensures { IsLawfulBoardView B.queue B.lanes B.max_size self.now }
    {
        // For the prover: using a field brings in the invariant.
        let _ = self.cursors.len();
    }

    /// For the prover: the ledger counts at least the changes that this seat made, and exactly those that were
    /// accepted.
    pub fn audit(&mut self, seat: &mut Seat<B>)
        ensures same { (self.new ≡ self.old) × (seat.new ≡ seat.old) }
        ensures covers { seat.old ≤ self.old.total }
        ensures counts { self.old.total ≡ length self.old.book.journal.accepted }
        ensures lawful { IsLawfulBoardView B.queue B.lanes B.max_size self.old }
    {
        let Inside { total, .. } = self;
        let Seat { share, .. } = seat;
        total.audit(share);
    }

    /// Commits a request to the book, and counts the change in the ledger and at the seat.
    fn note(
        &mut self,
        alloc: Global,
        seat: &mut Seat<B>,
        request: Request,
        id: Id,
        asked: &Asked,
        remains: &mut Remains,
    ) -> Result<Done, Refusal>
        requires bounded { FitsWithin MAX_UPLOAD_BYTES request }
        ensures answer { IsExpectedOrNoMemory result (decide self.old.book request id asked.now) }
        ensures ok { IfOk result (λ done.
            (self.new ≡ noted_in self.old request id done.change)
            × (seat.new ≡ seat.old + changed done.change)) }
        ensures err { OnErr result ((self.new ≡ self.old) × (seat.new ≡ seat.old)) }
        ensures closure_refuses { is_asked request ≡ true → is_refusal asked.now ≡ true
            → IsErr result × (self.new ≡ self.old) }
    {
        let Inside { book, total, .. } = self;
        let Seat { share, count } = seat;
        total.audit(share);
        let done = book.commit(alloc, request, id, asked, remains)?;
        // For the prover: the book is still sound, and its changes are fewer than 2^64, so the sums do not overflow.
        let _ = book.journal().accepted_count();
        let changes = u64::from(done.change.is_some());
        total.add(share, changes);
        *count += changes;
        Ok(done)
    }

    /// Decides on a request from a seat, carries it out unless it is refused, and puts the events of the change. The
    /// second result is what the book no longer needs, to be dropped after the lock is released.
    pub fn commit<R: Wait>(
        &mut self,
        rt: &R,
        alloc: Global,
        seat: &mut Seat<B>,
        request: Request,
        id: Id,
        asked: &Asked,
    ) -> (Result<Done, Refusal>, Remains)
        requires bounded { FitsWithin MAX_UPLOAD_BYTES request }
        ensures { IsCommitOf B.queue B.lanes B.max_size self.old self.new seat.old seat.new
            request id asked.now result.0 }
    {
        self.audit(seat);
        let mut remains = Remains::new();
        match self.note(alloc, seat, request, id, asked, &mut remains) {
            Ok(done) => {
                if let Some(change) = &done.change {
                    let lane = change.id().lane(self.lanes());
                    self.fill(rt, lane);
                }
                (Ok(done), remains)
            }
            Err(refusal) => (Err(refusal), remains),
        }
    }

    /// Accepts no change from now on, and puts into the queues what they have room for.
    pub fn close<R: Wait>(&mut self, rt: &R)
        ensures book { self.new ≡ record self.old {
          book = record self.old.book { closed = true };
          ends = self.new.ends;
        } }
        ensures extends { (lane : ℕ)
            → Extends (end_at self.old.ends lane) (end_at self.new.ends lane) }
        ensures filled { (lane : ℕ) → lane < self.old.book.journal.lanes
            → IsFilled self.new.book lane (end_at self.new.ends lane) }
    {
        self.book.close();
        for lane in 0..self.lanes() {
            self.fill(rt, lane);
        }
    }

    /// The next seat. `None` if all were given out.
    pub fn seat(&mut self) -> Option<Seat<B>>
        ensures given { IfSome result (λ s.
            (s ≡ 0) × (self.new ≡ record self.old { given = self.old.given + 1 })) }
        ensures none { IfNone result ((self.old.given ≡ MAX_SEATS) × (self.new ≡ self.old)) }
    {
        if self.given >= MAX_SEATS {
            return None;
        }
        let share = self.rest.split_off(1, 0);
        self.given += 1;
        Some(Seat { share, count: 0 })
    }
}
