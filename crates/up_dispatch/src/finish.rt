//! The end of a board, and what it reports.
ghost use Rattle.std.specs.Prelude.{◌≡◌, ◌-◌, ◌<◌, ◌≤◌, ◌↔◌, [], ℕ, slice_index_or};
ghost use Rattle.std.specs.Prelude.{vec_capacity, length, sum, All, IfOk, IfErr, IsTrue, vec_len};
ghost use Rattle.up_events.specs.History.{IsLegal};
ghost use Rattle.up_events.specs.Records.{lane_log};
ghost use Rattle.up_lanes.specs.HowOf.{is_drained};
ghost use Rattle.up_dispatch.specs.Lists.{EachAt, EachPair};
ghost use Rattle.up_dispatch.specs.QueuedUpTo.{IsQueuedUpTo};
ghost use Rattle.up_dispatch.specs.Reports.{HandOver, IsHandedOver, AreLanesInOrder, IsRefusedFor, TellEachUpload};
ghost use Rattle.up_dispatch.specs.BoardView.{IsLawfulBoardView, BoardView};

use crate::board::Board;
use crate::inside::Inside;
use crate::locked::Locked;
use crate::naming::Naming;
use crate::queue_cursor::QueueCursor;
use crate::report::{FinishFault, LaneReport, Report, Unfinished};
use crate::seat::Seat;
use std::alloc::Global;
use std::sync::Mutex;
use std::sync::ledger::Share;
use up_hooks::PostHook;
use up_lanes::LaneEnd;
use up_machine::Book;
use up_queue::compare;

/// The report of a lane, from the two ends of its queue.
fn report_of<H: PostHook + Drop>(book: &Book, cursor: QueueCursor, end: LaneEnd<H>) -> LaneReport<H>
    requires queued { IsQueuedUpTo end.take_end.queue (lane_log book.now.journal end.lane)
        book.now.closed cursor }
    ensures same { (result.lane ≡ end.lane) × (result.hook ≡ end.hook) × (result.how ≡ end.how) }
    ensures handed { IsHandedOver (lane_log book.now.journal end.lane) (H.handed result.hook)
        (is_drained result.how) result.left }
{
    let LaneEnd {
        lane,
        hook,
        take_end,
        how,
        ..
    } = end;
    let QueueCursor {
        put_end,
        position,
        ended,
    } = cursor;
    let held = compare(put_end, take_end);
    let end = u64::from(ended) - u64::from(how.is_drained());
    let unput = book.journal().log_len(lane) - position;
    let left = unput + (held - end);
    LaneReport {
        lane,
        hook,
        how,
        left,
    }
}

/// The report of each lane, in the order of the lanes.
fn settle<H: PostHook + Drop>(
    book: &Book,
    mut reports: Vec<LaneReport<H>>,
    cursors: Vec<QueueCursor>,
    lanes: Vec<LaneEnd<H>>,
) -> Vec<LaneReport<H>>
    requires none { reports.items ≡ [] }
    requires room { vec_len lanes ≤ vec_capacity reports }
    requires counts { (vec_len cursors ≡ book.now.journal.lanes)
        × (vec_len lanes ≡ book.now.journal.lanes) }
    requires order { EachAt (λ k e. e.lane ≡ k) lanes.items }
    requires queued { (k : ℕ) (f : _) (e : _) → k < vec_len lanes
        → IsQueuedUpTo (slice_index_or lanes.items k e).take_end.queue (lane_log book.now.journal k)
        book.now.closed (slice_index_or cursors.items k f) }
    ensures count { vec_len result ≡ vec_len lanes }
    ensures same { EachPair (λ e x. (x.lane ≡ e.lane) × (x.hook ≡ e.hook) × (x.how ≡ e.how))
        lanes.items result.items }
    ensures handed { EachAt (λ k r. IsHandedOver (lane_log book.now.journal k)
        (H.handed r.hook) (is_drained r.how) r.left) result.items }
{
    for (cursor, end) in cursors.into_iter().zip(lanes) {
        reports.push_reserved(report_of(book, cursor, end));
    }
    reports
}

/// How many of `changes` were made from none of these seats.
fn missing<B: Naming>(changes: u64, seats: &[Seat<B>]) -> u64
    ensures { result ≡ changes - sum seats.now }
{
    let mut missing = changes;
    for seat in seats {
        missing = missing.saturating_sub(seat.count());
    }
    missing
}

/// The shares of all seats, merged.
fn gathered<B: Naming>(mut all: Share<B>, seats: Vec<Seat<B>>) -> Share<B>
    requires { all.amount ≡ 0 }
    ensures { result.amount ≡ sum seats.items }
{
    for seat in seats {
        let Seat { share, count: _ } = seat;
        all.merge(share);
    }
    all
}

/// Whether the lanes are all there, each once and in ascending order.
fn in_order<H: PostHook + Drop>(lanes: &[LaneEnd<H>], count: usize) -> bool
    ensures { IsTrue result ↔ AreLanesInOrder (λ e. e.lane) count lanes.now }
{
    if lanes.len() != count {
        return false;
    }
    for (k, end) in lanes.iter().enumerate() {
        if end.lane != k as u64 {
            return false;
        }
    }
    true
}

impl<B: Naming> Inside<B> {
    /// Room for the reports of all lanes. The error is the reason why the board can't be finished, or that memory ran
    /// out.
    fn begun<H: PostHook + Drop>(
        &self,
        alloc: Global,
        seats: &[Seat<B>],
        lanes: &[LaneEnd<H>],
    ) -> Result<Vec<LaneReport<H>>, FinishFault>
        ensures room { IfOk result (λ r. (r.items ≡ []) × (length lanes.now ≤ vec_capacity r)) }
        ensures all_seats { IfOk result (λ r.
            length self.now.book.journal.accepted ≤ sum seats.now) }
        ensures all_lanes { IfOk result (λ r. AreLanesInOrder (λ e. e.lane) B.lanes lanes.now) }
        ensures refused { IfErr result (λ fault. IsRefusedFor fault
            (length self.now.book.journal.accepted) (sum seats.now)
            (AreLanesInOrder (λ e. e.lane) B.lanes lanes.now)) }
    {
        if missing(self.book.journal().accepted_count(), seats) > 0 {
            return Err(FinishFault::SeatsOut);
        }
        if !in_order(lanes, self.cursors.len()) {
            return Err(FinishFault::LanesOut);
        }
        match Vec::with_capacity(alloc, lanes.len()) {
            Ok(reports) => Ok(reports),
            Err(_) => Err(FinishFault::NoMemory),
        }
    }

    /// The report of a board that can be finished.
    fn completed<H: PostHook + Drop>(
        self,
        reports: Vec<LaneReport<H>>,
        seats: Vec<Seat<B>>,
        lanes: Vec<LaneEnd<H>>,
    ) -> Report<H>
        requires queues { All (λ e. e.take_end.queue ≡ B.queue e.lane) lanes.items }
        requires room { (reports.items ≡ []) × (vec_len lanes ≤ vec_capacity reports) }
        requires all_seats { length self.book.journal.accepted ≤ sum seats.items }
        requires all_lanes { AreLanesInOrder (λ e. e.lane) B.lanes lanes.items }
        ensures accepted { result.accepted.items ≡ self.book.journal.accepted }
        ensures keeps { result.accepted.keeps ≡ self.book.journal.keeps }
        ensures legal { IsLegal result.accepted.items }
        ensures counts { length result.accepted.items ≡ sum seats.items }
        ensures lanes { (vec_len result.lanes ≡ vec_len lanes)
            × EachPair (λ e x. (x.lane ≡ e.lane) × (x.hook ≡ e.hook) × (x.how ≡ e.how))
            lanes.items result.lanes.items }
        ensures handed { HandOver H.handed (vec_len result.lanes) result.accepted.items
            result.lanes.items }
        ensures delivered { TellEachUpload H.handed (vec_len result.lanes) result.accepted.items
            result.lanes.items }
    {
        let Inside {
            book,
            cursors,
            given: _,
            rest,
            mut total,
        } = self;
        let mut all = gathered(rest, seats);
        total.audit(&mut all);
        let lanes = settle(&book, reports, cursors, lanes);
        let accepted = book.into_accepted();
        Report { accepted, lanes }
    }

    /// As `Board::finish`, without a lock.
    pub fn finish<H: PostHook + Drop>(
        self,
        alloc: Global,
        seats: Vec<Seat<B>>,
        lanes: Vec<LaneEnd<H>>,
    ) -> Result<Report<H>, Unfinished<Inside<B>, B, H>>
        requires { All (λ e. e.take_end.queue ≡ B.queue e.lane) lanes.items }
        ensures back { IfErr result (λ u.
            (u.board ≡ self) × (u.seats ≡ seats) × (u.lanes ≡ lanes)) }
        ensures refused { IfErr result (λ u. IsRefusedFor u.fault
            (length self.book.journal.accepted) (sum seats.items)
            (AreLanesInOrder (λ e. e.lane) B.lanes lanes.items)) }
        ensures all_lanes { IfOk result (λ r. AreLanesInOrder (λ e. e.lane) B.lanes lanes.items) }
        ensures accepted { IfOk result (λ r. r.accepted.items ≡ self.book.journal.accepted) }
        ensures keeps { IfOk result (λ r. r.accepted.keeps ≡ self.book.journal.keeps) }
        ensures legal { IfOk result (λ r. IsLegal r.accepted.items) }
        ensures counts { IfOk result (λ r. length r.accepted.items ≡ sum seats.items) }
        ensures lanes { IfOk result (λ r. (vec_len r.lanes ≡ vec_len lanes)
            × EachPair (λ e x. (x.lane ≡ e.lane) × (x.hook ≡ e.hook) × (x.how ≡ e.how))
            lanes.items r.lanes.items) }
        ensures handed { IfOk result (λ r.
            HandOver H.handed (vec_len r.lanes) r.accepted.items r.lanes.items) }
        ensures delivered { IfOk result (λ r.
            TellEachUpload H.handed (vec_len r.lanes) r.accepted.items r.lanes.items) }
    {
        match self.begun(alloc, seats.as_slice(), lanes.as_slice()) {
            Ok(reports) => Ok(self.completed(reports, seats, lanes)),
            Err(fault) => Err(Unfinished {
                fault,
                board: self,
                seats,
                lanes,
            }),
        }
    }
}

impl<B: Naming> Board<B> {
    /// Ends the board and reports, after all seats and the ends of all lanes were brought back. Waits for nothing.
    /// What the post-hook of a lane was handed is a prefix of the lane's log of the accepted changes: of each upload
    /// its first events, each once and in order, and none after its end. If the lane is drained, it is the whole log.
    /// If a seat or a lane is missing, or if memory runs out, everything that was given comes back with the reason, the
    /// first one in the order of `FinishFault`. `LanesOut` comes only if a lane is missing, and then there is never a
    /// report. For `SeatsOut` the contract only says that some lawful board of this name has more changes than the
    /// seats made; tests check that it is this board.
    pub fn finish<H: PostHook + Drop>(
        self,
        alloc: Global,
        seats: Vec<Seat<B>>,
        lanes: Vec<LaneEnd<H>>,
    ) -> Result<Report<H>, Unfinished<Board<B>, B, H>>
        requires { All (λ e. e.take_end.queue ≡ B.queue e.lane) lanes.items }
        ensures back { IfErr result (λ u. (u.seats ≡ seats) × (u.lanes ≡ lanes)) }
        ensures refused { IfErr result (λ u. (s : BoardView)
            × IsLawfulBoardView B.queue B.lanes B.max_size s
            × IsRefusedFor u.fault (length s.book.journal.accepted) (sum seats.items)
            (AreLanesInOrder (λ e. e.lane) B.lanes lanes.items)) }
        ensures all_lanes { IfOk result (λ r. AreLanesInOrder (λ e. e.lane) B.lanes lanes.items) }
        ensures legal { IfOk result (λ r. IsLegal r.accepted.items) }
        ensures counts { IfOk result (λ r. length r.accepted.items ≡ sum seats.items) }
        ensures lanes { IfOk result (λ r. (vec_len r.lanes ≡ vec_len lanes)
            × EachPair (λ e x. (x.lane ≡ e.lane) × (x.hook ≡ e.hook) × (x.how ≡ e.how))
            lanes.items r.lanes.items) }
        ensures handed { IfOk result (λ r.
            HandOver H.handed (vec_len r.lanes) r.accepted.items r.lanes.items) }
        ensures delivered { IfOk result (λ r.
            TellEachUpload H.handed (vec_len r.lanes) r.accepted.items r.lanes.items) }
    {
        let Board {
            locked,
            bells,
            max_size,
            describes,
        } = self;
        let Locked {
            inside,
            followed,
            is_tied,
        } = locked.into_inner();
        inside.is_lawful();
        match inside.finish(alloc, seats, lanes) {
            Ok(report) => Ok(report),
            Err(
                Unfinished {
                    fault,
                    board,
                    seats,
                    lanes,
                },
            ) => Err(Unfinished {
                fault,
                board: Board {
                    locked: Mutex::new(Locked {
                        inside: board,
                        followed,
                        is_tied,
                    }),
                    bells,
                    max_size,
                    describes,
                },
                seats,
                lanes,
            }),
        }
    }
}
