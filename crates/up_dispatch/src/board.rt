//! The board: a book that threads share.
ghost use Rattle.std.specs.Prelude.{◌≡◌, ◌≤◌, ◌<◌, ◌^◌, [], length, vec_len, IfNone, IfOk, IfSome, Some};
ghost use Rattle.up_events.specs.Limits.{max_upload_bytes};
ghost use Rattle.up_headers.specs.Table.{FitsWithin};
ghost use Rattle.up_dispatch.specs.Free.{MayCommit};
ghost use Rattle.up_dispatch.specs.Lists.{EachAt};
ghost use Rattle.up_dispatch.specs.Parts.{IsNamed, capacities_of};
ghost use Rattle.up_dispatch.specs.Keepers.{SeatPlans, SeatCommits};
ghost use Rattle.up_dispatch.specs.Tied.{CommitsAfter, HasLogged, IsNewBook};

use crate::counts::Counts;
use crate::inside::Inside;
use crate::locked::Locked;
use crate::naming::Naming;
use crate::parts::BoardParts;
use crate::seat::Seat;
use std::alloc::Global;
use std::marker::Send;
use std::sync::{Condvar, Mutex, Wait};
use up_events::{Id, MAX_LANES, MAX_UPLOAD_BYTES, NoMemory};
use up_headers::Request;
use up_history::{Front, Receipt};
use up_lanes::Refill;
use up_log::Entry;
use up_machine::{Asked, Book, Details, Done, Plan, Refusal};
use up_queue::TakeEnd;

/// A book that threads share, under one lock. Whenever the lock is free, what lies under it is a lawful board.
#[derive(Drop)]
pub struct Board<B: Naming> {
    pub(crate) locked: Mutex<Locked<B>>,
    /// One for each lane. It wakes the lane when there may be an item for it.
    pub(crate) bells: Vec<Condvar>,
    pub(crate) max_size: u64,
    /// Whether it is kept for lanes what uploads were created with.
    pub(crate) describes: bool,
    ghost one_for_each: { vec_len bells ≡ B.lanes },
    ghost small: { max_size ≤ max_upload_bytes },
    ghost sized: { max_size ≡ B.max_size },
}

/// This many bells. `NoMemory` if memory runs out.
fn new_bells(alloc: Global, count: usize) -> Result<Vec<Condvar>, NoMemory>
    ensures count { IfOk result (λ bells. vec_len bells ≡ count) }
{
    let mut bells = Vec::with_capacity(alloc, count)?;
    for _lane in 0..count {
        bells.push(Condvar::new())?;
    }
    Ok(bells)
}

impl<B: Naming> Board<B> {
    /// A new board without uploads, and for each lane the end at which its items are taken. An upload may have at most
    /// `max_size` bytes. The board keeps every accepted change until its end. `NoMemory` if memory runs out.
    pub fn new(
        alloc: Global,
        parts: BoardParts,
        max_size: u64,
    ) -> Result<(Board<B>, Vec<TakeEnd>), NoMemory>
        requires named { IsNamed B.name B.parts B.queue B.lanes parts }
        requires some_lane { 0 < length parts.queues }
        requires few_lanes { length parts.queues ≤ MAX_LANES }
        requires small { max_size ≤ MAX_UPLOAD_BYTES }
        requires sized { max_size ≡ B.max_size }
        ensures ends { IfOk result (λ r. (length r.1.items ≡ length parts.queues)
            × EachAt (λ k e. (e.taken ≡ []) × (e.queue ≡ B.queue k)) r.1.items) }
        ensures capacities { IfOk result (λ r. capacities_of r.1.items ≡ parts.capacities) }
    {
        let book = Book::new(alloc, parts.lanes(), max_size)?;
        Board::over(alloc, book, parts, max_size)
    }

    /// As `new`, for a board that may run forever: it counts the accepted changes, but does not keep them.
    pub fn forgetting(
        alloc: Global,
        parts: BoardParts,
        max_size: u64,
    ) -> Result<(Board<B>, Vec<TakeEnd>), NoMemory>
        requires named { IsNamed B.name B.parts B.queue B.lanes parts }
        requires some_lane { 0 < length parts.queues }
        requires few_lanes { length parts.queues ≤ MAX_LANES }
        requires small { max_size ≤ MAX_UPLOAD_BYTES }
        requires sized { max_size ≡ B.max_size }
        ensures ends { IfOk result (λ r. (length r.1.items ≡ length parts.queues)
            × EachAt (λ k e. (e.taken ≡ []) × (e.queue ≡ B.queue k)) r.1.items) }
        ensures capacities { IfOk result (λ r. capacities_of r.1.items ≡ parts.capacities) }
    {
        let book = Book::forgetting(alloc, parts.lanes(), max_size)?;
        Board::over(alloc, book, parts, max_size)
    }

    /// The board over a new book, and the ends at which its items are taken.
    fn over(
        alloc: Global,
        book: Book,
        parts: BoardParts,
        max_size: u64,
    ) -> Result<(Board<B>, Vec<TakeEnd>), NoMemory>
        requires named { IsNamed B.name B.parts B.queue B.lanes parts }
        requires some_lane { 0 < length parts.queues }
        requires small { max_size ≤ MAX_UPLOAD_BYTES }
        requires sized { max_size ≡ B.max_size }
        requires new { IsNewBook (length parts.queues) B.max_size book }
        ensures ends { IfOk result (λ r. (length r.1.items ≡ length parts.queues)
            × EachAt (λ k e. (e.taken ≡ []) × (e.queue ≡ B.queue k)) r.1.items) }
        ensures capacities { IfOk result (λ r. capacities_of r.1.items ≡ parts.capacities) }
    {
        let bells = new_bells(alloc, parts.lanes() as usize)?;
        let (inside, takes) = Inside::new(book, parts);
        let locked = Mutex::new(Locked::new(inside));
        Ok((
            Board {
                locked,
                bells,
                max_size,
                describes: false,
            },
            takes,
        ))
    }

    /// The same board, which from now on keeps what uploads are created with until the lanes of their events take it.
    /// `NoMemory` if memory runs out.
    pub fn describing(self, alloc: Global) -> Result<Board<B>, NoMemory> {
        let Board {
            locked,
            bells,
            max_size,
            ..
        } = self;
        let mut locked = locked.into_inner();
        locked.inside.keep_details(alloc)?;
        Ok(Board {
            locked: Mutex::new(locked),
            bells,
            max_size,
            describes: true,
        })
    }

    /// The most bytes that an upload may have.
    pub fn max_size(&self) -> u64
        ensures size { result ≡ B.max_size }
        ensures small { result ≤ MAX_UPLOAD_BYTES }
    {
        self.max_size
    }

    /// A new seat, from which no change was made yet. `None` if all seats of the board were given out.
    pub fn seat<R: Wait>(&self, rt: &R) -> Option<Seat<B>>
        ensures { IfSome result (λ s. s ≡ 0) }
    {
        let mut locked = self.locked.lock(rt);
        let seat = locked.inside.seat();
        drop(locked);
        seat
    }

    /// What a request would do, in a state of the board that includes all changes made from this seat. It changes
    /// nothing. The error says why the request would be refused.
    pub fn plan<R: Wait>(
        &self,
        rt: &R,
        alloc: Global,
        seat: &mut Seat<B>,
        request: &Request,
    ) -> Result<Plan, Refusal>
        ensures same { seat.new ≡ seat.old }
        ensures plan { SeatPlans B.queue B.lanes B.max_size seat.old request.now result }
    {
        let mut locked = self.locked.lock(rt);
        locked.inside.audit(seat);
        locked.inside.plan(alloc, request)
    }

    /// Decides on a request from a seat, in a state of the board that includes all changes made from this seat, and
    /// carries it out unless it is refused. `asked` is what the closures answered. The error says why the request is
    /// refused. A board that follows a history is changed by `commit_at` alone: here it only refuses what a closure
    /// refuses. What the book no longer needs, such as the bytes of a removed upload, is dropped after the lock is
    /// released.
    pub fn commit<R: Wait>(
        &self,
        rt: &R,
        alloc: Global,
        seat: &mut Seat<B>,
        request: Request,
        id: Id,
        asked: &Asked,
    ) -> Result<Done, Refusal>
        requires bounded { FitsWithin MAX_UPLOAD_BYTES request }
        requires free { MayCommit B.history asked.now }
        ensures { SeatCommits B.queue B.lanes B.max_size seat.old request id asked.now
            seat.new result }
    {
        let mut locked = self.locked.lock(rt);
        let lanes = locked.inside.lanes();
        let (result, remains) = locked.commit(rt, alloc, seat, request, id, asked);
        drop(locked);
        self.tell(lanes, &result);
        remains.release();
        result
    }

    /// Decides on the entry of a receipt, from a seat. The receipt is for a place of the history that the board
    /// follows. Unless the board is closed, its book is then the one that the entries before this place define, each of
    /// which was carried out in its turn, or passed over because memory ran out. `None` if it is not; nothing is done
    /// then.
    pub fn commit_at<R: Wait>(
        &self,
        rt: &R,
        alloc: Global,
        seat: &mut Seat<B>,
        receipt: &Receipt<Entry, B>,
        entry: Entry,
    ) -> Option<Result<Done, Refusal>>
        requires bounded { FitsWithin MAX_UPLOAD_BYTES entry.request }
        requires claims { receipt.now.entry ≡ Some entry }
        ensures some { IfSome result (λ r. CommitsAfter B.queue B.lanes B.max_size
            receipt.now.before seat.old entry seat.new r) }
        ensures none { IfNone result (seat.new ≡ seat.old) }
    {
        let mut locked = self.locked.lock(rt);
        let lanes = locked.inside.lanes();
        let (result, remains) = locked.commit_at(rt, alloc, seat, receipt, entry)?;
        drop(locked);
        self.tell(lanes, &result);
        remains.release();
        Some(result)
    }

    /// Passes over the entry of a receipt, which was not carried out because memory ran out. `None` if it is not the
    /// next one; nothing is done then.
    pub fn pass_over<R: Wait>(
        &self,
        rt: &R,
        receipt: &Receipt<Entry, B>,
        entry: &Entry,
    ) -> Option<()>
        requires claims { receipt.now.entry ≡ Some entry.now }
    {
        let mut locked = self.locked.lock(rt);
        let passed = locked.pass_over(receipt, entry);
        drop(locked);
        passed
    }

    /// Wakes the lane that has events to take after a commit, if the commit changed something.
    fn tell(&self, lanes: u64, answer: &Result<Done, Refusal>)
        requires some { 0 < lanes }
    {
        if let Ok(
            Done {
                change: Some(change),
                ..
            },
        ) = answer
        {
            self.ring(change.id().lane(lanes));
        }
    }

    /// The counts of the board at one moment. The lock is held for a few steps per lane.
    pub fn counts<R: Wait>(&self, rt: &R) -> Counts
        ensures lanes { result.lanes ≡ B.lanes }
    {
        let mut locked = self.locked.lock(rt);
        locked.inside.is_lawful();
        let mut counts = locked.inside.counts();
        for (lane, waiting) in counts.waiting.iter_mut().enumerate() {
            *waiting = locked.inside.waiting(rt, lane as u64);
        }
        counts
    }

    /// How many events the log of a lane has, once the board has followed exactly the entries of this front of its
    /// history. 0 if there is no such lane. `None` if the board has not followed exactly these entries.
    pub fn logged<R: Wait>(&self, rt: &R, entries: &Front<Entry, B>, lane: u64) -> Option<u64>
        ensures { IfSome result (HasLogged B.lanes B.max_size entries.now lane) }
    {
        let locked = self.locked.lock(rt);
        let logged = locked.logged(entries, lane);
        drop(locked);
        logged
    }

    /// Wakes the lane, if it sleeps.
    fn ring(&self, lane: u64) {
        if let Some(bell) = self.bells.get(lane as usize) {
            bell.notify_one();
        }
    }

    /// Accepts no change from now on. Puts into the queue of each lane what it has room for: the events that are left,
    /// and after the last one the end. It does no harm to close a board again.
    pub fn close<R: Wait>(&self, rt: &R) {
        self.locked.lock(rt).close(rt);
        for bell in &self.bells {
            bell.notify_one();
        }
    }
}

impl<B: Naming + Send> Refill for Board<B> {
    fn refill<R: Wait>(&self, rt: &R, lane: u64) {
        self.locked.lock(rt).fill(rt, lane);
    }

    fn wait<R: Wait>(&self, rt: &R, lane: u64, taken: u64) {
        if let Some(bell) = self.bells.get(lane as usize) {
            bell.wait_while(
                rt,
                self.locked.lock(rt),
                |locked| locked.inside.is_idle(lane, taken),
            );
        }
    }

    fn describe<R: Wait>(&self, rt: &R, lane: u64) -> Option<Vec<Details>> {
        if !self.describes {
            return None;
        }
        let mut locked = self.locked.lock(rt);
        let details = locked.inside.take_details(lane);
        drop(locked);
        details
    }
}
