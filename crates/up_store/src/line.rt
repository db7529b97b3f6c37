//! The order of changes.
ghost use Rattle.std.specs.Prelude.{◌≡◌, ◌⊎◌, ◌<◌, ◌↔◌, ◌++◌, [], IfOk, IsErr, OnErr, IsTrue, Some, true, false};
ghost use Rattle.std.specs.Prelude.{length, ◌+◌, OnOk};
ghost use Rattle.up_store.specs.Lines.{AreDrawn, IsLost, IsRemoval, HasTurn, MayWrite, Takes, Places};
ghost use Rattle.up_store.specs.Lines.{first_unknown, has_drawn, has_had_turn, has_lost_rest, has_written};
ghost use Rattle.up_store.specs.declared.line.Next.TheVariants.{Commit, Refuse, Wait, Write};

use crate::removal::is_removal;
use std::alloc::{AllocError, Global};
use std::collections::VecDeque;
use std::marker::Model;
use std::mem;
use up_history::{Chronicle, Front, History, Opened, Receipt};
use up_log::{Entry, Spelled};
use up_tie::{Batch, OnDisk};

/// How many changes a batch has, at most.
const MAX_BATCH_CHANGES: usize = 64;

/// How many bytes a batch takes, at most, unless its first change alone takes more.
const MAX_BATCH_BYTES: usize = 1 << 22;

/// What comes next for a change that was drawn.
#[derive(Drop)]
pub enum Next<J: Chronicle, K: Chronicle> {
    /// Other changes come first.
    Wait,
    /// These changes are to be written to the log. `note_written` or `note_lost` then takes them back.
    Write(Batch<K>),
    /// It is on the disk, as the receipt says, and all changes before it had their turn.
    Commit(Receipt<Entry, J>),
    /// It could not be written, or no change is made any more. All changes before it had their turn.
    Refuse,
}

/// The changes in the order in which they were drawn. In this order they are written to the log, and then made. What
/// was written to the log is the history `J`; what was drawn is the history `K`.
#[derive(Drop)]
pub struct Line<J: Chronicle, K: Chronicle> {
    /// What was drawn.
    history: History<Entry, K>,
    drawn: Front<Entry, K>,
    /// The changes that nobody has begun to write.
    waiting: VecDeque<Spelled>,
    /// Room for a batch, while none is being written.
    room: Vec<Spelled>,
    is_writing: bool,
    /// Whether nobody may begin to write.
    is_held: bool,
    /// Whether no change is made any more.
    is_over: bool,
    /// Whether only removals are drawn.
    is_for_removals: bool,
    /// The changes that are on the disk and had no turn yet.
    on_disk: OnDisk<J, K>,
    /// How many changes after these could not be written and had no turn yet.
    lost: u64,
    /// The number of entries of the log that had their turn, which is the place of the next.
    place: u64,
}

impl<J: Chronicle, K: Chronicle> Model for Line<J, K> {
    ghost use Rattle.std.specs.Prelude.{length};
    ghost use Rattle.up_store.specs.Lines.{AreDrawn, IsSuffix, Progress};

    ghost Value = { Progress };

    ghost view = { λ l. record {
      drawn = l.drawn;
      waiting = l.waiting.items;
      done = l.on_disk.number;
      count = l.on_disk.count;
      lost = l.lost;
      is_writing = l.is_writing;
      is_held = l.is_held;
      is_over = l.is_over;
      is_for_removals = l.is_for_removals;
      place = l.place;
      decided = l.on_disk.place;
    } };

    ghost invariant = { λ l. IsSuffix l.waiting.items l.drawn
        × AreDrawn l.is_for_removals l.waiting.items };
}

/// Moves the first of those that wait to the end of the batch, as long as it has room.
fn fill(waiting: &mut VecDeque<Spelled>, batch: &mut Vec<Spelled>)
    ensures { batch.new.items ++ waiting.new.items ≡ batch.old.items ++ waiting.old.items }
{
    let mut size: usize = 0;
    for _ in 0..MAX_BATCH_CHANGES {
        if batch.len() >= batch.capacity() {
            break;
        }
        let Some(change) = waiting.pop_front() else {
            break;
        };
        size = change.size().saturating_add(size);
        batch.push_reserved(change);
        let next = match waiting.front() {
            Some(next) => next.size(),
            None => break,
        };
        if next.saturating_add(size) > MAX_BATCH_BYTES {
            break;
        }
    }
}

impl<J: Chronicle, K: Chronicle> Line<J, K> {
    /// A line from which no change was drawn, over a log with these entries. `AllocError` if memory runs out.
    pub fn new(
        alloc: Global,
        opened: Opened<Entry>,
        written: Front<Entry, J>,
    ) -> Result<Line<J, K>, AllocError>
        requires named { opened ≡ K.history }
        ensures empty { IfOk result (λ l. (l.drawn ≡ []) × (l.waiting ≡ []) × (l.done ≡ 0)
            × (l.count ≡ 0) × (l.lost ≡ 0)) }
        ensures open { IfOk result (λ l. (l.is_writing ≡ false) × (l.is_held ≡ false)
            × (l.is_over ≡ false)) }
        ensures all { IfOk result (λ l. l.is_for_removals ≡ false) }
        ensures place { IfOk result (λ l. (l.place ≡ length written)
            × (l.decided ≡ length written)) }
    {
        let room = Vec::with_capacity(alloc, MAX_BATCH_CHANGES)?;
        let (history, drawn) = opened.named();
        Ok(Line {
            history,
            waiting: VecDeque::new(alloc),
            room,
            is_writing: false,
            is_held: false,
            is_over: false,
            is_for_removals: false,
            lost: 0,
            place: written.len(),
            on_disk: OnDisk::none(written.len(), 0, written, drawn.again()),
            drawn,
        })
    }

    /// The log has these entries, which were read and had their turn before any change was drawn here.
    pub fn begin_after(&mut self, written: Front<Entry, J>)
        ensures { self.new ≡ record self.old {
          place = length written;
          decided = length written;
          count = 0;
        } }
    {
        self.place = written.len();
        self.on_disk = OnDisk::none(
            written.len(),
            self.on_disk.number(),
            written,
            self.drawn.again(),
        );
    }

    /// A shorter log took the place of the log, and has `place` entries.
    pub fn go_over(&mut self, place: u64)
        ensures { self.new ≡ record self.old { place = place } }
    {
        self.place = place;
    }

    /// Whether a change may be drawn: it is a removal, or all changes are drawn.
    fn takes(&self, entry: &Entry) -> bool
        ensures { IsTrue result → self.now.is_for_removals ≡ true → IsRemoval entry.now }
    {
        !self.is_for_removals || is_removal(entry)
    }

    /// Draws the next number for a change, and returns a receipt for it. `AllocError` if memory or the numbers run out,
    /// if no change is made any more, or if only removals are drawn and it is none. No number was drawn then.
    pub fn draw(&mut self, change: Spelled, entry: &Entry) -> Result<Receipt<Entry, K>, AllocError>
        requires same { change ≡ entry.now }
        ensures drawn { IfOk result (λ r. (r.number ≡ length self.old.drawn)
            × (r.entry ≡ Some entry.now) × (self.new ≡ has_drawn self.old entry.now)) }
        ensures over { self.old.is_over ≡ true → IsErr result }
        ensures removals { self.old.is_for_removals ≡ true → OnOk result (IsRemoval entry.now) }
        ensures none { OnErr result (self.new ≡ self.old) }
    {
        if self.is_over || self.drawn.len() == u64::MAX || !self.takes(entry) {
            return Err(AllocError);
        }
        let mut drawn = self.drawn.again();
        self.waiting.push_back(change)?;
        let Some(receipt) = Receipt::draw(&mut drawn, &self.history, entry) else {
            self.waiting.pop_back();
            return Err(AllocError);
        };
        self.drawn = drawn;
        Ok(receipt)
    }

    /// Whether it is known of some change that had no turn yet that it is on the disk, or that it could not be written.
    fn is_known(&self) -> bool
        ensures { IsTrue result ↔ (0 < self.now.count + self.now.lost) }
    {
        self.on_disk.count() > 0 || self.lost > 0
    }

    /// What comes next for the change with this receipt.
    pub fn next(&mut self, alloc: Global, change: &Receipt<Entry, K>) -> Next<J, K>
        ensures wait { result ≡ Wait → self.new ≡ self.old }
        ensures write { (batch : _) → result ≡ Write batch
            → Takes self.old self.new batch.entries × MayWrite self.old }
        ensures removals { (batch : _) → result ≡ Write batch
            → AreDrawn self.old.is_for_removals batch.entries }
        ensures commit { (receipt : _) → result ≡ Commit receipt → (self.new ≡ self.old)
            × HasTurn self.old change.now.number × (¬ IsLost self.old change.now.number)
            × (self.old.is_over ≡ false) }
        ensures entry { (receipt : _) → result ≡ Commit receipt
            → (receipt.number ≡ self.old.decided) × (receipt.entry ≡ change.now.entry) }
        ensures refuse { result ≡ Refuse → (self.new ≡ self.old)
            × HasTurn self.old change.now.number
            × ((self.old.is_over ≡ true) ⊎ IsLost self.old change.now.number) }
    {
        if self.on_disk.number() == change.number() && self.is_known() {
            return match self.on_disk.receipt(change) {
                Some(receipt) if !self.is_over => Next::Commit(receipt),
                _ => Next::Refuse,
            };
        }
        if self.may_write() {
            return Next::Write(self.begin_batch(alloc));
        }
        Next::Wait
    }

    /// Whether the change of this number has to wait.
    pub fn is_waiting(&self, number: u64) -> bool
        ensures { HasTurn self.now number → result ≡ false }
    {
        !(self.on_disk.number() == number && self.is_known()) && !self.may_write()
    }

    /// Whether there is something to write, somebody may begin to, and no change that was lost waits for its turn.
    fn may_write(&self) -> bool
        ensures { IsTrue result → MayWrite self.now }
    {
        !self.is_writing && !self.is_held && !self.waiting.is_empty() && self.lost == 0
    }

    /// Nobody may begin to write until `let_go` is called.
    pub fn hold(&mut self)
        ensures { self.new ≡ record self.old { is_held = true } }
    {
        self.is_held = true;
    }

    /// The changes that wait may be written again.
    pub fn let_go(&mut self)
        ensures { self.new ≡ record self.old { is_held = false } }
    {
        self.is_held = false;
    }

    /// Only removals are drawn from now on, until `take_all` is called, and none of the changes that wait is written.
    /// Nothing changes while a batch is being written. Returns whether none is.
    pub fn take_removals(&mut self) -> bool
        ensures when { IsTrue result ↔ (self.old.is_writing ≡ false) }
        ensures taken { IsTrue result
            → self.new ≡ record (has_lost_rest self.old) { is_for_removals = true } }
        ensures busy { result ≡ false → self.new ≡ self.old }
    {
        if self.is_writing {
            return false;
        }
        self.lose_rest();
        self.is_for_removals = true;
        true
    }

    /// All changes are drawn again.
    pub fn take_all(&mut self)
        ensures { self.new ≡ record self.old { is_for_removals = false } }
    {
        self.is_for_removals = false;
    }

    /// Whether only removals are drawn.
    pub fn is_for_removals(&self) -> bool
        ensures { result ≡ self.now.is_for_removals }
    {
        self.is_for_removals
    }

    /// Whether nothing is being written, and all changes that are known to be on the disk or lost had their turn.
    pub fn is_still(&self) -> bool
        ensures { IsTrue result ↔ (self.now.is_writing ≡ false)
            × ((self.now.count ≡ 0) × (self.now.lost ≡ 0)) }
    {
        !self.is_writing && self.on_disk.count() == 0 && self.lost == 0
    }

    /// No change is made from now on: those that were drawn are refused, and no other is drawn.
    pub fn stop(&mut self)
        ensures over { self.new.is_over ≡ true }
        ensures same { (self.new.done ≡ self.old.done) × (self.new.drawn ≡ self.old.drawn) }
    {
        self.is_over = true;
        if !self.is_writing {
            self.lose_rest();
        }
    }

    /// None of those that wait is going to be written.
    fn lose_rest(&mut self)
        ensures { self.new ≡ has_lost_rest self.old }
    {
        self.waiting.clear();
        self.lost = self
            .drawn
            .len()
            .saturating_sub(self.on_disk.number())
            .saturating_sub(self.on_disk.count());
    }

    /// Takes the first of those that wait, and notes that they are being written.
    fn begin_batch(&mut self, alloc: Global) -> Batch<K>
        requires { MayWrite self.old }
        ensures taken { Takes self.old self.new result.entries }
        ensures removals { AreDrawn self.old.is_for_removals result.entries }
    {
        let first = self.drawn.len() - self.waiting.len() as u64;
        let mut changes = mem::replace(&mut self.room, Vec::new(alloc));
        changes.clear();
        fill(&mut self.waiting, &mut changes);
        self.is_writing = true;
        Batch::new(changes, first, self.drawn.again())
    }

    /// A batch was written: its changes are on the disk. If these are not the next ones, which cannot be, no change is
    /// made from now on.
    pub fn note_written(&mut self, batch: Batch<K>, written: &OnDisk<J, K>)
        ensures known { Places self.old written.now → self.old.is_over ≡ false
            → self.new ≡ has_written self.old written.now.count }
        ensures other { (¬ Places self.old written.now) → self.new.is_over ≡ true }
        ensures done { self.new.done ≡ self.old.done }
    {
        let follows = self.on_disk.join(written);
        self.is_over = self.is_over || !follows;
        if self.is_over {
            self.lose_rest();
        }
        self.end_writing(batch);
    }

    /// A batch could not be written. None of those that wait are written either. Others are written only after each of
    /// these had its turn.
    pub fn note_lost(&mut self, batch: Batch<K>)
        ensures { self.new ≡ record (has_lost_rest self.old) { is_writing = false } }
    {
        self.lose_rest();
        self.end_writing(batch);
    }

    /// Nobody writes any more. The memory of the batch is kept for the next one.
    fn end_writing(&mut self, batch: Batch<K>)
        ensures { self.new ≡ record self.old { is_writing = false } }
    {
        self.room = batch.into_changes();
        self.room.clear();
        self.is_writing = false;
    }

    /// The turn of the change whose turn it was is over.
    pub fn end_turn(&mut self)
        ensures { self.new ≡ has_had_turn self.old }
    {
        if self.on_disk.count() > 0 {
            self.on_disk.advance();
            self.place = self.place.saturating_add(1);
        } else if self.lost > 0 {
            self.on_disk.skip();
            self.lost -= 1;
        }
    }

    /// The place in the log of the change whose turn it is, if it is on the disk.
    pub fn place(&self) -> u64
        ensures { result ≡ self.now.place }
    {
        self.place
    }

    /// The number of the change whose turn comes next, and of the first that isn't known to be on the disk or lost.
    pub fn first_two(&self) -> (u64, u64)
        ensures { result ≡ (self.now.done, first_unknown self.now) }
    {
        let first = self.on_disk.number();
        let known = self.on_disk.count().saturating_add(self.lost);
        (first, first.saturating_add(known))
    }
}
