//! What the seats of a store share.
ghost use Rattle.std.specs.Prelude.{◌≡◌, [], All, IfOk, IfSome, IsTrue, Some};
ghost use Rattle.up_store.specs.Lines.{IsRemoval};
ghost use Rattle.up_store.specs.declared.line.Next.TheVariants.{Commit, Write};

use crate::held::{Held, LogFile};
use crate::line::{Line, Next};
use crate::notices::StoreNotices;
use crate::restoring::Logs;
use crate::voids::Voids;
use sqlite_disk::Disk;
use std::alloc::{AllocError, Global};
use std::sync::atomic::{AtomicBool, Ordering};
use std::sync::{Condvar, Mutex, Wait};
use up_history::{Chronicle, Opened, Receipt};
use up_log::{Entry, Log, LogFault, Spelled};
use up_tie::{Batch, LogHistory, NewHistory, OnDisk, Site};

/// The number of bells. If there are more connections, they share them.
const BELLS: u64 = 64;

/// How much of the memory in which a batch was put together is kept for the next one, at most, in bytes: 16 MiB.
const MAX_ROOM: usize = 1 << 24;

/// The histories of a store, before they have names.
#[derive(Drop)]
pub struct Histories {
    /// What is written to the log.
    pub written: NewHistory,
    /// The changes in the order in which they are drawn.
    pub drawn: Opened<Entry>,
}

impl Histories {
    /// New histories. Takes no memory.
    pub fn new() -> Histories {
        Histories {
            written: NewHistory::new(),
            drawn: Opened::new(),
        }
    }
}

/// A log, and the line of the changes that wait to be written to it and to be made. A thread that waits for its change
/// writes the changes that wait, if no other thread does. Only the lock of the log is held meanwhile.
#[derive(Drop)]
pub struct Store<D: Disk, N, J: Site, K: Chronicle> {
    pub(crate) line: Mutex<Line<J, K>>,
    pub(crate) log: Mutex<Held<D, J>>,
    /// The memory in which whoever writes gathers the short parts of a batch.
    room: Mutex<Vec<u8>>,
    pub(crate) voids: Mutex<Option<Voids<D>>>,
    /// A change waits at the bell whose place is its number modulo `BELLS`.
    bells: Vec<Condvar>,
    /// Wakes the thread that waits until nothing is being written and every change has had its turn.
    pub(crate) stillness: Condvar,
    /// Whether the last batch could not be written, or only removals are drawn.
    pub(crate) is_failing: AtomicBool,
    /// Whether the disk failed when the last batch was written.
    pub(crate) is_full: AtomicBool,
    /// Whether the file of the log is gone.
    pub(crate) is_gone: AtomicBool,
    pub(crate) notices: N,
}

impl<D: Disk, N, J: Site, K: Chronicle> Store<D, N, J, K> {
    /// A store whose logs were not read yet, so that nothing can be written. Also returns the history of what is
    /// in the log, for who reads it. The error is that memory ran out.
    pub fn unread(
        alloc: Global,
        notices: N,
        histories: Histories,
    ) -> Result<(Store<D, N, J, K>, LogHistory<J>), AllocError>
    where
        D: Drop,
        N: Drop,
        requires written { histories.written ≡ J.history }
        requires drawn { histories.drawn ≡ K.history }
        ensures { IfOk result (λ r. r.1 ≡ []) }
    {
        let mut bells = Vec::new(alloc);
        for _ in 0..BELLS {
            bells.push(Condvar::new())?;
        }
        let Histories { written, drawn } = histories;
        let history: LogHistory<J> = written.named();
        let line = Line::new(alloc, drawn, history.front())?;
        let store = Store {
            line: Mutex::new(line),
            log: Mutex::new(Held::unread()),
            room: Mutex::new(Vec::new(alloc)),
            voids: Mutex::new(None),
            bells,
            stillness: Condvar::new(),
            is_failing: AtomicBool::new(false),
            is_full: AtomicBool::new(false),
            is_gone: AtomicBool::new(false),
            notices,
        };
        Ok((store, history))
    }

    /// Opens the store with logs of this generation, which were read to their ends, and to which nobody else writes.
    pub fn open<R: Wait>(&self, rt: &R, logs: Logs<D, J>, generation: u64)
    where
        D: Drop,
    {
        let Logs { changes, voids, .. } = logs;
        self.line.lock(rt).begin_after(changes.front());
        *self.voids.lock(rt) = Some(voids);
        self.log.lock(rt).open(changes, generation);
    }

    /// Goes on with these shorter logs, which are of this generation. That of the changes has `count` entries. It is
    /// called while the line is held up.
    pub(crate) fn switch<R: Wait>(
        &self,
        rt: &R,
        changes: Log<D>,
        voids: Voids<D>,
        count: u64,
        generation: u64,
    )
    where
        D: Drop,
    {
        self.line.lock(rt).go_over(count);
        *self.voids.lock(rt) = Some(voids);
        self.log.lock(rt).switch(changes, generation);
    }

    /// The logs, with everything that was written to them. `None` if the store was never opened, or if the log of the
    /// changes is not open.
    pub fn into_logs(self) -> Option<Logs<D, J>>
    where
        D: Drop,
        N: Drop,
    {
        let count = self.line.into_inner().place();
        let (changes, voids) = (
            self.log.into_inner().into_written(),
            self.voids.into_inner(),
        );
        Some(Logs {
            changes: changes?,
            voids: voids?,
            count,
        })
    }

    /// Draws the next number for a change, and returns a receipt for it. The error is that memory or the numbers ran
    /// out, that no change is made any more, or that only removals are drawn and this is none.
    pub(crate) fn draw<R: Wait>(
        &self,
        rt: &R,
        change: Spelled,
        entry: &Entry,
    ) -> Result<Receipt<Entry, K>, AllocError>
        requires same { change ≡ entry.now }
        ensures { IfOk result (λ r. r.entry ≡ Some entry.now) }
    {
        self.line.lock(rt).draw(change, entry)
    }

    /// The place in the log of the change whose turn it is, which is the number of entries that had their turn before.
    pub(crate) fn place<R: Wait>(&self, rt: &R) -> u64 {
        self.line.lock(rt).place()
    }

    /// Wakes the threads that wait at the bell of this number.
    fn ring(&self, number: u64) {
        if let Some(bell) = self.bells.get((number % BELLS) as usize) {
            bell.notify_all();
        }
    }

    /// Wakes the threads that may go on: those at the bells of these two numbers, and one that holds up the line.
    pub(crate) fn go_on(&self, first: (u64, u64)) {
        self.ring(first.0);
        self.ring(first.1);
        self.stillness.notify_all();
    }

    /// Waits until there is something to do for the change with this receipt. Returns what, and whether only removals
    /// are drawn.
    fn next<R: Wait>(&self, rt: &R, alloc: Global, change: &Receipt<Entry, K>) -> (Next<J, K>, bool)
        ensures entry { (receipt : _) → result.0 ≡ Commit receipt
            → receipt.entry ≡ change.now.entry }
        ensures removals { (batch : _) → result.0 ≡ Write batch → IsTrue result.1
            → All IsRemoval batch.entries }
    {
        let number = change.number();
        let line = self.line.lock(rt);
        let Some(bell) = self.bells.get((number % BELLS) as usize) else {
            return (Next::Refuse, false);
        };
        let mut line = bell.wait_while(rt, line, |line| line.is_waiting(number));
        let for_removals = line.is_for_removals();
        (line.next(alloc, change), for_removals)
    }

    /// The change whose turn it was has had it.
    pub(crate) fn end_turn<R: Wait>(&self, rt: &R) {
        let mut line = self.line.lock(rt);
        line.end_turn();
        self.go_on(line.first_two());
    }
}

impl<D: Disk + Drop, N: StoreNotices + LogFile<D>, J: Site, K: Chronicle> Store<D, N, J, K> {
    /// Appends a batch to the log.
    fn append<R: Wait>(
        &self,
        rt: &R,
        alloc: Global,
        batch: &Batch<K>,
    ) -> Result<OnDisk<J, K>, LogFault> {
        let mut room = self.room.lock(rt);
        let written = self.log.lock(rt).append(&mut room, &self.notices, batch);
        if room.capacity() > MAX_ROOM {
            *room = Vec::new(alloc);
        }
        written
    }

    /// Reports it if writing has begun to fail or works again. While only removals are drawn it doesn't work again.
    fn tell(&self, written: &Result<OnDisk<J, K>, LogFault>, for_removals: bool) {
        if for_removals && written.is_ok() {
            return;
        }
        let is_full = matches!(written, Err(LogFault::Disk(_)));
        self.is_full.store(is_full, Ordering::SeqCst);
        let was_failing = self.is_failing.swap(written.is_err(), Ordering::SeqCst);
        match written {
            Ok(_) if was_failing => self.notices.works(),
            Err(fault) if !was_failing => self.notices.fails(*fault),
            _ => {}
        }
    }

    /// Appends a batch of removals to the log. If the disk fails, the room that is kept for removals is freed, and the
    /// batch is tried again.
    fn append_removals<R: Wait>(
        &self,
        rt: &R,
        alloc: Global,
        batch: &Batch<K>,
    ) -> Result<OnDisk<J, K>, LogFault>
        requires removals { All IsRemoval batch.now.entries }
    {
        match self.append(rt, alloc, batch) {
            Err(LogFault::Disk(_)) if self.notices.makes_room(batch) => {
                self.append(rt, alloc, batch)
            }
            written => written,
        }
    }

    /// Writes a batch, and notes the result in the line.
    fn write<R: Wait>(&self, rt: &R, alloc: Global, batch: Batch<K>, for_removals: bool)
        requires removals { IsTrue for_removals → All IsRemoval batch.entries }
    {
        let written = if for_removals {
            self.append_removals(rt, alloc, &batch)
        } else {
            self.append(rt, alloc, &batch)
        };
        self.tell(&written, for_removals);
        let mut line = self.line.lock(rt);
        match &written {
            Ok(on_disk) => line.note_written(batch, on_disk),
            Err(_) => line.note_lost(batch),
        }
        self.go_on(line.first_two());
    }

    /// Waits for the turn of the change with this receipt, and writes batches meanwhile if nobody else does. Returns a
    /// receipt for its entry in the log, or `None` if it isn't on the disk or may not be made.
    pub(crate) fn await_turn<R: Wait>(
        &self,
        rt: &R,
        alloc: Global,
        change: &Receipt<Entry, K>,
    ) -> Option<Receipt<Entry, J>>
        ensures { IfSome result (λ r. r.entry ≡ change.now.entry) }
    {
        for _ in rt.forever() {
            let (next, for_removals) = self.next(rt, alloc, change);
            match next {
                Next::Wait => {}
                Next::Write(batch) => self.write(rt, alloc, batch, for_removals),
                Next::Commit(receipt) => return Some(receipt),
                Next::Refuse => break,
            }
        }
        None
    }

    /// Writes down that the change whose turn it is was not made. Takes no memory. If that can't be written, no other
    /// change can be made, because it might be decided differently when the log is read again.
    pub(crate) fn note_void<R: Wait>(&self, rt: &R) {
        let place = self.place(rt);
        let written = match self.voids.lock(rt).as_mut() {
            Some(voids) => voids.add(place),
            None => Err(LogFault::NotRead),
        };
        if let Err(fault) = written {
            self.line.lock(rt).stop();
            self.notices.stops(fault);
        }
    }
}
