//! Making the log of a store shorter while changes are written to it.
ghost use Rattle.std.specs.Prelude.{◌≡◌, ◌≢◌, ◌++◌, ◌∷◌, [], List, Result, Err, OnOk, OnErr, IsTrue};
ghost use Rattle.up_compact.specs.Heads.{batch_of};
ghost use Rattle.up_log.specs.Logs.{IsSettled};
ghost use Rattle.up_log.specs.declared.entry.Entry.{Entry as Logged};
ghost use Rattle.up_log.specs.declared.setup.Setup.{Setup as Numbers};
ghost use Rattle.up_store.specs.declared.shorter.Kept.TheVariants.{Fault, Unknown};
ghost use Rattle.up_store.specs.declared.shortening.Turn.TheVariants.{Free, Over};

use crate::ended::EndedUploads;
use crate::folder::Folder;
use crate::notices::StoreNotices;
use crate::shorter::{Kept, Shorter, left_out_events};
use crate::store::Store;
use sqlite_disk::Disk;
use std::alloc::Global;
use std::mem;
use std::sync::atomic::{AtomicU64, Ordering};
use std::sync::{Mutex, Wait};
use up_compact::{Head, Heads};
use up_history::Chronicle;
use up_log::LogFault;
use up_tie::Site;

/// How many times at most a shorter log catches up with entries that were added meanwhile, before changes are held up
/// for the rest.
const MAX_ROUNDS: u32 = 16;

/// If this many entries or fewer are left, changes are held up for them.
const FEW: u64 = 64;

/// The heads of a store, and the head that counts.
#[derive(Drop)]
pub struct Current<D: Disk> {
    pub heads: Heads<D>,
    pub head: Head,
}

/// The heads, and whether a shorter log may be written.
#[derive(Drop)]
enum Turn<D: Disk> {
    /// It may.
    Free(Current<D>),
    /// One is being written.
    Taken,
    /// It is not known which log the heads on the disk name. Until the next start no log is made or removed any more.
    Over(Current<D>),
}

/// What makes the log of a store shorter.
#[derive(Drop)]
pub struct Shortening<D: Disk, F> {
    turn: Mutex<Turn<D>>,
    pub(crate) ended: EndedUploads,
    folder: F,
    lanes: u64,
    /// A log is made shorter only if it has more bytes than this.
    least: u64,
    /// The next try is made when the log has more bytes than this.
    next: AtomicU64,
}

impl<D: Disk, F> Shortening<D, F> {
    /// For the store with these heads and this many lanes. Its log is made shorter only if it has more than `least`
    /// bytes.
    pub fn new(
        current: Current<D>,
        ended: EndedUploads,
        folder: F,
        lanes: u64,
        least: u64,
    ) -> Shortening<D, F> {
        Shortening {
            turn: Mutex::new(Turn::Free(current)),
            ended,
            folder,
            lanes,
            least,
            next: AtomicU64::new(least),
        }
    }

    /// The heads, unless a shorter log is being written.
    pub fn into_current(self) -> Option<Current<D>>
    where
        D: Drop,
        F: Drop,
    {
        match self.turn.into_inner() {
            Turn::Free(current) | Turn::Over(current) => Some(current),
            Turn::Taken => None,
        }
    }

    /// How many times the log was made shorter, and how many entries it has at least, according to the last head.
    /// `None` unless a shorter log may be written.
    pub(crate) fn numbers<R: Wait>(&self, rt: &R) -> Option<(u64, u64)> {
        match &*self.turn.lock(rt) {
            Turn::Free(current) => Some((current.head.generation, current.head.entries)),
            _ => None,
        }
    }

    /// Takes the heads to write a shorter log. `None` if one is being written, or if none may be written.
    fn take<R: Wait>(&self, rt: &R) -> Option<Current<D>>
    where
        D: Drop,
    {
        let mut turn = self.turn.lock(rt);
        match mem::replace(&mut *turn, Turn::Taken) {
            Turn::Free(current) => Some(current),
            other => {
                *turn = other;
                None
            }
        }
    }

    /// There is room again, so a log that could not be made shorter is tried again once that is due.
    pub(crate) fn try_again(&self) {
        self.next.store(self.least, Ordering::SeqCst);
    }

    /// Whether the log of the store is long and works, and more than half of it may be left out.
    fn is_due<N, J: Site, K: Chronicle, R: Wait>(&self, rt: &R, store: &Store<D, N, J, K>) -> bool {
        let less = self.ended.bytes(rt);
        if less <= self.least / 2 {
            return false;
        }
        let size = store.size(rt) as u64;
        size > self.next.load(Ordering::SeqCst) && less > size / 2 && store.works()
    }
}

impl<D: Disk + Drop, F: Folder<D>> Shortening<D, F> {
    /// Replaces the log of a store by a shorter one, if that is due and nobody else does it. Changes are made
    /// meanwhile, except for a moment at the end. If it fails, the store keeps the log that it has. If it is then not
    /// known which log the next start finds, no more changes are made.
    pub fn shorten<N: StoreNotices, J: Site, K: Chronicle, R: Wait>(
        &self,
        rt: &R,
        alloc: Global,
        store: &Store<D, N, J, K>,
    ) {
        if !self.is_due(rt, store) {
            return;
        }
        let Some(mut current) = self.take(rt) else {
            return;
        };
        let size = store.size(rt) as u64;
        let replaced = self.replace(rt, alloc, store, &mut current);
        *self.turn.lock(rt) = turn_after(current, &replaced);
        match replaced {
            Ok(()) => {
                self.next.store(self.least, Ordering::SeqCst);
                store.notices.is_shorter(size, store.size(rt) as u64);
            }
            Err(kept) => {
                self.next
                    .store(size.saturating_add(size / 4), Ordering::SeqCst);
                self.tell(store, kept);
            }
        }
    }

    /// Removes what a switch to a shorter log has left: the logs of the generation before the current one, or those of
    /// the next one, which were not ready. It is called once the current log was read to its end. If it has fewer
    /// entries than its head says, nothing is removed.
    pub(crate) fn tidy_up<R: Wait>(&self, rt: &R, entries: u64) {
        let turn = self.turn.lock(rt);
        let Turn::Free(current) = &*turn else {
            return;
        };
        if entries < current.head.entries {
            return;
        }
        let generation = current.head.generation;
        if let Some(next) = generation.checked_add(1) {
            self.folder.remove(next);
        }
        if generation > 0 {
            self.folder.remove(generation - 1);
        }
    }

    /// Reports why the log was not replaced.
    fn tell<N: StoreNotices, J: Site, K: Chronicle>(&self, store: &Store<D, N, J, K>, kept: Kept) {
        match kept {
            Kept::Long | Kept::Full => {}
            Kept::Fault(fault) => store.notices.is_not_shorter(fault),
            Kept::Unknown(fault) => store.notices.stops(fault),
        }
    }

    /// Writes a shorter log, and replaces the log of the store by it. Removes the log that is not used.
    fn replace<N: StoreNotices, J: Site, K: Chronicle, R: Wait>(
        &self,
        rt: &R,
        alloc: Global,
        store: &Store<D, N, J, K>,
        current: &mut Current<D>,
    ) -> Result<(), Kept> {
        let old = current.head.generation;
        let Some(generation) = old.checked_add(1) else {
            return Err(Kept::Long);
        };
        match self.write(rt, alloc, store, current, generation) {
            Ok(()) => {
                self.folder.remove(old);
                Ok(())
            }
            Err(Kept::Unknown(fault)) => Err(Kept::Unknown(fault)),
            Err(kept) => {
                self.folder.remove(generation);
                Err(kept)
            }
        }
    }

    /// Writes the log of this generation, and switches to it.
    fn write<N: StoreNotices, J: Site, K: Chronicle, R: Wait>(
        &self,
        rt: &R,
        alloc: Global,
        store: &Store<D, N, J, K>,
        current: &mut Current<D>,
        generation: u64,
    ) -> Result<(), Kept> {
        let ended = self.ended.list(rt, alloc)?;
        let mut shorter = Shorter::begin(rt, alloc, store, &self.folder, generation, &ended)?;
        for _ in 0..MAX_ROUNDS {
            if shorter.add_settled(rt, alloc, store)? <= FEW {
                break;
            }
        }
        let uploads = &shorter.left_out.uploads;
        let head = Head {
            generation,
            entries: 0,
            left_out: left_out_events(alloc, &current.head, self.lanes, &ended, uploads)?,
        };
        store.hold(rt);
        let switched = self.switch(rt, alloc, store, current, shorter, head);
        if let Err(Kept::Unknown(_)) = switched {
            store.stop(rt);
        }
        store.let_go(rt);
        switched
    }

    /// Adds what is left to a shorter log, while the changes of the store are held up, and switches to it.
    fn switch<N, J: Site, K: Chronicle, R: Wait>(
        &self,
        rt: &R,
        alloc: Global,
        store: &Store<D, N, J, K>,
        current: &mut Current<D>,
        shorter: Shorter<D>,
        head: Head,
    ) -> Result<(), Kept> {
        let (mut shorter, mut head) = (shorter, head);
        shorter.add_settled(rt, alloc, store)?;
        if shorter.progress.count != store.place(rt) || !store.works() {
            return Err(Kept::Fault(LogFault::NotRead));
        }
        head.entries = shorter.progress.stayed;
        current.change(alloc, head)?;
        self.ended.forget(rt, &shorter.left_out.uploads);
        let Shorter {
            changes,
            voids,
            progress,
            ..
        } = shorter;
        let generation = current.head.generation;
        store.switch(rt, changes, voids, progress.stayed, generation);
        Ok(())
    }
}

/// Whether another shorter log may be written after a try.
fn turn_after<D: Disk>(current: Current<D>, replaced: &Result<(), Kept>) -> Turn<D>
    ensures over { (fault : _) → replaced.now ≡ Err (Unknown fault) → result ≡ Over current }
    ensures free { ((fault : _) → replaced.now ≢ Err (Unknown fault)) → result ≡ Free current }
{
    match replaced {
        Err(Kept::Unknown(_)) => Turn::Over(current),
        _ => Turn::Free(current),
    }
}

impl<D: Disk> Current<D> {
    /// Makes this the head that counts. If that fails, the head before it counts, unless the error is `Unknown`.
    fn change(&mut self, alloc: Global, head: Head) -> Result<(), Kept>
        ensures changed { OnOk result (self.new.head ≡ head) }
        ensures durable { (setup : Numbers) (batches : List (List Logged))
            → IsSettled D.Disk self.old.heads.log setup batches
            → OnOk result (IsSettled D.Disk self.new.heads.log setup
            (batches ++ batch_of head ∷ [])) }
        ensures same { OnErr result (self.new.head ≡ self.old.head) }
        ensures fault { (setup : Numbers) (batches : List (List Logged)) (fault : _)
            → IsSettled D.Disk self.old.heads.log setup batches
            → result ≡ Err (Fault fault)
            → IsSettled D.Disk self.new.heads.log setup batches }
        ensures unknown { (fault : _) → result ≡ Err (Unknown fault)
            → IsTrue self.new.heads.log.is_broken }
    {
        match self.heads.add(alloc, &head) {
            Ok(()) => {
                self.head = head;
                Ok(())
            }
            Err(fault) if self.heads.is_broken() => Err(Kept::Unknown(fault)),
            Err(fault) => Err(Kept::Fault(fault)),
        }
    }
}
