//! What is done for a store from time to time, whether or not there are changes.
use crate::folder::Folder;
use crate::held::LogFile;
use crate::keeping::Keeping;
use crate::notices::StoreNotices;
use crate::store::Store;
use sqlite_disk::Disk;
use std::alloc::Global;
use std::sync::Wait;
use std::sync::atomic::Ordering;
use std::time::Duration;
use up_history::Chronicle;
use up_tie::Site;

/// How many seconds pass before the store is checked again.
const PAUSE: u64 = 1;

impl<D: Disk + Drop, N: StoreNotices + LogFile<D>, J: Site, K: Chronicle> Store<D, N, J, K> {
    /// Whether the file of the log is gone, once the log was read. From then on no change is made, which is reported
    /// once.
    pub fn is_gone<R: Wait>(&self, rt: &R) -> bool {
        if self.is_gone.load(Ordering::SeqCst) {
            return true;
        }
        let Some(generation) = self.log.lock(rt).generation() else {
            return false;
        };
        if self.notices.is_there(rt, generation) {
            return false;
        }
        self.is_gone.store(true, Ordering::SeqCst);
        let mut line = self.line.lock(rt);
        line.stop();
        self.go_on(line.first_two());
        self.notices.is_gone();
        true
    }

    /// Opens the log again if a call on it failed, and reports that it works again.
    pub fn tend<R: Wait>(&self, rt: &R) {
        let mut held = self.log.lock(rt);
        if !held.is_failed() || held.open_again(&self.notices).is_err() {
            return;
        }
        drop(held);
        if self.is_mended(rt) {
            self.notices.works();
        }
    }
}

impl<D: Disk + Drop, N: StoreNotices + LogFile<D>, F: Folder<D>, J: Site, K: Chronicle> Keeping<
    D,
    N,
    F,
    J,
    K,
> {
    /// Tends the store every second, until `stop_tending` is called: opens its log again if a call on it failed, takes
    /// all changes again if only removals are taken and there is room again, and makes the log shorter if that is due.
    /// If the file of the log is gone, no change is made from then on.
    pub fn tend<R: Wait>(&self, rt: &R, alloc: Global) {
        for _ in rt.forever() {
            self.is_over.park_timeout(rt, 0, Duration::from_secs(PAUSE));
            if self.is_over.load(Ordering::SeqCst) != 0 {
                break;
            }
            if self.store.is_gone(rt) {
                continue;
            }
            self.store.tend(rt);
            if self.store.make_up_room(rt) {
                self.shortening.try_again();
            }
            self.store.notices.is_later();
            self.shortening.shorten(rt, alloc, &self.store);
        }
    }

    /// Ends `tend`.
    pub fn stop_tending(&self) {
        self.is_over.store(1, Ordering::SeqCst);
        self.is_over.wake_all();
    }
}
