//! Stores on a full disk: only removals are drawn, and get the room that is kept for them.
use crate::notices::StoreNotices;
use crate::removal::is_removal;
use crate::store::Store;
use sqlite_disk::Disk;
use std::sync::Wait;
use std::sync::atomic::Ordering;
use up_history::Chronicle;
use up_log::Entry;
use up_tie::Site;

impl<D: Disk, N, J: Site, K: Chronicle> Store<D, N, J, K> {
    /// Whether only removals are drawn.
    pub(crate) fn is_for_removals<R: Wait>(&self, rt: &R) -> bool {
        self.line.lock(rt).is_for_removals()
    }

    /// The change whose turn it was could not be written, and has had its turn. If it is a removal and the disk failed,
    /// only removals are drawn from now on. Returns whether that is so, and the removal is to be tried again.
    pub(crate) fn end_lost_turn<R: Wait>(&self, rt: &R, change: &Entry) -> bool {
        let mut line = self.line.lock(rt);
        let is_tried_again = is_removal(change)
            && self.is_full.load(Ordering::SeqCst)
            && (line.is_for_removals() || line.take_removals());
        line.end_turn();
        self.go_on(line.first_two());
        is_tried_again
    }

    /// The log was opened again. Returns whether changes could not be written before, and can be now.
    pub(crate) fn is_mended<R: Wait>(&self, rt: &R) -> bool {
        let line = self.line.lock(rt);
        if line.is_for_removals() {
            return false;
        }
        self.is_full.store(false, Ordering::SeqCst);
        self.is_failing.swap(false, Ordering::SeqCst)
    }

    /// All changes are drawn again.
    fn take_all<R: Wait>(&self, rt: &R) {
        let mut line = self.line.lock(rt);
        line.take_all();
        self.is_full.store(false, Ordering::SeqCst);
        self.is_failing.store(false, Ordering::SeqCst);
    }
}

impl<D: Disk, N: StoreNotices, J: Site, K: Chronicle> Store<D, N, J, K> {
    /// Keeps room on the disk for removals, and reports that the log was read, with this many entries. If there isn't
    /// enough room, only removals are drawn until there is, which is reported too. It is called when the store is open,
    /// before any change is drawn.
    pub fn begin<R: Wait>(&self, rt: &R, entries: u64) {
        let kept = self.notices.keeps_room(false);
        if kept.is_err() {
            self.is_failing.store(true, Ordering::SeqCst);
            self.line.lock(rt).take_removals();
        }
        self.notices.is_restored(entries);
        if let Err(fault) = kept {
            self.notices.fails(fault);
        }
    }

    /// If only removals are drawn, and the disk has room again for what is kept for removals and for other changes, all
    /// changes are drawn from now on. Changes are held up meanwhile. Returns whether that happened.
    pub fn make_up_room<R: Wait>(&self, rt: &R) -> bool {
        if !self.is_for_removals(rt) || self.log.lock(rt).is_failed() {
            return false;
        }
        self.hold(rt);
        let has_room = self.notices.keeps_room(true).is_ok();
        if has_room {
            self.take_all(rt);
        }
        self.let_go(rt);
        if has_room {
            self.notices.works();
        }
        has_room
    }
}
