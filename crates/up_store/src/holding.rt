//! What a store offers to those who make its log shorter, and how they hold up changes.
use crate::store::Store;
use sqlite_disk::Disk;
use std::alloc::Global;
use std::collections::BTreeSet;
use std::sync::Wait;
use std::sync::atomic::Ordering;
use up_history::Chronicle;
use up_log::{Entry, LogFault};
use up_message::Sequence;
use up_places::NoFiles;
use up_tie::Site;

impl<D: Disk, N, J: Site, K: Chronicle> Store<D, N, J, K> {
    /// The size of the log in bytes, or 0 if it is not open.
    pub(crate) fn size<R: Wait>(&self, rt: &R) -> usize {
        match self.log.lock(rt).written() {
            Some(written) => written.end_place(),
            None => 0,
        }
    }

    /// Whether the last batch could be written.
    pub(crate) fn works(&self) -> bool {
        !self.is_failing.load(Ordering::SeqCst)
    }

    /// The batch at a place of the log, and the place after it. `None` at the end of the log. `NotRead` if the log is
    /// not open; else the error is that of the read.
    pub(crate) fn batch_at<R: Wait>(
        &self,
        rt: &R,
        alloc: Global,
        place: usize,
    ) -> Result<Option<(Sequence<Entry>, usize)>, LogFault> {
        match self.log.lock(rt).written_mut() {
            Some(written) => written.batch_at(alloc, place, &NoFiles),
            None => Err(LogFault::NotRead),
        }
    }

    /// The places of the void entries. `NotRead` if their log was not read yet; else the error is that of the read.
    pub(crate) fn void_places<R: Wait>(
        &self,
        rt: &R,
        alloc: Global,
    ) -> Result<BTreeSet<u64>, LogFault> {
        match self.voids.lock(rt).as_mut() {
            Some(voids) => voids.places(alloc),
            None => Err(LogFault::NotRead),
        }
    }

    /// Holds up the changes that wait, until `let_go`. Returns when nothing is being written and every change that was
    /// written has had its turn.
    pub(crate) fn hold<R: Wait>(&self, rt: &R) {
        let mut line = self.line.lock(rt);
        line.hold();
        let _line = self.stillness.wait_while(rt, line, |line| !line.is_still());
    }

    /// Makes no change from now on.
    pub(crate) fn stop<R: Wait>(&self, rt: &R) {
        self.line.lock(rt).stop();
    }

    /// Lets the changes go on that were held up.
    pub(crate) fn let_go<R: Wait>(&self, rt: &R) {
        let mut line = self.line.lock(rt);
        line.let_go();
        self.go_on(line.first_two());
    }
}
