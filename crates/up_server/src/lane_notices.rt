//! Who is told about lanes that wait, and about the state of a server.
use crate::ending::Ending;
use crate::patience::milliseconds;
use crate::status::Status;
use crate::watch::Watch;
use std::alloc::{AllocError, Global};
use std::marker::Sync;
use std::sync::atomic::{AtomicU64, Ordering};
use up_dispatch::Counts;

/// Why a lane waits.
#[derive(Clone, Copy, PartialEq, Eq)]
pub enum LaneWait {
    /// Its post-hook has no memory for another event.
    ForMemory,
    /// Its post-hook has not settled the last event.
    WithLastEvent,
}

/// Who is told about lanes that wait, and about the state of the server. For each lane, the two calls alternate: it
/// waits, and it goes on.
pub trait LaneNotices: Sync {
    /// The post-hook of this lane has not been ready for another event since this millisecond of the system's clock. The
    /// lane waits until it is.
    fn waits(&self, lane: u64, why: LaneWait, since: u64);

    /// The lane goes on.
    fn goes_on(&self, lane: u64);

    /// Whether the run ends in order, and the lanes have time left to hand over what is left.
    fn has_time(&self) -> bool;

    /// How often the state of the server is reported, if it is.
    fn watch(&self) -> Option<&Watch>;

    /// The state of the server. These are the counts of its board.
    fn state(&self, counts: Counts);
}

/// Prints a line on standard error. If that is closed, nobody is told.
#[derive(Drop)]
pub struct OnStderr<'a, R> {
    rt: &'a R,
    watch: Option<&'a Watch>,
    ending: Option<&'a Ending>,
    /// The lanes that wait, as one bit per lane.
    stopped: AtomicU64,
    /// Those of them that wait with their last event.
    unsettled: AtomicU64,
    /// Since when each lane waits that waits with its last event, in milliseconds of the system's clock.
    since: Vec<AtomicU64>,
}

/// The bit of a lane.
pub fn bit(lane: u64) -> u64 {
    1 << (lane % 64)
}

impl<'a, R> OnStderr<'a, R> {
    /// None of this number of lanes waits. `AllocError` if memory runs out.
    pub fn new(
        rt: &'a R,
        alloc: Global,
        lanes: usize,
        watch: Option<&'a Watch>,
        ending: Option<&'a Ending>,
    ) -> Result<Self, AllocError> {
        let mut since = Vec::with_capacity(alloc, lanes)?;
        for _ in 0..lanes {
            since.push(AtomicU64::new(0))?;
        }
        Ok(OnStderr {
            rt,
            watch,
            ending,
            stopped: AtomicU64::new(0),
            unsettled: AtomicU64::new(0),
            since,
        })
    }

    /// For how many seconds the longest of the lanes waits that wait with their last event. `None` if none does.
    fn oldest(&self) -> Option<u64> {
        let unsettled = self.unsettled.load(Ordering::SeqCst);
        let mut oldest = None;
        for (lane, since) in (0..).zip(&self.since) {
            if unsettled & bit(lane) != 0 {
                let age = milliseconds().saturating_sub(since.load(Ordering::SeqCst)) / 1000;
                oldest = oldest.max(Some(age));
            }
        }
        oldest
    }
}

impl<R: Eprint + Sync> LaneNotices for OnStderr<'_, R> {
    fn waits(&self, lane: u64, why: LaneWait, since: u64) {
        self.stopped.fetch_add(bit(lane), Ordering::SeqCst);
        let what = match why {
            LaneWait::ForMemory => "for memory",
            LaneWait::WithLastEvent => {
                if let Some(place) = self.since.get(lane as usize) {
                    place.store(since, Ordering::SeqCst);
                }
                self.unsettled.fetch_add(bit(lane), Ordering::SeqCst);
                "with its last event"
            }
        };
        let _ = eprintln!(self.rt; "up_server: lane {lane} waits {what}");
    }

    fn goes_on(&self, lane: u64) {
        self.stopped.fetch_sub(bit(lane), Ordering::SeqCst);
        let held = self.unsettled.load(Ordering::SeqCst) & bit(lane);
        self.unsettled.fetch_sub(held, Ordering::SeqCst);
        let _ = eprintln!(self.rt; "up_server: lane {lane} goes on");
    }

    fn has_time(&self) -> bool {
        match self.ending {
            Some(ending) => ending.has_time(),
            None => false,
        }
    }

    fn watch(&self) -> Option<&Watch> {
        self.watch
    }

    fn state(&self, counts: Counts) {
        let Some(watch) = self.watch else {
            return;
        };
        let status = Status {
            counts,
            open: watch.open(),
            stopped: self.stopped.load(Ordering::SeqCst),
            unsettled: self.unsettled.load(Ordering::SeqCst),
            oldest: self.oldest(),
        };
        let _ = eprintln!(self.rt; "up_server: {status}");
    }
}

/// Nobody is told.
pub struct Nobody;

impl LaneNotices for Nobody {
    fn waits(&self, _lane: u64, _why: LaneWait, _since: u64) {}

    fn goes_on(&self, _lane: u64) {}

    fn has_time(&self) -> bool {
        false
    }

    fn watch(&self) -> Option<&Watch> {
        None
    }

    fn state(&self, _counts: Counts) {}
}
