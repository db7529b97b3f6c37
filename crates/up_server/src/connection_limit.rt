//! The number of open connections, and its limit.
ghost use Rattle.std.specs.Prelude.{◌≤◌, IfSome};

use std::sync::atomic::{AtomicU64, Ordering};
use std::sync::{Condvar, Mutex, Wait};
use std::time::Duration;

/// How many milliseconds pass at most before something that failed is tried again. It is tried earlier if a connection
/// ends.
const PAUSE: u64 = 100;

/// The number of open connections, and what wakes a thread that waits until one of them ends.
#[derive(Drop)]
pub struct ConnectionLimit {
    open: Mutex<u64>,
    ended: Condvar,
    /// How many connections have ended. A thread in `back_off` sleeps on it.
    ends: AtomicU64,
}

impl ConnectionLimit {
    /// No connection is open.
    pub fn new() -> ConnectionLimit {
        ConnectionLimit {
            open: Mutex::new(0),
            ended: Condvar::new(),
            ends: AtomicU64::new(0),
        }
    }

    /// Waits until fewer than `most` connections are open, opens one, and returns how many are open then. It is proved
    /// that this is from 1 to `most`; tests check that it is the number of open connections.
    pub fn acquire<R: Wait>(&self, rt: &R, most: u64) -> u64
        ensures { (1 ≤ result) × (result ≤ most) }
    {
        let mut open = self
            .ended
            .wait_while(rt, self.open.lock(rt), |open| *open >= most);
        *open += 1;
        *open
    }

    /// Opens a connection if fewer than `most` are open, and returns how many are open then. `None` if `most` are open.
    pub fn try_acquire<R: Wait>(&self, rt: &R, most: u64) -> Option<u64>
        ensures { IfSome result (λ count. (1 ≤ count) × (count ≤ most)) }
    {
        let mut open = self.open.lock(rt);
        if *open >= most {
            return None;
        }
        *open += 1;
        Some(*open)
    }

    /// Whether no connection is open.
    pub fn is_empty<R: Wait>(&self, rt: &R) -> bool {
        *self.open.lock(rt) == 0
    }

    /// Ends a connection.
    pub fn release<R: Wait>(&self, rt: &R) {
        let mut open = self.open.lock(rt);
        *open = open.saturating_sub(1);
        self.ends.fetch_add(1, Ordering::SeqCst);
        self.ended.notify_one();
        drop(open);
        self.ends.wake_one();
    }

    /// Ends a connection that could not be served because descriptors, memory or threads ran out. `open_count` is what
    /// `acquire` returned for it. Waits until one of the others ends, unless one has ended since then, and for at most
    /// 100 ms, because what is missing may also come from elsewhere.
    pub fn release_and_back_off<R: Wait>(&self, rt: &R, open_count: u64)
        requires { 1 ≤ open_count }
    {
        self.release(rt);
        self.back_off(rt, open_count - 1);
    }

    /// Waits until a connection ends, for at most 100 ms. Does not wait if fewer than `others` connections are open.
    pub fn back_off<R: Wait>(&self, rt: &R, others: u64) {
        let open = self.open.lock(rt);
        let is_early = *open >= others;
        let seen = (self.ends.load(Ordering::SeqCst) & 0xffff_ffff) as u32;
        drop(open);
        if is_early {
            self.ends
                .park_timeout(rt, seen, Duration::from_millis(PAUSE));
        }
    }
}
