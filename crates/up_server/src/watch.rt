//! The number of open connections, for the status reports of a server.
use std::sync::atomic::{AtomicU64, Ordering};

/// How often the status of a server is reported, and how many connections are open.
#[derive(Drop)]
pub struct Watch {
    seconds: u64,
    open: AtomicU64,
}

impl Watch {
    /// The status is reported every `seconds` seconds. No connection is open.
    pub fn each(seconds: u64) -> Watch {
        Watch {
            seconds,
            open: AtomicU64::new(0),
        }
    }

    /// The number of seconds from one report to the next.
    pub fn seconds(&self) -> u64 {
        self.seconds
    }

    /// The number of open connections.
    pub fn open(&self) -> u64 {
        self.open.load(Ordering::SeqCst)
    }

    /// One more connection is open.
    pub(crate) fn begin(&self) {
        self.open.fetch_add(1, Ordering::SeqCst);
    }

    /// A connection has ended.
    pub(crate) fn end(&self) {
        self.open.fetch_sub(1, Ordering::SeqCst);
    }
}
