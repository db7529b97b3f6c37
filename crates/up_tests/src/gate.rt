//! A closure that waits until another request than its own got its response. Every wait ends at some time, so that a
//! server that makes one request wait for another fails a test instead of hanging.
ghost use Rattle.std.specs.Prelude.{IsTrue};
ghost use Rattle.up_hooks.specs.Verdicts.{is_allowed_verdict};

use std::sync::atomic::{AtomicBool, Ordering};
use std::thread;
use up_machine::{Reason, Verdict};

/// A request that creates an upload of one byte.
pub static POST: &[u8] = b"POST /files/ HTTP/1.1\r\nHost: a\r\nTus-Resumable: 1.0.0\r\n\
    Upload-Length: 1\r\nConnection: close\r\n\r\n";

/// A request for an upload that does not exist.
pub static HEAD: &[u8] = b"HEAD /files/00000000000000000000000000000009 HTTP/1.1\r\nHost: a\r\n\
    Tus-Resumable: 1.0.0\r\nConnection: close\r\n\r\n";

/// Waits until the flag is set, and returns whether it was.
pub fn is_set_in_time(flag: &AtomicBool) -> bool {
    for _ in 0..1_000_000u32 {
        if flag.load(Ordering::SeqCst) {
            return true;
        }
        thread::yield_now();
    }
    false
}

/// Connects the closure of one request with the caller of another.
#[derive(Drop)]
pub struct Gate {
    /// The closure was called.
    inside: AtomicBool,
    /// The other request got its response.
    answered: AtomicBool,
}

impl Gate {
    /// The closure was not called, and no request got a response.
    pub fn new() -> Gate {
        Gate {
            inside: AtomicBool::new(false),
            answered: AtomicBool::new(false),
        }
    }

    /// The closure's verdict: it allows once the other request got its response, and refuses with 429 if that takes too
    /// long.
    pub fn judge(&self) -> Verdict
        ensures { IsTrue (is_allowed_verdict result) }
    {
        self.inside.store(true, Ordering::SeqCst);
        if is_set_in_time(&self.answered) {
            return Verdict::Allow;
        }
        let reason = Reason::new(b"the other was not answered").unwrap();
        Verdict::Refuse {
            status: 429,
            reason,
        }
    }

    /// Waits until the closure was called, and returns whether it was.
    pub fn is_called_in_time(&self) -> bool {
        is_set_in_time(&self.inside)
    }

    /// Notifies the closure that the other request got its response.
    pub fn open(&self) {
        self.answered.store(true, Ordering::SeqCst);
    }
}
