//! What is printed about accepting connections.
use std::sync::{Mutex, Wait};
use std::time::Clock;
use up_server::{Due, Entrance, Notices, Said};

/// Prints lines on standard error about accepting connections, no two of them within a second.
#[derive(Drop)]
pub struct NoticeLines<'a, R> {
    rt: &'a R,
    said: Mutex<Said>,
}

impl<'a, R> NoticeLines<'a, R> {
    /// No line was printed yet.
    pub fn new(rt: &'a R) -> NoticeLines<'a, R> {
        NoticeLines {
            rt,
            said: Mutex::new(Said::new()),
        }
    }
}

/// The milliseconds of the system's clock that never goes back, or 0 if there is none.
pub fn milliseconds<R: Clock>(rt: &R) -> u64 {
    match rt.monotonic() {
        Ok(time) => u64::try_from(time.as_millis()).unwrap_or(u64::MAX),
        Err(_) => 0,
    }
}

impl<R: Eprint + Clock + Wait> Notices for NoticeLines<'_, R> {
    fn tell(&self, entrance: Entrance) -> bool {
        let now = milliseconds(self.rt);
        let due = self.said.lock(self.rt).note(entrance, now);
        match due {
            Due::Say => {
                let _ = eprintln!(self.rt; "up_server: {entrance}");
                !matches!(entrance, Entrance::Wanting(_))
            }
            Due::Later => false,
            Due::Nothing => true,
        }
    }
}
