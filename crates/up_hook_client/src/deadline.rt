//! When an answer has to be there.
use crate::no_answer::NoAnswer;
use std::sync::atomic::{AtomicU64, Ordering};
use std::time::{Clock, Duration};

/// For how many seconds a read waits until it looks again whether a run has come to its end.
const SLICE: u64 = 1;

/// A moment of the system's clock that never goes back. If a run comes to its end before, that is the moment.
#[derive(Clone, Copy)]
pub struct Deadline<'a> {
    at: Duration,
    /// When the run ends, in milliseconds of that clock. 0 while nobody knows.
    end: Option<&'a AtomicU64>,
}

impl<'a> Deadline<'a> {
    /// The moment after this time, or the end of a run. The error is that the clock can't be read.
    pub fn after<R: Clock>(
        rt: &R,
        time: Duration,
        end: Option<&'a AtomicU64>,
    ) -> Result<Deadline<'a>, NoAnswer> {
        let at = rt.monotonic()?.checked_add(time).ok_or(NoAnswer::Late)?;
        Ok(Deadline { at, end })
    }

    /// The moment.
    fn moment(&self) -> Duration {
        let Some(end) = self.end else {
            return self.at;
        };
        match end.load(Ordering::SeqCst) {
            0 => self.at,
            end => self.at.min(Duration::from_millis(end)),
        }
    }

    /// The time that is left. `Late` if none is.
    pub fn left<R: Clock>(&self, rt: &R) -> Result<Duration, NoAnswer> {
        match self.moment().checked_sub(rt.monotonic()?) {
            Some(left) if !left.is_zero() => Ok(left),
            _ => Err(NoAnswer::Late),
        }
    }

    /// The time that is left, or a second if more is left. `Late` if none is.
    pub fn slice<R: Clock>(&self, rt: &R) -> Result<Duration, NoAnswer> {
        Ok(self.left(rt)?.min(Duration::from_secs(SLICE)))
    }
}
