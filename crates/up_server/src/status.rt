//! The lines on standard error about the state of a server.
use crate::lane_notices::{LaneNotices, bit};
use crate::patience::milliseconds;
use crate::runner::Runner;
use crate::watch::Watch;
use std::alloc::AllocError;
use std::fmt;
use std::marker::{Send, Sync};
use std::sync::Wait;
use std::thread::{Scope, Threads};
use up_dispatch::{Board, Counts, Naming};

/// The state of a server.
#[derive(Clone, Copy)]
pub struct Status {
    /// What is counted on its board.
    pub counts: Counts,
    /// The number of open connections.
    pub open: u64,
    /// The lanes that wait, a bit for each.
    pub stopped: u64,
    /// Those of them that wait with their last event, which the board doesn't count as waiting.
    pub unsettled: u64,
    /// For how many seconds the longest of these waits.
    pub oldest: Option<u64>,
}

impl Status {
    /// Writes what is counted.
    fn write_counts<W: fmt::Write>(&self, f: &mut fmt::Formatter<W>) -> fmt::Result {
        let Counts {
            uploads,
            bytes,
            changes,
            ..
        } = self.counts;
        let open = self.open;
        write!(
            f,
            "uploads {uploads}, bytes {bytes}, changes {changes}, connections {open}"
        )
    }

    /// Writes how a lane is doing.
    fn write_lane<W: fmt::Write>(
        &self,
        f: &mut fmt::Formatter<W>,
        lane: u64,
        waiting: u64,
    ) -> fmt::Result {
        let how = if self.stopped & bit(lane) == 0 {
            "drains"
        } else {
            "stopped"
        };
        let held = u64::from(self.unsettled & bit(lane) != 0);
        let waiting = waiting.saturating_add(held);
        write!(f, ", lane {lane} {how} ({waiting} waiting)")
    }
}

impl fmt::Display for Status {
    fn fmt<W: fmt::Write>(&self, f: &mut fmt::Formatter<W>) -> fmt::Result {
        self.write_counts(f)?;
        for (lane, waiting) in (0..self.counts.lanes).zip(&self.counts.waiting) {
            self.write_lane(f, lane, *waiting)?;
        }
        match self.oldest {
            Some(seconds) => write!(f, ", the oldest for {seconds} s"),
            None => Ok(()),
        }
    }
}

/// Reports the state of the server, if somebody watches it.
pub fn say<B: Naming + Send + Sync, N: LaneNotices, T: Wait>(
    rt: &T,
    board: &Board<B>,
    notices: &N,
) {
    if notices.watch().is_some() {
        notices.state(board.counts(rt));
    }
}

/// Reports it at the interval of `watch`, until the board is closed.
fn say_each<B: Naming + Send + Sync, N: LaneNotices, T: Wait>(
    rt: &T,
    runner: &Runner<'_, B, N>,
    notices: &N,
    watch: &Watch,
) {
    let pause = watch.seconds().saturating_mul(1000);
    let mut due = milliseconds().saturating_add(pause);
    for _ in rt.forever() {
        if runner.closes_within(rt, due.saturating_sub(milliseconds())) {
            break;
        }
        if milliseconds() >= due {
            say(rt, runner.board, notices);
            due = milliseconds().saturating_add(pause);
        }
    }
}

/// Starts a thread that reports it at the interval at which somebody watches the server, if somebody does, until the
/// board is closed. `AllocError` if the thread can't be started.
pub fn start_saying<'s, E, B: Naming + Send + Sync, N: LaneNotices, T: Threads + Wait + Sync>(
    scope: &Scope<'s, E>,
    rt: &'s T,
    runner: &'s Runner<'s, B, N>,
) -> Result<(), AllocError> {
    let Some(notices) = runner.notices else {
        return Ok(());
    };
    if let Some(watch) = notices.watch() {
        scope.spawn(move || say_each(rt, runner, notices, watch))?;
    }
    Ok(())
}
