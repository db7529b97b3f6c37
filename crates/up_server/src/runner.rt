//! Running the lanes of a board. A lane can go on after its post-hook was not ready for another event.
ghost use Rattle.std.specs.Prelude.{◌≡◌};

use crate::lane_notices::{LaneNotices, LaneWait};
use crate::patience::milliseconds;
use std::marker::{Send, Sync};
use std::sync::Wait;
use std::sync::atomic::{AtomicU64, Ordering};
use std::time::Duration;
use up_dispatch::{Board, Naming};
use up_hooks::PostHook;
use up_lanes::{Lane, LaneEnd, StepEnd};

/// How many milliseconds a lane waits before it is tried again after its post-hook was not ready. Each further wait is
/// twice as long.
const FIRST_PAUSE: u64 = 100;

/// The longest wait, in milliseconds.
const MAX_PAUSE: u64 = 10_000;

/// How many milliseconds a lane waits before it is tried again while its post-hook holds events back.
const HELD_PAUSE: u64 = 5;

/// How many times a lane is tried after the board was closed, with the first pause between two tries. While a run that
/// ends in order has time left, the tries of a lane that waits with its last event don't count.
const LAST_TRIES: u32 = 3;

/// After how many tries somebody is told of a lane that waits with its last event: after a second and a half, so that a
/// receiver that fails now and then isn't spoken of.
const QUIET_TRIES: u32 = 4;

/// Runs the lanes of a board, each in the thread that calls it.
#[derive(Drop)]
pub struct Runner<'a, B: Naming, N> {
    pub board: &'a Board<B>,
    /// Who is told about lanes that stop and go on. If there is none, a lane that stops has ended.
    pub notices: Option<&'a N>,
    /// 0 while the board is open, and 1 after it was closed. Lanes that wait sleep on it.
    closed: AtomicU64,
}

/// Takes a step. Returns whether the post-hook had room for an event.
fn has_room<H: PostHook, B: Naming + Send, T: Wait>(
    rt: &T,
    board: &Board<B>,
    lane: &mut Lane<H>,
) -> bool
    ensures same { (lane.new.lane ≡ lane.old.lane) × (lane.new.queue ≡ lane.old.queue) }
{
    match lane.advance(rt, board) {
        StepEnd::NoMemory => false,
        StepEnd::Handed | StepEnd::Nothing | StepEnd::Ended => true,
    }
}

/// Why a lane waits that has stopped.
fn wait_of<H: PostHook>(end: &LaneEnd<H>) -> LaneWait {
    if end.hook.is_settled() {
        LaneWait::ForMemory
    } else {
        LaneWait::WithLastEvent
    }
}

/// A lane that waits.
#[derive(Drop)]
struct Waiting {
    lane: u64,
    why: LaneWait,
    /// Since when it waits, in milliseconds of the system's clock.
    since: u64,
    /// How many tries have failed since it waits.
    tried: u32,
    /// Whether somebody was told.
    is_told: bool,
}

impl Waiting {
    /// The lane that ended so waits now. Somebody is told at once if it waits for memory.
    fn new<H: PostHook, N: LaneNotices>(end: &LaneEnd<H>, notices: &N) -> Self {
        let why = wait_of(end);
        let mut waiting = Waiting {
            lane: end.lane,
            why,
            since: milliseconds(),
            tried: 0,
            is_told: false,
        };
        if why == LaneWait::ForMemory {
            waiting.tell(notices);
        }
        waiting
    }

    /// Tells that the lane waits, unless that was told.
    fn tell<N: LaneNotices>(&mut self, notices: &N) {
        if !self.is_told {
            self.is_told = true;
            notices.waits(self.lane, self.why, self.since);
        }
    }

    /// Notes that a try has failed.
    fn fail<N: LaneNotices>(&mut self, notices: &N) {
        self.tried = self.tried.saturating_add(1);
        if self.tried >= QUIET_TRIES {
            self.tell(notices);
        }
    }

    /// Tells that the lane goes on, if it was told that it waits.
    fn end<N: LaneNotices>(&self, notices: &N) {
        if self.is_told {
            notices.goes_on(self.lane);
        }
    }

    /// Whether the lane may be tried any number of times, although the board is closed.
    fn has_time<N: LaneNotices>(&self, notices: &N) -> bool {
        self.why == LaneWait::WithLastEvent && notices.has_time()
    }
}

/// How many milliseconds a lane waits after it has waited for `pause` milliseconds.
fn next_pause(pause: u64, is_closed: bool) -> u64 {
    if is_closed {
        FIRST_PAUSE
    } else {
        pause.saturating_mul(2).min(MAX_PAUSE)
    }
}

impl<'a, B: Naming + Send + Sync, N: LaneNotices> Runner<'a, B, N> {
    /// For an open board. A lane whose post-hook is not ready has ended.
    pub fn new(board: &'a Board<B>) -> Self {
        Runner {
            board,
            notices: None,
            closed: AtomicU64::new(0),
        }
    }

    /// For an open board. A lane whose post-hook is not ready waits until it is, and goes on.
    pub fn lasting(board: &'a Board<B>, notices: &'a N) -> Self {
        Runner {
            board,
            notices: Some(notices),
            closed: AtomicU64::new(0),
        }
    }

    /// Closes the board, so that the lanes end.
    pub fn close<T: Wait>(&self, rt: &T) {
        self.board.close(rt);
        self.closed.store(1, Ordering::SeqCst);
        self.closed.wake_all();
    }

    /// Whether the board was closed.
    fn is_closed(&self) -> bool {
        self.closed.load(Ordering::SeqCst) != 0
    }

    /// Sleeps for `pause` milliseconds, or until the board is closed. Returns whether it is closed.
    pub fn closes_within<T: Wait>(&self, rt: &T, pause: u64) -> bool {
        self.closed
            .park_timeout(rt, 0, Duration::from_millis(pause));
        self.is_closed()
    }

    /// Sleeps for `pause` milliseconds, or until an open board is closed. If the board is closed already, sleeps for
    /// the whole pause. Returns whether it is closed.
    fn rest<T: Wait>(&self, rt: &T, pause: u64) -> bool {
        let seen = u32::from(self.is_closed());
        self.closed
            .park_timeout(rt, seen, Duration::from_millis(pause));
        self.is_closed()
    }

    /// Tries a lane that stopped, again and again, until its post-hook has room for an event. Returns whether it has.
    /// After the board was closed, each try uses up one of `tries` unless there is time left, and the last one is left
    /// to the caller.
    fn try_again<H: PostHook, T: Wait>(
        &self,
        rt: &T,
        notices: &N,
        waiting: &mut Waiting,
        lane: &mut Lane<H>,
        tries: &mut u32,
    ) -> bool
        ensures same { (lane.new.lane ≡ lane.old.lane) × (lane.new.queue ≡ lane.old.queue) }
    {
        let mut pause = FIRST_PAUSE;
        for _ in rt.forever() {
            let is_closed = self.rest(rt, pause);
            if is_closed && !waiting.has_time(notices) {
                *tries = tries.saturating_sub(1);
                if *tries == 0 {
                    break;
                }
            }
            if has_room(rt, self.board, lane) {
                return true;
            }
            waiting.fail(notices);
            pause = next_pause(pause, is_closed);
        }
        false
    }

    /// Waits until the post-hook of a lane that stopped has room for an event, and runs the lane on. If only the last
    /// try is left, runs the lane whether or not there is room.
    fn run_again<H: PostHook + Drop, T: Wait>(
        &self,
        rt: &T,
        notices: &N,
        end: LaneEnd<H>,
        tries: &mut u32,
    ) -> LaneEnd<H>
        requires sound { H.is_sound end.hook }
        ensures sound { H.is_sound result.hook }
        ensures same { (result.lane ≡ end.lane) × (result.take_end.queue ≡ end.take_end.queue) }
    {
        let mut waiting = Waiting::new(&end, notices);
        let mut lane = Lane::resume(end);
        let has_room = self.try_again(rt, notices, &mut waiting, &mut lane, tries);
        if has_room {
            waiting.end(notices);
            return lane.run(rt, self.board);
        }
        let end = lane.run(rt, self.board);
        if end.how.is_drained() {
            waiting.end(notices);
        } else {
            waiting.tell(notices);
        }
        end
    }

    /// Runs a lane until it ends, drained or stopped. While its post-hook holds events back, the lane is tried again
    /// after a short pause, and nobody is told. Once the board is closed it is tried a last time.
    fn run_held<H: PostHook + Drop, T: Wait>(&self, rt: &T, lane: Lane<H>) -> LaneEnd<H>
        ensures sound { H.is_sound result.hook }
        ensures same { (result.lane ≡ lane.lane) × (result.take_end.queue ≡ lane.queue) }
    {
        let mut end = lane.run(rt, self.board);
        for _ in rt.forever() {
            if end.how.is_drained() || !end.hook.holds_back() {
                break;
            }
            let is_last = self.closes_within(rt, HELD_PAUSE);
            end = Lane::resume(end).run(rt, self.board);
            if is_last {
                break;
            }
        }
        end
    }

    /// Runs a lane until it ends, drained or stopped. If there is someone to tell, a lane that stops is tried again
    /// after a pause, which doubles each time, and goes on when its post-hook has room for an event. After the board
    /// was closed, it is tried three more times.
    pub fn run<H: PostHook + Drop, T: Wait>(&self, rt: &T, lane: Lane<H>) -> LaneEnd<H>
        ensures sound { H.is_sound result.hook }
        ensures same { (result.lane ≡ lane.lane) × (result.take_end.queue ≡ lane.queue) }
    {
        let mut end = self.run_held(rt, lane);
        let Some(notices) = self.notices else {
            return end;
        };
        let mut tries = LAST_TRIES;
        for _ in rt.forever() {
            if tries == 0 || end.how.is_drained() || end.hook.holds_back() {
                break;
            }
            end = self.run_again(rt, notices, end, &mut tries);
        }
        end
    }
}
