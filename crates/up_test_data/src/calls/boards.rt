//! A board of two lanes, from its parts to its report.
ghost use Rattle.std.specs.Prelude.{◌≡◌, All, IfOk, IsTrue, [], length};
ghost use Rattle.up_dispatch.specs.Free.{no_history};
ghost use Rattle.up_dispatch.specs.Lists.{EachAt};
ghost use Rattle.up_dispatch.specs.Parts.{IsNamed};
ghost use Rattle.up_hooks.specs.Recorded.{has_code};

use crate::calls::lines::{Lines, MAX_CALLS};
use crate::calls::messages::{id_of, out_of_memory};
use crate::calls::words::{ShownHook, push_lane, push_report};
use std::alloc::{AllocError, Global};
use std::fmt::Write;
use std::io;
use std::marker::{Brand, Send, Sync};
use std::sync::Wait;
use std::sync::atomic::{AtomicU64, Ordering};
use up_dispatch::{Board, BoardParts, FinishFault, Naming, Report, Seat, Unfinished};
use up_events::{Event, Kind};
use up_headers::{NewUpload, Request};
use up_hooks::{Outcome, PostHook, Recorder};
use up_lanes::{Lane, LaneEnd, StepEnd};
use up_machine::{Asked, Done, Refusal};
use up_message::Sequence;
use up_queue::TakeEnd;

/// The maximum number of items in a queue. All events of a lane fit into it, and the end.
const CAPACITY: u64 = 8;

/// The maximum number of steps of a lane.
const MAX_STEPS: u32 = 40;

/// The number of events that the post-hooks were handed.
fn push_handed(words: &mut String, handed: &AtomicU64) -> Result<(), AllocError> {
    let count = handed.load(Ordering::SeqCst);
    write!(words, "handed {count}")
}

/// Prints a call that makes a board, or its parts.
fn tell_made(rt: &impl Print, lines: &mut Lines, handed: &AtomicU64, made: bool) -> io::Result<()> {
    let word = if made { "made" } else { "out of memory" };
    lines.called.push_str(word)?;
    push_handed(&mut lines.after, handed)?;
    lines.tell(rt, !made)
}

/// The parts of a board of two lanes. Prints the calls that make them.
fn told_parts(
    rt: &impl Print,
    alloc: Global,
    lines: &mut Lines,
    handed: &AtomicU64,
) -> io::Result<BoardParts>
    ensures { IfOk result (λ parts. length parts.queues ≡ 2) }
{
    for _ in 0..MAX_CALLS {
        lines.begin("BoardParts::new", "2 lanes, 8 items")?;
        push_handed(&mut lines.before, handed)?;
        let made = BoardParts::new(alloc, 2, CAPACITY);
        tell_made(rt, lines, handed, made.is_ok())?;
        if let Ok(parts) = made {
            return Ok(parts);
        }
    }
    Err(out_of_memory())
}

/// Creates an upload without bytes.
fn create<B: Naming, R: Wait>(
    rt: &R,
    alloc: Global,
    board: &Board<B>,
    seat: &mut Seat<B>,
    number: u64,
) -> Result<Done, Refusal>
    requires free { B.history ≡ no_history }
{
    let request = Request::Create(NewUpload {
        kind: Kind::Plain,
        length: Some(0),
        parts: Sequence::new(alloc),
        pairs: Sequence::new(alloc),
        metadata: None,
        concat: None,
    });
    board.commit(
        rt,
        alloc,
        seat,
        request,
        id_of(number),
        &Asked::AllowedFinish,
    )
}

/// Creates five uploads without bytes, and closes the board.
fn fill<B: Naming, R: Wait>(rt: &R, alloc: Global, board: &Board<B>) -> io::Result<Seat<B>>
    requires free { B.history ≡ no_history }
{
    let Some(mut seat) = board.seat(rt) else {
        return Err(io::Error::from(io::ErrorKind::ResourceBusy));
    };
    for number in 1..6u64 {
        if create(rt, alloc, board, &mut seat, number).is_err() {
            return Err(out_of_memory());
        }
    }
    board.close(rt);
    Ok(seat)
}

/// Adds how a step ended.
fn push_end(words: &mut String, end: StepEnd) -> Result<(), AllocError> {
    match end {
        StepEnd::NoMemory => words.push_str("out of memory"),
        _ => write!(words, "{end:?}"),
    }
}

/// Steps a lane, and prints the call.
fn told_step<H: PostHook + Drop>(
    rt: &(impl Print + Wait),
    lines: &mut Lines,
    handed: &AtomicU64,
    number: &str,
    lane: &mut Lane<H>,
) -> io::Result<StepEnd>
    ensures { (lane.new.lane ≡ lane.old.lane) × (lane.new.queue ≡ lane.old.queue) }
{
    lines.begin("step", number)?;
    push_handed(&mut lines.before, handed)?;
    let end = lane.step(rt);
    push_end(&mut lines.called, end)?;
    push_handed(&mut lines.after, handed)?;
    lines.tell(rt, end == StepEnd::NoMemory)?;
    Ok(end)
}

/// Steps a lane to its end.
fn stepped<B: Naming + Send + Sync, H: PostHook + Drop, R: Print + Wait>(
    rt: &R,
    lines: &mut Lines,
    handed: &AtomicU64,
    board: &Board<B>,
    number: &str,
    mut lane: Lane<H>,
) -> io::Result<LaneEnd<H>>
    ensures { IfOk result (λ end. (end.lane ≡ lane.lane) × (end.take_end.queue ≡ lane.queue)) }
{
    for _ in 0..MAX_STEPS {
        if told_step(rt, lines, handed, number, &mut lane)? == StepEnd::Ended {
            return Ok(lane.run(rt, board));
        }
    }
    Err(out_of_memory())
}

/// The state of the seats and of the ends of lanes.
fn push_ends<B: Naming, H: PostHook + ShownHook>(
    words: &mut String,
    seats: &[Seat<B>],
    ends: &[LaneEnd<H>],
) -> Result<(), AllocError> {
    words.push_str("seats")?;
    for seat in seats {
        write!(words, " {}", seat.count())?;
    }
    for end in ends {
        push_lane(words, end.lane, end.how, &end.hook)?;
    }
    Ok(())
}

/// Prints a call that finishes a board.
fn tell_finished<H: ShownHook>(
    rt: &impl Print,
    lines: &mut Lines,
    report: &Report<H>,
) -> io::Result<()> {
    push_report(&mut lines.called, report)?;
    lines.after.push_str("used up")?;
    lines.tell(rt, false)
}

/// Prints a call that gives a board back.
fn tell_unfinished<B: Naming, H: PostHook + ShownHook>(
    rt: &impl Print,
    lines: &mut Lines,
    back: &Unfinished<Board<B>, B, H>,
) -> io::Result<()> {
    let refused = back.fault == FinishFault::NoMemory;
    let word = if refused { "out of memory" } else { "refused" };
    lines.called.push_str(word)?;
    push_ends(
        &mut lines.after,
        back.seats.as_slice(),
        back.lanes.as_slice(),
    )?;
    lines.tell(rt, refused)
}

/// Finishes a board, in at most `calls` calls.
fn finish<B: Naming, H: PostHook + ShownHook + Drop>(
    rt: &impl Print,
    alloc: Global,
    lines: &mut Lines,
    calls: u32,
    board: Board<B>,
    seats: Vec<Seat<B>>,
    ends: Vec<LaneEnd<H>>,
) -> io::Result<()>
    requires { All (λ end. end.take_end.queue ≡ B.queue end.lane) ends.items }
{
    if calls == 0 {
        return Err(out_of_memory());
    }
    lines.begin("finish", "")?;
    push_ends(&mut lines.before, seats.as_slice(), ends.as_slice())?;
    match board.finish(alloc, seats, ends) {
        Ok(report) => tell_finished(rt, lines, &report),
        Err(back) => {
            tell_unfinished(rt, lines, &back)?;
            finish(
                rt,
                alloc,
                lines,
                calls - 1,
                back.board,
                back.seats,
                back.lanes,
            )
        }
    }
}

/// The two lanes of a board, each with a post-hook.
fn lanes_of<B: Naming, H: PostHook + Drop>(
    mut takes: Vec<TakeEnd>,
    hooks: (H, H),
) -> (Lane<H>, Lane<H>)
    requires two { length takes.items ≡ 2 }
    requires ends { EachAt (λ k end. (end.taken ≡ []) × (end.queue ≡ B.queue k)) takes.items }
    requires first { H.is_sound hooks.0 × (H.handed hooks.0 ≡ []) }
    requires second { H.is_sound hooks.1 × (H.handed hooks.1 ≡ []) }
    ensures even { result.0.queue ≡ B.queue result.0.lane }
    ensures odd { result.1.queue ≡ B.queue result.1.lane }
{
    let (odd, even) = (takes.pop().unwrap(), takes.pop().unwrap());
    (Lane::new(0, even, hooks.0), Lane::new(1, odd, hooks.1))
}

/// Steps both lanes of a board to their ends.
fn step_both<B: Naming + Send + Sync, H: PostHook + Drop, R: Print + Wait>(
    rt: &R,
    alloc: Global,
    lines: &mut Lines,
    handed: &AtomicU64,
    board: &Board<B>,
    lanes: (Lane<H>, Lane<H>),
) -> io::Result<Vec<LaneEnd<H>>>
    requires even { lanes.0.queue ≡ B.queue lanes.0.lane }
    requires odd { lanes.1.queue ≡ B.queue lanes.1.lane }
    ensures own { IfOk result (λ v. All (λ end. end.take_end.queue ≡ B.queue end.lane) v.items) }
{
    let (even, odd) = lanes;
    let mut ends = Vec::with_capacity(alloc, 2)?;
    ends.push(stepped(rt, lines, handed, board, "0", even)?)?;
    ends.push(stepped(rt, lines, handed, board, "1", odd)?)?;
    Ok(ends)
}

/// Fills a board, steps its lanes, and finishes it.
fn run<B: Naming + Send + Sync, H: PostHook + ShownHook + Drop, R: Print + Wait>(
    rt: &R,
    alloc: Global,
    lines: &mut Lines,
    handed: &AtomicU64,
    board: Board<B>,
    takes: Vec<TakeEnd>,
    hooks: (H, H),
) -> io::Result<()>
    requires two { length takes.items ≡ 2 }
    requires ends { EachAt (λ k end. (end.taken ≡ []) × (end.queue ≡ B.queue k)) takes.items }
    requires first { H.is_sound hooks.0 × (H.handed hooks.0 ≡ []) }
    requires second { H.is_sound hooks.1 × (H.handed hooks.1 ≡ []) }
    requires free { B.history ≡ no_history }
{
    let mut seats = Vec::with_capacity(alloc, 1)?;
    seats.push(fill(rt, alloc, &board)?)?;
    let lanes = lanes_of::<B, _>(takes, hooks);
    let ends = step_both(rt, alloc, lines, handed, &board, lanes)?;
    finish(rt, alloc, lines, MAX_CALLS, board, seats, ends)
}

/// Makes a board with these parts and runs it. Returns whether it was made.
fn begin<B: Naming + Send + Sync, H: PostHook + ShownHook + Drop, R: Print + Wait>(
    rt: &R,
    alloc: Global,
    lines: &mut Lines,
    handed: &AtomicU64,
    parts: BoardParts,
    hooks: (H, H),
) -> io::Result<bool>
    requires named { IsNamed B.name B.parts B.queue B.lanes parts }
    requires sized { B.max_size ≡ 1024 }
    requires two { length parts.queues ≡ 2 }
    requires first { H.is_sound hooks.0 × (H.handed hooks.0 ≡ []) }
    requires second { H.is_sound hooks.1 × (H.handed hooks.1 ≡ []) }
    requires free { B.history ≡ no_history }
{
    lines.begin("Board::new", "1024 bytes")?;
    push_handed(&mut lines.before, handed)?;
    let made = Board::<B>::new(alloc, parts, 1024);
    tell_made(rt, lines, handed, made.is_ok())?;
    match made {
        Ok((board, takes)) => {
            run(rt, alloc, lines, handed, board, takes, hooks)?;
            Ok(true)
        }
        Err(_) => Ok(false),
    }
}

/// Makes a board. If memory runs out, makes its parts and the board again.
pub fn call_all(rt: &(impl Print + Wait), alloc: Global, lines: &mut Lines) -> io::Result<()> {
    let handed = AtomicU64::new(0);
    let answer = |_: &Event| -> Outcome
        ensures { IsTrue (has_code result) }
    {
        handed.fetch_add(1, Ordering::SeqCst);
        Outcome::Done
    };
    for before in 0..MAX_CALLS {
        let parts = if before == 0 {
            told_parts(rt, alloc, lines, &handed)?
        } else if let Ok(parts) = BoardParts::new(alloc, 2, CAPACITY) {
            parts
        } else {
            break;
        };
        let hooks = (Recorder::new(alloc, answer), Recorder::new(alloc, answer));
        if begin::<Brand, _, _>(rt, alloc, lines, &handed, parts, hooks)? {
            return Ok(());
        }
    }
    Err(out_of_memory())
}
