//! Lanes that continue where earlier runs ended, on disks that fail and crash.
ghost use Rattle.std.specs.Prelude.{◌≡◌, true, IfOk, IsTrue};
ghost use Rattle.up_handed.specs.Counts.{count_of, device_of};
ghost use Rattle.up_handed.specs.OnDisk.{IsOnDisk};
ghost use Rattle.up_hooks.specs.Recorded.{AnswersWithCodes};

use crate::desk::Desk;
use crate::faulty::FaultyFile;
use crate::same::expect_same;
use sqlite_disk::{Crash, Disk, Fuse, Memory};
use sqlite_std_file::Unknown;
use std::alloc::Global;
use std::fs;
use std::process::Abort;
use std::sync::atomic::{AtomicBool, AtomicU64, Ordering};
use up_events::{Event, Hook, Id};
use up_handed::{Continued, Handed, HandedFault, Permission, Withheld, open_handed, restart};
use up_hooks::{Courier, Outcome, PostHook, Recorder};

/// The count in this file.
pub fn opened<D: Disk + Drop>(device: D) -> Result<Handed<D>, HandedFault>
    ensures { IfOk result (λ handed. IsOnDisk D.Disk (device_of handed) (count_of handed)) }
{
    match Handed::open(device) {
        Ok(handed) => Ok(handed),
        Err(refused) => Err(refused.fault),
    }
}

/// The event of an upload with this number.
fn event_of(number: u64) -> Event {
    Event {
        id: Id::new(1),
        number,
        hook: Hook::Receive,
        offset: number,
        length: None,
    }
}

/// Makes room for an event, and tries again if that fails.
fn has_room<H: PostHook>(hook: &mut H) -> bool
    requires { H.is_sound hook.old }
    ensures sound { H.is_sound hook.new }
    ensures room { IsTrue result → H.has_room hook.new ≡ true }
{
    if hook.ready().is_ok() {
        return true;
    }
    hook.ready().is_ok()
}

/// Hands over the events from the first to this number, as a lane does: it makes room before each event, and after the
/// last. Returns the number of events that there was room for.
fn hand_over<H: PostHook>(hook: &mut H, last: u64) -> u64
    requires { H.is_sound hook.old }
    ensures { H.is_sound hook.new }
{
    for number in 0..last {
        if !has_room(hook) {
            return number;
        }
        hook.hand(&event_of(number + 1));
    }
    has_room(hook);
    last
}

/// What a post-hook was handed: the number of the first event, or 0 if there is none, and the number of events.
fn told<F>(recorder: &Recorder<F>) -> (u64, usize) {
    let pairs = recorder.list();
    match pairs {
        [] => (0, 0),
        [first, ..] => (first.0.number, pairs.len()),
    }
}

/// A run with this count that hands over the events from the first to this number.
fn run_on<F: Fn(&Event) -> Outcome + Send + Copy, D: Disk + Send + Drop>(
    alloc: Global,
    answer: F,
    handed: Handed<D>,
    events: u64,
) -> Continued<Recorder<F>, D>
    requires callable { F.IsAlwaysCallable answer }
    requires codes { AnswersWithCodes F.Fn answer }
    requires on_disk { IsOnDisk D.Disk (device_of handed) (count_of handed) }
{
    let mut run = Continued::new(Recorder::new(alloc, answer), handed);
    hand_over(&mut run, events);
    run
}

/// A run with this file that hands over the events from the first to this number.
fn run_over<F: Fn(&Event) -> Outcome + Send + Copy, D: Disk + Send + Drop>(
    alloc: Global,
    answer: F,
    device: D,
    events: u64,
) -> Result<Continued<Recorder<F>, D>, HandedFault>
    requires callable { F.IsAlwaysCallable answer }
    requires codes { AnswersWithCodes F.Fn answer }
{
    let handed = opened(device)?;
    Ok(run_on(alloc, answer, handed, events))
}

/// The file that a run leaves after it handed over this number of events.
fn left<F: Fn(&Event) -> Outcome + Send + Copy>(
    alloc: Global,
    answer: F,
    events: u64,
) -> Result<Memory, HandedFault>
    requires callable { F.IsAlwaysCallable answer }
    requires codes { AnswersWithCodes F.Fn answer }
{
    let run = run_over(alloc, answer, Memory::new(alloc), events)?;
    let (_, handed) = run.into_parts();
    Ok(handed.into_device())
}

#[test]
fn what_earlier_runs_handed_over_is_passed_over(rt: HostRuntime) {
    let alloc = rt.alloc();
    // The number of events that were handed over before, the number that the lane hands over, and what the post-hook is
    // handed.
    for (before, events, want) in [
        (0, 3, (1, 3)),
        (1, 3, (2, 2)),
        (3, 3, (0, 0)),
        (3, 2, (0, 0)),
        (2, 0, (0, 0)),
        (4, 7, (5, 3)),
    ] {
        let answer = |_: &Event| Outcome::Done;
        let device = left(alloc, answer, before).expect(&rt, "a count");
        let run = run_over(alloc, answer, device, events).expect(&rt, "a run");
        expect_same(&rt, &run.before(), &before);
        expect_same(
            &rt,
            &(events, before, told(run.hook())),
            &(events, before, want),
        );
        let (_, handed) = run.into_parts();
        expect_same(&rt, &handed.count(), &before.max(events));
    }
}

/// The number of events, out of three, that a run with this file hands over, and the number of the first event that the
/// next run hands over after a crash.
fn crashed<F: Fn(&Event) -> Outcome + Send + Copy, D: Crash + Send + Drop>(
    alloc: Global,
    answer: F,
    device: D,
) -> Result<(usize, u64), HandedFault>
    requires callable { F.IsAlwaysCallable answer }
    requires codes { AnswersWithCodes F.Fn answer }
{
    let first = run_over(alloc, answer, device, 3)?;
    let (_, count) = told(first.hook());
    let handed = match restart(first) {
        Ok(handed) => handed,
        Err(refused) => return Err(refused.fault),
    };
    let next = run_on(alloc, answer, handed, 4);
    let (number, _) = told(next.hook());
    Ok((count, number))
}

#[test]
fn a_crash_repeats_one_event_at_most(rt: HostRuntime) {
    let alloc = rt.alloc();
    // The calls after which the disk fails. Opening takes two calls, and each event takes two: a write and a sync.
    for (calls, handed, next) in [
        (2, 1, 1),
        (3, 1, 1),
        (4, 2, 2),
        (5, 2, 2),
        (6, 3, 3),
        (7, 3, 3),
        (8, 3, 4),
        (9, 3, 4),
    ] {
        let device = Fuse::new(Memory::new(alloc), calls);
        let found = crashed(alloc, |_: &Event| Outcome::Done, device).expect(&rt, "a count");
        expect_same(&rt, &(calls, found), &(calls, (handed, next)));
    }
}

#[test]
fn a_lane_goes_on_when_the_disk_works_again(rt: HostRuntime) {
    let alloc = rt.alloc();
    // The call that fails: one of the three writes, or a sync, after which the file must be opened again.
    for (calls, handed, next) in [
        (3, 3, 4),
        (5, 3, 4),
        (7, 3, 4),
        (4, 1, 2),
        (6, 2, 3),
        (8, 3, 4),
        (9, 3, 4),
    ] {
        let device = FaultyFile::failing_at(Memory::new(alloc), calls);
        let first = run_over(alloc, |_: &Event| Outcome::Done, device, 3).expect(&rt, "a run");
        expect_same(&rt, &(calls, told(first.hook())), &(calls, (1, handed)));
        let (_, count) = first.into_parts();
        let device = count.into_device().into_inner();
        let second = run_over(alloc, |_: &Event| Outcome::Done, device, 4).expect(&rt, "a run");
        expect_same(&rt, &(calls, told(second.hook()).0), &(calls, next));
    }
}

/// The number in a file after a run that hands over one more event, and whether the file is `Busy` for others until the
/// run has ended.
fn one_more<F: Fn(&Event) -> Outcome + Send + Copy>(
    rt: &HostRuntime,
    path: &str,
    answer: F,
) -> Result<(u64, bool), HandedFault>
    requires callable { F.IsAlwaysCallable answer }
    requires codes { AnswersWithCodes F.Fn answer }
{
    let handed = open_handed(rt, path, Unknown)?;
    let before = handed.count();
    let run = run_on(rt.alloc(), answer, handed, before.saturating_add(1));
    let is_busy = matches!(open_handed(rt, path, Unknown), Err(HandedFault::Busy));
    let (_, handed) = run.into_parts();
    Ok((handed.count(), is_busy))
}

#[test]
fn a_count_outlives_its_run(rt: HostRuntime) {
    let path = "up_log_tests_handed/handed.0";
    let _ = fs::remove_dir_all(&rt, "up_log_tests_handed");
    fs::create_dir(&rt, "up_log_tests_handed").expect(&rt, "a folder");
    for want in [1, 2, 3] {
        let found = one_more(&rt, path, |_: &Event| Outcome::Done).expect(&rt, "a count");
        expect_same(&rt, &found, &(want, true));
    }
    let bytes = fs::read(&rt, path).expect(&rt, "the file");
    expect_same(&rt, &bytes.len(), &3);
    fs::remove_dir_all(&rt, "up_log_tests_handed").expect(&rt, "a removal");
}

/// Whether events may be handed over.
#[derive(Drop)]
struct Flag<'a>(&'a AtomicBool);

impl Permission for Flag<'_> {
    ghost given = { λ _. Unit {0} };

    fn is_given(&self) -> bool {
        self.0.load(Ordering::SeqCst)
    }
}

/// Hands over the event of this number, if there is room for it.
fn hand_next<H: PostHook>(hook: &mut H, number: u64)
    requires { H.is_sound hook.old }
    ensures { H.is_sound hook.new }
{
    if has_room(hook) {
        hook.hand(&event_of(number));
    }
}

/// What a post-hook that may not hand over events yet is handed of five events, of which earlier runs handed over
/// three, and whether it says that it holds events back. Then the same once it may.
fn held<F: Fn(&Event) -> Outcome + Send + Copy, R: Abort>(
    rt: &R,
    alloc: Global,
    answer: F,
) -> [((u64, usize), bool, u64); 2]
    requires callable { F.IsAlwaysCallable answer }
    requires codes { AnswersWithCodes F.Fn answer }
{
    let is_given = AtomicBool::new(false);
    let device = left(alloc, answer, 3).expect(rt, "a count");
    let handed = opened(device).expect(rt, "the count again");
    let recorder = Recorder::new(alloc, answer);
    let mut run = Continued::new(Withheld::new(recorder, Flag(&is_given)), handed);
    hand_over(&mut run, 5);
    let before = (told(run.hook().hook()), run.holds_back(), run.count());
    is_given.store(true, Ordering::SeqCst);
    hand_next(&mut run, 4);
    hand_next(&mut run, 5);
    let after = (told(run.hook().hook()), run.holds_back(), run.count());
    [before, after]
}

#[test]
fn events_are_held_back_until_they_may_be_handed_over(rt: HostRuntime) {
    let found = held(&rt, rt.alloc(), |_: &Event| Outcome::Done);
    expect_same(&rt, &found, &[((0, 0), true, 3), ((4, 2), false, 5)]);
}

/// A run with this file that is handed the events from the first to this number, as far as they are acknowledged.
fn delivered<'a, D: Disk + Send + Drop>(
    left: &'a AtomicU64,
    device: D,
    events: u64,
) -> Result<Continued<Courier<Desk<'a>>, D>, HandedFault> {
    let handed = opened(device)?;
    let mut run = Continued::new(Courier::new(Desk::new(left)), handed);
    hand_over(&mut run, events);
    Ok(run)
}

/// How many of three events are counted if so many are acknowledged, how many events the next run counts after a crash,
/// and the first one that it delivers.
fn acknowledged(alloc: Global, count: u64) -> Result<(u64, u64, u64), HandedFault> {
    let left = AtomicU64::new(count);
    let first = delivered(&left, Memory::new(alloc), 3)?;
    let counted = first.count();
    let (_, handed) = first.into_parts();
    let mut device = handed.into_device();
    device.crash();
    left.store(9, Ordering::SeqCst);
    let next = delivered(&left, device, 4)?;
    Ok((counted, next.count(), next.hook().delivery().first))
}

#[test]
fn an_event_counts_once_it_is_acknowledged(rt: HostRuntime) {
    for count in 0..=3 {
        let found = acknowledged(rt.alloc(), count).expect(&rt, "a count");
        expect_same(&rt, &found, &(count, 4, count + 1));
    }
}
