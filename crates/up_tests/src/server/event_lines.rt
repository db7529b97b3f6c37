//! Lines of events, and writers that fail.
use super::full_writer::FullWriter;
use crate::same::expect_same;
use std::alloc::Global;
use std::marker::Sync;
use std::process::Abort;
use std::sync::Wait;
use up_events::{Event, Hook, Id};
use up_hooks::{Outcome, PostHook};
use up_server::{EventLines, line_couriers};

fn event(number: u64, hook: Hook, offset: u64, length: Option<u64>) -> Event {
    Event {
        id: Id::new(255),
        number,
        hook,
        offset,
        length,
    }
}

/// The lines of three events.
static LINES: &str = "000000000000000000000000000000ff 1 post-create 0/- done\n\
    000000000000000000000000000000ff 2 post-receive 11/11 done\n\
    000000000000000000000000000000ff 3 post-finish 11/11 done\n";

/// The outcomes if the writer fails within the second line.
const ONE_LINE: [Outcome; 3] = [Outcome::Done, Outcome::Failed(1), Outcome::Failed(1)];

/// Tells the three events, and returns the outcomes.
fn tell_three(rt: &(impl Eprint + Wait), lines: &EventLines<FullWriter<'_>>) -> [Outcome; 3] {
    [
        lines.tell(rt, &event(1, Hook::Create, 0, None)),
        lines.tell(rt, &event(2, Hook::Receive, 11, Some(11))),
        lines.tell(rt, &event(3, Hook::Finish, 11, Some(11))),
    ]
}

/// Writes the events with a writer that fails after these bytes, and then takes more. Checks the outcomes and what was
/// written.
fn hold_room(
    rt: &(impl Eprint + Wait + Abort),
    alloc: Global,
    written: &[u8],
    outcomes: [Outcome; 3],
) {
    let mut taken = Vec::new(alloc);
    let writer = FullWriter {
        taken: &mut taken,
        room: written.len(),
    };
    let lines = EventLines::new(alloc, writer).expect(rt, "lines");
    let told = tell_three(rt, &lines);
    drop(lines);
    expect_same(rt, &(told, taken.as_slice()), &(outcomes, written));
}

#[test]
fn writes_each_event_until_a_line_is_not_written(rt: HostRuntime) {
    let lines = LINES.as_bytes();
    hold_room(&rt, rt.alloc(), lines, [Outcome::Done; 3]);
    hold_room(&rt, rt.alloc(), &lines[..60], ONE_LINE);
}

/// Hands over the first two events, if there is room for them, and makes room for another one.
fn hand_two<H: PostHook>(hook: &mut H)
    requires { H.is_sound hook.old }
{
    if hook.ready().is_ok() {
        hook.hand(&event(1, Hook::Create, 0, None));
    }
    if hook.ready().is_ok() {
        hook.hand(&event(2, Hook::Receive, 11, Some(11)));
    }
    let _is_written = hook.ready().is_ok();
}

/// Hands the first two events to a courier over lines, with a writer that fails after these bytes, or over no lines.
/// Checks how many events were acknowledged, whether all were, and what was written.
fn hold_couriers(
    rt: &(impl Eprint + Wait + Abort + Sync),
    alloc: Global,
    has_lines: bool,
    written: &[u8],
    count: u64,
) {
    let mut taken = Vec::new(alloc);
    let writer = FullWriter {
        taken: &mut taken,
        room: written.len(),
    };
    let lines = EventLines::new(alloc, writer).expect(rt, "lines");
    let asked = if has_lines { Some(&lines) } else { None };
    let mut couriers = line_couriers(rt, alloc, 1, asked).expect(rt, "a courier");
    hand_two(&mut couriers[0]);
    let found = (couriers[0].count(), couriers[0].is_settled());
    expect_same(rt, &found, &(count, count == 2));
    drop(couriers);
    drop(lines);
    expect_same(rt, &taken.as_slice(), &written);
}

#[test]
fn an_event_is_acknowledged_once_its_line_is_written(rt: HostRuntime) {
    let lines = LINES.as_bytes();
    hold_couriers(&rt, rt.alloc(), true, &lines[..115], 2);
    hold_couriers(&rt, rt.alloc(), true, &lines[..60], 1);
    hold_couriers(&rt, rt.alloc(), false, &[], 2);
}
