//! When it is reported that an upload has ended, on disks that fail.
ghost use Rattle.up_hooks.specs.Recorded.{AnswersWithCodes};

use crate::faulty::FaultyFile;
use crate::handing::opened;
use crate::same::expect_same;
use sqlite_disk::{Disk, Fuse, Memory};
use std::alloc::Global;
use std::marker::Send;
use std::sync::atomic::{AtomicU64, Ordering};
use up_events::{Event, Hook, Id};
use up_handed::{Continued, EndedUpload, Endings, HandedFault, Noting};
use up_hooks::{Outcome, PostHook, Recorder};

/// Adds up the events of the uploads that are reported.
#[derive(Drop)]
struct Sum<'a> {
    events: &'a AtomicU64,
}

impl Endings for Sum<'_> {
    fn note(&self, upload: EndedUpload) {
        self.events.fetch_add(upload.events, Ordering::SeqCst);
    }
}

/// Hands over the removal of an upload that has three events, and then makes room for another one. Returns how many
/// events of reported uploads there are after each.
fn remove<H: PostHook>(hook: &mut H, events: &AtomicU64) -> (u64, u64)
    requires { H.is_sound hook.old }
{
    let removal = Event {
        id: Id::new(1),
        number: 3,
        hook: Hook::Terminate,
        offset: 5,
        length: Some(5),
    };
    if hook.ready().is_ok() {
        hook.hand(&removal);
    }
    let handed = events.load(Ordering::SeqCst);
    let _is_counted = hook.ready().is_ok();
    (handed, events.load(Ordering::SeqCst))
}

/// The same, by a lane whose count is on this disk.
fn removed_over<F: Fn(&Event) -> Outcome + Send + Copy + Drop, D: Disk + Send + Drop>(
    alloc: Global,
    answer: F,
    device: D,
) -> Result<(u64, u64), HandedFault>
    requires callable { F.IsAlwaysCallable answer }
    requires codes { AnswersWithCodes F.Fn answer }
{
    let events = AtomicU64::new(0);
    let continued = Continued::new(Recorder::new(alloc, answer), opened(device)?);
    let mut hook = Noting::new(continued, Sum { events: &events });
    Ok(remove(&mut hook, &events))
}

#[test]
fn an_upload_is_reported_once_its_last_event_is_counted(rt: HostRuntime) {
    let alloc = rt.alloc();
    let answer = |_: &Event| Outcome::Done;
    // Opening takes two calls. The third writes the count. It fails once, or so do all that follow.
    let device = FaultyFile::failing_at(Memory::new(alloc), 3);
    let found = removed_over(alloc, answer, device).expect(&rt, "a count");
    expect_same(&rt, &found, &(0, 3));
    let device = Fuse::new(Memory::new(alloc), 2);
    let found = removed_over(alloc, answer, device).expect(&rt, "a count");
    expect_same(&rt, &found, &(0, 0));
}
