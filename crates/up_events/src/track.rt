//! The state of an upload, and the step that writes a change down.
ghost use Rattle.std.specs.Prelude.{◌≡◌, ◌<◌, ◌≤◌, OnOk, OnErr, IfOk, ◌+◌, ◌^◌, ◌++◌, ◌∷◌, [], length};
ghost use Rattle.std.specs.Ordering.{nat_cmp};
ghost use Rattle.std.specs.BTreeMap.{Updates, IsUnchanged};
ghost use Rattle.up_events.specs.History.{id_of, steps_at};
ghost use Rattle.up_events.specs.Log.{numbered};
ghost use Rattle.up_events.specs.Reached.{reached, hook_of, bytes_added, makes_whole, track_left, ended_by};

use crate::changes::Changes;
use crate::ended::Ended;
use crate::event::{Accepted, Event, Hook, Kind};
use crate::fault::NoMemory;
use crate::id::Id;
use crate::tail::Tail;
use std::collections::BTreeMap;

/// The state of an upload.
#[derive(Clone, Copy)]
pub struct Track {
    /// The number of its events.
    pub events: u64,
    /// The number of bytes that it has.
    pub offset: u64,
    /// The length of the complete upload, in bytes, if it is known.
    pub length: Option<u64>,
}

impl Track {
    /// The state of an upload that was never created.
    pub const NONE: Track = Track {
        events: 0,
        offset: 0,
        length: None,
    };

    /// The state with the offset and the length after the change, but with the number of events before it.
    pub fn reached(self, change: &Accepted) -> Track
        requires { self.offset + bytes_added change.now < 2 ^ 64 }
        ensures { result ≡ reached self change.now }
    {
        match *change {
            Accepted::Created { length, kind, .. } => Track {
                events: self.events,
                offset: if kind == Kind::Final {
                    length.unwrap_or(0)
                } else {
                    0
                },
                length,
            },
            Accepted::Appended { count, .. } => Track {
                events: self.events,
                offset: self.offset + count,
                length: self.length,
            },
            Accepted::Declared { length, count, .. } => Track {
                events: self.events,
                offset: self.offset + count,
                length: Some(length),
            },
            Accepted::Terminated { .. } => self,
        }
    }

    /// The number of bytes of the upload that exist after the change; `self` is the state after the change.
    pub fn held(self, change: &Accepted) -> u64 {
        if let Accepted::Terminated { .. } = change {
            return 0;
        }
        self.offset
    }
}

/// The hook of the event that reports the change itself, if there is one.
fn own_hook(change: &Accepted) -> Option<Hook>
    ensures { result ≡ hook_of change.now }
{
    match *change {
        Accepted::Created { .. } => Some(Hook::Create),
        Accepted::Appended { .. } => Some(Hook::Receive),
        Accepted::Declared { count, .. } => (count > 0).then_some(Hook::Receive),
        Accepted::Terminated { .. } => Some(Hook::Terminate),
    }
}

/// Whether the change makes its upload complete; `track` is the state after the change.
fn is_completing(change: &Accepted, track: Track) -> bool
    ensures { result ≡ makes_whole change.now track.offset track.length }
{
    match change {
        Accepted::Created { .. } | Accepted::Appended { .. } | Accepted::Declared { .. } => {
            track.length == Some(track.offset)
        }
        Accepted::Terminated { .. } => false,
    }
}

/// Stores the state of the change's upload in the table. If the change terminates the upload, the id goes to `ended`
/// instead. `NoMemory` if memory runs out; `tracks` and `ended` are then unchanged.
fn keep(
    tracks: &mut BTreeMap<Id, Track>,
    ended: &mut Ended,
    change: &Accepted,
    track: Track,
) -> Result<(), NoMemory>
    ensures tracks { OnOk result
        (Updates nat_cmp tracks.old tracks.new (id_of change.now) (track_left change.now track)) }
    ensures ended { OnOk result (ended.new ≡ ended.old ++ ended_by change.now) }
    ensures same_tracks { OnErr result (IsUnchanged tracks.old tracks.new) }
    ensures same_ended { OnErr result (ended.new ≡ ended.old) }
{
    let id = change.id();
    if let Accepted::Terminated { .. } = change {
        ended.insert(id)?;
        tracks.remove(&id);
        return Ok(());
    }
    tracks.insert(id, track)?;
    Ok(())
}

/// Writes a change down: the change into `accepted`, its events into the log of its lane, and the state of its upload
/// into `tracks`, or its id into `ended` if the upload was terminated. `track` has the offset and the length after the
/// change, and the number of events before it. Returns the number of events of the change. `NoMemory` if memory runs
/// out; the list, the log, the table and the ids are then unchanged.
pub fn write(
    accepted: &mut Changes,
    log: &mut Tail,
    tracks: &mut BTreeMap<Id, Track>,
    ended: &mut Ended,
    change: Accepted,
    track: Track,
) -> Result<u64, NoMemory>
    requires { track.events + 2 < 2 ^ 64 }
    ensures accepted { OnOk result (accepted.new.items ≡ accepted.old.items ++ change ∷ []) }
    ensures keeps { accepted.new.keeps ≡ accepted.old.keeps }
    ensures log { OnOk result (log.new.events ≡ log.old.events
        ++ numbered (id_of change) track.events (steps_at change track.offset track.length)) }
    ensures first { log.new.first ≡ log.old.first }
    ensures tracks { IfOk result (λ count. Updates nat_cmp tracks.old tracks.new (id_of change)
        (track_left change (record track { events = track.events + count }))) }
    ensures ended { OnOk result (ended.new ≡ ended.old ++ ended_by change) }
    ensures count { IfOk result (λ count.
        count ≡ length (steps_at change track.offset track.length)) }
    ensures same_list { OnErr result (accepted.new.items ≡ accepted.old.items) }
    ensures same_log { OnErr result (log.new.events ≡ log.old.events) }
    ensures same_tracks { OnErr result (IsUnchanged tracks.old tracks.new) }
    ensures same_ended { OnErr result (ended.new ≡ ended.old) }
{
    let id = change.id();
    let Track {
        events,
        offset,
        length,
    } = track;
    let own = own_hook(&change);
    let completing = is_completing(&change, track);
    let count = u64::from(own.is_some()) + u64::from(completing);
    let after = Track {
        events: events + count,
        ..track
    };
    accepted.reserve()?;
    log.reserve()?;
    keep(tracks, ended, &change, after)?;
    // Nothing grows from here on.
    accepted.push_reserved(change);
    if let Some(hook) = own {
        log.push_reserved(Event {
            id,
            number: events + 1,
            hook,
            offset,
            length,
        });
    }
    if completing {
        log.push_reserved(Event {
            id,
            number: events + count,
            hook: Hook::Finish,
            offset,
            length,
        });
    }
    Ok(count)
}
