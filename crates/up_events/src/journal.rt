//! The journal: the accepted changes, and a log of events for each lane.
ghost use Rattle.std.specs.Prelude.{◌≡◌, ◌<◌, ◌≤◌, OnOk, OnErr, IfOk, length, slice_get, Some, false};
ghost use Rattle.up_events.specs.Records.{AreEmpty};

use crate::changes::Changes;
use crate::ended::Ended;
use crate::event::{Accepted, Event};
use crate::fault::NoMemory;
use crate::id::Id;
use crate::limits::MAX_LANES;
use crate::tail::Tail;
use crate::track::{Track, write};
use std::alloc::Global;
use std::collections::BTreeMap;
use std::marker::Model;

/// The places of a change's events in the log of its lane.
#[derive(Clone, Copy, Debug, PartialEq, Eq)]
pub struct Added {
    /// The lane. The first lane is 0.
    pub lane: u64,
    /// The length of the log before the change.
    pub first: u64,
    /// The number of events of the change. It is 0 if a length was declared without bytes and is not reached yet.
    pub count: u64,
}

/// The accepted changes, and for each lane the log of their events.
///
/// A creation results in post-create, at offset 0 or, if the upload is a final one, at its length. An append results in
/// post-receive at the offset that it reaches. So does the declaration of a length if bytes come with it. If the offset
/// is then the length, post-finish follows. A termination results in post-terminate. Each upload numbers its own events
/// 1, 2, 3 and so on. They all go to the lane of its id, whose log has them in the order of the changes.
///
/// A journal from `new` keeps the changes. A journal from `forgetting` only counts them; contracts still describe all
/// of them. In both, the first events of a log can be forgotten. Of a terminated upload only the id is kept.
#[derive(Drop)]
pub struct Journal {
    lanes: u64,
    accepted: Changes,
    logs: Vec<Tail>,
    /// The state of each upload that exists.
    tracks: BTreeMap<Id, Track>,
    ended: Ended,
    /// The total number of bytes of these uploads, modulo 2^64.
    bytes: u64,
}

impl Model for Journal {
    ghost use Rattle.up_events.specs.Kept.{IsKept};
    ghost use Rattle.up_events.specs.Records.{Records, firsts_of};

    ghost Value = { Records };

    ghost view = { λ a. record {
      lanes = a.lanes;
      accepted = a.accepted.items;
      keeps = a.accepted.keeps;
      firsts = firsts_of a.logs.items;
    } };

    ghost invariant = { IsKept };
}

/// An empty log for each lane.
fn empty_logs(alloc: Global, lanes: u64) -> Result<Vec<Tail>, NoMemory>
    ensures { IfOk result (λ logs. AreEmpty lanes logs.items) }
{
    let mut logs = Vec::new(alloc);
    for _ in 0..lanes {
        logs.push(Tail::new(alloc))?;
    }
    Ok(logs)
}

impl Journal {
    ghost use Rattle.up_events.specs.Records.{empty_records, first_of, forgot, kept_changes};
    ghost use Rattle.up_events.specs.Records.{kept_log, lane_log, noted, ArePlaces};
    ghost use Rattle.up_events.specs.History.{is_known, CanFollow, IsLegal};

    /// A journal without changes, for 1 to `MAX_LANES` lanes. It keeps its changes. `NoMemory` if memory for the logs
    /// runs out.
    pub fn new(alloc: Global, lanes: u64) -> Result<Journal, NoMemory>
        requires some_lane { 0 < lanes }
        requires few_lanes { lanes ≤ MAX_LANES }
        ensures { IfOk result (λ journal. journal ≡ empty_records lanes) }
    {
        let ended = Ended::empty(alloc)?;
        Ok(Journal {
            lanes,
            accepted: Changes::kept(alloc),
            logs: empty_logs(alloc, lanes)?,
            tracks: BTreeMap::new(alloc),
            ended,
            bytes: 0,
        })
    }

    /// The same, but the journal counts the changes and does not keep them. `NoMemory` if memory runs out.
    pub fn forgetting(alloc: Global, lanes: u64) -> Result<Journal, NoMemory>
        requires some_lane { 0 < lanes }
        requires few_lanes { lanes ≤ MAX_LANES }
        ensures { IfOk result (λ journal.
            journal ≡ record (empty_records lanes) { keeps = false }) }
    {
        let ended = Ended::empty(alloc)?;
        Ok(Journal {
            lanes,
            accepted: Changes::counted(),
            logs: empty_logs(alloc, lanes)?,
            tracks: BTreeMap::new(alloc),
            ended,
            bytes: 0,
        })
    }

    /// The changes of the journal, in order. Empty if the journal does not keep them.
    pub fn accepted(&self) -> &[Accepted]
        ensures value { result.now ≡ kept_changes self.now }
        ensures legal { IsLegal self.now.accepted }
        ensures some_lane { 0 < self.now.lanes }
    {
        self.accepted.list().unwrap_or(&[])
    }

    /// The number of changes of the journal.
    pub fn accepted_count(&self) -> u64
        ensures value { result ≡ length self.now.accepted }
        ensures legal { IsLegal self.now.accepted }
        ensures some_lane { 0 < self.now.lanes }
    {
        self.accepted.len()
    }

    /// The changes of the journal, in order, kept or counted.
    pub fn into_accepted(self) -> Changes
        ensures items { result.items ≡ self.accepted }
        ensures keeps { result.keeps ≡ self.keeps }
        ensures legal { IsLegal self.accepted }
    {
        self.accepted
    }

    /// The number of uploads that exist.
    pub fn uploads(&self) -> u64 {
        self.tracks.len() as u64
    }

    /// The total number of bytes of these uploads, modulo 2^64. A final upload has as many as its parts.
    pub fn bytes(&self) -> u64 {
        self.bytes
    }

    /// Whether an upload with this id was ever created.
    pub fn knows(&self, id: Id) -> bool
        ensures { result ≡ is_known self.now.accepted id }
    {
        self.tracks.contains_key(&id) || self.ended.contains(id)
    }

    /// A copy of the log of a lane: its events in order, without the forgotten ones. Empty if there is no such lane.
    /// `NoMemory` if memory runs out.
    pub fn lane_log(&self, alloc: Global, k: u64) -> Result<Vec<Event>, NoMemory>
        ensures { IfOk result (λ events. events.items ≡ kept_log self.now k) }
    {
        match self.logs.get(k as usize) {
            Some(log) => log.events(alloc),
            None => Ok(Vec::new(alloc)),
        }
    }

    /// The number of events of a lane's log, with the forgotten ones.
    pub fn log_len(&self, k: u64) -> u64
        ensures { result ≡ length (lane_log self.now k) }
    {
        match self.logs.get(k as usize) {
            Some(log) => log.len(),
            None => 0,
        }
    }

    /// The event at this place of a lane's log. It must not be forgotten.
    pub fn event_at(&self, k: u64, place: u64) -> Event
        requires there { first_of self.now k ≤ place }
        requires within { place < length (lane_log self.now k) }
        ensures { slice_get (lane_log self.now k) place ≡ Some result }
    {
        self.logs[k as usize].event_at(place)
    }

    /// Forgets the events of a lane's log before this place.
    pub fn forget(&mut self, k: u64, place: u64)
        requires there { first_of self.old k ≤ place }
        requires within { place ≤ length (lane_log self.old k) }
        ensures { self.new ≡ forgot self.old k place }
    {
        let Some(log) = self.logs.get_mut(k as usize) else {
            return;
        };
        log.forget(place);
    }

    /// Adds a change after the others, and its events at the end of the log of its lane.
    ///
    /// The change must be able to follow the others:
    /// - a creation has a new id, and a length of at most 2^30 bytes if it has one, as a final upload must;
    /// - an append has at least one byte, is to an upload that exists and is not final, and stays within the length of
    ///   that upload, or within 2^30 bytes while the length is not known;
    /// - a declaration is for such an upload without a known length; the length is at most 2^30, and the upload stays
    ///   within it;
    /// - a termination is of an upload that exists.
    ///
    /// `NoMemory` if memory runs out; the journal is then unchanged.
    pub fn note(&mut self, change: Accepted) -> Result<Added, NoMemory>
        requires { CanFollow self.old.accepted change }
        ensures ok { OnOk result (self.new ≡ noted self.old change) }
        ensures places { IfOk result (λ a. ArePlaces self.old change a.lane a.first a.count) }
        ensures err { OnErr result (self.new ≡ self.old) }
    {
        let id = change.id();
        let lane = id.lane(self.lanes);
        let before = self.tracks.get(&id).copied().unwrap_or(Track::NONE);
        let reached = before.reached(&change);
        let held = reached.held(&change);
        let log = &mut self.logs[lane as usize];
        let first = log.len();
        let count = write(
            &mut self.accepted,
            log,
            &mut self.tracks,
            &mut self.ended,
            change,
            reached,
        )?;
        self.bytes = self.bytes.wrapping_sub(before.offset).wrapping_add(held);
        Ok(Added { lane, first, count })
    }
}
