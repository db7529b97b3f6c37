//! A survey of a log: the uploads that its entries create.
ghost use Rattle.std.specs.Prelude.{◌≡◌, ◌&&◌, not, List, IfOk, OnOk, IsTrue, true};
ghost use Rattle.std.specs.List.{All};
ghost use Rattle.up_compact.specs.Shorter.{JoinsKept};
ghost use Rattle.up_compact.specs.Surveys.{IsSubset, JoinsOnly, has_id, nothing_seen, saw, saw_all};
ghost use Rattle.up_log.specs.declared.entry.Entry.{Entry as Logged};

use crate::joining::{Joining, joining_of, misses_part};
use std::alloc::{AllocError, Global};
use std::collections::BTreeSet;
use std::marker::Model;
use up_events::Id;
use up_headers::Request;
use up_log::Entry;

/// The uploads that entries ask to create, and the final ones among them with their parts. Each upload takes 16 bytes,
/// and so does each part.
#[derive(Drop)]
pub struct Survey {
    uploads: Vec<Id>,
    joinings: Vec<Joining>,
}

impl Model for Survey {
    ghost use Rattle.up_compact.specs.Surveys.{Seen};

    ghost Value = { Seen };

    ghost view = { λ s. record { uploads = s.uploads.items; joinings = s.joinings.items } };
}

/// Removes the ids of parts.
fn take_out(ids: &mut BTreeSet<Id>, parts: &[Id])
    ensures { IsSubset ids.new ids.old }
{
    for part in parts {
        ids.remove(part);
    }
}

/// Removes the parts of the final uploads that stay.
fn take_out_parts(ids: &mut BTreeSet<Id>, joinings: &[Joining])
    ensures { IsSubset ids.new ids.old }
{
    for joining in joinings {
        if misses_part(ids, joining) {
            take_out(ids, joining.parts.as_slice());
        }
    }
}

/// Whether no final upload that stays has a part that is left out.
fn keeps_parts(ids: &BTreeSet<Id>, joinings: &[Joining]) -> bool
    ensures { IsTrue result → All (JoinsOnly (has_id ids.now)) joinings.now }
{
    for joining in joinings {
        if misses_part(ids, joining) {
            return false;
        }
    }
    true
}

/// Those of these uploads that can be left out: all but the parts of final uploads that stay.
fn without_parts(ended: BTreeSet<Id>, joinings: &[Joining]) -> BTreeSet<Id>
    ensures ended { IsSubset result ended }
    ensures joins { All (JoinsOnly (has_id result)) joinings.now }
{
    let mut ids = ended;
    for _ in 0..joinings.len() {
        if keeps_parts(&ids, joinings) {
            return ids;
        }
        take_out_parts(&mut ids, joinings);
    }
    if !keeps_parts(&ids, joinings) {
        ids.clear();
    }
    ids
}

impl Survey {
    /// An empty survey. Takes no memory.
    pub fn new(alloc: Global) -> Survey
        ensures { result ≡ nothing_seen }
    {
        Survey {
            uploads: Vec::new(alloc),
            joinings: Vec::new(alloc),
        }
    }

    /// Adds the upload that an entry creates.
    fn see_one(&mut self, alloc: Global, entry: &Entry) -> Result<(), AllocError>
        ensures { OnOk result (self.new ≡ saw self.old entry.now) }
    {
        if let Some(joining) = joining_of(alloc, entry)? {
            self.joinings.push(joining)?;
        }
        if let Request::Create(_) = entry.request {
            self.uploads.push(entry.id)?;
        }
        Ok(())
    }

    /// Adds the uploads that entries create. `AllocError` if memory runs out.
    pub fn see(&mut self, alloc: Global, entries: &[Entry]) -> Result<(), AllocError>
        ensures { OnOk result (self.new ≡ saw_all self.old entries.now) }
    {
        for entry in entries {
            self.see_one(alloc, entry)?;
        }
        Ok(())
    }

    /// The uploads that entries ask to create, in order.
    pub fn uploads(&self) -> &[Id]
        ensures { result.now ≡ self.now.uploads }
    {
        &self.uploads
    }

    /// Of uploads that were removed, those that can be left out: all but the parts of final uploads that stay.
    pub fn left_out(&self, ended: BTreeSet<Id>) -> BTreeSet<Id>
        ensures ended { IsSubset result ended }
        ensures joins { All (JoinsOnly (has_id result)) self.now.joinings }
        ensures kept { (entries : List Logged) → self.now ≡ saw_all nothing_seen entries
            → All (JoinsKept (has_id result)) entries }
    {
        without_parts(ended, &self.joinings)
    }
}
