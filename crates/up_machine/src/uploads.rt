//! The uploads, by id.
ghost use Rattle.std.specs.Prelude.{◌≡◌, ◌<◌, ◌^◌, length, Some, None, IfOk, OnOk, OnErr, IfSome, IsSomeAnd};
ghost use Rattle.std.specs.Option.{option_copied};
ghost use Rattle.std.specs.FinMap as map;
ghost use Rattle.std.specs.Ordering.{nat_cmp};
ghost use Rattle.std.specs.BTreeMap.{get, Updates, IsUnchanged};
ghost use Rattle.up_events.specs.History.{CanFollow};
ghost use Rattle.up_events.specs.Records.{noted};

use crate::parts;
use crate::remains::Remains;
use crate::upload::Upload;
use std::alloc::Global;
use std::collections::BTreeMap;
use std::collections::btree_map::Entry;
use std::marker::Model;
use up_events::{Accepted, Id, Journal, NoMemory};
use up_headers::NewUpload;
use up_message::Piece;

/// The uploads that exist, by id.
#[derive(Drop)]
pub struct Uploads {
    entries: BTreeMap<Id, Upload>,
}

impl Model for Uploads {
    ghost use Rattle.std.specs.Ordering.{nat_cmp};
    ghost use Rattle.std.specs.FinMap as map;
    ghost use Rattle.std.specs.Coded.{coded_ℕ};
    ghost use Rattle.up_machine.specs.Content.{Content, content_code};

    ghost Value = { map.FinMap nat_cmp Content };

    ghost coded = { map.code coded_ℕ content_code };

    ghost view = { λ a. map.from_entries a.entries.entries };
}

/// Notes the change in the journal, and inserts a new upload.
fn insert_noted(
    entries: &mut BTreeMap<Id, Upload>,
    journal: &mut Journal,
    change: Accepted,
    id: Id,
    upload: Upload,
) -> Result<(), NoMemory>
    requires new { get nat_cmp entries.old id ≡ None }
    requires follows { CanFollow journal.old.accepted change }
    ensures ok { OnOk result (Updates nat_cmp entries.old entries.new id (Some upload)) }
    ensures noted { OnOk result (journal.new ≡ noted journal.old change) }
    ensures err { OnErr result (IsUnchanged entries.old entries.new) }
    ensures not_noted { OnErr result (journal.new ≡ journal.old) }
{
    let Entry::Vacant(place) = entries.entry(id)? else {
        unreachable!()
    };
    journal.note(change)?;
    place.insert(upload);
    Ok(())
}

impl Uploads {
    ghost use Rattle.up_events.specs.declared.event.Accepted.TheVariants.{Created};
    ghost use Rattle.up_machine.specs.Content.{with_more, made_of, CanTake};
    ghost use Rattle.up_machine.specs.State.{first_bytes};

    /// No uploads. Takes no memory.
    pub fn new(alloc: Global) -> Self
        ensures { result ≡ map.empty }
    {
        Uploads {
            entries: BTreeMap::new(alloc),
        }
    }

    /// The upload with this id.
    pub fn get(&self, id: Id) -> Option<&Upload>
        ensures { option_copied result ≡ map.get self.now id }
    {
        self.entries.get(&id)
    }

    /// Notes the change in the journal, appends the bytes to the upload, and sets its length. If memory runs out,
    /// nothing is changed.
    pub fn append(
        &mut self,
        alloc: Global,
        journal: &mut Journal,
        change: Accepted,
        id: Id,
        size: Option<u64>,
        more: &Piece,
    ) -> Result<(), NoMemory>
        requires room { IsSomeAnd (map.get self.old id) (CanTake size (length more.now)) }
        requires follows { CanFollow journal.old.accepted change }
        ensures ok { OnOk result (IfSome (map.get self.old id) (λ x.
            self.new ≡ map.insert self.old id (with_more x size more.now))) }
        ensures noted { OnOk result (journal.new ≡ noted journal.old change) }
        ensures err { OnErr result (self.new ≡ self.old) }
        ensures not_noted { OnErr result (journal.new ≡ journal.old) }
    {
        let Some(upload) = self.entries.get_mut(&id) else {
            unreachable!()
        };
        upload.append(alloc, journal, change, size, more)
    }

    /// Makes a new upload, which begins with the bytes of its parts if it is a final one, notes its creation in the
    /// journal, and inserts it. Returns the change. If memory runs out, nothing is changed.
    pub fn create(
        &mut self,
        alloc: Global,
        journal: &mut Journal,
        new: NewUpload,
        id: Id,
    ) -> Result<Accepted, NoMemory>
        requires unused { map.get self.old id ≡ None }
        requires small { length (first_bytes self.old new) < 2 ^ 64 }
        requires follows { let made = made_of new (first_bytes self.old new) in
            CanFollow journal.old.accepted (Created id made.length made.kind) }
        ensures change { let made = made_of new (first_bytes self.old new) in
            IfOk result (λ change. change ≡ Created id made.length made.kind) }
        ensures ok { OnOk result (self.new
            ≡ map.insert self.old id (made_of new (first_bytes self.old new))) }
        ensures noted { IfOk result (λ change. journal.new ≡ noted journal.old change) }
        ensures err { OnErr result (self.new ≡ self.old) }
        ensures not_noted { OnErr result (journal.new ≡ journal.old) }
    {
        let first = parts::first_bytes(alloc, self, &new)?;
        let upload = Upload::new(alloc, new, first)?;
        let length = upload.length();
        let kind = upload.kind();
        let change = Accepted::Created { id, length, kind };
        self.insert(journal, change, id, upload)?;
        Ok(Accepted::Created { id, length, kind })
    }

    /// Notes the change in the journal, and inserts a new upload. If memory runs out, nothing is changed.
    fn insert(
        &mut self,
        journal: &mut Journal,
        change: Accepted,
        id: Id,
        upload: Upload,
    ) -> Result<(), NoMemory>
        requires new { map.get self.old id ≡ None }
        requires follows { CanFollow journal.old.accepted change }
        ensures ok { OnOk result (self.new ≡ map.insert self.old id upload) }
        ensures noted { OnOk result (journal.new ≡ noted journal.old change) }
        ensures err { OnErr result (self.new ≡ self.old) }
        ensures not_noted { OnErr result (journal.new ≡ journal.old) }
    {
        insert_noted(&mut self.entries, journal, change, id, upload)
    }

    /// Takes an upload out, which is dropped later. Takes no memory.
    pub fn remove(&mut self, id: Id, remains: &mut Remains)
        ensures { self.new ≡ map.remove self.old id }
    {
        remains.take_upload(self.entries.remove(&id));
    }
}
