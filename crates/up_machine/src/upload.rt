//! One upload, with its bytes.
ghost use Rattle.std.specs.Prelude.{◌≡◌, [], false, length, IfOk, OnOk, OnErr};
ghost use Rattle.std.specs.Option.{option_copied};

use crate::details::{Creation, Details};
use crate::pieces::Pieces;
use crate::store::Store;
use crate::view::View;
use std::alloc::{AllocError, Global};
use std::marker::Model;
use std::mem;
use std::sync::Arc;
use up_events::{Accepted, Id, Journal, Kind, MAX_UPLOAD_BYTES, NoMemory};
use up_headers::NewUpload;
use up_message::{Piece, Segments, Sequence};

/// An upload: what the client said about it, and the bytes so far, never more than its length, if that is known.
#[derive(Drop)]
pub struct Upload {
    creation: Arc<Creation>,
    length: Option<u64>,
    bytes: Store,
    metadata: Option<Sequence<u8>>,
}

impl Model for Upload {
    ghost use Rattle.std.specs.Arc.{arc_value};
    ghost use Rattle.up_machine.specs.Content.{Content, content_code};
    ghost use Rattle.up_machine.specs.Stored.{stored, IsStored};

    ghost Value = { Content };

    ghost coded = { content_code };

    ghost view = { λ a. record {
      kind = (arc_value a.creation).kind;
      length = a.length;
      bytes = stored a.bytes;
      metadata = a.metadata;
      pairs = (arc_value a.creation).pairs;
      concat = (arc_value a.creation).concat;
    } };

    ghost invariant = { λ a. IsStored a.bytes a.length };
}

/// The bytes of a text, if there is one.
pub fn text(sent: &Option<Sequence<u8>>) -> Option<&[u8]>
    ensures { option_copied result ≡ sent.now }
{
    match sent {
        Some(text) => Some(text.as_slice()),
        None => None,
    }
}

impl Upload {
    ghost use Rattle.up_machine.specs.Content.{made_of, is_complete, with_more, IsWithinLength, CanTake};
    ghost use Rattle.up_machine.specs.Details.{details_of};
    ghost use Rattle.up_machine.specs.Views.{IsViewOf};
    ghost use Rattle.up_events.specs.History.{is_final_kind, CanFollow};
    ghost use Rattle.up_events.specs.Records.{noted};

    /// A new upload with these first bytes, which are all the bytes of a final one; any other has none. `NoMemory` if
    /// memory runs out.
    pub fn new(alloc: Global, new: NewUpload, first: Segments) -> Result<Self, NoMemory>
        requires within { IsWithinLength (made_of new first) }
        requires none { is_final_kind new.kind ≡ false → first ≡ [] }
        ensures { IfOk result (λ upload. upload ≡ made_of new first) }
    {
        let NewUpload {
            kind,
            length,
            parts: _,
            pairs,
            metadata,
            concat,
        } = new;
        let (length, bytes) = if kind == Kind::Final {
            (Some(first.len()), Store::Whole(first))
        } else {
            let bytes = Store::Open(Pieces::new(alloc));
            (length, bytes.frozen(alloc, length))
        };
        let creation = Creation {
            kind,
            pairs,
            concat,
        };
        Ok(Upload {
            creation: Arc::new(alloc, creation)?,
            length,
            bytes,
            metadata,
        })
    }

    /// The kind of the upload.
    pub fn kind(&self) -> Kind
        ensures { result ≡ self.now.kind }
    {
        self.creation.kind
    }

    /// The length in bytes, if it is known.
    pub fn length(&self) -> Option<u64>
        ensures { result ≡ self.now.length }
    {
        self.length
    }

    /// The number of bytes so far.
    pub fn offset(&self) -> u64
        ensures { result ≡ length self.now.bytes }
    {
        self.bytes.len()
    }

    /// Whether all bytes have arrived.
    pub fn is_complete(&self) -> bool
        ensures { result ≡ is_complete self.now }
    {
        self.length == Some(self.offset())
    }

    /// The metadata text, if there is one.
    pub fn metadata(&self) -> Option<&[u8]>
        ensures { option_copied result ≡ self.now.metadata }
    {
        text(&self.metadata)
    }

    /// The pairs of the metadata text.
    pub fn pairs(&self) -> &[(Sequence<u8>, Sequence<u8>)]
        ensures { result.now ≡ self.now.pairs }
    {
        self.creation.pairs.as_slice()
    }

    /// The text of `Upload-Concat`, if there is one.
    pub fn concat(&self) -> Option<&[u8]>
        ensures { option_copied result ≡ self.now.concat }
    {
        text(&self.creation.concat)
    }

    /// A view of the upload.
    pub fn view(&self) -> View
        ensures { IsViewOf self.now result }
    {
        let (runs, pieces, tail) = self.bytes.slices();
        View {
            kind: self.kind(),
            offset: self.offset(),
            length: self.length,
            metadata: self.metadata(),
            concat: self.concat(),
            runs,
            pieces,
            tail,
            spare: self.bytes.spare(),
        }
    }

    /// What the upload was created with, under this id, without a copy. `NoMemory` if there are too many owners.
    pub fn details(&self, id: Id) -> Result<Details, NoMemory>
        ensures { IfOk result (λ details. details ≡ details_of id self.now) }
    {
        Ok(Details {
            id,
            creation: Arc::try_clone(&self.creation)?,
        })
    }

    /// The bytes for a response or for another upload, shared if all have arrived. `AllocError` if memory runs out.
    pub fn share(&self, alloc: Global) -> Result<Segments, AllocError>
        ensures { IfOk result (λ bytes. bytes ≡ self.now.bytes) }
    {
        self.bytes.share(alloc)
    }

    /// Makes the responses share the bytes from now on, if all have arrived. If memory runs out, they do not share them
    /// yet.
    fn freeze(&mut self, alloc: Global)
        ensures { self.new ≡ self.old }
    {
        if !self.is_complete() {
            return;
        }
        let store = mem::replace(&mut self.bytes, Store::Open(Pieces::new(alloc)));
        self.bytes = store.frozen(alloc, self.length);
    }

    /// Notes the change in the journal, appends the bytes, and sets the length. If memory runs out, nothing is changed.
    pub fn append(
        &mut self,
        alloc: Global,
        journal: &mut Journal,
        change: Accepted,
        size: Option<u64>,
        more: &Piece,
    ) -> Result<(), NoMemory>
        requires room { CanTake size (length more.now) self.old }
        requires follows { CanFollow journal.old.accepted change }
        ensures ok { OnOk result (self.new ≡ with_more self.old size more.now) }
        ensures noted { OnOk result (journal.new ≡ noted journal.old change) }
        ensures err { OnErr result (self.new ≡ self.old) }
        ensures not_noted { OnErr result (journal.new ≡ journal.old) }
    {
        let Store::Open(pieces) = &mut self.bytes else {
            unreachable!()
        };
        let most = size.unwrap_or(MAX_UPLOAD_BYTES);
        pieces.append(alloc, journal, change, more, most)?;
        self.length = size;
        self.freeze(alloc);
        Ok(())
    }
}
