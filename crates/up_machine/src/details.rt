//! What an upload was created with.
ghost use Rattle.std.specs.Prelude.{◌≡◌, IfOk};
ghost use Rattle.std.specs.Option.{option_copied};
ghost use Rattle.up_machine.specs.Details.{details_concat, details_id, details_kind};
ghost use Rattle.up_machine.specs.Details.{details_pairs};

use crate::upload::text;
use std::marker::Model;
use std::sync::Arc;
use up_events::{Id, Kind, NoMemory};
use up_headers::Pairs;
use up_message::Sequence;

/// What a creation said of an upload, whatever its id.
#[derive(Drop)]
pub struct Creation {
    pub kind: Kind,
    pub pairs: Pairs,
    pub concat: Option<Sequence<u8>>,
}

/// What an upload was created with: for whoever tells somebody of its events, also after it was removed. Only a book
/// makes this, of one of its uploads, with which it is shared.
#[derive(Drop)]
pub struct Details {
    pub(crate) id: Id,
    pub(crate) creation: Arc<Creation>,
}

impl Model for Details {
    ghost use Rattle.std.specs.Arc.{arc_value};
    ghost use Rattle.up_machine.specs.Details.{Details as Seen};

    ghost Value = { Seen };

    ghost view = { λ a. record {
      id = a.id;
      kind = (arc_value a.creation).kind;
      pairs = (arc_value a.creation).pairs;
      concat = (arc_value a.creation).concat;
    } };
}

impl Details {
    /// The same for another owner, without a copy. `NoMemory` if there are too many owners.
    pub fn share(&self) -> Result<Details, NoMemory>
        ensures { IfOk result (λ made. made ≡ self.now) }
    {
        Ok(Details {
            id: self.id,
            creation: Arc::try_clone(&self.creation)?,
        })
    }

    /// The id of the upload.
    pub fn id(&self) -> Id
        ensures { result ≡ details_id self.now }
    {
        self.id
    }

    /// The kind of the upload.
    pub fn kind(&self) -> Kind
        ensures { result ≡ details_kind self.now }
    {
        self.creation.kind
    }

    /// The pairs of the metadata text.
    pub fn pairs(&self) -> &[(Sequence<u8>, Sequence<u8>)]
        ensures { result.now ≡ details_pairs self.now }
    {
        self.creation.pairs.as_slice()
    }

    /// The text of `Upload-Concat` as it was sent, if it is not empty.
    pub fn concat(&self) -> Option<&[u8]>
        ensures { option_copied result ≡ details_concat self.now }
    {
        text(&self.creation.concat)
    }
}
