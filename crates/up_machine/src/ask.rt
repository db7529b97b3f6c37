//! The question for a closure, and its verdict.
ghost use Rattle.std.specs.Prelude.{◌≡◌, None, Some, IfOk, if◌then◌else◌};
ghost use Rattle.std.specs.Option.{option_copied};
ghost use Rattle.up_events.specs.History.{is_final_kind};
ghost use Rattle.up_machine.specs.Asks.{ask_of, value_of};

use crate::checks::PatchOutcome;
use crate::copies::{copy_pairs, copy_text};
use crate::reason::Reason;
use crate::upload::{Upload, text};
use std::alloc::Global;
use up_events::{Id, Kind, NoMemory};
use up_headers::{NewUpload, Pairs, Patch};
use up_message::Sequence;

/// When a closure is asked.
#[derive(Clone, Copy, Debug, PartialEq, Eq)]
pub enum Point {
    /// Before an upload is created: `pre-create`.
    Create,
    /// Before an upload is removed: `pre-terminate`.
    Terminate,
    /// Before an upload is complete, by its creation or by an append: `pre-finish`.
    Finish,
}

/// The question for a closure.
#[derive(Drop)]
pub struct Ask {
    pub point: Point,
    /// The upload to be removed or appended to. `None` for an upload to be created, which has no id yet.
    pub target: Option<Id>,
    pub kind: Kind,
    /// In bytes: the offset of an upload to be removed; otherwise the offset after the request. A new upload begins
    /// with all of its bytes if it is final, and otherwise with none.
    pub offset: u64,
    /// In bytes, if it is known. The length of a final upload is that of its parts together.
    pub length: Option<u64>,
    /// The pairs of the metadata text of the upload.
    pub pairs: Pairs,
    /// The text of `Upload-Concat` of the upload as it was sent, if it is not empty.
    pub concat: Option<Sequence<u8>>,
}

/// The answer of a closure.
#[derive(Clone, Copy, PartialEq, Eq)]
pub enum Verdict {
    Allow,
    /// The request is not carried out. The status of the response is 400, 403, 409, 413, 422 or 429.
    Refuse { status: u16, reason: Reason },
}

/// The length of a new upload whose first bytes are `offset` in number.
pub(crate) fn first_size(new: &NewUpload, offset: u64) -> Option<u64>
    ensures { result ≡ (if is_final_kind new.now.kind then Some offset else new.now.length) }
{
    if new.kind == Kind::Final {
        Some(offset)
    } else {
        new.length
    }
}

impl Ask {
    ghost use Rattle.up_machine.specs.Content.{patched};
    ghost use Rattle.up_machine.specs.Decision.{patch_outcome};
    ghost use Rattle.up_machine.specs.declared.ask.Point.TheVariants.{Terminate, Finish};

    /// The question at this point before an upload is created, whose first bytes are `offset` in number.
    pub(crate) fn to_create(
        alloc: Global,
        point: Point,
        new: &NewUpload,
        offset: u64,
    ) -> Result<Ask, NoMemory>
        ensures { IfOk result (λ ask. ask ≡ record {
          point = point;
          target = None;
          kind = new.now.kind;
          offset = offset;
          length = if is_final_kind new.now.kind then Some offset else new.now.length;
          pairs = new.now.pairs;
          concat = new.now.concat;
        }) }
    {
        Ok(Ask {
            point,
            target: None,
            kind: new.kind,
            offset,
            length: first_size(new, offset),
            pairs: copy_pairs(alloc, new.pairs.as_slice())?,
            concat: copy_text(alloc, text(&new.concat))?,
        })
    }

    /// The question before an append that makes an upload complete.
    pub(crate) fn to_take(
        alloc: Global,
        patch: &Patch,
        upload: &Upload,
        step: PatchOutcome,
    ) -> Result<Ask, NoMemory>
        requires { step ≡ patch_outcome patch.now (Some upload.now) }
        ensures { IfOk result (λ ask. ask
            ≡ ask_of Finish (Some patch.now.id) (patched patch.now upload.now)) }
    {
        Ok(Ask {
            point: Point::Finish,
            target: Some(patch.id),
            kind: upload.kind(),
            offset: step.offset,
            length: step.size,
            pairs: copy_pairs(alloc, upload.pairs())?,
            concat: copy_text(alloc, upload.concat())?,
        })
    }

    /// The question before this upload is removed.
    pub(crate) fn to_remove(alloc: Global, id: Id, upload: &Upload) -> Result<Ask, NoMemory>
        ensures { IfOk result (λ ask. ask ≡ ask_of Terminate (Some id) upload.now) }
    {
        Ok(Ask {
            point: Point::Terminate,
            target: Some(id),
            kind: upload.kind(),
            offset: upload.offset(),
            length: upload.length(),
            pairs: copy_pairs(alloc, upload.pairs())?,
            concat: copy_text(alloc, upload.concat())?,
        })
    }

    /// The value of a key of the metadata, if there is such a key. Keys are compared byte for byte.
    pub fn value(&self, key: &[u8]) -> Option<&[u8]>
        ensures { option_copied result ≡ value_of key.now self.now.pairs }
    {
        let pair = self
            .pairs
            .as_slice()
            .iter()
            .find(|pair| pair.0.as_slice() == key)?;
        Some(pair.1.as_slice())
    }
}
