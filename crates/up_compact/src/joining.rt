//! A final upload and its parts.
ghost use Rattle.std.specs.Prelude.{◌≡◌, ◌&&◌, not, [], ◌∷◌, IfOk, MatchOption};
ghost use Rattle.std.specs.List.{list_any};
ghost use Rattle.up_compact.specs.Surveys.{has_id, joinings_of};

use std::alloc::{AllocError, Global};
use std::collections::BTreeSet;
use up_events::{Id, Kind};
use up_headers::Request;
use up_log::Entry;
use up_message::Sequence;

/// A final upload that an entry asks to create, and the uploads that it joins.
#[derive(Drop)]
pub struct Joining {
    pub id: Id,
    pub parts: Sequence<Id>,
}

/// The final upload that an entry asks to create, if any.
pub(crate) fn joining_of(alloc: Global, entry: &Entry) -> Result<Option<Joining>, AllocError>
    ensures { IfOk result (λ found. MatchOption found
        (joinings_of entry.now.request entry.now.id ≡ [])
        (λ joining. joinings_of entry.now.request entry.now.id ≡ joining ∷ [])) }
{
    let Request::Create(new) = &entry.request else {
        return Ok(None);
    };
    if new.kind != Kind::Final {
        return Ok(None);
    }
    Ok(Some(Joining {
        id: entry.id,
        parts: Sequence::from_slice(alloc, new.parts.as_slice())?,
    }))
}

/// Whether any of these uploads is in the set.
fn has_any(ids: &BTreeSet<Id>, parts: &[Id]) -> bool
    ensures { result ≡ list_any (has_id ids.now) parts.now }
{
    parts.iter().any(|part| ids.contains(part))
}

/// Whether a final upload would stay while one of its parts is left out.
pub(crate) fn misses_part(ids: &BTreeSet<Id>, joining: &Joining) -> bool
    ensures { result
        ≡ (not (has_id ids.now joining.now.id) && list_any (has_id ids.now) joining.now.parts) }
{
    !ids.contains(&joining.id) && has_any(ids, joining.parts.as_slice())
}
