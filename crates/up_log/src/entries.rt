//! Decoding entries.
ghost use Rattle.std.specs.Prelude.{◌≡◌};
ghost use Rattle.up_log.specs.Reading.{ReadsAs, so_many_at, entry_at, batch_at, whole_at};

use crate::entry::Entry;
use crate::fault::Unread;
use crate::reading::{consent_of, number_of, request_of, word_of};
use std::alloc::Global;
use up_events::Id;
use up_message::Sequence;
use up_places::Contents;

/// An entry, and what follows it.
#[tactic(auto, unfolding(crate::specs::Reading::entry_at))]
fn entry_of<'a, C: Contents>(
    alloc: Global,
    files: &C,
    bytes: &'a [u8],
) -> Result<(Entry, &'a [u8]), Unread>
    ensures { ReadsAs (λ x. (x.0, x.1.now)) result (entry_at (C.content files.now) bytes.now) }
{
    let (number, rest) = number_of(bytes)?;
    let (consent, rest) = consent_of(rest)?;
    let (asked, rest) = request_of(alloc, files, rest)?;
    let (place, request) = asked;
    let entry = Entry {
        id: Id::new(number),
        consent,
        place,
        request,
    };
    Ok((entry, rest))
}

/// `count` entries, and what follows them.
fn so_many_entries<'a, C: Contents>(
    alloc: Global,
    files: &C,
    count: u64,
    bytes: &'a [u8],
) -> Result<(Sequence<Entry>, &'a [u8]), Unread>
    ensures { ReadsAs (λ x. (x.0, x.1.now)) result
        (so_many_at (entry_at (C.content files.now)) count bytes.now) }
{
    let mut entries = Sequence::new(alloc);
    let mut rest = bytes;
    for _ in 0..count {
        let (entry, after) = entry_of(alloc, files, rest)?;
        entries.push(entry)?;
        rest = after;
    }
    Ok((entries, rest))
}

/// The batch that these bytes encode. Data files have the bytes of which it names the place.
#[tactic(auto, unfolding(crate::specs::Reading::whole_at))]
pub(crate) fn whole_batch<C: Contents>(
    alloc: Global,
    files: &C,
    bytes: &[u8],
) -> Result<Sequence<Entry>, Unread>
    ensures { ReadsAs (λ x. x) result (whole_at (C.content files.now) bytes.now) }
{
    let (entries, rest) = read_batch(alloc, files, bytes)?;
    if !rest.is_empty() {
        return Err(Unread::Damaged);
    }
    Ok(entries)
}

/// The entries at the start of the bytes, and the bytes after them.
#[tactic(auto, unfolding(crate::specs::Reading::batch_at, crate::specs::Reading::many_at))]
fn read_batch<'a, C: Contents>(
    alloc: Global,
    files: &C,
    bytes: &'a [u8],
) -> Result<(Sequence<Entry>, &'a [u8]), Unread>
    // Exactly what the definition decodes.
    ensures exact { ReadsAs (λ x. (x.0, x.1.now)) result (batch_at (C.content files.now) bytes.now) }
{
    let (count, rest) = word_of(bytes)?;
    so_many_entries(alloc, files, count, rest)
}
