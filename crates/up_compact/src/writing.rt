//! Writing a shorter log while entries are appended to the longer one.
ghost use Rattle.std.specs.Prelude.{◌≡◌, ◌+◌, ◌^◌, ◌<◌, ◌++◌, [], ℕ, List, length, IfOk, OnOk, IsTrue};
ghost use Rattle.up_compact.specs.Shorter.{is_left_out, kept};
ghost use Rattle.up_compact.specs.Surveys.{has_id};
ghost use Rattle.up_compact.specs.Writing.{HasEntries, IsBehind, carried_out, staying};
ghost use Rattle.up_log.specs.Blocks.{written};
ghost use Rattle.up_log.specs.Held.{AreHeld};
ghost use Rattle.up_log.specs.Logs.{IsCleanLog, IsSettled};
ghost use Rattle.up_log.specs.declared.entry.Entry.{Entry as Logged};
ghost use Rattle.up_log.specs.declared.setup.Setup.{Setup as Numbers};

use sqlite_disk::Disk;
use std::alloc::{AllocError, Global};
use std::collections::BTreeSet;
use up_events::Id;
use up_headers::Request;
use up_log::{Entry, Log, LogFault, Spelled};
use up_places::Contents;

/// How much of a log has been processed.
#[derive(Clone, Copy, PartialEq, Eq)]
pub struct Progress {
    /// The place of the next batch.
    pub place: usize,
    /// The number of entries before it.
    pub count: u64,
    /// The number of these entries that stayed.
    pub stayed: u64,
}

/// What a shorter log leaves out.
#[derive(Drop)]
pub struct LeftOut {
    /// The places of entries that were not carried out.
    pub voids: BTreeSet<u64>,
    /// The uploads that are left out.
    pub uploads: BTreeSet<Id>,
}

/// Whether an entry is about one of these uploads, so that a shorter log leaves it out.
pub fn is_left_out(uploads: &BTreeSet<Id>, entry: &Entry) -> bool
    ensures { result ≡ is_left_out (has_id uploads.now) entry.now }
{
    match &entry.request {
        Request::Options => false,
        Request::Create(_) => uploads.contains(&entry.id),
        Request::Head(id) => uploads.contains(id),
        Request::Patch(patch) => uploads.contains(&patch.id),
        Request::Delete(id) => uploads.contains(id),
        Request::Get(id) => uploads.contains(id),
    }
}

/// Encodes those of these entries that stay. `first` is the place of the first entry in the log.
fn spell_staying(
    alloc: Global,
    left_out: &LeftOut,
    first: u64,
    entries: &[Entry],
) -> Result<Vec<Spelled>, AllocError>
    requires { first + length entries.now < 2 ^ 64 }
    ensures { IfOk result (λ spelled. spelled.items
        ≡ kept (has_id left_out.now.uploads)
        (carried_out (has_id left_out.now.voids) first entries.now)) }
{
    let mut spelled = Vec::new(alloc);
    let mut place = first;
    for entry in entries {
        if !left_out.voids.contains(&place) && !is_left_out(&left_out.uploads, entry) {
            spelled.push(Spelled::new(alloc, entry)?)?;
        }
        place += 1;
    }
    Ok(spelled)
}

/// Appends these entries to a log as a batch, if there are any.
fn append_any<D: Disk>(alloc: Global, log: &mut Log<D>, spelled: &[Spelled]) -> Result<(), LogFault>
    ensures { (setup : Numbers) (before : List Logged)
        → HasEntries D.Disk log.old setup before
        → OnOk result (HasEntries D.Disk log.new setup (before ++ spelled.now)) }
{
    if spelled.is_empty() {
        return Ok(());
    }
    log.append(&mut Vec::new(alloc), spelled)
}

/// Appends those of the entries of a batch that stay to a shorter log, and returns how much of the longer log is then
/// processed. `next` is the place after the batch. After `Ok` the entries are on the disk. The errors are those of
/// `Log::append`, `Memory` if memory runs out, and `TooMany` if there are too many entries to count.
pub fn add_staying<D: Disk>(
    alloc: Global,
    shorter: &mut Log<D>,
    left_out: &LeftOut,
    progress: Progress,
    entries: &[Entry],
    next: usize,
) -> Result<Progress, LogFault>
    ensures added { (setup : Numbers) (before : List Logged)
        → HasEntries D.Disk shorter.old setup before
        → OnOk result (HasEntries D.Disk shorter.new setup (before
        ++ kept (has_id left_out.now.uploads)
        (carried_out (has_id left_out.now.voids) progress.count entries.now))) }
    ensures further { IfOk result (λ p. (p.place ≡ next)
        × (p.count ≡ progress.count + length entries.now)) }
    ensures stayed { IfOk result (λ p. p.stayed ≡ progress.stayed
        + length (kept (has_id left_out.now.uploads)
        (carried_out (has_id left_out.now.voids) progress.count entries.now))) }
{
    // No log has that many entries.
    let Some(count) = progress.count.checked_add(entries.len() as u64) else {
        return Err(LogFault::TooMany);
    };
    let spelled = spell_staying(alloc, left_out, progress.count, entries)?;
    let Some(stayed) = progress.stayed.checked_add(spelled.len() as u64) else {
        return Err(LogFault::TooMany);
    };
    append_any(alloc, shorter, &spelled)?;
    Ok(Progress {
        place: next,
        count,
        stayed,
    })
}

impl Progress {
    /// Nothing of a log has been processed.
    pub fn start<D: Disk>() -> Progress
        ensures { (setup : Numbers) → IsBehind result setup [] }
    {
        Progress {
            place: Log::<D>::first_place(),
            count: 0,
            stayed: 0,
        }
    }
}

/// Appends all entries that stay, from this place of a log to its end, to a shorter log. These data files have the bytes
/// of which the log names the places. The longer log is unchanged. The errors are those of `Log::batch_at` and of
/// `add_staying`.
pub fn catch_up<D: Disk, S: Disk, C: Contents>(
    alloc: Global,
    log: &mut Log<D>,
    files: &C,
    shorter: &mut Log<S>,
    left_out: &LeftOut,
    progress: Progress,
) -> Result<Progress, LogFault>
    ensures added { (setup : Numbers) (read left : List (List Logged))
        → IsSettled D.Disk log.old setup (read ++ left) → AreHeld (C.content files.now) left
        → IsBehind progress setup read
        → HasEntries S.Disk shorter.old setup
        (staying (has_id left_out.now.voids) (has_id left_out.now.uploads) read)
        → IfOk result (λ p. IsCleanLog D.Disk log.new → IsBehind p setup (read ++ left)
        × HasEntries S.Disk shorter.new setup
        (staying (has_id left_out.now.voids) (has_id left_out.now.uploads) (read ++ left))) }
    ensures kept { (setup : Numbers) (batches : List (List Logged))
        → IsSettled D.Disk log.old setup batches → IsSettled D.Disk log.new setup batches }
{
    let mut progress = progress;
    while let Some((entries, next)) = log.batch_at(alloc, progress.place, files)? {
        progress = add_staying(alloc, shorter, left_out, progress, entries.as_slice(), next)?;
    }
    Ok(progress)
}
